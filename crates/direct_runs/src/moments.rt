// Histories by hand, with a boundary at every second tick.
use cos_api::{Access, Answer, Call, Calls, Reply, Want};
use cosim_model::Plan;
use histories::{Moment, merged};
use std::alloc::Global;

/// A read at a tick.
fn read(tick: u64) -> Call {
    Call::Access {
        tick,
        port: 0,
        access: Access {
            write: false,
            posted: false,
            addr: 0,
            size: 4,
            value: 0,
            lanes: 15,
        },
        answer: Answer { code: 0, value: 7 },
    }
}

/// A level that was served at a tick.
fn level(tick: u64, due: u64) -> Call {
    Call::Served {
        tick,
        port: 1,
        due,
        want: Want::Line {
            line: 3,
            level: true,
        },
        reply: Reply {
            code: 0,
            size: 0,
            bytes: [0; 64],
        },
    }
}

fn boundary(tick: u64) -> Moment {
    Moment::Boundary { tick }
}

/// Whether a run with these calls and so many ticks has these moments.
fn has_moments(alloc: Global, calls: &[Call], ticks: u64, moments: &[Moment]) -> bool {
    let mut kept = Calls::make(alloc);
    if kept.reserve(calls.len()).is_err() || kept.spare() < calls.len() {
        return false;
    }
    for call in calls {
        if kept.push(*call).is_err() {
            return false;
        }
    }
    let plan = Plan {
        quantum: 2,
        units: 10,
    };
    match merged(alloc, &kept, ticks, plan) {
        Ok(found) => found.as_slice() == moments,
        Err(_) => false,
    }
}

#[test]
fn a_boundary_stands_before_the_calls_of_its_tick(rt: HostRuntime) {
    let called = Moment::Called;
    // with a shorter quantum at the end, at a multiple of the quantum, and without a unit
    let calls = [read(0), level(2, 1), read(2), read(4), level(5, 5)];
    let moments = [
        called(read(0)),
        boundary(2),
        called(level(2, 1)),
        called(read(2)),
        boundary(4),
        called(read(4)),
        boundary(5),
        called(level(5, 5)),
    ];
    assert!(rt; has_moments(rt.alloc(), &calls, 5, &moments));
    let calls = [read(3), level(4, 2)];
    let moments = [
        boundary(2),
        called(read(3)),
        boundary(4),
        called(level(4, 2)),
    ];
    assert!(rt; has_moments(rt.alloc(), &calls, 4, &moments));
    let moments = [boundary(0), called(level(0, 0))];
    assert!(rt; has_moments(rt.alloc(), &[level(0, 0)], 0, &moments));
}
