// Scripts over timers: what the built program doesn't reach. Its runs stand in tests/.
ghost use Rattle.std.specs.Prelude.{◌≡◌, None};
ghost use Rattle.cos_parts.specs.AnyMasters.{any_model};

use crate::calls::{gave, line, wrote};
use cos_api::Device;
use cos_parts::{AnyDevice, AnyMaster};
use cos_script::ScriptMaster;
use cosim_model::Plan;
use dev_timer::Timer;
use direct_machine::{Parts, direct, direct_by_port};
use histories::{Moment, history};
use std::alloc::Global;
use std::process::Abort;
use sys_ram::Ram;

/// The master of a script for so many ports, with RAM of 4,096 bytes.
fn script(rt: &impl Abort, alloc: Global, text: &str, ports: u32) -> AnyMaster
    ensures reach { any_model.reach result ≡ ports }
    ensures issued { any_model.issued result ≡ None }
{
    let ram = Ram::make(alloc, 4096).expect(rt, "there is memory");
    AnyMaster::Script(ScriptMaster::make(alloc, text, ports, ram).expect(rt, "it is a script"))
}

/// So many timers, each at the line of its port's number.
fn timers(rt: &impl Abort, alloc: Global, count: u32) -> Vec<AnyDevice> {
    let mut devices = Vec::new(alloc);
    for number in 0..count {
        match devices.push(AnyDevice::Timer(Timer::make(number))) {
            Ok(()) => {}
            Err(_) => panic!(rt; "there is memory"),
        }
    }
    devices
}

#[test]
fn by_port_all_wants_of_the_least_port_come_first(rt: HostRuntime) {
    let text =
        "write 0 0x4 4 0x7\nwrite 0 0x8 4 0x1\nwrite 1 0x4 4 0x5\nwrite 1 0x8 4 0x1\nwait 6\n";
    let plan = Plan {
        quantum: 10,
        units: 100,
    };
    let devices = timers(&rt, rt.alloc(), 2);
    assert!(rt; devices.len() == 2);
    assert!(rt; devices.iter().all(|device| device.seen() == 0));
    let master = script(&rt, rt.alloc(), text, 2);
    let run = direct_by_port(rt.alloc(), master, devices, plan).expect(&rt, "there is memory");
    let expected = [
        wrote(0, 0, 0x4, 0x7, 0),
        wrote(1, 0, 0x8, 0x1, 0),
        wrote(2, 1, 0x4, 0x5, 0),
        wrote(3, 1, 0x8, 0x1, 0),
        line(10, 0, 7, 0, true),
        line(10, 1, 5, 1, true),
    ];
    assert!(rt; run.calls.as_slice() == expected.as_slice());
}

#[test]
fn a_history_has_the_boundaries_between_the_calls(rt: HostRuntime) {
    let text = "write 0 0x4 4 0x3\nwrite 0 0x8 4 0x1\nwait 2\nread 0 0x4 4\n";
    let plan = Plan {
        quantum: 2,
        units: 100,
    };
    let devices = timers(&rt, rt.alloc(), 1);
    assert!(rt; devices.len() == 1);
    assert!(rt; devices.iter().all(|device| device.seen() == 0));
    let master = script(&rt, rt.alloc(), text, 1);
    let run = direct(rt.alloc(), master, devices, plan).expect(&rt, "there is memory");
    let moments = history(rt.alloc(), &run, plan).expect(&rt, "there is memory");
    let expected = [
        Moment::Called(wrote(0, 0, 0x4, 0x3, 0)),
        Moment::Called(wrote(1, 0, 0x8, 0x1, 0)),
        Moment::Boundary { tick: 2 },
        Moment::Boundary { tick: 4 },
        Moment::Called(line(4, 0, 3, 0, true)),
        Moment::Called(gave(4, 0, 0x4, 0x3)),
        Moment::Boundary { tick: 5 },
    ];
    assert!(rt; moments.as_slice() == expected.as_slice());
}

#[test]
fn parts_are_kept_by_port(rt: HostRuntime) {
    let mut parts = Parts::make(rt.alloc());
    assert!(rt; parts.push(AnyDevice::Timer(Timer::make(4))).is_ok());
    let parts = Parts::from_vec(parts.into_vec());
    assert!(rt; parts.len() == 1 && parts.as_slice().len() == 1);
}
