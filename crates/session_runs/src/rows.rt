// What each packet means to a session, and which fault it is.
ghost use Rattle.std.specs.Prelude.{◌≡◌, true, None};

use cos_base::{NoMemory, Numbers, Octets};
use rp_control::{Cfg, Hello, Interrupt, Sync};
use rp_packet::BusAccess;
use rp_session::{Caps, Command, Event, Packet, Role, Session, SessionFault, Tag};
use std::alloc::Global;

const NONE: Caps = Caps {
    base: false,
    enables: false,
    posted: false,
};

const BASE: Caps = Caps {
    base: true,
    enables: false,
    posted: false,
};

const ALL: Caps = Caps {
    base: true,
    enables: true,
    posted: true,
};

/// What went and came before the packet that a case takes.
#[derive(Clone, Copy)]
enum Stage {
    /// The own hello went.
    Greeted,
    /// And the peer's came, which offers all capabilities.
    Met,
    /// And neither side offers or needs a capability.
    Bare,
    /// And both sides have capability 1 alone in common.
    Based,
    /// And a read of the peer with number 1 at time 100 is unanswered, with no capability in common.
    BareAsked,
    /// And an own read of 4 bytes with number 1 is out.
    Reading,
    /// And an own sync with number 1 is out.
    Syncing,
    /// And a read of the peer with number 1 at time 100 is unanswered.
    Asked,
}

/// The fields of an access of 2 bytes that sessions look at; it has an enable byte where bit 14 of its attributes is set.
fn bus(alloc: Global, time: u64, attributes: u16) -> Result<BusAccess, NoMemory> {
    let mut access = BusAccess {
        time,
        attributes: u64::from(attributes),
        addr: 0,
        len: 2,
        width: 0,
        stream_width: 2,
        master: 0,
        payload: Octets::make(alloc),
        enables: Octets::make(alloc),
    };
    if attributes >= 0x4000 {
        access.enables.push_all(&[255])?;
    }
    Ok(access)
}

/// A hello of a version, with so many of the capabilities 1, 2 and 3.
fn hello(alloc: Global, major: u16, count: u64) -> Result<Hello, NoMemory> {
    let mut caps = Numbers::make(alloc);
    for cap in 1..4 {
        if u64::from(cap) <= count {
            caps.push(cap)?;
        }
    }
    Ok(Hello {
        major,
        minor: 0,
        caps,
    })
}

fn interrupt(time: u64) -> Interrupt {
    Interrupt {
        time,
        vector: 0,
        line: 0,
        val: 1,
    }
}

/// A packet by its command, tag and the fields that sessions look at. `detail` is the version of a hello and the attributes of an
/// access; a hello names the capabilities from 1 to `time`.
fn packet(
    alloc: Global,
    kind: Command,
    tag: Tag,
    time: u64,
    detail: u16,
) -> Result<Packet, NoMemory> {
    Ok(match kind {
        Command::Nop => Packet::Nop(tag),
        Command::Hello => Packet::Hello(tag, hello(alloc, detail, time)?),
        Command::Cfg => Packet::Cfg(tag, Cfg { opt: 0, set: 0 }),
        Command::Read => Packet::Read(tag, bus(alloc, time, detail)?),
        Command::Write => Packet::Write(tag, bus(alloc, time, detail)?),
        Command::Interrupt => Packet::Interrupt(tag, interrupt(time)),
        Command::Sync => Packet::Sync(tag, Sync { time }),
    })
}

fn tag(id: u32, flags: u32) -> Tag {
    Tag { id, flags, dev: 0 }
}

/// What both sides have to offer and to need.
fn offer_of(stage: Stage) -> Caps {
    match stage {
        Stage::Bare | Stage::BareAsked => NONE,
        Stage::Based => BASE,
        _ => ALL,
    }
}

/// Sends the own request of that stage.
fn ask(session: &mut Session, stage: Stage)
    requires greeted { session.old.hello_went ≡ true }
    requires no_sync { session.old.own_sync ≡ None }
    requires no_other { session.old.own_other ≡ None }
{
    match stage {
        Stage::Reading => {
            session.request(Command::Read, false, 4);
        }
        Stage::Syncing => {
            session.request(Command::Sync, false, 0);
        }
        _ => {}
    }
}

/// What a session makes of a packet, with no word of what it keeps: what its callers prove of it is less so.
fn taken(session: &mut Session, packet: &Packet) -> Result<Event, SessionFault> {
    session.take(packet)
}

/// Takes the peer's hello, but at the first stage.
fn meet(alloc: Global, session: &mut Session, stage: Stage) -> Result<(), NoMemory> {
    if matches!(stage, Stage::Greeted) {
        return Ok(());
    }
    let hello = packet(alloc, Command::Hello, tag(0, 0), 3, 4)?;
    let _met = taken(session, &hello);
    Ok(())
}

/// Takes the peer's read of that stage.
fn hear(alloc: Global, session: &mut Session, stage: Stage) -> Result<(), NoMemory> {
    if matches!(stage, Stage::Asked | Stage::BareAsked) {
        let read = packet(alloc, Command::Read, tag(1, 0), 100, 0)?;
        let _asked = taken(session, &read);
    }
    Ok(())
}

/// A session at that stage.
fn session_at(alloc: Global, role: Role, stage: Stage) -> Result<Session, NoMemory> {
    let mut session = Session::make(role, offer_of(stage), offer_of(stage), 0);
    session.hello(alloc)?;
    ask(&mut session, stage);
    meet(alloc, &mut session, stage)?;
    hear(alloc, &mut session, stage)?;
    Ok(session)
}

/// A packet and what a session makes of it. The numbers are the packet's flags, number, time and detail.
#[derive(Clone, Copy)]
struct Case {
    role: Role,
    stage: Stage,
    kind: Command,
    numbers: (u32, u32, u64, u16),
    answer: Result<Event, SessionFault>,
}

#[derive(Clone, Copy)]
struct Cases<const N: usize> {
    rows: [Case; N],
}

const EVERY_ROW: Cases<36> = Cases {
    rows: [
        Case {
            role: Role::Machine,
            stage: Stage::Greeted,
            kind: Command::Sync,
            numbers: (0, 1, 0, 0),
            answer: Err(SessionFault::HelloMissing { cmd: 6 }),
        },
        Case {
            role: Role::Device,
            stage: Stage::Greeted,
            kind: Command::Read,
            numbers: (0, 1, 0, 0),
            answer: Err(SessionFault::HelloMissing { cmd: 3 }),
        },
        Case {
            role: Role::Device,
            stage: Stage::Greeted,
            kind: Command::Nop,
            numbers: (2, 1, 0, 0),
            answer: Ok(Event::Nothing),
        },
        Case {
            role: Role::Machine,
            stage: Stage::Met,
            kind: Command::Hello,
            numbers: (0, 0, 3, 4),
            answer: Err(SessionFault::HelloAgain),
        },
        Case {
            role: Role::Device,
            stage: Stage::Met,
            kind: Command::Hello,
            numbers: (0, 0, 3, 5),
            answer: Err(SessionFault::HelloAgain),
        },
        Case {
            role: Role::Machine,
            stage: Stage::Greeted,
            kind: Command::Hello,
            numbers: (0, 0, 1, 5),
            answer: Err(SessionFault::Version { major: 5 }),
        },
        Case {
            role: Role::Device,
            stage: Stage::Greeted,
            kind: Command::Hello,
            numbers: (0, 0, 3, 5),
            answer: Err(SessionFault::Version { major: 5 }),
        },
        Case {
            role: Role::Machine,
            stage: Stage::Greeted,
            kind: Command::Hello,
            numbers: (0, 0, 0, 4),
            answer: Err(SessionFault::CapMissing { cap: 1 }),
        },
        Case {
            role: Role::Device,
            stage: Stage::Greeted,
            kind: Command::Hello,
            numbers: (2, 0, 1, 4),
            answer: Err(SessionFault::CapMissing { cap: 2 }),
        },
        Case {
            role: Role::Machine,
            stage: Stage::Met,
            kind: Command::Cfg,
            numbers: (2, 0, 0, 0),
            answer: Err(SessionFault::Unsupported { cmd: 2 }),
        },
        Case {
            role: Role::Machine,
            stage: Stage::Met,
            kind: Command::Sync,
            numbers: (0, 1, 0, 0),
            answer: Err(SessionFault::Unsupported { cmd: 6 }),
        },
        Case {
            role: Role::Device,
            stage: Stage::Asked,
            kind: Command::Interrupt,
            numbers: (0, 2, 99, 0),
            answer: Err(SessionFault::Unsupported { cmd: 5 }),
        },
        Case {
            role: Role::Device,
            stage: Stage::Greeted,
            kind: Command::Hello,
            numbers: (2, 0, 3, 4),
            answer: Err(SessionFault::StrayAnswer { id: 0, cmd: 1 }),
        },
        Case {
            role: Role::Machine,
            stage: Stage::Reading,
            kind: Command::Read,
            numbers: (2, 5, 0, 0),
            answer: Err(SessionFault::StrayAnswer { id: 5, cmd: 3 }),
        },
        Case {
            role: Role::Device,
            stage: Stage::Reading,
            kind: Command::Write,
            numbers: (2, 1, 0, 0),
            answer: Err(SessionFault::StrayAnswer { id: 1, cmd: 4 }),
        },
        Case {
            role: Role::Machine,
            stage: Stage::Reading,
            kind: Command::Read,
            numbers: (2, 1, 0, 0),
            answer: Err(SessionFault::WrongAnswer {
                id: 1,
                wanted: 4,
                got: 2,
            }),
        },
        Case {
            role: Role::Device,
            stage: Stage::Reading,
            kind: Command::Read,
            numbers: (2, 1, 0, 256),
            answer: Ok(Event::Answered),
        },
        Case {
            role: Role::Machine,
            stage: Stage::Bare,
            kind: Command::Read,
            numbers: (0, 1, 0, 4),
            answer: Err(SessionFault::CapMissing { cap: 1 }),
        },
        Case {
            role: Role::Device,
            stage: Stage::Bare,
            kind: Command::Write,
            numbers: (4, 1, 0, 4),
            answer: Err(SessionFault::CapMissing { cap: 1 }),
        },
        Case {
            role: Role::Machine,
            stage: Stage::Asked,
            kind: Command::Write,
            numbers: (4, 2, 99, 0),
            answer: Err(SessionFault::TimeBackwards { had: 100, got: 99 }),
        },
        Case {
            role: Role::Device,
            stage: Stage::Asked,
            kind: Command::Read,
            numbers: (0, 2, 99, 0),
            answer: Err(SessionFault::TimeBackwards { had: 100, got: 99 }),
        },
        Case {
            role: Role::Machine,
            stage: Stage::Asked,
            kind: Command::Interrupt,
            numbers: (4, 2, 100, 0),
            answer: Err(SessionFault::EarlyPosted { id: 2 }),
        },
        Case {
            role: Role::Machine,
            stage: Stage::Syncing,
            kind: Command::Interrupt,
            numbers: (4, 2, 100, 0),
            answer: Ok(Event::Told),
        },
        Case {
            role: Role::Machine,
            stage: Stage::Asked,
            kind: Command::Interrupt,
            numbers: (0, 2, 100, 0),
            answer: Err(SessionFault::SecondRequest { id: 2 }),
        },
        Case {
            role: Role::Device,
            stage: Stage::Asked,
            kind: Command::Read,
            numbers: (0, 2, 100, 0),
            answer: Err(SessionFault::SecondRequest { id: 2 }),
        },
        Case {
            role: Role::Machine,
            stage: Stage::Syncing,
            kind: Command::Sync,
            numbers: (2, 1, 100, 0),
            answer: Ok(Event::SyncDone),
        },
        Case {
            role: Role::Machine,
            stage: Stage::Met,
            kind: Command::Hello,
            numbers: (0, 0, 3, 5),
            answer: Err(SessionFault::HelloAgain),
        },
        Case {
            role: Role::Device,
            stage: Stage::Greeted,
            kind: Command::Hello,
            numbers: (0, 0, 1, 5),
            answer: Err(SessionFault::Version { major: 5 }),
        },
        Case {
            role: Role::Device,
            stage: Stage::Met,
            kind: Command::Cfg,
            numbers: (0, 0, 0, 0),
            answer: Err(SessionFault::Unsupported { cmd: 2 }),
        },
        Case {
            role: Role::Device,
            stage: Stage::Met,
            kind: Command::Cfg,
            numbers: (2, 0, 0, 0),
            answer: Err(SessionFault::Unsupported { cmd: 2 }),
        },
        Case {
            role: Role::Device,
            stage: Stage::Reading,
            kind: Command::Read,
            numbers: (2, 1, 0, 0),
            answer: Err(SessionFault::WrongAnswer {
                id: 1,
                wanted: 4,
                got: 2,
            }),
        },
        Case {
            role: Role::Machine,
            stage: Stage::Based,
            kind: Command::Read,
            numbers: (0, 1, 0, 0x4004),
            answer: Err(SessionFault::CapMissing { cap: 2 }),
        },
        Case {
            role: Role::Device,
            stage: Stage::Based,
            kind: Command::Write,
            numbers: (0, 1, 0, 0x4004),
            answer: Err(SessionFault::CapMissing { cap: 2 }),
        },
        Case {
            role: Role::Machine,
            stage: Stage::Bare,
            kind: Command::Write,
            numbers: (0, 1, 0, 0x4004),
            answer: Err(SessionFault::CapMissing { cap: 1 }),
        },
        Case {
            role: Role::Machine,
            stage: Stage::BareAsked,
            kind: Command::Read,
            numbers: (0, 2, 99, 4),
            answer: Err(SessionFault::CapMissing { cap: 1 }),
        },
        Case {
            role: Role::Device,
            stage: Stage::BareAsked,
            kind: Command::Read,
            numbers: (0, 2, 99, 4),
            answer: Err(SessionFault::CapMissing { cap: 1 }),
        },
    ],
};

/// Whether a session makes this of the packet, and answers a fault again from then on.
fn is_answered(alloc: Global, case: Case) -> Result<bool, NoMemory> {
    let (flags, id, time, detail) = case.numbers;
    let mut session = session_at(alloc, case.role, case.stage)?;
    let packet = packet(alloc, case.kind, tag(id, flags), time, detail)?;
    let first = taken(&mut session, &packet);
    let second = taken(&mut session, &Packet::Nop(tag(0, 0)));
    Ok(first == case.answer && (first.is_ok() || second == first))
}

#[test]
fn each_row_of_faults_comes_in_its_order_and_stays(rt: HostRuntime) {
    for case in EVERY_ROW.rows {
        assert!(rt; matches!(is_answered(rt.alloc(), case), Ok(true)));
    }
}

/// Whether so many nops mean nothing.
fn takes_nops(session: &mut Session, count: u32) -> bool {
    let nop = Packet::Nop(tag(0, 0));
    for _ in 0..count {
        if taken(session, &nop) != Ok(Event::Nothing) {
            return false;
        }
    }
    true
}

/// Whether a wait ends at the packet number 8,192 of it, which is also one before any hello.
fn ends_a_flood(alloc: Global) -> Result<bool, NoMemory> {
    let mut session = session_at(alloc, Role::Machine, Stage::Greeted)?;
    let before = takes_nops(&mut session, 8000);
    session.begin_wait();
    let within = takes_nops(&mut session, 8191);
    let sync = packet(alloc, Command::Sync, tag(1, 0), 0, 0)?;
    let flood = Err(SessionFault::Flood { count: 8192 });
    Ok(before && within && taken(&mut session, &sync) == flood)
}

/// Whether the greatest number is followed by 0, and posted requests take one.
fn wraps_its_numbers(alloc: Global) -> Result<bool, NoMemory> {
    let mut session = Session::make(Role::Machine, ALL, NONE, 4_294_967_295);
    let first = tag(4_294_967_295, 0);
    let is_first = matches!(session.hello(alloc)?, Packet::Hello(own, _) if own == first);
    let posted = session.request(Command::Write, true, 4) == tag(0, 4);
    let next = session.request(Command::Sync, false, 0) == tag(1, 0);
    Ok(is_first && posted && next && session.common() == NONE)
}

/// Whether the answer of a sync has its number and flags.
fn repeats_a_request(alloc: Global) -> Result<bool, NoMemory> {
    let mut session = session_at(alloc, Role::Device, Stage::Met)?;
    let sync = packet(alloc, Command::Sync, tag(7, 1), 1000, 0)?;
    match session.take(&sync) {
        Ok(Event::Asked(ticket)) => {
            Ok(session.answer(ticket) == tag(7, 3) && session.common() == ALL)
        }
        _ => Ok(false),
    }
}

#[test]
fn packets_and_requests_are_counted(rt: HostRuntime) {
    assert!(rt; matches!(ends_a_flood(rt.alloc()), Ok(true)));
    assert!(rt; matches!(wraps_its_numbers(rt.alloc()), Ok(true)));
    assert!(rt; matches!(repeats_a_request(rt.alloc()), Ok(true)));
}
