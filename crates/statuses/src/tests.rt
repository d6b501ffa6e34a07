use crate::{InputFault, Status, tell_status};
use cos_base::{NoMemory, Numbers};
use cos_memory::MemSink;
use cosim_model::{EndFault, SessionFault};
use outcomes::Object;
use rp_packet::{Cause, PacketFault};
use std::alloc::Global;
use std::test::Fail;

/// Whether this status has this number and this line.
fn is_told(alloc: Global, status: &Status, code: u8, line: &str) -> Result<bool, NoMemory> {
    let mut err = MemSink::make(alloc, 200, Numbers::make(alloc))?;
    tell_status(&mut err, status);
    Ok(status.code() == code && err.bytes() == line.as_bytes())
}

#[test]
fn each_status_has_its_number_and_line(rt: HostRuntime) -> Result<(), Fail> {
    let alloc = rt.alloc();
    assert!(rt; is_told(alloc, &Status::Done, 0, "")?);
    assert!(rt;
        is_told(
            alloc,
            &Status::Usage { index: 3 },
            1,
            "cosim: usage at word 3\n"
        )?
    );
    assert!(rt; is_told(alloc, &Status::NoMemory, 6, "cosim: no memory\n")?);
    let peer = Status::Peer {
        port: 2,
        fault: EndFault::Ended { taken: 44 },
    };
    assert!(rt; is_told(alloc, &peer, 4, "cosim: peer p2: Ended 44\n")?);
    for (object, line) in [
        (Object::Files, "cosim: outside: files 1\n"),
        (Object::Out, "cosim: outside: out 1\n"),
        (Object::Net, "cosim: outside: net 1\n"),
        (Object::Link { port: 7 }, "cosim: outside: link p7 1\n"),
        (Object::Spawner, "cosim: outside: spawner 1\n"),
    ] {
        assert!(rt; is_told(alloc, &Status::Outside { object, count: 1 }, 5, line)?);
    }
    Ok(())
}

/// A translation packet behind a hello: no packet of this profile.
fn translation() -> PacketFault {
    PacketFault {
        start: 44,
        place: 0,
        cause: Cause::Translation { number: 7 },
    }
}

#[test]
fn each_fault_of_a_peer_has_its_line(rt: HostRuntime) -> Result<(), Fail> {
    let alloc = rt.alloc();
    for (fault, line) in [
        (
            EndFault::Malformed(translation()),
            "cosim: peer p0: Malformed 44 0 Translation 7\n",
        ),
        (
            EndFault::Truncated {
                start: 44,
                held: 30,
            },
            "cosim: peer p0: Truncated 44 30\n",
        ),
        (
            EndFault::Session(SessionFault::HelloMissing { cmd: 6 }),
            "cosim: peer p0: HelloMissing 6\n",
        ),
        (
            EndFault::TooMuch {
                taken: 1099511627776,
            },
            "cosim: peer p0: TooMuch 1099511627776\n",
        ),
        (
            EndFault::LateWant { at: 0, got: 1 },
            "cosim: peer p0: LateWant 0 1\n",
        ),
        (EndFault::Astray { cmd: 5 }, "cosim: peer p0: Astray 5\n"),
    ] {
        assert!(rt; is_told(alloc, &Status::Peer { port: 0, fault }, 4, line)?);
    }
    Ok(())
}

#[test]
fn each_fault_of_a_session_has_its_line(rt: HostRuntime) -> Result<(), Fail> {
    let alloc = rt.alloc();
    for (fault, line) in [
        (
            SessionFault::Flood { count: 8192 },
            "cosim: peer p3: Flood 8192\n",
        ),
        (SessionFault::HelloAgain, "cosim: peer p3: HelloAgain\n"),
        (
            SessionFault::Version { major: 5 },
            "cosim: peer p3: Version 5\n",
        ),
        (
            SessionFault::CapMissing { cap: 1 },
            "cosim: peer p3: CapMissing 1\n",
        ),
        (
            SessionFault::Unsupported { cmd: 2 },
            "cosim: peer p3: Unsupported 2\n",
        ),
        (
            SessionFault::StrayAnswer { id: 9, cmd: 3 },
            "cosim: peer p3: StrayAnswer 9 3\n",
        ),
        (
            SessionFault::WrongAnswer {
                id: 6,
                wanted: 4,
                got: 2,
            },
            "cosim: peer p3: WrongAnswer 6 4 2\n",
        ),
        (
            SessionFault::TimeBackwards { had: 100, got: 99 },
            "cosim: peer p3: TimeBackwards 100 99\n",
        ),
        (
            SessionFault::EarlyPosted { id: 1 },
            "cosim: peer p3: EarlyPosted 1\n",
        ),
        (
            SessionFault::SecondRequest { id: 2 },
            "cosim: peer p3: SecondRequest 2\n",
        ),
    ] {
        let fault = EndFault::Session(fault);
        assert!(rt; is_told(alloc, &Status::Peer { port: 3, fault }, 4, line)?);
    }
    Ok(())
}

#[test]
fn a_child_is_told_with_its_status(rt: HostRuntime) -> Result<(), Fail> {
    let status = Status::Child { port: 0, status: 3 };
    assert!(rt; is_told(rt.alloc(), &status, 8, "cosim: child p0 status 3\n")?);
    Ok(())
}

#[test]
fn a_malformed_packet_is_told_alike_in_a_file(rt: HostRuntime) -> Result<(), Fail> {
    let status = Status::Input(InputFault::Malformed(translation()));
    let line = "cosim: input: Malformed 44 0 Translation 7\n";
    assert!(rt; is_told(rt.alloc(), &status, 3, line)?);
    Ok(())
}
