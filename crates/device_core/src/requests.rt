// The requests that a want becomes, and the hello.
ghost use Rattle.std.specs.Prelude.{◌≡◌, ◌+◌, ◌<◌, ◌≤◌, ◌++◌, true, false, None, [], length};
ghost use Rattle.cosim_model.specs.Values.{bits_of};
ghost use Rattle.cosim_model.specs.Packets.Body.{Read, Write, Interrupt as InterruptBody};
ghost use Rattle.cosim_model.specs.Sessions.{request_of};
ghost use Rattle.ends_model.specs.DeviceTurn.{request_fields, level_of, sent_body, want_body};
ghost use Rattle.rp_packet.specs.Spelling.{packet_bytes};
ghost use Rattle.device_core.specs.Cores.{HasSize};

use cos_base::Octets;
use cosim_model::{Command, Want};
use end_packets::{BusPlace, Request, put_packet};
use rp_control::Interrupt;
use rp_packet::Packet;
use rp_session::Session;

/// Puts the request of a read of the machine's memory.
fn put_fetch(
    session: &mut Session,
    place: &mut BusPlace,
    due: u64,
    addr: u64,
    size: u8,
    out: &mut Octets,
)
    requires greeted { session.old.hello_went ≡ true }
    requires free { session.old.own_other ≡ None }
    requires room { 208 ≤ out.old.spare }
    ensures session { session.new ≡ sent_body session.old false (Read (request_fields session.old.common due addr size [] [])) }
    ensures bytes { out.new.bytes ≡ out.old.bytes ++ packet_bytes (request_of session.old false (Read (request_fields session.old.common due addr size [] []))) }
    ensures place { place.old.room ≤ place.new.room }
{
    let common = session.common();
    let len = u32::from(size);
    let tag = session.request(Command::Read, false, len);
    let request = Request {
        time: due,
        addr,
        len,
        mask: 0,
        lanes: 0,
    };
    place.put_read_request(tag, common, request, out);
}

/// Puts the request of a write of the machine's memory.
fn put_store(
    session: &mut Session,
    place: &mut BusPlace,
    due: u64,
    addr: u64,
    bytes: &[u8],
    mask: u64,
    out: &mut Octets,
)
    requires greeted { session.old.hello_went ≡ true }
    requires free { session.old.own_other ≡ None }
    requires few { length bytes.now ≤ 64 }
    requires fits { 64 ≤ place.old.room }
    requires room { 208 ≤ out.old.spare }
    ensures session { session.new ≡ sent_body session.old false (Write (request_fields session.old.common due addr (length bytes.now) bytes.now (bits_of mask (length bytes.now)))) }
    ensures bytes { out.new.bytes ≡ out.old.bytes ++ packet_bytes (request_of session.old false (Write (request_fields session.old.common due addr (length bytes.now) bytes.now (bits_of mask (length bytes.now))))) }
    ensures place { place.old.room ≤ place.new.room }
{
    let common = session.common();
    let len = bytes.len() as u32;
    let tag = session.request(Command::Write, false, len);
    let request = Request {
        time: due,
        addr,
        len,
        mask,
        lanes: bytes.len() as u8,
    };
    place.put_write_request(tag, common, request, bytes, out);
}

/// Puts the interrupt of a level on a line.
pub fn put_line(
    session: &mut Session,
    due: u64,
    posted: bool,
    line: u32,
    level: bool,
    out: &mut Octets,
)
    requires greeted { session.old.hello_went ≡ true }
    requires free { session.old.own_other ≡ None }
    requires room { 41 ≤ out.old.spare }
    ensures session { session.new ≡ sent_body session.old posted (InterruptBody due 0 line (level_of level)) }
    ensures bytes { out.new.bytes ≡ out.old.bytes ++ packet_bytes (request_of session.old posted (InterruptBody due 0 line (level_of level))) }
    ensures spare { out.old.spare ≤ out.new.spare + 41 }
{
    let tag = session.request(Command::Interrupt, posted, 0);
    let interrupt = Interrupt {
        time: due,
        vector: 0,
        line,
        val: u8::from(level),
    };
    put_packet(&Packet::Interrupt(tag, interrupt), out);
}

/// Puts the request of a want that is answered.
pub fn put_want(session: &mut Session, place: &mut BusPlace, due: u64, want: Want, out: &mut Octets)
    requires greeted { session.old.hello_went ≡ true }
    requires free { session.old.own_other ≡ None }
    requires size { HasSize want }
    requires fits { 64 ≤ place.old.room }
    requires room { 208 ≤ out.old.spare }
    ensures session { session.new ≡ sent_body session.old false (want_body session.old.common due want) }
    ensures bytes { out.new.bytes ≡ out.old.bytes ++ packet_bytes (request_of session.old false (want_body session.old.common due want)) }
    ensures place { place.old.room ≤ place.new.room }
{
    match want {
        Want::Fetch { addr, size } => put_fetch(session, place, due, addr, size, out),
        Want::Store {
            addr,
            size,
            bytes,
            mask,
        } => put_store(
            session,
            place,
            due,
            addr,
            &bytes[..usize::from(size)],
            mask,
            out,
        ),
        Want::Line { line, level } => put_line(session, due, false, line, level, out),
    }
}
