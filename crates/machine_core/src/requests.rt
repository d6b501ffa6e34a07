// The request that an access becomes.
ghost use Rattle.std.specs.Prelude.{◌≡◌, ◌+◌, ◌≤◌, ◌++◌, true, false, None, []};
ghost use Rattle.cosim_model.specs.Values.{bits_of, bytes_of};
ghost use Rattle.cosim_model.specs.Packets.Body.{Read, Write};
ghost use Rattle.cosim_model.specs.Sessions.{request_of, request_sent};
ghost use Rattle.ends_model.specs.DeviceTurn.{request_fields};
ghost use Rattle.ends_model.specs.MachineTurn.{access_body};
ghost use Rattle.rp_packet.specs.Spelling.{packet_bytes};

use cos_base::Octets;
use cosim_model::{Access, Command};
use end_packets::{BusPlace, Request, put_value};
use rp_session::Session;

/// Puts the request of a read of a device's registers.
fn put_register_read(
    session: &mut Session,
    place: &mut BusPlace,
    request: Request,
    posted: bool,
    out: &mut Octets,
)
    requires greeted { session.old.hello_went ≡ true }
    requires free { session.old.own_other ≡ None }
    requires lanes { request.lanes ≤ 64 }
    requires room { 208 ≤ out.old.spare }
    ensures session { session.new ≡ request_sent session.old posted (Read (request_fields session.old.common request.time request.addr request.len [] (bits_of request.mask request.lanes))) request.len }
    ensures bytes { out.new.bytes ≡ out.old.bytes ++ packet_bytes (request_of session.old posted (Read (request_fields session.old.common request.time request.addr request.len [] (bits_of request.mask request.lanes)))) }
    ensures place { place.old.room ≤ place.new.room }
{
    let common = session.common();
    let tag = session.request(Command::Read, posted, request.len);
    place.put_read_request(tag, common, request, out);
}

/// Puts the request of a write of a device's registers.
fn put_register_write(
    session: &mut Session,
    place: &mut BusPlace,
    request: Request,
    posted: bool,
    value: u64,
    out: &mut Octets,
)
    requires greeted { session.old.hello_went ≡ true }
    requires free { session.old.own_other ≡ None }
    requires lanes { request.lanes ≤ 64 }
    requires size { request.len ≤ 8 }
    requires fits { 64 ≤ place.old.room }
    requires room { 208 ≤ out.old.spare }
    ensures session { session.new ≡ request_sent session.old posted (Write (request_fields session.old.common request.time request.addr request.len (bytes_of value request.len) (bits_of request.mask request.lanes))) request.len }
    ensures bytes { out.new.bytes ≡ out.old.bytes ++ packet_bytes (request_of session.old posted (Write (request_fields session.old.common request.time request.addr request.len (bytes_of value request.len) (bits_of request.mask request.lanes)))) }
    ensures place { place.old.room ≤ place.new.room }
{
    let common = session.common();
    let tag = session.request(Command::Write, posted, request.len);
    let mut bytes = [0u8; 8];
    let bytes = &mut bytes[..request.len as usize];
    put_value(value, bytes);
    place.put_write_request(tag, common, request, bytes, out);
}

/// Puts the request of an access.
pub fn put_access(
    session: &mut Session,
    place: &mut BusPlace,
    tick: u64,
    access: Access,
    out: &mut Octets,
)
    requires greeted { session.old.hello_went ≡ true }
    requires free { session.old.own_other ≡ None }
    requires size { access.size ≤ 8 }
    requires fits { 64 ≤ place.old.room }
    requires room { 208 ≤ out.old.spare }
    ensures session { session.new ≡ request_sent session.old access.posted (access_body session.old.common tick access) access.size }
    ensures bytes { out.new.bytes ≡ out.old.bytes ++ packet_bytes (request_of session.old access.posted (access_body session.old.common tick access)) }
    ensures place { place.old.room ≤ place.new.room }
{
    let request = Request {
        time: tick,
        addr: access.addr,
        len: u32::from(access.size),
        mask: u64::from(access.lanes),
        lanes: access.size,
    };
    if access.write {
        put_register_write(session, place, request, access.posted, access.value, out);
    } else {
        put_register_read(session, place, request, access.posted, out);
    }
}
