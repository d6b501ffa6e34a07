// The reply that an answer gives to a want.
ghost use Rattle.std.specs.Prelude.{◌≡◌};
ghost use Rattle.cosim_model.specs.Packets.{code_of as model_code_of};
ghost use Rattle.ends_model.specs.DeviceTurn.{fetched as fetched_reply, reply_from as reply_of};
ghost use Rattle.rp_busaccess.specs.Bits.{fields_of};
ghost use Rattle.rp_packet.specs.Values.{value_of};

use cosim_model::{Reply, Want};
use end_answers::{bare_reply, padded};
use rp_packet::{BusAccess, Packet};

/// The reply to a fetch of so many bytes: those of the answer where its code is 0, else zeros.
fn fetched(size: u8, bus: &BusAccess) -> Reply
    ensures { result ≡ fetched_reply size (model_code_of (fields_of bus.now)) bus.now.payload.bytes }
{
    let code = bus.code();
    let bytes = match code {
        0 => padded(bus.payload.as_slice()),
        _ => [0; 64],
    };
    Reply { code, size, bytes }
}

/// The reply that an answer gives to a want.
pub fn reply_from(want: Want, packet: &Packet) -> Reply
    ensures { result ≡ reply_of want (value_of packet.now).body }
{
    match want {
        Want::Fetch { size, .. } => match packet {
            Packet::Read(_, bus) => fetched(size, bus),
            Packet::Nop(_) => bare_reply(0),
            Packet::Hello(..) => bare_reply(0),
            Packet::Cfg(..) => bare_reply(0),
            Packet::Write(..) => bare_reply(0),
            Packet::Interrupt(..) => bare_reply(0),
            Packet::Sync(..) => bare_reply(0),
        },
        Want::Store { .. } => match packet {
            Packet::Write(_, bus) => bare_reply(bus.code()),
            Packet::Nop(_) => bare_reply(0),
            Packet::Hello(..) => bare_reply(0),
            Packet::Cfg(..) => bare_reply(0),
            Packet::Read(..) => bare_reply(0),
            Packet::Interrupt(..) => bare_reply(0),
            Packet::Sync(..) => bare_reply(0),
        },
        Want::Line { .. } => bare_reply(0),
    }
}
