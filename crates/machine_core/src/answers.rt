// What the answer to an access says.
ghost use Rattle.std.specs.Prelude.{◌≡◌, ◌≤◌, true, length};
ghost use Rattle.cosim_model.specs.Packets.{code_of, is_response};
ghost use Rattle.cosim_model.specs.Packets.Body.{Read};
ghost use Rattle.cosim_model.specs.Values.{plain as plain_answer};
ghost use Rattle.end_answers.specs.Packets.{IsRead};
ghost use Rattle.ends_model.specs.MachineTurn.{answer_from};
ghost use Rattle.rp_busaccess.specs.Bits.{fields_of};
ghost use Rattle.rp_packet.specs.Values.{value_of as packet_value};
ghost use Rattle.machine_core.specs.Ports.{IsShort};

use cos_api::plain;
use cosim_model::{Access, Answer};
use end_packets::value_of;
use rp_packet::{BusAccess, Packet};

/// What a bus hands back for an access that was answered so. The data of an answer counts only where its code is 0.
pub fn heard_answer(access: Access, packet: &Packet) -> Answer
    requires size { access.size ≤ 8 }
    requires read { IsRead (packet_value packet.now) }
    requires answer { is_response (packet_value packet.now) ≡ true }
    requires short { IsShort (packet_value packet.now).body }
    ensures { result ≡ plain_answer access (answer_from (packet_value packet.now).body) }
{
    let answer = match packet {
        Packet::Read(_, bus) => read_answer(bus),
        Packet::Write(_, bus) => Answer {
            code: bus.code(),
            value: 0,
        },
        Packet::Nop(_) => NONE,
        Packet::Hello(..) => NONE,
        Packet::Cfg(..) => NONE,
        Packet::Interrupt(..) => NONE,
        Packet::Sync(..) => NONE,
    };
    plain(access, answer)
}

const NONE: Answer = Answer { code: 0, value: 0 };

/// The code of a read's answer, and its data where that is 0.
fn read_answer(bus: &BusAccess) -> Answer
    requires { code_of (fields_of bus.now) ≡ 0 → length bus.now.payload.bytes ≤ 8 }
    ensures { (a : Access) → plain_answer a result ≡ plain_answer a (answer_from (Read (fields_of bus.now))) }
{
    let code = bus.code();
    let value = match code {
        0 => value_of(bus.payload.as_slice()),
        _ => 0,
    };
    Answer { code, value }
}
