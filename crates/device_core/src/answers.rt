// The answers that only a device end sends: to a read by what its device answered, and to a sync.
ghost use Rattle.std.specs.Prelude.{◌≡◌, ◌+◌, ◌<◌, ◌≤◌, ◌++◌, Some};
ghost use Rattle.cosim_model.specs.Sessions.{answer_of, other_answered, sync_answered};
ghost use Rattle.cosim_model.specs.declared.session.Command.TheVariants as command;
ghost use Rattle.ends_model.specs.DeviceTurn.{read_answer, sync_answer};
ghost use Rattle.end_packets.specs.Places.{IsNarrow};
ghost use Rattle.rp_busaccess.specs.Bits.{fields_of};
ghost use Rattle.rp_packet.specs.Spelling.{packet_bytes};

use cos_base::Octets;
use cosim_model::{Answer, Ticket};
use end_answers::put_read_answer;
use end_packets::{BusPlace, put_packet, put_value};
use ends_model::OpenSync;
use rp_control::Sync;
use rp_packet::{BusAccess, Packet};
use rp_session::Session;

/// Answers a read by what the device answered.
pub fn answer_by_value(
    session: &mut Session,
    place: &mut BusPlace,
    ticket: Ticket,
    asked: &BusAccess,
    answer: Answer,
    out: &mut Octets,
)
    requires asked { session.old.peer_other ≡ Some ticket }
    requires read { ticket.cmd ≡ command.Read }
    requires narrow { IsNarrow (fields_of asked.now) }
    requires size { asked.now.len ≤ 8 }
    requires code { answer.code < 16 }
    requires fits { 4096 ≤ place.old.room }
    requires room { 4176 ≤ out.old.spare }
    ensures session { session.new ≡ other_answered session.old }
    ensures bytes { out.new.bytes ≡ out.old.bytes ++ packet_bytes (answer_of ticket (read_answer (fields_of asked.now) answer)) }
    ensures spare { out.old.spare ≤ out.new.spare + 4176 }
    ensures place { place.old.room ≤ place.new.room }
{
    let mut bytes = [0u8; 8];
    let bytes = &mut bytes[..asked.len as usize];
    put_value(answer.value, bytes);
    put_read_answer(session, place, ticket, asked, answer.code, bytes, out);
}

/// Answers a sync.
pub fn answer_sync(session: &mut Session, sync: OpenSync, out: &mut Octets)
    requires class { sync.ticket.cmd ≡ command.Sync }
    requires asked { session.old.peer_sync ≡ Some sync.ticket }
    requires room { 28 ≤ out.old.spare }
    ensures session { session.new ≡ sync_answered session.old }
    ensures bytes { out.new.bytes ≡ out.old.bytes ++ packet_bytes (sync_answer sync) }
    ensures spare { out.old.spare ≤ out.new.spare + 28 }
{
    let tag = session.answer(sync.ticket);
    put_packet(&Packet::Sync(tag, Sync { time: sync.time }), out);
}
