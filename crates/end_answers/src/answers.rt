// The answers to reads and writes that both ends send.
ghost use Rattle.std.specs.Prelude.{◌≡◌, ◌+◌, ◌<◌, ◌≤◌, ◌++◌, Some, [], length, replicate};
ghost use Rattle.cosim_model.specs.Packets.Body.{Read, Write};
ghost use Rattle.cosim_model.specs.Sessions.{answer_of, other_answered};
ghost use Rattle.cosim_model.specs.declared.session.Command.TheVariants as command;
ghost use Rattle.ends_model.specs.DeviceTurn.{answer_fields, refused_read};
ghost use Rattle.end_packets.specs.Places.{IsNarrow};
ghost use Rattle.rp_busaccess.specs.Bits.{fields_of};
ghost use Rattle.rp_packet.specs.Spelling.{packet_bytes};

use cos_base::Octets;
use cosim_model::Ticket;
use end_packets::BusPlace;
use rp_packet::BusAccess;
use rp_session::Session;

/// The most zeros that a refused read is answered with.
const MOST_ZEROS: u32 = 4096;

/// Puts the answer to a read: a code and these bytes.
pub fn put_read_answer(
    session: &mut Session,
    place: &mut BusPlace,
    ticket: Ticket,
    asked: &BusAccess,
    code: u8,
    bytes: &[u8],
    out: &mut Octets,
)
    requires asked { session.old.peer_other ≡ Some ticket }
    requires read { ticket.cmd ≡ command.Read }
    requires narrow { IsNarrow (fields_of asked.now) }
    requires code { code < 16 }
    requires few { length bytes.now ≤ 4096 }
    requires fits { 4096 ≤ place.old.room }
    requires room { 4176 ≤ out.old.spare }
    ensures session { session.new ≡ other_answered session.old }
    ensures bytes { out.new.bytes ≡ out.old.bytes ++ packet_bytes (answer_of ticket (Read (answer_fields (fields_of asked.now) code (length bytes.now) bytes.now))) }
    ensures spare { out.old.spare ≤ out.new.spare + 4176 }
    ensures place { place.old.room ≤ place.new.room }
{
    let tag = session.answer(ticket);
    place.put_read_answer(tag, asked, code, bytes, out);
}

/// Refuses a read by as many zeros as it asked for.
fn refuse_by_zeros(
    session: &mut Session,
    place: &mut BusPlace,
    ticket: Ticket,
    asked: &BusAccess,
    out: &mut Octets,
)
    requires asked { session.old.peer_other ≡ Some ticket }
    requires read { ticket.cmd ≡ command.Read }
    requires narrow { IsNarrow (fields_of asked.now) }
    requires few { asked.now.len ≤ 4096 }
    requires fits { 4096 ≤ place.old.room }
    requires room { 4176 ≤ out.old.spare }
    ensures session { session.new ≡ other_answered session.old }
    ensures bytes { out.new.bytes ≡ out.old.bytes ++ packet_bytes (answer_of ticket (Read (answer_fields (fields_of asked.now) 1 asked.now.len (replicate asked.now.len 0)))) }
    ensures spare { out.old.spare ≤ out.new.spare + 4176 }
    ensures place { place.old.room ≤ place.new.room }
{
    let zeros = [0u8; MOST_ZEROS as usize];
    let zeros = &zeros[..asked.len as usize];
    put_read_answer(session, place, ticket, asked, 1, zeros, out);
}

/// Refuses a read that no device serves: code 1, and as many zeros as it asked for, or none above 4,096.
pub fn refuse_read(
    session: &mut Session,
    place: &mut BusPlace,
    ticket: Ticket,
    asked: &BusAccess,
    out: &mut Octets,
)
    requires asked { session.old.peer_other ≡ Some ticket }
    requires read { ticket.cmd ≡ command.Read }
    requires narrow { IsNarrow (fields_of asked.now) }
    requires fits { 4096 ≤ place.old.room }
    requires room { 4176 ≤ out.old.spare }
    ensures session { session.new ≡ other_answered session.old }
    ensures bytes { out.new.bytes ≡ out.old.bytes ++ packet_bytes (answer_of ticket (refused_read (fields_of asked.now))) }
    ensures spare { out.old.spare ≤ out.new.spare + 4176 }
    ensures place { place.old.room ≤ place.new.room }
{
    if asked.len <= MOST_ZEROS {
        refuse_by_zeros(session, place, ticket, asked, out);
    } else {
        put_read_answer(session, place, ticket, asked, 1, &[], out);
    }
}

/// Answers a write by a code.
pub fn answer_by_code(
    session: &mut Session,
    place: &mut BusPlace,
    ticket: Ticket,
    asked: &BusAccess,
    code: u8,
    out: &mut Octets,
)
    requires asked { session.old.peer_other ≡ Some ticket }
    requires write { ticket.cmd ≡ command.Write }
    requires narrow { IsNarrow (fields_of asked.now) }
    requires code { code < 16 }
    requires room { 80 ≤ out.old.spare }
    ensures session { session.new ≡ other_answered session.old }
    ensures bytes { out.new.bytes ≡ out.old.bytes ++ packet_bytes (answer_of ticket (Write (answer_fields (fields_of asked.now) code asked.now.len []))) }
    ensures spare { out.old.spare ≤ out.new.spare + 80 }
    ensures place { place.new ≡ place.old }
{
    let tag = session.answer(ticket);
    place.put_write_answer(tag, asked, code, out);
}
