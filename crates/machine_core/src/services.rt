// A held request is served from the master's memory and its interrupt lines.
ghost use Rattle.std.specs.Prelude.{◌≡◌, ◌+◌, ◌<◌, ◌≤◌, ◌++◌, true, false, not, Some, [], length, nat_le, ◌&&◌, IfOk, OnOk, OnErr, if◌then◌else◌};
ghost use Rattle.cosim_model.specs.Packets.{enabled};
ghost use Rattle.cosim_model.specs.Packets.Body.{Read, Write, Interrupt as InterruptBody};
ghost use Rattle.cosim_model.specs.Sessions.{answer_of, other_answered, is_posted};
ghost use Rattle.cosim_model.specs.Values.{all_on, bit};
ghost use Rattle.cosim_model.specs.declared.session.Command.TheVariants as command;
ghost use Rattle.cosim_model.specs.declared.values.Call.TheVariants as call;
ghost use Rattle.cosim_model.specs.declared.values.Want.TheVariants.{Fetch};
ghost use Rattle.ends_model.specs.MachineTurn.{if_call, is_master_size, read_reply, serve_body, serve_read as read_service, serve_write as write_service};
ghost use Rattle.ends_model.specs.declared.ends.Turn.TheVariants as turn;
ghost use Rattle.end_packets.specs.Places.{IsNarrow};
ghost use Rattle.rp_busaccess.specs.Bits.{fields_of};
ghost use Rattle.rp_packet.specs.Spelling.{packet_bytes};
ghost use Rattle.rp_packet.specs.Values.{value_of};
ghost use Rattle.machine_core.specs.Ports.{IsHeld};
ghost use Rattle.machine_core.specs.Services.{Writes, sent_for, session_after};

use crate::lanes::{are_all_enabled, clear_disabled, mask_of};
use cos_api::{Call, Calls, Master};
use cos_base::{NoMemory, Octets};
use cosim_model::{Command, Reply, Ticket, Want};
use end_answers::{answer_by_code, bare_reply, padded, put_read_answer, refuse_read};
use end_packets::{BusPlace, put_packet};
use ends_model::Turn;
use rp_control::Interrupt;
use rp_packet::{BusAccess, Packet, Tag};
use rp_session::Session;

/// The most data bytes of a read or write that is served.
const MOST_DATA: u32 = 4096;

/// The most data bytes of a call.
const MOST_CALLED: u32 = 64;

/// The highest interrupt line.
const LAST_LINE: u32 = 31;

/// Whether a request is one that a machine serves: of 1 to 4,096 bytes, and without a narrower stream.
fn is_served(bus: &BusAccess) -> bool
    ensures { result ≡ is_master_size (fields_of bus.now) }
{
    bus.len >= 1 && bus.len <= MOST_DATA && (bus.stream_width == 0 || bus.stream_width == bus.len)
}

/// Keeps the call of a read, where a want can hold it.
fn keep_read(calls: &mut Calls, tick: u64, port: u32, bus: &BusAccess, code: u8, bytes: &[u8])
    requires room { 1 ≤ calls.old.spare }
    ensures { calls.new.calls ≡ calls.old.calls ++ if_call (nat_le bus.now.len 64 && all_on (enabled (fields_of bus.now))) (call.Served tick port bus.now.time (Fetch bus.now.addr bus.now.len) (read_reply bus.now.len (code, bytes.now))) }
{
    if bus.len > MOST_CALLED || !are_all_enabled(bus) {
        return;
    }
    let size = bus.len as u8;
    calls.push_spare(Call::Served {
        tick,
        port,
        due: bus.time,
        want: Want::Fetch {
            addr: bus.addr,
            size,
        },
        reply: Reply {
            code,
            size,
            bytes: padded(bytes),
        },
    });
}

/// Serves a read, and answers it.
fn serve_read<M: Master>(
    session: &mut Session,
    place: &mut BusPlace,
    master: &M,
    calls: &mut Calls,
    tick: u64,
    port: u32,
    ticket: Ticket,
    bus: &BusAccess,
    out: &mut Octets,
)
    requires asked { session.old.peer_other ≡ Some ticket }
    requires read { ticket.cmd ≡ command.Read }
    requires narrow { IsNarrow (fields_of bus.now) }
    requires fits { 4096 ≤ place.old.room }
    requires calls { 1 ≤ calls.old.spare }
    requires room { 4176 ≤ out.old.spare }
    ensures session { session.new ≡ other_answered session.old }
    ensures place { place.old.room ≤ place.new.room }
    ensures calls { calls.new.calls ≡ calls.old.calls ++ (read_service M.model master.now tick port (fields_of bus.now) (is_master_size (fields_of bus.now))).calls }
    ensures bytes { out.new.bytes ≡ out.old.bytes ++ packet_bytes (answer_of ticket (read_service M.model master.now tick port (fields_of bus.now) (is_master_size (fields_of bus.now))).answer) }
{
    if !is_served(bus) {
        refuse_read(session, place, ticket, bus, out);
        return;
    }
    let mut bytes = [0u8; MOST_DATA as usize];
    let bytes = &mut bytes[..bus.len as usize];
    let code = master.read(bus.addr, bytes);
    keep_read(calls, tick, port, bus, code, bytes);
    clear_disabled(bus, bytes);
    put_read_answer(session, place, ticket, bus, code, bytes, out);
}

/// Serves a write, and gives the code that answers it.
fn serve_write<M: Master>(
    master: &mut M,
    calls: &mut Calls,
    tick: u64,
    port: u32,
    bus: &BusAccess,
) -> Result<u8, NoMemory>
    requires data { length bus.now.payload.bytes ≡ bus.now.len }
    requires calls { 1 ≤ calls.old.spare }
    ensures ok { IfOk result (Writes (write_service M.model master.old tick port (fields_of bus.now) (is_master_size (fields_of bus.now))) (fields_of bus.now) master.new calls.old.calls calls.new.calls) }
    ensures err { OnErr result ((master.new ≡ master.old) × (calls.new ≡ calls.old)) }
{
    if !is_served(bus) {
        return Ok(1);
    }
    let code = match master.write(bus.addr, bus.payload.as_slice(), bus.enables.as_slice()) {
        Ok(code) => code,
        Err(NoMemory) => return Err(NoMemory),
    };
    if bus.len <= MOST_CALLED {
        calls.push_spare(Call::Served {
            tick,
            port,
            due: bus.time,
            want: Want::Store {
                addr: bus.addr,
                size: bus.len as u8,
                bytes: padded(bus.payload.as_slice()),
                mask: mask_of(bus),
            },
            reply: bare_reply(code),
        });
    }
    Ok(code)
}

/// Sets the level of an interrupt line, where there is one.
fn serve_line<M: Master>(
    master: &mut M,
    calls: &mut Calls,
    tick: u64,
    port: u32,
    interrupt: &Interrupt,
)
    requires calls { 1 ≤ calls.old.spare }
    ensures master { master.new ≡ (serve_body M.model master.old tick port (InterruptBody interrupt.now.time interrupt.now.vector interrupt.now.line interrupt.now.val)).master }
    ensures calls { calls.new.calls ≡ calls.old.calls ++ (serve_body M.model master.old tick port (InterruptBody interrupt.now.time interrupt.now.vector interrupt.now.line interrupt.now.val)).calls }
{
    let level = interrupt.val != 0;
    if interrupt.line <= LAST_LINE {
        master.line(interrupt.line, level);
    }
    calls.push_spare(Call::Served {
        tick,
        port,
        due: interrupt.time,
        want: Want::Line {
            line: interrupt.line,
            level,
        },
        reply: bare_reply(0),
    });
}

/// Answers an interrupt by itself.
fn answer_line(session: &mut Session, ticket: Ticket, interrupt: &Interrupt, out: &mut Octets)
    requires asked { session.old.peer_other ≡ Some ticket }
    requires kind { ticket.cmd ≡ command.Interrupt }
    requires room { 41 ≤ out.old.spare }
    ensures session { session.new ≡ other_answered session.old }
    ensures bytes { out.new.bytes ≡ out.old.bytes ++ packet_bytes (answer_of ticket (InterruptBody interrupt.now.time interrupt.now.vector interrupt.now.line interrupt.now.val)) }
{
    let tag = session.answer(ticket);
    let answer = Interrupt {
        time: interrupt.time,
        vector: interrupt.vector,
        line: interrupt.line,
        val: interrupt.val,
    };
    put_packet(&Packet::Interrupt(tag, answer), out);
}

/// What the answer to a request of a kind repeats of it.
fn ticket_of(kind: Command, tag: &Tag) -> Ticket
    ensures { result ≡ record { cmd = kind; id = tag.now.id; flags = tag.now.flags; dev = tag.now.dev } }
{
    Ticket {
        cmd: kind,
        id: tag.id,
        flags: tag.flags,
        dev: tag.dev,
    }
}

/// Whether the sender of a request with this tag wants no answer.
fn is_flagged(tag: &Tag) -> bool
    ensures { result ≡ bit tag.now.flags 2 }
{
    tag.flags / 4 % 2 == 1
}

/// Serves a held request, and answers it where it isn't posted. Was it answered?
pub fn serve_packet<M: Master>(
    session: &mut Session,
    place: &mut BusPlace,
    master: &mut M,
    calls: &mut Calls,
    tick: u64,
    port: u32,
    packet: &Packet,
    out: &mut Octets,
) -> Result<bool, NoMemory>
    requires held { IsHeld session.old (value_of packet.now) }
    requires fits { 4096 ≤ place.old.room }
    requires calls { 1 ≤ calls.old.spare }
    requires room { 4176 ≤ out.old.spare }
    ensures answered { IfOk result (λ a. a ≡ not (is_posted session.old.common (value_of packet.now))) }
    ensures session { IfOk result (λ a. session.new ≡ session_after session.old a) }
    ensures place { place.old.room ≤ place.new.room }
    ensures master { OnOk result (master.new ≡ (serve_body M.model master.old tick port (value_of packet.now).body).master) }
    ensures calls { OnOk result (calls.new.calls ≡ calls.old.calls ++ (serve_body M.model master.old tick port (value_of packet.now).body).calls) }
    ensures bytes { IfOk result (λ a. out.new.bytes ≡ out.old.bytes ++ sent_for (value_of packet.now) (serve_body M.model master.old tick port (value_of packet.now).body).answer a) }
    ensures err { OnErr result ((session.new ≡ session.old) × (master.new ≡ master.old) × (calls.new ≡ calls.old) × (out.new.bytes ≡ out.old.bytes)) }
{
    match packet {
        Packet::Read(tag, bus) => {
            let ticket = ticket_of(Command::Read, tag);
            serve_read(session, place, master, calls, tick, port, ticket, bus, out);
            Ok(true)
        }
        Packet::Write(tag, bus) => {
            let code = match serve_write(master, calls, tick, port, bus) {
                Ok(code) => code,
                Err(NoMemory) => return Err(NoMemory),
            };
            if is_flagged(tag) {
                return Ok(false);
            }
            let ticket = ticket_of(Command::Write, tag);
            answer_by_code(session, place, ticket, bus, code, out);
            Ok(true)
        }
        Packet::Interrupt(tag, interrupt) => {
            let common = session.common();
            serve_line(master, calls, tick, port, interrupt);
            if is_flagged(tag) || !common.posted {
                return Ok(false);
            }
            let ticket = ticket_of(Command::Interrupt, tag);
            answer_line(session, ticket, interrupt, out);
            Ok(true)
        }
        Packet::Nop(_) => unreachable!(),
        Packet::Hello(..) => unreachable!(),
        Packet::Cfg(..) => unreachable!(),
        Packet::Sync(..) => unreachable!(),
    }
}

/// What a turn answers in which a held request was served.
pub fn service_turn(port: u32, answered: bool) -> Turn
    ensures { result ≡ (if answered then turn.Sent port else turn.Served port) }
{
    if answered {
        Turn::Sent { port }
    } else {
        Turn::Served { port }
    }
}
