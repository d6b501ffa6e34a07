ghost use Rattle.std.specs.Prelude.{◌≡◌, ◌+◌, ◌*◌, ◌≤◌, ◌++◌, ◌∷◌, [], length, decimal, OnOk, OnErr, IfSome};
ghost use Rattle.rp_packet.specs.Values.{value_of};
ghost use Rattle.rp_text.specs.Texts.{name_of, spaced, packet_text, line_of};
ghost use Rattle.rp_text.specs.Rooms.{body_room};

use crate::words_out::{put_bus, put_cfg, put_decimal, put_hello, put_interrupt};
use cos_base::{NoMemory, Octets};
use cosim_model::Command;
use rp_packet::{Packet, Tag};

/// Appends a packet's line, which ends with a line feed, with the word `loose` at its end where it is asked for: it marks a
/// packet whose spelling wasn't the canonical one.
pub fn packet_line(packet: &Packet, loose: bool, out: &mut Octets) -> Result<(), NoMemory>
    ensures ok { OnOk result (out.new.bytes ≡ out.old.bytes ++ line_of (value_of packet.now) loose) }
    ensures err { OnErr result (out.new ≡ out.old) }
{
    match room_for(packet) {
        Some(room) => out.reserve(room)?,
        None => return Err(NoMemory),
    }
    put_packet(out, packet);
    if loose {
        out.push_spare(b" loose");
    }
    out.push_spare(b"\n");
    Ok(())
}

/// Room for the packet's line, where a number can tell it.
fn room_for(packet: &Packet) -> Option<usize>
    ensures { IfSome result (λ room. 79 + body_room (value_of packet.now).body ≤ room) }
{
    match packet {
        Packet::Hello(_, hello) => hello.caps.len().checked_mul(21)?.checked_add(121),
        Packet::Read(_, access) | Packet::Write(_, access) => {
            let bytes = access.payload.len().checked_add(access.enables.len())?;
            bytes.checked_mul(2)?.checked_add(230)
        }
        _ => Some(163),
    }
}

fn put_packet(out: &mut Octets, packet: &Packet)
    requires { 72 + body_room (value_of packet.now).body ≤ out.old.spare }
    ensures bytes { out.new.bytes ≡ out.old.bytes ++ packet_text (value_of packet.now) }
    ensures spare { out.old.spare ≤ out.new.spare + (72 + body_room (value_of packet.now).body) }
{
    match packet {
        Packet::Nop(tag) => put_command(out, Command::Nop, *tag),
        Packet::Hello(tag, hello) => {
            put_command(out, Command::Hello, *tag);
            put_hello(out, hello);
        }
        Packet::Cfg(tag, cfg) => {
            put_command(out, Command::Cfg, *tag);
            put_cfg(out, *cfg);
        }
        Packet::Read(tag, access) => {
            put_command(out, Command::Read, *tag);
            put_bus(out, access);
        }
        Packet::Write(tag, access) => {
            put_command(out, Command::Write, *tag);
            put_bus(out, access);
        }
        Packet::Interrupt(tag, interrupt) => {
            put_command(out, Command::Interrupt, *tag);
            put_interrupt(out, *interrupt);
        }
        Packet::Sync(tag, sync) => {
            put_command(out, Command::Sync, *tag);
            put_decimal(out, sync.time);
        }
    }
}

/// The name of a command, as it stands in a line.
pub fn name(command: Command) -> &'static [u8]
    ensures name { result.now ≡ name_of command }
    ensures short { length result.now ≤ 9 }
{
    match command {
        Command::Nop => b"nop",
        Command::Hello => b"hello",
        Command::Cfg => b"cfg",
        Command::Read => b"read",
        Command::Write => b"write",
        Command::Interrupt => b"interrupt",
        Command::Sync => b"sync",
    }
}

/// Puts what every line begins with.
fn put_command(out: &mut Octets, command: Command, tag: Tag)
    requires { 72 ≤ out.old.spare }
    ensures bytes { out.new.bytes ≡ out.old.bytes ++ (name_of command ++ spaced (decimal tag.id ∷ decimal tag.flags ∷ decimal tag.dev ∷ [])) }
    ensures spare { out.old.spare ≤ out.new.spare + 72 }
{
    out.push_spare(name(command));
    put_decimal(out, u64::from(tag.id));
    put_decimal(out, u64::from(tag.flags));
    put_decimal(out, u64::from(tag.dev));
}
