// What the rows of a session look at in a packet.
ghost use Rattle.std.specs.Prelude.{◌≡◌};
ghost use Rattle.cosim_model.specs.Values.{bit};
ghost use Rattle.cosim_model.specs.Packets.{command_of, number_of};
ghost use Rattle.cosim_model.specs.Sessions.{ticket_of};
ghost use Rattle.rp_packet.specs.Values.{value_of};

use cosim_model::Ticket;
use rp_header::Command;
use rp_packet::{Packet, Tag};

/// Whether the packet with these flags is an answer.
pub(crate) fn is_response(flags: u32) -> bool
    ensures { result ≡ bit flags 1 }
{
    flags / 2 % 2 == 1
}

/// Whether the sender of these flags wants no answer.
pub(crate) fn is_flagged_posted(flags: u32) -> bool
    ensures { result ≡ bit flags 2 }
{
    flags / 4 % 2 == 1
}

/// The packet's tag.
pub(crate) fn tag_of(packet: &Packet) -> Tag
    ensures id { result.id ≡ (value_of packet.now).id }
    ensures flags { result.flags ≡ (value_of packet.now).flags }
    ensures dev { result.dev ≡ (value_of packet.now).dev }
{
    match packet {
        Packet::Nop(tag) => *tag,
        Packet::Hello(tag, _) => *tag,
        Packet::Cfg(tag, _) => *tag,
        Packet::Read(tag, _) => *tag,
        Packet::Write(tag, _) => *tag,
        Packet::Interrupt(tag, _) => *tag,
        Packet::Sync(tag, _) => *tag,
    }
}

/// The packet's command.
pub(crate) fn command_of(packet: &Packet) -> Command
    ensures { result ≡ command_of (value_of packet.now).body }
{
    match packet {
        Packet::Nop(_) => Command::Nop,
        Packet::Hello(..) => Command::Hello,
        Packet::Cfg(..) => Command::Cfg,
        Packet::Read(..) => Command::Read,
        Packet::Write(..) => Command::Write,
        Packet::Interrupt(..) => Command::Interrupt,
        Packet::Sync(..) => Command::Sync,
    }
}

/// The number of a command.
pub(crate) fn command_number(command: Command) -> u64
    ensures { result ≡ number_of command }
{
    match command {
        Command::Nop => 0,
        Command::Hello => 1,
        Command::Cfg => 2,
        Command::Read => 3,
        Command::Write => 4,
        Command::Interrupt => 5,
        Command::Sync => 6,
    }
}

/// What an answer to the packet repeats of it.
pub(crate) fn ticket_of(packet: &Packet) -> Ticket
    ensures { result ≡ ticket_of (value_of packet.now) }
{
    let tag = tag_of(packet);
    Ticket {
        cmd: command_of(packet),
        id: tag.id,
        flags: tag.flags,
        dev: tag.dev,
    }
}
