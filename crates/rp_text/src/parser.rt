ghost use Rattle.std.specs.Prelude.{◌≡◌, ◌↔◌, ℕ, IfOk, IfSome, IsTrue, MatchResult, Some};
ghost use Rattle.cosim_model.specs.Packets.{Packet as PacketValue};
ghost use Rattle.cosim_model.specs.Packets.Body.{Hello as HelloBody, Cfg as CfgBody, Interrupt as InterruptBody, Sync as SyncBody};
ghost use Rattle.cosim_model.specs.declared.session.Command.{Command as AnyCommand};
ghost use Rattle.cosim_model.specs.declared.session.Command.TheVariants as command;
ghost use Rattle.rp_busaccess.specs.Bits.{fields_of};
ghost use Rattle.rp_packet.specs.Spelling.{Writable};
ghost use Rattle.rp_packet.specs.Values.{value_of, tagged};
ghost use Rattle.rp_text.specs.Texts.{name_of, packet_text, IsPackable};
ghost use Rattle.rp_text.specs.Reading.{TakesTag, TakesBus, TakesBody};
ghost use Rattle.rp_text.specs.declared.fault.LineFault.TheVariants.{NoMemory as WantOfMemory};

use crate::fault::LineFault;
use crate::printer::name;
use crate::words_in::{Words, cut_word};
use cos_base::NoMemory;
use cosim_model::Command;
use rp_packet::{BusAccess, Cfg, Hello, Interrupt, Packet, Sync, Tag};
use std::alloc::Global;

/// Reads a packet from its line without the line feed, and without the word `loose`. The bytes of its lists are copied once.
pub fn read_line(alloc: Global, line: &[u8]) -> Result<Packet, LineFault>
    ensures ok { IfOk result (λ p. (line.now ≡ packet_text (value_of p)) × IsPackable (value_of p)) }
    ensures exact { (v : PacketValue) → IsPackable v → line.now ≡ packet_text v → MatchResult result (λ p. value_of p ≡ v) (λ e. e ≡ WantOfMemory) }
{
    let (front, rest) = cut_word(line);
    let Some(command) = command_named(front) else {
        return Err(LineFault::Line);
    };
    let mut words = Words::of(rest);
    let tag = read_tag(&mut words);
    let packet = read_body(alloc, command, tag, &mut words)?;
    if words.is_end() && can_be_written(&packet) {
        Ok(packet)
    } else {
        Err(LineFault::Line)
    }
}

/// Whether this is the name of the command.
fn is_name(word: &[u8], command: Command) -> bool
    ensures { IsTrue result ↔ (word.now ≡ name_of command) }
{
    word == name(command)
}

/// The command of this name.
fn command_named(word: &[u8]) -> Option<Command>
    ensures some { IfSome result (λ command. word.now ≡ name_of command) }
    ensures exact { (c : AnyCommand) → word.now ≡ name_of c → result ≡ Some c }
{
    if is_name(word, Command::Read) {
        Some(Command::Read)
    } else if is_name(word, Command::Write) {
        Some(Command::Write)
    } else if is_name(word, Command::Sync) {
        Some(Command::Sync)
    } else if is_name(word, Command::Interrupt) {
        Some(Command::Interrupt)
    } else if is_name(word, Command::Hello) {
        Some(Command::Hello)
    } else if is_name(word, Command::Nop) {
        Some(Command::Nop)
    } else if is_name(word, Command::Cfg) {
        Some(Command::Cfg)
    } else {
        None
    }
}

fn read_tag(words: &mut Words<'_>) -> Tag
    ensures { TakesTag words.old words.new result }
{
    Tag {
        id: words.read_u32(),
        flags: words.read_u32(),
        dev: words.read_u32(),
    }
}

/// Reads the words of a packet's body.
fn read_body(
    alloc: Global,
    command: Command,
    tag: Tag,
    words: &mut Words<'_>,
) -> Result<Packet, NoMemory>
    ensures tagged { IfOk result (λ p. value_of p ≡ tagged tag (value_of p).body) }
    ensures body { IfOk result (λ p. TakesBody command words.old words.new (value_of p).body) }
{
    match command {
        Command::Nop => Ok(Packet::Nop(tag)),
        Command::Hello => Ok(Packet::Hello(tag, read_hello(alloc, words)?)),
        Command::Cfg => Ok(Packet::Cfg(tag, read_cfg(words))),
        Command::Read => Ok(Packet::Read(tag, read_bus(alloc, words)?)),
        Command::Write => Ok(Packet::Write(tag, read_bus(alloc, words)?)),
        Command::Interrupt => Ok(Packet::Interrupt(tag, read_interrupt(words))),
        Command::Sync => Ok(Packet::Sync(tag, read_sync(words))),
    }
}

fn read_hello(alloc: Global, words: &mut Words<'_>) -> Result<Hello, NoMemory>
    ensures { IfOk result (λ h. TakesBody command.Hello words.old words.new (HelloBody h.major h.minor h.caps)) }
{
    let major = words.read_u16();
    let minor = words.read_u16();
    let caps = words.read_capabilities(alloc)?;
    Ok(Hello { major, minor, caps })
}

fn read_cfg(words: &mut Words<'_>) -> Cfg
    ensures { TakesBody command.Cfg words.old words.new (CfgBody result.opt result.set) }
{
    Cfg {
        opt: words.read_u32(),
        set: words.read_u8(),
    }
}

fn read_bus(alloc: Global, words: &mut Words<'_>) -> Result<BusAccess, NoMemory>
    ensures { IfOk result (λ b. TakesBus words.old words.new (fields_of b)) }
{
    let time = words.read_decimal(u64::MAX);
    let attributes = words.read_hexadecimal();
    let addr = words.read_hexadecimal();
    let len = words.read_u32();
    let width = words.read_u32();
    let stream_width = words.read_u32();
    let master = words.read_decimal(u64::MAX);
    let payload = words.bytes(alloc)?;
    let enables = words.bytes(alloc)?;
    Ok(BusAccess {
        time,
        attributes,
        addr,
        len,
        width,
        stream_width,
        master,
        payload,
        enables,
    })
}

fn read_interrupt(words: &mut Words<'_>) -> Interrupt
    ensures { TakesBody command.Interrupt words.old words.new (InterruptBody result.time result.vector result.line result.val) }
{
    Interrupt {
        time: words.read_decimal(u64::MAX),
        vector: words.read_decimal(u64::MAX),
        line: words.read_u32(),
        val: words.read_u8(),
    }
}

fn read_sync(words: &mut Words<'_>) -> Sync
    ensures { TakesBody command.Sync words.old words.new (SyncBody result.time) }
{
    Sync {
        time: words.read_decimal(u64::MAX),
    }
}

/// Whether writing the packet meets none of its faults.
fn can_be_written(packet: &Packet) -> bool
    ensures { IsTrue result ↔ Writable (value_of packet.now) }
{
    match packet {
        Packet::Hello(_, hello) => hello.caps.len() <= 16381,
        Packet::Read(tag, access) => access.body_len(tag.flags / 2 % 2 == 1).is_ok(),
        Packet::Write(tag, access) => access.body_len(tag.flags / 2 % 2 != 1).is_ok(),
        _ => true,
    }
}
