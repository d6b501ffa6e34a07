ghost use Rattle.std.specs.Prelude.{◌≡◌, ◌+◌, ◌*◌, ◌≤◌, ◌++◌, None, Some, nat_lt, min, length, if◌then◌else◌};
ghost use Rattle.cosim_model.specs.Values.{bit};
ghost use Rattle.rp_header.specs.Headers.{command_number, header_bytes};
ghost use Rattle.rp_control.specs.Controls.{hello_bytes};
ghost use Rattle.rp_busaccess.specs.Bits.{fields_of};
ghost use Rattle.rp_busaccess.specs.Writing.{bus_bytes, write_fault};
ghost use Rattle.rp_busaccess.specs.declared.fault.WriteFault.TheVariants.{TooLong};
ghost use Rattle.cosim_model.specs.Packets.Body.{Read as ReadBody, Write as WriteBody};
ghost use Rattle.rp_packet.specs.Values.{tagged, value_of};
ghost use Rattle.rp_packet.specs.Spelling.{packet_bytes, packet_fault};
ghost use Rattle.rp_packet.specs.Writing.{Writes};

use crate::packet::{Packet, Tag};
use cos_base::Octets;
use cosim_model::Command;
use rp_busaccess::{BusAccess, WriteFault};
use rp_control::Hello;
use rp_header::Header;

impl Packet {
    /// Appends the packet's canonical spelling. In the room that `out` has it takes no memory.
    pub fn write_into(&self, out: &mut Octets) -> Result<(), WriteFault>
        ensures { Writes (packet_bytes (value_of self.now)) (packet_fault (value_of self.now)) out.old out.new result }
    {
        match self {
            Packet::Nop(tag) => put_small(out, Command::Nop, *tag, &[]),
            Packet::Hello(tag, hello) => put_hello(out, *tag, hello),
            Packet::Cfg(tag, cfg) => put_small(out, Command::Cfg, *tag, &cfg.write()),
            Packet::Read(tag, access) => Packet::write_read(*tag, access, out),
            Packet::Write(tag, access) => Packet::write_write(*tag, access, out),
            Packet::Interrupt(tag, interrupt) => {
                put_small(out, Command::Interrupt, *tag, &interrupt.write())
            }
            Packet::Sync(tag, sync) => put_small(out, Command::Sync, *tag, &sync.write()),
        }
    }

    /// Appends the canonical spelling of a read with this tag and body, as [`Packet::write_into`] does.
    pub fn write_read(tag: Tag, access: &BusAccess, out: &mut Octets) -> Result<(), WriteFault>
        ensures { Writes (packet_bytes (tagged tag (ReadBody (fields_of access.now)))) (packet_fault (tagged tag (ReadBody (fields_of access.now)))) out.old out.new result }
    {
        put_bus(out, Command::Read, tag, access, is_response(tag))
    }

    /// Appends the canonical spelling of a write with this tag and body, as [`Packet::write_into`] does.
    pub fn write_write(tag: Tag, access: &BusAccess, out: &mut Octets) -> Result<(), WriteFault>
        ensures { Writes (packet_bytes (tagged tag (WriteBody (fields_of access.now)))) (packet_fault (tagged tag (WriteBody (fields_of access.now)))) out.old out.new result }
    {
        put_bus(out, Command::Write, tag, access, !is_response(tag))
    }
}

fn is_response(tag: Tag) -> bool
    ensures { result ≡ bit tag.flags 1 }
{
    tag.flags / 2 % 2 == 1
}

fn header(cmd: Command, len: usize, tag: Tag) -> [u8; 20]
    requires { len ≤ 65536 }
    ensures { result ≡ header_bytes (command_number cmd) len tag.id tag.flags tag.dev }
{
    Header {
        cmd,
        len: len as u32,
        id: tag.id,
        flags: tag.flags,
        dev: tag.dev,
    }
    .write()
}

/// Writes a packet whose body stands here.
fn put_small(out: &mut Octets, cmd: Command, tag: Tag, body: &[u8]) -> Result<(), WriteFault>
    requires { length body.now ≤ 65536 }
    ensures { Writes (header_bytes (command_number cmd) (length body.now) tag.id tag.flags tag.dev ++ body.now) None out.old out.new result }
{
    match out.reserve(20 + body.len()) {
        Ok(()) => {}
        Err(_) => return Err(WriteFault::NoMemory),
    }
    out.push_spare(&header(cmd, body.len(), tag));
    out.push_spare(body);
    Ok(())
}

/// Writes a hello.
fn put_hello(out: &mut Octets, tag: Tag, hello: &Hello) -> Result<(), WriteFault>
    ensures { Writes (header_bytes 1 (length (hello_bytes hello.now.major hello.now.minor hello.now.caps)) tag.id tag.flags tag.dev ++ hello_bytes hello.now.major hello.now.minor hello.now.caps)
        (if nat_lt 16381 (length hello.now.caps) then Some (TooLong (min (12 + 4 * length hello.now.caps) 18446744073709551615)) else None) out.old out.new result }
{
    let count = hello.caps.len();
    if count > 16381 {
        let bytes = (count as u64).saturating_mul(4);
        return Err(WriteFault::TooLong {
            len: bytes.saturating_add(12),
        });
    }
    let size = 12 + 4 * count;
    match out.reserve(20 + size) {
        Ok(()) => {}
        Err(_) => return Err(WriteFault::NoMemory),
    }
    out.push_spare(&header(Command::Hello, size, tag));
    match hello.write_into(out) {
        Ok(()) => Ok(()),
        Err(_) => unreachable!(),
    }
}

/// Writes a read or a write.
fn put_bus(
    out: &mut Octets,
    cmd: Command,
    tag: Tag,
    access: &BusAccess,
    carries: bool,
) -> Result<(), WriteFault>
    ensures { Writes (header_bytes (command_number cmd) (length (bus_bytes (fields_of access.now))) tag.id tag.flags tag.dev ++ bus_bytes (fields_of access.now))
        (write_fault carries (fields_of access.now)) out.old out.new result }
{
    let size = match access.body_len(carries) {
        Ok(size) => size,
        Err(fault) => return Err(fault),
    };
    match out.reserve(20 + size) {
        Ok(()) => {}
        Err(_) => return Err(WriteFault::NoMemory),
    }
    out.push_spare(&header(cmd, size, tag));
    match access.write_into(carries, out) {
        Ok(()) => Ok(()),
        Err(_) => unreachable!(),
    }
}
