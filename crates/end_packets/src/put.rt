// Packets that can be written, put into room that is there.
ghost use Rattle.std.specs.Prelude.{◌≡◌, ◌+◌, ◌≤◌, ◌++◌, None};
ghost use Rattle.cosim_model.specs.Packets.{body_size};
ghost use Rattle.cosim_model.specs.Packets.Body.{Read, Write};
ghost use Rattle.rp_busaccess.specs.Bits.{fields_of};
ghost use Rattle.rp_packet.specs.Values.{tagged, value_of};
ghost use Rattle.rp_packet.specs.Spelling.{packet_bytes, packet_fault};

use cos_base::Octets;
use rp_packet::{BusAccess, Packet, Tag};

/// Appends the canonical spelling of a packet that can be written, in the room that there is. It takes no memory.
pub fn put_packet(packet: &Packet, out: &mut Octets)
    requires lawful { packet_fault (value_of packet.now) ≡ None }
    requires room { body_size (value_of packet.now).body ≤ out.old.spare }
    ensures bytes { out.new.bytes ≡ out.old.bytes ++ packet_bytes (value_of packet.now) }
    ensures spare { out.new.spare + body_size (value_of packet.now).body ≡ out.old.spare }
{
    match packet.write_into(out) {
        Ok(()) => {}
        Err(_) => unreachable!(),
    }
}

/// Appends the canonical spelling of a read that can be written, in the room that there is. It takes no memory.
pub fn put_read(tag: Tag, access: &BusAccess, out: &mut Octets)
    requires lawful { packet_fault (tagged tag (Read (fields_of access.now))) ≡ None }
    requires room { body_size (Read (fields_of access.now)) ≤ out.old.spare }
    ensures bytes { out.new.bytes ≡ out.old.bytes ++ packet_bytes (tagged tag (Read (fields_of access.now))) }
    ensures spare { out.new.spare + body_size (Read (fields_of access.now)) ≡ out.old.spare }
{
    match Packet::write_read(tag, access, out) {
        Ok(()) => {}
        Err(_) => unreachable!(),
    }
}

/// Appends the canonical spelling of a write that can be written, in the room that there is. It takes no memory.
pub fn put_write(tag: Tag, access: &BusAccess, out: &mut Octets)
    requires lawful { packet_fault (tagged tag (Write (fields_of access.now))) ≡ None }
    requires room { body_size (Write (fields_of access.now)) ≤ out.old.spare }
    ensures bytes { out.new.bytes ≡ out.old.bytes ++ packet_bytes (tagged tag (Write (fields_of access.now))) }
    ensures spare { out.new.spare + body_size (Write (fields_of access.now)) ≡ out.old.spare }
{
    match Packet::write_write(tag, access, out) {
        Ok(()) => {}
        Err(_) => unreachable!(),
    }
}
