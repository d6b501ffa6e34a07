ghost use Rattle.std.specs.Prelude.{◌≡◌, ◌≤◌, length, drop, is_some};
ghost use Rattle.rp_header.specs.Numbers.{AreBytes};
ghost use Rattle.rp_packet.specs.Refusals.{first};
ghost use Rattle.rp_framing.specs.Framing.{IsFront};

use rp_packet::{Packet, ReadFault, packet_len};
use std::alloc::Global;

/// The bytes behind the first ones.
pub fn behind(bytes: &[u8], begin: usize) -> &[u8]
    requires { begin ≤ length bytes.now }
    ensures rest { result.now ≡ drop begin bytes.now }
    ensures bytes { AreBytes result.now }
{
    bytes.split_at(begin).1
}

/// The packet that stands whole at the front of bytes, and its size in bytes; `None` where none is whole yet. A fault counts from
/// the first of these bytes. The data are copied once.
pub fn front_of(alloc: Global, held: &[u8]) -> Result<Option<(Packet, usize)>, ReadFault>
    ensures { IsFront held.now result }
{
    if held.len() < 20 {
        return Ok(None);
    }
    match packet_len(held) {
        Ok(size) => {
            if held.len() < size {
                return Ok(None);
            }
            match Packet::read(alloc, held.split_at(size).0) {
                Ok(packet) => Ok(Some((packet, size))),
                Err(fault) => Err(fault),
            }
        }
        Err(fault) => Err(fault),
    }
}

/// Whether a packet stands whole at the front, or a fault. It takes no memory.
pub fn is_whole(held: &[u8]) -> bool
    ensures { result ≡ is_some (first held.now) }
{
    if held.len() < 20 {
        return false;
    }
    match packet_len(held) {
        Ok(size) => size <= held.len(),
        Err(_) => true,
    }
}
