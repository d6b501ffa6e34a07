// The lines of the packets of a stream.
ghost use Rattle.std.specs.Prelude.{◌≡◌, OnOk, []};
ghost use Rattle.rp_packet.specs.Values.{value_of};
ghost use Rattle.rp_packet.specs.Spelling.{Spells};
ghost use Rattle.cosim_packets.specs.Listing.{AddsLine, ListsOne, Lists};

use crate::refusals::ShowRefusal;
use cos_base::{NoMemory, Octets};
use outcomes::JudgeFault;
use rp_framing::front_of;
use rp_packet::{Packet, PacketFault, ReadFault, is_canonical};
use rp_text::packet_line;
use std::alloc::Global;

/// Appends the lines of the packets that stand in bytes, up to the first that isn't one.
pub fn list(alloc: Global, bytes: &[u8], text: &mut Octets) -> Result<(), JudgeFault<ShowRefusal>>
    requires { text.old.bytes ≡ [] }
    ensures { Lists bytes.now text.new.bytes result }
{
    let mut at = 0;
    'packets: while at < bytes.len() {
        let (_, rest) = bytes.split_at(at);
        match list_one(alloc, rest, at, text) {
            Ok(size) => at += size,
            Err(fault) => return Err(fault),
        }
    }
    Ok(())
}

/// Appends the line of the packet at the front of bytes, which begin at this place of the file. It gives the packet's size.
fn list_one(
    alloc: Global,
    rest: &[u8],
    at: usize,
    text: &mut Octets,
) -> Result<usize, JudgeFault<ShowRefusal>>
    ensures { ListsOne rest.now at text.old.bytes text.new.bytes result }
{
    let start = at as u64;
    match front_of(alloc, rest) {
        Ok(None) => Err(JudgeFault::Refused(ShowRefusal::Truncated {
            start,
            held: rest.len() as u64,
        })),
        Ok(Some((packet, size))) => match add_line(&packet, rest.split_at(size).0, text) {
            Ok(()) => Ok(size),
            Err(NoMemory) => Err(JudgeFault::NoMemory),
        },
        Err(ReadFault::Malformed(fault)) => {
            Err(JudgeFault::Refused(ShowRefusal::Malformed(PacketFault {
                start,
                place: fault.place,
                cause: fault.cause,
            })))
        }
        Err(ReadFault::NoMemory) => Err(JudgeFault::NoMemory),
    }
}

/// Appends the line of a packet, by the bytes that spell it.
fn add_line(packet: &Packet, bytes: &[u8], text: &mut Octets) -> Result<(), NoMemory>
    requires { Spells (value_of packet.now) bytes.now }
    ensures { OnOk result (AddsLine (value_of packet.now) bytes.now text.old.bytes text.new.bytes) }
{
    match is_canonical(bytes) {
        Ok(canonical) => packet_line(packet, !canonical, text),
        Err(_) => unreachable!(),
    }
}
