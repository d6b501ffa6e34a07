ghost use Rattle.std.specs.Prelude.{◌≡◌, false};
ghost use Rattle.rp_framing.specs.Framing.{is_ready};
ghost use Rattle.rp_framing.specs.Receiving.{Receives, ReceiveCounts, ReceiveSound, Pulls};

use crate::fault::{FrameFault, Truncated};
use crate::framer::Framer;
use cos_base::{Got, Link, NoMemory};
use rp_packet::{Packet, PacketFault};

/// How many bytes are read at a time.
const PIECE: usize = 4096;

/// Why no packet was received.
#[derive(Clone, Copy, Debug, PartialEq, Eq)]
pub enum ReceiveFault {
    /// The stream has no packet where one should begin.
    Malformed(PacketFault),
    /// The stream ended inside a packet.
    Truncated(Truncated),
    /// The link failed, and has now counted so many failures. The framer keeps what was read.
    Link { count: u64 },
    /// Want of memory. The framer keeps what was read.
    NoMemory,
}

impl From<NoMemory> for ReceiveFault {
    ghost use Rattle.std.specs.Prelude.{◌≡◌};
    ghost use Rattle.rp_framing.specs.declared.receiver.ReceiveFault.TheVariants.{NoMemory as WantOfMemory};

    ghost from_gives = { λ _ fault. fault ≡ WantOfMemory };

    fn from(_: NoMemory) -> Self {
        ReceiveFault::NoMemory
    }
}

/// What one read brought.
pub enum Pulled {
    /// Bytes came, 4,096 at most, and the framer holds them.
    More,
    /// All that comes was read before.
    End,
}

/// Receives the next packet: it reads until one is whole, and nothing where one is whole already. `None` is a clean end of
/// the stream.
///
/// The framer's room for a piece is taken before the link is read, so no byte that was read is lost. It may wait for the
/// other side.
pub fn receive<L: Link>(framer: &mut Framer, link: &mut L) -> Result<Option<Packet>, ReceiveFault>
    ensures receives { Receives (L.told link.old) (L.told link.new) framer.old framer.new result }
    ensures counts { ReceiveCounts (L.count link.old) (L.count link.new) result }
    ensures is_sound { L.sound link.old → L.sound link.new × ReceiveSound result }
{
    'reads: loop {
        match framer.next() {
            Ok(Some(packet)) => return Ok(Some(packet)),
            Ok(None) => {}
            Err(FrameFault::Malformed(fault)) => return Err(ReceiveFault::Malformed(fault)),
            Err(FrameFault::NoMemory) => return Err(ReceiveFault::NoMemory),
        }
        match pull(framer, link) {
            Ok(Pulled::More) => {}
            Ok(Pulled::End) => {
                return match framer.at_end() {
                    Ok(()) => Ok(None),
                    Err(rest) => Err(ReceiveFault::Truncated(rest)),
                };
            }
            Err(fault) => return Err(fault),
        }
    }
}

/// Reads once, for a framer that holds no whole packet. Its room for a piece is taken before, so no byte that was read is lost. It
/// may wait for the other side.
pub fn pull<L: Link>(framer: &mut Framer, link: &mut L) -> Result<Pulled, ReceiveFault>
    requires { is_ready framer.old ≡ false }
    ensures pulls { Pulls (L.told link.old) (L.told link.new) framer.old framer.new result }
    ensures counts { ReceiveCounts (L.count link.old) (L.count link.new) result }
    ensures is_sound { L.sound link.old → L.sound link.new × ReceiveSound result }
{
    framer.reserve()?;
    let mut piece = [0u8; PIECE];
    let most = framer.room().min(PIECE);
    let (into, _) = piece.split_at_mut(most);
    match link.read(into) {
        Got::Bytes { count } => {
            let (came, _) = into.split_at(count);
            framer.feed_spare(came);
            Ok(Pulled::More)
        }
        Got::End => Ok(Pulled::End),
        Got::Failed => Err(ReceiveFault::Link {
            count: link.faults(),
        }),
        Got::NoMemory => Err(ReceiveFault::NoMemory),
    }
}
