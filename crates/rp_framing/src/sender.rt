ghost use Rattle.rp_framing.specs.Sending.{Sends, SendCounts, SendSound};

use cos_base::{Link, Put};

/// Why not all was sent.
#[derive(Clone, Copy, Debug, PartialEq, Eq)]
pub enum SendFault {
    /// The link failed, and has now counted so many failures.
    Link { count: u64 },
    /// Want of memory of the link.
    NoMemory,
}

/// Sends all, in as many pieces as the link takes. After a fault a part of it was sent. It takes no memory of its own.
pub fn send<L: Link>(bytes: &[u8], link: &mut L) -> Result<(), SendFault>
    ensures counts { SendCounts (L.count link.old) (L.count link.new) result }
    ensures tells { Sends (L.told link.old) (L.told link.new) bytes.now result }
    ensures is_sound { L.sound link.old → L.sound link.new × SendSound result }
{
    let mut at = 0;
    'pieces: while at < bytes.len() {
        let (_, rest) = bytes.split_at(at);
        match link.write(rest) {
            Put::Bytes { count } => at += count,
            Put::Failed => {
                return Err(SendFault::Link {
                    count: link.faults(),
                });
            }
            Put::NoMemory => return Err(SendFault::NoMemory),
        }
    }
    Ok(())
}
