// Why a run printed less than it was asked for.
use cos_base::{Failed, NoMemory};
use machine_turns::PortFault;

/// Why a run printed less than it was asked for.
#[derive(Drop)]
pub enum Stopped {
    /// A word is missing, or isn't what it has to be.
    Words,
    /// A file isn't there, or is refused.
    Files,
    /// The machine's end stopped by this fault.
    Peer(PortFault),
    /// A call has no line.
    Lines,
    /// Standard output didn't take all.
    Out,
    NoMemory,
}

impl From<NoMemory> for Stopped {
    fn from(_: NoMemory) -> Self {
        Stopped::NoMemory
    }
}

impl From<Failed> for Stopped {
    fn from(_: Failed) -> Self {
        Stopped::Out
    }
}
