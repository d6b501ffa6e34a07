// Why a machine end takes no more turns.
ghost use Rattle.std.specs.Prelude.{◌≡◌};
ghost use Rattle.machine_turns.specs.Ends.{heard_fault};

use machine_core::HearFault;
use rp_session::EndFault;

/// A fault, with the port that it came from.
#[derive(Clone, Copy, PartialEq, Eq, Debug)]
pub struct PortFault {
    pub port: u32,
    pub fault: EndFault,
}

/// Why a turn isn't taken.
#[derive(Clone, Copy, PartialEq, Eq, Debug)]
pub enum TurnFault {
    /// It keeps this fault, and takes no more turns.
    Port(PortFault),
    /// Want of memory. All is as before.
    NoMemory,
}

/// Why a packet isn't taken, as a fault of the end.
pub fn end_fault(fault: HearFault) -> EndFault
    ensures { result ≡ heard_fault fault }
{
    match fault {
        HearFault::Session(fault) => EndFault::Session(fault),
        HearFault::LateWant { at, got } => EndFault::LateWant { at, got },
    }
}
