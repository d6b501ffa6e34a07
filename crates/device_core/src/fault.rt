// Why a packet isn't taken.
use cosim_model::SessionFault;

/// Why a packet isn't taken.
#[derive(Clone, Copy, PartialEq, Eq, Debug)]
pub enum HearFault {
    /// It breaks a rule of the session. Nothing was sent for it, and the session keeps the fault.
    Session(SessionFault),
    /// Want of memory of the device. All is as before.
    NoMemory,
}
