// Why a packet isn't taken.
use cosim_model::SessionFault;

/// Why a packet isn't taken.
#[derive(Clone, Copy, PartialEq, Eq, Debug)]
pub enum HearFault {
    /// It breaks a rule of the session, which keeps the fault.
    Session(SessionFault),
    /// A request that arose at `got`, after `at`, the time of the latest request that was sent to its port. Both are in ticks.
    LateWant { at: u64, got: u64 },
}
