// What is wrong with a script.

/// Why a script makes no master.
#[derive(Clone, Copy, PartialEq, Eq, Debug, Drop)]
pub enum ScriptFault {
    /// The first line that is none of a script's. Lines are counted from 1.
    Line { line: u64 },
    NoMemory,
}
