// What the commands refuse.
use rv_asm::Cause;

/// What `asm` refuses.
#[derive(Clone, Copy, Debug, PartialEq, Eq, Drop)]
pub enum AsmRefusal {
    /// The first faulty line, counted from 1, and its first fault from the left; line 1 and `Syntax` also where the file isn't UTF-8.
    Assembly { line: u64, cause: Cause },
}

/// What `dis` refuses.
#[derive(Clone, Copy, Debug, PartialEq, Eq, Drop)]
pub enum DisRefusal {
    /// The file has so many bytes, which is no multiple of 4.
    Words { len: u64 },
}
