//! Why a text is refused.

use cos_base::NoMemory;

/// What is wrong with the first faulty operand of a line.
#[derive(Clone, Copy, PartialEq, Eq, Debug)]
pub enum Cause {
    /// The form is wrong, or an operand is missing or too many.
    Syntax,
    /// A mnemonic, register, control register or label that has the form of a name is not known.
    Name,
    /// A number is out of its range, or a branch's target is odd or too far.
    Range,
    /// The label was given before.
    Twice,
}

/// Why a text has no words.
#[derive(Clone, Copy, PartialEq, Eq, Debug)]
pub enum AsmFault {
    /// The first faulty line, counted from 1, and its first fault from the left.
    Line { line: u64, cause: Cause },
    /// There was no memory for the words or the labels.
    NoMemory,
}

impl From<NoMemory> for AsmFault {
    ghost use Rattle.std.specs.Prelude.{◌≡◌};
    ghost use Rattle.rv_asm.specs.declared.fault.AsmFault.TheVariants.{NoMemory as NoRoom};

    ghost from_gives = { λ _ fault. fault ≡ NoRoom };

    fn from(_: NoMemory) -> Self {
        AsmFault::NoMemory
    }
}
