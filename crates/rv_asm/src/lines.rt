//! The lines of a text, with their numbers, addresses and parts.

ghost use Rattle.std.specs.Prelude.{◌≡◌, ◌+◌, ◌*◌, ◌<◌, ◌≤◌, ◌^◌, [], ◌∷◌, length, MatchOption};
ghost use Rattle.rv_asm.specs.Programs.{size_of};

use crate::parts::parts;
use crate::texts::trimmed;
use cos_text::{cut, first_line};

/// A line: its number, counted from 1, the address in bytes of what it assembles to, and its parts.
#[derive(Clone, Copy)]
pub struct Line<'a> {
    pub number: u64,
    pub address: u128,
    pub label: Option<&'a [u8]>,
    /// Empty where the line has no statement.
    pub statement: &'a [u8],
}

/// The lines of a text from some place on.
#[derive(Clone, Copy)]
pub struct Lines<'a> {
    rest: &'a [u8],
    /// How many lines stand before.
    passed: u64,
    address: u128,
    ghost counted: { passed + length rest.now < 2 ^ 64 },
    ghost reached: { address + 4 * length rest.now < 2 ^ 67 },
}

/// How many bytes a statement assembles to.
fn size(statement: &[u8]) -> u128
    ensures value { result ≡ size_of statement.now }
    ensures small { result ≤ 4 }
{
    match statement {
        [] => 0,
        _ => 4,
    }
}

impl<'a> Lines<'a> {
    ghost use Rattle.rv_asm.specs.Programs.{program};
    ghost use Rattle.rv_asm.specs.Views.{left, seen};

    /// The lines of a text whose first word lies at the origin.
    pub fn of(text: &'a [u8], origin: u32) -> Lines<'a>
        ensures { left result ≡ program origin text.entry.now }
    {
        Lines {
            rest: text,
            passed: 0,
            address: u128::from(origin),
        }
    }

    /// The next line.
    pub fn next(&mut self) -> Option<Line<'a>>
        ensures { MatchOption result (left self.old ≡ [])
            (λ line. left self.old ≡ seen line ∷ left self.new) }
    {
        if self.rest.is_empty() {
            return None;
        }
        let (line, rest) = first_line(self.rest);
        let (content, _) = cut(line, b'#');
        let (label, statement) = parts(trimmed(content));
        let placed = Line {
            number: self.passed + 1,
            address: self.address,
            label,
            statement,
        };
        *self = Lines {
            rest,
            passed: self.passed + 1,
            address: self.address + size(statement),
        };
        Some(placed)
    }
}
