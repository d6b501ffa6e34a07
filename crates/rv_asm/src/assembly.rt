//! Texts and the words that they assemble to.

ghost use Rattle.std.specs.Prelude.{◌≡◌};
ghost use Rattle.rv_asm.specs.Programs.{program};
ghost use Rattle.rv_asm.specs.Statements.{Assembled};

use crate::AsmFault;
use crate::labels::Labels;
use crate::lines::Lines;
use crate::statements::word_of_line;
use cos_base::Numbers;
use std::alloc::Global;

/// The words of a text, in order, or its first faulty line and what is first wrong with it from the left.
///
/// `origin` is the address in bytes of the first word. Labels may be used before and after the line that gives
/// them. The time is linear in the size of the text, times the logarithm of the number of its labels.
pub fn assemble(alloc: Global, text: &str, origin: u32) -> Result<Numbers, AsmFault>
    ensures { Assembled (program origin text.now) result }
{
    let text = text.as_bytes();
    let labels = Labels::of(alloc, text, origin)?;
    let mut words = Numbers::make(alloc);
    let mut lines = Lines::of(text, origin);
    'lines: while let Some(line) = lines.next() {
        match word_of_line(&labels, &line) {
            Ok(Some(word)) => words.push(word)?,
            Ok(None) => {}
            Err(cause) => {
                return Err(AsmFault::Line {
                    line: line.number,
                    cause,
                });
            }
        }
    }
    Ok(words)
}
