// The command `show`.
ghost use Rattle.std.specs.Prelude.{◌∷◌, []};
ghost use Rattle.outcomes.specs.Seen.{seen};
ghost use Rattle.outcomes.specs.Asked.{asking, AsksFor};
ghost use Rattle.outcomes.specs.Outcomes.{OfFile, Performs};
ghost use Rattle.cosim_packets.specs.Shown.{Shown};

use crate::listing::list;
use crate::refusals::ShowRefusal;
use cos_base::{Files, Octets, Sink};
use outcomes::{JudgeFault, Stop, put_before, put_text, read_file};
use std::alloc::Global;

/// Prints one line for each packet of a stream in a file, with the word `loose` where its spelling isn't the canonical one. A
/// file that isn't a stream of whole packets is refused; the lines of the packets before the refusal are printed.
///
/// The whole file is judged before anything is printed, so the file and the text are both in memory.
pub fn show<F: Files, K: Sink>(
    alloc: Global,
    name: &str,
    files: &mut F,
    out: &mut K,
) -> Result<(), Stop<ShowRefusal>>
    ensures performs { Performs (OfFile name.now Shown (F.told files.old)) (seen F.count F.told files.old files.new)
        (seen K.count K.told out.old out.new) (F.sound files.old × K.sound out.old) (K.room out.old) result }
    // It asks for its file, once.
    ensures asks { AsksFor (λ m. name.now ∷ []) (λ m. []) (asking F.told F.asked files.old files.new) result }
{
    let bytes = read_file(files, name)?;
    let mut text = Octets::make(alloc);
    match list(alloc, bytes.as_slice(), &mut text) {
        Ok(()) => {
            put_text(out, text.as_slice())?;
            Ok(())
        }
        Err(JudgeFault::Refused(refusal)) => {
            put_before(out, text.as_slice());
            Err(Stop::Refused(refusal))
        }
        Err(JudgeFault::NoMemory) => Err(Stop::NoMemory),
    }
}
