//! The command `asm`.

ghost use Rattle.std.specs.Prelude.{◌≡◌, ◌∷◌, [], List, ℕ, Ok, Err, IfOk, IfErr};
ghost use Rattle.outcomes.specs.Seen.{Seen, seen, IsUntouched};
ghost use Rattle.outcomes.specs.Asked.{asking, AsksFor};
ghost use Rattle.outcomes.specs.Outcomes.{Performs};
ghost use Rattle.cosim_assembly.specs.Images.{image_of};
ghost use Rattle.cosim_assembly.specs.Assemblies.{Images, IsRefused, AsmComes};

use crate::refusals::AsmRefusal;
use cos_base::{Files, NoMemory, Octets};
use outcomes::{JudgeFault, Stop, read_file, write_file};
use rv_asm::{AsmFault, Cause, assemble};
use std::alloc::Global;

/// The address of the first word: where RAM begins.
const ORIGIN: u32 = 0x8000_0000;

/// The bytes of words, the lowest byte of each first.
fn image_of(alloc: Global, words: &[u32]) -> Result<Octets, NoMemory>
    ensures { IfOk result (λ image. image.bytes ≡ image_of words.now) }
{
    let mut image = Octets::make(alloc);
    for word in words {
        image.push_all(&word.to_le_bytes())?;
    }
    Ok(image)
}

/// The image of a text, or why it is refused.
fn image_of_text(alloc: Global, text: &str) -> Result<Octets, JudgeFault<AsmRefusal>>
    ensures ok { IfOk result (λ image. Images text.now (Ok image.bytes)) }
    ensures err { IfErr result (λ fault. IsRefused text.now fault) }
{
    match assemble(alloc, text, ORIGIN) {
        Ok(words) => match image_of(alloc, words.as_slice()) {
            Ok(image) => Ok(image),
            Err(NoMemory) => Err(JudgeFault::NoMemory),
        },
        Err(AsmFault::Line { line, cause }) => {
            Err(JudgeFault::Refused(AsmRefusal::Assembly { line, cause }))
        }
        Err(AsmFault::NoMemory) => Err(JudgeFault::NoMemory),
    }
}

/// The image of a file's bytes as a text of assembly, or why they are refused.
fn image_of_bytes(alloc: Global, bytes: &[u8]) -> Result<Octets, JudgeFault<AsmRefusal>>
    ensures ok { IfOk result (λ image. Images bytes.now (Ok image.bytes)) }
    ensures err { IfErr result (λ fault. IsRefused bytes.now fault) }
{
    match str::from_utf8(bytes) {
        Ok(text) => image_of_text(alloc, text),
        Err(_) => Err(JudgeFault::Refused(AsmRefusal::Assembly {
            line: 1,
            cause: Cause::Syntax,
        })),
    }
}

/// Writes the image of a text of assembly: its words from the beginning of RAM on, the lowest byte of each first.
///
/// Nothing is printed, and a text that is refused writes nothing. Memory holds the text, its words and its bytes.
pub fn asm<F: Files>(
    alloc: Global,
    file: &str,
    target: &str,
    files: &mut F,
) -> Result<(), Stop<AsmRefusal>>
    ensures performs { (out : Seen (List ℕ)) (room : ℕ) → IsUntouched out →
        Performs (AsmComes file.now target.now (F.told files.old)) (seen F.count F.told files.old files.new) out (F.sound files.old) room result }
    // It asks for its text, and then for the file that it writes, each once.
    ensures asks { AsksFor (λ m. file.now ∷ []) (λ m. target.now ∷ [])
        (asking F.told F.asked files.old files.new) result }
{
    let text = read_file(files, file)?;
    let image = image_of_bytes(alloc, text.as_slice())?;
    write_file(files, target, image.as_slice())?;
    Ok(())
}
