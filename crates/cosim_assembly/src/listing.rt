//! The command `dis`.

ghost use Rattle.std.specs.Prelude.{◌≡◌, ◌≤◌, ◌+◌, [], ◌∷◌, length, IfOk};
ghost use Rattle.outcomes.specs.Seen.{seen};
ghost use Rattle.outcomes.specs.Asked.{asking, AsksFor};
ghost use Rattle.outcomes.specs.Outcomes.{Performs};
ghost use Rattle.cosim_assembly.specs.Images.{words_of};
ghost use Rattle.cosim_assembly.specs.Listings.{lines_of, DisComes};

use crate::refusals::DisRefusal;
use cos_base::{Files, NoMemory, Octets, Sink};
use outcomes::{Stop, put_text, read_file};
use rv_asm::disassemble;
use std::alloc::Global;

/// The first word of bytes, and the bytes after it.
fn first_word(bytes: &[u8]) -> (u32, &[u8])
    requires { 4 ≤ length bytes.now }
    ensures words { words_of bytes.now ≡ result.0 ∷ words_of result.1.now }
    ensures shorter { length result.1.now + 4 ≡ length bytes.now }
{
    let word = u32::from_le_bytes([bytes[0], bytes[1], bytes[2], bytes[3]]);
    (word, &bytes[4..])
}

/// The lines of the words of bytes.
fn lines_of(alloc: Global, bytes: &[u8]) -> Result<Octets, NoMemory>
    ensures { IfOk result (λ text. text.bytes ≡ lines_of (words_of bytes.now)) }
{
    let mut text = Octets::make(alloc);
    let mut rest = bytes;
    'words: while 4 <= rest.len() {
        let (word, after) = first_word(rest);
        disassemble(word, &mut text)?;
        rest = after;
    }
    Ok(text)
}

/// Prints the words of an image, a line each.
///
/// The file is read and listed before anything is printed. Memory holds its bytes and its lines.
pub fn dis<F: Files, K: Sink>(
    alloc: Global,
    file: &str,
    files: &mut F,
    out: &mut K,
) -> Result<(), Stop<DisRefusal>>
    ensures performs { Performs (DisComes file.now (F.told files.old)) (seen F.count F.told files.old files.new)
        (seen K.count K.told out.old out.new) (F.sound files.old × K.sound out.old) (K.room out.old) result }
    // It asks for its file, once.
    ensures asks { AsksFor (λ m. file.now ∷ []) (λ m. []) (asking F.told F.asked files.old files.new) result }
{
    let image = read_file(files, file)?;
    if image.len() % 4 != 0 {
        return Err(Stop::Refused(DisRefusal::Words {
            len: image.len() as u64,
        }));
    }
    let text = lines_of(alloc, image.as_slice())?;
    put_text(out, text.as_slice())?;
    Ok(())
}
