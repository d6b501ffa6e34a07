// The packets of a text, one packet a line.
ghost use Rattle.std.specs.Prelude.{◌≡◌, ◌∷◌, []};
ghost use Rattle.outcomes.specs.Seen.{seen};
ghost use Rattle.outcomes.specs.Asked.{asking, AsksFor};
ghost use Rattle.outcomes.specs.Outcomes.{OfFile, Performs};
ghost use Rattle.cos_text.specs.Lines.{lines};
ghost use Rattle.cosim_packets.specs.Packed.{Packed};
ghost use Rattle.cosim_packets.specs.Packing.{PacksLine, PacksLines, PacksText};

use crate::refusals::PackRefusal;
use cos_base::{Files, Octets, Sink};
use cos_text::first_line;
use outcomes::{JudgeFault, Stop, put_text, read_file};
use rp_text::{LineFault, read_line};
use std::alloc::Global;

/// Prints the packets of a text, of which each line is that of one, in their canonical spelling. The last line may lack its line
/// feed. The first line that is refused is told, and then nothing is printed; a text that isn't UTF-8 is refused at line 1.
///
/// The whole text is judged before anything is printed, so the text and its packets are both in memory.
pub fn pack<F: Files, K: Sink>(
    alloc: Global,
    name: &str,
    files: &mut F,
    out: &mut K,
) -> Result<(), Stop<PackRefusal>>
    ensures performs { Performs (OfFile name.now Packed (F.told files.old)) (seen F.count F.told files.old files.new)
        (seen K.count K.told out.old out.new) (F.sound files.old × K.sound out.old) (K.room out.old) result }
    // It asks for its file, once.
    ensures asks { AsksFor (λ m. name.now ∷ []) (λ m. []) (asking F.told F.asked files.old files.new) result }
{
    let text = read_file(files, name)?;
    let mut bytes = Octets::make(alloc);
    pack_text(alloc, text.as_slice(), &mut bytes)?;
    put_text(out, bytes.as_slice())?;
    Ok(())
}

/// Puts the packets of a text.
fn pack_text(alloc: Global, text: &[u8], out: &mut Octets) -> Result<(), JudgeFault<PackRefusal>>
    requires { out.old.bytes ≡ [] }
    ensures { PacksText text.now out.new.bytes result }
{
    match str::from_utf8(text) {
        Ok(_) => pack_lines(alloc, text, out),
        Err(_) => Err(JudgeFault::Refused(PackRefusal::Line { line: 1 })),
    }
}

/// Puts the packets of the lines of a text.
fn pack_lines(alloc: Global, text: &[u8], out: &mut Octets) -> Result<(), JudgeFault<PackRefusal>>
    requires { out.old.bytes ≡ [] }
    ensures { PacksLines (lines text.now) out.new.bytes result }
{
    let mut rest = text;
    let mut number = 0;
    while !rest.is_empty() {
        let (line, more) = first_line(rest);
        number += 1;
        match pack_line(alloc, line, out) {
            Ok(()) => rest = more,
            Err(LineFault::Line) => return Err(JudgeFault::Refused(PackRefusal::Line {
                line: number,
            })),
            Err(LineFault::NoMemory) => return Err(JudgeFault::NoMemory),
        }
    }
    Ok(())
}

/// Appends the packet of a line. What was read from a line can be written, if there is memory.
fn pack_line(alloc: Global, line: &[u8], out: &mut Octets) -> Result<(), LineFault>
    ensures { PacksLine line.now out.old.bytes out.new.bytes result }
{
    match read_line(alloc, line) {
        Ok(packet) => match packet.write_into(out) {
            Ok(()) => Ok(()),
            Err(_) => Err(LineFault::NoMemory),
        },
        Err(fault) => Err(fault),
    }
}
