// The steps of a command: reading a file, printing a text, writing a file.
ghost use Rattle.std.specs.Prelude.{◌≤◌, length, IfOk, IfErr};
ghost use Rattle.outcomes.specs.Seen.{seen};
ghost use Rattle.outcomes.specs.Asked.{asking, AsksOne};
ghost use Rattle.outcomes.specs.Outcomes.{PrintsAll, PrintsBefore};
ghost use Rattle.outcomes.specs.Steps.{IsRead, IsUnread, IsLacking, IsPrinted, IsRoomFor, IsWritten, BlamesNone};

use crate::failures::{FilesFailure, OutFailure};
use cos_base::{Failed, FileFault, Files, Octets, Sink};

/// Reads a file.
pub fn read_file<F: Files>(files: &mut F, name: &str) -> Result<Octets, FilesFailure>
    ensures ok { IfOk result (λ held. IsRead (seen F.count F.told files.old files.new) name.now held.bytes) }
    ensures err { IfErr result (λ e. IsUnread (seen F.count F.told files.old files.new) e) }
    ensures asks { AsksOne name.now (asking F.told F.asked files.old files.new) result }
    ensures is_sound { F.sound files.old → F.sound files.new × IfErr result (λ e. IsLacking (F.told files.old) name.now e) }
{
    match files.read(name) {
        Ok(bytes) => Ok(bytes),
        Err(FileFault::Failed) => Err(FilesFailure::Failed {
            count: files.faults(),
        }),
        Err(FileFault::NoMemory) => Err(FilesFailure::NoMemory),
    }
}

/// Prints a text. It takes no memory.
pub fn put_text<K: Sink>(out: &mut K, text: &[u8]) -> Result<(), OutFailure>
    ensures puts { IsPrinted (seen K.count K.told out.old out.new) text.now result }
    ensures is_sound { K.sound out.old → IsRoomFor (K.room out.old) text.now result }
{
    match out.put(text) {
        Ok(()) => Ok(()),
        Err(Failed) => Err(OutFailure {
            count: out.faults(),
        }),
    }
}

/// Prints the text that stands before a refusal, as far as `out` takes it. It takes no memory.
pub fn put_before<K: Sink>(out: &mut K, text: &[u8])
    ensures puts { PrintsBefore (seen K.count K.told out.old out.new) text.now }
    ensures is_sound { K.sound out.old → length text.now ≤ K.room out.old → PrintsAll (seen K.count K.told out.old out.new) text.now }
{
    if text.is_empty() {
        return;
    }
    match out.put(text) {
        Ok(()) => {}
        Err(Failed) => {}
    }
}

/// Writes a file.
pub fn write_file<F: Files>(files: &mut F, name: &str, bytes: &[u8]) -> Result<(), FilesFailure>
    ensures writes { IsWritten (seen F.count F.told files.old files.new) name.now bytes.now result }
    ensures asks { AsksOne name.now (asking F.told F.asked files.old files.new) result }
    ensures is_sound { F.sound files.old → F.sound files.new × BlamesNone result }
{
    match files.write(name, bytes) {
        Ok(()) => Ok(()),
        Err(FileFault::Failed) => Err(FilesFailure::Failed {
            count: files.faults(),
        }),
        Err(FileFault::NoMemory) => Err(FilesFailure::NoMemory),
    }
}
