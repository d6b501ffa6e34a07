// A file that a configuration names.
ghost use Rattle.std.specs.Prelude.{◌∷◌, [], Some, IfOk, IfErr};
ghost use Rattle.outcomes.specs.Seen.{seen};
ghost use Rattle.outcomes.specs.Asked.{asking, AsksEach};
ghost use Rattle.outcomes.specs.Steps.{IsRead};
ghost use Rattle.cosim_inputs.specs.Inputs.{Asked, Role, asked_as};
ghost use Rattle.cosim_inputs.specs.Reads.{AreUnread, AreLacking};

use crate::refusals::InputsRefusal;
use cos_base::{Files, Octets};
use cos_config::Name;
use outcomes::{FilesFailure, ReadFault, read_file};

/// Reads a file. What stands against reading it is the same whatever it is read as.
pub fn read_named<F: Files>(files: &mut F, name: &Name) -> Result<Octets, ReadFault<InputsRefusal>>
    ensures ok { IfOk result (λ held. IsRead (seen F.count F.told files.old files.new) name.now held.bytes) }
    ensures err { IfErr result (λ e. (role : Role) → AreUnread (seen F.count F.told files.old files.new) (asked_as role (Some name.now)) e) }
    ensures asks { AsksEach (λ m. name.now ∷ []) (asking F.told F.asked files.old files.new) result }
    ensures is_sound { F.sound files.old → F.sound files.new × IfErr result (λ e. (role : Role) → AreLacking (F.told files.old) (asked_as role (Some name.now)) e) }
{
    match read_file(files, name.as_str()) {
        Ok(bytes) => Ok(bytes),
        Err(FilesFailure::Failed { count }) => Err(ReadFault::Failed { count }),
        Err(FilesFailure::NoMemory) => Err(ReadFault::NoMemory),
    }
}
