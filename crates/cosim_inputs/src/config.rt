// The configuration.
ghost use Rattle.std.specs.Prelude.{◌≡◌, ◌⊎◌, ◌∷◌, [], Ok, Err, IfOk, IfErr};
ghost use Rattle.outcomes.specs.Seen.{seen};
ghost use Rattle.outcomes.specs.Asked.{asking, AsksEach};
ghost use Rattle.cosim_inputs.specs.Limits.{IsWithinLimits, HasServed};
ghost use Rattle.cosim_inputs.specs.Judging.{judged};
ghost use Rattle.cosim_inputs.specs.Configs.{IsConfigRead, IsConfigUnread, IsConfigLacking};

use crate::refusals::InputsRefusal;
use cos_base::Files;
use cos_config::{Config, ConfigFault, Sockets, judge};
use outcomes::{FilesFailure, ReadFault, read_file};
use std::alloc::Global;

/// Judges a text, and how the command ends where it is refused.
fn judge_text(alloc: Global, bytes: &[u8], sockets: Sockets) -> Result<Config, ConfigFault>
    ensures ok { IfOk result (λ c. judged sockets bytes.now ≡ Ok c) }
    ensures err { IfErr result (λ f. (f ≡ ConfigFault.NoMemory) ⊎ (judged sockets bytes.now ≡ Err f)) }
    ensures limits { IfOk result IsWithinLimits }
    ensures served { IfOk result (HasServed sockets) }
{
    judge(alloc, bytes, sockets)
}

/// Reads a configuration, and judges it. What it answers in its place is how the command ends.
pub fn read_config<F: Files>(
    alloc: Global,
    files: &mut F,
    name: &str,
    sockets: Sockets,
) -> Result<Config, ReadFault<InputsRefusal>>
    // It is what the file's bytes are judged as.
    ensures ok { IfOk result (IsConfigRead sockets (seen F.count F.told files.old files.new) name.now) }
    // Its settings are within the limits.
    ensures limits { IfOk result IsWithinLimits }
    // The port whose device is to be served is there.
    ensures served { IfOk result (HasServed sockets) }
    // The first rule that it breaks, the files blamed, or no memory.
    ensures err { IfErr result (IsConfigUnread sockets (seen F.count F.told files.old files.new) name.now) }
    // It asks for its name, once.
    ensures asks { AsksEach (λ m. name.now ∷ []) (asking F.told F.asked files.old files.new) result }
    // Sound files are blamed only where they lack the name.
    ensures is_sound { F.sound files.old → F.sound files.new × IfErr result (IsConfigLacking (F.told files.old) name.now) }
{
    let bytes = match read_file(files, name) {
        Ok(bytes) => bytes,
        Err(FilesFailure::Failed { count }) => return Err(ReadFault::Failed { count }),
        Err(FilesFailure::NoMemory) => return Err(ReadFault::NoMemory),
    };
    match judge_text(alloc, bytes.as_slice(), sockets) {
        Ok(config) => Ok(config),
        Err(ConfigFault::NoMemory) => Err(ReadFault::NoMemory),
        Err(fault) => Err(ReadFault::Refused(InputsRefusal::Config(fault))),
    }
}
