// The command `help`.
ghost use Rattle.std.specs.Prelude.{◌≡◌};
ghost use Rattle.outcomes.specs.Seen.{seen};
ghost use Rattle.outcomes.specs.Steps.{IsPrinted, IsRoomFor};
ghost use Rattle.cosim_cli.specs.Help.{help_text};

use cos_base::Sink;
use outcomes::{OutFailure, put_text};

/// A line for each command.
const HELP: &str = "\
direct CONFIG
local CONFIG [schedule N | steps FILE] [capture FILE]
run CONFIG PROGRAM [capture FILE]
device SOCKET null
device SOCKET timer LINE
device SOCKET CONFIG PORT
show FILE
pack FILE
check CAPTURE CONFIG
gen N
asm FILE OUT
dis FILE
help
migrate CAPTURE OUT
relay MACHINE DEVICE RECORD
relayed CONFIG
save CONFIG UNITS FILE
resume CONFIG FILE
";

/// Prints the help text.
pub fn help<K: Sink>(out: &mut K) -> Result<(), OutFailure>
    ensures puts { IsPrinted (seen K.count K.told out.old out.new) help_text result }
    ensures is_sound { K.sound out.old → IsRoomFor (K.room out.old) help_text result }
{
    put_text(out, HELP.as_bytes())
}
