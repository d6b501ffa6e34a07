// A configuration and its machine.
ghost use Rattle.std.specs.Prelude.{IfOk, IfErr};
ghost use Rattle.outcomes.specs.Asked.{asking, AsksEach};
ghost use Rattle.outcomes.specs.Seen.{seen};
ghost use Rattle.outcomes.specs.Steps.{ComesUnread, ComesLacking};
ghost use Rattle.configured_machine.specs.Configured.{AreParts, MayRun, StandsAgainst, machine_names};

use cos_base::Files;
use cos_config::{Config, Sockets};
use cosim_ends::parts_fit;
use cosim_inputs::{InputsRefusal, Machine, read_config, read_machine};
use outcomes::ReadFault;
use std::alloc::Global;

/// A configuration, and the machine that is put together by it.
#[derive(Drop)]
pub struct Parts {
    pub config: Config,
    pub machine: Machine,
}

/// Reads a configuration and the files that it names, in this order: image, script, and the UART inputs and disk images
/// by port, each read and then judged. `sockets` says which ports need the key `socket`.
pub fn read_parts<F: Files>(
    alloc: Global,
    name: &str,
    sockets: Sockets,
    files: &mut F,
) -> Result<Parts, ReadFault<InputsRefusal>>
    ensures ok { IfOk result (AreParts sockets (seen F.count F.told files.old files.new) name.now) }
    ensures may_run { IfOk result MayRun }
    ensures err { IfErr result (λ e. ComesUnread (StandsAgainst sockets (F.told files.old) name.now)
        (seen F.count F.told files.old files.new) e) }
    ensures asks { AsksEach (machine_names sockets name.now) (asking F.told F.asked files.old files.new) result }
    ensures is_sound { F.sound files.old → F.sound files.new
        × IfErr result (λ e. ComesLacking (StandsAgainst sockets (F.told files.old) name.now) e) }
{
    let config = match read_config(alloc, files, name, sockets) {
        Ok(config) => config,
        Err(fault) => return Err(fault),
    };
    let machine = match read_machine(alloc, files, &config) {
        Ok(machine) => machine,
        Err(fault) => return Err(fault),
    };
    parts_fit(&config, &machine);
    Ok(Parts { config, machine })
}
