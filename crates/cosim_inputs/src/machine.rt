// The machine of a configuration.
ghost use Rattle.std.specs.Prelude.{◌≡◌, ◌≤◌, length, All, None, IfOk, IfErr, IfSome};
ghost use Rattle.cos_parts.specs.AnyMasters.{any_reach, any_issued};
ghost use Rattle.cos_parts.specs.AnyDevices.{any_seen};
ghost use Rattle.outcomes.specs.Seen.{seen};
ghost use Rattle.outcomes.specs.Asked.{asking, AsksEach};
ghost use Rattle.cosim_inputs.specs.Limits.{IsWithinLimits};
ghost use Rattle.cosim_inputs.specs.Inputs.{machine_files, names_read};
ghost use Rattle.cosim_inputs.specs.Fresh.{master_of, devices_of, device_kinds, port_kinds};
ghost use Rattle.cosim_inputs.specs.Reads.{AreRead, AreUnread, AreLacking};

use crate::devices::read_devices;
use crate::master::read_master;
use crate::refusals::InputsRefusal;
use cos_base::Files;
use cos_config::Config;
use cos_parts::{AnyDevice, AnyMaster};
use outcomes::ReadFault;
use std::alloc::Global;

/// What a machine is put together from: its master and its devices by port, at reset.
#[derive(Drop)]
pub struct Machine {
    pub master: AnyMaster,
    pub devices: Vec<AnyDevice>,
}

/// The machine of a configuration, at reset.
///
/// The files that the configuration names are read in this order: image, script, and the UART inputs and disk images by port, each
/// read and then judged. What is answered in place of the machine is how the command ends.
pub fn read_machine<F: Files>(
    alloc: Global,
    files: &mut F,
    config: &Config,
) -> Result<Machine, ReadFault<InputsRefusal>>
    requires { IsWithinLimits config.now }
    // Nothing stands against reading any of the files.
    ensures ok { IfOk result (λ _. AreRead (seen F.count F.told files.old files.new) (machine_files config.now)) }
    // Its parts are those of what the files hold.
    ensures master { IfOk result (λ p. IfSome (F.told files.old) (λ m. p.master ≡ master_of m config.now)) }
    ensures devices { IfOk result (λ p. IfSome (F.told files.old) (λ m. p.devices.items ≡ devices_of m config.now.ports)) }
    // They may be run, whatever the files tell.
    ensures few { IfOk result (λ p. length p.devices.items ≤ 16) }
    ensures kinds { IfOk result (λ p. device_kinds p.devices.items ≡ port_kinds config.now.ports) }
    ensures fresh { IfOk result (λ p. All (λ d. any_seen d ≡ 0) p.devices.items) }
    ensures reach { IfOk result (λ p. any_reach p.master ≤ length p.devices.items) }
    ensures issued { IfOk result (λ p. any_issued p.master ≡ None) }
    // The first file that is refused, the files blamed, or no memory.
    ensures err { IfErr result (AreUnread (seen F.count F.told files.old files.new) (machine_files config.now)) }
    // The files are asked for in their order, each once, up to the first that something stands against.
    ensures asks { AsksEach (names_read (machine_files config.now)) (asking F.told F.asked files.old files.new) result }
    // Sound files are blamed only where the first file that something stands against isn't there.
    ensures is_sound { F.sound files.old → F.sound files.new × IfErr result (AreLacking (F.told files.old) (machine_files config.now)) }
{
    let master = match read_master(alloc, files, config) {
        Ok(master) => master,
        Err(fault) => return Err(fault),
    };
    match read_devices(alloc, files, config.ports.as_slice()) {
        Ok(devices) => Ok(Machine { master, devices }),
        Err(fault) => Err(fault),
    }
}
