// The files that a run writes at its end.
ghost use Rattle.std.specs.Prelude.{◌≡◌, ◌≤◌, length};
ghost use Rattle.outcomes.specs.Asked.{asking};
ghost use Rattle.outcomes.specs.Seen.{seen};
ghost use Rattle.outcomes.specs.Steps.{BlamesNone};
ghost use Rattle.cosim_local.specs.Results.{result_of, results_of};
ghost use Rattle.cosim_local.specs.Steps.{AsksResults, WritesAll, devices_in};

use crate::finished::MachineWorld;
use cos_base::Files;
use cos_config::{Name, PortConfig};
use cos_parts::AnyDevice;
use outcomes::{FilesFailure, write_file};

/// Writes the sectors of a disk to the file that is named for them, and nothing of any other device.
fn write_result<F: Files>(
    files: &mut F,
    name: &Option<Name>,
    device: &AnyDevice,
) -> Result<(), FilesFailure>
    ensures writes { WritesAll (result_of name.now device.now) (seen F.count F.told files.old files.new) result }
    ensures asks { AsksResults (result_of name.now device.now) (asking F.told F.asked files.old files.new) result }
    ensures is_sound { F.sound files.old → F.sound files.new × BlamesNone result }
{
    match (name, device) {
        (Some(name), AnyDevice::Disk(disk)) => write_file(files, name.as_str(), disk.sectors()),
        _ => Ok(()),
    }
}

/// Writes the sectors of each disk, by port, to the file that its port names for them.
pub fn write_results<F: Files>(
    ports: &[PortConfig],
    world: &MachineWorld,
    files: &mut F,
) -> Result<(), FilesFailure>
    requires few { length ports.now ≤ 16 }
    requires ports { length ports.now ≡ length world.now.start.ports }
    ensures writes { WritesAll (results_of ports.now (devices_in world.now))
        (seen F.count F.told files.old files.new) result }
    ensures asks { AsksResults (results_of ports.now (devices_in world.now))
        (asking F.told F.asked files.old files.new) result }
    ensures is_sound { F.sound files.old → F.sound files.new × BlamesNone result }
{
    for (port, settings) in ports.iter().enumerate() {
        let end = world.device(port as u32);
        match write_result(files, &settings.result, end.device()) {
            Ok(()) => {}
            Err(failure) => return Err(failure),
        }
    }
    Ok(())
}
