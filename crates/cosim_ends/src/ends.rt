// The device ends of ports.
ghost use Rattle.std.specs.Prelude.{◌≡◌, All, map, IfOk};
ghost use Rattle.cos_parts.specs.AnyDevices.{any_seen};
ghost use Rattle.cosim_ends.specs.Sides.{sides_of, end_of};

use cos_base::NoMemory;
use cos_config::PortConfig;
use cos_parts::AnyDevice;
use device_turns::DeviceEnd;
use std::alloc::Global;

/// Makes the end of each port's device, as the settings of the port say: what its hello offers, and whether a line is sent so that
/// it is answered. The devices are by port, and at reset.
pub fn make_ends(
    alloc: Global,
    devices: Vec<AnyDevice>,
    ports: &[PortConfig],
) -> Result<Vec<DeviceEnd<AnyDevice>>, NoMemory>
    requires { All (λ d. any_seen d ≡ 0) devices.items }
    ensures { IfOk result (λ ends. ends.items ≡ map end_of (sides_of ports.now devices.items)) }
{
    let mut ends = Vec::new(alloc);
    'ports: for (settings, device) in ports.iter().zip(devices) {
        let end = DeviceEnd::make(alloc, device, settings.caps, settings.answered_lines)?;
        match ends.push(end) {
            Ok(()) => {}
            Err(_) => return Err(NoMemory),
        }
    }
    Ok(ends)
}
