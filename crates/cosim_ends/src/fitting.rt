// The law that the parts of a configuration's machine go together.
ghost use Rattle.std.specs.Prelude.{◌≡◌, ◌≤◌, All, length, None};
ghost use Rattle.cos_config.specs.Plans.{plan_of};
ghost use Rattle.cos_parts.specs.AnyDevices as devices;
ghost use Rattle.cos_parts.specs.AnyMasters as masters;
ghost use Rattle.cosim_inputs.specs.Fresh.{device_kinds, port_kinds};
ghost use Rattle.cosim_inputs.specs.Limits.{IsWithinLimits};
ghost use Rattle.ends_model.specs.World.{Fit};
ghost use Rattle.cosim_ends.specs.Sides.{sides_of};

use cos_config::Config;
use cosim_inputs::Machine;

/// The master and the devices of a configuration that breaks no rule go together, whatever the files tell: what is asked for is what
/// reading the configuration and the machine promises. It does nothing.
pub fn parts_fit(config: &Config, machine: &Machine)
    requires limits { IsWithinLimits config.now }
    requires kinds { device_kinds machine.now.devices.items ≡ port_kinds config.now.ports }
    requires fresh { All (λ d. devices.any_seen d ≡ 0) machine.now.devices.items }
    requires reach { masters.any_reach machine.now.master ≤ length machine.now.devices.items }
    requires issued { masters.any_issued machine.now.master ≡ None }
    ensures { Fit masters.any_model devices.any_model (plan_of config.now) machine.now.master
        (sides_of config.now.ports machine.now.devices.items) }
{}
