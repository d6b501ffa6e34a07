// Devices of which no configuration speaks.
ghost use Rattle.std.specs.Prelude.{◌≡◌};
ghost use Rattle.outcomes.specs.Seen.{seen};
ghost use Rattle.cos_parts.specs.Nulls.{null_model};
ghost use Rattle.dev_timer.specs.Timers.{timer_model};
ghost use Rattle.cosim_serve.specs.Serves.{ServesFresh};
ghost use Rattle.cosim_device.specs.Starts.{plain_start, null_start, timer_start};

use cos_api::Device;
use cos_base::{Network, NoMemory};
use cos_parts::Null;
use cosim_serve::{DeviceRefusal, serve_socket};
use dev_timer::Timer;
use end_device::{Caps, DeviceEnd};
use outcomes::Stop;
use std::alloc::Global;

/// What a device offers of which no configuration speaks.
const ALL: Caps = Caps {
    base: true,
    enables: true,
    posted: true,
};

/// Connects to a socket, serves the connection as a device at reset, and closes it.
fn serve_plain<D: Device, N: Network>(
    alloc: Global,
    device: D,
    socket: &str,
    net: &mut N,
) -> Result<(), Stop<DeviceRefusal>>
    requires { D.model.seen device ≡ 0 }
    ensures { ServesFresh D.model (plain_start D.model device) 0 (record { told = N.Link.told; count = N.Link.count; is_sound = N.sound net.old }) socket.now (seen N.count N.told net.old net.new) result }
{
    let mut end = match DeviceEnd::make(alloc, device, ALL, true) {
        Ok(end) => end,
        Err(NoMemory) => return Err(Stop::NoMemory),
    };
    serve_socket(alloc, &mut end, 0, socket, net)
}

/// Serves a null device at a socket.
pub fn serve_null<N: Network>(
    alloc: Global,
    socket: &str,
    net: &mut N,
) -> Result<(), Stop<DeviceRefusal>>
    ensures { ServesFresh null_model null_start 0 (record { told = N.Link.told; count = N.Link.count; is_sound = N.sound net.old }) socket.now (seen N.count N.told net.old net.new) result }
{
    serve_plain(alloc, Null::make(), socket, net)
}

/// Serves a timer at a socket. Its level goes to `line`, 0 to 31.
pub fn serve_timer<N: Network>(
    alloc: Global,
    socket: &str,
    line: u32,
    net: &mut N,
) -> Result<(), Stop<DeviceRefusal>>
    ensures { ServesFresh timer_model (timer_start line) 0 (record { told = N.Link.told; count = N.Link.count; is_sound = N.sound net.old }) socket.now (seen N.count N.told net.old net.new) result }
{
    serve_plain(alloc, Timer::make(line), socket, net)
}
