// The device of a configuration's port.
ghost use Rattle.std.specs.Prelude.{◌≡◌, [], IfOk, IfErr};
ghost use Rattle.cos_parts.specs.AnyDevices.{any_seen};
ghost use Rattle.device_turns.specs.Ends.{fresh};
ghost use Rattle.outcomes.specs.Asked.{asking, AsksEach};
ghost use Rattle.outcomes.specs.Seen.{seen};
ghost use Rattle.outcomes.specs.Steps.{ComesUnread, ComesLacking, BlamesNone};
ghost use Rattle.cosim_inputs.specs.Limits.{IsPort};
ghost use Rattle.cosim_inputs.specs.Inputs.{port_files, names_read};
ghost use Rattle.cosim_inputs.specs.Reads.{AreRead, AreUnread, AreLacking};
ghost use Rattle.cosim_device.specs.Ports.{port_names, port_start, result_of};
ghost use Rattle.cosim_device.specs.Served.{StandsAgainst, ServesPort, Writes, AsksWritten, Finishes, unread_end, peer_end, written_end};
ghost use Rattle.cosim_device.specs.Making.{IsEndOf, IsMade, ServesMade};

use crate::refusal::PortRefusal;
use cos_base::{Files, Network, NoMemory};
use cos_config::{Name, PortConfig, Sockets};
use cos_parts::AnyDevice;
use cosim_inputs::{InputsRefusal, read_config, read_device};
use cosim_serve::{DeviceRefusal, serve_socket};
use end_device::DeviceEnd;
use outcomes::{FilesFailure, Object, ReadFault, Stop, write_file};
use std::alloc::Global;

/// The fresh end of a port's device, and the file for the sectors of a disk.
#[derive(Drop)]
struct PortEnd {
    end: DeviceEnd<AnyDevice>,
    result: Option<Name>,
}

/// A copy of a name that may be there.
fn copy_of(alloc: Global, name: &Option<Name>) -> Result<Option<Name>, NoMemory>
    ensures { IfOk result (λ n. n ≡ name.now) }
{
    match name {
        Some(name) => Ok(Some(Name::copy_of(alloc, name.as_str())?)),
        None => Ok(None),
    }
}

/// Makes the end of a device at reset, as the settings of its port say.
fn make_end(alloc: Global, device: AnyDevice, settings: &PortConfig) -> Result<PortEnd, NoMemory>
    requires { any_seen device ≡ 0 }
    ensures end { IfOk result (λ p. p.end ≡ fresh (port_start settings.now device)) }
    ensures result { IfOk result (λ p. p.result ≡ settings.now.result) }
{
    let name = match copy_of(alloc, &settings.result) {
        Ok(name) => name,
        Err(NoMemory) => return Err(NoMemory),
    };
    match DeviceEnd::make(alloc, device, settings.caps, settings.answered_lines) {
        Ok(end) => Ok(PortEnd { end, result: name }),
        Err(NoMemory) => Err(NoMemory),
    }
}

/// Makes the end of a port's device by the port's settings, of the file that they name.
fn read_end<F: Files>(
    alloc: Global,
    port: u32,
    settings: &PortConfig,
    files: &mut F,
) -> Result<PortEnd, ReadFault<InputsRefusal>>
    requires { IsPort settings.now }
    ensures ok { IfOk result (λ _. AreRead (seen F.count F.told files.old files.new) (port_files port settings.now)) }
    ensures end { IfOk result (λ p. IsEndOf (F.told files.old) settings.now p) }
    ensures err { IfErr result (AreUnread (seen F.count F.told files.old files.new) (port_files port settings.now)) }
    ensures asks { AsksEach (names_read (port_files port settings.now)) (asking F.told F.asked files.old files.new) result }
    ensures is_sound { F.sound files.old → F.sound files.new × IfErr result (AreLacking (F.told files.old) (port_files port settings.now)) }
{
    let device = match read_device(alloc, files, port, settings) {
        Ok(device) => device,
        Err(fault) => return Err(fault),
    };
    match make_end(alloc, device, settings) {
        Ok(made) => Ok(made),
        Err(NoMemory) => Err(ReadFault::NoMemory),
    }
}

/// Makes the end of a port's device, of the configuration and the file that it names for the port.
fn read_port<F: Files>(
    alloc: Global,
    config: &str,
    port: u32,
    files: &mut F,
) -> Result<PortEnd, ReadFault<InputsRefusal>>
    ensures ok { IfOk result (λ p. IsMade (seen F.count F.told files.old files.new) config.now port p) }
    ensures err { IfErr result (λ e. ComesUnread (StandsAgainst (F.told files.old) config.now port) (seen F.count F.told files.old files.new) e) }
    ensures asks { AsksEach (port_names config.now port) (asking F.told F.asked files.old files.new) result }
    ensures is_sound { F.sound files.old → F.sound files.new × IfErr result (λ e. ComesLacking (StandsAgainst (F.told files.old) config.now port) e) }
{
    let config = match read_config(alloc, files, config, Sockets::Port { port }) {
        Ok(config) => config,
        Err(fault) => return Err(fault),
    };
    match config.ports.as_slice().get(port as usize) {
        Some(settings) => read_end(alloc, port, settings, files),
        None => unreachable!(),
    }
}

/// Writes the sectors of a disk to the file that is named for them, and nothing of any other device.
fn write_result<F: Files>(
    files: &mut F,
    name: &Option<Name>,
    device: &AnyDevice,
) -> Result<(), FilesFailure>
    ensures writes { Writes (result_of name.now device.now) (seen F.count F.told files.old files.new) result }
    ensures asks { AsksWritten (result_of name.now device.now) (λ _. []) (asking F.told F.asked files.old files.new) result }
    ensures is_sound { F.sound files.old → BlamesNone result }
{
    match (name, device) {
        (Some(name), AnyDevice::Disk(disk)) => write_file(files, name.as_str(), disk.sectors()),
        _ => Ok(()),
    }
}

/// How a file that couldn't be had ends the command.
fn unread(fault: ReadFault<InputsRefusal>) -> Result<(), Stop<PortRefusal>>
    ensures { result ≡ unread_end fault }
{
    match fault {
        ReadFault::Refused(refusal) => Err(Stop::Refused(PortRefusal::Inputs(refusal))),
        ReadFault::Failed { count } => Err(Stop::Outside {
            object: Object::Files,
            count,
        }),
        ReadFault::NoMemory => Err(Stop::NoMemory),
    }
}

/// How a conversation that didn't end well ends the command.
fn unserved(stop: Stop<DeviceRefusal>) -> Result<(), Stop<PortRefusal>>
    ensures { result ≡ peer_end stop }
{
    match stop {
        Stop::Refused(refusal) => Err(Stop::Refused(PortRefusal::Peer(refusal))),
        Stop::Outside { object, count } => Err(Stop::Outside { object, count }),
        Stop::NoMemory => Err(Stop::NoMemory),
    }
}

/// How writing a file ends the command.
fn written(ended: Result<(), FilesFailure>) -> Result<(), Stop<PortRefusal>>
    ensures { result ≡ written_end ended }
{
    match ended {
        Ok(()) => Ok(()),
        Err(FilesFailure::Failed { count }) => Err(Stop::Outside {
            object: Object::Files,
            count,
        }),
        Err(FilesFailure::NoMemory) => Err(Stop::NoMemory),
    }
}

/// Writes what is to be written behind a conversation that ended well.
fn finish<F: Files>(
    served: Result<(), Stop<DeviceRefusal>>,
    name: &Option<Name>,
    device: &AnyDevice,
    files: &mut F,
) -> Result<(), Stop<PortRefusal>>
    ensures { Finishes (result_of name.now device.now) (λ _. []) (seen F.count F.told files.old files.new)
        (asking F.told F.asked files.old files.new) (F.sound files.old) served result }
{
    match served {
        Ok(()) => written(write_result(files, name, device)),
        Err(stop) => unserved(stop),
    }
}

/// Serves a fresh end at a socket, and writes what is to be written behind.
fn serve_made<F: Files, N: Network>(
    alloc: Global,
    made: PortEnd,
    socket: &str,
    port: u32,
    files: &mut F,
    net: &mut N,
) -> Result<(), Stop<PortRefusal>>
    requires { made.end ≡ fresh made.end.clear }
    ensures { ServesMade made port socket.now (seen F.count F.told files.old files.new) (asking F.told F.asked files.old files.new) (F.sound files.old)
        (record { told = N.Link.told; count = N.Link.count; is_sound = N.sound net.old }) (seen N.count N.told net.old net.new) result }
{
    let PortEnd { end, result: name } = made;
    let mut end = end;
    let served = serve_socket(alloc, &mut end, port, socket, net);
    finish(served, &name, end.device(), files)
}

/// Serves the device of a configuration's port at a socket: the configuration is read and judged, then the file that the port's
/// device begins with; then it connects, and serves the connection as the device at reset until the machine closes it. Behind a
/// conversation that ended well the sectors of a disk are written to the file that is named for them.
pub fn serve_port<F: Files, N: Network>(
    alloc: Global,
    socket: &str,
    config: &str,
    port: u32,
    files: &mut F,
    net: &mut N,
) -> Result<(), Stop<PortRefusal>>
    ensures { ServesPort config.now port socket.now (record {
      files = seen F.count F.told files.old files.new;
      names = asking F.told F.asked files.old files.new;
      is_sound = F.sound files.old;
      net = seen N.count N.told net.old net.new;
      links = record { told = N.Link.told; count = N.Link.count; is_sound = N.sound net.old };
    }) result }
{
    match read_port(alloc, config, port, files) {
        Ok(made) => serve_made(alloc, made, socket, port, files, net),
        Err(fault) => unread(fault),
    }
}
