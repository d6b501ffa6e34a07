// The devices of a configuration.
ghost use Rattle.std.specs.Prelude.{◌≡◌, ◌%◌, ◌≤◌, All, Some, IfOk, IfErr, IfSome, length, vec_len};
ghost use Rattle.cos_parts.specs.AnyDevices.{any_seen};
ghost use Rattle.outcomes.specs.Seen.{seen};
ghost use Rattle.outcomes.specs.Asked.{asking, AsksEach};
ghost use Rattle.cosim_inputs.specs.Limits.{IsPort, ArePorts};
ghost use Rattle.cosim_inputs.specs.Inputs.{asked_as, port_files, ports_files, names_read, AsInput, AsDisk};
ghost use Rattle.cosim_inputs.specs.Fresh.{bytes_in, device_of, devices_of, kind_of, device_kinds, port_kinds};
ghost use Rattle.cosim_inputs.specs.Reads.{AreRead, AreUnread, AreLacking};

use crate::named_file::read_named;
use crate::refusals::InputsRefusal;
use cos_base::{Files, NoMemory, Numbers, Octets};
use cos_config::{Name, PortConfig, PortKind};
use cos_parts::{AnyDevice, Null};
use dev_disk::Disk;
use dev_dma::Dma;
use dev_timer::Timer;
use dev_uart::Uart;
use outcomes::ReadFault;
use std::alloc::Global;

/// The most bytes of a UART's input.
const MOST_INPUT: usize = 65_536;

/// The bytes of a sector of a disk.
const SECTOR: usize = 512;

/// The most bytes of a disk's image.
const MOST_IMAGE: usize = 16_777_216;

/// Reads the input of the UART at a port: no bytes where no file is named.
fn read_input<F: Files>(
    alloc: Global,
    files: &mut F,
    port: u32,
    name: &Option<Name>,
) -> Result<Octets, ReadFault<InputsRefusal>>
    ensures ok { IfOk result (λ _. AreRead (seen F.count F.told files.old files.new) (asked_as (AsInput port) name.now)) }
    ensures bytes { IfOk result (λ o. IfSome (F.told files.old) (λ m. o.bytes ≡ bytes_in m name.now)) }
    ensures few { IfOk result (λ o. length o.bytes ≤ 65536) }
    ensures err { IfErr result (AreUnread (seen F.count F.told files.old files.new) (asked_as (AsInput port) name.now)) }
    ensures asks { AsksEach (names_read (asked_as (AsInput port) name.now)) (asking F.told F.asked files.old files.new) result }
    ensures is_sound { F.sound files.old → F.sound files.new × IfErr result (AreLacking (F.told files.old) (asked_as (AsInput port) name.now)) }
{
    let name = match name {
        Some(name) => name,
        None => return Ok(Octets::make(alloc)),
    };
    let bytes = match read_named(files, name) {
        Ok(bytes) => bytes,
        Err(fault) => return Err(fault),
    };
    if bytes.len() > MOST_INPUT {
        return Err(ReadFault::Refused(InputsRefusal::UartInput {
            port,
            len: bytes.len() as u64,
        }));
    }
    Ok(bytes)
}

/// Reads the image of the disk at a port.
fn read_image<F: Files>(
    files: &mut F,
    port: u32,
    name: &Name,
) -> Result<Octets, ReadFault<InputsRefusal>>
    ensures ok { IfOk result (λ _. AreRead (seen F.count F.told files.old files.new) (asked_as (AsDisk port) (Some name.now))) }
    ensures bytes { IfOk result (λ o. IfSome (F.told files.old) (λ m. o.bytes ≡ bytes_in m (Some name.now))) }
    ensures whole { IfOk result (λ o. length o.bytes % 512 ≡ 0) }
    ensures some { IfOk result (λ o. 512 ≤ length o.bytes) }
    ensures most { IfOk result (λ o. length o.bytes ≤ 16777216) }
    ensures err { IfErr result (AreUnread (seen F.count F.told files.old files.new) (asked_as (AsDisk port) (Some name.now))) }
    ensures asks { AsksEach (names_read (asked_as (AsDisk port) (Some name.now))) (asking F.told F.asked files.old files.new) result }
    ensures is_sound { F.sound files.old → F.sound files.new × IfErr result (AreLacking (F.told files.old) (asked_as (AsDisk port) (Some name.now))) }
{
    let bytes = match read_named(files, name) {
        Ok(bytes) => bytes,
        Err(fault) => return Err(fault),
    };
    let len = bytes.len();
    if len % SECTOR == 0 && SECTOR <= len && len <= MOST_IMAGE {
        return Ok(bytes);
    }
    Err(ReadFault::Refused(InputsRefusal::DiskImage {
        port,
        len: len as u64,
    }))
}

/// A copy of a list of numbers.
fn copy_of(alloc: Global, numbers: &Numbers) -> Result<Numbers, NoMemory>
    ensures { IfOk result (λ n. n ≡ numbers.now) }
{
    let mut copy = Numbers::make(alloc);
    for number in numbers.as_slice() {
        copy.push(*number)?;
    }
    Ok(copy)
}

/// The UART of a port.
fn read_uart<F: Files>(
    alloc: Global,
    files: &mut F,
    port: u32,
    config: &PortConfig,
) -> Result<AnyDevice, ReadFault<InputsRefusal>>
    requires port { IsPort config.now }
    requires kind { config.now.kind ≡ PortKind.Uart }
    ensures ok { IfOk result (λ _. AreRead (seen F.count F.told files.old files.new) (port_files port config.now)) }
    ensures device { IfOk result (λ d. IfSome (F.told files.old) (λ m. d ≡ device_of m config.now)) }
    ensures fresh { IfOk result (λ d. any_seen d ≡ 0) }
    ensures kind { IfOk result (λ d. kind_of d ≡ config.now.kind) }
    ensures err { IfErr result (AreUnread (seen F.count F.told files.old files.new) (port_files port config.now)) }
    ensures asks { AsksEach (names_read (port_files port config.now)) (asking F.told F.asked files.old files.new) result }
    ensures is_sound { F.sound files.old → F.sound files.new × IfErr result (AreLacking (F.told files.old) (port_files port config.now)) }
{
    match read_input(alloc, files, port, &config.input) {
        Ok(input) => Ok(AnyDevice::Uart(Uart::make(alloc, config.line, input, config.gap))),
        Err(fault) => Err(fault),
    }
}

/// The disk of a port.
fn read_disk<F: Files>(
    alloc: Global,
    files: &mut F,
    port: u32,
    config: &PortConfig,
) -> Result<AnyDevice, ReadFault<InputsRefusal>>
    requires port { IsPort config.now }
    requires kind { config.now.kind ≡ PortKind.Disk }
    ensures ok { IfOk result (λ _. AreRead (seen F.count F.told files.old files.new) (port_files port config.now)) }
    ensures device { IfOk result (λ d. IfSome (F.told files.old) (λ m. d ≡ device_of m config.now)) }
    ensures fresh { IfOk result (λ d. any_seen d ≡ 0) }
    ensures kind { IfOk result (λ d. kind_of d ≡ config.now.kind) }
    ensures err { IfErr result (AreUnread (seen F.count F.told files.old files.new) (port_files port config.now)) }
    ensures asks { AsksEach (names_read (port_files port config.now)) (asking F.told F.asked files.old files.new) result }
    ensures is_sound { F.sound files.old → F.sound files.new × IfErr result (AreLacking (F.told files.old) (port_files port config.now)) }
{
    let bad = match copy_of(alloc, &config.bad) {
        Ok(bad) => bad,
        Err(NoMemory) => return Err(ReadFault::NoMemory),
    };
    let name = match &config.disk {
        Some(name) => name,
        None => unreachable!(),
    };
    match read_image(files, port, name) {
        Ok(image) => Ok(AnyDevice::Disk(Disk::make(config.line, image, bad))),
        Err(fault) => Err(fault),
    }
}

/// The device of a port, at reset. The file that it names is read, and then judged; what is answered in place of the device is how
/// the command ends.
pub fn read_device<F: Files>(
    alloc: Global,
    files: &mut F,
    port: u32,
    config: &PortConfig,
) -> Result<AnyDevice, ReadFault<InputsRefusal>>
    requires { IsPort config.now }
    ensures ok { IfOk result (λ _. AreRead (seen F.count F.told files.old files.new) (port_files port config.now)) }
    ensures device { IfOk result (λ d. IfSome (F.told files.old) (λ m. d ≡ device_of m config.now)) }
    ensures fresh { IfOk result (λ d. any_seen d ≡ 0) }
    ensures kind { IfOk result (λ d. kind_of d ≡ config.now.kind) }
    ensures err { IfErr result (AreUnread (seen F.count F.told files.old files.new) (port_files port config.now)) }
    ensures asks { AsksEach (names_read (port_files port config.now)) (asking F.told F.asked files.old files.new) result }
    ensures is_sound { F.sound files.old → F.sound files.new × IfErr result (AreLacking (F.told files.old) (port_files port config.now)) }
{
    match config.kind {
        PortKind::Null => Ok(AnyDevice::Null(Null::make())),
        PortKind::Timer => Ok(AnyDevice::Timer(Timer::make(config.line))),
        PortKind::Uart => read_uart(alloc, files, port, config),
        PortKind::Dma => Ok(AnyDevice::Dma(Dma::make(config.line))),
        PortKind::Disk => read_disk(alloc, files, port, config),
    }
}

/// The devices of a configuration's ports, at reset. The files that the ports name are read by port, each and then judged; what
/// is answered in place of the devices is how the command ends.
pub fn read_devices<F: Files>(
    alloc: Global,
    files: &mut F,
    ports: &[PortConfig],
) -> Result<Vec<AnyDevice>, ReadFault<InputsRefusal>>
    requires few { length ports.now ≤ 16 }
    requires ports { ArePorts ports.now }
    // Nothing stands against reading any of the files.
    ensures ok { IfOk result (λ _. AreRead (seen F.count F.told files.old files.new) (ports_files 0 ports.now)) }
    // The devices are those of what the files hold.
    ensures devices { IfOk result (λ v. IfSome (F.told files.old) (λ m. v.items ≡ devices_of m ports.now)) }
    ensures fresh { IfOk result (λ v. All (λ d. any_seen d ≡ 0) v.items) }
    ensures kinds { IfOk result (λ v. device_kinds v.items ≡ port_kinds ports.now) }
    ensures len { IfOk result (λ v. vec_len v ≡ length ports.now) }
    // The first file that is refused, the files blamed, or no memory.
    ensures err { IfErr result (AreUnread (seen F.count F.told files.old files.new) (ports_files 0 ports.now)) }
    // The files are asked for in their order, each once, up to the first that something stands against.
    ensures asks { AsksEach (names_read (ports_files 0 ports.now)) (asking F.told F.asked files.old files.new) result }
    // Sound files are blamed only where the first file that something stands against isn't there.
    ensures is_sound { F.sound files.old → F.sound files.new × IfErr result (AreLacking (F.told files.old) (ports_files 0 ports.now)) }
{
    let mut devices = Vec::new(alloc);
    'ports: for config in ports {
        let port = devices.len() as u32;
        let device = match read_device(alloc, files, port, config) {
            Ok(device) => device,
            Err(fault) => return Err(fault),
        };
        match devices.push(device) {
            Ok(()) => {}
            Err(_) => return Err(ReadFault::NoMemory),
        }
    }
    Ok(devices)
}
