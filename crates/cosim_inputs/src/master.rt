// The master of a configuration.
ghost use Rattle.std.specs.Prelude.{◌≡◌, ◌≤◌, ◌++◌, length, map, Some, None, IfOk, IfErr, IfSome};
ghost use Rattle.cos_parts.specs.AnyMasters.{any_reach, any_issued};
ghost use Rattle.outcomes.specs.Seen.{seen};
ghost use Rattle.outcomes.specs.Asked.{asking, AsksEach};
ghost use Rattle.cosim_inputs.specs.Limits.{ArePorts, IsMachine, IsWithinLimits};
ghost use Rattle.cosim_inputs.specs.Inputs.{asked_as, master_files, names_read, AsImage, AsScript};
ghost use Rattle.cosim_inputs.specs.Fresh.{ram_of, bytes_in, window_of, windows_of, master_of};
ghost use Rattle.cosim_inputs.specs.Reads.{AreRead, AreUnread, AreLacking};
ghost use Rattle.cosim_inputs.specs.Masters.{IsScriptOf};
ghost use Rattle.sys_bus.specs.Maps.{fault_found};
ghost use Rattle.sys_bus.specs.Units.{fresh_master};

use crate::named_file::read_named;
use crate::refusals::InputsRefusal;
use cos_base::{Files, NoMemory};
use cos_config::{Config, MachineKind, Name, PortConfig};
use cos_parts::AnyMaster;
use cos_script::{ScriptFault, ScriptMaster};
use outcomes::ReadFault;
use std::alloc::Global;
use std::str;
use sys_bus::{Map, MapFault, RvMaster, Window};
use sys_ram::{ImageFault, Ram};

/// RAM of a configuration's size, with its image at the front where one is named.
fn read_ram<F: Files>(
    alloc: Global,
    files: &mut F,
    config: &Config,
) -> Result<Ram, ReadFault<InputsRefusal>>
    requires { IsMachine config.now }
    ensures ok { IfOk result (λ _. AreRead (seen F.count F.told files.old files.new) (asked_as (AsImage config.now.ram) config.now.image)) }
    ensures ram { IfOk result (λ r. IfSome (F.told files.old) (λ m. r ≡ ram_of m config.now)) }
    ensures size { IfOk result (λ r. length r ≡ config.now.ram) }
    ensures err { IfErr result (AreUnread (seen F.count F.told files.old files.new) (asked_as (AsImage config.now.ram) config.now.image)) }
    ensures asks { AsksEach (names_read (asked_as (AsImage config.now.ram) config.now.image)) (asking F.told F.asked files.old files.new) result }
    ensures is_sound { F.sound files.old → F.sound files.new × IfErr result (AreLacking (F.told files.old) (asked_as (AsImage config.now.ram) config.now.image)) }
{
    let mut ram = match Ram::make(alloc, config.ram) {
        Ok(ram) => ram,
        Err(NoMemory) => return Err(ReadFault::NoMemory),
    };
    let name = match &config.image {
        Some(name) => name,
        None => return Ok(ram),
    };
    let bytes = match read_named(files, name) {
        Ok(bytes) => bytes,
        Err(fault) => return Err(fault),
    };
    match ram.load(bytes.as_slice()) {
        Ok(()) => Ok(ram),
        Err(ImageFault::Empty) => Err(ReadFault::Refused(InputsRefusal::ImageEmpty)),
        Err(ImageFault::TooLarge { size, got }) => {
            Err(ReadFault::Refused(InputsRefusal::ImageTooLarge { size, got }))
        }
        Err(ImageFault::NoMemory) => Err(ReadFault::NoMemory),
    }
}

/// The window of each port.
fn windows(alloc: Global, ports: &[PortConfig]) -> Result<Vec<Window>, NoMemory>
    ensures { IfOk result (λ w. w.items ≡ windows_of ports.now) }
{
    let mut windows = Vec::new(alloc);
    for port in ports {
        let window = Window {
            base: port.base,
            size: port.size,
            posted: port.posted_stores,
        };
        match windows.push(window) {
            Ok(()) => {}
            Err(_) => return Err(NoMemory),
        }
    }
    Ok(windows)
}

/// A hart at reset with this RAM, and the windows of the ports.
pub fn make_hart(alloc: Global, ports: &[PortConfig], ram: Ram) -> Result<AnyMaster, NoMemory>
    requires { fault_found (windows_of ports.now) (length ram) ≡ None }
    ensures { IfOk result (λ m. m ≡ AnyMaster.Rv (fresh_master ram (record { windows = windows_of ports.now; ram = length ram }))) }
{
    let windows = windows(alloc, ports)?;
    match Map::make(alloc, windows.as_slice(), ram.size()) {
        Ok(map) => Ok(AnyMaster::Rv(RvMaster::make(ram, map))),
        Err(MapFault::NoMemory) => Err(NoMemory),
        Err(_) => unreachable!(),
    }
}

/// The master of a script's file, for a machine with so many ports.
fn read_script<F: Files>(
    alloc: Global,
    files: &mut F,
    name: &Name,
    ports: u32,
    ram: Ram,
) -> Result<AnyMaster, ReadFault<InputsRefusal>>
    ensures ok { IfOk result (λ _. AreRead (seen F.count F.told files.old files.new) (asked_as (AsScript ports) (Some name.now))) }
    ensures master { IfOk result (λ a. IfSome (F.told files.old) (λ m. IsScriptOf ports (bytes_in m (Some name.now)) ram a)) }
    ensures reach { IfOk result (λ a. any_reach a ≡ ports) }
    ensures issued { IfOk result (λ a. any_issued a ≡ None) }
    ensures err { IfErr result (AreUnread (seen F.count F.told files.old files.new) (asked_as (AsScript ports) (Some name.now))) }
    ensures asks { AsksEach (names_read (asked_as (AsScript ports) (Some name.now))) (asking F.told F.asked files.old files.new) result }
    ensures is_sound { F.sound files.old → F.sound files.new × IfErr result (AreLacking (F.told files.old) (asked_as (AsScript ports) (Some name.now))) }
{
    let bytes = match read_named(files, name) {
        Ok(bytes) => bytes,
        Err(fault) => return Err(fault),
    };
    let text = match str::from_utf8(bytes.as_slice()) {
        Ok(text) => text,
        Err(_) => return Err(ReadFault::Refused(InputsRefusal::Line { line: 1 })),
    };
    match ScriptMaster::make(alloc, text, ports, ram) {
        Ok(master) => Ok(AnyMaster::Script(master)),
        Err(ScriptFault::Line { line }) => Err(ReadFault::Refused(InputsRefusal::Line { line })),
        Err(ScriptFault::NoMemory) => Err(ReadFault::NoMemory),
    }
}

/// The master of a configuration, before its first unit. The files that it needs are read, the image first, each and then judged;
/// what is answered in place of the master is how the command ends.
pub fn read_master<F: Files>(
    alloc: Global,
    files: &mut F,
    config: &Config,
) -> Result<AnyMaster, ReadFault<InputsRefusal>>
    requires { IsWithinLimits config.now }
    // Nothing stands against reading any of the files.
    ensures ok { IfOk result (λ _. AreRead (seen F.count F.told files.old files.new) (master_files config.now)) }
    // The master is that of what the files hold.
    ensures master { IfOk result (λ a. IfSome (F.told files.old) (λ m. a ≡ master_of m config.now)) }
    ensures reach { IfOk result (λ a. any_reach a ≡ length config.now.ports) }
    ensures issued { IfOk result (λ a. any_issued a ≡ None) }
    // The first file that is refused, the files blamed, or no memory.
    ensures err { IfErr result (AreUnread (seen F.count F.told files.old files.new) (master_files config.now)) }
    // The files are asked for in their order, each once, up to the first that something stands against.
    ensures asks { AsksEach (names_read (master_files config.now)) (asking F.told F.asked files.old files.new) result }
    // Sound files are blamed only where the first file that something stands against isn't there.
    ensures is_sound { F.sound files.old → F.sound files.new × IfErr result (AreLacking (F.told files.old) (master_files config.now)) }
{
    let ram = match read_ram(alloc, files, config) {
        Ok(ram) => ram,
        Err(fault) => return Err(fault),
    };
    let ports = config.ports.as_slice();
    match config.kind {
        MachineKind::Rv => match make_hart(alloc, ports, ram) {
            Ok(master) => Ok(master),
            Err(NoMemory) => Err(ReadFault::NoMemory),
        },
        MachineKind::Script => match &config.script {
            Some(name) => read_script(alloc, files, name, ports.len() as u32, ram),
            None => unreachable!(),
        },
    }
}
