// A configuration that breaks no rule.
ghost use Rattle.std.specs.Prelude.{◌≡◌, ◌++◌, [], ◌∷◌, length, OnOk, OnErr};

use crate::Name;
use cos_base::{NoMemory, Numbers};
use cosim_model::Caps;
use std::alloc::Global;
use std::marker::Model;

/// Whether ports need the key `socket`.
#[derive(Clone, Copy, PartialEq, Eq, Debug)]
pub enum Sockets {
    /// No port needs it.
    Unneeded,
    /// Each port needs it: each device is a process.
    All,
    /// This port has to be there, and needs it: the device of this port is to be served.
    Port { port: u32 },
}

/// What drives the machine.
#[derive(Clone, Copy, PartialEq, Eq, Debug)]
pub enum MachineKind {
    /// A hart that runs the image.
    Rv,
    /// A list of accesses.
    Script,
}

/// The device behind a port.
#[derive(Clone, Copy, PartialEq, Eq, Debug)]
pub enum PortKind {
    Null,
    Timer,
    Uart,
    Dma,
    Disk,
}

/// A port: a window of the machine's addresses, and the device behind it.
#[derive(Drop)]
pub struct PortConfig {
    pub kind: PortKind,
    /// The window's first address, a multiple of 4,096.
    pub base: u32,
    /// In bytes, a multiple of 4,096.
    pub size: u32,
    /// The interrupt line, 0 to 31; 0 for a null device, which has none.
    pub line: u32,
    /// Whether the machine posts each store to the window.
    pub posted_stores: bool,
    /// Whether the device's lines are sent as requests that are answered.
    pub answered_lines: bool,
    /// The capabilities that the device's end offers.
    pub caps: Caps,
    pub socket: Option<Name>,
    /// The file of a UART's input.
    pub input: Option<Name>,
    /// The ticks between two bytes of a UART's input, 1 to 1,000,000.
    pub gap: u32,
    /// The socket of a relay on the port's link.
    pub relay: Option<Name>,
    /// The file of a disk's image.
    pub disk: Option<Name>,
    /// The sectors of a disk that can't be used, ascending.
    pub bad: Numbers,
    /// The file that a disk's sectors are written to in the end.
    pub result: Option<Name>,
}

/// A configuration that breaks no rule.
#[derive(Drop)]
pub struct Config {
    pub kind: MachineKind,
    /// The file of the bytes that RAM begins with.
    pub image: Option<Name>,
    pub script: Option<Name>,
    /// The bytes of RAM, a multiple of 4,096.
    pub ram: u32,
    /// In ticks, 1 to 1,000,000,000.
    pub quantum: u64,
    /// The most ticks of a run.
    pub units: u64,
    pub ports: Ports,
}

/// The ports, by number from 0. Contracts see the list.
#[derive(Drop)]
pub struct Ports {
    items: Vec<PortConfig>,
}

impl Model for Ports {
    ghost use Rattle.std.specs.Prelude.{List};
    ghost use Rattle.cos_config.specs.declared.config.PortConfig.{PortConfig};

    ghost Value = { List PortConfig };

    ghost view = { λ p. p.items.items };
}

impl Ports {
    /// No ports. It takes no memory.
    pub fn make(alloc: Global) -> Ports
        ensures { result ≡ [] }
    {
        Ports {
            items: Vec::new(alloc),
        }
    }

    /// The number of ports.
    pub fn len(&self) -> usize
        ensures { result ≡ length self.now }
    {
        self.items.len()
    }

    /// The ports.
    pub fn as_slice(&self) -> &[PortConfig]
        ensures { result.now ≡ self.now }
    {
        self.items.as_slice()
    }

    /// Adds the next port.
    pub fn push(&mut self, item: PortConfig) -> Result<(), NoMemory>
        ensures ok { OnOk result (self.new ≡ self.old ++ item ∷ []) }
        ensures err { OnErr result (self.new ≡ self.old) }
    {
        match self.items.push(item) {
            Ok(()) => Ok(()),
            Err(_) => Err(NoMemory),
        }
    }
}
