// The steps of a script.
ghost use Rattle.std.specs.Prelude.{◌≡◌, ◌≤◌};
ghost use Rattle.cos_script.specs.Lanes.{all_lanes};

use cosim_model::{Access, Bus};

/// Every lane of an access of so many bytes.
fn all_lanes(size: u8) -> u8
    requires { size ≤ 8 }
    ensures { result ≡ all_lanes size }
{
    if size == 8 { 255 } else { (1 << size) - 1 }
}

/// A step of a script.
#[derive(Clone, Copy, PartialEq, Eq, Debug)]
pub enum ScriptStep {
    /// One unit: a read of a port's registers.
    Read {
        port: u32,
        addr: u64,
        /// In bytes.
        size: u8,
    },
    /// One unit: a write of a port's registers, for which nobody waits where it is posted.
    Write {
        port: u32,
        addr: u64,
        /// In bytes.
        size: u8,
        value: u64,
        posted: bool,
    },
    /// So many units in which nothing is accessed.
    Wait {
        units: u32,
    },
}

impl ScriptStep {
    ghost use Rattle.std.specs.Prelude.{◌≡◌, true};
    ghost use Rattle.cos_script.specs.Steps.{fits, bus_of};

    /// The access that the step issues, which has every lane.
    pub fn bus(self) -> Option<Bus>
        requires { (ports : _) × (fits ports self ≡ true) }
        ensures { result ≡ bus_of self }
    {
        match self {
            ScriptStep::Read { port, addr, size } => Some(Bus {
                port,
                access: Access {
                    write: false,
                    posted: false,
                    addr,
                    size,
                    value: 0,
                    lanes: all_lanes(size),
                },
            }),
            ScriptStep::Write {
                port,
                addr,
                size,
                value,
                posted,
            } => Some(Bus {
                port,
                access: Access {
                    write: true,
                    posted,
                    addr,
                    size,
                    value,
                    lanes: all_lanes(size),
                },
            }),
            ScriptStep::Wait { .. } => None,
        }
    }
}
