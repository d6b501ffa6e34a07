// The machine as a master.
ghost use Rattle.std.specs.Prelude.{◌≡◌, ◌-◌, ◌^◌, ◌≤◌};
ghost use Rattle.sys_bus.specs.Accesses.{IsHartAccess};
ghost use Rattle.sys_bus.specs.Units.{bus_of};

use crate::machine::{Machine, Unfinished};
use crate::map::{Map, Window};
use crate::system::SystemBlock;
use cos_api::{Access, Answer, Bus, Closing, HartView, Master};
use cos_base::NoMemory;
use rv_core::{Hart, HartAccess, Waiting};
use std::marker::Model;
use sys_ram::Ram;

/// A machine with a hart: one unit is one instruction or one interrupt that is taken.
///
/// Loads and stores that touch RAM or the system block are done in the unit; those that touch a window are issued. It never disables
/// a lane, and a store to a window whose stores are posted is posted.
#[derive(Drop)]
pub struct RvMaster {
    machine: Machine,
    map: Map,
    waiting: Option<Unfinished>,
}

impl Model for RvMaster {
    ghost use Rattle.sys_bus.specs.Units.{MasterState};

    ghost Value = { MasterState };

    ghost view = { λ m. record { machine = m.machine; map = m.map; waiting = m.waiting } };
}

impl RvMaster {
    ghost use Rattle.std.specs.Prelude.{◌≡◌, length, None};
    ghost use Rattle.sys_bus.specs.Accesses.{IsHartAccess};
    ghost use Rattle.sys_bus.specs.Units.{fresh_master, issued_by, accessed_beyond};

    /// A machine at reset, with that RAM and a map that was made with its size.
    pub fn make(ram: Ram, map: Map) -> RvMaster
        requires { map.ram ≡ length ram }
        ensures { result ≡ fresh_master ram map }
    {
        RvMaster {
            machine: Machine {
                hart: Hart::reset(),
                ram,
                system: SystemBlock::reset(),
                stopped: None,
            },
            map,
            waiting: None,
        }
    }

    /// Its RAM.
    pub fn ram(&self) -> &Ram
        ensures { result.now ≡ self.now.machine.ram }
    {
        &self.machine.ram
    }

    /// An access beyond RAM: one of the system block is done, and one of a window is issued.
    fn issue_beyond(&mut self, waiting: Waiting) -> Option<Bus>
        requires access { IsHartAccess waiting.request }
        requires free { self.old.waiting ≡ None }
        ensures { issued_by self.old.map (accessed_beyond self.old.map self.old.machine waiting) ≡ (self.new, result) }
    {
        let request = waiting.request;
        if request.addr / 4096 == 256 {
            self.machine.finish_in_system(waiting);
            return None;
        }
        match self.map.find(request.addr, request.size) {
            Some((port, window)) => {
                let bus = bus(port, window, request);
                self.waiting = Some(Unfinished {
                    bus,
                    rest: waiting.rest,
                });
                Some(bus)
            }
            None => {
                self.machine.finish(waiting.rest, None);
                None
            }
        }
    }
}

/// Every lane of an access of so many bytes.
fn all_lanes(size: u8) -> u8
    requires { size ≤ 4 }
    ensures { result ≡ 2 ^ size - 1 }
{
    (1 << size) - 1
}

/// The access of a window.
fn bus(port: u32, window: Window, request: HartAccess) -> Bus
    requires access { IsHartAccess request }
    requires here { window.base ≤ request.addr }
    ensures { result ≡ bus_of port window request }
{
    Bus {
        port,
        access: Access {
            write: request.write,
            posted: request.write && window.posted,
            addr: u64::from(request.addr - window.base),
            size: request.size,
            value: u64::from(request.value),
            lanes: all_lanes(request.size),
        },
    }
}

impl Master for RvMaster {
    ghost use Rattle.sys_bus.specs.Units.{rv_model};
    ghost use Rattle.sys_bus.specs.MasterLaws.{rv_lawful};

    ghost model = { rv_model };

    ghost lawful = { rv_lawful };

    fn issue(&mut self) -> Result<Option<Bus>, NoMemory> {
        let waiting = match self.machine.issue()? {
            Some(waiting) => waiting,
            None => return Ok(None),
        };
        Ok(self.issue_beyond(waiting))
    }

    fn finish(&mut self, answer: Answer) {
        if let Some(unfinished) = self.waiting {
            let word = if answer.code == 0 {
                Some((answer.value & 0xffff_ffff) as u32)
            } else {
                None
            };
            self.machine.finish(unfinished.rest, word);
            self.waiting = None;
        }
    }

    fn read(&self, addr: u64, out: &mut [u8]) -> u8 {
        self.machine.ram.read(addr, out)
    }

    fn write(&mut self, addr: u64, bytes: &[u8], enables: &[u8]) -> Result<u8, NoMemory> {
        self.machine.ram.write(addr, bytes, enables)
    }

    fn line(&mut self, line: u32, level: bool) {
        self.machine.system.line(line, level);
    }

    fn stopped(&self) -> Option<u32> {
        self.machine.stopped
    }

    fn closing(&self) -> Closing {
        Closing {
            hart: Some(HartView {
                pc: self.machine.hart.pc,
                regs: self.machine.hart.regs,
            }),
            lines: self.machine.system.lines,
        }
    }
}
