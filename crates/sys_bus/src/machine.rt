// The hart over RAM and the system block.
ghost use Rattle.std.specs.Prelude.{◌≡◌, ◌-◌, ◌%◌, ◌^◌, ◌≤◌, IfOk, OnErr};
ghost use Rattle.sys_ram.specs.Memory.{number_of, store_of};
ghost use Rattle.sys_bus.specs.Accesses.{IsHartAccess};

use crate::system::{SystemBlock, SystemRegister};
use cos_base::NoMemory;
use cosim_model::Bus;
use rv_core::unit::{finish_in_place, issue_in_place};
use rv_core::{Hart, HartAccess, Rest, Waiting};
use sys_ram::Ram;

/// What a unit works on: everything of the machine but its map and what it waits for.
#[derive(Drop)]
pub struct Machine {
    pub hart: Hart,
    pub ram: Ram,
    pub system: SystemBlock,
    /// The code with which it stopped.
    pub stopped: Option<u32>,
}

/// A unit that waits for the answer of a port.
#[derive(Clone, Copy)]
pub struct Unfinished {
    pub bus: Bus,
    pub rest: Rest,
}

/// The number of the bytes that a load reads, where they are in RAM.
#[inline(always)]
fn load(ram: &Ram, request: HartAccess) -> Option<u32>
    requires { IsHartAccess request }
    ensures { result ≡ number_of ram.now request.addr request.size }
{
    match request.size {
        1 => match ram.byte(request.addr) {
            Some(byte) => Some(u32::from(byte)),
            None => None,
        },
        2 => match ram.half(request.addr) {
            Some(half) => Some(u32::from(half)),
            None => None,
        },
        _ => ram.word(request.addr),
    }
}

/// Stores the bytes of a number, and tells whether they are in RAM.
#[inline(always)]
fn store(ram: &mut Ram, request: HartAccess) -> Result<bool, NoMemory>
    requires { IsHartAccess request }
    ensures ok { IfOk result (λ there. store_of ram.old request.addr request.size request.value ≡ (ram.new, there)) }
    ensures err { OnErr result (ram.new ≡ ram.old) }
{
    match request.size {
        1 => ram.put_byte(request.addr, request.value as u8),
        2 => ram.put_half(request.addr, request.value as u16),
        _ => ram.put_word(request.addr, request.value),
    }
}

impl Machine {
    ghost use Rattle.std.specs.Prelude.{◌≡◌, IfOk, OnErr};
    ghost use Rattle.sys_bus.specs.Accesses.{IsHartAccess};
    ghost use Rattle.sys_bus.specs.Systems.{register_at};
    ghost use Rattle.sys_bus.specs.Units as units;

    /// Ends a unit by the answer of its access.
    #[inline(always)]
    pub fn finish(&mut self, rest: Rest, answer: Option<u32>)
        ensures { self.new ≡ units.finished self.old rest answer }
    {
        finish_in_place(&mut self.hart, rest, answer);
    }

    fn system_write(&mut self, register: SystemRegister, value: u32) -> Option<u32>
        ensures { units.system_written self.old register value ≡ (self.new, result) }
    {
        match register {
            SystemRegister::Power => self.stopped = Some(value),
            SystemRegister::Lines => return None,
            SystemRegister::Enable => self.system.enable = value,
            SystemRegister::TimerEnable => self.system.timer_enable = value,
        }
        Some(0)
    }

    fn system_access(&mut self, request: HartAccess) -> Option<u32>
        ensures { units.system_accessed self.old request (register_at (request.addr % 4096) request.size) ≡ (self.new, result) }
    {
        match SystemRegister::at(request.addr % 4096, request.size) {
            None => None,
            Some(register) => {
                if request.write {
                    self.system_write(register, request.value)
                } else {
                    Some(self.system.read(register))
                }
            }
        }
    }

    /// A unit that accesses the system block.
    pub fn finish_in_system(&mut self, waiting: Waiting)
        ensures { self.new ≡ units.system_unit self.old waiting }
    {
        let answer = self.system_access(waiting.request);
        self.finish(waiting.rest, answer);
    }

    /// An access of the hart, which is given back where it goes beyond RAM. A store takes its page before anything changes.
    #[inline(always)]
    fn access(&mut self, waiting: Waiting) -> Result<Option<Waiting>, NoMemory>
        requires { IsHartAccess waiting.request }
        ensures ok { IfOk result (λ left. units.accessed self.old waiting ≡ (self.new, left)) }
        ensures err { OnErr result (self.new ≡ self.old) }
    {
        if waiting.request.write {
            match store(&mut self.ram, waiting.request) {
                Ok(true) => self.finish(waiting.rest, Some(0)),
                Ok(false) => return Ok(Some(waiting)),
                Err(NoMemory) => return Err(NoMemory),
            }
        } else {
            match load(&self.ram, waiting.request) {
                Some(number) => self.finish(waiting.rest, Some(number)),
                None => return Ok(Some(waiting)),
            }
        }
        Ok(None)
    }

    /// Issues a unit, and gives its access where that goes beyond RAM.
    #[inline(always)]
    pub fn issue(&mut self) -> Result<Option<Waiting>, NoMemory>
        ensures ok { IfOk result (λ left. units.local_unit self.old ≡ (self.new, left)) }
        ensures err { OnErr result (self.new ≡ self.old) }
    {
        let fetched = self.ram.word(self.hart.pc);
        let pending = self.system.pending();
        match issue_in_place(&mut self.hart, fetched, pending) {
            Some(waiting) => self.access(waiting),
            None => Ok(None),
        }
    }
}
