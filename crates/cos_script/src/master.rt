// The master of a script.
ghost use Rattle.std.specs.Prelude.{◌≡◌, length};

use crate::ScriptFault;
use crate::lines::steps_of;
use crate::step::ScriptStep;
use cos_api::{Answer, Bus, Closing, Master, with_level};
use cos_base::NoMemory;
use std::alloc::Global;
use std::marker::Model;
use sys_ram::Ram;

/// A master that does what a script says: each access is one unit, and a wait so many. It stops with code 0 after its last unit.
#[derive(Drop)]
pub struct ScriptMaster {
    steps: Vec<ScriptStep>,
    /// How many of the steps were begun.
    begun: usize,
    /// The units that are left of a wait.
    wait: u32,
    issued: Option<Bus>,
    ports: u32,
    lines: u32,
    ram: Ram,
}

impl Model for ScriptMaster {
    ghost use Rattle.std.specs.Prelude.{◌≤◌, drop, length};
    ghost use Rattle.cos_script.specs.Masters.{ScriptState, HaveFit};

    ghost Value = { ScriptState };

    ghost view = { λ m. record { wait = m.wait; left = drop m.begun m.steps.items; issued = m.issued; ports = m.ports; lines = m.lines; ram = m.ram } };

    ghost invariant = { λ m. HaveFit m.ports m.steps.items };
}

impl ScriptMaster {
    ghost use Rattle.std.specs.Prelude.{◌≡◌};
    ghost use Rattle.cos_script.specs.Masters.{Makes};

    /// A master that does what a text says, before its first unit.
    ///
    /// A line is `read PORT ADDRESS SIZE`, `write PORT ADDRESS SIZE VALUE`, `post PORT ADDRESS SIZE VALUE` or `wait UNITS`, its words
    /// separated by one blank each. The port is below the number of ports, the size 1, 2, 4 or 8 bytes, the value one of that size, and
    /// there are 1 to 1,000,000 units. Numbers are decimal, or hexadecimal in lower case behind `0x`, without leading zeros. Empty lines
    /// and lines that begin with `#` are skipped.
    pub fn make(
        alloc: Global,
        text: &str,
        ports: u32,
        ram: Ram,
    ) -> Result<ScriptMaster, ScriptFault>
        ensures { Makes ports text.now ram result }
    {
        let steps = steps_of(alloc, text.as_bytes(), ports)?;
        Ok(ScriptMaster {
            steps,
            begun: 0,
            wait: 0,
            issued: None,
            ports,
            lines: 0,
            ram,
        })
    }

    /// Its RAM.
    pub fn ram(&self) -> &Ram
        ensures { result.now ≡ self.now.ram }
    {
        &self.ram
    }
}

impl Master for ScriptMaster {
    ghost use Rattle.std.specs.Prelude.{◌≡◌, None, IfOk, IsOk, OnErr};
    ghost use Rattle.cos_script.specs.Masters.{script_model};
    ghost use Rattle.cos_script.specs.MasterLaws.{script_lawful};

    ghost model = { script_model };

    ghost lawful = { script_lawful };

    /// Always answers Ok.
    fn issue(&mut self) -> Result<Option<Bus>, NoMemory>
        requires runs { script_model.stopped self.old ≡ None }
        requires free { script_model.issued self.old ≡ None }
        ensures ok { IfOk result (λ b. script_model.issue self.old ≡ (self.new, b)) }
        ensures err { OnErr result (self.new ≡ self.old) }
        ensures always { IsOk result }
    {
        self.issued = None;
        if self.wait > 0 {
            self.wait -= 1;
            return Ok(None);
        }
        if self.begun >= self.steps.len() {
            return Ok(None);
        }
        let step = self.steps[self.begun];
        self.begun += 1;
        if let ScriptStep::Wait { units } = step {
            self.wait = units - 1;
        }
        self.issued = step.bus();
        Ok(self.issued)
    }

    fn finish(&mut self, answer: Answer) {
        let _answer = answer;
        self.issued = None;
    }

    fn read(&self, addr: u64, out: &mut [u8]) -> u8 {
        self.ram.read(addr, out)
    }

    fn write(&mut self, addr: u64, bytes: &[u8], enables: &[u8]) -> Result<u8, NoMemory> {
        self.ram.write(addr, bytes, enables)
    }

    fn line(&mut self, line: u32, level: bool) {
        self.lines = with_level(self.lines, line, level);
    }

    fn stopped(&self) -> Option<u32> {
        if self.wait > 0 {
            return None;
        }
        if self.begun < self.steps.len() {
            return None;
        }
        match self.issued {
            Some(_) => None,
            None => Some(0),
        }
    }

    fn closing(&self) -> Closing {
        Closing {
            hart: None,
            lines: self.lines,
        }
    }
}
