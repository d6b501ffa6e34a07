// A master of either kind.
use cos_api::{Answer, Bus, Closing, Master};
use cos_base::NoMemory;
use cos_script::ScriptMaster;
use sys_bus::RvMaster;
use sys_ram::Ram;

/// One of the masters that a configuration can name.
#[derive(Drop)]
pub enum AnyMaster {
    Rv(RvMaster),
    Script(ScriptMaster),
}

impl AnyMaster {
    ghost use Rattle.std.specs.Prelude.{◌≡◌};
    ghost use Rattle.cos_parts.specs.AnyMasters.{any_ram};

    /// Its RAM.
    pub fn ram(&self) -> &Ram
        ensures { result.now ≡ any_ram self.now }
    {
        match self {
            AnyMaster::Rv(master) => master.ram(),
            AnyMaster::Script(master) => master.ram(),
        }
    }
}

impl Master for AnyMaster {
    ghost use Rattle.cos_parts.specs.AnyMasters.{any_model, any_lawful};

    ghost model = { any_model };

    ghost lawful = { any_lawful };

    fn issue(&mut self) -> Result<Option<Bus>, NoMemory> {
        match self {
            // nothing of an access is moved where the unit makes none
            AnyMaster::Rv(master) => match master.issue() {
                Ok(None) => return Ok(None),
                issued => issued,
            },
            AnyMaster::Script(master) => master.issue(),
        }
    }

    fn finish(&mut self, answer: Answer) {
        match self {
            AnyMaster::Rv(master) => master.finish(answer),
            AnyMaster::Script(master) => master.finish(answer),
        }
    }

    fn read(&self, addr: u64, out: &mut [u8]) -> u8 {
        match self {
            AnyMaster::Rv(master) => master.read(addr, out),
            AnyMaster::Script(master) => master.read(addr, out),
        }
    }

    fn write(&mut self, addr: u64, bytes: &[u8], enables: &[u8]) -> Result<u8, NoMemory> {
        match self {
            AnyMaster::Rv(master) => master.write(addr, bytes, enables),
            AnyMaster::Script(master) => master.write(addr, bytes, enables),
        }
    }

    fn line(&mut self, line: u32, level: bool) {
        match self {
            AnyMaster::Rv(master) => master.line(line, level),
            AnyMaster::Script(master) => master.line(line, level),
        }
    }

    fn stopped(&self) -> Option<u32> {
        match self {
            AnyMaster::Rv(master) => master.stopped(),
            AnyMaster::Script(master) => master.stopped(),
        }
    }

    fn closing(&self) -> Closing {
        match self {
            AnyMaster::Rv(master) => master.closing(),
            AnyMaster::Script(master) => master.closing(),
        }
    }
}
