// The trait of masters.
ghost use Rattle.std.specs.Prelude.{◌≡◌, length, None, IfOk, OnErr, IsSome};
ghost use Rattle.cosim_model.specs.Parts.{MasterModel, IsMaster};
ghost use Rattle.cos_api.specs.Enables.{enabled_by};

use cos_base::NoMemory;
use cosim_model::{Answer, Bus, Closing};

/// What drives the devices: it does one unit of work after another, and serves the wants of devices from its memory and its
/// interrupt lines.
///
/// Every call is a function of what the master holds, and these functions keep the laws of masters.
pub trait Master: Drop {
    /// The calls as functions.
    ghost model: { MasterModel Self };

    /// Begins a unit: an access that it issues, or nothing where the unit was a local one and is done. `NoMemory` leaves the
    /// master as it was.
    fn issue(&mut self) -> Result<Option<Bus>, NoMemory>
        requires runs { model.stopped self.old ≡ None }
        requires free { model.issued self.old ≡ None }
        ensures ok { IfOk result (λ b. model.issue self.old ≡ (self.new, b)) }
        ensures err { OnErr result (self.new ≡ self.old) };

    /// Ends the issued unit by its answer.
    fn finish(&mut self, answer: Answer)
        requires { IsSome (model.issued self.old) }
        ensures { self.new ≡ model.finish self.old answer };

    /// Reads memory from an address on, as many bytes as `out` has, and gives the code: 0, or 2 where the range isn't wholly in
    /// memory, and then zeros are read.
    fn read(&self, addr: u64, out: &mut [u8]) -> u8
        ensures { model.read self.now addr (length out.old) ≡ (result, out.new) };

    /// Writes the enabled ones of the bytes to memory from an address on, and gives the code: 0, or 2 where the range isn't
    /// wholly in memory, and then nothing is written. Byte i is enabled where there are no enables, or where enable byte i modulo
    /// their number isn't 0. `NoMemory` leaves the master as it was.
    fn write(&mut self, addr: u64, bytes: &[u8], enables: &[u8]) -> Result<u8, NoMemory>
        ensures ok { IfOk result (λ code. model.write self.old addr bytes.now (enabled_by enables.now (length bytes.now)) ≡ (self.new, code)) }
        ensures err { OnErr result (self.new ≡ self.old) };

    /// Sets the level of an interrupt line.
    fn line(&mut self, line: u32, level: bool)
        ensures { self.new ≡ model.line self.old line level };

    /// The code with which the master stopped, where it has.
    fn stopped(&self) -> Option<u32>
        ensures { result ≡ model.stopped self.now };

    /// What a run's closing lines tell of it.
    fn closing(&self) -> Closing
        ensures { result ≡ model.closing self.now };

    /// The laws of masters.
    ghost lawful: { IsMaster model };
}
