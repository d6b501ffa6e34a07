// The trait of devices.
ghost use Rattle.std.specs.Prelude.{◌≡◌, ◌≤◌, IfOk, OnErr, IsSome};
ghost use Rattle.cosim_model.specs.Parts.{DeviceModel, IsDevice};

use cos_base::NoMemory;
use cosim_model::{Access, Answer, Caps, Reply, Want};

/// A device: registers that the machine reads and writes, time that passes for it, and wants of its own, one at a time.
///
/// Every call is a function of what the device holds, and these functions keep the laws of devices. A want that is there stays,
/// with its due time, until it is fed.
pub trait Device: Drop {
    /// The calls as functions.
    ghost model: { DeviceModel Self };

    /// Brings the device to the tick, and then reads or writes a register. `NoMemory` leaves it as it was.
    fn access(&mut self, tick: u64, access: Access) -> Result<Answer, NoMemory>
        requires { model.seen self.old ≤ tick }
        ensures ok { IfOk result (λ a. model.access self.old tick access ≡ (self.new, a)) }
        ensures err { OnErr result (self.new ≡ self.old) };

    /// Brings the device to the tick.
    fn advance(&mut self, tick: u64)
        requires { model.seen self.old ≤ tick }
        ensures { self.new ≡ model.advance self.old tick };

    /// The tick that the device was brought to last; 0 at first.
    fn seen(&self) -> u64
        ensures { result ≡ model.seen self.now };

    /// What the device wants of the machine now.
    fn want(&self) -> Option<Want>
        ensures { result ≡ model.want self.now };

    /// The tick at which the present want became the present one. Where there is none it keeps its last value, 0 at first.
    fn due(&self) -> u64
        ensures { result ≡ model.due self.now };

    /// A bound on the wants that can follow each other while no access comes and no time passes: at most 4,096, and 0 exactly
    /// where there is no want. Each feed lowers it.
    fn left(&self) -> u32
        ensures { result ≡ model.left self.now };

    /// The capabilities without which the device can't work.
    fn needs(&self) -> Caps
        ensures { result ≡ model.needs self.now };

    /// Serves the present want by a reply of the machine.
    fn feed(&mut self, reply: Reply)
        requires { IsSome (model.want self.old) }
        ensures { self.new ≡ model.feed self.old reply };

    /// The laws of devices.
    ghost lawful: { IsDevice model };
}
