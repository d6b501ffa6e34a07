// All the turns of a device end.
ghost use Rattle.std.specs.Prelude.{IsErr, IsOk, OnOk};
ghost use Rattle.device_turns.specs.Ends.{AtFault, HasSentAll};
ghost use Rattle.device_peer.specs.Speaking.{Continues, TakesIn};

use cos_api::Device;
use cos_base::{NoMemory, Octets};
use device_turns::{DeviceEnd, EndFault};

/// Hears bytes, and takes every turn that the end then can. After `NoMemory` nothing is known of what was heard and said.
pub fn take_in<D: Device>(
    end: &mut DeviceEnd<D>,
    heard: &mut Octets,
    said: &mut Octets,
    bytes: &[u8],
) -> Result<(), NoMemory>
    ensures { OnOk result (TakesIn D.model bytes.now end.old end.new heard.old.bytes heard.new.bytes said.old.bytes said.new.bytes) }
{
    match heard.push_all(bytes) {
        Ok(()) => {}
        Err(NoMemory) => return Err(NoMemory),
    }
    match end.feed(bytes) {
        Ok(()) => {}
        Err(NoMemory) => return Err(NoMemory),
    }
    match take_turns(end, said) {
        Ok(()) => Ok(()),
        Err(NoMemory) => Err(NoMemory),
    }
}

/// Takes every turn that the end can, and appends what it sends.
pub fn take_turns<D: Device>(end: &mut DeviceEnd<D>, said: &mut Octets) -> Result<(), NoMemory>
    ensures runs { Continues D.model end.old end.new said.old.bytes said.new.bytes }
    ensures all { OnOk result (HasSentAll D.model end.new) }
{
    'turns: while end.ready() {
        match end.turn(said) {
            Ok(_) => {}
            Err(fault) => return only_memory(fault),
        }
    }
    Ok(())
}

/// What of a turn's fault stands against all turns: want of memory. After any other there is no turn left.
fn only_memory(fault: EndFault) -> Result<(), NoMemory>
    ensures { AtFault fault (IsOk result) (IsErr result) }
{
    match fault {
        EndFault::NoMemory => Err(NoMemory),
        _ => Ok(()),
    }
}
