// A device end as the peer of a link in memory.
ghost use Rattle.std.specs.Prelude.{◌≡◌, ◌↔◌, [], IfOk, Some, true};

use crate::turns::{take_in, take_turns};
use cos_api::Device;
use cos_base::{Link, NoMemory, Numbers, Octets};
use cos_memory::{MemLink, Peer, copy_part};
use device_turns::DeviceEnd;
use std::alloc::Global;
use std::marker::Model;
use std::snapshot::Snapshot;

/// A device end as the peer of a link in memory. It has taken every turn that it can over what it heard.
#[derive(Drop)]
pub struct DevicePeer<D: Device> {
    end: DeviceEnd<D>,
    first: Snapshot<DeviceEnd<D>>,
    heard: Octets,
    said: Octets,
    telling: bool,
}

impl<D: Device> Model for DevicePeer<D> {
    ghost use Rattle.device_turns.specs.Ends.{core_of};
    ghost use Rattle.device_peer.specs.Speaking.{SaysAll, Speaker};

    ghost Value = { Speaker D };

    ghost view = { λ p. record { start = core_of p.first.value; now = p.end; heard = p.heard.bytes; telling = p.telling } };

    ghost invariant = { λ p. SaysAll D.model p.telling (core_of p.first.value) p.heard.bytes p.said.bytes p.end };
}

impl<D: Device> DevicePeer<D> {
    ghost use Rattle.cos_memory.specs.CallNumbers.{IsUncalled, link_calls};
    ghost use Rattle.cos_memory.specs.Calls.{FailsNoMore};
    ghost use Rattle.device_peer.specs.Speaking.{IsHonestLink, spoken_by};
    ghost use Rattle.device_turns.specs.Ends.{core_of, fresh};
    ghost use Rattle.device_turns.specs.Runs.{out_device};

    /// Takes the turns that a fresh end can take before it hears anything.
    pub fn make(alloc: Global, end: DeviceEnd<D>) -> Result<DevicePeer<D>, NoMemory>
        requires { end ≡ fresh end.clear }
        ensures start { IfOk result (λ p. p.start ≡ core_of end) }
        ensures told { IfOk result (λ p. ⟦<DevicePeer<D> as Peer>⟧.told p ≡ Some (record { heard = []; says = out_device D.model (core_of end) })) }
    {
        let first = Snapshot::of(&end);
        let mut end = end;
        let mut said = Octets::make(alloc);
        match take_turns(&mut end, &mut said) {
            Ok(()) => {}
            Err(NoMemory) => return Err(NoMemory),
        }
        Ok(DevicePeer {
            end,
            first,
            heard: Octets::make(alloc),
            said,
            telling: true,
        })
    }

    /// Its end.
    pub fn end(&self) -> &DeviceEnd<D>
        ensures { result.now ≡ self.now.now }
    {
        &self.end
    }

    /// A link in memory to a fresh end, as `MemLink::make` makes it.
    pub fn link(
        alloc: Global,
        end: DeviceEnd<D>,
        cuts: Numbers,
        failing: Numbers,
    ) -> Result<MemLink<DevicePeer<D>>, NoMemory>
        requires { end ≡ fresh end.clear }
        ensures honest { IfOk result (λ l. IsHonestLink D.model (core_of end) (⟦<MemLink<DevicePeer<D>> as Link>⟧.told l)) }
        ensures count { IfOk result (λ l. ⟦<MemLink<DevicePeer<D>> as Link>⟧.count l ≡ 0) }
        ensures calls { IfOk result (λ l. IsUncalled (link_calls l) failing) }
        ensures sound { IfOk result (λ l. ⟦<MemLink<DevicePeer<D>> as Link>⟧.sound l ↔ FailsNoMore 0 failing) }
    {
        match DevicePeer::make(alloc, end) {
            Ok(peer) => Ok(MemLink::make(alloc, peer, cuts, failing)),
            Err(NoMemory) => Err(NoMemory),
        }
    }
}

impl<D: Device> Peer for DevicePeer<D> {
    ghost use Rattle.device_peer.specs.Speaking.{spoken_by};
    ghost use Rattle.device_peer.specs.SpeakLaws.{spoken-grows};

    ghost told = { spoken_by D.model };

    ghost grows = { spoken-grows D.model };

    fn hear(&mut self, bytes: &[u8]) -> Result<(), NoMemory> {
        match take_in(&mut self.end, &mut self.heard, &mut self.said, bytes) {
            Ok(()) => Ok(()),
            Err(NoMemory) => {
                self.telling = false;
                Err(NoMemory)
            }
        }
    }

    fn said(&self, from: usize, into: &mut [u8]) -> usize {
        copy_part(self.said.as_slice(), from, into)
    }
}
