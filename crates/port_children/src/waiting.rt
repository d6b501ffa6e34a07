// Waiting for children.
ghost use Rattle.std.specs.Prelude.{IfSome, ◌≡◌, ◌≤◌, length};
ghost use Rattle.cos_children.specs.Children.{Runs};
ghost use Rattle.outcomes.specs.Seen.{seen};
ghost use Rattle.port_children.specs.Waited.{AllRun, IsWaited, IsOneWaited, NotSpawner};

use crate::fault::WaitFault;
use cos_children::{SpawnFault, Spawner};

/// Waits for the child of a port.
fn wait_for<S: Spawner>(port: u32, child: u32, children: &mut S) -> Result<(), WaitFault>
    ensures waits { IsOneWaited port child (seen S.count S.told children.old children.new) result }
    ensures grows { S.count children.old ≤ S.count children.new }
    ensures is_sound { S.sound children.old → S.sound children.new
        × (IfSome (S.told children.old) (λ c. Runs c child) → NotSpawner result) }
{
    match children.wait(child) {
        Ok(0) => Ok(()),
        Ok(status) => Err(WaitFault::Status { port, status }),
        Err(SpawnFault::Failed) => Err(WaitFault::Spawner {
            count: children.faults(),
        }),
        Err(SpawnFault::NoMemory) => Err(WaitFault::NoMemory),
    }
}

/// Waits for the child of each port, by port, whatever the waits before it gave. What it answers is the first of the
/// waits that gave no status 0.
pub fn wait_for_all<S: Spawner>(numbers: &[u32], children: &mut S) -> Result<(), WaitFault>
    requires { length numbers.now ≤ 16 }
    ensures waits { IsWaited numbers.now (seen S.count S.told children.old children.new) result }
    ensures is_sound { S.sound children.old → S.sound children.new
        × (IfSome (S.told children.old) (AllRun numbers.now) → NotSpawner result) }
{
    let mut first = Ok(());
    'children: for (port, child) in numbers.iter().enumerate() {
        let waited = wait_for(port as u32, *child, children);
        if first.is_ok() {
            first = waited;
        }
    }
    first
}
