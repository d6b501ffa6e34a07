ghost use Rattle.std.specs.Prelude.{◌<◌, All, IfOk};

use crate::{MemSpawner, SpawnFault, Spawner};
use cos_base::{NoMemory, Numbers};
use std::alloc::Global;
use std::test::Fail;

fn numbers(alloc: Global, items: &[u32]) -> Result<Numbers, NoMemory> {
    let mut numbers = Numbers::make(alloc);
    for item in items {
        numbers.push(*item)?;
    }
    Ok(numbers)
}

/// The statuses 7 and 255.
fn statuses(alloc: Global) -> Result<Numbers, NoMemory>
    ensures { IfOk result (λ n. All (λ s. s < 256) n) }
{
    let mut statuses = Numbers::make(alloc);
    statuses.push(7)?;
    statuses.push(255)?;
    Ok(statuses)
}

fn words(alloc: Global, texts: &[&str]) -> Result<Vec<String>, NoMemory> {
    let mut words = Vec::new(alloc);
    for text in texts {
        words.push(String::from_str(alloc, text)?)?;
    }
    Ok(words)
}

#[test]
fn children_end_with_their_statuses_and_calls_fail_at_their_numbers(
    rt: HostRuntime,
) -> Result<(), Fail> {
    let listed = numbers(rt.alloc(), &[1, 4])?;
    let mut spawner = MemSpawner::make(rt.alloc(), statuses(rt.alloc())?, listed);
    let words = words(rt.alloc(), &["device", "socket"])?;
    assert_eq!(rt; spawner.start(words.as_slice()), Ok(0));
    assert_eq!(rt; spawner.start(words.as_slice()), Err(SpawnFault::Failed));
    assert_eq!(rt; spawner.start(words.as_slice()), Ok(1));
    assert_eq!(rt; spawner.start(words.as_slice()), Ok(2));
    // a listed wait fails, and the child doesn't run any more
    assert_eq!(rt; spawner.wait(0), Err(SpawnFault::Failed));
    assert_eq!(rt; spawner.wait(0), Err(SpawnFault::Failed));
    assert_eq!(rt; spawner.wait(2), Ok(0));
    assert_eq!(rt; spawner.wait(1), Ok(255));
    assert_eq!(rt; spawner.faults(), 3);
    Ok(())
}

#[test]
fn a_child_is_waited_for_once(rt: HostRuntime) -> Result<(), Fail> {
    let none = Numbers::make(rt.alloc());
    let mut spawner = MemSpawner::make(rt.alloc(), statuses(rt.alloc())?, none);
    let words = words(rt.alloc(), &["device"])?;
    assert_eq!(rt; spawner.wait(0), Err(SpawnFault::Failed));
    assert_eq!(rt; spawner.start(words.as_slice()), Ok(0));
    assert_eq!(rt; spawner.wait(1), Err(SpawnFault::Failed));
    assert_eq!(rt; spawner.wait(0), Ok(7));
    assert_eq!(rt; spawner.wait(0), Err(SpawnFault::Failed));
    assert_eq!(rt; spawner.start(words.as_slice()), Ok(1));
    Ok(())
}
