ghost use Rattle.std.specs.Prelude.{◌<◌, All, IfOk};

use crate::{OpenFault, WaitFault, open_links, wait_for_all};
use cos_base::{NoMemory, Numbers, Octets};
use cos_children::{MemSpawner, SpawnFault, Spawner};
use cos_config::{Name, PortConfig, PortKind};
use cos_memory::{MemLink, MemNet, Said};
use cosim_model::Caps;
use std::alloc::Global;
use std::test::Fail;

fn numbers(alloc: Global, items: &[u32]) -> Result<Numbers, NoMemory> {
    let mut numbers = Numbers::make(alloc);
    for item in items {
        numbers.push(*item)?;
    }
    Ok(numbers)
}

fn two_statuses(alloc: Global, first: u8, second: u8) -> Result<Numbers, NoMemory>
    ensures { IfOk result (λ n. All (λ s. s < 256) n) }
{
    let mut statuses = Numbers::make(alloc);
    statuses.push(u32::from(first))?;
    statuses.push(u32::from(second))?;
    Ok(statuses)
}

/// A null device behind a socket.
fn port(alloc: Global, socket: &str) -> Result<PortConfig, NoMemory> {
    Ok(PortConfig {
        kind: PortKind::Null,
        base: 0x1000_0000,
        size: 4096,
        line: 0,
        posted_stores: false,
        answered_lines: false,
        caps: Caps {
            base: true,
            enables: false,
            posted: false,
        },
        socket: Some(Name::copy_of(alloc, socket)?),
        input: None,
        gap: 1,
        relay: None,
        disk: None,
        bad: Numbers::make(alloc),
        result: None,
    })
}

/// A network with two links, which say nothing. The calls with these numbers fail.
fn two_links(alloc: Global, failing: &[u32]) -> Result<MemNet<Said>, NoMemory> {
    let one = Said::make(alloc, Octets::make(alloc));
    let other = Said::make(alloc, Octets::make(alloc));
    let one = MemLink::make(alloc, one, Numbers::make(alloc), Numbers::make(alloc));
    let other = MemLink::make(alloc, other, Numbers::make(alloc), Numbers::make(alloc));
    let mut links = Vec::new(alloc);
    links.push(one)?;
    links.push(other)?;
    Ok(MemNet::make(alloc, links, numbers(alloc, failing)?))
}

/// What the links of two ports came to: the answer, how many links there are, and the children's numbers.
#[derive(Drop)]
struct Opened {
    answer: Result<(), OpenFault>,
    links: usize,
    numbers: Vec<u32>,
}

/// Opens the links of two ports over a network whose calls with these numbers fail.
fn open_two(alloc: Global, failing: &[u32], children: &mut MemSpawner) -> Result<Opened, NoMemory> {
    let ports = [port(alloc, "s0")?, port(alloc, "s1")?];
    let mut net = two_links(alloc, failing)?;
    let mut links = Vec::new(alloc);
    let mut numbers = Vec::new(alloc);
    let answer = open_links(
        alloc,
        &ports,
        "cosim",
        "machine",
        &mut links,
        &mut numbers,
        &mut net,
        children,
    );
    Ok(Opened {
        answer,
        links: links.len(),
        numbers,
    })
}

#[test]
fn no_child_is_started_where_a_socket_is_not_listened_under(rt: HostRuntime) -> Result<(), Fail> {
    let alloc = rt.alloc();
    let mut children = MemSpawner::make(alloc, Numbers::make(alloc), Numbers::make(alloc));
    let opened = open_two(alloc, &[1], &mut children)?;
    assert_eq!(rt; opened.answer, Err(OpenFault::Net { count: 1 }));
    assert!(rt; opened.links == 0 && opened.numbers.is_empty());
    assert_eq!(rt; children.wait(0), Err(SpawnFault::Failed));
    Ok(())
}

/// Waits for children, of which there are 16 at most.
fn wait_for(numbers: &[u32], children: &mut MemSpawner) -> Option<Result<(), WaitFault>> {
    if numbers.len() > 16 {
        return None;
    }
    Some(wait_for_all(numbers, children))
}

#[test]
fn children_stay_to_be_waited_for_where_a_link_fails(rt: HostRuntime) -> Result<(), Fail> {
    let alloc = rt.alloc();
    let mut children = MemSpawner::make(alloc, Numbers::make(alloc), Numbers::make(alloc));
    let opened = open_two(alloc, &[3], &mut children)?;
    assert_eq!(rt; opened.answer, Err(OpenFault::Net { count: 1 }));
    assert_eq!(rt; opened.links, 1);
    assert_eq!(rt; opened.numbers.as_slice(), [0, 1].as_slice());
    assert_eq!(rt;
        wait_for(opened.numbers.as_slice(), &mut children),
        Some(Ok(()))
    );
    Ok(())
}

#[test]
fn one_child_runs_where_the_second_is_not_started(rt: HostRuntime) -> Result<(), Fail> {
    let alloc = rt.alloc();
    let failing = numbers(alloc, &[1])?;
    let mut children = MemSpawner::make(alloc, Numbers::make(alloc), failing);
    let opened = open_two(alloc, &[], &mut children)?;
    assert_eq!(rt; opened.answer, Err(OpenFault::Spawner { count: 1 }));
    assert_eq!(rt; opened.links, 1);
    assert_eq!(rt; opened.numbers.as_slice(), [0].as_slice());
    Ok(())
}

/// What waiting for two children comes to that end with these statuses, and waiting for child 1 once more.
fn waited(
    alloc: Global,
    first: u8,
    second: u8,
    failing: &[u32],
) -> Result<(Option<Result<(), WaitFault>>, Result<u8, SpawnFault>), NoMemory> {
    let statuses = two_statuses(alloc, first, second)?;
    let mut children = MemSpawner::make(alloc, statuses, numbers(alloc, failing)?);
    let opened = open_two(alloc, &[], &mut children)?;
    let answer = wait_for(opened.numbers.as_slice(), &mut children);
    Ok((answer, children.wait(1)))
}

#[test]
fn the_first_status_that_is_not_0_is_told(rt: HostRuntime) -> Result<(), Fail> {
    let alloc = rt.alloc();
    let of_port_1 = Some(Err(WaitFault::Status { port: 1, status: 3 }));
    assert_eq!(rt; waited(alloc, 0, 3, &[])?.0, of_port_1);
    let of_port_0 = Some(Err(WaitFault::Status { port: 0, status: 3 }));
    assert_eq!(rt; waited(alloc, 3, 4, &[])?.0, of_port_0);
    Ok(())
}

#[test]
fn the_others_are_waited_for_after_a_wait_that_fails(rt: HostRuntime) -> Result<(), Fail> {
    let answers = waited(rt.alloc(), 0, 3, &[2])?;
    assert_eq!(rt; answers.0, Some(Err(WaitFault::Spawner { count: 1 })));
    assert_eq!(rt; answers.1, Err(SpawnFault::Failed));
    Ok(())
}
