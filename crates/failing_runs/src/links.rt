// The links in memory to two timers.
ghost use Rattle.std.specs.Prelude.{◌≡◌, [], IfOk, IsTrue};
ghost use Rattle.cos_base.specs.Links.{is_fresh};
ghost use Rattle.cos_base.specs.Networks.{AllFresh};
ghost use Rattle.device_turns.specs.Ends.{fresh};

use cos_base::{Link, NoMemory, Numbers};
use cos_memory::{MemLink, MemNet};
use cosim_model::Caps;
use dev_timer::Timer;
use device_peer::{DeviceEnd, DevicePeer};
use std::alloc::Global;

/// A link to a timer.
pub type TimerLink = MemLink<DevicePeer<Timer>>;

/// A list of the number that may be there.
pub fn list_of(alloc: Global, number: Option<u32>) -> Result<Numbers, NoMemory> {
    let mut list = Numbers::make(alloc);
    if let Some(number) = number {
        list.push(number)?;
    }
    Ok(list)
}

/// A fresh timer's end, whose level goes to that line.
fn timer_end(alloc: Global, line: u32) -> Result<DeviceEnd<Timer>, NoMemory>
    ensures { IfOk result (λ e. e ≡ fresh e.clear) }
{
    let offer = Caps {
        base: true,
        enables: true,
        posted: true,
    };
    DeviceEnd::make(alloc, Timer::make(line), offer, true)
}

/// A link to a fresh timer; its call of that number fails.
fn link_of(alloc: Global, line: u32, failing: Option<u32>) -> Result<TimerLink, NoMemory>
    ensures { IfOk result (λ l. IsTrue (is_fresh (⟦<TimerLink as Link>⟧.told l))) }
{
    let end = timer_end(alloc, line)?;
    let failing = list_of(alloc, failing)?;
    DevicePeer::link(alloc, end, Numbers::make(alloc), failing)
}

/// Links to two timers, or to the first alone.
fn links_of(alloc: Global, count: u32, failing: Option<u32>) -> Result<Vec<TimerLink>, NoMemory>
    ensures { IfOk result (λ links. AllFresh ⟦<TimerLink as Link>⟧.told links.items) }
{
    let first = link_of(alloc, 0, failing)?;
    let mut links = Vec::new(alloc);
    links.push(first)?;
    if count > 1 {
        let second = link_of(alloc, 1, None)?;
        links.push(second)?;
    }
    Ok(links)
}

/// A network with so many links to come. Its call of the number `net` fails, and that of `link` of the first link.
pub fn net_of(
    alloc: Global,
    count: u32,
    net: Option<u32>,
    link: Option<u32>,
) -> Result<MemNet<DevicePeer<Timer>>, NoMemory> {
    let links = links_of(alloc, count, link)?;
    let failing = list_of(alloc, net)?;
    Ok(MemNet::make(alloc, links, failing))
}
