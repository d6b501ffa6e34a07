// A device end over a link.
ghost use Rattle.std.specs.Prelude.{◌≡◌, ◌+◌, ◌<◌, ◌≤◌, length, IfOk, OnOk, IfErr, IfSome, Option, None, Ok, ℕ};
ghost use Rattle.cos_base.specs.Links.{Wire, IsFresh};
ghost use Rattle.ends_model.specs.DeviceTurn.{DeviceEnd as EndValue};
ghost use Rattle.rp_packet.specs.declared.fault.Cause.{Cause};
ghost use Rattle.device_turns.specs.Ends.{IsWaiting, core_of, fresh};
ghost use Rattle.end_device.specs.Talk.{IsByTalk};
ghost use Rattle.end_device.specs.Serving.{Serves, ServeCounts, NotLink, kept_by};
ghost use Rattle.end_device.specs.Going.{Going, Settles, ReadsOn, FinishesSo, Progress, kept_in_run};

use cos_api::Device;
use cos_base::{Link, NoMemory, Octets};
use device_turns::{DeviceEnd, DeviceTurn, EndFault};
use rp_framing::{Pulled, ReceiveFault, SendFault, send};
use std::alloc::Global;

/// How many bytes an end receives over a link before it stops to wait for more.
const MOST: u64 = 1 << 40;

/// Takes one turn, and sends what it sends.
fn step<D: Device, L: Link>(
    end: &mut DeviceEnd<D>,
    link: &mut L,
    out: &mut Octets,
) -> Result<DeviceTurn, EndFault>
    requires { end.old.kept ≡ None }
    ensures kept { end.new.kept ≡ kept_in_run result }
    ensures progress { IfOk result (λ t. Progress D.model t end.old end.new) }
    ensures counts { ServeCounts (L.count link.old) (L.count link.new) result }
    ensures is_sound { L.sound link.old → L.sound link.new × NotLink result }
    ensures goes { (start : EndValue D Cause) (w : Option Wire) (count : ℕ) → Going D.model start w count end.old (L.told link.old) →
        Settles D.model start w count end.new (L.told link.new) result }
{
    out.clear();
    let turn = match end.turn(out) {
        Ok(turn) => turn,
        Err(fault) => return Err(fault),
    };
    match send(out.as_slice(), link) {
        Ok(()) => Ok(turn),
        Err(SendFault::Link { count }) => Err(EndFault::Link { count }),
        Err(SendFault::NoMemory) => Err(EndFault::NoMemory),
    }
}

/// Takes every turn that it can, and sends what they send.
fn settle<D: Device, L: Link>(
    end: &mut DeviceEnd<D>,
    link: &mut L,
    out: &mut Octets,
) -> Result<(), EndFault>
    requires { end.old.kept ≡ None }
    ensures waits { OnOk result (IsWaiting D.model end.new) }
    ensures kept { end.new.kept ≡ kept_in_run result }
    ensures counts { ServeCounts (L.count link.old) (L.count link.new) result }
    ensures is_sound { L.sound link.old → L.sound link.new × NotLink result }
    ensures goes { (start : EndValue D Cause) (w : Option Wire) (count : ℕ) → Going D.model start w count end.old (L.told link.old) →
        Settles D.model start w count end.new (L.told link.new) result }
{
    'turns: loop {
        match step(end, link, out) {
            Ok(DeviceTurn::NotYet) => return Ok(()),
            Ok(DeviceTurn::Greeted | DeviceTurn::Took) => {}
            Err(fault) => return Err(fault),
        }
    }
}

/// Reads more bytes, for an end that waits for them. `None` is the end of the input.
fn read_more<D: Device, L: Link>(
    end: &mut DeviceEnd<D>,
    link: &mut L,
) -> Result<Option<u64>, EndFault>
    requires kept { end.old.kept ≡ None }
    requires waits { IsWaiting D.model end.old }
    ensures kept { end.new.kept ≡ kept_in_run result }
    ensures some { IfOk result (λ more. IfSome more (λ count. (0 < count) × (count ≤ 4096))) }
    ensures same { IfOk result (λ more. more ≡ None → end.new ≡ end.old) }
    ensures counts { ServeCounts (L.count link.old) (L.count link.new) result }
    ensures is_sound { L.sound link.old → L.sound link.new × NotLink result }
    ensures goes { (start : EndValue D Cause) (w : Option Wire) (count : ℕ) → Going D.model start w count end.old (L.told link.old) →
        ReadsOn D.model start w count end.new (L.told link.new) result }
{
    let before = end.held();
    match end.pull(link) {
        Ok(Pulled::More) => Ok(Some((end.held() - before) as u64)),
        Ok(Pulled::End) => Ok(None),
        Err(ReceiveFault::Link { count }) => Err(EndFault::Link { count }),
        Err(ReceiveFault::NoMemory) => Err(EndFault::NoMemory),
        Err(ReceiveFault::Malformed(_)) => unreachable!(),
        Err(ReceiveFault::Truncated(_)) => unreachable!(),
    }
}

/// What an end of the input means for an end that waits for more. So many bytes were read.
fn finish<D: Device>(end: &DeviceEnd<D>, received: u64) -> Result<(), EndFault>
    ensures { FinishesSo end.now received result }
{
    let held = end.held() as u64;
    if held > 0 {
        Err(EndFault::Truncated {
            start: end.taken(),
            held,
        })
    } else if end.is_clean() {
        Ok(())
    } else {
        Err(EndFault::Ended { taken: received })
    }
}

/// Serves until the input ends, or a fault comes.
fn run<D: Device, L: Link>(
    end: &mut DeviceEnd<D>,
    link: &mut L,
    out: &mut Octets,
) -> Result<(), EndFault>
    requires fresh { end.old ≡ fresh end.old.clear }
    requires unused { IfSome (L.told link.old) IsFresh }
    ensures kept { end.new.kept ≡ kept_in_run result }
    ensures counts { ServeCounts (L.count link.old) (L.count link.new) result }
    ensures is_sound { L.sound link.old → L.sound link.new × NotLink result }
    ensures leaves { Serves D.model (core_of end.old) (L.told link.old) (L.told link.new) end.new.clear result }
{
    let mut received: u64 = 0;
    'reads: loop {
        settle(end, link, out)?;
        if received >= MOST {
            return Err(EndFault::TooMuch { taken: received });
        }
        match read_more(end, link) {
            Ok(Some(more)) => received += more,
            Ok(None) => return finish(end, received),
            Err(fault) => return Err(fault),
        }
    }
}

/// Serves a fresh device end over a link on which nothing was sent or received, until the input ends or a fault comes. It may wait for
/// the link's peer; it reads no more once 1,099,511,627,776 bytes (2 to the power 40) came. The end keeps the fault.
pub fn serve<D: Device, L: Link>(
    alloc: Global,
    end: &mut DeviceEnd<D>,
    link: &mut L,
) -> Result<(), EndFault>
    requires fresh { end.old ≡ fresh end.old.clear }
    requires unused { IfSome (L.told link.old) IsFresh }
    ensures counts { ServeCounts (L.count link.old) (L.count link.new) result }
    ensures is_sound { L.sound link.old → L.sound link.new × NotLink result }
    ensures leaves { Serves D.model (core_of end.old) (L.told link.old) (L.told link.new) end.new.clear result }
    ensures talk { IsByTalk D.model (core_of end.old) (L.told link.old) end.new.clear result }
    ensures keeps { end.new.kept ≡ kept_by result }
{
    let mut out = Octets::make(alloc);
    match run(end, link, &mut out) {
        Ok(()) => Ok(()),
        Err(fault) => {
            end.keep(fault);
            Err(fault)
        }
    }
}
