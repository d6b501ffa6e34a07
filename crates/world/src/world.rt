// A world of ends, which knows what it began with.
ghost use Rattle.std.specs.Prelude.{◌≡◌, ◌↔◌, ◌<◌, ◌+◌, if◌then◌else◌, All, IfOk, OnErr, OnOk, Some, length, map, slice_get, true};
ghost use Rattle.rp_framing.specs.Framing.{counted};
ghost use Rattle.world.specs.Worlds.{IsStart, side_of};

use crate::ends::{Ends, is_move, is_sending};
use cos_api::{Device, Master};
use cos_base::NoMemory;
use cos_schedules::{Rounds, Schedule, Step, Way};
use cosim_model::Plan;
use device_turns::DeviceEnd;
use machine_turns::MachineEnd;
use packet_counts::count_packets;
use std::alloc::Global;
use std::marker::Model;
use std::snapshot::Snapshot;

/// A count with one more, where something moved.
fn count_if(moved: bool, count: u64) -> u64
    ensures { result ≡ counted (count + (if moved then 1 else 0)) }
{
    if moved {
        count.saturating_add(1)
    } else {
        count
    }
}

/// A machine end and device ends in memory, moved by any list of steps. Contracts see what they began with, where they
/// are, and how many steps changed something.
#[derive(Drop)]
pub struct World<M: Master, D: Device> {
    ends: Ends<M, D>,
    effective: u64,
    first_machine: Snapshot<MachineEnd<M>>,
    // by port
    first_devices: Snapshot<Vec<DeviceEnd<D>>>,
}

impl<M: Master, D: Device> Model for World<M, D> {
    ghost use Rattle.std.specs.Prelude.{map};
    ghost use Rattle.world.specs.Worlds.{IsReached, WorldValue, side_of};

    ghost Value = { WorldValue M D };

    ghost view = { λ w. record {
      start = record {
        plan = w.first_machine.value.clear.plan;
        master = w.first_machine.value.clear.master;
        ports = map side_of w.first_devices.value.items;
      };
      now = w.ends;
      effective = w.effective;
    } };

    ghost invariant = { λ w. IsReached M.model D.model (record {
      start = record {
        plan = w.first_machine.value.clear.plan;
        master = w.first_machine.value.clear.master;
        ports = map side_of w.first_devices.value.items;
      };
      now = w.ends;
      effective = w.effective;
    }) };
}

impl<M: Master, D: Device> World<M, D> {
    ghost use Rattle.ends_model.specs.World.{Fit};
    ghost use Rattle.ends_model.specs.declared.ends.Phase.TheVariants as Phase;
    ghost use Rattle.cos_schedules.specs.Stars.{star_step};
    ghost use Rattle.cos_schedules.specs.declared.schedule.Schedule.TheVariants.{Number};
    ghost use Rattle.process_network.specs.Star.{link, star_effective};
    ghost use Rattle.every_schedule.specs.Counts.{packets_in};
    ghost use Rattle.rp_packet.specs.Streams.{packet_codec};
    ghost use Rattle.world.specs.Seats.{leaf_of};
    ghost use Rattle.world.specs.Stars.{IsQuiet, hub_of, is_busy, sent_on, star};
    ghost use Rattle.world.specs.Worlds.{IsOnItsWay, IsOver, IsReached, IsRun, IsStepped, TakesNext, TakesOf, fresh_world};

    /// A world in which no step was taken.
    ///
    /// Each device end is one that has taken no turn, and master and ends go together: at most 16 ends at tick 0, each
    /// of which offers what its device needs, and a master that has issued nothing and names no other port.
    pub fn make(
        alloc: Global,
        master: M,
        devices: Vec<DeviceEnd<D>>,
        plan: Plan,
    ) -> Result<World<M, D>, NoMemory>
        requires starts { All IsStart devices.items }
        requires fit { Fit M.model D.model plan master (map side_of devices.items) }
        ensures { IfOk result (λ world. world ≡ fresh_world M.model D.model
            (record { plan = plan; master = master; ports = map side_of devices.items })) }
    {
        let first_devices = Snapshot::of(&devices);
        let ports = devices.len() as u32;
        let machine = match MachineEnd::make(alloc, master, ports, plan) {
            Ok(machine) => machine,
            Err(NoMemory) => return Err(NoMemory),
        };
        let first_machine = Snapshot::of(&machine);
        let ends = match Ends::make(alloc, machine, devices) {
            Ok(ends) => ends,
            Err(NoMemory) => return Err(NoMemory),
        };
        Ok(World {
            ends,
            effective: 0,
            first_machine,
            first_devices,
        })
    }

    /// Takes a step. Did it change anything? A delivery hands over what is in flight, at most so many bytes. `NoMemory`
    /// leaves all as it was.
    pub fn step(&mut self, step: Step) -> Result<bool, NoMemory>
        ensures ok { IfOk result (λ moved. IsStepped M.model D.model self.old self.new (star_step step) moved) }
        ensures err { OnErr result (self.new ≡ self.old) }
    {
        let moved = match self.ends.step(step) {
            Ok(moved) => moved,
            Err(NoMemory) => return Err(NoMemory),
        };
        self.effective = count_if(moved, self.effective);
        Ok(moved)
    }

    /// Whether a step would change anything. It takes no memory.
    pub fn can_step(&self, step: Step) -> bool
        ensures { result ≡ star_effective (star M.model D.model) self.now.now (star_step step) }
    {
        self.ends.can_step(step)
    }

    /// Takes the steps of a schedule, up to the first at which the machine end is done. After `NoMemory` it stands
    /// after a beginning of them.
    pub fn run(&mut self, schedule: &Schedule) -> Result<(), NoMemory>
        ensures runs { IsRun M.model D.model schedule.now self.old self.new }
        ensures done { OnOk result (self.new.now.hub.core.phase ≡ Phase.Done) }
        ensures over { OnOk result (IsOver M.model D.model self.new) }
    {
        match schedule {
            Schedule::Number { number } => self.run_rounds(*number),
            Schedule::Listed { steps } => match self.run_list(steps.as_slice()) {
                Ok(()) => self.run_rounds(0),
                Err(NoMemory) => Err(NoMemory),
            },
        }
    }

    /// Takes the steps of a list, up to the first at which the machine end is done.
    fn run_list(&mut self, steps: &[Step]) -> Result<(), NoMemory>
        ensures { TakesOf M.model D.model steps.now self.old self.new result }
    {
        self.is_on_its_way();
        let mut at = 0;
        'steps: while at < steps.len() && !self.is_finished() {
            let step = steps[at];
            match self.step(step) {
                Ok(_) => at += 1,
                Err(NoMemory) => return Err(NoMemory),
            }
        }
        Ok(())
    }

    /// Whether no delivery and no turn of a device end would change anything. It takes no memory.
    fn is_quiet(&self) -> bool
        ensures { (result ≡ true) ↔ IsQuiet M.model D.model self.now.now }
    {
        self.is_on_its_way();
        let ports = self.ports();
        let mut port = 0;
        'ports: while port < ports {
            if self.is_busy(port) {
                return false;
            }
            port += 1;
        }
        true
    }

    /// Whether a delivery on a port, or the turn of its device end, would change something.
    fn is_busy(&self, port: u32) -> bool
        ensures { result ≡ is_busy M.model D.model self.now.now port }
    {
        let out = Step::Deliver {
            port,
            way: Way::Out,
            count: 1,
        };
        let back = Step::Deliver {
            port,
            way: Way::Back,
            count: 1,
        };
        self.can_step(out) || self.can_step(Step::Device { port }) || self.can_step(back)
    }

    /// Takes the next step of a schedule. Behind the machine's it looks whether all is quiet, and tells that.
    fn take_next(&mut self, rounds: &mut Rounds) -> Result<bool, NoMemory>
        requires { self.old.now.hub.core.phase ≡ Phase.Done → ⊥ }
        ensures takes { TakesNext M.model D.model rounds.old rounds.new self.old self.new result }
        ensures quiet { IfOk result (λ quiet. quiet ≡ true → IsQuiet M.model D.model self.new.now) }
    {
        self.is_on_its_way();
        let step = rounds.next();
        match self.step(step) {
            Ok(_) => Ok(matches!(step, Step::Machine) && self.is_quiet()),
            Err(NoMemory) => Err(NoMemory),
        }
    }

    /// Where all is quiet: the machine end takes the local units that come next, and then its turn. The other steps up to
    /// there would change nothing, so they are passed over. It tells whether all is still quiet.
    fn take_turns(&mut self, rounds: &mut Rounds) -> Result<bool, NoMemory>
        requires going { self.old.now.hub.core.phase ≡ Phase.Done → ⊥ }
        requires quiet { IsQuiet M.model D.model self.old.now }
        ensures takes { TakesNext M.model D.model rounds.old rounds.new self.old self.new result }
        ensures quiet { IfOk result (λ quiet. quiet ≡ true → IsQuiet M.model D.model self.new.now) }
    {
        let mut units = 0;
        let answer = self.ends.advance(&mut units);
        self.effective = self.effective.saturating_add(units);
        rounds.pass_turns(units);
        let turn = match answer {
            Ok(turn) => turn,
            Err(NoMemory) => return Err(NoMemory),
        };
        rounds.pass_to_machine();
        self.effective = count_if(is_move(turn), self.effective);
        Ok(!is_sending(turn))
    }

    /// Takes steps that a schedule gives next, at least one. It tells whether all is quiet behind them, as it is told
    /// whether all is quiet now.
    fn take_some(&mut self, rounds: &mut Rounds, quiet: bool) -> Result<bool, NoMemory>
        requires going { self.old.now.hub.core.phase ≡ Phase.Done → ⊥ }
        requires quiet { quiet ≡ true → IsQuiet M.model D.model self.old.now }
        ensures takes { TakesNext M.model D.model rounds.old rounds.new self.old self.new result }
        ensures quiet { IfOk result (λ quiet. quiet ≡ true → IsQuiet M.model D.model self.new.now) }
    {
        if quiet {
            self.take_turns(rounds)
        } else {
            self.take_next(rounds)
        }
    }

    /// Takes the steps of the rounds of a number, until the machine end is done.
    fn run_rounds(&mut self, number: u32) -> Result<(), NoMemory>
        ensures runs { IsRun M.model D.model (Number number) self.old self.new }
        ensures done { OnOk result (self.new.now.hub.core.phase ≡ Phase.Done) }
        ensures over { OnOk result (IsOver M.model D.model self.new) }
    {
        self.is_on_its_way();
        let mut rounds = Rounds::make(number, self.ports());
        let mut quiet = false;
        'steps: while !self.is_finished() {
            self.is_on_its_way();
            match self.take_some(&mut rounds, quiet) {
                Ok(now) => quiet = now,
                Err(NoMemory) => return Err(NoMemory),
            }
        }
        Ok(())
    }

    /// The number of ports.
    pub fn ports(&self) -> u32
        ensures { result ≡ length self.now.start.ports }
    {
        self.ends.ports() as u32
    }

    /// The device end of a port.
    pub fn device(&self, port: u32) -> &DeviceEnd<D>
        requires { port < length self.now.start.ports }
        ensures { slice_get self.now.now.leaves port ≡ Some (leaf_of result.now) }
    {
        self.ends.device(port)
    }

    /// The bytes that were sent on a port.
    pub fn sent(&self, port: u32, way: Way) -> &[u8]
        requires { port < length self.now.start.ports }
        ensures { result.now ≡ sent_on way (link self.now.now port) }
    {
        self.ends.sent(port, way)
    }

    /// How many packets were sent on a port. It reads all its bytes, and takes no memory.
    pub fn packets(&self, port: u32, way: Way) -> u64
        requires { port < length self.now.start.ports }
        ensures { result ≡ packets_in packet_codec (sent_on way (link self.now.now port)) }
    {
        count_packets(self.sent(port, way))
    }

    /// What holds at any time, whatever steps were taken: `reached`, that some steps led from the start to where it is;
    /// and `way`, that so far all is a beginning of what the direct machine does. It does nothing.
    pub fn is_on_its_way(&self)
        ensures reached { IsReached M.model D.model self.now }
        ensures way { IsOnItsWay M.model D.model self.now }
    {
        let _effective = self.effective;
    }

    /// Whether the machine end is done. Then all is as the direct machine leaves it, and nothing is in flight.
    pub fn is_finished(&self) -> bool
        ensures is { (result ≡ true) ↔ (self.now.now.hub.core.phase ≡ Phase.Done) }
        ensures over { result ≡ true → IsOver M.model D.model self.now }
    {
        self.ends.machine().is_done()
    }

    /// How many steps changed something, up to 18,446,744,073,709,551,615.
    pub fn effective(&self) -> u64
        ensures { result ≡ self.now.effective }
    {
        self.effective
    }

    /// The machine end.
    pub fn machine(&self) -> &MachineEnd<M>
        ensures { self.now.now.hub ≡ hub_of result.now }
    {
        self.ends.machine()
    }
}
