// The ends of a world, with what was sent among them.
ghost use Rattle.std.specs.Prelude.{◌≡◌, All, IfOk, OnOk, length, map};
ghost use Rattle.process_network.specs.Star.{new_link};
ghost use Rattle.world.specs.Seats.{IsFresh, leaf_of};
ghost use Rattle.world.specs.Stars.{HaveRoom, IsSendable, is_move, is_sending, sent_links};

use crate::seat::Seat;
use cos_api::{Device, Master};
use cos_base::{NoMemory, Octets};
use cos_schedules::{Step, Way};
use device_turns::DeviceEnd;
use ends_model::Turn;
use machine_turns::{MachineEnd, TurnFault};
use std::alloc::Global;
use std::marker::Model;

/// The most bytes that a turn of the machine end sends.
const MOST_SENT: usize = 4176;

/// A seat for each device end.
fn make_seats<D: Device>(
    alloc: Global,
    devices: Vec<DeviceEnd<D>>,
) -> Result<Vec<Seat<D>>, NoMemory>
    requires { All IsFresh devices.items }
    ensures ends { IfOk result (λ seats. map (λ s. s.end) seats.items ≡ devices.items) }
    ensures links { IfOk result (λ seats. map (λ s. s.link) seats.items ≡ map (λ e. new_link) devices.items) }
{
    let mut seats = Vec::new(alloc);
    'ends: for end in devices {
        match seats.push(Seat::make(alloc, end)) {
            Ok(()) => {}
            Err(_) => return Err(NoMemory),
        }
    }
    Ok(seats)
}

/// Makes room on each port for what a turn of the machine end can send.
fn make_room<D: Device>(seats: &mut Vec<Seat<D>>) -> Result<(), NoMemory>
    ensures leaves { map (λ s. leaf_of s.end) seats.new.items ≡ map (λ s. leaf_of s.end) seats.old.items }
    ensures links { map (λ s. s.link) seats.new.items ≡ map (λ s. s.link) seats.old.items }
    ensures room { OnOk result (HaveRoom (length seats.new.items) seats.new.items) }
{
    let mut at = 0;
    'room: while at < seats.len() {
        let seat = &mut seats[at];
        match seat.reserve(MOST_SENT) {
            Ok(()) => {}
            Err(NoMemory) => return Err(NoMemory),
        }
        at += 1;
    }
    Ok(())
}

/// Appends what a turn sent to the bytes of the port that its answer names, in the room that there is.
fn send<D: Device>(seats: &mut Vec<Seat<D>>, turn: Turn, piece: &[u8])
    requires fits { IsSendable (length seats.old.items) turn piece.now }
    requires room { HaveRoom (length seats.old.items) seats.old.items }
    ensures leaves { map (λ s. leaf_of s.end) seats.new.items ≡ map (λ s. leaf_of s.end) seats.old.items }
    ensures links { map (λ s. s.link) seats.new.items ≡ sent_links (map (λ s. s.link) seats.old.items) turn piece.now }
{
    match turn {
        Turn::Sent { port } => {
            let seat = &mut seats[port as usize];
            seat.send(piece);
        }
        Turn::Unit => {}
        Turn::Took { port: _ } => {}
        Turn::Served { port: _ } => {}
        Turn::Marked => {}
        Turn::NotYet { port: _ } => {}
        Turn::Done => {}
    }
}

/// Whether a turn that answered this changed the machine end.
pub fn is_move(turn: Turn) -> bool
    ensures { result ≡ is_move turn }
{
    match turn {
        Turn::NotYet { port: _ } => false,
        Turn::Done => false,
        _ => true,
    }
}

/// Whether a turn that answered this sent something.
pub fn is_sending(turn: Turn) -> bool
    ensures { result ≡ is_sending turn }
{
    match turn {
        Turn::Sent { port: _ } => true,
        _ => false,
    }
}

/// A machine end and device ends, each with what crosses its port. Contracts see them as a star.
#[derive(Drop)]
pub struct Ends<M: Master, D: Device> {
    machine: MachineEnd<M>,
    // by port
    seats: Vec<Seat<D>>,
    // what a turn of the machine end sends
    piece: Octets,
}

impl<M: Master, D: Device> Model for Ends<M, D> {
    ghost use Rattle.std.specs.Prelude.{map};
    ghost use Rattle.world.specs.Stars.{Ends as Star, IsHub, ends_of};

    ghost Value = { Star M D };

    ghost view = { λ e. ends_of e.machine e.seats.items };

    ghost invariant = { λ e. IsHub e.machine (map (λ s. s.link) e.seats.items) };
}

impl<M: Master, D: Device> Ends<M, D> {
    ghost use Rattle.std.specs.Prelude.{◌<◌, OnErr, Some, None, slice_get};
    ghost use Rattle.process_network.specs.Star.{link, star_effective};
    ghost use Rattle.process_network.specs.Star.StarStep.{HubTurn, LeafTurn, DeliverOut, DeliverBack};
    ghost use Rattle.cos_schedules.specs.Stars.{star_step};
    ghost use Rattle.machine_turns.specs.Ends.{fresh as fresh_machine};
    ghost use Rattle.world.specs.Stars.{Advances, HasAnswer, IsMoved, IsSound, StaysSound, hub_of, sent_on, star, unsent};

    /// Ends of which none has taken a turn or received anything.
    pub fn make(
        alloc: Global,
        machine: MachineEnd<M>,
        devices: Vec<DeviceEnd<D>>,
    ) -> Result<Ends<M, D>, NoMemory>
        requires machine { machine ≡ fresh_machine machine.clear (length devices.items) }
        requires devices { All IsFresh devices.items }
        ensures unsent { IfOk result (λ ends. ends ≡ unsent machine devices.items) }
    {
        let seats = match make_seats(alloc, devices) {
            Ok(seats) => seats,
            Err(NoMemory) => return Err(NoMemory),
        };
        Ok(Ends {
            machine,
            seats,
            piece: Octets::make(alloc),
        })
    }

    /// The machine end.
    pub fn machine(&self) -> &MachineEnd<M>
        ensures { self.now.hub ≡ hub_of result.now }
    {
        &self.machine
    }

    /// The number of ports.
    pub fn ports(&self) -> usize
        ensures { result ≡ length self.now.leaves }
    {
        self.seats.len()
    }

    /// The device end of a port.
    pub fn device(&self, port: u32) -> &DeviceEnd<D>
        requires { port < length self.now.leaves }
        ensures { slice_get self.now.leaves port ≡ Some (leaf_of result.now) }
    {
        self.seats[port as usize].end()
    }

    /// The bytes that were sent on a port.
    pub fn sent(&self, port: u32, way: Way) -> &[u8]
        requires { port < length self.now.links }
        ensures { result.now ≡ sent_on way (link self.now port) }
    {
        let seat = &self.seats[port as usize];
        match way {
            Way::Out => seat.out(),
            Way::Back => seat.back(),
        }
    }

    /// Takes a step. Did it change anything? `NoMemory` leaves all as it was.
    pub fn step(&mut self, step: Step) -> Result<bool, NoMemory>
        requires { IsSound M.model D.model self.old }
        ensures ok { IfOk result (λ moved. IsMoved M.model D.model self.old self.new (star_step step) moved) }
        ensures err { OnErr result (self.new ≡ self.old) }
    {
        match step {
            Step::Machine => self.turn_machine(),
            Step::Device { port } => self.turn_device(port),
            Step::Deliver {
                port,
                way: Way::Out,
                count,
            } => self.deliver_out(port, count),
            Step::Deliver {
                port,
                way: Way::Back,
                count,
            } => self.deliver_back(port, count),
        }
    }

    /// The device end of a port takes its turn.
    fn turn_device(&mut self, port: u32) -> Result<bool, NoMemory>
        requires { IsSound M.model D.model self.old }
        ensures ok { IfOk result (λ moved. IsMoved M.model D.model self.old self.new (LeafTurn port) moved) }
        ensures err { OnErr result (self.new ≡ self.old) }
    {
        let at = port as usize;
        if at >= self.seats.len() {
            return Ok(false);
        }
        let seat = &mut self.seats[at];
        let moved = match seat.turn() {
            Ok(moved) => moved,
            Err(NoMemory) => return Err(NoMemory),
        };
        Ok(moved)
    }

    /// The machine end takes its turn. Room for what it can send is made first, on every port.
    fn turn_machine(&mut self) -> Result<bool, NoMemory>
        requires { IsSound M.model D.model self.old }
        ensures ok { IfOk result (λ moved. IsMoved M.model D.model self.old self.new HubTurn moved) }
        ensures err { OnErr result (self.new ≡ self.old) }
    {
        match make_room(&mut self.seats) {
            Ok(()) => {}
            Err(NoMemory) => return Err(NoMemory),
        }
        self.piece.clear();
        let turn = match self.machine.turn(&mut self.piece) {
            Ok(turn) => turn,
            Err(TurnFault::NoMemory) => return Err(NoMemory),
            Err(TurnFault::Port(_)) => unreachable!(),
        };
        send(&mut self.seats, turn, self.piece.as_slice());
        Ok(is_move(turn))
    }

    /// The machine end takes the local units that come next, up to the next boundary or access, and then its turn. In
    /// `units` it tells how many units came before that turn. Room for what the turn can send is made first, on every
    /// port. `NoMemory` leaves all as it is behind those units.
    pub fn advance(&mut self, units: &mut u64) -> Result<Turn, NoMemory>
        requires { StaysSound M.model D.model self.old }
        ensures { Advances M.model D.model units.new self.old self.new result }
    {
        *units = 0;
        match make_room(&mut self.seats) {
            Ok(()) => {}
            Err(NoMemory) => return Err(NoMemory),
        }
        self.piece.clear();
        let turn = match self.machine.advance(&mut self.piece, units) {
            Ok(turn) => turn,
            Err(TurnFault::NoMemory) => return Err(NoMemory),
            Err(TurnFault::Port(_)) => unreachable!(),
        };
        send(&mut self.seats, turn, self.piece.as_slice());
        Ok(turn)
    }

    /// Delivers bytes to the device end of a port, at most so many.
    fn deliver_out(&mut self, port: u32, count: u32) -> Result<bool, NoMemory>
        ensures ok { IfOk result (λ moved. IsMoved M.model D.model self.old self.new (DeliverOut port count) moved) }
        ensures err { OnErr result (self.new ≡ self.old) }
    {
        let at = port as usize;
        if at >= self.seats.len() {
            return Ok(false);
        }
        let seat = &mut self.seats[at];
        let moved = match seat.give(count as usize) {
            Ok(moved) => moved,
            Err(NoMemory) => return Err(NoMemory),
        };
        Ok(moved)
    }

    /// Delivers bytes of a port to the machine end, at most so many.
    fn deliver_back(&mut self, port: u32, count: u32) -> Result<bool, NoMemory>
        ensures ok { IfOk result (λ moved. IsMoved M.model D.model self.old self.new (DeliverBack port count) moved) }
        ensures err { OnErr result (self.new ≡ self.old) }
    {
        let at = port as usize;
        if at >= self.seats.len() {
            return Ok(false);
        }
        let seat = &mut self.seats[at];
        let piece = seat.in_flight(count as usize);
        let size = piece.len();
        match self.machine.feed(port, piece) {
            Ok(()) => {}
            Err(NoMemory) => return Err(NoMemory),
        }
        seat.deliver(size);
        Ok(size > 0)
    }

    /// Whether a step would change anything. It takes no memory.
    pub fn can_step(&self, step: Step) -> bool
        requires { HasAnswer M.model self.now.hub.core }
        ensures { result ≡ star_effective (star M.model D.model) self.now (star_step step) }
    {
        match step {
            Step::Machine => self.can_turn_machine(),
            Step::Device { port } => self.can_turn_device(port),
            Step::Deliver {
                port,
                way: Way::Out,
                count,
            } => self.can_deliver_out(port, count),
            Step::Deliver {
                port,
                way: Way::Back,
                count,
            } => self.can_deliver_back(port, count),
        }
    }

    /// Whether the machine end's turn would.
    fn can_turn_machine(&self) -> bool
        requires { HasAnswer M.model self.now.hub.core }
        ensures { result ≡ star_effective (star M.model D.model) self.now HubTurn }
    {
        if self.machine.is_done() {
            return false;
        }
        self.machine.ready()
    }

    /// Whether the turn of the device end of a port would.
    fn can_turn_device(&self, port: u32) -> bool
        ensures { result ≡ star_effective (star M.model D.model) self.now (LeafTurn port) }
    {
        let at = port as usize;
        if at >= self.seats.len() {
            return false;
        }
        let seat = &self.seats[at];
        seat.can_turn()
    }

    /// Whether a delivery to the device end of a port would.
    fn can_deliver_out(&self, port: u32, count: u32) -> bool
        ensures { result ≡ star_effective (star M.model D.model) self.now (DeliverOut port count) }
    {
        let at = port as usize;
        if at >= self.seats.len() {
            return false;
        }
        let seat = &self.seats[at];
        seat.can_give(count as usize)
    }

    /// Whether a delivery of bytes of a port to the machine end would.
    fn can_deliver_back(&self, port: u32, count: u32) -> bool
        ensures { result ≡ star_effective (star M.model D.model) self.now (DeliverBack port count) }
    {
        let at = port as usize;
        if at >= self.seats.len() {
            return false;
        }
        let seat = &self.seats[at];
        seat.can_deliver(count as usize)
    }
}
