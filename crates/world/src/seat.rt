// A device end with what was sent on its port.
use cos_api::Device;
use cos_base::{NoMemory, Octets};
use device_turns::DeviceEnd;
use ends_model::DeviceTurn;
use rp_session::EndFault;
use std::alloc::Global;
use std::marker::Model;

/// A device end, the bytes that were sent each way on its port, and how many of them were delivered.
#[derive(Drop)]
pub struct Seat<D: Device> {
    end: DeviceEnd<D>,
    out: Octets,
    out_delivered: usize,
    back: Octets,
    back_delivered: usize,
}

impl<D: Device> Model for Seat<D> {
    ghost use Rattle.world.specs.Seats.{SeatValue, IsSeat};

    ghost Value = { SeatValue D };

    ghost view = { λ s. record {
      end = s.end;
      link = record {
        out = s.out.bytes;
        out_delivered = s.out_delivered;
        back = s.back.bytes;
        back_delivered = s.back_delivered;
      };
      room = s.out.spare;
    } };

    ghost invariant = { λ s. IsSeat s.end (record {
      out = s.out.bytes;
      out_delivered = s.out_delivered;
      back = s.back.bytes;
      back_delivered = s.back_delivered;
    }) };
}

impl<D: Device> Seat<D> {
    ghost use Rattle.std.specs.Prelude.{◌≡◌, ◌+◌, ◌≤◌, ◌++◌, length, take, drop, is_some, nat_lt, None, IfOk, OnOk, OnErr};
    ghost use Rattle.process_network.specs.Star.{new_link};
    ghost use Rattle.world.specs.Seats.{IsFresh, IsSoundSeat, SeatGiven, SeatTurns, back_given, out_given, seat_turn};

    /// A seat on whose port nothing was sent.
    pub fn make(alloc: Global, end: DeviceEnd<D>) -> Seat<D>
        requires { IsFresh end }
        ensures end { result.end ≡ end }
        ensures link { result.link ≡ new_link }
    {
        Seat {
            end,
            out: Octets::make(alloc),
            out_delivered: 0,
            back: Octets::make(alloc),
            back_delivered: 0,
        }
    }

    /// The device end.
    pub fn end(&self) -> &DeviceEnd<D>
        ensures { result.now ≡ self.now.end }
    {
        &self.end
    }

    /// The bytes sent to the device end.
    pub fn out(&self) -> &[u8]
        ensures { result.now ≡ self.now.link.out }
    {
        self.out.as_slice()
    }

    /// The bytes sent to the machine end.
    pub fn back(&self) -> &[u8]
        ensures { result.now ≡ self.now.link.back }
    {
        self.back.as_slice()
    }

    /// The end takes a turn. Did it move?
    pub fn turn(&mut self) -> Result<bool, NoMemory>
        requires { IsSoundSeat D.model self.old }
        ensures ok { IfOk result (λ took. SeatTurns D.model self.old self.new took) }
        ensures err { OnErr result (self.new ≡ self.old) }
    {
        match self.end.turn(&mut self.back) {
            Ok(DeviceTurn::Greeted) => Ok(true),
            Ok(DeviceTurn::Took) => Ok(true),
            Ok(DeviceTurn::NotYet) => Ok(false),
            Err(EndFault::NoMemory) => Err(NoMemory),
            Err(_) => unreachable!(),
        }
    }

    /// Whether a turn would move the end.
    pub fn can_turn(&self) -> bool
        ensures { result ≡ is_some (seat_turn D.model self.now) }
    {
        self.end.ready()
    }

    /// Delivers bytes to the device end, at most so many. Were there any?
    pub fn give(&mut self, count: usize) -> Result<bool, NoMemory>
        ensures ok { IfOk result (λ took. SeatGiven self.old self.new count took) }
        ensures err { OnErr result (self.new ≡ self.old) }
    {
        let (_, rest) = self.out.as_slice().split_at(self.out_delivered);
        let size = count.min(rest.len());
        let (piece, _) = rest.split_at(size);
        let next = self.out_delivered + size;
        match self.end.feed(piece) {
            Ok(()) => {}
            Err(NoMemory) => return Err(NoMemory),
        }
        self.out_delivered = next;
        Ok(size > 0)
    }

    /// Whether bytes are on their way to the device end, and the count isn't 0.
    pub fn can_give(&self, count: usize) -> bool
        ensures { result ≡ nat_lt self.now.link.out_delivered (out_given self.now.link count).out_delivered }
    {
        count > 0 && self.out_delivered < self.out.len()
    }

    /// Whether bytes are on their way to the machine end, and the count isn't 0.
    pub fn can_deliver(&self, count: usize) -> bool
        ensures { result ≡ nat_lt self.now.link.back_delivered (back_given self.now.link count).back_delivered }
    {
        count > 0 && self.back_delivered < self.back.len()
    }

    /// The bytes on their way to the machine end, at most so many.
    pub fn in_flight(&self, count: usize) -> &[u8]
        ensures { result.now ≡ take count (drop self.now.link.back_delivered self.now.link.back) }
    {
        let (_, rest) = self.back.as_slice().split_at(self.back_delivered);
        let size = count.min(rest.len());
        let (piece, _) = rest.split_at(size);
        piece
    }

    /// Counts bytes to the machine end that were delivered.
    pub fn deliver(&mut self, size: usize)
        requires { self.old.link.back_delivered + size ≤ length self.old.link.back }
        ensures end { self.new.end ≡ self.old.end }
        ensures link { self.new.link ≡ record self.old.link { back_delivered = self.old.link.back_delivered + size } }
        ensures small { self.new.link.back_delivered ≤ 18446744073709551615 }
    {
        let _all = self.back.len();
        self.back_delivered += size;
    }

    /// Makes room for bytes to the device end.
    pub fn reserve(&mut self, size: usize) -> Result<(), NoMemory>
        ensures end { self.new.end ≡ self.old.end }
        ensures link { self.new.link ≡ self.old.link }
        ensures room { OnOk result (size ≤ self.new.room) }
    {
        self.out.reserve(size)
    }

    /// Appends bytes to the device end, in the room that there is.
    pub fn send(&mut self, bytes: &[u8])
        requires { length bytes.now ≤ self.old.room }
        ensures end { self.new.end ≡ self.old.end }
        ensures link { self.new.link ≡ record self.old.link { out = self.old.link.out ++ bytes.now } }
    {
        self.out.push_spare(bytes);
    }
}
