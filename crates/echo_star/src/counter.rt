//! The counter.

ghost use Rattle.std.specs.Prelude.{◌≡◌, ℕ, ◌≤◌, true, false, [], ◌∷◌, IfNone};
ghost use Rattle.process_network.specs.PacketStar.{HubEnd, star_of, fresh_hub};
ghost use Rattle.echo_star.specs.Echoes.{Count, echo_ends, fresh_count, by_two, turn_of};

use crate::codec::message_after;
use std::marker::Model;

/// Sends its numbers, from the greatest down to one, to two echoes in turn.
#[derive(Drop)]
pub struct Counter {
    left: u8,
    port: u8,
    waits: bool,
    taken_first: usize,
    taken_second: usize,
}

impl Model for Counter {
    ghost use Rattle.std.specs.Prelude.{◌≤◌, [], ◌∷◌};
    ghost use Rattle.process_network.specs.PacketStar.{HubEnd};
    ghost use Rattle.echo_star.specs.Echoes.{Count};

    ghost Value = { HubEnd Count };

    ghost view = { λ c. record { core = record { left = c.left; port = c.port; waits = c.waits }; taken = c.taken_first ∷ c.taken_second ∷ [] } };

    ghost invariant = { λ c. c.port ≤ 1 };
}

impl Counter {
    /// A counter with so many numbers, which has received nothing.
    pub fn make(numbers: u8) -> Counter
        ensures { result ≡ fresh_hub (fresh_count numbers) 2 }
    {
        Counter {
            left: numbers,
            port: 0,
            waits: false,
            taken_first: 0,
            taken_second: 0,
        }
    }

    /// One turn over all the bytes that were received at the two ports: None where it can't move, `Some(None)` where it took an
    /// echo, and the port with the message where it sent one.
    pub fn turn(&mut self, first: &[u8], second: &[u8]) -> Option<Option<(u8, (u8, u8))>>
        ensures turn { (star_of echo_ends).hub_turn self.old (by_two first.now second.now) ≡ turn_of self.new result }
        ensures kept { IfNone result (self.new ≡ self.old) }
    {
        if self.waits {
            if self.port == 0 {
                match message_after(first, self.taken_first) {
                    None => None,
                    Some(_) => {
                        self.taken_first += 2;
                        self.left = self.left.saturating_sub(1);
                        self.port = 1;
                        self.waits = false;
                        Some(None)
                    }
                }
            } else {
                match message_after(second, self.taken_second) {
                    None => None,
                    Some(_) => {
                        self.taken_second += 2;
                        self.left = self.left.saturating_sub(1);
                        self.port = 0;
                        self.waits = false;
                        Some(None)
                    }
                }
            }
        } else if self.left == 0 {
            None
        } else {
            self.waits = true;
            Some(Some((self.port, (self.left, 0))))
        }
    }
}
