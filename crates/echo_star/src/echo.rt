//! The echo.

ghost use Rattle.std.specs.Prelude.{◌≡◌, IfNone, ◌<◌};
ghost use Rattle.process_network.specs.PacketStar.{LeafEnd, star_of, fresh_leaf};
ghost use Rattle.echo_star.specs.Echoes.{echo_ends, echo_of};

use crate::codec::message_after;
use std::marker::Model;

/// Sends back each message that it takes.
#[derive(Drop)]
pub struct Echo {
    echoes: u64,
    taken: usize,
}

impl Model for Echo {
    ghost use Rattle.std.specs.Prelude.{ℕ, ◌≤◌};
    ghost use Rattle.process_network.specs.PacketStar.{LeafEnd};

    ghost Value = { LeafEnd ℕ };

    ghost view = { λ e. record { core = e.echoes; taken = e.taken } };

    ghost invariant = { λ e. e.echoes ≤ e.taken };
}

impl Echo {
    /// An echo that has received nothing.
    pub fn make() -> Echo
        ensures { result ≡ fresh_leaf 0 }
    {
        Echo {
            echoes: 0,
            taken: 0,
        }
    }

    /// One turn over all the bytes that were received: the message that it took and sent back, if a whole one is there.
    pub fn turn(&mut self, received: &[u8]) -> Option<(u8, u8)>
        ensures turn { (star_of echo_ends).leaf_turn self.old received.now ≡ echo_of self.new result }
        ensures kept { IfNone result (self.new ≡ self.old) }
    {
        match message_after(received, self.taken) {
            None => None,
            Some(message) => {
                self.taken += 2;
                self.echoes += 1;
                Some(message)
            }
        }
    }
}
