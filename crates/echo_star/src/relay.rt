//! The relay.

ghost use Rattle.std.specs.Prelude.{◌≡◌, false, IfNone};
ghost use Rattle.relay_network.specs.RelayPackets.{RelayEnd, relay_turn_by, fresh_relay};
ghost use Rattle.echo_star.specs.Echoes.{echo_ends};
ghost use Rattle.echo_star.specs.Relayed.{awaited_side, echo_relays, passed_of};

use crate::codec::message_after;
use std::marker::Model;

/// Passes on a message of the counter, then one of its echo, and so on.
#[derive(Drop)]
pub struct Relay {
    awaits_echo: bool,
    from_counter: usize,
    from_echo: usize,
}

impl Model for Relay {
    ghost use Rattle.std.specs.Prelude.{Bool};
    ghost use Rattle.relay_network.specs.RelayPackets.{RelayEnd};

    ghost Value = { RelayEnd Bool };

    ghost view = { λ r. record { core = r.awaits_echo; from_hub = r.from_counter; from_leaf = r.from_echo } };
}

impl Relay {
    /// A relay that has received nothing, and awaits the counter.
    pub fn make() -> Relay
        ensures { result ≡ fresh_relay false }
    {
        Relay {
            awaits_echo: false,
            from_counter: 0,
            from_echo: 0,
        }
    }

    /// One turn over all the bytes that were received from the counter and from the echo: the message that it passed on, and
    /// whether that went to the echo.
    pub fn turn(&mut self, counter: &[u8], echo: &[u8]) -> Option<(bool, (u8, u8))>
        ensures turn { relay_turn_by echo_ends echo_relays self.old counter.now echo.now (awaited_side self.old.core) ≡ passed_of self.new result }
        ensures kept { IfNone result (self.new ≡ self.old) }
    {
        if self.awaits_echo {
            match message_after(echo, self.from_echo) {
                None => None,
                Some(message) => {
                    self.from_echo += 2;
                    self.awaits_echo = false;
                    Some((false, message))
                }
            }
        } else {
            match message_after(counter, self.from_counter) {
                None => None,
                Some(message) => {
                    self.from_counter += 2;
                    self.awaits_echo = true;
                    Some((true, message))
                }
            }
        }
    }
}
