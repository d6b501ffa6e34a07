//! An instance of the theorems on process networks that runs: a counter sends its numbers to two echoes in turn, and waits for
//! each echo. The messages have two bytes.
#![tactic(auto)]

mod codec;
mod counter;
mod echo;
mod relay;

ghost use Rattle.std.specs.Prelude.{◌≡◌, ℕ, List, [], ◌∷◌, false, length, map};
ghost use Rattle.process_network.specs.Star.{StarStep, reached};
ghost use Rattle.process_network.specs.CalmRun.{IsCalmResult, all_delivered};
ghost use Rattle.process_network.specs.PacketStar.{HubEnd, star_of, fresh_hub, fresh_leaf, packets_start, packets_all, in_bytes};
ghost use Rattle.process_network.specs.PacketStar.HubOutlook.{HubHalts};
ghost use Rattle.process_network.specs.Network.{Step, outcome, IsSame};
ghost use Rattle.relay_network.specs.RelayStar.{RelayNode, IsRelayResult, relay_world};
ghost use Rattle.relay_network.specs.RelayStar.RelayNode.{TheHub};
ghost use Rattle.relay_network.specs.RelayPackets.{relay_star_of, fresh_relay, relayed_start, relayed_moves, relayed_network, relayed_result};
ghost use Rattle.echo_star.specs.Echoes.{Count, echo_ends, fresh_count, three_exchanges};
ghost use Rattle.echo_star.specs.Relayed.{echo_relays};

pub use codec::message_after;
pub use counter::Counter;
pub use echo::Echo;
pub use relay::Relay;

/// Whatever the order of turns and of deliveries, three numbers come back: while the counter has not halted some step can be
/// taken, and when it has, the two echoes have sent back two and one.
pub fn every_schedule()
    ensures result { IsCalmResult (star_of echo_ends) (fresh_hub (fresh_count 3) 2) (map fresh_leaf (0 ∷ 0 ∷ [])) three_exchanges
        (in_bytes echo_ends (packets_all echo_ends (packets_start (fresh_count 3) (0 ∷ 0 ∷ [])) three_exchanges)) }
    ensures halted { (steps : List StarStep)
        → echo_ends.hub_outlook (reached (star_of echo_ends) (fresh_hub (fresh_count 3) 2) (map fresh_leaf (0 ∷ 0 ∷ [])) steps).hub.core ≡ HubHalts
        → map (λ l. l.core) (reached (star_of echo_ends) (fresh_hub (fresh_count 3) 2) (map fresh_leaf (0 ∷ 0 ∷ [])) steps).leaves ≡ 2 ∷ 1 ∷ [] }
{}

/// The same with a relay on each link that passes on one message each way in turn.
pub fn every_relayed_schedule()
    ensures result { IsRelayResult (relay_star_of echo_ends echo_relays) (fresh_hub (fresh_count 3) 2) (fresh_relay false) (map fresh_leaf (0 ∷ 0 ∷ []))
        (relayed_moves echo_ends echo_relays (relayed_start (fresh_count 3) false (0 ∷ 0 ∷ [])) three_exchanges)
        (relayed_result echo_ends echo_relays (fresh_count 3) false (0 ∷ 0 ∷ []) three_exchanges) }
    ensures halted { (steps : List Step) (h : HubEnd Count)
        → (outcome (relayed_network echo_ends echo_relays (fresh_count 3) false (0 ∷ 0 ∷ [])) steps).state 0 ≡ TheHub h
        → echo_ends.hub_outlook h.core ≡ HubHalts
        → IsSame (outcome (relayed_network echo_ends echo_relays (fresh_count 3) false (0 ∷ 0 ∷ [])) steps)
        (relay_world (relayed_result echo_ends echo_relays (fresh_count 3) false (0 ∷ 0 ∷ []) three_exchanges)) }
{}

#[cfg(test)]
mod tests {
    use crate::{Counter, Echo};

    #[test]
    fn two_numbers_come_back(rt: HostRuntime) {
        let mut counter = Counter::make(2);
        let mut first = Echo::make();
        let mut second = Echo::make();
        assert_eq!(rt; counter.turn(&[], &[]), Some(Some((0, (2, 0)))));
        assert_eq!(rt; first.turn(&[2]), None);
        assert_eq!(rt; first.turn(&[2, 0]), Some((2, 0)));
        assert_eq!(rt; counter.turn(&[2], &[9, 9]), None);
        assert_eq!(rt; counter.turn(&[2, 0], &[9, 9]), Some(None));
        assert_eq!(rt; counter.turn(&[2, 0], &[]), Some(Some((1, (1, 0)))));
        assert_eq!(rt; second.turn(&[1, 0, 7]), Some((1, 0)));
        assert_eq!(rt; second.turn(&[1, 0, 7]), None);
        assert_eq!(rt; counter.turn(&[2, 0], &[1, 0]), Some(None));
        assert_eq!(rt; counter.turn(&[2, 0], &[1, 0]), None);
    }
}
