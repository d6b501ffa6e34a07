//! The star of a process network with a relay on each link: every schedule with relays has the result of the run without them.
//!
//! There is no code here. The function has an empty body, and its contract is a theorem on the definitions of `specs/` and on those
//! of `process_network`.
#![tactic(auto)]

ghost use Rattle.std.specs.Prelude.{◌≡◌, ℕ, ◌+◌, ◌<◌, ◌≤◌, List, length, map};
ghost use Rattle.process_network.specs.Network.{Step, start, outcome, effective_steps, IsSame};
ghost use Rattle.process_network.specs.CalmRun.{Move, traffic_bytes};
ghost use Rattle.process_network.specs.PacketProcesses.{IsDecided};
ghost use Rattle.process_network.specs.PacketStar.{Ends, fresh_hub, fresh_leaf, packets_start, packets_all, packet_turns, in_bytes, IsOver, AllReadable, LeafEndsBySending, HubEnd, HubOutlook};
ghost use Rattle.process_network.specs.PacketStar.HubOutlook.{HubHalts};
ghost use Rattle.relay_network.specs.RelayStar.{RelayNode, IsRelayMonotone, IsRelayResult, relay_world};
ghost use Rattle.relay_network.specs.RelayStar.RelayNode.{TheHub};
ghost use Rattle.relay_network.specs.RelayPackets.{Relays, relay_star_of, fresh_relay, relayed_start, relayed_moves, relayed_network, relayed_result, AllPass, packet_count, IsSameEnd};

/// The state of a hub that takes and sends whole packets, in a star with a relay on each link. It has no count of the bytes that
/// the hub has taken.
pub trait RelayedHub {
    /// The state of a leaf.
    type Leaf;

    /// The state of a relay, without the counts of the bytes that it has taken.
    type Relay;

    /// What is sent.
    type Packet;

    /// What hub and leaves do, and how packets are read and written.
    ghost ends: { Ends Self Self.Leaf Self.Packet };

    /// What a relay waits for and passes on.
    ghost relays: { Relays Self.Relay Self.Packet };

    /// Does nothing.
    fn touch(&self);

    /// A whole packet is told by its own bytes, whatever comes behind it.
    ghost decided: { IsDecided ends.first };
}

/// Where the relays pass on each packet of a run that is over, what the hub sends as soon as it is sent and what a leaf sent as
/// soon as the hub is to take it, every schedule with relays has the result of the run without them. A packet costs one turn
/// more, and a byte one delivery more.
pub fn every_relayed_schedule<H: RelayedHub>()
    ensures monotone { IsRelayMonotone (relay_star_of H.ends H.relays) }
    ensures result { (hub : H) (relay : H.Relay) (leaves : List H.Leaf) (moves : List Move)
        → AllPass H.ends H.relays (relayed_start hub relay leaves) moves
        → IsOver H.ends (packets_all H.ends (packets_start hub leaves) moves)
        → IsRelayResult (relay_star_of H.ends H.relays) (fresh_hub hub (length leaves)) (fresh_relay relay) (map fresh_leaf leaves)
        (relayed_moves H.ends H.relays (relayed_start hub relay leaves) moves)
        (relayed_result H.ends H.relays hub relay leaves moves) }
    ensures same { (hub : H) (relay : H.Relay) (leaves : List H.Leaf) (moves : List Move)
        → AllPass H.ends H.relays (relayed_start hub relay leaves) moves
        → IsOver H.ends (packets_all H.ends (packets_start hub leaves) moves)
        → IsSameEnd (relayed_result H.ends H.relays hub relay leaves moves)
        (in_bytes H.ends (packets_all H.ends (packets_start hub leaves) moves)) }
    ensures bound { (hub : H) (relay : H.Relay) (leaves : List H.Leaf) (moves : List Move)
        → AllPass H.ends H.relays (relayed_start hub relay leaves) moves
        → IsOver H.ends (packets_all H.ends (packets_start hub leaves) moves)
        → (steps : List Step)
        → effective_steps (relayed_network H.ends H.relays hub relay leaves) (start (relayed_network H.ends H.relays hub relay leaves)) steps
        ≤ packet_turns H.ends (packets_start hub leaves) moves
        + packet_count (packets_all H.ends (packets_start hub leaves) moves).links
        + (traffic_bytes (length leaves) (in_bytes H.ends (packets_all H.ends (packets_start hub leaves) moves)).traffic
        + traffic_bytes (length leaves) (in_bytes H.ends (packets_all H.ends (packets_start hub leaves) moves)).traffic) }
    // Where each leaf's last turn sends, all is at its end, and nothing in flight, as soon as the hub has halted.
    ensures halted { (hub : H) (relay : H.Relay) (leaves : List H.Leaf) (moves : List Move)
        → AllPass H.ends H.relays (relayed_start hub relay leaves) moves
        → IsOver H.ends (packets_all H.ends (packets_start hub leaves) moves)
        → AllReadable H.ends (packets_start hub leaves) moves
        → ((p : ℕ) → p < length leaves → LeafEndsBySending H.ends (packets_start hub leaves) moves p)
        → (steps : List Step) (h : HubEnd H)
        → (outcome (relayed_network H.ends H.relays hub relay leaves) steps).state 0 ≡ TheHub h
        → H.ends.hub_outlook h.core ≡ HubHalts
        → IsSame (outcome (relayed_network H.ends H.relays hub relay leaves) steps)
        (relay_world (relayed_result H.ends H.relays hub relay leaves moves)) }
{}
