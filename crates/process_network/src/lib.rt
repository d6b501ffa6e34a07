//! Deterministic processes that are joined by queues of bytes, known as Kahn process networks: whatever the order of their turns
//! and of the deliveries, the result is one.
//!
//! There is no code here. Each function has an empty body, and its contract is a theorem on the definitions of `specs/`.
#![tactic(auto)]

ghost use Rattle.std.specs.Prelude.{◌≡◌, ℕ, suc, ◌<◌, ◌≤◌, ◌++◌, List, Option, None, true, length, map};
ghost use Rattle.process_network.specs.Network.{IsPrefix, Streams, Network, IsMonotone, Step, outcome, IsQuiescent, IsSmall, IsOneResult, IsMaximalRun, NodeTalk, IsHonest, turns};
ghost use Rattle.process_network.specs.Star.{Star, StarStep, IsStarMonotone, Cursors, reached, star_after, star_start, star_effective, star_effective_steps, IsStarQuiescent};
ghost use Rattle.process_network.specs.CalmRun.{Move, calm_start, calm_end, IsAtRest, IsCalmResult, IsHubLast, all_delivered, traffic_at, moves_taken};
ghost use Rattle.process_network.specs.StarTalk.{IsHubRun, IsHonestStar, StarTalk};
ghost use Rattle.process_network.specs.TellingLinks.{IsTelling, IsFixed, HubAlwaysEnds, HubSendsBounded, IsFirstFixedHub};
ghost use Rattle.process_network.specs.Rounds.{IsRound, rounds};
ghost use Rattle.process_network.specs.PacketProcesses.{IsDecided};
ghost use Rattle.process_network.specs.PacketStar.{Ends, HubOutlook, star_of, fresh_hub, fresh_leaf, packets_start, packets_all, packet_turns, in_bytes, AllReadable, IsOver, LeafEndsBySending};
ghost use Rattle.process_network.specs.PacketStar.HubOutlook.{HubHalts};

/// The state of a node. Every node of a network has the same type of state.
pub trait Node {
    /// The network of such nodes.
    ghost net: { Network Self };

    /// Does nothing.
    fn touch(&self);

    /// More received bytes change no turn that can be taken.
    ghost monotone: { IsMonotone net };
}

/// The state of a hub.
pub trait Hub {
    /// The state of a leaf.
    type Leaf;

    /// The turns of both.
    ghost star: { Star Self Self.Leaf };

    /// Does nothing.
    fn touch(&self);

    /// More received bytes change no turn that can be taken.
    ghost monotone: { IsStarMonotone star };
}

/// The state of a hub that takes and sends whole packets, without the count of the bytes that it has taken.
pub trait PacketHub {
    /// The state of a leaf that does so.
    type Leaf;

    /// What is sent. A list of bytes that no packet begins with is one too: what takes it keeps the fault, and halts.
    type Packet;

    /// What both do, and how packets are read and written.
    ghost ends: { Ends Self Self.Leaf Self.Packet };

    /// Does nothing.
    fn touch(&self);

    /// A whole packet is told by its own bytes, whatever comes behind it.
    ghost decided: { IsDecided ends.first };
}

/// Where a schedule ends with nothing left to do, every other schedule is a part of it.
pub fn every_schedule<S: Node>()
    ensures { (script : List Step) (nodes : ℕ)
        → IsQuiescent S.net (outcome S.net script)
        → IsSmall nodes (outcome S.net script) (turns S.net script)
        → IsOneResult S.net script nodes }
{}

/// Where such a schedule is there, a node alone that talks over links which give what the nodes behind them would send comes to a
/// round that gives what the next one gives.
pub fn talk_settles<S: Node>()
    ensures { (script : List Step) (nodes : ℕ)
        → IsQuiescent S.net (outcome S.net script)
        → IsSmall nodes (outcome S.net script) (turns S.net script)
        → (node : ℕ) (said : ℕ → List ℕ → List ℕ) → IsHonest S.net node said
        → (k : ℕ) × (x : Streams) × (n : ℕ) × (s : S) × (sent : Streams)
        × NodeTalk S.net node said k x × IsMaximalRun S.net node x n s sent × IsFixed said x sent }
{}

/// Where a run in which all is delivered at once comes to rest, every schedule of turns and deliveries has its result.
pub fn every_star_schedule<H: Hub>()
    ensures { (hub : H) (leaves : List H.Leaf) (moves : List Move)
        → IsAtRest H.star (calm_end H.star hub leaves moves)
        → IsCalmResult H.star hub leaves moves (calm_end H.star hub leaves moves) }
{}

/// Where each leaf's last turn sends, all is at its end as soon as the hub is.
pub fn hub_ends_last<H: Hub>()
    ensures { (hub : H) (leaves : List H.Leaf) (moves : List Move)
        → IsAtRest H.star (calm_end H.star hub leaves moves)
        → (c : Cursors H.star hub leaves) → IsHubLast H.star hub leaves c moves
        → (steps : List StarStep)
        → ((x : Streams) → H.star.hub_turn (reached H.star hub leaves steps).hub x ≡ None)
        → reached H.star hub leaves steps ≡ all_delivered (calm_end H.star hub leaves moves) }
{}

/// Where the effective steps are bounded, each of them changes something, and a schedule of rounds ends within the bound.
pub fn rounds_end<H: Hub>()
    ensures changes { (hub : H) (leaves : List H.Leaf) (most : ℕ)
        → ((steps : List StarStep) → star_effective_steps H.star (star_start hub leaves) steps ≤ most)
        → (steps : List StarStep) (s : StarStep)
        → star_effective H.star (reached H.star hub leaves steps) s ≡ true
        → star_after H.star (reached H.star hub leaves steps) s ≡ reached H.star hub leaves steps
        → ⊥ }
    ensures ends { (hub : H) (leaves : List H.Leaf) (most : ℕ)
        → ((steps : List StarStep) → star_effective_steps H.star (star_start hub leaves) steps ≤ most)
        → (lists : ℕ → List StarStep) → ((i : ℕ) → IsRound (length leaves) (lists i))
        → IsStarQuiescent H.star (reached H.star hub leaves (rounds lists (suc most))) }
{}

/// The hub alone, over links that give what the leaves would send, is where the calm run ends and has sent what it sends there, as
/// soon as no more of what its links give would move it.
pub fn hub_over_honest_links<H: Hub>()
    ensures { (hub : H) (leaves : List H.Leaf) (moves : List Move)
        → IsAtRest H.star (calm_end H.star hub leaves moves)
        → (said : ℕ → List ℕ → List ℕ) → IsHonestStar H.star leaves said
        → (x : Streams) (turns : ℕ) (h : H) (sent : Streams)
        → ((p : ℕ) → IsPrefix (x p) (traffic_at (calm_end H.star hub leaves moves).traffic p).1)
        → ((p : ℕ) → IsPrefix (x p) (said p (sent p)))
        → IsHubRun H.star (length leaves) hub x turns h sent
        → H.star.hub_turn h (λ p. said p (sent p)) ≡ None
        → (h ≡ (calm_end H.star hub leaves moves).hub)
        × ((p : ℕ) → sent p ≡ (traffic_at (calm_end H.star hub leaves moves).traffic p).0) }
{}

/// Over honest links the talk of the hub has its fixed point where the calm run ends.
pub fn talk_over_honest_links<H: Hub>()
    ensures { (hub : H) (leaves : List H.Leaf) (moves : List Move)
        → IsAtRest H.star (calm_end H.star hub leaves moves)
        → (said : ℕ → List ℕ → List ℕ) → IsHonestStar H.star leaves said
        → (k : ℕ) (x : Streams) → StarTalk H.star (length leaves) hub said k x
        → (turns : ℕ) (h : H) (sent : Streams) → IsHubRun H.star (length leaves) hub x turns h sent
        → H.star.hub_turn h x ≡ None → IsFixed said x sent
        → (h ≡ (calm_end H.star hub leaves moves).hub)
        × ((p : ℕ) → sent p ≡ (traffic_at (calm_end H.star hub leaves moves).traffic p).0)
        × ((p : ℕ) → x p ≡ (traffic_at (calm_end H.star hub leaves moves).traffic p).1) }
{}

/// Over links that only tell what they give, the talk of a hub that sends a bounded number of messages has a first fixed point.
pub fn talk_over_telling_links<H: Hub>()
    ensures { (ports : ℕ) (hub : H) (said : ℕ → List ℕ → List ℕ) → IsTelling said
        → HubAlwaysEnds H.star ports hub → HubSendsBounded H.star ports hub
        → (k : ℕ) × (x : Streams) × (turns : ℕ) × (h : H) × (sent : Streams)
        × IsFirstFixedHub H.star ports hub said k x turns h sent }
{}

/// A run of packets after which the hub has halted, and each packet was taken, gives the result of every schedule of bytes. The
/// moves that the bound counts are the turns of the run of packets.
pub fn every_packet_schedule<H: PacketHub>()
    ensures monotone { IsStarMonotone (star_of H.ends) }
    ensures result { (hub : H) (leaves : List H.Leaf) (moves : List Move)
        → AllReadable H.ends (packets_start hub leaves) moves
        → IsOver H.ends (packets_all H.ends (packets_start hub leaves) moves)
        → IsCalmResult (star_of H.ends) (fresh_hub hub (length leaves)) (map fresh_leaf leaves) moves
        (in_bytes H.ends (packets_all H.ends (packets_start hub leaves) moves)) }
    ensures turns { (hub : H) (leaves : List H.Leaf) (moves : List Move)
        → AllReadable H.ends (packets_start hub leaves) moves
        → moves_taken (star_of H.ends) (calm_start (fresh_hub hub (length leaves)) (map fresh_leaf leaves)) moves
        ≡ packet_turns H.ends (packets_start hub leaves) moves }
    ensures halted { (hub : H) (leaves : List H.Leaf) (moves : List Move)
        → AllReadable H.ends (packets_start hub leaves) moves
        → IsOver H.ends (packets_all H.ends (packets_start hub leaves) moves)
        → ((p : ℕ) → p < length leaves → LeafEndsBySending H.ends (packets_start hub leaves) moves p)
        → (steps : List StarStep)
        → H.ends.hub_outlook (reached (star_of H.ends) (fresh_hub hub (length leaves)) (map fresh_leaf leaves) steps).hub.core ≡ HubHalts
        → reached (star_of H.ends) (fresh_hub hub (length leaves)) (map fresh_leaf leaves) steps
        ≡ all_delivered (in_bytes H.ends (packets_all H.ends (packets_start hub leaves) moves)) }
{}
