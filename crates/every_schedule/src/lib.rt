//! The two ends of a link and the machine that calls its devices directly: whatever the order of turns and deliveries, the ends do
//! what the direct machine does.
//!
//! What the ends are stands in the definitions of `ends_model`, over those of `cosim_model`. Nothing here runs: the theorem is the contract of a function with an
//! empty body.
#![tactic(auto)]

ghost use Rattle.std.specs.Prelude.{◌≡◌, ℕ, ◌≤◌, List, ◌++◌, get_or, Option, IsSome};
ghost use Rattle.process_network.specs.Network.{Streams};
ghost use Rattle.process_network.specs.StarTalk.{IsHubRun, IsLeafRun};
ghost use Rattle.process_network.specs.TellingLinks.{IsTelling, IsFirstFixedHub};
ghost use Rattle.process_network.specs.PacketStar.{HubEnd, LeafEnd, star_of, fresh_hub, fresh_leaf};
ghost use Rattle.cosim_model.specs.declared.values.Plan.{Plan};
ghost use Rattle.cosim_model.specs.Parts.{DeviceModel, MasterModel, IsDevice, IsMaster};
ghost use Rattle.cosim_model.specs.Packets.{Decoded, Codec, IsCodec};
ghost use Rattle.cosim_model.specs.Streams.{IsMalformedAt, HasTaken, kept_cause};
ghost use Rattle.ends_model.specs.Answers.{machine_answer};
ghost use Rattle.ends_model.specs.DeviceTurn.{DeviceEnd};
ghost use Rattle.ends_model.specs.MachineTurn.{MachineEnd};
ghost use Rattle.ends_model.specs.World.{Side, Fit, ends, device_start, machine_start};
ghost use Rattle.every_schedule.specs.Places.{cause_at};
ghost use Rattle.every_schedule.specs.Schedules.{IsEverySchedule, HasRoom, IsBounded, DrivesWell};

/// A master, a device and a codec that keep their laws.
///
/// Masters of several kinds are one type here, an enum of them, and so are devices.
pub trait System {
    /// The state of a master.
    type Master;

    /// The state of a device.
    type Device;

    /// Why bytes are no packet.
    type Cause;

    /// The calls of the master.
    ghost master: { MasterModel Self.Master };

    /// The calls of a device.
    ghost device: { DeviceModel Self.Device };

    /// How packets are written and read.
    ghost codec: { Codec Self.Cause };

    /// Does nothing.
    fn touch(&self);

    ghost master_laws: { IsMaster master };

    ghost device_laws: { IsDevice device };

    ghost codec_laws: { IsCodec codec };
}

/// Every schedule of turns and deliveries has one result, that of the direct machine.
///
/// It speaks of any plan, any master and any devices that fit, each with what its end offers, and of every list of steps.
/// `schedules`: what was sent and called is a beginning of the traffic and the calls of the direct machine, no end has a fault, some
/// step is effective unless all is done, and when the machine end is done everything is equal and nothing is in flight. `room`:
/// whenever the machine end sends on a port, at most one packet of its device end isn't taken yet, one that can be written, of at most
/// 208 bytes. `bounded`: how many steps can be effective. `over_links`: the machine end alone, over links that give what the device
/// ends would send, ends done and has sent the traffic.
pub fn every_schedule<M: System>()
    ensures schedules { (plan : Plan) (m : M.Master) (xs : List (Side × M.Device))
        → Fit M.master M.device plan m xs
        → IsEverySchedule M.master M.device M.codec plan m xs }
    ensures room { (plan : Plan) (m : M.Master) (xs : List (Side × M.Device))
        → Fit M.master M.device plan m xs
        → HasRoom M.master M.device M.codec plan m xs }
    ensures bounded { (plan : Plan) (m : M.Master) (xs : List (Side × M.Device))
        → Fit M.master M.device plan m xs
        → IsBounded M.master M.device M.codec plan m xs }
    ensures over_links { (plan : Plan) (m : M.Master) (xs : List (Side × M.Device))
        → Fit M.master M.device plan m xs
        → DrivesWell M.master M.device M.codec plan m xs }
{}

/// Where an end keeps a malformed packet as its fault, it stands in what was received right behind the packets that the end took.
///
/// `device` and `machine`: what an end has taken, after any number of turns over the same received bytes, are packets; or packets and
/// then the malformed one that it keeps. `one_place`: received bytes are malformed at one place, for one cause. `lasting`: more bytes
/// behind don't change that.
pub fn malformed_place<M: System>()
    ensures device { (side : Side) (s : M.Device) (x : List ℕ) (turns : ℕ) (l : LeafEnd (DeviceEnd M.Device M.Cause)) (sent : List ℕ)
        → IsLeafRun (star_of (ends M.master M.device M.codec)) (fresh_leaf (device_start M.Cause side s)) x turns l sent
        → HasTaken M.codec x l.taken (kept_cause l.core.fault) }
    ensures machine { (plan : Plan) (m : M.Master) (ports : ℕ) (x : Streams) (turns : ℕ) (h : HubEnd (MachineEnd M.Master M.Cause)) (sent : Streams)
        → IsHubRun (star_of (ends M.master M.device M.codec)) ports (fresh_hub (machine_start M.Cause m ports plan) ports) x turns h sent
        → (p : ℕ) → HasTaken M.codec (x p) (get_or h.taken p 0) (cause_at p h.core.fault) }
    ensures one_place { (x : List ℕ) (start other : ℕ) (cause another : M.Cause)
        → IsMalformedAt M.codec x start cause → IsMalformedAt M.codec x other another → (start ≡ other) × (cause ≡ another) }
    ensures lasting { (x more : List ℕ) (start : ℕ) (cause : M.Cause)
        → IsMalformedAt M.codec x start cause → IsMalformedAt M.codec (x ++ more) start cause }
{}

/// Over any links that tell what they give, honest or not, the talk of a machine end with them has a last round, and ends there.
///
/// So whatever its links give, a machine end comes to phase Done, to a fault, or to a wait for bytes that never come. The round is the
/// first that gives what the next one gives.
pub fn talk_ends<M: System>()
    ensures { (plan : Plan) (m : M.Master) (ports : ℕ) (said : ℕ → List ℕ → List ℕ) → IsTelling said
        → (rounds : ℕ) × (x : Streams) × (turns : ℕ) × (h : HubEnd (MachineEnd M.Master M.Cause)) × (sent : Streams)
        × IsFirstFixedHub (star_of (ends M.master M.device M.codec)) ports (fresh_hub (machine_start M.Cause m ports plan) ports) said rounds x turns h sent }
{}

/// After any run of a machine end over any received bytes, its next turn has an answer: each port that its phase or its master names is
/// there, and where it serves, a request is held.
pub fn turns_answer<M: System>()
    ensures { (plan : Plan) (m : M.Master) (ports : ℕ) → M.master.reach m ≤ ports
        → (x : Streams) (turns : ℕ) (h : HubEnd (MachineEnd M.Master M.Cause)) (sent : Streams)
        → IsHubRun (star_of (ends M.master M.device M.codec)) ports (fresh_hub (machine_start M.Cause m ports plan) ports) x turns h sent
        → (whole : ℕ → Option (Decoded M.Cause)) → IsSome (machine_answer M.master h.core whole) }
{}
