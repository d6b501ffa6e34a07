//! The theorem on schedules, at the masters and devices of this repository and at its packets: it holds of every configuration that
//! breaks no rule, whatever its files hold.
//!
//! Nothing here runs: the theorem is the contract of a function with an empty body.
#![tactic(auto)]

ghost use Rattle.std.specs.Prelude.{◌≡◌, ℕ, List, map, Ok};
ghost use Rattle.cos_base.specs.Stores.{Store};
ghost use Rattle.cos_config.specs.declared.config.Config.{Config};
ghost use Rattle.cos_config.specs.declared.config.PortConfig.{PortConfig};
ghost use Rattle.cos_config.specs.declared.config.Sockets.{Sockets};
ghost use Rattle.cosim_inputs.specs.Fresh.{master_of, devices_of};
ghost use Rattle.cosim_inputs.specs.Judging.{judged};
ghost use Rattle.cos_parts.specs.AnyMasters as masters;
ghost use Rattle.cos_parts.specs.AnyDevices as devices;
ghost use Rattle.cos_parts.specs.declared.any_device.AnyDevice.{AnyDevice};
ghost use Rattle.rp_packet.specs.Streams.{packet_codec};
ghost use Rattle.ends_model.specs.World.{Side, Fit};
ghost use Rattle.every_schedule.specs.Schedules.{IsEverySchedule, HasRoom, IsBounded, DrivesWell};
ghost use Rattle.cos_config.specs.Plans.{plan_of};
ghost use Rattle.shipped_runs.specs.Ports.{ports_of};

use cos_parts::{AnyDevice, AnyMaster};
use every_schedule::{System, every_schedule};
use rp_packet::Cause;

/// The system of this repository's masters, devices and packets.
pub struct Shipped;

impl System for Shipped {
    ghost use Rattle.cos_parts.specs.AnyMasters as masters;
    ghost use Rattle.cos_parts.specs.AnyDevices as devices;
    ghost use Rattle.rp_packet.specs.Streams.{packet_codec};
    ghost use Rattle.rp_packet.specs.CodecLaws.{codec-laws};

    type Master = AnyMaster;

    type Device = AnyDevice;

    type Cause = Cause;

    ghost master = { masters.any_model };

    ghost device = { devices.any_model };

    ghost codec = { packet_codec };

    fn touch(&self) {}

    ghost master_laws = { masters.any_lawful };

    ghost device_laws = { devices.any_lawful };

    ghost codec_laws = { codec-laws };
}

/// The master and the devices of a configuration that breaks no rule go together, at reset and whatever its files hold. They are
/// those that the command `direct` runs.
pub fn shipped_parts_fit()
    ensures devices { (files : Store) (ports : List PortConfig) → map (λ (x : Side × AnyDevice). x.1) (ports_of files ports) ≡ devices_of files ports }
    ensures fit { (sockets : Sockets) (text : List ℕ) (c : Config) (files : Store) → judged sockets text ≡ Ok c
        → Fit masters.any_model devices.any_model (plan_of c) (master_of files c) (ports_of files c.ports) }
{}

/// Every schedule of turns and deliveries of its machine end and its device ends has one result, that of its direct machine. The
/// clauses are those of `every_schedule`.
pub fn shipped_runs()
    ensures schedules { (sockets : Sockets) (text : List ℕ) (c : Config) (files : Store) → judged sockets text ≡ Ok c
        → IsEverySchedule masters.any_model devices.any_model packet_codec (plan_of c) (master_of files c) (ports_of files c.ports) }
    ensures room { (sockets : Sockets) (text : List ℕ) (c : Config) (files : Store) → judged sockets text ≡ Ok c
        → HasRoom masters.any_model devices.any_model packet_codec (plan_of c) (master_of files c) (ports_of files c.ports) }
    ensures bounded { (sockets : Sockets) (text : List ℕ) (c : Config) (files : Store) → judged sockets text ≡ Ok c
        → IsBounded masters.any_model devices.any_model packet_codec (plan_of c) (master_of files c) (ports_of files c.ports) }
    ensures over_links { (sockets : Sockets) (text : List ℕ) (c : Config) (files : Store) → judged sockets text ≡ Ok c
        → DrivesWell masters.any_model devices.any_model packet_codec (plan_of c) (master_of files c) (ports_of files c.ports) }
{
    every_schedule::<Shipped>();
}
