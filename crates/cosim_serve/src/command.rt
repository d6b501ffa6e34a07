// A device end that serves the link of a socket.
ghost use Rattle.std.specs.Prelude.{◌≡◌, IfSome, Some};
ghost use Rattle.cos_base.specs.Links.{IsFresh, Wire};
ghost use Rattle.outcomes.specs.Seen.{seen};
ghost use Rattle.device_turns.specs.Ends.{core_of, fresh};
ghost use Rattle.cosim_serve.specs.Talks.{ResultTalks, TalksCleanly, DoneOrMemory, served_result};
ghost use Rattle.cosim_serve.specs.Causes.{LinkBlames, BlamesNone};
ghost use Rattle.cosim_serve.specs.Serves.{Serves};

use crate::refusal::DeviceRefusal;
use cos_api::Device;
use cos_base::{Link, NetFault, Network};
use end_device::{DeviceEnd, EndFault, serve};
use outcomes::{Object, Stop};
use std::alloc::Global;

/// How the command ends by what a served link was received to.
fn result_of(port: u32, served: Result<(), EndFault>) -> Result<(), Stop<DeviceRefusal>>
    ensures { result ≡ served_result port served }
{
    match served {
        Ok(()) => Ok(()),
        Err(EndFault::Link { count }) => Err(Stop::Outside {
            object: Object::Link { port },
            count,
        }),
        Err(EndFault::NoMemory) => Err(Stop::NoMemory),
        Err(fault) => Err(Stop::Refused(DeviceRefusal::Peer { port, fault })),
    }
}

/// Serves one link by a fresh device end. `port` is what a fault is told by.
pub fn serve_link<D: Device, L: Link>(
    alloc: Global,
    end: &mut DeviceEnd<D>,
    port: u32,
    link: &mut L,
) -> Result<(), Stop<DeviceRefusal>>
    requires fresh { end.old ≡ fresh end.old.clear }
    requires unused { IfSome (L.told link.old) IsFresh }
    ensures talks { IfSome (L.told link.old) (λ w. ResultTalks D.model (core_of end.old) end.new.clear port w.said result) }
    ensures blames { LinkBlames port (L.count link.old) (L.count link.new) result }
    ensures sound { L.sound link.old → BlamesNone result }
    ensures complete { L.sound link.old → (w : Wire) → L.told link.old ≡ Some w → TalksCleanly D.model (core_of end.old) w.said → DoneOrMemory result }
{
    let served = serve(alloc, end, link);
    result_of(port, served)
}

/// Connects to a socket, serves the connection by a fresh device end, and closes it. `port` is what a fault is told by.
pub fn serve_socket<D: Device, N: Network>(
    alloc: Global,
    end: &mut DeviceEnd<D>,
    port: u32,
    socket: &str,
    net: &mut N,
) -> Result<(), Stop<DeviceRefusal>>
    requires { end.old ≡ fresh end.old.clear }
    ensures { Serves D.model (core_of end.old) end.new.clear port (record { told = N.Link.told; count = N.Link.count; is_sound = N.sound net.old }) socket.now (seen N.count N.told net.old net.new) result }
{
    match net.connect(socket) {
        Ok(link) => {
            let mut link = link;
            serve_link(alloc, end, port, &mut link)
        }
        Err(NetFault::Failed) => Err(Stop::Outside {
            object: Object::Net,
            count: net.faults(),
        }),
        Err(NetFault::NoMemory) => Err(Stop::NoMemory),
    }
}
