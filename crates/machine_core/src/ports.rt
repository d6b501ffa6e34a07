// The ports of a machine end together.
ghost use Rattle.std.specs.Prelude.{◌≡◌, map, option_map, replicate, IfOk, None};
ghost use Rattle.cosim_model.specs.Order.{least};
ghost use Rattle.cosim_model.specs.Sessions.{fresh_session};
ghost use Rattle.cosim_model.specs.Values.{all_on, all_caps, no_caps};
ghost use Rattle.cosim_model.specs.declared.session.Role.TheVariants.{Machine};
ghost use Rattle.ends_model.specs.MachineTurn.{first_true, held_time, is_clear, is_unknown, with_wait};
ghost use Rattle.machine_core.specs.Firsts.{earlier_of};

use crate::port::MachinePort;
use cos_base::NoMemory;
use std::alloc::Global;

/// Ports on which nothing went or came.
pub fn fresh_ports(alloc: Global, count: u32) -> Result<Vec<MachinePort>, NoMemory>
    ensures { IfOk result (λ ports. ports.items ≡ replicate count (record { session = fresh_session Machine all_caps no_caps; held = None; last = 0 })) }
{
    let mut ports = Vec::new(alloc);
    'ports: for _port in 0..count {
        ports.push(MachinePort::make())?;
    }
    Ok(ports)
}

/// The least port that holds no request and has not answered its sync.
pub fn first_unknown(ports: &[MachinePort]) -> Option<usize>
    ensures { result ≡ first_true (map is_unknown ports.now) }
{
    'ports: for port in 0..ports.len() {
        if ports[port].is_unknown() {
            return Some(port);
        }
    }
    None
}

/// The port itself where the request that it holds is no later than that of the port found so far, else the latter.
fn earlier(port: usize, time: Option<u64>, found: Option<(usize, u64)>) -> Option<(usize, u64)>
    ensures { result ≡ earlier_of port time found }
{
    let time = match time {
        Some(time) => time,
        None => return found,
    };
    match found {
        Some((_, least)) if least < time => found,
        _ => Some((port, time)),
    }
}

/// The port whose held request has the least time, and the least port among equals.
pub fn first_held(ports: &[MachinePort]) -> Option<usize>
    ensures { result ≡ option_map (λ r. r.0) (least (map held_time ports.now)) }
{
    let mut first: Option<(usize, u64)> = None;
    let mut port = ports.len();
    'ports: while port > 0 {
        port -= 1;
        first = earlier(port, ports[port].held_time(), first);
    }
    match first {
        Some((port, _)) => Some(port),
        None => None,
    }
}

/// Whether no port holds a request, and none has a sync out.
pub fn are_clear(ports: &[MachinePort]) -> bool
    ensures { result ≡ all_on (map is_clear ports.now) }
{
    'ports: for port in 0..ports.len() {
        if !ports[port].is_clear() {
            return false;
        }
    }
    true
}

/// Starts the count of every port's wait at 0.
pub fn begin_waits(ports: &mut [MachinePort])
    ensures { ports.new ≡ map with_wait ports.old }
{
    'ports: for port in ports.iter_mut() {
        port.begin_wait();
    }
}
