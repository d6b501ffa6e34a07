// Which want is served first.
ghost use Rattle.std.specs.Prelude.{◌≡◌};
ghost use Rattle.direct_machine.specs.Wants.{first_port, wanted_at, earlier_of};

use cos_api::Device;

/// The port whose want is served first: that of the least due time, and the least port among equals.
pub fn first_wanting<D: Device>(devices: &[D]) -> Option<usize>
    ensures { result ≡ first_port D.model devices.now }
{
    let mut first: Option<(usize, u64)> = None;
    let mut port = devices.len();
    'ports: while port > 0 {
        port -= 1;
        first = earlier(port, &devices[port], first);
    }
    match first {
        Some((port, _)) => Some(port),
        None => None,
    }
}

/// The port itself where its device's want is due no later than that of the port found so far, else the latter.
fn earlier<D: Device>(port: usize, device: &D, found: Option<(usize, u64)>) -> Option<(usize, u64)>
    ensures { result ≡ earlier_of port (wanted_at D.model device.now) found }
{
    if device.left() == 0 {
        return found;
    }
    let due = device.due();
    match found {
        Some((_, least)) if least < due => found,
        _ => Some((port, due)),
    }
}
