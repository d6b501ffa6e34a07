// An access of a device's registers, as the fields of a request and back.
ghost use Rattle.std.specs.Prelude.{◌≡◌, ◌^◌, ◌+◌, ◌<◌, ◌≤◌, length, map};
ghost use Rattle.cosim_model.specs.Values as model;
ghost use Rattle.cosim_model.specs.Packets.{is_enabled, count_from};
ghost use Rattle.ends_model.specs.DeviceTurn.{access_from, is_device_size, is_whole_width};
ghost use Rattle.rp_busaccess.specs.Bits.{fields_of};

use cosim_model::Access;
use rp_packet::BusAccess;

/// The number whose bytes these are, the least significant first.
pub fn value_of(bytes: &[u8]) -> u64
    requires { length bytes.now ≤ 8 }
    ensures value { result ≡ model.le bytes.now }
    ensures small { result < 256 ^ length bytes.now }
{
    match bytes.split_first() {
        None => 0,
        Some((first, rest)) => u64::from(*first) + 256 * value_of(rest),
    }
}

/// Puts the low bytes of a number, the least significant first.
pub fn put_value(value: u64, out: &mut [u8])
    ensures { out.new ≡ model.bytes_of value (length out.old) }
{
    let mut left = value;
    for at in 0..out.len() {
        out[at] = (left % 256) as u8;
        left /= 256;
    }
}

/// The enabled ones of so many data bytes from one on, as bits.
fn lanes_from(bus: &BusAccess, at: u32, count: u32) -> u8
    requires few { count ≤ 8 }
    requires within { at + count < 4294967296 }
    ensures lanes { result ≡ model.from_bits (map (is_enabled bus.now.enables.bytes) (count_from at count)) }
    ensures small { result < 2 ^ count }
{
    if count == 0 {
        return 0;
    }
    let first = if bus.enabled(at) { 1 } else { 0 };
    first + 2 * lanes_from(bus, at + 1, count - 1)
}

/// Whether a request is one that a device serves: of 1, 2, 4 or 8 bytes, and without a narrower stream.
pub fn is_served(bus: &BusAccess) -> bool
    ensures { result ≡ is_device_size (fields_of bus.now) }
{
    matches!(bus.len, 1 | 2 | 4 | 8) && (bus.stream_width == 0 || bus.stream_width == bus.len)
}

/// The access that a request asks for.
pub fn access_of(write: bool, posted: bool, bus: &BusAccess) -> Access
    requires few { bus.now.len ≤ 8 }
    requires data { length bus.now.payload.bytes ≤ 8 }
    ensures { result ≡ access_from write posted (fields_of bus.now) }
{
    Access {
        write,
        posted,
        addr: bus.addr,
        size: bus.len as u8,
        value: value_of(bus.payload.as_slice()),
        lanes: lanes_from(bus, 0, bus.len),
    }
}
