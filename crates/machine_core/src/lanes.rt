// The data bytes that a bus packet enables.
ghost use Rattle.std.specs.Prelude.{◌≡◌, ◌^◌, ◌+◌, ◌<◌, ◌≤◌, length, map};
ghost use Rattle.cosim_model.specs.Values.{all_on, from_bits, masked};
ghost use Rattle.cosim_model.specs.Packets.{enabled, is_enabled, count_from};
ghost use Rattle.rp_busaccess.specs.Bits.{fields_of};

use rp_packet::BusAccess;

/// Whether so many data bytes from one on are enabled.
fn are_on(bus: &BusAccess, at: u32, count: u32) -> bool
    requires within { at + count < 4294967296 }
    ensures { result ≡ all_on (map (is_enabled bus.now.enables.bytes) (count_from at count)) }
{
    if count == 0 {
        return true;
    }
    bus.enabled(at) && are_on(bus, at + 1, count - 1)
}

/// Whether each data byte is enabled.
pub fn are_all_enabled(bus: &BusAccess) -> bool
    ensures { result ≡ all_on (enabled (fields_of bus.now)) }
{
    are_on(bus, 0, bus.len)
}

/// The enabled ones of so many data bytes from one on, as bits.
fn mask_from(bus: &BusAccess, at: u32, count: u32) -> u64
    requires few { count ≤ 64 }
    requires within { at + count < 4294967296 }
    ensures mask { result ≡ from_bits (map (is_enabled bus.now.enables.bytes) (count_from at count)) }
    ensures small { result < 2 ^ count }
{
    if count == 0 {
        return 0;
    }
    let first = if bus.enabled(at) { 1 } else { 0 };
    first + 2 * mask_from(bus, at + 1, count - 1)
}

/// The enabled data bytes as bits: byte i is bit i.
pub fn mask_of(bus: &BusAccess) -> u64
    requires { bus.now.len ≤ 64 }
    ensures { result ≡ from_bits (enabled (fields_of bus.now)) }
{
    mask_from(bus, 0, bus.len)
}

/// Puts 0 in place of each byte that isn't enabled.
pub fn clear_disabled(bus: &BusAccess, bytes: &mut [u8])
    requires { length bytes.old ≡ bus.now.len }
    ensures { bytes.new ≡ masked (enabled (fields_of bus.now)) bytes.old }
{
    for at in 0..bus.len {
        let place = at as usize;
        let byte = if bus.enabled(at) { bytes[place] } else { 0 };
        bytes[place] = byte;
    }
}
