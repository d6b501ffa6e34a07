//! Words as they are put into the room that there is, each behind a blank.

ghost use Rattle.std.specs.Prelude.{◌≡◌, ◌+◌, ◌*◌, ◌≤◌, ◌++◌, ◌∷◌, [], length, decimal, map};
ghost use Rattle.rp_busaccess.specs.Bits.{fields_of};
ghost use Rattle.cos_text.specs.Numbers.{hex_text};
ghost use Rattle.rp_text.specs.Texts.{bytes_text, spaced, bus_words};
ghost use Rattle.rp_text.specs.Rooms.{hello_room, bus_room};

use cos_base::Octets;
use cos_text::{push_bytes, push_hexadecimal};
use itoa::Buffer;
use rp_packet::{BusAccess, Cfg, Hello, Interrupt};

/// Puts a number.
pub fn put_decimal(out: &mut Octets, number: u64)
    requires { 21 ≤ out.old.spare }
    ensures bytes { out.new.bytes ≡ out.old.bytes ++ 32 ∷ decimal number }
    ensures spare { out.old.spare ≤ out.new.spare + 21 }
{
    let mut buffer = Buffer::new();
    out.push_spare(b" ");
    out.push_spare(buffer.format(number).as_bytes());
}

/// Puts a number in hexadecimal.
fn put_hex(out: &mut Octets, number: u64)
    requires { 19 ≤ out.old.spare }
    ensures bytes { out.new.bytes ≡ out.old.bytes ++ 32 ∷ hex_text number }
    ensures spare { out.old.spare ≤ out.new.spare + 19 }
{
    out.push_spare(b" 0x");
    push_hexadecimal(out, number);
}

/// Puts bytes, or a minus sign where there are none.
fn put_bytes(out: &mut Octets, bytes: &[u8])
    requires { 2 + 2 * length bytes.now ≤ out.old.spare }
    ensures bytes { out.new.bytes ≡ out.old.bytes ++ 32 ∷ bytes_text bytes.now }
    ensures spare { out.old.spare ≤ out.new.spare + (2 + 2 * length bytes.now) }
{
    out.push_spare(b" ");
    match bytes {
        [] => out.push_spare(b"-"),
        _ => push_bytes(out, bytes),
    }
}

/// Puts the words of a hello.
pub fn put_hello(out: &mut Octets, hello: &Hello)
    requires { hello_room hello.now.caps ≤ out.old.spare }
    ensures bytes { out.new.bytes ≡ out.old.bytes ++ spaced (decimal hello.now.major ∷ decimal hello.now.minor ∷ map decimal hello.now.caps) }
    ensures spare { out.old.spare ≤ out.new.spare + hello_room hello.now.caps }
{
    put_decimal(out, u64::from(hello.major));
    put_decimal(out, u64::from(hello.minor));
    for cap in hello.caps.as_slice() {
        put_decimal(out, u64::from(*cap));
    }
}

/// Puts the words of a cfg packet.
pub fn put_cfg(out: &mut Octets, cfg: Cfg)
    requires { 84 ≤ out.old.spare }
    ensures bytes { out.new.bytes ≡ out.old.bytes ++ spaced (decimal cfg.opt ∷ decimal cfg.set ∷ []) }
    ensures spare { out.old.spare ≤ out.new.spare + 84 }
{
    put_decimal(out, u64::from(cfg.opt));
    put_decimal(out, u64::from(cfg.set));
}

/// Puts the words of a read or a write.
pub fn put_bus(out: &mut Octets, access: &BusAccess)
    requires { bus_room (fields_of access.now) ≤ out.old.spare }
    ensures bytes { out.new.bytes ≡ out.old.bytes ++ spaced (bus_words (fields_of access.now)) }
    ensures spare { out.old.spare ≤ out.new.spare + bus_room (fields_of access.now) }
{
    put_decimal(out, access.time);
    put_hex(out, access.attributes);
    put_hex(out, access.addr);
    put_decimal(out, u64::from(access.len));
    put_decimal(out, u64::from(access.width));
    put_decimal(out, u64::from(access.stream_width));
    put_decimal(out, access.master);
    put_bytes(out, access.payload.as_slice());
    put_bytes(out, access.enables.as_slice());
}

/// Puts the words of an interrupt.
pub fn put_interrupt(out: &mut Octets, interrupt: Interrupt)
    requires { 84 ≤ out.old.spare }
    ensures bytes { out.new.bytes ≡ out.old.bytes ++ spaced (decimal interrupt.time ∷ decimal interrupt.vector ∷ decimal interrupt.line ∷ decimal interrupt.val ∷ []) }
    ensures spare { out.old.spare ≤ out.new.spare + 84 }
{
    put_decimal(out, interrupt.time);
    put_decimal(out, interrupt.vector);
    put_decimal(out, u64::from(interrupt.line));
    put_decimal(out, u64::from(interrupt.val));
}
