// A number in hexadecimal digits.
ghost use Rattle.std.specs.Prelude.{◌≡◌, ◌+◌, ◌≤◌, ◌<◌, ◌++◌, length, false};
ghost use Rattle.std.specs.Fmt.{digit_glyph};
ghost use Rattle.cos_text.specs.Numbers.{hexadecimal};

use cos_base::Octets;
use std::marker::Model;

/// The digits of a number, in lower case and without leading zeros, made on the stack. Contracts see the list of their bytes.
#[derive(Drop)]
pub struct Hexadecimal {
    digits: [u8; 16],
    start: usize,
}

impl Model for Hexadecimal {
    ghost use Rattle.std.specs.Prelude.{ℕ, ◌≤◌, List, drop};

    ghost Value = { List ℕ };

    ghost view = { λ h. drop h.start h.digits };

    ghost invariant = { λ h. h.start ≤ 16 };
}

fn digit(value: u64) -> u8
    requires { value < 16 }
    ensures { result ≡ digit_glyph false value }
{
    if value < 10 {
        b'0' + value as u8
    } else {
        b'a' + (value as u8 - 10)
    }
}

impl Hexadecimal {
    /// The digits of this number.
    pub fn of(number: u64) -> Hexadecimal
        ensures { result ≡ hexadecimal number }
    {
        let mut digits = [0; 16];
        let mut start = 15;
        let mut front = number;
        'digits: while front >= 16 {
            digits[start] = digit(front % 16);
            front /= 16;
            start -= 1;
        }
        digits[start] = digit(front);
        Hexadecimal { digits, start }
    }

    /// The bytes.
    pub fn as_slice(&self) -> &[u8]
        ensures bytes { result.now ≡ self.now }
        ensures short { length result.now ≤ 16 }
    {
        &self.digits[self.start..]
    }
}

/// Appends the digits of a number, in the room that there is.
pub fn push_hexadecimal(out: &mut Octets, number: u64)
    requires { 16 ≤ out.old.spare }
    ensures bytes { out.new.bytes ≡ out.old.bytes ++ hexadecimal number }
    ensures spare { out.old.spare ≤ out.new.spare + 16 }
    ensures room { length out.new.bytes + out.new.spare ≡ length out.old.bytes + out.old.spare }
{
    out.push_spare(Hexadecimal::of(number).as_slice());
}
