//! Numbers, as they are written.

ghost use Rattle.std.specs.Prelude.{◌≡◌, ◌≤◌, ◌<◌, ◌^◌};
ghost use Rattle.std.specs.Char.{digit_value};
ghost use Rattle.rv_asm.specs.Numbers.{numeral, numeral_after, decimal_numeral, number, kept, kept_number, plain, ranged, after_zero};

use crate::Cause;

/// Above every bound of a range. What is greater counts as this number.
pub const CAP: u64 = 0x1_0000_0000;

/// A number that is not negative, or one behind a minus sign.
#[derive(Clone, Copy)]
pub enum Number {
    Plus(u64),
    Minus(u64),
}

/// The value of a digit or a letter, 36 of any other byte.
fn digit(byte: u8) -> u64
    ensures { result ≡ digit_value byte }
{
    match byte {
        b'0'..=b'9' => u64::from(byte - b'0'),
        b'A'..=b'Z' => u64::from(byte - b'A') + 10,
        b'a'..=b'z' => u64::from(byte - b'a') + 10,
        _ => 36,
    }
}

fn digits(radix: u64, text: &[u8]) -> Option<u64>
    requires low { 1 ≤ radix }
    requires high { radix ≤ 16 }
    ensures { result ≡ kept (numeral_after radix 0 text.now) }
{
    let mut value = 0;
    for byte in text {
        let next = digit(*byte);
        if radix <= next {
            return None;
        }
        value = (value * radix + next).min(CAP);
    }
    Some(value)
}

fn some_digits(radix: u64, text: &[u8]) -> Option<u64>
    requires low { 1 ≤ radix }
    requires high { radix ≤ 16 }
    ensures { result ≡ kept (numeral radix text.now) }
{
    match text {
        [] => None,
        _ => digits(radix, text),
    }
}

/// Decimal digits without a leading zero.
pub fn read_decimal(text: &[u8]) -> Option<u64>
    ensures { result ≡ kept (decimal_numeral text.now) }
{
    match text {
        [b'0', _, ..] => None,
        _ => some_digits(10, text),
    }
}

fn read_after_zero(text: &[u8]) -> Option<Number>
    ensures { result ≡ kept_number (after_zero text.now) }
{
    match text {
        [] => Some(Number::Plus(0)),
        [b'x', rest @ ..] => Some(Number::Plus(some_digits(16, rest)?)),
        _ => None,
    }
}

/// The number that a text is, if it is one.
pub fn read_number(text: &[u8]) -> Option<Number>
    ensures { result ≡ kept_number (number text.now) }
{
    match text {
        [] => None,
        [b'-', rest @ ..] => Some(Number::Minus(read_decimal(rest)?)),
        [b'0', rest @ ..] => read_after_zero(rest),
        _ => Some(Number::Plus(read_decimal(text)?)),
    }
}

/// The word of a number from `-low` to `high`.
pub fn ranged(low: u64, high: u64, number: Number) -> Result<u32, Cause>
    requires low { low < 2 ^ 32 }
    requires high { high < 2 ^ 32 }
    ensures { result ≡ ranged low high number }
{
    match number {
        Number::Plus(magnitude) if magnitude <= high => Ok(magnitude as u32),
        Number::Minus(magnitude) if magnitude <= low => { Ok(0u32.wrapping_sub(magnitude as u32)) }
        _ => Err(Cause::Range),
    }
}

/// The word of a text where a number from `-low` to `high` stands.
pub fn plain(low: u64, high: u64, text: &[u8]) -> Result<u32, Cause>
    requires low { low < 2 ^ 32 }
    requires high { high < 2 ^ 32 }
    ensures { result ≡ plain low high text.now }
{
    match read_number(text) {
        Some(number) => ranged(low, high, number),
        None => Err(Cause::Syntax),
    }
}
