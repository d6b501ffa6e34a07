// Words as the numbers that they spell.
ghost use Rattle.std.specs.Prelude.{◌≡◌, ◌<◌, ◌≤◌, ◌^◌, ◌↔◌, ℕ, length, slice_index, decimal, IfSome, IsSome, IsTrue};
ghost use Rattle.std.specs.Char.{digit_value};
ghost use Rattle.std.specs.Str.Parse.{AllDigits, digits_value};
ghost use Rattle.cos_text.specs.Numbers as numbers;

use crate::hexadecimal::Hexadecimal;

/// The value of a digit or a letter, 36 of any other byte.
fn digit(byte: u8) -> u64
    ensures { result ≡ digit_value byte }
{
    match byte {
        b'0'..=b'9' => u64::from(byte - b'0'),
        b'A'..=b'Z' => u64::from(byte - b'A') + 10,
        b'a'..=b'z' => u64::from(byte - b'a') + 10,
        _ => 36,
    }
}

/// The number that digits of a radix are, if it is below 2^64.
fn value_of(radix: u64, digits: &[u8]) -> Option<u64>
    requires low { 2 ≤ radix }
    requires high { radix ≤ 16 }
    ensures some { IfSome result (λ n. AllDigits radix digits.now × (n ≡ digits_value radix digits.now)) }
    ensures exact { AllDigits radix digits.now → digits_value radix digits.now < 2 ^ 64 → IsSome result }
{
    let mut value: u64 = 0;
    for byte in digits {
        let next = digit(*byte);
        if next >= radix {
            return None;
        }
        value = value.checked_mul(radix)?.checked_add(next)?;
    }
    Some(value)
}

/// Whether a word isn't empty, and has no zero in front of others.
fn is_plain(word: &[u8]) -> bool
    ensures { IsTrue result ↔ ((0 < length word.now) × (slice_index word.now 0 ≡ 48 → length word.now ≡ 1)) }
{
    word.len() == 1 || !word.is_empty() && word[0] != b'0'
}

/// The number whose decimal digits a word is, if it is at most this.
pub fn read_decimal(word: &[u8], most: u64) -> Option<u64>
    ensures some { IfSome result (λ n. (n ≤ most) × (word.now ≡ decimal n)) }
    ensures exact { (n : ℕ) → n ≤ most → word.now ≡ decimal n → result ≡ Some n }
{
    if !is_plain(word) {
        return None;
    }
    let number = value_of(10, word)?;
    if number <= most { Some(number) } else { None }
}

/// The number whose hexadecimal text behind `0x` a word is, if it is below 2^64.
pub fn read_hexadecimal(word: &[u8]) -> Option<u64>
    ensures some { IfSome result (λ n. (n < 2 ^ 64) × (word.now ≡ numbers.hex_text n)) }
    ensures exact { (n : ℕ) → n < 2 ^ 64 → word.now ≡ numbers.hex_text n → result ≡ Some n }
{
    let digits = word.strip_prefix(b"0x")?;
    let number = value_of(16, digits)?;
    if Hexadecimal::of(number).as_slice() == digits {
        Some(number)
    } else {
        None
    }
}

/// The number that a text spells, in decimal or behind `0x` in hexadecimal, if it is below 2^64.
pub fn read_number(text: &[u8]) -> Option<u64>
    ensures { result ≡ numbers.number text.now }
{
    match read_decimal(text, u64::MAX) {
        Some(number) => Some(number),
        None => read_hexadecimal(text),
    }
}
