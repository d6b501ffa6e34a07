//! The operands of a statement, by their places.

ghost use Rattle.std.specs.Prelude.{◌≡◌, ◌==◌, ◌+◌, ◌<◌, ◌≤◌, ◌^◌, option_copied, slice_get, length, cond};
ghost use Rattle.rv_asm.specs.Texts.{between_commas, operands_in};
ghost use Rattle.rv_asm.specs.Numbers.{plain};
ghost use Rattle.rv_asm.specs.Readings.{register, csr, address, read};
ghost use Rattle.rv_asm.specs.Forms.{exactly};

use crate::Cause;
use crate::numbers::plain;
use crate::readings::{address, csr, register};
use crate::texts::trimmed;
use cos_text::cut;

/// The piece at some place between commas, if there are so many.
fn piece(text: &[u8], index: usize) -> Option<&[u8]>
    ensures { option_copied result ≡ slice_get (between_commas text.now) index }
{
    let mut rest = text;
    let mut left = index;
    'commas: while 0 < left {
        match cut(rest, b',').1 {
            Some(after) => rest = after,
            None => return None,
        }
        left -= 1;
    }
    Some(cut(rest, b',').0)
}

/// The operand at some place, if there are so many. The text has no blanks at its ends.
pub fn operand(text: &[u8], index: usize) -> Option<&[u8]>
    ensures { option_copied result ≡ slice_get (operands_in text.now) index }
{
    if text.is_empty() {
        return None;
    }
    let piece = piece(text, index)?;
    Some(trimmed(piece))
}

/// 1 for a comma, and 0 for another byte.
fn comma(byte: u8) -> usize
    ensures value { result ≡ cond (byte == 44) 1 0 }
    ensures small { result ≤ 1 }
{
    if byte == b',' { 1 } else { 0 }
}

/// How many pieces stand between commas, less one.
fn commas(text: &[u8]) -> usize
    ensures count { result + 1 ≡ length (between_commas text.now) }
    ensures bound { result ≤ length text.now }
{
    let mut found = 0;
    for byte in text {
        found += comma(*byte);
    }
    found
}

/// Whether there are so many operands.
fn has_exactly(expected: usize, text: &[u8]) -> bool
    ensures { result ≡ (length (operands_in text.now) == expected) }
{
    if text.is_empty() {
        expected == 0
    } else {
        0 < expected && commas(text) == expected - 1
    }
}

/// A fault unless there are so many operands.
pub fn exactly(expected: usize, text: &[u8]) -> Result<(), Cause>
    ensures { result ≡ exactly expected (operands_in text.now) }
{
    if has_exactly(expected, text) {
        Ok(())
    } else {
        Err(Cause::Syntax)
    }
}

pub fn register_at(text: &[u8], index: usize) -> Result<u32, Cause>
    ensures { result ≡ read register (slice_get (operands_in text.now) index) }
{
    match operand(text, index) {
        Some(text) => register(text),
        None => Err(Cause::Syntax),
    }
}

pub fn csr_at(text: &[u8], index: usize) -> Result<u32, Cause>
    ensures { result ≡ read csr (slice_get (operands_in text.now) index) }
{
    match operand(text, index) {
        Some(text) => csr(text),
        None => Err(Cause::Syntax),
    }
}

pub fn address_at(text: &[u8], index: usize) -> Result<(u32, u32), Cause>
    ensures { result ≡ read address (slice_get (operands_in text.now) index) }
{
    match operand(text, index) {
        Some(text) => address(text),
        None => Err(Cause::Syntax),
    }
}

/// A number from `-low` to `high`.
pub fn plain_at(low: u64, high: u64, text: &[u8], index: usize) -> Result<u32, Cause>
    requires low { low < 2 ^ 32 }
    requires high { high < 2 ^ 32 }
    ensures { result ≡ read (plain low high) (slice_get (operands_in text.now) index) }
{
    match operand(text, index) {
        Some(text) => plain(low, high, text),
        None => Err(Cause::Syntax),
    }
}
