//! What operands are read as.

ghost use Rattle.std.specs.Prelude.{◌≡◌, ◌<◌, ◌^◌};
ghost use Rattle.rv_asm.specs.Numbers.{decimal_numeral};
ghost use Rattle.rv_asm.specs.Readings.{unknown, below, register, csr, address};

use crate::Cause;
use crate::csrs::numbered;
use crate::numbers::{plain, ranged, read_decimal, read_number};
use crate::texts::has_name_form;
use cos_text::cut;

/// What is wrong with a text that isn't known in its place.
pub fn unknown(text: &[u8]) -> Cause
    ensures { result ≡ unknown text.now }
{
    if has_name_form(text) {
        Cause::Name
    } else {
        Cause::Syntax
    }
}

fn register_number(digits: &[u8]) -> Option<u32>
    ensures { result ≡ below 32 (decimal_numeral digits.now) }
{
    match read_decimal(digits) {
        Some(number) if number < 32 => Some(number as u32),
        _ => None,
    }
}

/// A register: x and its number.
pub fn register(text: &[u8]) -> Result<u32, Cause>
    ensures { result ≡ register text.now }
{
    match text {
        [] => Err(Cause::Syntax),
        [b'x', digits @ ..] => match register_number(digits) {
            Some(number) => Ok(number),
            None => Err(unknown(text)),
        },
        _ => Err(unknown(text)),
    }
}

/// A control register: its name or its number.
pub fn csr(text: &[u8]) -> Result<u32, Cause>
    ensures { result ≡ csr text.now }
{
    if let Some(number) = numbered(text) {
        return Ok(number);
    }
    match read_number(text) {
        Some(number) => ranged(0, 0xfff, number),
        None => Err(unknown(text)),
    }
}

/// An offset, and a register in parentheses: the register and the offset.
pub fn address(text: &[u8]) -> Result<(u32, u32), Cause>
    ensures { result ≡ address text.now }
{
    let (offset, rest) = cut(text, b'(');
    let Some(rest) = rest else {
        return Err(Cause::Syntax);
    };
    let (base, end) = cut(rest, b')');
    match end {
        Some([]) => {
            let offset = plain(2048, 2047, offset)?;
            let base = register(base)?;
            Ok((base, offset))
        }
        _ => Err(Cause::Syntax),
    }
}
