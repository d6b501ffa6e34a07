//! Targets of branches and jumps.

ghost use Rattle.std.specs.Prelude.{◌≡◌, ◌<◌, ◌^◌, slice_get};
ghost use Rattle.rv_asm.specs.Texts.{operands_in};
ghost use Rattle.rv_asm.specs.Numbers.{kept_one};
ghost use Rattle.rv_asm.specs.Readings.{distance, is_even, reached, target, read};
ghost use Rattle.rv_asm.specs.Labelled.{lines_of};

use crate::Cause;
use crate::labels::Labels;
use crate::numbers::{CAP, Number, ranged, read_number};
use crate::operands::operand;
use crate::texts::has_name_form;

/// The distance in bytes from one address to another.
fn distance(source: u128, goal: u128) -> Number
    ensures { result ≡ kept_one (distance source goal) }
{
    if source <= goal {
        Number::Plus((goal - source).min(u128::from(CAP)) as u64)
    } else {
        Number::Minus((source - goal).min(u128::from(CAP)) as u64)
    }
}

fn even(number: Number) -> bool
    ensures { result ≡ is_even number }
{
    match number {
        Number::Plus(magnitude) => magnitude % 2 == 0,
        Number::Minus(magnitude) => magnitude % 2 == 0,
    }
}

/// The word of an even distance from `-low` to `high`.
fn reached(low: u64, high: u64, number: Number) -> Result<u32, Cause>
    requires low { low < 2 ^ 32 }
    requires high { high < 2 ^ 32 }
    ensures { result ≡ reached low high number }
{
    if even(number) {
        ranged(low, high, number)
    } else {
        Err(Cause::Range)
    }
}

/// A target from `-low` to `high` bytes from the line at this address: a distance or a label.
fn target(labels: &Labels, source: u128, low: u64, high: u64, text: &[u8]) -> Result<u32, Cause>
    requires low { low < 2 ^ 32 }
    requires high { high < 2 ^ 32 }
    ensures { result ≡ target (lines_of labels.now) source low high text.now }
{
    if let Some(number) = read_number(text) {
        return reached(low, high, number);
    }
    if !has_name_form(text) {
        return Err(Cause::Syntax);
    }
    match labels.find(text) {
        Some(place) => reached(low, high, distance(source, place.address)),
        None => Err(Cause::Name),
    }
}

/// The target at some place among the operands.
pub fn target_at(
    labels: &Labels,
    source: u128,
    low: u64,
    high: u64,
    text: &[u8],
    index: usize,
) -> Result<u32, Cause>
    requires low { low < 2 ^ 32 }
    requires high { high < 2 ^ 32 }
    ensures { result ≡ read (target (lines_of labels.now) source low high) (slice_get (operands_in text.now) index) }
{
    match operand(text, index) {
        Some(text) => target(labels, source, low, high, text),
        None => Err(Cause::Syntax),
    }
}
