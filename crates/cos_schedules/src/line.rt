// The step that a line spells.
ghost use Rattle.std.specs.Prelude.{◌≡◌, ℕ, ◌<◌, ◌^◌, ◌++◌, Some, IfSome, codes, decimal};
ghost use Rattle.cos_schedules.specs.declared.step.Step.{Step as AnyStep};
ghost use Rattle.cos_schedules.specs.Texts.{delivery_name, Spells};

use crate::{Step, Way};
use cos_text::{cut, read_decimal};

/// The number of 32 bits that a word spells.
fn number(word: &[u8]) -> Option<u32>
    ensures some { IfSome result (λ n. word.now ≡ decimal n) }
    ensures exact { (n : ℕ) → n < 2 ^ 32 → word.now ≡ decimal n → result ≡ Some n }
{
    match read_decimal(word, u64::from(u32::MAX)) {
        Some(number) => Some(number as u32),
        None => None,
    }
}

/// The number of a port that a word spells.
fn port(word: &[u8], ports: u32) -> Option<u32>
    ensures some { IfSome result (λ p. (word.now ≡ decimal p) × (p < ports)) }
    ensures exact { (p : ℕ) → p < ports → word.now ≡ decimal p → result ≡ Some p }
{
    let port = number(word)?;
    if port < ports { Some(port) } else { None }
}

/// The device's step that a line spells by this text behind the name.
fn device(text: &[u8], ports: u32) -> Option<Step>
    ensures some { IfSome result (λ s. Spells ports (codes "d " ++ text.now) s) }
    ensures exact { (s : AnyStep) → Spells ports (codes "d " ++ text.now) s → result ≡ Some s }
{
    let port = port(text, ports)?;
    Some(Step::Device { port })
}

/// The delivery that a line spells by this text behind the name.
fn delivery(text: &[u8], ports: u32, way: Way) -> Option<Step>
    ensures some { IfSome result (λ s. Spells ports (delivery_name way ++ text.now) s) }
    ensures exact { (s : AnyStep) → Spells ports (delivery_name way ++ text.now) s → result ≡ Some s }
{
    let (word, rest) = cut(text, b' ');
    let rest = rest?;
    let port = port(word, ports)?;
    let count = number(rest)?;
    Some(Step::Deliver { port, way, count })
}

/// The step that a line spells.
pub fn step_of(line: &[u8], ports: u32) -> Option<Step>
    ensures some { IfSome result (λ s. Spells ports line.now s) }
    ensures exact { (s : AnyStep) → Spells ports line.now s → result ≡ Some s }
{
    if line == b"m".as_slice() {
        return Some(Step::Machine);
    }
    if let Some(text) = line.strip_prefix(b"d ") {
        return device(text, ports);
    }
    if let Some(text) = line.strip_prefix(b"> ") {
        return delivery(text, ports, Way::Out);
    }
    if let Some(text) = line.strip_prefix(b"< ") {
        return delivery(text, ports, Way::Back);
    }
    None
}
