// The words of a line.
ghost use Rattle.std.specs.Prelude.{◌≡◌, ◌+◌, ◌≤◌, [], ◌∷◌, length, MatchOption, option_copied, option_map};
ghost use Rattle.cos_script.specs.Scripts.{parts, words, numbers};

use cos_text::read_number;

/// What stands before the first byte of this value, and what stands after it.
pub fn cut(text: &[u8], value: u8) -> (&[u8], Option<&[u8]>)
    ensures parts { MatchOption (option_copied result.1) (parts value text.now ≡ result.0.now ∷ []) (λ rest. parts value text.now ≡ result.0.now ∷ parts value rest) }
    ensures shorter { MatchOption (option_copied result.1) Unit (λ rest. length rest + 1 ≤ length text.now) }
{
    'bytes: for i in 0..text.len() {
        if text[i] == value {
            return (&text[..i], Some(&text[i + 1..]));
        }
    }
    (text, None)
}

/// One word, a number.
pub fn one(text: &[u8]) -> Option<u64>
    ensures { option_map (λ n. n ∷ []) result ≡ numbers 1 (words text.now) }
{
    let (word, rest) = cut(text, b' ');
    match rest {
        None => read_number(word),
        Some(_) => None,
    }
}

/// Two words, each a number.
fn two(text: &[u8]) -> Option<(u64, u64)>
    ensures { option_map (λ n. n.0 ∷ n.1 ∷ []) result ≡ numbers 2 (words text.now) }
{
    let (word, rest) = cut(text, b' ');
    let rest = rest?;
    let first = read_number(word)?;
    let second = one(rest)?;
    Some((first, second))
}

/// Three words, each a number.
pub fn three(text: &[u8]) -> Option<(u64, u64, u64)>
    ensures { option_map (λ n. n.0 ∷ n.1 ∷ n.2 ∷ []) result ≡ numbers 3 (words text.now) }
{
    let (word, rest) = cut(text, b' ');
    let rest = rest?;
    let first = read_number(word)?;
    let (second, third) = two(rest)?;
    Some((first, second, third))
}

/// Four words, each a number.
pub fn four(text: &[u8]) -> Option<(u64, u64, u64, u64)>
    ensures { option_map (λ n. n.0 ∷ n.1 ∷ n.2 ∷ n.3 ∷ []) result ≡ numbers 4 (words text.now) }
{
    let (word, rest) = cut(text, b' ');
    let rest = rest?;
    let first = read_number(word)?;
    let (second, third, fourth) = three(rest)?;
    Some((first, second, third, fourth))
}
