// The lines of a text.
ghost use Rattle.std.specs.Prelude.{◌≡◌, ◌+◌, ◌≤◌, ◌∷◌, length, option_copied};
ghost use Rattle.cos_text.specs.Lines.{lines, before, after};

/// What stands before the first byte of this value, and what stands after it.
pub fn cut(text: &[u8], value: u8) -> (&[u8], Option<&[u8]>)
    ensures front { result.0.now ≡ before value text.now }
    ensures back { option_copied result.1 ≡ after value text.now }
{
    for i in 0..text.len() {
        if text[i] == value {
            return (&text[..i], Some(&text[i + 1..]));
        }
    }
    (text, None)
}

/// The first line of a text that isn't empty, and the rest of the text.
pub fn first_line(text: &[u8]) -> (&[u8], &[u8])
    requires { 1 ≤ length text.now }
    ensures lines { lines text.now ≡ result.0.now ∷ lines result.1.now }
    ensures shorter { length result.1.now + 1 ≤ length text.now }
{
    let (line, rest) = cut(text, b'\n');
    match rest {
        Some(rest) => (line, rest),
        None => (line, &[]),
    }
}
