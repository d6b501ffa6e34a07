//! Parts of a line, as parts of its bytes.

ghost use Rattle.std.specs.Prelude.{◌≡◌};
ghost use Rattle.rv_asm.specs.Texts.{first_word, rest_of_words, trim, trim_start, trim_end, is_blank, is_name, is_name_byte, is_lower, are_name_bytes, is_mnemonic};

fn blank(byte: u8) -> bool
    ensures { result ≡ is_blank byte }
{
    byte == b' ' || byte == b'\t'
}

/// What stands before the first blank, and the rest.
pub fn cut_word(text: &[u8]) -> (&[u8], &[u8])
    ensures front { result.0.now ≡ first_word text.now }
    ensures back { result.1.now ≡ rest_of_words text.now }
{
    for i in 0..text.len() {
        if blank(text[i]) {
            return (&text[..i], &text[i..]);
        }
    }
    (text, &[])
}

fn trimmed_start(text: &[u8]) -> &[u8]
    ensures { result.now ≡ trim_start text.now }
{
    let mut rest = text;
    'blanks: while let [first, after @ ..] = rest {
        if !blank(*first) {
            break;
        }
        rest = after;
    }
    rest
}

fn trimmed_end(text: &[u8]) -> &[u8]
    ensures { result.now ≡ trim_end text.now }
{
    let mut rest = text;
    'blanks: while let [before @ .., last] = rest {
        if !blank(*last) {
            break;
        }
        rest = before;
    }
    rest
}

/// The text without the blanks at both ends.
pub fn trimmed(text: &[u8]) -> &[u8]
    ensures { result.now ≡ trim text.now }
{
    trimmed_end(trimmed_start(text))
}

fn lower(byte: u8) -> bool
    ensures { result ≡ is_lower byte }
{
    b'a' <= byte && byte <= b'z'
}

fn name_byte(byte: u8) -> bool
    ensures { result ≡ is_name_byte byte }
{
    lower(byte) || b'0' <= byte && byte <= b'9' || byte == b'_'
}

fn name_bytes(text: &[u8]) -> bool
    ensures { result ≡ are_name_bytes text.now }
{
    for byte in text {
        if !name_byte(*byte) {
            return false;
        }
    }
    true
}

/// Whether the text has the form of a name: a lower-case letter, then such letters, digits and `_`.
pub fn has_name_form(text: &[u8]) -> bool
    ensures { result ≡ is_name text.now }
{
    match text {
        [first, rest @ ..] => lower(*first) && name_bytes(rest),
        [] => false,
    }
}

/// Whether the text has the form of a mnemonic: a name, which may stand behind a full stop.
pub fn has_mnemonic_form(text: &[u8]) -> bool
    ensures { result ≡ is_mnemonic text.now }
{
    match text {
        [b'.', rest @ ..] => has_name_form(rest),
        _ => has_name_form(text),
    }
}
