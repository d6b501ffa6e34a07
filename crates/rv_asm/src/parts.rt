//! The label and the statement of a line.

ghost use Rattle.std.specs.Prelude.{◌≡◌, option_copied};
ghost use Rattle.rv_asm.specs.Programs.{label_of, statement_of};

use crate::texts::{has_name_form, trimmed};
use cos_text::cut;

/// The label and the statement of a line without its comment. A line with no statement has an empty one.
pub fn parts(text: &[u8]) -> (Option<&[u8]>, &[u8])
    ensures label { option_copied result.0 ≡ label_of text.now }
    ensures statement { result.1.now ≡ statement_of text.now }
{
    let (front, rest) = cut(text, b':');
    match rest {
        Some(rest) if has_name_form(front) => (Some(front), trimmed(rest)),
        _ => (None, text),
    }
}
