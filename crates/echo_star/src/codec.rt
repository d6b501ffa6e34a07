//! Messages of two bytes.

ghost use Rattle.std.specs.Prelude.{◌≡◌, ◌+◌, ◌≤◌, length, drop, IfSome};
ghost use Rattle.echo_star.specs.Echoes.{first_message, with_size};

/// The message that the bytes from place `from` on begin with, if it is whole.
pub fn message_after(bytes: &[u8], from: usize) -> Option<(u8, u8)>
    ensures message { first_message (drop from bytes.now) ≡ with_size result }
    ensures inside { IfSome result (λ m. from + 2 ≤ length bytes.now) }
{
    if from > bytes.len() {
        return None;
    }
    let (_taken, rest) = bytes.split_at(from);
    if rest.len() < 2 {
        None
    } else {
        Some((rest[0], rest[1]))
    }
}
