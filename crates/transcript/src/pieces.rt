// The pieces that lines are made of. They are appended in room that is there, without asking for memory.
ghost use Rattle.std.specs.Prelude.{◌≡◌, ◌+◌, ◌≤◌, ◌++◌, length};

use cos_base::Octets;
use cos_text::{push_bytes, push_hexadecimal};
use itoa::Buffer;

/// A piece of a line.
#[derive(Clone, Copy)]
pub enum Piece<'a> {
    /// A text as it stands.
    Text(&'a str),
    /// A number in decimal digits.
    Decimal(u64),
    /// A number in hexadecimal digits, without leading zeros.
    Hexadecimal(u64),
    /// A word in eight hexadecimal digits.
    Word(u32),
    /// Bytes, in two hexadecimal digits each.
    Bytes(&'a [u8]),
}

impl Piece<'_> {
    ghost use Rattle.transcript.specs.Pieces.{piece_text, piece_room, pieces_text, pieces_room};

    /// Appends the piece.
    fn push(&self, out: &mut Octets)
        requires { piece_room self.now ≤ out.old.spare }
        ensures bytes { out.new.bytes ≡ out.old.bytes ++ piece_text self.now }
        ensures spare { out.old.spare ≤ out.new.spare + piece_room self.now }
        ensures room { length out.new.bytes + out.new.spare ≡ length out.old.bytes + out.old.spare }
    {
        match *self {
            Piece::Text(text) => out.push_spare(text.as_bytes()),
            Piece::Decimal(number) => {
                let mut buffer = Buffer::new();
                out.push_spare(buffer.format(number).as_bytes());
            }
            Piece::Hexadecimal(number) => push_hexadecimal(out, number),
            Piece::Word(number) => push_bytes(out, &number.to_be_bytes()),
            Piece::Bytes(bytes) => push_bytes(out, bytes),
        }
    }

    /// Appends pieces, one after another.
    pub fn push_all(out: &mut Octets, pieces: &[Piece<'_>])
        requires { pieces_room pieces.now ≤ out.old.spare }
        ensures bytes { out.new.bytes ≡ out.old.bytes ++ pieces_text pieces.now }
        ensures spare { out.old.spare ≤ out.new.spare + pieces_room pieces.now }
        ensures room { length out.new.bytes + out.new.spare ≡ length out.old.bytes + out.old.spare }
    {
        for piece in pieces {
            piece.push(out);
        }
    }
}
