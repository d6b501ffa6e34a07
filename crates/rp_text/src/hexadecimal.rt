//! Bytes as they are read.

ghost use Rattle.std.specs.Prelude.{◌≡◌, ◌≤◌, ◌+◌, ◌*◌, ◌/◌, ℕ, List, [], length, IsTrue, IfOk, MatchResult};
ghost use Rattle.std.specs.Str.{bytes_eq};
ghost use Rattle.hex.specs.Hex.{encode_lower};
ghost use Rattle.rp_header.specs.Numbers.{AreBytes};
ghost use Rattle.rp_text.specs.Texts.{bytes_text};
ghost use Rattle.rp_text.specs.declared.fault.LineFault.TheVariants.{NoMemory as WantOfMemory};

use crate::fault::LineFault;
use cos_base::Octets;
use cos_text::encode;
use std::alloc::Global;

/// How many bytes are decoded at a time.
const CHUNK: usize = 64;

/// The bytes that a word stands for.
pub fn read_bytes(alloc: Global, word: &[u8]) -> Result<Octets, LineFault>
    ensures ok { IfOk result (λ o. (word.now ≡ bytes_text o.bytes) × AreBytes o.bytes) }
    ensures exact { (bs : List ℕ) → AreBytes bs → word.now ≡ bytes_text bs → MatchResult result (λ o. o.bytes ≡ bs) (λ e. e ≡ WantOfMemory) }
{
    let mut bytes = Octets::make(alloc);
    if word == b"-".as_slice() {
        return Ok(bytes);
    }
    if word.is_empty() {
        return Err(LineFault::Line);
    }
    bytes.reserve(word.len() / 2)?;
    if decode(word, &mut bytes) {
        Ok(bytes)
    } else {
        Err(LineFault::Line)
    }
}

/// Puts the bytes of lower-case digits into the room that there is, if they are such.
fn decode(digits: &[u8], out: &mut Octets) -> bool
    requires empty { out.old.bytes ≡ [] }
    requires room { length digits.now ≤ 2 * out.old.spare + 1 }
    ensures ok { IsTrue result → (digits.now ≡ encode_lower out.new.bytes) × AreBytes out.new.bytes }
    ensures exact { (bs : List ℕ) → AreBytes bs → digits.now ≡ encode_lower bs → IsTrue result × (out.new.bytes ≡ bs) }
{
    let mut buffer = [0; CHUNK];
    let mut rest = digits;
    while !rest.is_empty() {
        let (chunk, more) = rest.split_at(rest.len().min(2 * CHUNK));
        let bytes = &mut buffer[..chunk.len() / 2];
        if !decode_chunk(chunk, bytes) {
            return false;
        }
        out.push_spare(bytes);
        rest = more;
    }
    true
}

/// Writes the bytes of lower-case digits, if they are such.
fn decode_chunk(digits: &[u8], bytes: &mut [u8]) -> bool
    requires half { length bytes.old ≡ length digits.now / 2 }
    requires few { length bytes.old ≤ 64 }
    ensures ok { IsTrue result → (digits.now ≡ encode_lower bytes.new) × AreBytes bytes.new }
    ensures exact { (bs : List ℕ) → AreBytes bs → digits.now ≡ encode_lower bs → IsTrue result × (bytes.new ≡ bs) }
{
    match hex::decode_to_slice(digits, bytes) {
        Ok(()) => is_text_of(digits, bytes),
        Err(_) => false,
    }
}

/// Whether these are the lower-case digits of the bytes.
fn is_text_of(digits: &[u8], bytes: &[u8]) -> bool
    requires { length bytes.now ≤ 64 }
    ensures { result ≡ bytes_eq (encode_lower bytes.now) digits.now }
{
    let mut text = [0; 2 * CHUNK];
    let again = &mut text[..2 * bytes.len()];
    encode(bytes, again);
    &*again == digits
}
