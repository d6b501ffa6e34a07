// Bytes in two hexadecimal digits each.
ghost use Rattle.std.specs.Prelude.{◌≡◌, ◌+◌, ◌*◌, ◌≤◌, ◌++◌, length};
ghost use Rattle.hex.specs.Hex.{encode_lower};

use cos_base::Octets;

/// How many bytes are encoded at a time.
const CHUNK: usize = 64;

/// Writes the digits of the bytes.
pub fn encode(bytes: &[u8], digits: &mut [u8])
    requires { length digits.old ≡ 2 * length bytes.now }
    ensures { digits.new ≡ encode_lower bytes.now }
{
    match hex::encode_to_slice(bytes, digits) {
        Ok(()) => {}
        Err(_) => unreachable!(),
    }
}

/// Appends the digits of the bytes, in the room that there is.
pub fn push_bytes(out: &mut Octets, bytes: &[u8])
    requires { 2 * length bytes.now ≤ out.old.spare }
    ensures bytes { out.new.bytes ≡ out.old.bytes ++ encode_lower bytes.now }
    ensures spare { out.new.spare + 2 * length bytes.now ≡ out.old.spare }
    ensures room { length out.new.bytes + out.new.spare ≡ length out.old.bytes + out.old.spare }
{
    let mut text = [0; 2 * CHUNK];
    let mut rest = bytes;
    while !rest.is_empty() {
        let (chunk, more) = rest.split_at(rest.len().min(CHUNK));
        let digits = &mut text[..2 * chunk.len()];
        encode(chunk, digits);
        out.push_spare(digits);
        rest = more;
    }
}
