// A master serves the want of a device.
ghost use Rattle.std.specs.Prelude.{◌≡◌, ◌<◌, ◌≤◌, IfOk, length};
ghost use Rattle.cosim_model.specs.Parts.{served};
ghost use Rattle.cosim_model.specs.Values.{bits_of, padded, no_bytes};
ghost use Rattle.cos_api.specs.Lanes.{bit_bytes, HasSize};

use crate::{Master, Reply, Want};
use cos_base::NoMemory;

/// The highest interrupt line.
const LAST_LINE: u32 = 31;

/// 64 zeros.
fn zeros() -> [u8; 64]
    ensures { result ≡ no_bytes }
{
    [0; 64]
}

/// One byte for each bit of a mask, the lowest first: 1 where it is set.
fn write_enables(mask: u64, out: &mut [u8])
    ensures { out.new ≡ bit_bytes mask (length out.old) }
{
    let mut left = mask;
    for at in 0..out.len() {
        out[at] = (left % 2) as u8;
        left /= 2;
    }
}

/// The bytes of a fetch, then zeros, with the code.
fn fetch<M: Master>(master: &M, addr: u64, size: u8) -> (u8, [u8; 64])
    requires { size ≤ 64 }
    ensures code { result.0 ≡ (M.model.read master.now addr size).0 }
    ensures bytes { result.1 ≡ padded (M.model.read master.now addr size).1 }
{
    let mut bytes = zeros();
    let code = master.read(addr, &mut bytes[..usize::from(size)]);
    (code, bytes)
}

/// Writes the bytes of a store that its mask enables.
fn store<M: Master>(master: &mut M, addr: u64, bytes: &[u8], mask: u64) -> Result<u8, NoMemory>
    requires some { 0 < length bytes.now }
    requires few { length bytes.now ≤ 64 }
    ensures { IfOk result (λ code. M.model.write master.old addr bytes.now (bits_of mask (length bytes.now)) ≡ (master.new, code)) }
{
    let mut enables = zeros();
    let enables = &mut enables[..bytes.len()];
    write_enables(mask, enables);
    master.write(addr, bytes, enables)
}

/// Serves a want: a fetch and a store are done, and a line below 32 is set; a line above is dropped.
pub fn serve<M: Master>(master: &mut M, want: Want) -> Result<Reply, NoMemory>
    requires { HasSize want }
    ensures { IfOk result (λ reply. served M.model master.old want ≡ (master.new, reply)) }
{
    match want {
        Want::Fetch { addr, size } => {
            let (code, bytes) = fetch(master, addr, size);
            Ok(Reply { code, size, bytes })
        }
        Want::Store {
            addr,
            size,
            bytes,
            mask,
        } => {
            let code = store(master, addr, &bytes[..usize::from(size)], mask)?;
            Ok(bare_reply(code))
        }
        Want::Line { line, level } => {
            if line <= LAST_LINE {
                master.line(line, level);
            }
            Ok(bare_reply(0))
        }
    }
}

/// A reply without bytes.
fn bare_reply(code: u8) -> Reply
    ensures { result ≡ record { code = code; size = 0; bytes = no_bytes } }
{
    Reply {
        code,
        size: 0,
        bytes: zeros(),
    }
}
