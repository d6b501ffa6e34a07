// The bytes of a reply, and a reply without bytes.
ghost use Rattle.std.specs.Prelude.{◌≡◌, ◌-◌, ◌≤◌, ◌++◌, length, take, replicate};
ghost use Rattle.cosim_model.specs.Values.{padded};
ghost use Rattle.ends_model.specs.DeviceTurn.{bare_reply as plain_reply};

use cosim_model::Reply;

/// The first 64 bytes.
fn front(bytes: &[u8]) -> &[u8]
    ensures front { result.now ≡ take 64 bytes.now }
    ensures few { length result.now ≤ 64 }
{
    bytes.split_at(bytes.len().min(64)).0
}

/// The bytes, and then zeros.
fn with_zeros(bytes: &[u8]) -> [u8; 64]
    requires { length bytes.now ≤ 64 }
    ensures { result ≡ bytes.now ++ replicate (64 - length bytes.now) 0 }
{
    let mut all = [0; 64];
    all[..bytes.len()].copy_from_slice(bytes);
    all
}

/// 64 bytes: the first of these, and then zeros.
pub fn padded(bytes: &[u8]) -> [u8; 64]
    ensures { result ≡ padded bytes.now }
{
    with_zeros(front(bytes))
}

/// A reply without bytes.
pub fn bare_reply(code: u8) -> Reply
    ensures { result ≡ plain_reply code }
{
    Reply {
        code,
        size: 0,
        bytes: [0; 64],
    }
}
