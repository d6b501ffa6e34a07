// What a bus hands back for an access.
ghost use Rattle.std.specs.Prelude.{◌≡◌, ◌^◌, ◌<◌, ◌≤◌};
ghost use Rattle.cosim_model.specs.Values as model;

use cosim_model::{Access, Answer};

/// The greatest code that a bus hands on.
const MOST_CODE: u8 = 15;

/// The low bytes of a value, so many as there are lanes, with 0 in place of each whose lane is off.
fn enabled_bytes(lanes: u8, size: u8, value: u64) -> u64
    requires { size ≤ 8 }
    ensures bytes { result ≡ model.le (model.masked (model.bits_of lanes size) (model.bytes_of value size)) }
    ensures small { result < 256 ^ size }
{
    if size == 0 {
        return 0;
    }
    let rest = enabled_bytes(lanes / 2, size - 1, value / 256);
    let byte = if lanes % 2 == 1 { value % 256 } else { 0 };
    byte + 256 * rest
}

/// What a bus hands back for an access that a device answered: no code above 15, no value where nothing was read, and no byte
/// that wasn't asked for. Nobody waits for a posted write, so its code is 0.
pub fn plain(access: Access, answer: Answer) -> Answer
    requires { access.size ≤ 8 }
    ensures { result ≡ model.plain access answer }
{
    if access.write && access.posted {
        return Answer { code: 0, value: 0 };
    }
    let code = if answer.code <= MOST_CODE {
        answer.code
    } else {
        1
    };
    if access.write || code != 0 {
        return Answer { code, value: 0 };
    }
    Answer {
        code,
        value: enabled_bytes(access.lanes, access.size, answer.value),
    }
}
