// Accesses of registers.
ghost use Rattle.std.specs.Prelude.{◌≡◌};
ghost use Rattle.dev_line.specs.Requests as requests;

use cosim_model::{Access, Answer};

/// What an access asks of a device whose registers are words of four bytes.
#[derive(Clone, Copy, PartialEq, Eq, Debug)]
pub enum Request<R> {
    Read(R),
    Write(R, u32),
    /// The code of the answer: 1 where the access hasn't four bytes or one of them is disabled, else 2 where no register stands at
    /// its address.
    Refused(u8),
}

impl<R: Copy> Request<R> {
    ghost use Rattle.std.specs.Prelude.{◌≡◌};
    ghost use Rattle.dev_line.specs.Requests as requests;

    /// What an access asks, where `register` is the register at its address, if any.
    pub fn of(access: &Access, register: Option<R>) -> Request<R>
        ensures { result ≡ requests.request_of access.now register }
    {
        if access.size != 4 || access.lanes % 16 != 15 {
            return Request::Refused(1);
        }
        match register {
            None => Request::Refused(2),
            Some(register) => {
                if access.write {
                    Request::Write(register, low_word(access.value))
                } else {
                    Request::Read(register)
                }
            }
        }
    }
}

/// The answer of a register that was read; with value 0 also that of one that was written.
pub fn given(value: u64) -> Answer
    ensures { result ≡ requests.given value }
{
    Answer { code: 0, value }
}

/// The answer to an access that isn't done.
pub fn refused(code: u8) -> Answer
    ensures { result ≡ requests.refused code }
{
    Answer { code, value: 0 }
}

/// The low 32 bits.
pub fn low_word(value: u64) -> u32
    ensures { result ≡ requests.low_word value }
{
    (value % 4_294_967_296) as u32
}
