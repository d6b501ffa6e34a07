ghost use Rattle.std.specs.Prelude.{◌≡◌, ◌&&◌};
ghost use Rattle.cosim_model.specs.Packets.{lists, caps_of as listed_caps};

use crate::hello::Hello;
use cosim_model::Caps;

/// The capabilities that a hello names. Others than 1, 2 and 3 are ignored.
pub fn caps_of(hello: &Hello) -> Caps
    ensures { result ≡ listed_caps hello.now.caps }
{
    let numbers = hello.caps.as_slice();
    Caps {
        base: is_listed(numbers, 1),
        enables: is_listed(numbers, 2),
        posted: is_listed(numbers, 3),
    }
}

/// The capabilities that both sides have.
pub fn common(ours: Caps, theirs: Caps) -> Caps
    ensures { result ≡ record { base = ours.base && theirs.base; enables = ours.enables && theirs.enables; posted = ours.posted && theirs.posted } }
{
    Caps {
        base: ours.base && theirs.base,
        enables: ours.enables && theirs.enables,
        posted: ours.posted && theirs.posted,
    }
}

fn is_listed(numbers: &[u32], number: u32) -> bool
    ensures { result ≡ lists number numbers.now }
{
    numbers.contains(&number)
}
