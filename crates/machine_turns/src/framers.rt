// The framers of a machine end.
ghost use Rattle.std.specs.Prelude.{◌≡◌, replicate, IfOk, None, []};

use cos_base::NoMemory;
use rp_framing::Framer;
use std::alloc::Global;

/// Framers that hold nothing.
pub fn fresh_framers(alloc: Global, count: u32) -> Result<Vec<Framer>, NoMemory>
    ensures { IfOk result (λ framers. framers.items ≡ replicate count (record { held = []; taken = 0; room = 0; kept = None })) }
{
    let mut framers = Vec::new(alloc);
    'framers: for _port in 0..count {
        framers.push(Framer::make(alloc))?;
    }
    Ok(framers)
}
