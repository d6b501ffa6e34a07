// The command.
ghost use Rattle.std.specs.Prelude.{◌≡◌, ◌++◌, [], IfOk};
ghost use Rattle.cos_base.specs.Stores.{Store};
ghost use Rattle.cos_parts.specs.AnyDevices as any_devices;
ghost use Rattle.cos_parts.specs.AnyMasters as any_masters;
ghost use Rattle.outcomes.specs.Outcomes.{Performs, Works};
ghost use Rattle.outcomes.specs.Seen.{Seen, IsUntouched, seen};
ghost use Rattle.cosim_local.specs.Steps.{direct_at};
ghost use Rattle.transcript.specs.ClosingLines.{closing_text};
ghost use Rattle.world.specs.Worlds.{EndsAfter};
ghost use Rattle.cosim_gen.specs.Generated.{GenComes, generated_start, lines_behind, settings_of};

use crate::machine::make_parts;
use crate::summary::make_summary;
use cos_base::{NoMemory, Octets, Sink};
use cos_schedules::Schedule;
use cosim_local::{Finished, Planned, run};
use outcomes::{Stop, put_text};
use std::alloc::Global;
use std::convert::Infallible;

/// Runs the machine that a number generates by the schedule of that number.
fn finish(alloc: Global, number: u32) -> Result<Finished, NoMemory>
    ensures ends { IfOk result (λ done. EndsAfter any_masters.any_model any_devices.any_model
        (Schedule.Number number) (generated_start number) done.world.effective) }
    ensures calls { IfOk result (λ done. done.world.now.hub.core.calls ≡ (direct_at (generated_start number)).calls) }
    ensures text { IfOk result (λ done. closing_text done.end ++ done.traffic.bytes ≡
        lines_behind (generated_start number) (settings_of number).ports done.world.effective) }
{
    let parts = make_parts(alloc, number)?;
    let schedule = Schedule::Number { number };
    run(alloc, Planned { parts, schedule })
}

/// The summary of the run of a number's machine.
fn summary(alloc: Global, number: u32) -> Result<Octets, NoMemory>
    ensures { IfOk result (λ text. GenComes number (Works [] text.bytes)) }
{
    let finished = finish(alloc, number)?;
    make_summary(alloc, number, &finished)
}

/// Runs the machine that a number generates as ends that exchange packets, in one process, by the schedule of that
/// number, and prints a summary of the run. Nothing is printed before the run is over.
pub fn run_generated<K: Sink>(
    alloc: Global,
    number: u32,
    out: &mut K,
) -> Result<(), Stop<Infallible>>
    ensures { (files : Seen Store) → IsUntouched files →
        Performs (GenComes number) files (seen K.count K.told out.old out.new) (K.sound out.old) (K.room out.old) result }
{
    let text = summary(alloc, number)?;
    put_text(out, text.as_slice())?;
    Ok(())
}
