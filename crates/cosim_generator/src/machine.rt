// What a number generates.
ghost use Rattle.std.specs.Prelude.{◌≡◌, length, IfOk};
ghost use Rattle.cosim_generator.specs.Programs as programs;

use crate::program::image;
use cos_base::{NoMemory, Octets};
use cos_schedules::Draws;
use std::alloc::Global;

/// The number of bytes of input.
const INPUT: usize = 64;

/// A generated machine.
#[derive(Drop)]
pub struct Generated {
    /// 1 to 500.
    pub quantum: u32,
    /// The gap between two bytes of input, 1 to 200.
    pub gap: u32,
    /// The bytes that the device of input receives.
    pub input: [u8; INPUT],
    /// The program, from the beginning of RAM on.
    pub image: Octets,
}

/// Draws each byte.
fn fill(bytes: &mut [u8], draws: &mut Draws)
    ensures bytes { bytes.new ≡ programs.drawn_bytes (length bytes.old) draws.old.x }
    ensures x { draws.new.x ≡ programs.after (length bytes.old) draws.old.x }
{
    for byte in bytes.iter_mut() {
        *byte = draws.below(256) as u8;
    }
}

/// The machine that a number generates.
pub fn generate(alloc: Global, number: u32) -> Result<Generated, NoMemory>
    ensures quantum { IfOk result (λ g. g.quantum ≡ programs.quantum_of number) }
    ensures gap { IfOk result (λ g. g.gap ≡ programs.gap_of number) }
    ensures input { IfOk result (λ g. g.input ≡ programs.input_of number) }
    ensures image { IfOk result (λ g. g.image.bytes ≡ programs.image_of (programs.program_of number)) }
{
    let mut draws = Draws {
        x: u64::from(number),
    };
    let quantum = 1 + draws.below(500);
    let gap = 1 + draws.below(200);
    let mut input = [0; INPUT];
    fill(&mut input, &mut draws);
    let image = image(alloc, &mut draws)?;
    Ok(Generated {
        quantum,
        gap,
        input,
        image,
    })
}
