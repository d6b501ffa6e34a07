// The program of a generated machine.
ghost use Rattle.std.specs.Prelude.{◌≡◌, ◌+◌, ◌*◌, ◌≤◌, ◌++◌, length, IfOk};
ghost use Rattle.std.specs.Int.{w32, to_le_bytes};
ghost use Rattle.rv_table.specs.Coding.{encoded};
ghost use Rattle.cosim_generator.specs.Programs as programs;

use cos_base::{NoMemory, Octets};
use cos_schedules::Draws;
use rv_table::{Instr, encode};
use std::alloc::Global;

const MTVEC: u32 = 0x305;

const MEPC: u32 = 0x341;

/// The number of blocks.
const BLOCKS: u32 = 4_000;

/// What stands before the blocks: the addresses of three ports and of the system block, a trap handler that skips the
/// instruction that trapped, and the settings of a copy.
fn prologue() -> [Instr; 17]
    ensures { result ≡ programs.windows ++ programs.handler ++ programs.settings }
{
    [
        Instr::Lui {
            rd: 10,
            imm: 0x1000_0000,
        },
        Instr::Lui {
            rd: 11,
            imm: 0x1000_1000,
        },
        Instr::Lui {
            rd: 12,
            imm: 0x1000_2000,
        },
        Instr::Lui {
            rd: 13,
            imm: 0x10_0000,
        },
        Instr::Jal { rd: 5, imm: 20 },
        Instr::Csrrs {
            rd: 30,
            rs1: 0,
            csr: MEPC,
        },
        Instr::Addi {
            rd: 30,
            rs1: 30,
            imm: 4,
        },
        Instr::Csrrw {
            rd: 0,
            rs1: 30,
            csr: MEPC,
        },
        Instr::Mret,
        Instr::Csrrw {
            rd: 0,
            rs1: 5,
            csr: MTVEC,
        },
        Instr::Lui {
            rd: 6,
            imm: 0x8001_0000,
        },
        Instr::Sw {
            rs1: 12,
            rs2: 6,
            imm: 0,
        },
        Instr::Lui {
            rd: 6,
            imm: 0x8001_1000,
        },
        Instr::Sw {
            rs1: 12,
            rs2: 6,
            imm: 4,
        },
        Instr::Addi {
            rd: 6,
            rs1: 0,
            imm: 256,
        },
        Instr::Sw {
            rs1: 12,
            rs2: 6,
            imm: 8,
        },
        Instr::Addi {
            rd: 7,
            rs1: 0,
            imm: 1,
        },
    ]
}

/// What stands behind the blocks: a store to the system block, and a jump to itself.
fn ending() -> [Instr; 2]
    ensures { result ≡ programs.ending }
{
    [
        Instr::Sw {
            rs1: 13,
            rs2: 0,
            imm: 0,
        },
        Instr::Jal { rd: 0, imm: 0 },
    ]
}

/// The instruction of a block, which two draws settle.
fn block(a: u32, b: u32) -> Instr
    ensures { result ≡ programs.block a b }
{
    match a % 4 {
        0 => Instr::Addi {
            rd: 8,
            rs1: 8,
            imm: b % 2048,
        },
        1 => Instr::Lw {
            rd: 9,
            rs1: 10 + b / 3 % 3,
            imm: 4 * (b % 3),
        },
        2 => Instr::Sw {
            rs1: 10 + b / 3 % 2,
            rs2: 8,
            imm: 4 * (b % 3),
        },
        _ => Instr::Sw {
            rs1: 12,
            rs2: 7,
            imm: 16,
        },
    }
}

/// Appends one instruction, in the room that there is.
fn push(image: &mut Octets, instr: Instr)
    requires { 4 ≤ image.old.spare }
    ensures bytes { image.new.bytes ≡ image.old.bytes ++ to_le_bytes w32 (encoded instr) }
    ensures spare { image.new.spare + 4 ≡ image.old.spare }
{
    image.push_spare(&encode(instr).to_le_bytes());
}

/// Appends instructions, in the room that there is.
fn push_all(image: &mut Octets, instrs: &[Instr])
    requires { 4 * length instrs.now ≤ image.old.spare }
    ensures bytes { image.new.bytes ≡ image.old.bytes ++ programs.image_of instrs.now }
    ensures spare { image.new.spare + 4 * length instrs.now ≡ image.old.spare }
{
    for instr in instrs {
        push(image, *instr);
    }
}

/// Appends so many blocks, in the room that there is.
fn push_blocks(image: &mut Octets, draws: &mut Draws, count: u32)
    requires { 4 * count ≤ image.old.spare }
    ensures bytes { image.new.bytes ≡ image.old.bytes ++ programs.image_of (programs.drawn_blocks count draws.old.x) }
    ensures spare { image.new.spare + 4 * count ≡ image.old.spare }
{
    for number in 0..count {
        let a = draws.next();
        let b = draws.next();
        push(image, block(a, b));
    }
}

/// The image of the program whose blocks the next draws settle.
pub fn image(alloc: Global, draws: &mut Draws) -> Result<Octets, NoMemory>
    ensures { IfOk result (λ image. image.bytes ≡ programs.image_of (programs.program_after draws.old.x)) }
{
    let prologue = prologue();
    let ending = ending();
    let mut image = Octets::make(alloc);
    image.reserve(4 * (prologue.len() + BLOCKS as usize + ending.len()))?;
    push_all(&mut image, &prologue);
    push_blocks(&mut image, draws, BLOCKS);
    push_all(&mut image, &ending);
    Ok(image)
}
