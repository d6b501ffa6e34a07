//! The rows of the instruction table, as what they do with a hart.

ghost use Rattle.std.specs.Prelude.{◌≡◌, ◌<◌, ◌*◌, true, Some, None};
ghost use Rattle.std.specs.Int.{w32};
ghost use Rattle.rv_table.specs.Coding.{IsWithin};
ghost use Rattle.rv_core.specs.Operations.{flag as flag_of, is_less_signed, shift_right_signed, sign_extended, low_bits};
ghost use Rattle.rv_core.specs.Rows.{next_pc, sets, continues, jumps, branches, loads, stores, updates_csr, unless_zero, performed, completed, makes_access, IsLawful};

use crate::effect::{Effect, Update};
use crate::{Hart, HartAccess};
use rv_table::Instr;
use rv_traps::is_writable;

/// Cause of a jump to an address that isn't a multiple of 4.
const MISALIGNED_FETCH: u32 = 0;
/// Cause of a word that is no instruction, or of an access to a control register that isn't allowed.
const ILLEGAL_INSTRUCTION: u32 = 2;
/// Cause of EBREAK.
const BREAKPOINT: u32 = 3;
/// Cause of a load from an address that isn't a multiple of its size.
const MISALIGNED_LOAD: u32 = 4;
/// Cause of a load that was refused.
const LOAD_FAULT: u32 = 5;
/// Cause of a store to an address that isn't a multiple of its size.
const MISALIGNED_STORE: u32 = 6;
/// Cause of a store that was refused.
const STORE_FAULT: u32 = 7;
/// Cause of ECALL.
const CALL_FROM_MACHINE: u32 = 11;

/// A register takes a value, and the next instruction follows.
#[inline]
fn set(hart: &Hart, rd: u32, value: u32) -> Effect
    requires { rd < 32 }
    ensures effect { result ≡ sets hart.now rd value }
    ensures lawful { IsLawful result }
{
    Effect::Goes {
        rd,
        value,
        pc: hart.pc.wrapping_add(4),
    }
}

/// The next instruction follows.
#[inline]
fn go_on(hart: &Hart) -> Effect
    ensures effect { result ≡ continues hart.now }
    ensures lawful { IsLawful result }
{
    set(hart, 0, 0)
}

/// A jump to a target.
#[inline]
fn jump(hart: &Hart, rd: u32, target: u32) -> Effect
    requires { rd < 32 }
    ensures effect { result ≡ jumps hart.now rd target }
    ensures lawful { IsLawful result }
{
    if target % 4 == 0 {
        Effect::Goes {
            rd,
            value: hart.pc.wrapping_add(4),
            pc: target,
        }
    } else {
        trap(MISALIGNED_FETCH, target)
    }
}

/// A branch by an offset, where it is taken.
#[inline]
fn branch(hart: &Hart, taken: bool, offset: u32) -> Effect
    ensures effect { result ≡ branches hart.now taken offset }
    ensures lawful { IsLawful result }
{
    if taken {
        jump(hart, 0, hart.pc.wrapping_add(offset))
    } else {
        go_on(hart)
    }
}

/// Whether one word is less than another, both signed.
#[inline]
fn is_less(first: u32, second: u32) -> bool
    ensures { result ≡ is_less_signed first second }
{
    first.cast_signed() < second.cast_signed()
}

/// The arithmetic shift to the right.
#[inline]
fn shifted(value: u32, by: u32) -> u32
    ensures { result ≡ shift_right_signed value by }
{
    (value.cast_signed() >> (by & 0x1f)).cast_unsigned()
}

/// 1 or 0.
#[inline]
fn flag(holds: bool) -> u32
    ensures { result ≡ flag_of holds }
{
    if holds { 1 } else { 0 }
}

/// The access of a load.
#[inline]
fn load(size: u8, address: u32, instr: Instr) -> Effect
    requires size { 0 < size }
    requires within { IsWithin instr }
    requires access { makes_access instr ≡ true }
    ensures effect { result ≡ loads size address instr }
    ensures lawful { IsLawful result }
{
    if address % size as u32 == 0 {
        Effect::Accesses {
            access: HartAccess {
                write: false,
                addr: address,
                size,
                value: 0,
            },
            instr,
        }
    } else {
        trap(MISALIGNED_LOAD, address)
    }
}

/// The access of a store.
#[inline]
fn store(size: u8, address: u32, value: u32, instr: Instr) -> Effect
    requires size { 0 < size }
    requires within { IsWithin instr }
    requires access { makes_access instr ≡ true }
    ensures effect { result ≡ stores size address value instr }
    ensures lawful { IsLawful result }
{
    if address % size as u32 == 0 {
        Effect::Accesses {
            access: HartAccess {
                write: true,
                addr: address,
                size,
                value,
            },
            instr,
        }
    } else {
        trap(MISALIGNED_STORE, address)
    }
}

/// A trap.
#[inline]
fn trap(cause: u32, value: u32) -> Effect
    ensures { result ≡ Effect.Traps cause value }
{
    Effect::Traps { cause, value }
}

/// A row of Zicsr.
#[inline(always)]
fn update_csr(hart: &Hart, pending: u32, word: u32, rd: u32, number: u32, update: Update) -> Effect
    requires { rd < 32 }
    ensures effect { result ≡ updates_csr hart.now pending word rd number update }
    ensures lawful { IsLawful result }
{
    let old = match hart.csrs.read(number, pending) {
        Some(old) => old,
        None => return trap(ILLEGAL_INSTRUCTION, word),
    };
    let new = match update {
        Update::Keep => return set(hart, rd, old),
        Update::Write(value) => value,
        Update::Set(bits) => old | bits,
        Update::Clear(bits) => old & !bits,
    };
    if !is_writable(number) {
        return trap(ILLEGAL_INSTRUCTION, word);
    }
    Effect::Updates {
        rd,
        value: old,
        number,
        new,
    }
}

/// Bits of a control register are set, where their source is another than x0 or the immediate 0.
#[inline]
fn set_bits(source: u32, bits: u32) -> Update
    ensures { result ≡ unless_zero source (Update.Set bits) }
{
    if source == 0 {
        Update::Keep
    } else {
        Update::Set(bits)
    }
}

/// Bits of a control register are cleared, where their source is another than x0 or the immediate 0.
#[inline]
fn clear_bits(source: u32, bits: u32) -> Update
    ensures { result ≡ unless_zero source (Update.Clear bits) }
{
    if source == 0 {
        Update::Keep
    } else {
        Update::Clear(bits)
    }
}

/// What a row does.
#[inline(always)]
pub(crate) fn perform(hart: &Hart, pending: u32, word: u32, instr: Instr) -> Effect
    requires { IsWithin instr }
    ensures effect { result ≡ performed hart.now pending word instr }
    ensures lawful { IsLawful result }
{
    let pc = hart.pc;
    match instr {
        Instr::Lui { rd, imm } => set(hart, rd, imm),
        Instr::Auipc { rd, imm } => set(hart, rd, pc.wrapping_add(imm)),
        Instr::Jal { rd, imm } => jump(hart, rd, pc.wrapping_add(imm)),
        Instr::Jalr { rd, rs1, imm } => jump(hart, rd, hart.sum(rs1, imm) & 0xffff_fffe),
        Instr::Beq { rs1, rs2, imm } => branch(hart, hart.reg(rs1) == hart.reg(rs2), imm),
        Instr::Bne { rs1, rs2, imm } => branch(hart, hart.reg(rs1) != hart.reg(rs2), imm),
        Instr::Blt { rs1, rs2, imm } => branch(hart, is_less(hart.reg(rs1), hart.reg(rs2)), imm),
        Instr::Bge { rs1, rs2, imm } => branch(hart, !is_less(hart.reg(rs1), hart.reg(rs2)), imm),
        Instr::Bltu { rs1, rs2, imm } => branch(hart, hart.reg(rs1) < hart.reg(rs2), imm),
        Instr::Bgeu { rs1, rs2, imm } => branch(hart, !(hart.reg(rs1) < hart.reg(rs2)), imm),
        Instr::Lb { rs1, imm, .. } => load(1, hart.sum(rs1, imm), instr),
        Instr::Lh { rs1, imm, .. } => load(2, hart.sum(rs1, imm), instr),
        Instr::Lw { rs1, imm, .. } => load(4, hart.sum(rs1, imm), instr),
        Instr::Lbu { rs1, imm, .. } => load(1, hart.sum(rs1, imm), instr),
        Instr::Lhu { rs1, imm, .. } => load(2, hart.sum(rs1, imm), instr),
        Instr::Sb { rs1, rs2, imm } => store(1, hart.sum(rs1, imm), hart.reg(rs2) & 0xff, instr),
        Instr::Sh { rs1, rs2, imm } => store(2, hart.sum(rs1, imm), hart.reg(rs2) & 0xffff, instr),
        Instr::Sw { rs1, rs2, imm } => store(4, hart.sum(rs1, imm), hart.reg(rs2), instr),
        Instr::Addi { rd, rs1, imm } => set(hart, rd, hart.sum(rs1, imm)),
        Instr::Slti { rd, rs1, imm } => set(hart, rd, flag(is_less(hart.reg(rs1), imm))),
        Instr::Sltiu { rd, rs1, imm } => set(hart, rd, flag(hart.reg(rs1) < imm)),
        Instr::Xori { rd, rs1, imm } => set(hart, rd, hart.reg(rs1) ^ imm),
        Instr::Ori { rd, rs1, imm } => set(hart, rd, hart.reg(rs1) | imm),
        Instr::Andi { rd, rs1, imm } => set(hart, rd, hart.reg(rs1) & imm),
        Instr::Slli { rd, rs1, shamt } => set(hart, rd, hart.reg(rs1) << (shamt & 0x1f)),
        Instr::Srli { rd, rs1, shamt } => set(hart, rd, hart.reg(rs1) >> (shamt & 0x1f)),
        Instr::Srai { rd, rs1, shamt } => set(hart, rd, shifted(hart.reg(rs1), shamt)),
        Instr::Add { rd, rs1, rs2 } => set(hart, rd, hart.sum(rs1, hart.reg(rs2))),
        Instr::Sub { rd, rs1, rs2 } => set(hart, rd, hart.reg(rs1).wrapping_sub(hart.reg(rs2))),
        Instr::Sll { rd, rs1, rs2 } => set(hart, rd, hart.reg(rs1) << (hart.reg(rs2) & 0x1f)),
        Instr::Slt { rd, rs1, rs2 } => set(hart, rd, flag(is_less(hart.reg(rs1), hart.reg(rs2)))),
        Instr::Sltu { rd, rs1, rs2 } => set(hart, rd, flag(hart.reg(rs1) < hart.reg(rs2))),
        Instr::Xor { rd, rs1, rs2 } => set(hart, rd, hart.reg(rs1) ^ hart.reg(rs2)),
        Instr::Srl { rd, rs1, rs2 } => set(hart, rd, hart.reg(rs1) >> (hart.reg(rs2) & 0x1f)),
        Instr::Sra { rd, rs1, rs2 } => set(hart, rd, shifted(hart.reg(rs1), hart.reg(rs2))),
        Instr::Or { rd, rs1, rs2 } => set(hart, rd, hart.reg(rs1) | hart.reg(rs2)),
        Instr::And { rd, rs1, rs2 } => set(hart, rd, hart.reg(rs1) & hart.reg(rs2)),
        Instr::Fence { .. } | Instr::Wfi => go_on(hart),
        Instr::Ecall => trap(CALL_FROM_MACHINE, 0),
        Instr::Ebreak => trap(BREAKPOINT, 0),
        Instr::Mret => Effect::Returns,
        Instr::Csrrw { rd, rs1, csr } => {
            update_csr(hart, pending, word, rd, csr, Update::Write(hart.reg(rs1)))
        }
        Instr::Csrrs { rd, rs1, csr } => {
            update_csr(hart, pending, word, rd, csr, set_bits(rs1, hart.reg(rs1)))
        }
        Instr::Csrrc { rd, rs1, csr } => {
            update_csr(hart, pending, word, rd, csr, clear_bits(rs1, hart.reg(rs1)))
        }
        Instr::Csrrwi { rd, uimm, csr } => {
            update_csr(hart, pending, word, rd, csr, Update::Write(uimm))
        }
        Instr::Csrrsi { rd, uimm, csr } => {
            update_csr(hart, pending, word, rd, csr, set_bits(uimm, uimm))
        }
        Instr::Csrrci { rd, uimm, csr } => {
            update_csr(hart, pending, word, rd, csr, clear_bits(uimm, uimm))
        }
    }
}

/// The sign of the low byte spread to the word.
#[inline]
fn byte_extended(word: u32) -> u32
    ensures { result ≡ sign_extended 8 (low_bits 8 word) }
{
    ((word & 0xff) ^ 0x80).wrapping_sub(0x80)
}

/// The sign of the low half spread to the word.
#[inline]
fn half_extended(word: u32) -> u32
    ensures { result ≡ sign_extended 16 (low_bits 16 word) }
{
    ((word & 0xffff) ^ 0x8000).wrapping_sub(0x8000)
}

/// What a row whose access was answered does.
#[inline]
pub(crate) fn complete(hart: &Hart, instr: Instr, answer: u32) -> Effect
    requires within { IsWithin instr }
    requires access { makes_access instr ≡ true }
    ensures effect { result ≡ completed hart.now instr (Some answer) }
    ensures lawful { IsLawful result }
{
    match instr {
        Instr::Lb { rd, .. } => set(hart, rd, byte_extended(answer)),
        Instr::Lh { rd, .. } => set(hart, rd, half_extended(answer)),
        Instr::Lw { rd, .. } => set(hart, rd, answer),
        Instr::Lbu { rd, .. } => set(hart, rd, answer & 0xff),
        Instr::Lhu { rd, .. } => set(hart, rd, answer & 0xffff),
        _ => go_on(hart),
    }
}

/// What a row whose access was refused does.
pub(crate) fn refuse(hart: &Hart, instr: Instr) -> Effect
    requires within { IsWithin instr }
    requires access { makes_access instr ≡ true }
    ensures effect { result ≡ completed hart.now instr None }
    ensures lawful { IsLawful result }
{
    match instr {
        Instr::Lb { rs1, imm, .. } => trap(LOAD_FAULT, hart.sum(rs1, imm)),
        Instr::Lh { rs1, imm, .. } => trap(LOAD_FAULT, hart.sum(rs1, imm)),
        Instr::Lw { rs1, imm, .. } => trap(LOAD_FAULT, hart.sum(rs1, imm)),
        Instr::Lbu { rs1, imm, .. } => trap(LOAD_FAULT, hart.sum(rs1, imm)),
        Instr::Lhu { rs1, imm, .. } => trap(LOAD_FAULT, hart.sum(rs1, imm)),
        Instr::Sb { rs1, imm, .. } => trap(STORE_FAULT, hart.sum(rs1, imm)),
        Instr::Sh { rs1, imm, .. } => trap(STORE_FAULT, hart.sum(rs1, imm)),
        Instr::Sw { rs1, imm, .. } => trap(STORE_FAULT, hart.sum(rs1, imm)),
        _ => go_on(hart),
    }
}
