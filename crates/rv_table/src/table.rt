//! The table, and what is written from it: decoding and encoding.

ghost use Rattle.std.specs.Prelude.{◌≡◌};
ghost use Rattle.rv_table.specs.Coding.{encoded, Decodes, number_of, operands};
ghost use Rattle.rv_table.specs.Rows.{row_at};

use crate::fields::{
    b_immediate, csr, i_immediate, j_immediate, rd, rs1, rs2, s_immediate, u_immediate,
};
use crate::placing::{b_placed, i_placed, j_placed, r_placed, s_placed, u_placed};
use crate::{Format, Instr, Name, Operands, Row, Rows};

// The rows, by their masks: name, format, match. They are handed to the macro that is named.
macro_rules! rows {
    ($then:ident $($with:tt)*) => {
        $then! {
            [$($with)*]
            0x7f {
                Lui U 0x37,
                Auipc U 0x17,
                Jal J 0x6f,
            }
            0x707f {
                Jalr I 0x67,
                Beq B 0x63,
                Bne B 0x1063,
                Blt B 0x4063,
                Bge B 0x5063,
                Bltu B 0x6063,
                Bgeu B 0x7063,
                Lb I 0x3,
                Lh I 0x1003,
                Lw I 0x2003,
                Lbu I 0x4003,
                Lhu I 0x5003,
                Sb S 0x23,
                Sh S 0x1023,
                Sw S 0x2023,
                Addi I 0x13,
                Slti I 0x2013,
                Sltiu I 0x3013,
                Xori I 0x4013,
                Ori I 0x6013,
                Andi I 0x7013,
                Fence Fence 0xf,
                Csrrw Csr 0x1073,
                Csrrs Csr 0x2073,
                Csrrc Csr 0x3073,
                Csrrwi CsrImmediate 0x5073,
                Csrrsi CsrImmediate 0x6073,
                Csrrci CsrImmediate 0x7073,
            }
            0xfe00707f {
                Slli Shift 0x1013,
                Srli Shift 0x5013,
                Srai Shift 0x40005013,
                Add R 0x33,
                Sub R 0x40000033,
                Sll R 0x1033,
                Slt R 0x2033,
                Sltu R 0x3033,
                Xor R 0x4033,
                Srl R 0x5033,
                Or R 0x6033,
                And R 0x7033,
                Sra R 0x40005033,
            }
            0xffffffff {
                Ecall Whole 0x73,
                Ebreak Whole 0x100073,
                Mret Whole 0x30200073,
                Wfi Whole 0x10500073,
            }
        }
    };
}

macro_rules! table {
    ([] $($mask:literal { $($name:ident $format:ident $matched:literal,)* })*) => {
        Rows {
            rows: [$($(Row { mask: $mask, matched: $matched, format: Format::$format, name: Name::$name },)*)*],
        }
    };
}

/// The 48 rows of RV32I, Zicsr, MRET and WFI, grouped by mask.
pub static TABLE: Rows<48> = rows!(table);

macro_rules! read_as {
    (U $name:ident $word:ident) => { Instr::$name { rd: rd($word), imm: u_immediate($word) } };
    (J $name:ident $word:ident) => { Instr::$name { rd: rd($word), imm: j_immediate($word) } };
    (I $name:ident $word:ident) => { Instr::$name { rd: rd($word), rs1: rs1($word), imm: i_immediate($word) } };
    (S $name:ident $word:ident) => { Instr::$name { rs1: rs1($word), rs2: rs2($word), imm: s_immediate($word) } };
    (B $name:ident $word:ident) => { Instr::$name { rs1: rs1($word), rs2: rs2($word), imm: b_immediate($word) } };
    (R $name:ident $word:ident) => { Instr::$name { rd: rd($word), rs1: rs1($word), rs2: rs2($word) } };
    (Shift $name:ident $word:ident) => { Instr::$name { rd: rd($word), rs1: rs1($word), shamt: rs2($word) } };
    (Csr $name:ident $word:ident) => { Instr::$name { rd: rd($word), rs1: rs1($word), csr: csr($word) } };
    (CsrImmediate $name:ident $word:ident) => { Instr::$name { rd: rd($word), uimm: rs1($word), csr: csr($word) } };
    (Fence $name:ident $word:ident) => { Instr::$name { rd: rd($word), rs1: rs1($word), imm: csr($word) } };
    (Whole $name:ident $word:ident) => { Instr::$name };
}

macro_rules! decode_arms {
    ([$word:ident]) => { None };
    ([$word:ident] $mask:literal { $($name:ident $format:ident $matched:literal,)* } $($rest:tt)*) => {
        match $word & $mask {
            $($matched => Some(read_as!($format $name $word)),)*
            _ => decode_arms!([$word] $($rest)*),
        }
    };
}

#[tactic(auto, using(crate::proofs::Masks::mask_funct3, crate::proofs::Masks::mask_funct7))]
/// The instruction of a word, or `None` where no row matches it.
///
/// Registers and immediates are within their widths, as [`Instr`] says.
#[inline(always)]
pub fn decode(word: u32) -> Option<Instr>
    ensures { Decodes word result }
{
    rows!(decode_arms word)
}

macro_rules! shape {
    (U $name:ident $rd:ident $rs1:ident $rs2:ident $imm:ident $shamt:ident $csr:ident) => { Instr::$name { rd: $rd, imm: $imm } };
    (J $name:ident $rd:ident $rs1:ident $rs2:ident $imm:ident $shamt:ident $csr:ident) => { Instr::$name { rd: $rd, imm: $imm } };
    (I $name:ident $rd:ident $rs1:ident $rs2:ident $imm:ident $shamt:ident $csr:ident) => { Instr::$name { rd: $rd, rs1: $rs1, imm: $imm } };
    (Fence $name:ident $rd:ident $rs1:ident $rs2:ident $imm:ident $shamt:ident $csr:ident) => { Instr::$name { rd: $rd, rs1: $rs1, imm: $imm } };
    (S $name:ident $rd:ident $rs1:ident $rs2:ident $imm:ident $shamt:ident $csr:ident) => { Instr::$name { rs1: $rs1, rs2: $rs2, imm: $imm } };
    (B $name:ident $rd:ident $rs1:ident $rs2:ident $imm:ident $shamt:ident $csr:ident) => { Instr::$name { rs1: $rs1, rs2: $rs2, imm: $imm } };
    (R $name:ident $rd:ident $rs1:ident $rs2:ident $imm:ident $shamt:ident $csr:ident) => { Instr::$name { rd: $rd, rs1: $rs1, rs2: $rs2 } };
    (Shift $name:ident $rd:ident $rs1:ident $rs2:ident $imm:ident $shamt:ident $csr:ident) => { Instr::$name { rd: $rd, rs1: $rs1, shamt: $shamt } };
    (Csr $name:ident $rd:ident $rs1:ident $rs2:ident $imm:ident $shamt:ident $csr:ident) => { Instr::$name { rd: $rd, rs1: $rs1, csr: $csr } };
    (CsrImmediate $name:ident $rd:ident $rs1:ident $rs2:ident $imm:ident $shamt:ident $csr:ident) => { Instr::$name { rd: $rd, uimm: $imm, csr: $csr } };
    (Whole $name:ident $rd:ident $rs1:ident $rs2:ident $imm:ident $shamt:ident $csr:ident) => { Instr::$name };
}

macro_rules! placed {
    (U $matched:literal $rd:ident $rs1:ident $rs2:ident $imm:ident $shamt:ident $csr:ident) => { u_placed($matched, $rd, $imm) };
    (J $matched:literal $rd:ident $rs1:ident $rs2:ident $imm:ident $shamt:ident $csr:ident) => { j_placed($matched, $rd, $imm) };
    (I $matched:literal $rd:ident $rs1:ident $rs2:ident $imm:ident $shamt:ident $csr:ident) => { i_placed($matched, $rd, $rs1, $imm) };
    (Fence $matched:literal $rd:ident $rs1:ident $rs2:ident $imm:ident $shamt:ident $csr:ident) => { i_placed($matched, $rd, $rs1, $imm) };
    (S $matched:literal $rd:ident $rs1:ident $rs2:ident $imm:ident $shamt:ident $csr:ident) => { s_placed($matched, $rs1, $rs2, $imm) };
    (B $matched:literal $rd:ident $rs1:ident $rs2:ident $imm:ident $shamt:ident $csr:ident) => { b_placed($matched, $rs1, $rs2, $imm) };
    (R $matched:literal $rd:ident $rs1:ident $rs2:ident $imm:ident $shamt:ident $csr:ident) => { r_placed($matched, $rd, $rs1, $rs2) };
    (Shift $matched:literal $rd:ident $rs1:ident $rs2:ident $imm:ident $shamt:ident $csr:ident) => { r_placed($matched, $rd, $rs1, $shamt) };
    (Csr $matched:literal $rd:ident $rs1:ident $rs2:ident $imm:ident $shamt:ident $csr:ident) => { i_placed($matched, $rd, $rs1, $csr) };
    (CsrImmediate $matched:literal $rd:ident $rs1:ident $rs2:ident $imm:ident $shamt:ident $csr:ident) => { i_placed($matched, $rd, $imm, $csr) };
    (Whole $matched:literal $rd:ident $rs1:ident $rs2:ident $imm:ident $shamt:ident $csr:ident) => { $matched };
}

macro_rules! encode_arms {
    ([$instr:ident] $($mask:literal { $($name:ident $format:ident $matched:literal,)* })*) => {
        match $instr {
            $($(shape!($format $name rd rs1 rs2 imm shamt csr) => placed!($format $matched rd rs1 rs2 imm shamt csr),)*)*
        }
    };
}

/// The word of an instruction. Of an operand that is too wide the low bits count.
pub fn encode(instr: Instr) -> u32
    ensures { result ≡ encoded instr }
{
    rows!(encode_arms instr)
}

macro_rules! row_arms {
    ([$instr:ident] $($mask:literal { $($name:ident $format:ident $matched:literal,)* })*) => {
        match $instr {
            $($(Instr::$name { .. } => Row { mask: $mask, matched: $matched, format: Format::$format, name: Name::$name },)*)*
        }
    };
}

/// The row of an instruction.
pub fn row_of(instr: Instr) -> Row
    ensures { result ≡ row_at (number_of instr) }
{
    rows!(row_arms instr)
}

macro_rules! gathered {
    (U $rd:ident $rs1:ident $rs2:ident $imm:ident $shamt:ident $csr:ident) => { Operands::U { rd: $rd, imm: $imm } };
    (J $rd:ident $rs1:ident $rs2:ident $imm:ident $shamt:ident $csr:ident) => { Operands::J { rd: $rd, imm: $imm } };
    (I $rd:ident $rs1:ident $rs2:ident $imm:ident $shamt:ident $csr:ident) => { Operands::I { rd: $rd, rs1: $rs1, imm: $imm } };
    (Fence $rd:ident $rs1:ident $rs2:ident $imm:ident $shamt:ident $csr:ident) => { Operands::Fence { rd: $rd, rs1: $rs1, imm: $imm } };
    (S $rd:ident $rs1:ident $rs2:ident $imm:ident $shamt:ident $csr:ident) => { Operands::S { rs1: $rs1, rs2: $rs2, imm: $imm } };
    (B $rd:ident $rs1:ident $rs2:ident $imm:ident $shamt:ident $csr:ident) => { Operands::B { rs1: $rs1, rs2: $rs2, imm: $imm } };
    (R $rd:ident $rs1:ident $rs2:ident $imm:ident $shamt:ident $csr:ident) => { Operands::R { rd: $rd, rs1: $rs1, rs2: $rs2 } };
    (Shift $rd:ident $rs1:ident $rs2:ident $imm:ident $shamt:ident $csr:ident) => { Operands::Shift { rd: $rd, rs1: $rs1, shamt: $shamt } };
    (Csr $rd:ident $rs1:ident $rs2:ident $imm:ident $shamt:ident $csr:ident) => { Operands::Csr { rd: $rd, rs1: $rs1, csr: $csr } };
    (CsrImmediate $rd:ident $rs1:ident $rs2:ident $imm:ident $shamt:ident $csr:ident) => { Operands::CsrImmediate { rd: $rd, uimm: $imm, csr: $csr } };
    (Whole $rd:ident $rs1:ident $rs2:ident $imm:ident $shamt:ident $csr:ident) => { Operands::Whole };
}

macro_rules! operand_arms {
    ([$instr:ident] $($mask:literal { $($name:ident $format:ident $matched:literal,)* })*) => {
        match $instr {
            $($(shape!($format $name rd rs1 rs2 imm shamt csr) => gathered!($format rd rs1 rs2 imm shamt csr),)*)*
        }
    };
}

/// The operands of an instruction, by its format.
pub fn operands_of(instr: Instr) -> Operands
    ensures { result ≡ operands instr }
{
    rows!(operand_arms instr)
}
