//! Names as they are written.

ghost use Rattle.std.specs.Prelude.{◌≡◌, ◌≤◌, length};
ghost use Rattle.rv_table.specs.Names.{text_of};

use crate::Name;

/// The mnemonic of a name: its letters in lower case, as in the manual.
pub fn text(name: Name) -> &'static str
    ensures value { result.now ≡ text_of name }
    ensures short { length result.now ≤ 6 }
{
    match name {
        Name::Lui => "lui",
        Name::Auipc => "auipc",
        Name::Jal => "jal",
        Name::Jalr => "jalr",
        Name::Beq => "beq",
        Name::Bne => "bne",
        Name::Blt => "blt",
        Name::Bge => "bge",
        Name::Bltu => "bltu",
        Name::Bgeu => "bgeu",
        Name::Lb => "lb",
        Name::Lh => "lh",
        Name::Lw => "lw",
        Name::Lbu => "lbu",
        Name::Lhu => "lhu",
        Name::Sb => "sb",
        Name::Sh => "sh",
        Name::Sw => "sw",
        Name::Addi => "addi",
        Name::Slti => "slti",
        Name::Sltiu => "sltiu",
        Name::Xori => "xori",
        Name::Ori => "ori",
        Name::Andi => "andi",
        Name::Fence => "fence",
        Name::Csrrw => "csrrw",
        Name::Csrrs => "csrrs",
        Name::Csrrc => "csrrc",
        Name::Csrrwi => "csrrwi",
        Name::Csrrsi => "csrrsi",
        Name::Csrrci => "csrrci",
        Name::Slli => "slli",
        Name::Srli => "srli",
        Name::Srai => "srai",
        Name::Add => "add",
        Name::Sub => "sub",
        Name::Sll => "sll",
        Name::Slt => "slt",
        Name::Sltu => "sltu",
        Name::Xor => "xor",
        Name::Srl => "srl",
        Name::Or => "or",
        Name::And => "and",
        Name::Sra => "sra",
        Name::Ecall => "ecall",
        Name::Ebreak => "ebreak",
        Name::Mret => "mret",
        Name::Wfi => "wfi",
    }
}
