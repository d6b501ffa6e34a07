//! The control and status registers that have names.

ghost use Rattle.std.specs.Prelude.{◌≡◌, option_copied};
ghost use Rattle.rv_asm.specs.Csrs.{csr_number, csr_name};

/// The number of the register with this name.
pub fn numbered(name: &[u8]) -> Option<u32>
    ensures { result ≡ csr_number name.now }
{
    if name == "mstatus".as_bytes() {
        return Some(0x300);
    }
    if name == "misa".as_bytes() {
        return Some(0x301);
    }
    if name == "mie".as_bytes() {
        return Some(0x304);
    }
    if name == "mtvec".as_bytes() {
        return Some(0x305);
    }
    if name == "mscratch".as_bytes() {
        return Some(0x340);
    }
    if name == "mepc".as_bytes() {
        return Some(0x341);
    }
    if name == "mcause".as_bytes() {
        return Some(0x342);
    }
    if name == "mtval".as_bytes() {
        return Some(0x343);
    }
    if name == "mip".as_bytes() {
        return Some(0x344);
    }
    if name == "mvendorid".as_bytes() {
        return Some(0xf11);
    }
    if name == "marchid".as_bytes() {
        return Some(0xf12);
    }
    if name == "mimpid".as_bytes() {
        return Some(0xf13);
    }
    if name == "mhartid".as_bytes() {
        return Some(0xf14);
    }
    None
}

/// The name of the register with this number.
pub fn named(number: u32) -> Option<&'static [u8]>
    ensures { option_copied result ≡ csr_name number }
{
    match number {
        0x300 => Some(b"mstatus"),
        0x301 => Some(b"misa"),
        0x304 => Some(b"mie"),
        0x305 => Some(b"mtvec"),
        0x340 => Some(b"mscratch"),
        0x341 => Some(b"mepc"),
        0x342 => Some(b"mcause"),
        0x343 => Some(b"mtval"),
        0x344 => Some(b"mip"),
        0xf11 => Some(b"mvendorid"),
        0xf12 => Some(b"marchid"),
        0xf13 => Some(b"mimpid"),
        0xf14 => Some(b"mhartid"),
        _ => None,
    }
}
