// Worked values of enables and numbers across the border of two pages. Images, digests and accesses at the ends of RAM stand in
// tests/, over the built program.
use cos_base::NoMemory;
use std::alloc::Global;
use sys_ram::Ram;

const BASE: u64 = 0x8000_0000;

/// Whether four bytes are these.
fn has(ram: &Ram, addr: u64, bytes: [u8; 4]) -> bool {
    let mut out = [0xff; 4];
    ram.read(addr, &mut out) == 0 && out == bytes
}

/// Whether enables are taken in turn, across the border of two pages, of which neither is there.
fn takes_enables_in_turn(alloc: Global) -> Result<bool, NoMemory> {
    let mut ram = Ram::make(alloc, 8192)?;
    let addr = BASE + 4094;
    let first = ram.write(addr, &[1, 2, 3, 4], &[0, 7])?;
    let is_first = first == 0 && has(&ram, addr, [0, 2, 0, 4]);
    let second = ram.write(addr, &[5, 6, 7, 8], &[1, 0, 0])?;
    let is_second = second == 0 && has(&ram, addr, [5, 2, 0, 8]);
    let third = ram.write(addr, &[9, 9], &[0, 0, 1])?;
    Ok(is_first && is_second && third == 0 && has(&ram, addr, [5, 2, 0, 8]))
}

/// Whether numbers are stored and loaded with their low byte first, and only where all of their bytes are in RAM.
fn stores_numbers(alloc: Global) -> Result<bool, NoMemory> {
    let mut ram = Ram::make(alloc, 8192)?;
    let word = ram.put_word(0x8000_0ffe, 0x1234_5678)?;
    let half = ram.put_half(0x8000_1fff, 1)?;
    let byte = ram.put_byte(0x8000_0fff, 0x99)?;
    Ok(
        word && !half
            && byte
            && ram.word(0x8000_0ffe) == Some(0x1234_9978)
            && ram.half(0x8000_0fff) == Some(0x3499)
            && ram.byte(0x8000_1001) == Some(0x12),
    )
}

#[test]
fn bytes_and_numbers_cross_the_border_of_pages(rt: HostRuntime) {
    assert!(rt; matches!(takes_enables_in_turn(rt.alloc()), Ok(true)));
    assert!(rt; matches!(stores_numbers(rt.alloc()), Ok(true)));
}
