// A generated machine that is worked from the rules.
use crate::generate;
use cos_base::{NoMemory, Octets};
use std::alloc::Global;
use std::test::Fail;

/// The bytes of words, the lowest first.
fn bytes_of(alloc: Global, words: &[u32]) -> Result<Octets, NoMemory> {
    let mut bytes = Octets::make(alloc);
    for word in words {
        bytes.push_all(&word.to_le_bytes())?;
    }
    Ok(bytes)
}

// The draws, and the words by the formats of the manual, are worked in Python from the rules. Behind the 17 words of
// the beginning stand the first ten blocks, and before the two last words the last two blocks.
#[test]
fn number_1_generates_its_machine(rt: HostRuntime) -> Result<(), Fail> {
    let machine = generate(rt.alloc(), 1)?;
    let beginning = bytes_of(
        rt.alloc(),
        &[
            0x1000_0537,
            0x1000_15b7,
            0x1000_2637,
            0x0010_06b7,
            0x0140_02ef,
            0x3410_2f73,
            0x004f_0f13,
            0x341f_1073,
            0x3020_0073,
            0x3052_9073,
            0x8001_0337,
            0x0066_2023,
            0x8001_1337,
            0x0066_2223,
            0x1000_0313,
            0x0066_2423,
            0x0010_0393,
            0x0076_2823,
            0x0085_2223,
            0x0085_a023,
            0x0085_a483,
            0x0076_2823,
            0x0005_a483,
            0x0076_2823,
            0x0006_2483,
            0x0076_2823,
            0x0085_a023,
        ],
    )?;
    let end = bytes_of(
        rt.alloc(),
        &[0x0085_2483, 0x2724_0413, 0x0006_a023, 0x0000_006f],
    )?;
    assert_eq!(rt; machine.quantum, 275);
    assert_eq!(rt; machine.gap, 154);
    assert!(rt; machine.input.starts_with(&[204, 230, 90, 243]));
    assert_eq!(rt; machine.input[63], 159);
    assert_eq!(rt; machine.image.len(), 16_076);
    assert!(rt; machine.image.as_slice().starts_with(beginning.as_slice()));
    assert!(rt; machine.image.as_slice().ends_with(end.as_slice()));
    Ok(())
}
