use crate::{NoMemory, Numbers, Octets};
use std::alloc::Global;
use std::test::Fail;

fn octets(alloc: Global, bytes: &[u8]) -> Result<Octets, NoMemory> {
    let mut octets = Octets::make(alloc);
    octets.push_all(bytes)?;
    Ok(octets)
}

fn numbers(alloc: Global, items: &[u32]) -> Result<Numbers, NoMemory> {
    let mut numbers = Numbers::make(alloc);
    for item in items {
        numbers.push(*item)?;
    }
    Ok(numbers)
}

#[test]
fn bytes_grow_within_memory(rt: HostRuntime) -> Result<(), Fail> {
    let mut bytes = octets(rt.alloc(), b"abc")?;
    bytes.reserve(4)?;
    bytes.push_spare(b"defg");
    let copy = bytes.copy(rt.alloc())?;
    assert_eq!(rt; copy.as_slice(), b"abcdefg".as_slice());
    Ok(())
}

#[test]
fn numbers_grow_within_memory(rt: HostRuntime) -> Result<(), Fail> {
    let numbers = numbers(rt.alloc(), &[7, 4_294_967_295])?;
    assert_eq!(rt; numbers.as_slice(), [7, 4_294_967_295].as_slice());
    Ok(())
}
