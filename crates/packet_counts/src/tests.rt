use crate::count_packets;
use cos_base::{NoMemory, Octets};
use std::alloc::Global;
use std::test::Fail;

/// A nop: a header of zeros.
const NOP: [u8; 20] = [0; 20];

/// A sync at time 7: command 6, and 8 bytes behind the header.
const SYNC: [u8; 28] = [
    0, 0, 0, 6, 0, 0, 0, 8, 0, 0, 0, 1, 0, 0, 0, 0, 0, 0, 0, 0, 0, 0, 0, 0, 0, 0, 0, 7,
];

/// A header whose command is none.
const UNKNOWN: [u8; 20] = [0, 0, 0, 200, 0, 0, 0, 8, 0, 0, 0, 0, 0, 0, 0, 0, 0, 0, 0, 0];

/// The count of these pieces, one behind the other.
fn counted(alloc: Global, pieces: &[&[u8]]) -> Result<u64, NoMemory> {
    let mut bytes = Octets::make(alloc);
    for piece in pieces {
        bytes.push_all(piece)?;
    }
    Ok(count_packets(bytes.as_slice()))
}

/// The first bytes of a header, or of a packet.
fn first(bytes: &[u8], count: usize) -> &[u8] {
    if count > bytes.len() {
        return bytes;
    }
    bytes.split_at(count).0
}

#[test]
fn whole_packets_are_counted(rt: HostRuntime) -> Result<(), Fail> {
    let alloc = rt.alloc();
    assert!(rt; counted(alloc, &[])? == 0);
    assert!(rt; counted(alloc, &[&NOP])? == 1);
    assert!(rt; counted(alloc, &[&SYNC])? == 1);
    assert!(rt; counted(alloc, &[&NOP, &SYNC, &NOP])? == 3);
    Ok(())
}

#[test]
fn an_unfinished_packet_is_none(rt: HostRuntime) -> Result<(), Fail> {
    let alloc = rt.alloc();
    assert!(rt; counted(alloc, &[first(&NOP, 19)])? == 0);
    assert!(rt; counted(alloc, &[first(&SYNC, 27)])? == 0);
    assert!(rt; counted(alloc, &[&NOP, first(&SYNC, 27)])? == 1);
    Ok(())
}

#[test]
fn a_refused_header_counts_as_twenty_bytes(rt: HostRuntime) -> Result<(), Fail> {
    let alloc = rt.alloc();
    assert!(rt; counted(alloc, &[&UNKNOWN])? == 1);
    assert!(rt; counted(alloc, &[&UNKNOWN, &SYNC])? == 2);
    Ok(())
}
