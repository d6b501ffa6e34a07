// Accesses by hand: what the built program doesn't reach yet.
use cos_base::{NoMemory, Octets};
use cosim_model::Caps;
use end_packets::{BusPlace, Request};
use rp_packet::{BusAccess, Tag, WriteFault};
use std::alloc::Global;

const ALL: Caps = Caps {
    base: true,
    enables: true,
    posted: true,
};

/// A write of two bytes to 0x100 at tick 5, of which the second is disabled.
const WRITE: [u8; 84] = [
    0, 0, 0, 4, 0, 0, 0, 64, 0, 0, 0, 7, 0, 0, 0, 0, 0, 0, 0, 0, 0, 0, 0, 0, 0, 0, 0, 5, 0, 0, 0,
    0, 0, 0, 0, 4, 0, 0, 0, 0, 0, 0, 1, 0, 0, 0, 0, 2, 0, 0, 0, 0, 0, 0, 0, 2, 0, 0, 0, 0, 0, 0, 0,
    0, 0, 0, 0, 80, 0, 0, 0, 0, 0, 0, 0, 82, 0, 0, 0, 2, 0xaa, 0xbb, 0xff, 0,
];

/// An answer of four bytes with code 7 and these enables.
fn answer(alloc: Global, enables: &[u8]) -> Result<BusAccess, NoMemory> {
    let mut answer = BusAccess {
        time: 0,
        attributes: 0x7f4,
        addr: 0,
        len: 4,
        width: 0,
        stream_width: 4,
        master: 0,
        payload: Octets::make(alloc),
        enables: Octets::make(alloc),
    };
    answer.enables.push_all(enables)?;
    Ok(answer)
}

/// Whether a code is four bits of the attributes, and a body without its data is written in no way.
fn has_a_code(alloc: Global) -> Result<bool, NoMemory> {
    let mut answer = answer(alloc, &[])?;
    answer.payload.push_all(&[65, 0, 0, 0])?;
    let data_left_out = answer.write_into(false, &mut Octets::make(alloc));
    let is_seven = answer.extended() && answer.code() == 7;
    let refused = answer.with_code(2);
    Ok(
        is_seven
            && data_left_out == Err(WriteFault::DataCount { wanted: 0, got: 4 })
            && refused.code() == 2
            && refused.attributes == 0x2f4,
    )
}

/// Whether enables are taken in turn, and all bytes are enabled where there is none.
fn takes_enables_in_turn(alloc: Global) -> Result<bool, NoMemory> {
    let odd = answer(alloc, &[0, 1])?;
    let all = answer(alloc, &[])?;
    let even_ones = odd.enabled(0) || odd.enabled(2);
    Ok(odd.enabled(1) && odd.enabled(3) && !even_ones && all.enabled(3))
}

/// Whether a request of a master says which of its bytes are enabled.
fn says_its_enables(alloc: Global) -> Result<bool, NoMemory> {
    let mut place = BusPlace::make(alloc, 2)?;
    place.reserve(64)?;
    let mut out = Octets::make(alloc);
    out.reserve(208)?;
    let tag = Tag {
        id: 7,
        flags: 0,
        dev: 0,
    };
    let request = Request {
        time: 5,
        addr: 0x100,
        len: 2,
        mask: 1,
        lanes: 2,
    };
    place.put_write_request(tag, ALL, request, &[0xaa, 0xbb], &mut out);
    Ok(out.as_slice() == WRITE.as_slice())
}

#[test]
fn accesses_have_codes_and_enables(rt: HostRuntime) {
    assert!(rt; matches!(has_a_code(rt.alloc()), Ok(true)));
    assert!(rt; matches!(takes_enables_in_turn(rt.alloc()), Ok(true)));
    assert!(rt; matches!(says_its_enables(rt.alloc()), Ok(true)));
}
