// Streams that are cut, ended and refused, by hand and over a link. Every row is a function that says whether it comes out so.
use cos_base::{NoMemory, Numbers, Octets};
use cos_memory::{MemLink, Said};
use rp_framing::{FrameFault, Framer, ReceiveFault, SendFault, Truncated, receive, send};
use rp_packet::{Cause, Packet, PacketFault};
use std::alloc::Global;

/// A sync request, id 7, time 1000, and an extended write, id 1, time 2, of four bytes with four enables.
const SYNC_AND_WRITE: [u8; 116] = [
    0, 0, 0, 6, 0, 0, 0, 8, 0, 0, 0, 7, 0, 0, 0, 0, 0, 0, 0, 0, 0, 0, 0, 0, 0, 0, 3, 232, 0, 0, 0,
    4, 0, 0, 0, 68, 0, 0, 0, 1, 0, 0, 0, 0, 0, 0, 0, 0, 0, 0, 0, 0, 0, 0, 0, 2, 0, 0, 0, 0, 0, 0,
    0, 4, 0, 0, 0, 0, 0, 0, 0, 0, 0, 0, 0, 4, 0, 0, 0, 0, 0, 0, 0, 4, 0, 0, 0, 0, 0, 0, 0, 0, 0, 0,
    0, 80, 0, 0, 0, 0, 0, 0, 0, 84, 0, 0, 0, 4, 65, 0, 0, 0, 255, 255, 0, 0,
];

/// The same sync request, and an old-layout read, id 1, time 100, of four bytes at 8.
const SYNC_AND_READ: [u8; 86] = [
    0, 0, 0, 6, 0, 0, 0, 8, 0, 0, 0, 7, 0, 0, 0, 0, 0, 0, 0, 0, 0, 0, 0, 0, 0, 0, 3, 232, 0, 0, 0,
    3, 0, 0, 0, 38, 0, 0, 0, 1, 0, 0, 0, 0, 0, 0, 0, 0, 0, 0, 0, 0, 0, 0, 0, 100, 0, 0, 0, 0, 0, 0,
    0, 0, 0, 0, 0, 0, 0, 0, 0, 8, 0, 0, 0, 4, 0, 0, 0, 0, 0, 0, 0, 4, 0, 0,
];

/// A device's hello with all capabilities, and the same with four unused bytes before them.
const HELLOS: [u8; 92] = [
    0, 0, 0, 1, 0, 0, 0, 24, 0, 0, 0, 0, 0, 0, 0, 0, 0, 0, 0, 0, 0, 4, 0, 3, 0, 0, 0, 32, 0, 3, 0,
    0, 0, 0, 0, 1, 0, 0, 0, 2, 0, 0, 0, 3, 0, 0, 0, 1, 0, 0, 0, 28, 0, 0, 0, 0, 0, 0, 0, 0, 0, 0,
    0, 0, 0, 4, 0, 3, 0, 0, 0, 36, 0, 3, 0, 0, 0, 0, 0, 0, 0, 0, 0, 1, 0, 0, 0, 2, 0, 0, 0, 3,
];

/// Their value twice, each in its canonical spelling.
const HELLOS_AGAIN: [u8; 88] = [
    0, 0, 0, 1, 0, 0, 0, 24, 0, 0, 0, 0, 0, 0, 0, 0, 0, 0, 0, 0, 0, 4, 0, 3, 0, 0, 0, 32, 0, 3, 0,
    0, 0, 0, 0, 1, 0, 0, 0, 2, 0, 0, 0, 3, 0, 0, 0, 1, 0, 0, 0, 24, 0, 0, 0, 0, 0, 0, 0, 0, 0, 0,
    0, 0, 0, 4, 0, 3, 0, 0, 0, 32, 0, 3, 0, 0, 0, 0, 0, 1, 0, 0, 0, 2, 0, 0, 0, 3,
];

/// The header of an address translation, which no packet has.
const TRANSLATION: [u8; 20] = [
    0, 0, 0, 7, 255, 255, 255, 255, 0, 0, 0, 0, 0, 0, 0, 0, 0, 0, 0, 0,
];

/// The header of a nop of 65,536 further bytes.
const LONG_NOP: [u8; 20] = [0, 0, 0, 0, 0, 1, 0, 0, 0, 0, 0, 0, 0, 0, 0, 0, 0, 0, 0, 0];

/// The header of a nop of one byte more, which is too long.
const TOO_LONG: [u8; 20] = [0, 0, 0, 0, 0, 1, 0, 1, 0, 0, 0, 0, 0, 0, 0, 0, 0, 0, 0, 0];

/// Feeds bytes, with no word of what is held then: what its callers prove of it is less so.
fn fed(framer: &mut Framer, bytes: &[u8]) -> Option<()> {
    framer.feed(bytes).ok()
}

/// The next packet, with no word of which.
fn next_of(framer: &mut Framer) -> Result<Option<Packet>, FrameFault> {
    framer.next()
}

/// The next packet of a link, with no word of which.
fn received_of(
    framer: &mut Framer,
    link: &mut MemLink<Said>,
) -> Result<Option<Packet>, ReceiveFault> {
    receive(framer, link)
}

/// Takes every packet that is whole, and writes each into `out`; it says how many.
fn drain(framer: &mut Framer, out: &mut Octets) -> Result<u32, FrameFault> {
    for count in 0..100 {
        match next_of(framer)? {
            Some(packet) => match packet.write_into(out) {
                Ok(()) => {}
                Err(_) => return Err(FrameFault::NoMemory),
            },
            None => return Ok(count),
        }
    }
    Err(FrameFault::NoMemory)
}

/// What the packets of a stream are written as, which is fed in two pieces.
fn cut_at(alloc: Global, stream: &[u8], cut: usize) -> Option<Octets> {
    let mut framer = Framer::make(alloc);
    let mut out = Octets::make(alloc);
    let (front, rest) = stream.split_at(cut.min(stream.len()));
    fed(&mut framer, front)?;
    drain(&mut framer, &mut out).ok()?;
    fed(&mut framer, rest)?;
    drain(&mut framer, &mut out).ok()?;
    Some(out)
}

/// Whether a stream gives packets that are written as these bytes, however it is cut in two.
fn is_same_at_every_cut(alloc: Global, stream: &[u8], written: &[u8]) -> bool {
    for cut in 0..200 {
        match cut_at(alloc, stream, cut) {
            Some(out) => {
                if out.as_slice() != written {
                    return false;
                }
            }
            None => return false,
        }
    }
    true
}

#[test]
fn a_cut_stream_gives_the_same_packets(rt: HostRuntime) {
    let streams: [(&[u8], &[u8]); 3] = [
        (&SYNC_AND_WRITE, &SYNC_AND_WRITE),
        (&SYNC_AND_READ, &SYNC_AND_READ),
        (&HELLOS, &HELLOS_AGAIN),
    ];
    for (stream, written) in streams {
        assert!(rt; is_same_at_every_cut(rt.alloc(), stream, written));
    }
}

/// Whether a stream that is fed byte by byte gives a packet after so many bytes and at its end, and nothing else.
fn comes_at(alloc: Global, stream: &[u8], first: u32) -> Option<bool> {
    let mut framer = Framer::make(alloc);
    let mut out = Octets::make(alloc);
    let mut count = 0u32;
    for byte in stream {
        fed(&mut framer, &[*byte])?;
        count = count.saturating_add(1);
        let is_due = count == first || count as usize == stream.len();
        if drain(&mut framer, &mut out).ok()? != u32::from(is_due) {
            return Some(false);
        }
    }
    Some(true)
}

#[test]
fn a_packet_comes_with_its_last_byte(rt: HostRuntime) {
    assert!(rt; comes_at(rt.alloc(), &SYNC_AND_WRITE, 28) == Some(true));
    assert!(rt; comes_at(rt.alloc(), &SYNC_AND_READ, 28) == Some(true));
}

/// A framer that was fed a stream and the first 19 bytes of a header, and whose packets were taken.
fn fed_before(alloc: Global, before: &[u8], header: &[u8]) -> Option<Framer> {
    let mut framer = Framer::make(alloc);
    fed(&mut framer, before)?;
    fed(&mut framer, header.split_at(19.min(header.len())).0)?;
    drain(&mut framer, &mut Octets::make(alloc)).ok()?;
    Some(framer)
}

/// Whether a framer that is fed this has this fault.
fn is_refused_behind(alloc: Global, framer: &mut Framer, bytes: &[u8], fault: FrameFault) -> bool {
    fed(framer, bytes).is_some()
        && framer.ready()
        && drain(framer, &mut Octets::make(alloc)) == Err(fault)
}

/// Whether this header is refused once it is whole, behind the packets of a stream, and is still refused when more was fed.
fn is_refused(alloc: Global, before: &[u8], header: &[u8], place: u32, cause: Cause) -> bool {
    let fault = FrameFault::Malformed(PacketFault {
        start: before.len() as u64,
        place,
        cause,
    });
    let last = header.split_at(19.min(header.len())).1;
    match fed_before(alloc, before, header) {
        Some(mut framer) => {
            !framer.ready()
                && is_refused_behind(alloc, &mut framer, last, fault)
                && is_refused_behind(alloc, &mut framer, &SYNC_AND_READ, fault)
        }
        None => false,
    }
}

#[test]
fn a_fault_comes_with_its_header_and_stays(rt: HostRuntime) {
    let alloc = rt.alloc();
    let translation = Cause::Translation { number: 7 };
    let too_long = Cause::TooLong { len: 65537 };
    assert!(rt; is_refused(alloc, &SYNC_AND_READ, &TRANSLATION, 0, translation));
    assert!(rt; is_refused(alloc, &[], &TOO_LONG, 4, too_long));
}

/// Whether so many packets can be fed and then taken, one by one.
fn holds_many(alloc: Global, count: u32) -> bool {
    let mut framer = Framer::make(alloc);
    let (sync, _) = SYNC_AND_READ.split_at(28);
    for _ in 0..count {
        if fed(&mut framer, sync).is_none() {
            return false;
        }
    }
    for _ in 0..count {
        if !matches!(next_of(&mut framer), Ok(Some(_))) {
            return false;
        }
    }
    matches!(next_of(&mut framer), Ok(None))
}

/// Whether a framer with room for the longest packet has room for a piece as long as one byte of it is missing.
fn has_room_at_the_last_byte(alloc: Global) -> Option<bool> {
    let mut framer = Framer::make(alloc);
    framer.reserve().ok()?;
    fed(&mut framer, &LONG_NOP)?;
    for _ in 0..65535 {
        fed(&mut framer, &[0])?;
    }
    let has_room = !framer.ready() && framer.room() >= 4097;
    fed(&mut framer, &[0])?;
    Some(has_room && matches!(next_of(&mut framer), Ok(Some(_))))
}

#[test]
fn many_packets_and_the_longest_are_held(rt: HostRuntime) {
    // taking one of many moves no other: this ends in time
    assert!(rt; holds_many(rt.alloc(), 100_000));
    assert!(rt; has_room_at_the_last_byte(rt.alloc()) == Some(true));
}

fn octets_of(alloc: Global, bytes: &[u8]) -> Result<Octets, NoMemory> {
    let mut octets = Octets::make(alloc);
    octets.push_all(bytes)?;
    Ok(octets)
}

/// One number, so many times.
fn repeated(alloc: Global, number: u32, count: usize) -> Result<Numbers, NoMemory> {
    let mut numbers = Numbers::make(alloc);
    for _ in 0..count {
        numbers.push(number)?;
    }
    Ok(numbers)
}

/// The number of a call that no row makes.
const NEVER: u32 = u32::MAX;

/// A link that says these bytes in pieces of one size, and whose call of this number, counted from 0, fails.
fn link_of(alloc: Global, said: &[u8], cut: u32, failing: u32) -> Result<MemLink<Said>, NoMemory> {
    let bytes = octets_of(alloc, said)?;
    let cuts = repeated(alloc, cut, said.len())?;
    let failing = repeated(alloc, failing, 1)?;
    Ok(MemLink::make(alloc, Said::make(alloc, bytes), cuts, failing))
}

/// Receives until no packet comes, and says how many came and why no more.
fn received(
    framer: &mut Framer,
    link: &mut MemLink<Said>,
    out: &mut Octets,
) -> (u32, Option<ReceiveFault>) {
    for count in 0..100 {
        match received_of(framer, link) {
            Ok(Some(packet)) => match packet.write_into(out) {
                Ok(()) => {}
                Err(_) => return (count, Some(ReceiveFault::NoMemory)),
            },
            Ok(None) => return (count, None),
            Err(fault) => return (count, Some(fault)),
        }
    }
    (100, Some(ReceiveFault::NoMemory))
}

/// Whether so many packets come of a stream over a link that cuts it into pieces of one size, and why no more.
fn comes_over_link(
    alloc: Global,
    stream: &[u8],
    cut: u32,
    count: u32,
    fault: Option<ReceiveFault>,
) -> bool {
    let mut framer = Framer::make(alloc);
    let mut out = Octets::make(alloc);
    match link_of(alloc, stream, cut, NEVER) {
        Ok(mut link) => received(&mut framer, &mut link, &mut out) == (count, fault),
        Err(_) => false,
    }
}

/// A stream that ends inside a packet.
fn truncated(start: u64, held: u64) -> Option<ReceiveFault> {
    Some(ReceiveFault::Truncated(Truncated { start, held }))
}

#[test]
fn a_stream_is_received_however_the_link_cuts_it(rt: HostRuntime) {
    let refused = ReceiveFault::Malformed(PacketFault {
        start: 0,
        place: 0,
        cause: Cause::Translation { number: 7 },
    });
    let (cut_read, _) = SYNC_AND_READ.split_at(85);
    let (cut_sync, _) = SYNC_AND_READ.split_at(19);
    let streams: [(&[u8], u32, Option<ReceiveFault>); 5] = [
        (&SYNC_AND_WRITE, 2, None),
        (cut_read, 1, truncated(28, 57)),
        (cut_sync, 0, truncated(0, 19)),
        (&[], 0, None),
        (&TRANSLATION, 0, Some(refused)),
    ];
    for cut in 0..120 {
        for (stream, count, fault) in streams {
            assert!(rt; comes_over_link(rt.alloc(), stream, cut, count, fault));
        }
    }
}

/// Whether a link whose second call fails is blamed for it, and all packets come behind that.
fn is_received_behind_a_failure(alloc: Global) -> Result<bool, NoMemory> {
    let mut link = link_of(alloc, &SYNC_AND_WRITE, 7, 2)?;
    let mut framer = Framer::make(alloc);
    let mut out = Octets::make(alloc);
    let failed = Some(ReceiveFault::Link { count: 1 });
    Ok(
        received(&mut framer, &mut link, &mut out) == (0, failed)
            && received(&mut framer, &mut link, &mut out) == (2, None)
            && out.as_slice() == SYNC_AND_WRITE.as_slice(),
    )
}

/// Whether bytes are sent over a link, and its second call is blamed.
fn is_sent_before_a_failure(alloc: Global) -> Result<bool, NoMemory> {
    let mut link = link_of(alloc, &[], 0, 1)?;
    let is_sent = send(&SYNC_AND_READ, &mut link).is_ok();
    let is_heard = link.peer().heard() == SYNC_AND_READ.as_slice();
    let failed = send(&SYNC_AND_READ, &mut link);
    Ok(is_sent && is_heard && failed == Err(SendFault::Link { count: 1 }))
}

#[test]
fn a_link_that_fails_is_blamed_and_nothing_is_lost(rt: HostRuntime) {
    assert!(rt; matches!(is_received_behind_a_failure(rt.alloc()), Ok(true)));
    assert!(rt; matches!(is_sent_before_a_failure(rt.alloc()), Ok(true)));
}
