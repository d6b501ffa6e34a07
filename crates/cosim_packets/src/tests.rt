use crate::{PackRefusal, ShowRefusal, pack, show};
use cos_base::{NoMemory, Numbers, Octets};
use cos_memory::{MemFiles, MemSink};
use outcomes::Stop;
use std::alloc::Global;
use std::test::Fail;

/// A sync request, id 7, time 1000.
const SYNC: [u8; 28] = [
    0, 0, 0, 6, 0, 0, 0, 8, 0, 0, 0, 7, 0, 0, 0, 0, 0, 0, 0, 0, 0, 0, 0, 0, 0, 0, 3, 232,
];

/// Its line.
const LINE: &[u8] = b"sync 7 0 0 1000\n";

/// Files of which one, `file`, holds these bytes, and then those.
fn files_of(alloc: Global, bytes: &[u8], more: &[u8]) -> Result<MemFiles, NoMemory> {
    let mut held = Octets::make(alloc);
    held.push_all(bytes)?;
    held.push_all(more)?;
    let mut files = MemFiles::make(alloc, Numbers::make(alloc));
    files.add("file", held)?;
    Ok(files)
}

#[test]
fn a_stream_is_shown_up_to_what_is_refused(rt: HostRuntime) -> Result<(), Fail> {
    let alloc = rt.alloc();
    let mut files = files_of(alloc, &SYNC, &SYNC[..9])?;
    let mut out = MemSink::make(alloc, 100, Numbers::make(alloc))?;
    let cut = matches!(
        show(alloc, "file", &mut files, &mut out),
        Err(Stop::Refused(ShowRefusal::Truncated { start: 28, held: 9 }))
    );
    assert!(rt; cut);
    assert_eq!(rt; out.bytes(), LINE);
    Ok(())
}

#[test]
fn a_text_is_packed_or_its_first_bad_line_told(rt: HostRuntime) -> Result<(), Fail> {
    let alloc = rt.alloc();
    let mut files = files_of(alloc, LINE, &[])?;
    let mut out = MemSink::make(alloc, 100, Numbers::make(alloc))?;
    assert!(rt; pack(alloc, "file", &mut files, &mut out).is_ok());
    assert_eq!(rt; out.bytes(), SYNC.as_slice());
    let mut files = files_of(alloc, LINE, b"sync 7\n")?;
    let refused = matches!(
        pack(alloc, "file", &mut files, &mut out),
        Err(Stop::Refused(PackRefusal::Line { line: 2 }))
    );
    assert!(rt; refused);
    Ok(())
}
