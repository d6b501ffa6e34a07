use crate::{FilesFailure, OutFailure, put_before, put_text, read_file, write_file};
use cos_base::Numbers;
use cos_memory::{MemFiles, MemSink};
use std::test::Fail;

#[test]
fn a_file_is_written_and_read_or_the_files_are_blamed(rt: HostRuntime) -> Result<(), Fail> {
    let alloc = rt.alloc();
    let mut files = MemFiles::make(alloc, Numbers::make(alloc));
    assert!(rt; write_file(&mut files, "a", b"text").is_ok());
    let read = match read_file(&mut files, "a") {
        Ok(bytes) => bytes.as_slice() == b"text".as_slice(),
        Err(_) => false,
    };
    assert!(rt; read);
    let absent = matches!(
        read_file(&mut files, "b"),
        Err(FilesFailure::Failed { count: 1 })
    );
    assert!(rt; absent);
    Ok(())
}

#[test]
fn a_text_is_printed_as_far_as_there_is_room(rt: HostRuntime) -> Result<(), Fail> {
    let alloc = rt.alloc();
    let mut out = MemSink::make(alloc, 5, Numbers::make(alloc))?;
    assert!(rt; put_text(&mut out, b"text").is_ok());
    put_before(&mut out, b".");
    assert_eq!(rt; out.bytes(), b"text.".as_slice());
    let full = put_text(&mut out, b"more") == Err(OutFailure { count: 1 });
    assert!(rt; full);
    Ok(())
}
