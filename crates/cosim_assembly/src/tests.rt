use crate::{AsmRefusal, DisRefusal, asm, dis};
use cos_base::{Files, NoMemory, Numbers, Octets};
use cos_memory::{MemFiles, MemSink};
use outcomes::Stop;
use rv_asm::Cause;
use std::alloc::Global;
use std::test::Fail;

/// Files where `in` has these bytes.
fn files_with(alloc: Global, bytes: &[u8]) -> Result<MemFiles, NoMemory> {
    let mut held = Octets::make(alloc);
    held.push_all(bytes)?;
    let mut files = MemFiles::make(alloc, Numbers::make(alloc));
    files.add("in", held)?;
    Ok(files)
}

#[test]
fn asm_writes_the_image_of_a_text_or_refuses_it(rt: HostRuntime) -> Result<(), Fail> {
    let alloc = rt.alloc();
    let mut files = files_with(alloc, b"addi x2, x0, 65")?;
    assert!(rt; asm(alloc, "in", "out", &mut files).is_ok());
    let image = files.read("out").ok().ok_or("no file was written")?;
    assert_eq!(rt; image.as_slice(), [0x13, 0x01, 0x10, 0x04].as_slice());
    let mut files = files_with(alloc, b"ecall\nnop")?;
    let refused = matches!(
        asm(alloc, "in", "out", &mut files),
        Err(Stop::Refused(AsmRefusal::Assembly {
            line: 2,
            cause: Cause::Name
        }))
    );
    assert!(rt; refused);
    Ok(())
}

#[test]
fn dis_prints_the_line_of_each_word_or_refuses_half_words(rt: HostRuntime) -> Result<(), Fail> {
    let alloc = rt.alloc();
    let mut files = files_with(alloc, &[0x6f, 0, 0, 0, 0x73, 0, 0x50, 0x10])?;
    let mut out = MemSink::make(alloc, 100, Numbers::make(alloc))?;
    assert!(rt; dis(alloc, "in", &mut files, &mut out).is_ok());
    assert_eq!(rt; out.bytes(), b"jal x0, 0\nwfi\n".as_slice());
    let mut files = files_with(alloc, &[0; 5])?;
    let refused = matches!(
        dis(alloc, "in", &mut files, &mut out),
        Err(Stop::Refused(DisRefusal::Words { len: 5 }))
    );
    assert!(rt; refused);
    Ok(())
}
