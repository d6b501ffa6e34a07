use crate::cosim;
use cos_base::{NoMemory, Numbers, Octets};
use cos_children::MemSpawner;
use cos_memory::{MemFiles, MemLink, MemNet, MemSink, Said};
use std::alloc::{AllocError, Global};
use std::test::Fail;

fn list(alloc: Global, texts: &[&str]) -> Result<Vec<String>, AllocError> {
    let mut words = Vec::new(alloc);
    for text in texts {
        match words.push(String::from_str(alloc, text)?) {
            Ok(()) => {}
            Err(_) => return Err(AllocError),
        }
    }
    Ok(words)
}

/// A network with one link, which says nothing.
fn net_of(alloc: Global) -> Result<MemNet<Said>, NoMemory> {
    let said = Said::make(alloc, Octets::make(alloc));
    let link = MemLink::make(alloc, said, Numbers::make(alloc), Numbers::make(alloc));
    let mut links = Vec::new(alloc);
    match links.push(link) {
        Ok(()) => {}
        Err(_) => return Err(NoMemory),
    }
    Ok(MemNet::make(alloc, links, Numbers::make(alloc)))
}

/// Whether the program ends so over a file `code` and that network: with this number and line, and this text on `out`.
fn ends(
    alloc: Global,
    words: &[&str],
    code: u8,
    text: &[u8],
    line: &str,
) -> Result<bool, NoMemory> {
    let mut held = Octets::make(alloc);
    held.push_all(&[0x73, 0, 0, 0])?;
    let mut files = MemFiles::make(alloc, Numbers::make(alloc));
    files.add("code", held)?;
    let mut net = net_of(alloc)?;
    let mut children = MemSpawner::make(alloc, Numbers::make(alloc), Numbers::make(alloc));
    let mut out = MemSink::make(alloc, 100, Numbers::make(alloc))?;
    let mut err = MemSink::make(alloc, 100, Numbers::make(alloc))?;
    let words = match list(alloc, words) {
        Ok(words) => words,
        Err(_) => return Err(NoMemory),
    };
    let status = cosim(
        alloc,
        &words,
        &mut files,
        &mut out,
        &mut err,
        &mut net,
        &mut children,
    );
    Ok(status.code() == code && out.bytes() == text && err.bytes() == line.as_bytes())
}

#[test]
fn the_words_say_what_is_done(rt: HostRuntime) -> Result<(), Fail> {
    let alloc = rt.alloc();
    assert!(rt; ends(alloc, &["dis", "code"], 0, b"ecall\n", "")?);
    let ended = "cosim: peer p0: Ended 0\n";
    assert!(rt; ends(alloc, &["device", "s", "null"], 4, b"", ended)?);
    let usage = "cosim: usage at word 3\n";
    assert!(rt; ends(alloc, &["device", "s", "nil"], 1, b"", usage)?);
    Ok(())
}
