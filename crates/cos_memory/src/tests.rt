ghost use Rattle.std.specs.Prelude.{◌≡◌, IfOk};

use crate::{MemFiles, MemLink, MemNet, MemSink, Said};
use cos_base::{
    Failed, FileFault, Files, Got, Link, NetFault, Network, NoMemory, Numbers, Octets, Put, Sink,
};
use std::alloc::Global;
use std::test::Fail;

fn octets(alloc: Global, bytes: &[u8]) -> Result<Octets, NoMemory>
    ensures { IfOk result (λ o. o.bytes ≡ bytes.now) }
{
    let mut octets = Octets::make(alloc);
    octets.push_all(bytes)?;
    Ok(octets)
}

fn numbers(alloc: Global, items: &[u32]) -> Result<Numbers, NoMemory> {
    let mut numbers = Numbers::make(alloc);
    for item in items {
        numbers.push(*item)?;
    }
    Ok(numbers)
}

#[test]
fn sink_fails_at_its_number_and_past_its_room(rt: HostRuntime) -> Result<(), Fail> {
    let mut sink = MemSink::make(rt.alloc(), 5, numbers(rt.alloc(), &[1])?)?;
    let answers = [
        sink.put(b"ab"),
        sink.put(b"cd"),
        sink.put(b"cd"),
        sink.put(b"ef"),
    ];
    assert_eq!(rt; answers, [Ok(()), Err(Failed), Ok(()), Err(Failed)]);
    assert_eq!(rt; sink.bytes(), b"abcd".as_slice());
    Ok(())
}

/// What a read of files gave, and whether it is this.
fn reads<F: Files>(files: &mut F, name: &str, wanted: &[u8]) -> bool {
    match files.read(name) {
        Ok(bytes) => bytes.as_slice() == wanted,
        Err(_) => false,
    }
}

#[test]
fn files_fail_at_their_number_and_where_absent(rt: HostRuntime) -> Result<(), Fail> {
    let mut files = MemFiles::make(rt.alloc(), numbers(rt.alloc(), &[2])?);
    files.add("in", octets(rt.alloc(), b"old")?)?;
    assert!(rt; matches!(files.write("in", b"new"), Ok(())));
    assert!(rt; reads(&mut files, "in", b"new"));
    assert!(rt; matches!(files.read("in"), Err(FileFault::Failed)));
    assert!(rt; matches!(files.read("out"), Err(FileFault::Failed)));
    Ok(())
}

/// A link that says seven bytes, two at first, and fails at its second call.
fn link_of(alloc: Global) -> Result<MemLink<Said>, NoMemory> {
    let peer = Said::make(alloc, octets(alloc, b"abcdefg")?);
    Ok(MemLink::make(alloc, peer, numbers(alloc, &[2, 0])?, numbers(alloc, &[1])?))
}

#[test]
fn link_keeps_its_cuts_and_fails_at_its_number(rt: HostRuntime) -> Result<(), Fail> {
    let mut link = link_of(rt.alloc())?;
    let mut into = [0; 8];
    assert_eq!(rt; link.read(&mut into), Got::Bytes { count: 2 });
    assert_eq!(rt; link.write(b"x"), Put::Failed);
    assert_eq!(rt; link.write(b"yz"), Put::Bytes { count: 2 });
    assert_eq!(rt; link.read(&mut into), Got::Bytes { count: 5 });
    assert_eq!(rt; &into[..5], b"cdefg".as_slice());
    assert_eq!(rt; link.read(&mut into), Got::End);
    assert_eq!(rt; link.peer().heard(), b"yz".as_slice());
    Ok(())
}

/// A network of one link that fails at its first call.
fn net_of(alloc: Global) -> Result<MemNet<Said>, NoMemory> {
    let peer = Said::make(alloc, Octets::make(alloc));
    let link = MemLink::make(alloc, peer, Numbers::make(alloc), Numbers::make(alloc));
    let mut links = Vec::new(alloc);
    match links.push(link) {
        Ok(()) => {}
        Err(_) => return Err(NoMemory),
    }
    Ok(MemNet::make(alloc, links, numbers(alloc, &[0])?))
}

#[test]
fn network_fails_at_its_number_and_where_no_link_is_left(rt: HostRuntime) -> Result<(), Fail> {
    let mut net = net_of(rt.alloc())?;
    assert!(rt; matches!(net.connect("a"), Err(NetFault::Failed)));
    assert!(rt; net.connect("b").is_ok());
    assert!(rt; matches!(net.accept(0), Err(NetFault::Failed)));
    assert_eq!(rt; net.faults(), 2);
    Ok(())
}
