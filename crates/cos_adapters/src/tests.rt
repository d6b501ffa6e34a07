use crate::{ChildSpawner, DiskFiles, StdSink, UnixNet};
use cos_base::{FileFault, Files, Got, Link, NetFault, Network, NoMemory, Put, Sink};
use cos_children::{SpawnFault, Spawner};
use std::alloc::Global;
use std::test::Fail;
use std::{fs, process};

/// What a read of files gave, and whether it is this.
fn reads<F: Files>(files: &mut F, name: &str, wanted: &[u8]) -> bool {
    match files.read(name) {
        Ok(bytes) => bytes.as_slice() == wanted,
        Err(_) => false,
    }
}

#[test]
fn standard_output_is_a_sink(rt: HostRuntime) {
    let mut out = StdSink::make(rt.stdout());
    assert_eq!(rt; out.put(b"put\n"), Ok(()));
}

#[test]
fn disk_files_are_kept(rt: HostRuntime) -> Result<(), Fail> {
    let path = format!(in rt.alloc(); "/tmp/cos_adapters_file_{}", process::id(rt.process()))?;
    let mut files = DiskFiles::make(rt.alloc(), &rt);
    assert!(rt; matches!(files.read(path.as_str()), Err(FileFault::Failed)));
    assert!(rt; matches!(files.write(path.as_str(), b"kept"), Ok(())));
    assert!(rt; reads(&mut files, path.as_str(), b"kept"));
    fs::remove_file(&rt, path.as_str())?;
    Ok(())
}

/// Sends four bytes one way, and closes; whether they and the end came.
fn carries<A: Link, B: Link>(near: A, far: &mut B) -> bool {
    let mut near = near;
    let mut into = [0; 8];
    let sent = near.write(b"ping");
    drop(near);
    let got = far.read(&mut into);
    sent == Put::Bytes { count: 4 }
        && got == Got::Bytes { count: 4 }
        && &into[..4] == b"ping".as_slice()
        && far.read(&mut into) == Got::End
}

#[test]
fn unix_sockets_carry_bytes(rt: HostRuntime) -> Result<(), Fail> {
    let path = format!(in rt.alloc(); "/tmp/cos_adapters_net_{}", process::id(rt.process()))?;
    let mut net = UnixNet::make(rt.alloc(), &rt);
    let listener = net.listen(path.as_str()).or(Err("no listener"))?;
    let near = net.connect(path.as_str()).or(Err("no connection"))?;
    let mut far = net.accept(listener).or(Err("none accepted"))?;
    assert!(rt; carries(near, &mut far));
    // the listener is gone, with its file
    assert!(rt; matches!(net.connect(path.as_str()), Err(NetFault::Failed)));
    Ok(())
}

fn words(alloc: Global, texts: &[&str]) -> Result<Vec<String>, NoMemory> {
    let mut words = Vec::new(alloc);
    for text in texts {
        words.push(String::from_str(alloc, text)?)?;
    }
    Ok(words)
}

/// How a child of these words ends.
fn ends<S: Spawner>(alloc: Global, spawner: &mut S, texts: &[&str]) -> Result<u8, SpawnFault> {
    let words = words(alloc, texts)?;
    let child = spawner.start(words.as_slice())?;
    spawner.wait(child)
}

#[test]
fn processes_end_with_their_statuses(rt: HostRuntime) {
    let mut spawner = ChildSpawner::make(rt.alloc(), &rt);
    assert_eq!(rt; ends(rt.alloc(), &mut spawner, &["/bin/true"]), Ok(0));
    assert_eq!(rt; ends(rt.alloc(), &mut spawner, &["/bin/false"]), Ok(1));
    assert_eq!(rt;
        ends(rt.alloc(), &mut spawner, &["/bin/sh", "-c", "exit 7"]),
        Ok(7)
    );
    assert_eq!(rt; spawner.faults(), 0);
}

#[test]
fn processes_that_give_no_status_are_failures(rt: HostRuntime) {
    let mut spawner = ChildSpawner::make(rt.alloc(), &rt);
    assert_eq!(rt;
        ends(rt.alloc(), &mut spawner, &["/bin/sh", "-c", "kill -9 $$"]),
        Err(SpawnFault::Failed)
    );
    assert_eq!(rt;
        ends(rt.alloc(), &mut spawner, &["/none/of/this/name"]),
        Err(SpawnFault::Failed)
    );
    assert_eq!(rt;
        ends(rt.alloc(), &mut spawner, &[]),
        Err(SpawnFault::Failed)
    );
    assert_eq!(rt; spawner.wait(0), Err(SpawnFault::Failed));
    assert_eq!(rt; spawner.faults(), 4);
}

#[test]
fn dropping_a_spawner_leaves_no_process_behind(rt: HostRuntime) -> Result<(), Fail> {
    let id = process::id(rt.process());
    let time = format!(in rt.alloc(); "50.{id}")?;
    let sleep = words(rt.alloc(), &["/bin/sleep", time.as_str()])?;
    let quick = words(rt.alloc(), &["/bin/true"])?;
    // whether that sleep runs, and whether the system keeps a child of this process that ended
    let runs = format!(in rt.alloc(); "grep -qs '50[.]{id}' /proc/[0-9]*/cmdline")?;
    let kept = format!(in rt.alloc(); "grep -qs ') Z {id} ' /proc/[0-9]*/stat")?;
    let soon = format!(in rt.alloc();
        "for i in 1 2 3 4 5 6 7 8 9; do {kept} && exit 0; sleep 1; done; exit 1"
    )?;
    let mut others = ChildSpawner::make(rt.alloc(), &rt);
    let mut spawner = ChildSpawner::make(rt.alloc(), &rt);
    assert_eq!(rt; spawner.start(sleep.as_slice()), Ok(0));
    assert_eq!(rt; spawner.start(quick.as_slice()), Ok(1));
    assert_eq!(rt;
        ends(rt.alloc(), &mut others, &["/bin/sh", "-c", runs.as_str()]),
        Ok(0)
    );
    assert_eq!(rt;
        ends(rt.alloc(), &mut others, &["/bin/sh", "-c", soon.as_str()]),
        Ok(0)
    );
    drop(spawner);
    assert_ne!(rt;
        ends(rt.alloc(), &mut others, &["/bin/sh", "-c", runs.as_str()]),
        Ok(0)
    );
    assert_ne!(rt;
        ends(rt.alloc(), &mut others, &["/bin/sh", "-c", kept.as_str()]),
        Ok(0)
    );
    Ok(())
}
