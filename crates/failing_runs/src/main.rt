//! What `run` answers and leaves behind over objects in memory, where a call of the outside fails or a child ends badly: a
//! line a row, with the status, how many children were started, how many of them still run, how many bytes were printed,
//! and the line on standard error.
//!
//! Calls are numbered from 0 for each object: of the network the listens and then the accepts, of the spawner the starts
//! and then the waits in the order of the command, and of the link of port 0 the write of the hello and then a read.
#![tactic(auto)]

mod links;
mod rows;

use crate::rows::{Row, Stopped, put_row};
use cos_adapters::StdSink;
use cos_base::Sink;
use std::alloc::Global;
use std::process::ExitCode;

/// A row in which nothing fails.
fn row(name: &'static str) -> Row {
    Row {
        name,
        net: None,
        children: None,
        link: None,
        first: 0,
        second: 0,
        links: 2,
    }
}

/// The rows in which a call of the network or of the spawner fails.
fn put_openings<K: Sink>(alloc: Global, out: &mut K) -> Result<(), Stopped> {
    let rows = [
        ("the first listen fails", Some(0), None),
        ("the second listen fails", Some(1), None),
        ("the accept of port 0 fails", Some(2), None),
        ("the accept of port 1 fails", Some(3), None),
        ("the start of port 0 fails", None, Some(0)),
        ("the start of port 1 fails", None, Some(1)),
        ("the wait of child 0 fails", None, Some(2)),
        ("the wait of child 1 fails", None, Some(3)),
    ];
    for (name, net, children) in rows {
        let failing = Row {
            net,
            children,
            ..row(name)
        };
        put_row(alloc, &failing, out)?;
    }
    Ok(())
}

/// The rows in which children end with these statuses, and a call of the link of port 0 fails, or a wait.
fn put_endings<K: Sink>(alloc: Global, out: &mut K) -> Result<(), Stopped> {
    let rows = [
        ("child 0 ends with 3", None, None, 3, 0),
        ("child 1 ends with 255", None, None, 0, 255),
        ("both end with other statuses", None, None, 3, 4),
        ("the hello of port 0 isn't sent", Some(0), None, 0, 0),
        ("the first read of link 0 fails", Some(1), None, 0, 0),
        (
            "the first read of link 0 fails, and child 1 ends with 3",
            Some(1),
            None,
            0,
            3,
        ),
        (
            "the wait of child 0 fails, and child 1 ends with 3",
            None,
            Some(2),
            0,
            3,
        ),
        (
            "child 0 ends with 3, and the wait of child 1 fails",
            None,
            Some(3),
            3,
            0,
        ),
    ];
    for (name, link, children, first, second) in rows {
        let failing = Row {
            link,
            children,
            first,
            second,
            ..row(name)
        };
        put_row(alloc, &failing, out)?;
    }
    Ok(())
}

/// Prints all rows.
fn put_rows<K: Sink>(alloc: Global, out: &mut K) -> Result<(), Stopped> {
    put_row(alloc, &row("nothing fails"), out)?;
    put_openings(alloc, out)?;
    put_endings(alloc, out)?;
    let one = Row {
        links: 1,
        ..row("one link is to come")
    };
    put_row(alloc, &one, out)
}

fn main(rt: HostRuntime) -> ExitCode {
    let mut out = StdSink::make(rt.stdout());
    match put_rows(rt.alloc(), &mut out) {
        Ok(()) => ExitCode::SUCCESS,
        Err(_) => ExitCode::from(1),
    }
}
