//! The program `cosim`: it makes the real objects, does what its words say, and ends with the status' number.
#![tactic(auto)]

use cos_adapters::{ChildSpawner, DiskFiles, StdSink, UnixNet, Words, read_words};
use cosim_cli::{cosim, misspelled};
use statuses::{Status, tell_status};
use std::process::ExitCode;

fn main(rt: HostRuntime) -> ExitCode {
    let mut files = DiskFiles::make(rt.alloc(), &rt);
    let mut out = StdSink::make(rt.stdout());
    let mut err = StdSink::make(rt.stderr());
    let mut net = UnixNet::make(rt.alloc(), &rt);
    let mut children = ChildSpawner::make(rt.alloc(), &rt);
    let status = match read_words(rt.alloc(), &rt) {
        Words::All(words) => cosim(
            rt.alloc(),
            &words,
            &mut files,
            &mut out,
            &mut err,
            &mut net,
            &mut children,
        ),
        Words::Misspelled(words) => misspelled(&words, &mut err),
        Words::NoMemory => {
            tell_status(&mut err, &Status::NoMemory);
            Status::NoMemory
        }
    };
    ExitCode::from(status.code())
}
