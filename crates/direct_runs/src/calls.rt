// Calls as they are expected.
use cos_api::{Access, Answer, Call, Reply, Want};

fn access(write: bool, addr: u64, value: u64) -> Access {
    Access {
        write,
        posted: false,
        addr,
        size: 4,
        value,
        lanes: 0xf,
    }
}

/// A write of four bytes with that code.
pub fn wrote(tick: u64, port: u32, addr: u64, value: u64, code: u8) -> Call {
    Call::Access {
        tick,
        port,
        access: access(true, addr, value),
        answer: Answer { code, value: 0 },
    }
}

/// A read of four bytes that gave that value.
pub fn gave(tick: u64, port: u32, addr: u64, value: u64) -> Call {
    Call::Access {
        tick,
        port,
        access: access(false, addr, 0),
        answer: Answer { code: 0, value },
    }
}

/// A level on a line.
pub fn line(tick: u64, port: u32, due: u64, line: u32, level: bool) -> Call {
    Call::Served {
        tick,
        port,
        due,
        want: Want::Line { line, level },
        reply: Reply {
            code: 0,
            size: 0,
            bytes: [0; 64],
        },
    }
}
