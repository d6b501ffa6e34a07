/// A read or write of a device's registers by the machine's bus.
///
/// Byte i is bits 8i to 8i + 7 of `value`, and is enabled where bit i of `lanes` is set.
#[derive(Clone, Copy, PartialEq, Eq, Debug)]
pub struct Access {
    pub write: bool,
    /// A write that nobody waits for.
    pub posted: bool,
    pub addr: u64,
    /// In bytes: 1, 2, 4 or 8.
    pub size: u8,
    /// The data of a write; 0 for a read.
    pub value: u64,
    pub lanes: u8,
}

/// What a bus hands back.
#[derive(Clone, Copy, PartialEq, Eq, Debug)]
pub struct Answer {
    /// 0 where the access was done.
    pub code: u8,
    /// The data of a read, as in [`Access`].
    pub value: u64,
}

/// What a device asks of the machine.
#[derive(Clone, Copy, PartialEq, Eq, Debug)]
pub enum Want {
    /// A read of 1 to 64 bytes of the machine's memory.
    Fetch {
        addr: u64,
        size: u8,
    },
    /// A write of the first `size` of the bytes, 1 to 64, to the machine's memory: byte i where bit i of `mask` is set.
    Store {
        addr: u64,
        size: u8,
        bytes: [u8; 64],
        mask: u64,
    },
    /// A level on an interrupt line.
    Line {
        line: u32,
        level: bool,
    },
}

/// What the machine says to a want.
#[derive(Clone, Copy, PartialEq, Eq, Debug)]
pub struct Reply {
    /// 0 where the want was served.
    pub code: u8,
    /// How many of the bytes were read: those of a fetch, otherwise 0.
    pub size: u8,
    /// The bytes read, then zeros.
    pub bytes: [u8; 64],
}

/// An access that a machine issues, with the port of the device that it goes to.
#[derive(Clone, Copy, PartialEq, Eq, Debug)]
pub struct Bus {
    pub port: u32,
    pub access: Access,
}

/// What passed between the machine and a device. Times are in ticks, and a tick is one unit of the machine's work.
#[derive(Clone, Copy, PartialEq, Eq, Debug)]
pub enum Call {
    /// The machine's access of a device, with its answer. That of a posted write has code 0 and value 0.
    Access {
        tick: u64,
        port: u32,
        access: Access,
        answer: Answer,
    },
    /// A device's want that was served. `due` is when it arose.
    Served {
        tick: u64,
        port: u32,
        due: u64,
        want: Want,
        reply: Reply,
    },
}

/// The capabilities of one side, or those that both sides have.
#[derive(Clone, Copy, PartialEq, Eq, Debug)]
pub struct Caps {
    /// Capability 1: bus packets may have the extended layout.
    pub base: bool,
    /// Capability 2: bus packets may say which bytes are enabled.
    pub enables: bool,
    /// Capability 3: an interrupt that isn't posted has an answer.
    pub posted: bool,
}

/// How long a run is. There is a boundary, at which devices advance and wants are served, at each multiple of the quantum and
/// at the run's end.
#[derive(Clone, Copy, PartialEq, Eq, Debug)]
pub struct Plan {
    /// In ticks, at least 1.
    pub quantum: u64,
    /// The most ticks that the run takes, at most 4,294,967,295.
    pub units: u64,
}

/// The processor of a machine that is a hart, as it shows at a run's end.
#[derive(Clone, Copy, PartialEq, Eq, Debug)]
pub struct HartView {
    pub pc: u32,
    /// x0 to x31.
    pub regs: [u32; 32],
}

/// What of a machine a run's closing lines tell.
#[derive(Clone, Copy, PartialEq, Eq, Debug)]
pub struct Closing {
    /// Nothing where the machine is no hart.
    pub hart: Option<HartView>,
    /// The levels of the interrupt lines: line i is bit i.
    pub lines: u32,
}
