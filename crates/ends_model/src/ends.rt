use cosim_model::{Access, Ticket};

/// A sync that a device end has taken and not answered.
#[derive(Clone, Copy, PartialEq, Eq, Debug)]
pub struct OpenSync {
    pub ticket: Ticket,
    pub time: u64,
}

/// What a machine end does next.
#[derive(Clone, Copy, PartialEq, Eq, Debug)]
pub enum Phase {
    /// Sends its hello on a port.
    Greet { port: u32 },
    /// Takes the hello of a port.
    Meet { port: u32 },
    /// Does a unit, or begins a boundary.
    Run,
    /// Takes the answer to an access.
    AnswerFrom { port: u32, access: Access },
    /// Sends a boundary's sync on a port.
    SyncTo { port: u32 },
    /// Takes requests and the answers to a boundary's syncs, and serves.
    Gather,
    Done,
}

/// What a machine end did in a turn.
#[derive(Clone, Copy, PartialEq, Eq, Debug)]
pub enum Turn {
    /// A unit of the master's own.
    Unit,
    /// A packet was sent.
    Sent { port: u32 },
    /// A packet was taken.
    Took { port: u32 },
    /// A held request that is posted was served.
    Served { port: u32 },
    /// A boundary without ports.
    Marked,
    /// A packet of this port is awaited, and none is whole.
    NotYet { port: u32 },
    Done,
}

/// What a device end did in a turn.
#[derive(Clone, Copy, PartialEq, Eq, Debug)]
pub enum DeviceTurn {
    /// Its hello was sent.
    Greeted,
    /// A packet was taken.
    Took,
    /// No packet is whole.
    NotYet,
}
