use super::values::Access;

/// What a packet is for. Its number is that of the wire format: 0 to 6, in this order.
#[derive(Clone, Copy, PartialEq, Eq, Debug)]
pub enum Command {
    Nop,
    Hello,
    Cfg,
    Read,
    Write,
    Interrupt,
    Sync,
}

/// The side of a link that a session is on.
#[derive(Clone, Copy, PartialEq, Eq, Debug)]
pub enum Role {
    Machine,
    Device,
}

/// A request of the peer that awaits its answer: what the answer repeats of the request's header.
#[derive(Clone, Copy, PartialEq, Eq, Debug)]
pub struct Ticket {
    pub cmd: Command,
    pub id: u32,
    pub flags: u32,
    pub dev: u32,
}

/// What a packet that was taken is to a session.
#[derive(Clone, Copy, PartialEq, Eq, Debug)]
pub enum Event {
    /// Nothing follows.
    Nothing,
    /// The peer's hello.
    Met,
    /// A request that awaits its answer.
    Asked(Ticket),
    /// A posted request: it has no answer.
    Told,
    /// The answer of the own request that isn't a sync.
    Answered,
    /// The answer of the own sync.
    SyncDone,
}

/// Which rule of a session a packet of the peer breaks.
#[derive(Clone, Copy, PartialEq, Eq, Debug)]
pub enum SessionFault {
    /// More packets in one wait than a peer may send; `count` includes this one.
    Flood { count: u64 },
    /// A packet before the hello.
    HelloMissing { cmd: u64 },
    /// A second hello.
    HelloAgain,
    /// A hello of another major version.
    Version { major: u64 },
    /// A capability that is needed and not offered, or used and not common.
    CapMissing { cap: u64 },
    /// A command that this side doesn't take.
    Unsupported { cmd: u64 },
    /// An answer to no request that is out.
    StrayAnswer { id: u64, cmd: u64 },
    /// A read's answer with another length than its request.
    WrongAnswer { id: u64, wanted: u64, got: u64 },
    /// A request with an earlier time than one before it.
    TimeBackwards { had: u64, got: u64 },
    /// A posted request of a device outside a boundary.
    EarlyPosted { id: u64 },
    /// A request while one of its class is unanswered.
    SecondRequest { id: u64 },
}

/// Why an end takes no more turns. `P` says what is wrong with a packet's bytes.
#[derive(Clone, Copy, PartialEq, Eq, Debug)]
pub enum EndFault<P> {
    /// The stream has a packet that is none.
    Malformed(P),
    /// The stream ended inside a packet: `start` is the packet's first byte, `held` its bytes that came.
    Truncated { start: u64, held: u64 },
    /// A packet broke a rule of the session.
    Session(SessionFault),
    /// The stream ended between packets, and more was awaited. `taken` is the bytes that were read.
    Ended { taken: u64 },
    /// More bytes were read than a run may take.
    TooMuch { taken: u64 },
    /// The link failed; `count` is its count of faults.
    Link { count: u64 },
    /// At a machine end: a want that arose at `got`, after `at`, the time of the latest request that was sent to the device.
    LateWant { at: u64, got: u64 },
    /// At a relay: a packet that isn't lawful in its state.
    Astray { cmd: u64 },
    /// Want of memory. All is as before.
    NoMemory,
}

/// An own request that awaits its answer.
#[derive(Clone, Copy, PartialEq, Eq, Debug)]
pub struct OwnRequest {
    pub cmd: Command,
    pub id: u32,
    /// The bytes that a read asks for.
    pub len: u32,
}
