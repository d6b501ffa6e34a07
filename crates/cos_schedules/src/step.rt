// The steps by which a world of ends is moved.

/// The way of a delivery.
#[derive(Clone, Copy, PartialEq, Eq, Debug, Drop)]
pub enum Way {
    /// To the device end.
    Out,
    /// To the machine end.
    Back,
}

/// A step: an end takes a turn, or bytes are delivered.
#[derive(Clone, Copy, PartialEq, Eq, Debug, Drop)]
pub enum Step {
    Machine,
    Device {
        port: u32,
    },
    Deliver {
        port: u32,
        way: Way,
        /// The most bytes that are delivered.
        count: u32,
    },
}
