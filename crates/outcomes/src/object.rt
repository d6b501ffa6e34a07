// The objects of the outside.

/// An object of the outside whose count of faults rose.
#[derive(Clone, Copy, Debug, PartialEq, Eq, Drop)]
pub enum Object {
    /// The files.
    Files,
    /// Standard output.
    Out,
    /// The network.
    Net,
    /// The link of a port.
    Link { port: u32 },
    /// What starts the children.
    Spawner,
}
