// The order in which the ends take turns.

/// The order in which the ends of a run take turns, and bytes are delivered.
#[derive(Clone, Copy)]
pub enum Order<'a> {
    /// The schedule of a number.
    Schedule { number: u32 },
    /// The steps that a file lists, and then those of schedule 0.
    Steps { file: &'a str },
}
