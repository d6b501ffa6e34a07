// What the command refuses.
use cosim_inputs::InputsRefusal;

/// What `local` refuses.
#[derive(Drop)]
pub enum LocalRefusal {
    /// The configuration, or a file that it names.
    Inputs(InputsRefusal),
    /// The first line of the file of steps that spells none, counted from 1; 1 also where the file isn't UTF-8.
    Steps { line: u64 },
}
