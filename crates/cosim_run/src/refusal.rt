// What the command refuses.
use cosim_inputs::InputsRefusal;
use rp_session::EndFault;

/// What `run` refuses.
#[derive(Drop)]
pub enum RunRefusal {
    /// The configuration, or a file that it names.
    Inputs(InputsRefusal),
    /// What the child of that port said ended the machine's end with this fault.
    Peer { port: u32, fault: EndFault },
    /// The child of that port ended with that status, which isn't 0.
    Child { port: u32, status: u8 },
}
