// What the command refuses.
use cosim_inputs::InputsRefusal;
use cosim_serve::DeviceRefusal;

/// What `device` with a configuration refuses.
#[derive(Drop)]
pub enum PortRefusal {
    /// The configuration, or the file that the port's device begins with.
    Inputs(InputsRefusal),
    /// What came over the port's link.
    Peer(DeviceRefusal),
}
