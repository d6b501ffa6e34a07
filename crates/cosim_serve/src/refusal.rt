// What the command refuses.
use end_device::EndFault;

/// What `device` refuses.
#[derive(Clone, Copy, Debug, PartialEq, Eq, Drop)]
pub enum DeviceRefusal {
    /// The link of that port was received to this fault, which is the peer's.
    Peer { port: u32, fault: EndFault },
}
