// How a command ended, as a status of the program.
ghost use Rattle.std.specs.Prelude.{◌≡◌};
ghost use Rattle.statuses.specs.declared.status.Status.{Status};
ghost use Rattle.cosim_cli.specs.Ended.{ended_status, show_refused, pack_refused, asm_refused, dis_refused, inputs_refused, device_refused, port_refused, local_refused, never_refused, run_refused};

use cosim_assembly::{AsmRefusal, DisRefusal};
use cosim_device::PortRefusal;
use cosim_inputs::InputsRefusal;
use cosim_local::LocalRefusal;
use cosim_packets::{PackRefusal, ShowRefusal};
use cosim_run::RunRefusal;
use cosim_serve::DeviceRefusal;
use outcomes::Stop;
use statuses::{InputFault, Status};
use std::convert::Infallible;

/// What a command refuses.
pub trait Refusal: Drop {
    /// The status that tells it.
    ghost refused: { Self → Status };

    /// The status that tells it.
    fn status(self) -> Status
        ensures { result ≡ refused self };
}

/// The status of how a command ended that refuses nothing.
pub fn sure_status_of(ended: Result<(), Stop<Infallible>>) -> Status
    ensures { result ≡ ended_status never_refused ended }
{
    match ended {
        Ok(()) => Status::Done,
        Err(Stop::Refused(never)) => match never {},
        Err(Stop::Outside { object, count }) => Status::Outside { object, count },
        Err(Stop::NoMemory) => Status::NoMemory,
    }
}

/// The status of how a command ended.
pub fn status_of<R: Refusal>(ended: Result<(), Stop<R>>) -> Status
    ensures { result ≡ ended_status R.refused ended }
{
    match ended {
        Ok(()) => Status::Done,
        Err(Stop::Refused(refusal)) => refusal.status(),
        Err(Stop::Outside { object, count }) => Status::Outside { object, count },
        Err(Stop::NoMemory) => Status::NoMemory,
    }
}

impl Refusal for ShowRefusal {
    ghost refused = { show_refused };

    fn status(self) -> Status {
        match self {
            ShowRefusal::Malformed(fault) => Status::Input(InputFault::Malformed(fault)),
            ShowRefusal::Truncated { start, held } => {
                Status::Input(InputFault::Truncated { start, held })
            }
        }
    }
}

impl Refusal for PackRefusal {
    ghost refused = { pack_refused };

    fn status(self) -> Status {
        match self {
            PackRefusal::Line { line } => Status::Input(InputFault::Line { line }),
        }
    }
}

impl Refusal for AsmRefusal {
    ghost refused = { asm_refused };

    fn status(self) -> Status {
        match self {
            AsmRefusal::Assembly { line, cause } => {
                Status::Input(InputFault::Assembly { line, cause })
            }
        }
    }
}

impl Refusal for DisRefusal {
    ghost refused = { dis_refused };

    fn status(self) -> Status {
        match self {
            DisRefusal::Words { len } => Status::Input(InputFault::Words { len }),
        }
    }
}

impl Refusal for InputsRefusal {
    ghost refused = { inputs_refused };

    fn status(self) -> Status {
        match self {
            InputsRefusal::Config(fault) => Status::Config(fault),
            InputsRefusal::ImageEmpty => Status::Input(InputFault::ImageEmpty),
            InputsRefusal::ImageTooLarge { size, got } => {
                Status::Input(InputFault::ImageTooLarge { size, got })
            }
            InputsRefusal::Line { line } => Status::Input(InputFault::Line { line }),
            InputsRefusal::UartInput { port, len } => {
                Status::Input(InputFault::UartInput { port, len })
            }
            InputsRefusal::DiskImage { port, len } => {
                Status::Input(InputFault::DiskImage { port, len })
            }
        }
    }
}

impl Refusal for DeviceRefusal {
    ghost refused = { device_refused };

    fn status(self) -> Status {
        match self {
            DeviceRefusal::Peer { port, fault } => Status::Peer { port, fault },
        }
    }
}

impl Refusal for PortRefusal {
    ghost refused = { port_refused };

    fn status(self) -> Status {
        match self {
            PortRefusal::Inputs(refusal) => refusal.status(),
            PortRefusal::Peer(refusal) => refusal.status(),
        }
    }
}

impl Refusal for RunRefusal {
    ghost refused = { run_refused };

    fn status(self) -> Status {
        match self {
            RunRefusal::Inputs(refusal) => refusal.status(),
            RunRefusal::Peer { port, fault } => Status::Peer { port, fault },
            RunRefusal::Child { port, status } => Status::Child { port, status },
        }
    }
}

impl Refusal for LocalRefusal {
    ghost refused = { local_refused };

    fn status(self) -> Status {
        match self {
            LocalRefusal::Inputs(refusal) => refusal.status(),
            LocalRefusal::Steps { line } => Status::Input(InputFault::Line { line }),
        }
    }
}
