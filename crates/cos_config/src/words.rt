// The words that keys take.
ghost use Rattle.std.specs.Prelude.{◌≡◌};
ghost use Rattle.cos_config.specs.Tables.{machine_kind_of, port_kind_of, posting_of};

use crate::{MachineKind, PortKind};

pub fn machine_kind(word: &str) -> Option<MachineKind>
    ensures { result ≡ machine_kind_of word.now }
{
    match word {
        "rv32i" => Some(MachineKind::Rv),
        "script" => Some(MachineKind::Script),
        _ => None,
    }
}

pub fn port_kind(word: &str) -> Option<PortKind>
    ensures { result ≡ port_kind_of word.now }
{
    match word {
        "null" => Some(PortKind::Null),
        "timer" => Some(PortKind::Timer),
        "uart" => Some(PortKind::Uart),
        "dma" => Some(PortKind::Dma),
        "disk" => Some(PortKind::Disk),
        _ => None,
    }
}

/// Whether it is posted.
pub fn posting(word: &str) -> Option<bool>
    ensures { result ≡ posting_of word.now }
{
    match word {
        "answered" => Some(false),
        "posted" => Some(true),
        _ => None,
    }
}
