// How a run ended.
ghost use Rattle.std.specs.Prelude.{◌≡◌, ◌++◌, [], ◌∷◌, length, OnOk, OnErr};

use cos_base::{NoMemory, Octets};
use cosim_model::Closing;
use std::alloc::Global;
use std::marker::Model;

/// What a UART sent.
#[derive(Drop)]
pub struct Out {
    pub port: u32,
    pub bytes: Octets,
}

/// What the UARTs sent, by port. Contracts see the list.
#[derive(Drop)]
pub struct Outs {
    items: Vec<Out>,
}

impl Model for Outs {
    ghost use Rattle.std.specs.Prelude.{List};
    ghost use Rattle.transcript.specs.declared.ending.Out.{Out};

    ghost Value = { List Out };

    ghost view = { λ o. o.items.items };
}

impl Outs {
    /// The empty list. It takes no memory.
    pub fn make(alloc: Global) -> Outs
        ensures { result ≡ [] }
    {
        Outs {
            items: Vec::new(alloc),
        }
    }

    /// The number of UARTs.
    pub fn len(&self) -> usize
        ensures { result ≡ length self.now }
    {
        self.items.len()
    }

    /// What each of them sent.
    pub fn as_slice(&self) -> &[Out]
        ensures { result.now ≡ self.now }
    {
        self.items.as_slice()
    }

    /// Appends one.
    pub fn push(&mut self, item: Out) -> Result<(), NoMemory>
        ensures ok { OnOk result (self.new ≡ self.old ++ item ∷ []) }
        ensures err { OnErr result (self.new ≡ self.old) }
    {
        Ok(self.items.push(item)?)
    }
}

/// How a run ended.
#[derive(Drop)]
pub struct Ending {
    /// The code with which the machine stopped; nothing where the budget of units ran out before.
    pub stop: Option<u32>,
    /// The ticks that the run took.
    pub ticks: u64,
    pub closing: Closing,
    /// The SHA-256 of the RAM's bytes.
    pub ram: [u8; 32],
    pub outs: Outs,
}
