// A list of moments.
ghost use Rattle.std.specs.Prelude.{◌≡◌, ◌++◌, [], ◌∷◌, length, map, OnOk, OnErr};
ghost use Rattle.histories.specs.Moments.{moment_of};

use cos_base::NoMemory;
use cosim_model::Call;
use std::alloc::Global;
use std::marker::Model;

/// What a history tells: a call, or a boundary, at which devices advance to the tick before wants are served.
#[derive(Clone, Copy, PartialEq, Eq, Debug)]
pub enum Moment {
    Called(Call),
    Boundary { tick: u64 },
}

/// The moments of a run, in their order. Contracts see them as those of the model.
#[derive(Drop)]
pub struct Moments {
    items: Vec<Moment>,
}

impl Model for Moments {
    ghost use Rattle.std.specs.Prelude.{List, map};
    ghost use Rattle.cosim_model.specs.Direct as model;

    ghost Value = { List model.Moment };

    ghost use Rattle.histories.specs.Moments.{moment_of};

    ghost view = { λ m. map moment_of m.items.items };
}

impl Moments {
    /// The empty list. It takes no memory.
    pub fn make(alloc: Global) -> Moments
        ensures { result ≡ [] }
    {
        Moments {
            items: Vec::new(alloc),
        }
    }

    /// The number of moments.
    pub fn len(&self) -> usize
        ensures { result ≡ length self.now }
    {
        self.items.len()
    }

    /// The moments.
    pub fn as_slice(&self) -> &[Moment]
        ensures { map moment_of result.now ≡ self.now }
    {
        self.items.as_slice()
    }

    /// Appends one moment.
    pub fn push(&mut self, moment: Moment) -> Result<(), NoMemory>
        ensures ok { OnOk result (self.new ≡ self.old ++ moment_of moment ∷ []) }
        ensures err { OnErr result (self.new ≡ self.old) }
    {
        Ok(self.items.push(moment)?)
    }
}
