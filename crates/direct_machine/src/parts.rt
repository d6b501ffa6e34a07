// A list of devices.
ghost use Rattle.std.specs.Prelude.{◌≡◌, ◌++◌, [], ◌∷◌, length, OnOk, OnErr};

use cos_api::Device;
use cos_base::NoMemory;
use std::alloc::Global;
use std::marker::Model;

/// The devices of a machine by port, which contracts see as the list.
#[derive(Drop)]
pub struct Parts<D: Device> {
    items: Vec<D>,
}

impl<D: Device> Model for Parts<D> {
    ghost use Rattle.std.specs.Prelude.{List};

    ghost Value = { List D };

    ghost view = { λ p. p.items.items };
}

impl<D: Device> Parts<D> {
    /// No devices. It takes no memory.
    pub fn make(alloc: Global) -> Parts<D>
        ensures { result ≡ [] }
    {
        Parts {
            items: Vec::new(alloc),
        }
    }

    /// The devices of a `Vec`. It takes no memory.
    pub fn from_vec(items: Vec<D>) -> Parts<D>
        ensures { result ≡ items.items }
    {
        Parts { items }
    }

    /// The devices as a `Vec`. It takes no memory.
    pub fn into_vec(self) -> Vec<D>
        ensures { result.items ≡ self }
    {
        self.items
    }

    /// The number of devices.
    pub fn len(&self) -> usize
        ensures { result ≡ length self.now }
    {
        self.items.len()
    }

    /// The devices.
    pub fn as_slice(&self) -> &[D]
        ensures { result.now ≡ self.now }
    {
        self.items.as_slice()
    }

    /// Appends one device, at the next port. Where memory is wanting, the device is dropped.
    pub fn push(&mut self, item: D) -> Result<(), NoMemory>
        ensures ok { OnOk result (self.new ≡ self.old ++ item ∷ []) }
        ensures err { OnErr result (self.new ≡ self.old) }
    {
        Ok(self.items.push(item)?)
    }
}
