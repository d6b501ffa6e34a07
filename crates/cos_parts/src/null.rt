// The null device.
use cos_api::{Access, Answer, Caps, Device, Reply, Want};
use cos_base::NoMemory;

/// A device without registers, wants or a line. It answers code 2 to every access, whatever its size.
#[derive(Drop)]
pub struct Null {
    seen: u64,
}

impl Null {
    ghost use Rattle.std.specs.Prelude.{◌≡◌};

    /// A null device at tick 0.
    pub fn make() -> Null
        ensures { result ≡ record { seen = 0 } }
    {
        Null { seen: 0 }
    }
}

impl Device for Null {
    ghost use Rattle.std.specs.Prelude.{◌≡◌, ◌≤◌, IfOk, IsOk, OnErr};
    ghost use Rattle.cos_parts.specs.Nulls.{null_model, null_lawful};

    ghost model = { null_model };

    ghost lawful = { null_lawful };

    /// Always answers Ok.
    fn access(&mut self, tick: u64, access: Access) -> Result<Answer, NoMemory>
        requires { null_model.seen self.old ≤ tick }
        ensures ok { IfOk result (λ a. null_model.access self.old tick access ≡ (self.new, a)) }
        ensures err { OnErr result (self.new ≡ self.old) }
        ensures always { IsOk result }
    {
        let _access = access;
        self.seen = tick;
        Ok(Answer { code: 2, value: 0 })
    }

    fn advance(&mut self, tick: u64) {
        self.seen = tick;
    }

    fn seen(&self) -> u64 {
        self.seen
    }

    fn want(&self) -> Option<Want> {
        None
    }

    fn due(&self) -> u64 {
        0
    }

    fn left(&self) -> u32 {
        0
    }

    fn needs(&self) -> Caps {
        Caps {
            base: false,
            enables: false,
            posted: false,
        }
    }

    /// Nothing is ever wanted, so the condition that a want is there, which no call could meet, isn't asked here.
    fn feed(&mut self, reply: Reply)
        ensures { self.new ≡ self.old }
    {
        let _reply = reply;
    }
}
