// The DMA.
use crate::engine::{chunk_mask, front, place, size};
use crate::{Engine, Register};
use cos_api::{Access, Answer, Caps, Device, Reply, Want};
use cos_base::NoMemory;
use dev_line::{Request, Wire, given, refused};
use std::marker::Model;

/// A DMA with the registers SRC, DST, LEN, MASK, CONTROL and STATUS. It copies in chunks of 64 bytes, the last one shorter, each
/// fetched and then stored. Its interrupt level is high where bit 1 of CONTROL is set, a copy is done and none runs.
#[derive(Drop)]
pub struct Dma {
    source: u32,
    destination: u32,
    len: u32,
    mask: u32,
    enabled: bool,
    done: bool,
    error: bool,
    engine: Engine,
    wire: Wire,
}

impl Model for Dma {
    ghost use Rattle.dev_dma.specs.Copies.{IsRunning};
    ghost use Rattle.dev_dma.specs.Dmas.{DmaRegisters};

    ghost Value = { DmaRegisters };

    ghost view = { λ d. record {
      source = d.source;
      destination = d.destination;
      len = d.len;
      mask = d.mask;
      enabled = d.enabled;
      done = d.done;
      error = d.error;
      engine = d.engine;
      wire = d.wire;
    } };

    ghost invariant = { λ d. IsRunning d.len d.engine };
}

impl Dma {
    ghost use Rattle.std.specs.Prelude.{◌≡◌, false};
    ghost use Rattle.dev_dma.specs.Dmas as dmas;

    /// A DMA at reset, whose level goes to the line of that number.
    pub fn make(line: u32) -> Dma
        ensures { result ≡ dmas.fresh_dma line }
    {
        Dma {
            source: 0,
            destination: 0,
            len: 0,
            mask: u32::MAX,
            enabled: false,
            done: false,
            error: false,
            engine: Engine::Idle,
            wire: Wire::make(line),
        }
    }

    fn is_busy(&self) -> bool
        ensures { result ≡ dmas.is_busy self.now.engine }
    {
        self.engine.is_busy()
    }

    fn level(&self) -> bool
        ensures { result ≡ dmas.level self.now }
    {
        self.enabled && self.done && !self.engine.is_busy()
    }

    fn chunk_want(&self) -> Option<Want>
        ensures { result ≡ dmas.chunk_want self.now self.now.engine }
    {
        match self.engine {
            Engine::Idle => None,
            Engine::Fetching { after } => Some(Want::Fetch {
                addr: u64::from(self.source) + place(self.len, after),
                size: size(self.len, after),
            }),
            Engine::Storing { after, bytes } => {
                let size = size(self.len, after);
                Some(Want::Store {
                    addr: u64::from(self.destination) + place(self.len, after),
                    size,
                    bytes: front(&bytes, size),
                    mask: chunk_mask(self.mask, size),
                })
            }
        }
    }

    fn engine_left(&self) -> u32
        ensures { result ≡ dmas.engine_left self.now.engine }
    {
        match self.engine {
            Engine::Idle => 0,
            Engine::Fetching { after } => 2 * (after + 1) + 1,
            Engine::Storing { after, .. } => 2 * (after + 1),
        }
    }

    fn read(&self, register: Register) -> Answer
        ensures { result ≡ dmas.register_read self.now register }
    {
        match register {
            Register::Source => given(u64::from(self.source)),
            Register::Destination => given(u64::from(self.destination)),
            Register::Length => given(u64::from(self.len)),
            Register::Mask => given(u64::from(self.mask)),
            Register::Control => given(2 * u64::from(self.enabled)),
            Register::Status => given(
                u64::from(self.engine.is_busy())
                    + 2 * u64::from(self.done)
                    + 4 * u64::from(self.error),
            ),
        }
    }

    fn write(&mut self, register: Register, value: u32) -> Answer
        ensures { dmas.register_written self.old register value ≡ (self.new, result) }
    {
        match register {
            Register::Control => return self.control(value % 2 == 1, value / 2 % 2 == 1),
            Register::Status => {
                self.done = false;
                self.error = false;
            }
            _ if self.engine.is_busy() => return refused(1),
            Register::Source => self.source = value,
            Register::Destination => self.destination = value,
            Register::Length => self.len = value,
            Register::Mask => self.mask = value,
        }
        given(0)
    }

    fn control(&mut self, starts: bool, enabled: bool) -> Answer
        ensures { dmas.controlled self.old starts enabled ≡ (self.new, result) }
    {
        if !starts {
            self.enabled = enabled;
            return given(0);
        }
        if self.engine.is_busy() || self.len < 1 || self.len > 65_536 {
            return refused(1);
        }
        self.enabled = enabled;
        self.done = false;
        self.error = false;
        self.engine = Engine::Fetching {
            after: (self.len - 1) / 64,
        };
        given(0)
    }

    fn act(&mut self, request: Request<Register>) -> Answer
        ensures { dmas.acted self.old request ≡ (self.new, result) }
    {
        match request {
            Request::Read(register) => self.read(register),
            Request::Write(register, value) => self.write(register, value),
            Request::Refused(code) => refused(code),
        }
    }

    fn settle(&mut self, wanted: bool)
        ensures { self.new ≡ dmas.settled wanted self.old }
    {
        let level = self.level();
        let works = self.engine.is_busy();
        self.wire.apply(wanted, level, works);
    }

    fn end(&mut self, error: bool)
        ensures { self.new ≡ dmas.ended self.old error }
    {
        self.engine = Engine::Idle;
        self.done = true;
        self.error = error;
        self.settle(false);
    }

    fn work(&mut self, reply: &Reply)
        requires { self.old.wire.pending ≡ false }
        ensures { self.new ≡ dmas.worked self.old self.old.engine reply.now.code reply.now.bytes }
    {
        match self.engine {
            Engine::Idle => {}
            Engine::Fetching { after } => {
                if reply.code != 0 {
                    return self.end(true);
                }
                self.engine = Engine::Storing {
                    after,
                    bytes: reply.bytes,
                };
                self.wire.renew();
            }
            Engine::Storing { after, .. } => {
                if reply.code != 0 {
                    return self.end(true);
                }
                if after == 0 {
                    return self.end(false);
                }
                self.engine = Engine::Fetching { after: after - 1 };
                self.wire.renew();
            }
        }
    }
}

impl Device for Dma {
    ghost use Rattle.std.specs.Prelude.{◌≡◌, ◌≤◌, IfOk, IsOk, OnErr};
    ghost use Rattle.dev_dma.specs.Dmas.{dma_model};
    ghost use Rattle.dev_dma.specs.DmaLaws.{dma_lawful};

    ghost model = { dma_model };

    ghost lawful = { dma_lawful };

    /// Always answers Ok.
    fn access(&mut self, tick: u64, access: Access) -> Result<Answer, NoMemory>
        requires { dma_model.seen self.old ≤ tick }
        ensures ok { IfOk result (λ a. dma_model.access self.old tick access ≡ (self.new, a)) }
        ensures err { OnErr result (self.new ≡ self.old) }
        ensures always { IsOk result }
    {
        let wanted = self.is_busy();
        self.advance(tick);
        let answer = self.act(Request::of(&access, Register::at(access.addr)));
        self.settle(wanted);
        Ok(answer)
    }

    fn advance(&mut self, tick: u64) {
        self.wire.pass(tick);
    }

    fn seen(&self) -> u64 {
        self.wire.seen()
    }

    fn want(&self) -> Option<Want> {
        self.wire.want_before(self.chunk_want())
    }

    fn due(&self) -> u64 {
        self.wire.due()
    }

    fn left(&self) -> u32 {
        self.wire.left(self.level()) + self.engine_left()
    }

    fn needs(&self) -> Caps {
        Caps {
            base: true,
            enables: true,
            posted: false,
        }
    }

    fn feed(&mut self, reply: Reply) {
        if !self.wire.is_pending() {
            return self.work(&reply);
        }
        let level = self.level();
        let works = self.engine.is_busy();
        self.wire.answer(level, works);
    }
}
