// The UART.
use crate::Register;
use cos_api::{Access, Answer, Caps, Device, Reply, Want};
use cos_base::{NoMemory, Octets};
use dev_line::{Request, Wire, given, refused};
use std::alloc::Global;
use std::marker::Model;

/// A UART with the registers DATA, STATUS and CONTROL. Byte i of its input arrives at tick (i + 1) times the gap. Its interrupt
/// level is high where bit 0 of CONTROL is set and an arrived byte isn't taken.
#[derive(Drop)]
pub struct Uart {
    input: Octets,
    gap: u32,
    taken: usize,
    enabled: bool,
    sent: Octets,
    wire: Wire,
}

impl Model for Uart {
    ghost use Rattle.std.specs.Prelude.{◌≤◌, length};
    ghost use Rattle.dev_uart.specs.Uarts.{UartRegisters};

    ghost Value = { UartRegisters };

    ghost view = { λ u. record {
      input = u.input.bytes;
      gap = u.gap;
      taken = u.taken;
      enabled = u.enabled;
      sent = u.sent.bytes;
      wire = u.wire;
    } };

    ghost invariant = { λ u. (u.gap ≤ 1000000) × (length u.input.bytes ≤ 65536) };
}

impl Uart {
    ghost use Rattle.std.specs.Prelude.{◌≡◌, ◌≤◌, ◌++◌, length, IfOk, OnOk, OnErr};
    ghost use Rattle.dev_uart.specs.Uarts as uarts;

    /// A UART at reset with that input, of at most 65,536 bytes, a byte each `gap` ticks, 1 to 1,000,000. Its level goes to the
    /// line of that number.
    pub fn make(alloc: Global, line: u32, input: Octets, gap: u32) -> Uart
        requires few { length input.bytes ≤ 65536 }
        requires gaps { 1 ≤ gap }
        requires near { gap ≤ 1000000 }
        ensures { result ≡ uarts.fresh_uart line input.bytes gap }
    {
        Uart {
            input,
            gap,
            taken: 0,
            enabled: false,
            sent: Octets::make(alloc),
            wire: Wire::make(line),
        }
    }

    /// The bytes sent.
    pub fn sent(&self) -> &[u8]
        ensures { result.now ≡ self.now.sent }
    {
        self.sent.as_slice()
    }

    fn arrival(&self) -> Option<u64>
        ensures { result ≡ uarts.arrival self.now }
    {
        if self.taken < self.input.len() {
            Some((self.taken as u64 + 1) * u64::from(self.gap))
        } else {
            None
        }
    }

    fn has_byte(&self) -> bool
        ensures { result ≡ uarts.has_byte self.now }
    {
        match self.arrival() {
            None => false,
            Some(tick) => tick <= self.wire.seen(),
        }
    }

    fn rises(&self) -> Option<u64>
        ensures { result ≡ uarts.rises self.now }
    {
        if self.enabled { self.arrival() } else { None }
    }

    fn level(&self) -> bool
        ensures { result ≡ uarts.level self.now }
    {
        self.enabled && self.has_byte()
    }

    fn send(&mut self, value: u32) -> Result<(), NoMemory>
        ensures ok { OnOk result (self.new ≡ uarts.sent_also self.old value) }
        ensures err { OnErr result (self.new ≡ self.old) }
    {
        self.sent.push_all(&[(value % 256) as u8])
    }

    fn settle(&mut self)
        ensures { self.new ≡ uarts.settled self.old }
    {
        let level = self.level();
        self.wire.apply(false, level, false);
    }

    fn read(&mut self, register: Register) -> Answer
        ensures { uarts.register_read self.old register ≡ (self.new, result) }
    {
        match register {
            Register::Data => self.take(),
            Register::Status => given(u64::from(self.has_byte())),
            Register::Control => given(u64::from(self.enabled)),
        }
    }

    fn take(&mut self) -> Answer
        ensures { uarts.taken_if self.old (uarts.has_byte self.old) ≡ (self.new, result) }
    {
        if !self.has_byte() {
            return given(0);
        }
        let byte = self.input.as_slice()[self.taken];
        self.taken += 1;
        given(u64::from(byte))
    }

    // What is sent takes memory, so it is sent before the UART is brought to the tick.
    fn write(&mut self, tick: u64, register: Register, value: u32) -> Result<Answer, NoMemory>
        requires { self.old.wire.seen ≤ tick }
        ensures ok { IfOk result (λ a. uarts.accessed (uarts.register_written (uarts.advanced self.old tick) register value) ≡ (self.new, a)) }
        ensures err { OnErr result (self.new ≡ self.old) }
    {
        match register {
            Register::Data => {
                self.send(value)?;
                self.advance(tick);
                self.settle();
                Ok(given(0))
            }
            Register::Status => {
                self.advance(tick);
                self.settle();
                Ok(refused(1))
            }
            Register::Control => {
                self.advance(tick);
                self.enabled = value % 2 == 1;
                self.settle();
                Ok(given(0))
            }
        }
    }

    fn perform(&mut self, tick: u64, request: Request<Register>) -> Result<Answer, NoMemory>
        requires { self.old.wire.seen ≤ tick }
        ensures ok { IfOk result (λ a. uarts.accessed (uarts.acted (uarts.advanced self.old tick) request) ≡ (self.new, a)) }
        ensures err { OnErr result (self.new ≡ self.old) }
    {
        match request {
            Request::Read(register) => {
                self.advance(tick);
                let answer = self.read(register);
                self.settle();
                Ok(answer)
            }
            Request::Write(register, value) => self.write(tick, register, value),
            Request::Refused(code) => {
                self.advance(tick);
                self.settle();
                Ok(refused(code))
            }
        }
    }
}

impl Device for Uart {
    ghost use Rattle.dev_uart.specs.Uarts.{uart_model};
    ghost use Rattle.dev_uart.specs.UartLaws.{uart_lawful};

    ghost model = { uart_model };

    ghost lawful = { uart_lawful };

    fn access(&mut self, tick: u64, access: Access) -> Result<Answer, NoMemory> {
        self.perform(tick, Request::of(&access, Register::at(access.addr)))
    }

    fn advance(&mut self, tick: u64) {
        let rises = self.rises();
        self.wire.pass_rising(rises, tick);
    }

    fn seen(&self) -> u64 {
        self.wire.seen()
    }

    fn want(&self) -> Option<Want> {
        self.wire.want_before(None)
    }

    fn due(&self) -> u64 {
        self.wire.due()
    }

    fn left(&self) -> u32 {
        self.wire.left(self.level())
    }

    fn needs(&self) -> Caps {
        Caps {
            base: false,
            enables: false,
            posted: false,
        }
    }

    fn feed(&mut self, reply: Reply) {
        let _reply = reply;
        let level = self.level();
        self.wire.answer(level, false);
    }
}
