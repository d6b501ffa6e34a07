// The timer.
use crate::Register;
use cos_api::{Access, Answer, Caps, Device, Reply, Want};
use cos_base::NoMemory;
use dev_line::{Request, Wire, given, low_word, refused};
use std::marker::Model;

/// A timer with the registers NOW, COMPARE and CONTROL. Its interrupt level is high where bit 0 of CONTROL is set and the tick is
/// at least COMPARE.
#[derive(Drop)]
pub struct Timer {
    compare: u32,
    enabled: bool,
    wire: Wire,
}

impl Model for Timer {
    ghost use Rattle.dev_timer.specs.Timers.{TimerRegisters};

    ghost Value = { TimerRegisters };

    ghost view = { λ t. record { compare = t.compare; enabled = t.enabled; wire = t.wire } };
}

impl Timer {
    ghost use Rattle.std.specs.Prelude.{◌≡◌};
    ghost use Rattle.dev_timer.specs.Timers as timers;

    /// A timer at reset, whose level goes to the line of that number.
    pub fn make(line: u32) -> Timer
        ensures { result ≡ timers.fresh_timer line }
    {
        Timer {
            compare: u32::MAX,
            enabled: false,
            wire: Wire::make(line),
        }
    }

    fn rises(&self) -> Option<u64>
        ensures { result ≡ timers.rises self.now }
    {
        if self.enabled {
            Some(u64::from(self.compare))
        } else {
            None
        }
    }

    fn level(&self) -> bool
        ensures { result ≡ timers.level self.now }
    {
        self.enabled && u64::from(self.compare) <= self.wire.seen()
    }

    fn read(&self, register: Register) -> Answer
        ensures { result ≡ timers.register_read self.now register }
    {
        match register {
            Register::Now => given(u64::from(low_word(self.wire.seen()))),
            Register::Compare => given(u64::from(self.compare)),
            Register::Control => given(u64::from(self.enabled)),
        }
    }

    fn write(&mut self, register: Register, value: u32) -> Answer
        ensures { timers.register_written self.old register value ≡ (self.new, result) }
    {
        match register {
            Register::Now => return refused(1),
            Register::Compare => self.compare = value,
            Register::Control => self.enabled = value % 2 == 1,
        }
        given(0)
    }

    fn act(&mut self, request: Request<Register>) -> Answer
        ensures { timers.acted self.old request ≡ (self.new, result) }
    {
        match request {
            Request::Read(register) => self.read(register),
            Request::Write(register, value) => self.write(register, value),
            Request::Refused(code) => refused(code),
        }
    }
}

impl Device for Timer {
    ghost use Rattle.std.specs.Prelude.{◌≡◌, ◌≤◌, IfOk, IsOk, OnErr};
    ghost use Rattle.dev_timer.specs.Timers.{timer_model};
    ghost use Rattle.dev_timer.specs.TimerLaws.{timer_lawful};

    ghost model = { timer_model };

    ghost lawful = { timer_lawful };

    /// Always answers Ok.
    fn access(&mut self, tick: u64, access: Access) -> Result<Answer, NoMemory>
        requires { timer_model.seen self.old ≤ tick }
        ensures ok { IfOk result (λ a. timer_model.access self.old tick access ≡ (self.new, a)) }
        ensures err { OnErr result (self.new ≡ self.old) }
        ensures always { IsOk result }
    {
        self.advance(tick);
        let answer = self.act(Request::of(&access, Register::at(access.addr)));
        let level = self.level();
        self.wire.apply(false, level, false);
        Ok(answer)
    }

    fn advance(&mut self, tick: u64) {
        let rises = self.rises();
        self.wire.pass_rising(rises, tick);
    }

    fn seen(&self) -> u64 {
        self.wire.seen()
    }

    fn want(&self) -> Option<Want> {
        self.wire.want_before(None)
    }

    fn due(&self) -> u64 {
        self.wire.due()
    }

    fn left(&self) -> u32 {
        self.wire.left(self.level())
    }

    fn needs(&self) -> Caps {
        Caps {
            base: false,
            enables: false,
            posted: false,
        }
    }

    fn feed(&mut self, reply: Reply) {
        let _reply = reply;
        let level = self.level();
        self.wire.answer(level, false);
    }
}
