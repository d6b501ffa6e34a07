// The system block: the registers of the machine itself.
use cos_api::with_level;

/// A register of the system block.
#[derive(Clone, Copy, PartialEq, Eq, Debug)]
pub enum SystemRegister {
    /// Reads 0; a write stops the machine.
    Power,
    /// The levels of the interrupt lines. Read only.
    Lines,
    /// The lines that make the external interrupt pending.
    Enable,
    /// The lines that make the timer interrupt pending.
    TimerEnable,
}

impl SystemRegister {
    ghost use Rattle.std.specs.Prelude.{◌≡◌};
    ghost use Rattle.sys_bus.specs.Systems.{register_at};

    /// The register at an offset into the block, for an access of so many bytes: all four.
    pub fn at(offset: u32, size: u8) -> Option<SystemRegister>
        ensures { result ≡ register_at offset size }
    {
        if size != 4 {
            return None;
        }
        match offset {
            0 => Some(SystemRegister::Power),
            4 => Some(SystemRegister::Lines),
            8 => Some(SystemRegister::Enable),
            12 => Some(SystemRegister::TimerEnable),
            _ => None,
        }
    }
}

/// What the system block holds: the levels of the 32 interrupt lines, line i in bit i, and two masks of lines.
#[derive(Clone, Copy)]
pub struct SystemBlock {
    pub lines: u32,
    pub enable: u32,
    pub timer_enable: u32,
}

impl SystemBlock {
    ghost use Rattle.std.specs.Prelude.{◌≡◌};
    ghost use Rattle.sys_bus.specs.Systems.{fresh_system, pending_of, lined, register_value};

    /// At reset all is 0.
    pub fn reset() -> SystemBlock
        ensures { result ≡ fresh_system }
    {
        SystemBlock {
            lines: 0,
            enable: 0,
            timer_enable: 0,
        }
    }

    /// The interrupts that are pending, as bits of mip.
    #[inline(always)]
    pub fn pending(&self) -> u32
        ensures { result ≡ pending_of self.now }
    {
        if self.lines == 0 {
            return 0;
        }
        let external = if self.lines & self.enable == 0 {
            0
        } else {
            0x800
        };
        let timer = if self.lines & self.timer_enable == 0 {
            0
        } else {
            0x80
        };
        external + timer
    }

    /// Sets the level of a line. There are 32 lines.
    pub fn line(&mut self, number: u32, level: bool)
        ensures { self.new ≡ lined self.old number level }
    {
        self.lines = with_level(self.lines, number, level);
    }

    /// What a register reads as.
    pub fn read(&self, register: SystemRegister) -> u32
        ensures { result ≡ register_value self.now register }
    {
        match register {
            SystemRegister::Power => 0,
            SystemRegister::Lines => self.lines,
            SystemRegister::Enable => self.enable,
            SystemRegister::TimerEnable => self.timer_enable,
        }
    }
}
