// How the program ends.
use cos_config::ConfigFault;
use cosim_model::EndFault;
use outcomes::Object;
use rp_packet::PacketFault;
use rv_asm::Cause;

/// What is wrong with a file that a command or a configuration names. Lines count from 1, all else from 0.
#[derive(Clone, Copy, Debug, PartialEq, Eq)]
pub enum InputFault {
    /// The machine's image has no byte.
    ImageEmpty,
    /// The machine's image has `got` bytes, and the RAM `size`.
    ImageTooLarge { size: u64, got: u64 },
    /// The first line of a script or of packet text that is none; 1 also where the file isn't UTF-8.
    Line { line: u64 },
    /// The first faulty line of an assembly, and its first fault from the left; line 1 and `Syntax` also where the file isn't UTF-8.
    Assembly { line: u64, cause: Cause },
    /// The UART input of that port has so many bytes, more than 65,536.
    UartInput { port: u32, len: u64 },
    /// The disk image of that port has so many bytes: none, no multiple of 512, or more than 16,777,216.
    DiskImage { port: u32, len: u64 },
    /// A packet of the stream isn't one.
    Malformed(PacketFault),
    /// The stream ends within the packet that begins at `start`, of which it holds so many bytes.
    Truncated { start: u64, held: u64 },
    /// The file has so many bytes, which is no multiple of 4.
    Words { len: u64 },
}

/// How the program ends.
#[derive(Drop)]
pub enum Status {
    /// The command did its work.
    Done,
    /// The words are no command. `index` is that of the first word with which no command begins, counted from 0, or the number of words where more are missing.
    Usage {
        index: u64,
    },
    /// A rule of the configuration is broken.
    Config(ConfigFault),
    /// A file is refused.
    Input(InputFault),
    /// The end of that port's link stopped by this fault.
    Peer {
        port: u32,
        fault: EndFault<PacketFault>,
    },
    /// The object didn't do what it was asked; `count` is its count of faults.
    Outside {
        object: Object,
        count: u64,
    },
    /// Want of memory.
    NoMemory,
    /// The child of that port ended with that status, which isn't 0.
    Child {
        port: u32,
        status: u8,
    },
}

impl Status {
    ghost use Rattle.std.specs.Prelude.{◌≡◌};
    ghost use Rattle.statuses.specs.Statuses.{code_of};

    /// The number that the program ends with.
    pub fn code(&self) -> u8
        ensures { result ≡ code_of self.now }
    {
        match self {
            Status::Done => 0,
            Status::Usage { .. } => 1,
            Status::Config(_) => 2,
            Status::Input(_) => 3,
            Status::Peer { .. } => 4,
            Status::Outside { .. } => 5,
            Status::NoMemory => 6,
            Status::Child { .. } => 8,
        }
    }
}
