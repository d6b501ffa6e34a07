// What is refused of a configuration and of the files that it names.
use cos_config::ConfigFault;

/// Why a configuration or a file that it names is refused. Lines count from 1.
#[derive(Drop)]
pub enum InputsRefusal {
    /// The first rule that the configuration breaks.
    Config(ConfigFault),
    /// The machine's image has no byte.
    ImageEmpty,
    /// The machine's image has `got` bytes, and the RAM `size`.
    ImageTooLarge { size: u64, got: u64 },
    /// The first line of the script that is none; 1 also where the file isn't UTF-8.
    Line { line: u64 },
    /// The UART input of that port has so many bytes, more than 65,536.
    UartInput { port: u32, len: u64 },
    /// The disk image of that port has so many bytes: none, no multiple of 512, or more than 16,777,216.
    DiskImage { port: u32, len: u64 },
}
