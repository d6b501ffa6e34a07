// Why an image can't be loaded.
use cos_base::NoMemory;

/// Why an image can't be loaded into RAM, which is then as it was.
#[derive(Clone, Copy, PartialEq, Eq, Debug)]
pub enum ImageFault {
    /// The image has no bytes.
    Empty,
    /// The image has more bytes than RAM.
    TooLarge { size: u64, got: u64 },
    NoMemory,
}

impl From<NoMemory> for ImageFault {
    ghost use Rattle.std.specs.Prelude.{◌≡◌};
    ghost use Rattle.sys_ram.specs.declared.fault.ImageFault.TheVariants.{NoMemory as WantOfMemory};

    ghost from_gives = { λ _ fault. fault ≡ WantOfMemory };

    fn from(_: NoMemory) -> Self {
        ImageFault::NoMemory
    }
}
