ghost use Rattle.std.specs.Prelude.{◌≡◌, ◌+◌, ◌≤◌, length, drop};
ghost use Rattle.rp_header.specs.Numbers.{number};

use byteorder::{BigEndian, ByteOrder};

/// The byte at a place.
#[tactic(auto, using(crate::specs::NumberLaws::number_byte))]
pub fn u8_at(bytes: &[u8], place: usize) -> u8
    requires { place + 1 ≤ length bytes.now }
    ensures { result ≡ number 1 (drop place bytes.now) }
{
    bytes[place]
}

/// The number in the two bytes from a place on.
#[tactic(auto, unfolding(crate::specs::Numbers::number))]
pub fn u16_at(bytes: &[u8], place: usize) -> u16
    requires { place + 2 ≤ length bytes.now }
    ensures { result ≡ number 2 (drop place bytes.now) }
{
    let (_, rest) = bytes.split_at(place);
    BigEndian::read_u16(rest)
}

/// The number in the four bytes from a place on.
#[tactic(auto, unfolding(crate::specs::Numbers::number))]
pub fn u32_at(bytes: &[u8], place: usize) -> u32
    requires { place + 4 ≤ length bytes.now }
    ensures { result ≡ number 4 (drop place bytes.now) }
{
    let (_, rest) = bytes.split_at(place);
    BigEndian::read_u32(rest)
}

/// The number in the eight bytes from a place on.
#[tactic(auto, unfolding(crate::specs::Numbers::number))]
pub fn u64_at(bytes: &[u8], place: usize) -> u64
    requires { place + 8 ≤ length bytes.now }
    ensures { result ≡ number 8 (drop place bytes.now) }
{
    let (_, rest) = bytes.split_at(place);
    BigEndian::read_u64(rest)
}
