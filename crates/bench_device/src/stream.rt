// What a machine sends a timer.
use cos_base::{NoMemory, Octets};
use std::alloc::Global;

/// How often the level of the timer rises and falls in the stream.
const ROUNDS: u32 = 1000;

/// How many packets the stream has: a hello, and 7 for each round.
pub const PACKETS: u32 = 7001;

/// The registers of a timer.
const NOW: u64 = 0;

const COMPARE: u64 = 4;

const CONTROL: u64 = 8;

/// Commands of packets.
const READ: u32 = 3;

const WRITE: u32 = 4;

/// A hello of version 4.3 that offers all capabilities.
const HELLO: [u8; 44] = [
    0, 0, 0, 1, 0, 0, 0, 24, 0, 0, 0, 0, 0, 0, 0, 0, 0, 0, 0, 0, 0, 4, 0, 3, 0, 0, 0, 32, 0, 3, 0,
    0, 0, 0, 0, 1, 0, 0, 0, 2, 0, 0, 0, 3,
];

/// The bytes that are sent, and the number of the next request.
#[derive(Drop)]
struct Sender {
    bytes: Octets,
    number: u32,
}

impl Sender {
    fn word(&mut self, word: u32) -> Result<(), NoMemory> {
        self.bytes.push_all(&word.to_be_bytes())
    }

    fn long(&mut self, long: u64) -> Result<(), NoMemory> {
        self.bytes.push_all(&long.to_be_bytes())
    }

    /// The header of the next request, whose body has so many bytes.
    fn header(&mut self, command: u32, size: u32, flags: u32) -> Result<(), NoMemory> {
        let number = self.number;
        self.number = number.wrapping_add(1);
        self.word(command)?;
        self.word(size)?;
        self.word(number)?;
        self.word(flags)?;
        self.word(0)
    }

    /// The fields that an access of a register has in both layouts.
    fn fields(&mut self, time: u64, attributes: u64, register: u64) -> Result<(), NoMemory> {
        self.long(time)?;
        self.long(attributes)?;
        self.long(register)?;
        self.word(4)?;
        self.word(0)?;
        self.word(4)?;
        self.bytes.push_all(&[0, 0])
    }

    /// The fields that the extended layout has besides: where data and enables stand, and how many enables there are.
    fn extension(&mut self, enables_place: u32, enables: u32) -> Result<(), NoMemory> {
        self.bytes.push_all(&[0, 0, 0, 0, 0, 0])?;
        self.word(80)?;
        self.word(0)?;
        self.word(enables_place)?;
        self.word(enables)
    }

    fn read(&mut self, time: u64, register: u64) -> Result<(), NoMemory> {
        self.header(READ, 60, 0)?;
        self.fields(time, 4, register)?;
        self.extension(0, 0)
    }

    /// A read in the old layout.
    fn read_old(&mut self, time: u64, register: u64) -> Result<(), NoMemory> {
        self.header(READ, 38, 0)?;
        self.fields(time, 0, register)
    }

    fn write(&mut self, time: u64, register: u64, value: u32, flags: u32) -> Result<(), NoMemory> {
        self.header(WRITE, 64, flags)?;
        self.fields(time, 4, register)?;
        self.extension(0, 0)?;
        self.bytes.push_all(&value.to_le_bytes())
    }

    /// A write that says that each byte is enabled.
    fn write_enabled(&mut self, time: u64, register: u64, value: u32) -> Result<(), NoMemory> {
        self.header(WRITE, 68, 0)?;
        self.fields(time, 4, register)?;
        self.extension(84, 4)?;
        self.bytes.push_all(&value.to_le_bytes())?;
        self.bytes.push_all(&[255, 255, 255, 255])
    }

    fn sync(&mut self, time: u64) -> Result<(), NoMemory> {
        self.header(6, 8, 0)?;
        self.long(time)
    }

    /// Sets the timer so that its level rises before the first sync, and disables it, so that the level has fallen before the second.
    fn round(&mut self, round: u32) -> Result<(), NoMemory> {
        let start = 16 * u64::from(round);
        let compare = round.wrapping_mul(16).wrapping_add(8);
        self.write_enabled(start, COMPARE, compare)?;
        self.write(start + 1, CONTROL, 1, 4)?;
        self.read(start + 2, NOW)?;
        self.sync(start + 10)?;
        self.write(start + 11, CONTROL, 0, 0)?;
        self.read_old(start + 12, COMPARE)?;
        self.sync(start + 13)
    }
}

/// A hello, and then the packets of each round.
pub fn make_stream(alloc: Global) -> Result<Octets, NoMemory> {
    let mut sender = Sender {
        bytes: Octets::make(alloc),
        number: 1,
    };
    sender.bytes.push_all(&HELLO)?;
    for round in 0..ROUNDS {
        sender.round(round)?;
    }
    Ok(sender.bytes)
}
