// Devices by hand: registers, refusals, and levels that wait to be fed. Runs of devices stand in tests/, over the built program.
ghost use Rattle.std.specs.Prelude.{◌≤◌, length};

use cos_api::{Access, Answer, Device, Reply, Want};
use cos_base::{NoMemory, Octets};
use cos_parts::AnyDevice;
use dev_dma::Dma;
use dev_timer::Timer;
use dev_uart::Uart;
use std::alloc::Global;

/// Tick, whether it writes, address, size, value, and code and value of the answer.
type Row = (u64, bool, u64, u8, u64, u8, u64);

/// How many calls are left, and when what is wanted is due.
type Due = (u32, u64, Want);

const FED: Reply = Reply {
    code: 0,
    size: 4,
    bytes: [0; 64],
};

/// Whether a device answers an access so.
fn answers(device: &mut AnyDevice, row: Row) -> bool {
    let (tick, write, addr, size, value, code, answered) = row;
    if tick < device.seen() {
        return false;
    }
    let access = Access {
        write,
        posted: false,
        addr,
        size,
        value,
        lanes: if size == 4 { 0xf } else { 0x7 },
    };
    let answer = Answer {
        code,
        value: answered,
    };
    device.access(tick, access) == Ok(answer)
}

/// Whether a device answers each of these accesses so.
fn answers_all(device: &mut AnyDevice, rows: &[Row]) -> bool {
    for row in rows {
        if !answers(device, *row) {
            return false;
        }
    }
    true
}

/// Whether a device wants this, and is fed.
fn wants(device: &mut AnyDevice, due: Due) -> bool {
    let (left, tick, wanted) = due;
    if device.left() != left || device.due() != tick {
        return false;
    }
    match device.want() {
        Some(want) => {
            device.feed(FED);
            want == wanted
        }
        None => false,
    }
}

/// Whether a device wants all of this, one after the other.
fn wants_all(device: &mut AnyDevice, dues: &[Due]) -> bool {
    for due in dues {
        if !wants(device, *due) {
            return false;
        }
    }
    true
}

/// Advances a device that has seen no later tick.
fn advance(device: &mut AnyDevice, tick: u64) {
    if device.seen() <= tick {
        device.advance(tick);
    }
}

fn level(line: u32, level: bool) -> Want {
    Want::Line { line, level }
}

#[test]
fn a_timer_answers_and_its_level_rises_and_falls(rt: HostRuntime) {
    let mut timer = AnyDevice::Timer(Timer::make(0));
    let rows = [
        (0, false, 4, 4, 0, 0, 0xffff_ffff),
        (100, true, 4, 4, 5, 0, 0),
        (101, false, 4, 4, 0, 0, 5),
        (102, false, 0, 4, 0, 0, 0x66),
        (103, false, 8, 4, 0, 0, 0),
        (104, false, 0, 3, 0, 1, 0),
        (104, true, 0, 4, 1, 1, 0),
        (104, false, 12, 4, 0, 2, 0),
        (104, false, 12, 2, 0, 1, 0),
        (104, true, 8, 4, 0xffff_fffe, 0, 0),
        (104, false, 8, 4, 0, 0, 0),
        (0x1_0000_0002, false, 0, 4, 0, 0, 2),
    ];
    assert!(rt; answers_all(&mut timer, &rows));
    let mut timer = AnyDevice::Timer(Timer::make(3));
    let rows = [
        (0, true, 4, 4, 5, 0, 0),
        (1, true, 8, 4, 1, 0, 0),
        (8, true, 4, 4, 100, 0, 0),
    ];
    assert!(rt; answers_all(&mut timer, &rows));
    advance(&mut timer, 10);
    let dues = [(2, 5, level(3, true)), (1, 10, level(3, false))];
    assert!(rt; wants_all(&mut timer, &dues) && timer.left() == 0);
}

/// A UART at line 1 with this input, a byte of which arrives in each gap.
fn uart(alloc: Global, bytes: &[u8], gap: u32) -> Result<AnyDevice, NoMemory>
    requires few { length bytes.now ≤ 65536 }
    requires gaps { 1 ≤ gap }
    requires near { gap ≤ 1000000 }
{
    let mut input = Octets::make(alloc);
    input.push_all(bytes)?;
    Ok(AnyDevice::Uart(Uart::make(alloc, 1, input, gap)))
}

/// Whether the device is a UART that sent these bytes.
fn has_sent(device: &AnyDevice, bytes: &[u8]) -> bool {
    match device {
        AnyDevice::Uart(uart) => uart.sent() == bytes,
        _ => false,
    }
}

/// Whether bytes arrive a gap apart and are sent at once.
fn receives_and_sends(alloc: Global) -> Result<bool, NoMemory> {
    let mut device = uart(alloc, b"ABC", 3)?;
    let rows = [
        (2, false, 4, 4, 0, 0, 0),
        (2, false, 0, 4, 0, 0, 0),
        (3, false, 4, 4, 0, 0, 1),
        (3, false, 0, 4, 0, 0, 0x41),
        (5, false, 0, 4, 0, 0, 0),
        (6, true, 0, 4, 0x14f, 0, 0),
        (9, false, 0, 4, 0, 0, 0x42),
        (9, false, 0, 4, 0, 0, 0x43),
        (90, false, 0, 4, 0, 0, 0),
        (90, true, 4, 4, 1, 1, 0),
        (90, false, 12, 4, 0, 2, 0),
        (90, true, 0, 4, 0x4b, 0, 0),
    ];
    Ok(answers_all(&mut device, &rows) && has_sent(&device, b"OK"))
}

/// Whether the level stands while a byte waits.
fn holds_its_level(alloc: Global) -> Result<bool, NoMemory> {
    let mut device = uart(alloc, b"AB", 1000)?;
    let enabled = answers(&mut device, (7, true, 8, 4, 1, 0, 0));
    advance(&mut device, 1500);
    let high = wants(&mut device, (1, 1000, level(1, true)));
    let taken = answers(&mut device, (1600, false, 0, 4, 0, 0, 0x41));
    Ok(enabled && high && taken && wants(&mut device, (1, 1600, level(1, false))))
}

#[test]
fn a_uart_answers_and_its_level_stands(rt: HostRuntime) {
    assert!(rt; matches!(receives_and_sends(rt.alloc()), Ok(true)));
    assert!(rt; matches!(holds_its_level(rt.alloc()), Ok(true)));
}

/// Whether a DMA that copies four bytes from tick 3 on takes only its interrupt's switch and STATUS, and has its calls left.
fn is_busy() -> bool {
    let mut device = AnyDevice::Dma(Dma::make(2));
    let rows = [
        (3, true, 0, 4, 0x8000_0000, 0, 0),
        (3, true, 4, 4, 0x8001_0000, 0, 0),
        (3, true, 8, 4, 4, 0, 0),
        (3, true, 16, 4, 1, 0, 0),
        (3, true, 0, 4, 1, 1, 0),
        (3, true, 4, 4, 1, 1, 0),
        (3, true, 8, 4, 1, 1, 0),
        (3, true, 12, 4, 1, 1, 0),
        (3, true, 16, 4, 3, 1, 0),
        (3, true, 16, 4, 2, 0, 0),
        (3, true, 20, 4, 0, 0, 0),
    ];
    answers_all(&mut device, &rows) && device.left() == 3
}

/// A copy of four zeros.
fn copy(fetched: u32, stored: u32, tick: u64) -> [Due; 2] {
    let fetch = Want::Fetch {
        addr: 0x8000_0000,
        size: 4,
    };
    let store = Want::Store {
        addr: 0x8001_0000,
        size: 4,
        bytes: [0; 64],
        mask: 0xf,
    };
    [(fetched, tick, fetch), (stored, tick, store)]
}

/// Whether a level that waits is fed before the chunks of the next copy, and falls before them.
fn feeds_its_level_first() -> bool {
    let mut device = AnyDevice::Dma(Dma::make(2));
    let rows = [
        (3, true, 0, 4, 0x8000_0000, 0, 0),
        (3, true, 4, 4, 0x8001_0000, 0, 0),
        (3, true, 8, 4, 4, 0, 0),
        (3, true, 16, 4, 3, 0, 0),
    ];
    answers_all(&mut device, &rows)
        && wants_all(&mut device, &copy(3, 2, 3))
        && answers(&mut device, (8, true, 16, 4, 3, 0, 0))
        && wants(&mut device, (5, 3, level(2, true)))
        && wants(&mut device, (4, 8, level(2, false)))
        && wants_all(&mut device, &copy(3, 2, 8))
        && wants(&mut device, (1, 8, level(2, true)))
        && device.want().is_none()
}

#[test]
fn a_dma_refuses_and_feeds_its_level_first(rt: HostRuntime) {
    let mut fresh = AnyDevice::Dma(Dma::make(2));
    let rows = [
        (0, true, 0x10, 4, 1, 1, 0),
        (0, false, 0x18, 4, 0, 2, 0),
        (0, false, 0, 1, 0, 1, 0),
        (0, true, 8, 4, 65_537, 0, 0),
        (0, true, 0x10, 4, 3, 1, 0),
        (0, false, 0x10, 4, 0, 0, 0),
        (0, false, 12, 4, 0, 0, 0xffff_ffff),
    ];
    assert!(rt; answers_all(&mut fresh, &rows) && fresh.left() == 0);
    assert!(rt; is_busy());
    assert!(rt; feeds_its_level_first());
}
