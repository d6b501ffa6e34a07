// A device of any kind.
use crate::Null;
use cos_api::{Access, Answer, Caps, Device, Reply, Want};
use cos_base::NoMemory;
use dev_disk::Disk;
use dev_dma::Dma;
use dev_timer::Timer;
use dev_uart::Uart;

/// One of the devices that a configuration can name.
#[derive(Drop)]
pub enum AnyDevice {
    Null(Null),
    Timer(Timer),
    Uart(Uart),
    Dma(Dma),
    Disk(Disk),
}

impl Device for AnyDevice {
    ghost use Rattle.cos_parts.specs.AnyDevices.{any_model, any_lawful};

    ghost model = { any_model };

    ghost lawful = { any_lawful };

    fn access(&mut self, tick: u64, access: Access) -> Result<Answer, NoMemory> {
        match self {
            AnyDevice::Null(device) => device.access(tick, access),
            AnyDevice::Timer(device) => device.access(tick, access),
            AnyDevice::Uart(device) => device.access(tick, access),
            AnyDevice::Dma(device) => device.access(tick, access),
            AnyDevice::Disk(device) => device.access(tick, access),
        }
    }

    fn advance(&mut self, tick: u64) {
        match self {
            AnyDevice::Null(device) => device.advance(tick),
            AnyDevice::Timer(device) => device.advance(tick),
            AnyDevice::Uart(device) => device.advance(tick),
            AnyDevice::Dma(device) => device.advance(tick),
            AnyDevice::Disk(device) => device.advance(tick),
        }
    }

    fn seen(&self) -> u64 {
        match self {
            AnyDevice::Null(device) => device.seen(),
            AnyDevice::Timer(device) => device.seen(),
            AnyDevice::Uart(device) => device.seen(),
            AnyDevice::Dma(device) => device.seen(),
            AnyDevice::Disk(device) => device.seen(),
        }
    }

    fn want(&self) -> Option<Want> {
        match self {
            AnyDevice::Null(device) => device.want(),
            AnyDevice::Timer(device) => device.want(),
            AnyDevice::Uart(device) => device.want(),
            AnyDevice::Dma(device) => device.want(),
            AnyDevice::Disk(device) => device.want(),
        }
    }

    fn due(&self) -> u64 {
        match self {
            AnyDevice::Null(device) => device.due(),
            AnyDevice::Timer(device) => device.due(),
            AnyDevice::Uart(device) => device.due(),
            AnyDevice::Dma(device) => device.due(),
            AnyDevice::Disk(device) => device.due(),
        }
    }

    fn left(&self) -> u32 {
        match self {
            AnyDevice::Null(device) => device.left(),
            AnyDevice::Timer(device) => device.left(),
            AnyDevice::Uart(device) => device.left(),
            AnyDevice::Dma(device) => device.left(),
            AnyDevice::Disk(device) => device.left(),
        }
    }

    fn needs(&self) -> Caps {
        match self {
            AnyDevice::Null(device) => device.needs(),
            AnyDevice::Timer(device) => device.needs(),
            AnyDevice::Uart(device) => device.needs(),
            AnyDevice::Dma(device) => device.needs(),
            AnyDevice::Disk(device) => device.needs(),
        }
    }

    fn feed(&mut self, reply: Reply) {
        match self {
            AnyDevice::Null(device) => device.feed(reply),
            AnyDevice::Timer(device) => device.feed(reply),
            AnyDevice::Uart(device) => device.feed(reply),
            AnyDevice::Dma(device) => device.feed(reply),
            AnyDevice::Disk(device) => device.feed(reply),
        }
    }
}
