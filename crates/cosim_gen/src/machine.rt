// The machine that a number generates.
ghost use Rattle.std.specs.Prelude.{◌≡◌, ◌<◌, ◌%◌, ◌≤◌, length, replicate, IfOk};
ghost use Rattle.cos_base.specs.Octets.{overwritten};
ghost use Rattle.cosim_inputs.specs.Limits.{IsWithinLimits};
ghost use Rattle.cosim_local.specs.Steps.{MayRun, start_by};
ghost use Rattle.cosim_gen.specs.Generated.{port_at, settings_with, settings_of, hart_with, devices_with, generated_start};

use cos_base::{NoMemory, Numbers, Octets};
use cos_config::{Config, MachineKind, Name, PortConfig, PortKind, Ports};
use cos_parts::AnyDevice;
use cosim_ends::parts_fit;
use cosim_generator::{Generated, generate};
use cosim_inputs::{Machine, make_hart};
use cosim_local::Parts;
use cosim_model::Caps;
use dev_dma::Dma;
use dev_timer::Timer;
use dev_uart::Uart;
use std::alloc::Global;
use sys_ram::{ImageFault, Ram};

/// The bytes of RAM.
const RAM: u32 = 131_072;

/// The most ticks of a run.
const UNITS: u64 = 100_000;

/// The settings of a port. It takes no memory.
fn port(
    alloc: Global,
    kind: PortKind,
    base: u32,
    line: u32,
    input: Option<Name>,
    gap: u32,
) -> PortConfig
    ensures { result ≡ port_at kind base line input gap }
{
    PortConfig {
        kind,
        base,
        size: 4_096,
        line,
        posted_stores: false,
        answered_lines: true,
        caps: Caps {
            base: true,
            enables: true,
            posted: true,
        },
        socket: None,
        input,
        gap,
        relay: None,
        disk: None,
        bad: Numbers::make(alloc),
        result: None,
    }
}

/// The settings of a machine with that quantum, and that gap between two bytes of its UART's input.
fn make_config(alloc: Global, quantum: u32, gap: u32) -> Result<Config, NoMemory>
    ensures { IfOk result (λ c. c ≡ settings_with quantum gap) }
{
    let image = Name::copy_of(alloc, "image")?;
    let input = Name::copy_of(alloc, "input")?;
    let mut ports = Ports::make(alloc);
    ports.push(port(alloc, PortKind::Timer, 0x1000_0000, 0, None, 1))?;
    ports.push(port(alloc, PortKind::Uart, 0x1000_1000, 1, Some(input), gap))?;
    ports.push(port(alloc, PortKind::Dma, 0x1000_2000, 2, None, 1))?;
    Ok(Config {
        kind: MachineKind::Rv,
        image: Some(image),
        script: None,
        ram: RAM,
        quantum: u64::from(quantum),
        units: UNITS,
        ports,
    })
}

/// RAM of so many bytes that begins with an image.
fn make_ram(alloc: Global, size: u32, image: &[u8]) -> Result<Ram, NoMemory>
    requires least { 4096 ≤ size }
    requires most { size ≤ 67108864 }
    requires whole { size % 4096 ≡ 0 }
    requires some { 0 < length image.now }
    requires fits { length image.now ≤ size }
    ensures ram { IfOk result (λ r. r ≡ overwritten (replicate size 0) 0 image.now) }
    ensures size { IfOk result (λ r. length r ≡ size) }
{
    let mut ram = Ram::make(alloc, size)?;
    match ram.load(image) {
        Ok(()) => Ok(ram),
        Err(ImageFault::NoMemory) => Err(NoMemory),
        Err(_) => unreachable!(),
    }
}

/// The devices: a timer, a UART that receives this input, and a DMA.
fn make_devices(alloc: Global, input: &[u8], gap: u32) -> Result<Vec<AnyDevice>, NoMemory>
    requires few { length input.now ≤ 65536 }
    requires gaps { 1 ≤ gap }
    requires near { gap ≤ 1000000 }
    ensures { IfOk result (λ v. v.items ≡ devices_with input.now gap) }
{
    let mut received = Octets::make(alloc);
    received.push_all(input)?;
    let timer = AnyDevice::Timer(Timer::make(0));
    let uart = AnyDevice::Uart(Uart::make(alloc, 1, received, gap));
    let dma = AnyDevice::Dma(Dma::make(2));
    Ok(Vec::from_array(alloc, [timer, uart, dma])?)
}

/// The machine of these settings whose hart runs the generated image, and whose UART receives the generated input.
fn make_machine(alloc: Global, config: &Config, generated: &Generated) -> Result<Machine, NoMemory>
    requires limits { IsWithinLimits config.now }
    requires some { 0 < length generated.now.image.bytes }
    requires fits { length generated.now.image.bytes ≤ config.now.ram }
    requires gaps { 1 ≤ generated.now.gap }
    requires near { generated.now.gap ≤ 1000000 }
    ensures master { IfOk result (λ m. m.master ≡
        hart_with config.now.ram config.now.ports generated.now.image.bytes) }
    ensures devices { IfOk result (λ m. m.devices.items ≡ devices_with generated.now.input generated.now.gap) }
{
    let ram = make_ram(alloc, config.ram, generated.image.as_slice())?;
    let master = make_hart(alloc, config.ports.as_slice(), ram)?;
    let devices = make_devices(alloc, &generated.input, generated.gap)?;
    Ok(Machine { master, devices })
}

/// What the run of a number's machine begins with.
pub fn make_parts(alloc: Global, number: u32) -> Result<Parts, NoMemory>
    ensures may_run { IfOk result MayRun }
    ensures start { IfOk result (λ p. start_by p ≡ generated_start number) }
    ensures ports { IfOk result (λ p. p.config.ports ≡ (settings_of number).ports) }
{
    let generated = generate(alloc, number)?;
    let config = make_config(alloc, generated.quantum, generated.gap)?;
    let machine = make_machine(alloc, &config, &generated)?;
    parts_fit(&config, &machine);
    Ok(Parts { config, machine })
}
