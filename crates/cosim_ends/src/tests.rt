// The ends of two ports, by what their hellos offer.
use crate::make_ends;
use cos_base::{NoMemory, Numbers, Octets};
use cos_config::{PortConfig, PortKind};
use cos_parts::{AnyDevice, Null};
use cosim_model::Caps;
use dev_timer::Timer;
use device_turns::{DeviceEnd, DeviceTurn};
use std::alloc::Global;
use std::test::Fail;

/// Settings of a port whose end offers capability 1, or none.
fn settings(alloc: Global, kind: PortKind, base: bool) -> PortConfig {
    PortConfig {
        kind,
        base: 0x1000_0000,
        size: 4096,
        line: 3,
        posted_stores: false,
        answered_lines: true,
        caps: Caps {
            base,
            enables: false,
            posted: false,
        },
        socket: None,
        input: None,
        gap: 1,
        relay: None,
        disk: None,
        bad: Numbers::make(alloc),
        result: None,
    }
}

/// The ends of a timer and a null device.
fn two_ends(alloc: Global) -> Result<Vec<DeviceEnd<AnyDevice>>, NoMemory> {
    let devices = Vec::from_array(
        alloc,
        [
            AnyDevice::Timer(Timer::make(3)),
            AnyDevice::Null(Null::make()),
        ],
    );
    let ports = [
        settings(alloc, PortKind::Timer, true),
        settings(alloc, PortKind::Null, false),
    ];
    match devices {
        Ok(devices) => make_ends(alloc, devices, &ports),
        Err(_) => Err(NoMemory),
    }
}

/// What the first turn of an end says.
fn hello_of(alloc: Global, end: &mut DeviceEnd<AnyDevice>) -> Octets {
    let mut out = Octets::make(alloc);
    match end.turn(&mut out) {
        Ok(DeviceTurn::Greeted) => out,
        _ => Octets::make(alloc),
    }
}

#[test]
fn each_port_has_the_end_of_its_settings(rt: HostRuntime) -> Result<(), Fail> {
    let alloc = rt.alloc();
    let mut ends = two_ends(alloc)?;
    assert!(rt; ends.len() == 2);
    assert!(rt; matches!(ends[0].device(), AnyDevice::Timer(_)));
    assert!(rt; matches!(ends[1].device(), AnyDevice::Null(_)));
    assert!(rt; hello_of(alloc, &mut ends[0]).len() == 36);
    assert!(rt; hello_of(alloc, &mut ends[1]).len() == 32);
    Ok(())
}
