// The rules that speak of several ports at once.
ghost use Rattle.std.specs.Prelude.{◌≡◌, ◌⊎◌, option_map, MatchOption, codes, ℕ, ◌+◌, ◌<◌, ◌≤◌, List, [], ◌∷◌, ◌++◌, Option, Some, None, IfOk, length, drop, slice_index_or};
ghost use Rattle.cos_map.specs.Parts.{overlap_found};
ghost use Rattle.cos_config.specs.Rules.{overlap_fault, parts, windows, lines_found, line_found, has_line, needs_found, port_needs, parts_found};
ghost use Rattle.cos_config.specs.First.{Refuses};

use crate::{Config, ConfigFault, Name, PortConfig, PortKind, Sockets, TableName};
use cos_base::NoMemory;
use cos_map::{Part, overlap, push_part, without_windows};
use std::alloc::Global;

/// RAM, the system block and the windows, by part number.
fn parts_of(alloc: Global, config: &Config) -> Result<Vec<Part>, NoMemory>
    ensures { IfOk result (λ v. v.items ≡ parts config.now) }
{
    let mut all = without_windows(alloc, config.ram)?;
    for port in config.ports.as_slice() {
        let window = Part {
            base: port.base,
            size: port.size,
        };
        push_part(&mut all, window)?;
    }
    Ok(all)
}

/// The first two parts that share an address, or a part that passes the end.
fn overlapping(all: &[Part]) -> Option<ConfigFault>
    ensures { result ≡ option_map overlap_fault (overlap_found 0 all.now) }
{
    let (a, b) = overlap(all)?;
    Some(ConfigFault::Overlap {
        a: a as u64,
        b: b as u64,
    })
}

fn port_has_line(port: &PortConfig, line: u32) -> bool
    ensures { result ≡ has_line port.now line }
{
    port.kind != PortKind::Null && port.line == line
}

/// The first port behind port `a` that has its line.
fn same_line(ports: &[PortConfig], a: usize, line: u32) -> Option<ConfigFault>
    requires here { a < length ports.now }
    ensures { result ≡ line_found a line (a + 1) (drop (a + 1) ports.now) }
{
    for b in a + 1..ports.len() {
        if port_has_line(&ports[b], line) {
            return Some(ConfigFault::LineTwice {
                a: a as u64,
                b: b as u64,
            });
        }
    }
    None
}

/// The first two ports that have one line.
fn line_twice(ports: &[PortConfig]) -> Option<ConfigFault>
    ensures { result ≡ lines_found 0 ports.now }
{
    for a in 0..ports.len() {
        let port = &ports[a];
        if port_has_line(port, port.line) {
            if let Some(fault) = same_line(ports, a, port.line) {
                return Some(fault);
            }
        }
    }
    None
}

fn port_lacks(number: u64, port: &PortConfig) -> Option<ConfigFault>
    ensures { result ≡ port_needs number port.now.kind port.now.caps.base port.now.caps.enables }
{
    match port.kind {
        PortKind::Dma if !port.caps.base => Some(ConfigFault::Needs {
            port: number,
            cap: 1,
        }),
        PortKind::Dma if !port.caps.enables => Some(ConfigFault::Needs {
            port: number,
            cap: 2,
        }),
        _ => None,
    }
}

/// The first port that lacks a capability that its device needs.
fn lacking(ports: &[PortConfig]) -> Option<ConfigFault>
    ensures { result ≡ needs_found 0 ports.now }
{
    for (number, port) in ports.iter().enumerate() {
        if let Some(fault) = port_lacks(number as u64, port) {
            return Some(fault);
        }
    }
    None
}

/// The first of the rules on several ports that a configuration breaks.
pub fn broken(alloc: Global, config: &Config, sockets: Sockets) -> Option<ConfigFault>
    ensures { MatchOption result (parts_found sockets config.now ≡ None) (Refuses (parts_found sockets config.now)) }
{
    let parts = match parts_of(alloc, config) {
        Ok(parts) => parts,
        Err(NoMemory) => return Some(ConfigFault::NoMemory),
    };
    if let Some(fault) = overlapping(&parts) {
        return Some(fault);
    }
    let ports = config.ports.as_slice();
    if let Some(fault) = line_twice(ports) {
        return Some(fault);
    }
    if let Some(fault) = lacking(ports) {
        return Some(fault);
    }
    match sockets {
        Sockets::Port { port } if port as usize >= ports.len() => Some(no_port(alloc, port)),
        _ => None,
    }
}

/// The fault of a port that isn't there.
fn no_port(alloc: Global, port: u32) -> ConfigFault
    ensures { (result ≡ ConfigFault.NoMemory) ⊎ (result ≡ ConfigFault.Missing (TableName.Port port) (codes "kind")) }
{
    match Name::copy_of(alloc, "kind") {
        Ok(key) => ConfigFault::Missing {
            table: TableName::Port(port),
            key,
        },
        Err(NoMemory) => ConfigFault::NoMemory,
    }
}
