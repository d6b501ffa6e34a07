// The tables of a configuration, each read key by key in the order of its keys.
ghost use Rattle.std.specs.Prelude.{◌≡◌, ◌⊎◌, ℕ, List, [], ◌∷◌, ◌++◌, Bool, true, false, Option, Some, None, map, codes, is_some, unwrap_or, IfOk};
ghost use Rattle.toml.specs.View.{table_view};
ghost use Rattle.toml.specs.Data.{get_member};
ghost use Rattle.cos_config.specs.declared.config.Config.{Config as ConfigValue};
ghost use Rattle.cos_config.specs.declared.config.PortConfig.{PortConfig as PortValue};
ghost use Rattle.cos_config.specs.declared.config.MachineKind.{MachineKind as MachineValue};
ghost use Rattle.cos_config.specs.declared.config.PortKind.{PortKind as PortKindValue};
ghost use Rattle.cos_config.specs.Keys.{A_word, key_found, keys_found, table_found, unknown_found, name_of};
ghost use Rattle.cos_config.specs.Tables.{machine_kind_at, port_kind_at, machine_keys, port_keys, place_keys, link_keys, uart_keys, disk_keys, source_keys, text_at, required_key, machine_kind_of, port_kind_of};
ghost use Rattle.cos_config.specs.Settings.{port_of, port_with, number_at, line_of, input_of, gap_of, caps_in};
ghost use Rattle.cos_config.specs.declared.port.Place.{Place as PlaceValue};
ghost use Rattle.cos_config.specs.declared.port.Link.{Link as LinkValue};
ghost use Rattle.cos_config.specs.declared.port.Arrivals.{Arrivals as ArrivalsValue};
ghost use Rattle.cos_config.specs.declared.port.Sectors.{Sectors as SectorsValue};
ghost use Rattle.cos_config.specs.PortParts.{link_of, sectors_of, parts_found};
ghost use Rattle.cos_config.specs.Reading.{Reads};

use crate::keys::{Keys, Limits};
use crate::{ConfigFault, Name, PortConfig, PortKind, TableName, words};
use cos_base::Numbers;
use cosim_model::Caps;
use std::alloc::Global;
use toml::Table;

/// The keys of a port, by its kind where it says one.
fn port_key_names(kind: Option<PortKind>, needs_socket: bool) -> &'static [&'static str]
    ensures { map (λ s. s.now) result.now ≡ map name_of (port_keys kind needs_socket) }
{
    let _needs_socket = needs_socket;
    match kind {
        Some(PortKind::Null) => &[
            "kind", "base", "size", "stores", "lines", "caps", "socket", "relay",
        ],
        Some(PortKind::Uart) => &[
            "kind", "base", "size", "line", "stores", "lines", "caps", "socket", "input", "gap",
            "relay",
        ],
        Some(PortKind::Disk) => &[
            "kind", "base", "size", "line", "stores", "lines", "caps", "socket", "relay", "disk",
            "bad", "result",
        ],
        _ => &[
            "kind", "base", "size", "line", "stores", "lines", "caps", "socket", "relay",
        ],
    }
}

const BASE: Limits = Limits {
    low: 4096,
    high: 4_294_963_200,
    step: 4096,
};

const SIZE: Limits = Limits {
    low: 4096,
    high: 1_048_576,
    step: 4096,
};

const LINE: Limits = Limits {
    low: 0,
    high: 31,
    step: 1,
};

const GAP: Limits = Limits {
    low: 1,
    high: 1_000_000,
    step: 1,
};

/// The kind that a port says, if it says one.
fn said_port_kind(keys: &Keys<'_>) -> Option<PortKind>
    ensures { result ≡ port_kind_at (table_view keys.now.table.now) }
{
    match keys.text_there("kind") {
        Some(word) => words::port_kind(word),
        None => None,
    }
}

/// The kind of the device.
fn port_kind(keys: &Keys<'_>) -> Result<PortKind, ConfigFault>
    ensures ok { IfOk result (λ kind. port_kind_at (table_view keys.now.table.now) ≡ Some kind) }
    ensures found { Reads PortKindValue
        (key_found keys.now.name (table_view keys.now.table.now) (required_key (codes "kind") (A_word (λ s. is_some (port_kind_of s)))))
        (unwrap_or (port_kind_at (table_view keys.now.table.now)) PortKind.Null) result }
{
    let word = keys.word("kind")?;
    match words::port_kind(word) {
        Some(kind) => Ok(kind),
        None => Err(keys.wrong_word("kind")),
    }
}

/// A window, and the line of a device that has one.
#[derive(Clone, Copy)]
struct Place {
    base: u32,
    size: u32,
    line: u32,
}

fn read_place(keys: &Keys<'_>, kind: PortKind) -> Result<Place, ConfigFault>
    ensures { Reads PlaceValue
        (keys_found keys.now.name (table_view keys.now.table.now) (place_keys kind))
        (record { base = number_at (codes "base") 0 (table_view keys.now.table.now); size = number_at (codes "size") 0 (table_view keys.now.table.now); line = line_of kind (table_view keys.now.table.now) })
        result }
{
    let base = keys.number("base", BASE)?;
    let size = keys.number("size", SIZE)?;
    let line = match kind {
        PortKind::Null => 0,
        _ => keys.number("line", LINE)?,
    };
    Ok(Place { base, size, line })
}

/// What a port's link to its device is.
#[derive(Drop)]
struct Link {
    posted_stores: bool,
    answered_lines: bool,
    caps: Caps,
    socket: Option<Name>,
}

fn caps_among(numbers: &[u32]) -> Caps
    ensures { result ≡ caps_in (Some numbers.now) }
{
    Caps {
        base: numbers.contains(&1),
        enables: numbers.contains(&2),
        posted: numbers.contains(&3),
    }
}

/// The capabilities that a port lists: all where it lists none.
fn caps_of(listed: Option<Numbers>) -> Caps
    ensures { result ≡ caps_in listed }
{
    match listed {
        None => Caps {
            base: true,
            enables: true,
            posted: true,
        },
        Some(numbers) => caps_among(numbers.as_slice()),
    }
}

fn read_link(keys: &Keys<'_>, needs_socket: bool) -> Result<Link, ConfigFault>
    ensures { Reads LinkValue
        (keys_found keys.now.name (table_view keys.now.table.now) (link_keys needs_socket))
        (link_of (table_view keys.now.table.now)) result }
{
    let posted_stores = keys.posting("stores")?;
    let posted_lines = keys.posting("lines")?;
    let caps = caps_of(keys.numbers("caps", 1, 3)?);
    let socket = keys.text("socket", needs_socket)?;
    Ok(Link {
        posted_stores,
        answered_lines: !posted_lines,
        caps,
        socket,
    })
}

/// What a UART has of its own.
#[derive(Drop)]
struct Arrivals {
    input: Option<Name>,
    gap: u32,
}

fn read_arrivals(keys: &Keys<'_>, kind: PortKind) -> Result<Arrivals, ConfigFault>
    ensures { Reads ArrivalsValue
        (keys_found keys.now.name (table_view keys.now.table.now) (uart_keys kind))
        (record { input = input_of kind (table_view keys.now.table.now); gap = gap_of kind (table_view keys.now.table.now) })
        result }
{
    match kind {
        PortKind::Uart => {
            let input = keys.text("input", false)?;
            let gap = keys.number_or("gap", GAP, 1)?;
            Ok(Arrivals { input, gap })
        }
        _ => Ok(Arrivals {
            input: None,
            gap: 1,
        }),
    }
}

/// What a disk has of its own.
#[derive(Drop)]
struct Sectors {
    disk: Option<Name>,
    bad: Numbers,
    result: Option<Name>,
}

fn read_sectors(keys: &Keys<'_>, kind: PortKind) -> Result<Sectors, ConfigFault>
    ensures { Reads SectorsValue
        (keys_found keys.now.name (table_view keys.now.table.now) (disk_keys kind))
        (sectors_of kind (table_view keys.now.table.now)) result }
{
    match kind {
        PortKind::Disk => {
            let disk = keys.text("disk", true)?;
            let bad = match keys.numbers("bad", 0, 32767)? {
                Some(bad) => bad,
                None => Numbers::make(keys.alloc),
            };
            let result = keys.text("result", false)?;
            Ok(Sectors { disk, bad, result })
        }
        _ => Ok(Sectors {
            disk: None,
            bad: Numbers::make(keys.alloc),
            result: None,
        }),
    }
}

/// The keys of a port of a kind.
fn read_port(keys: &Keys<'_>, kind: PortKind, needs_socket: bool) -> Result<PortConfig, ConfigFault>
    ensures { Reads PortValue
        (parts_found keys.now.name kind needs_socket (table_view keys.now.table.now))
        (port_with kind (table_view keys.now.table.now)) result }
{
    let place = read_place(keys, kind)?;
    let link = read_link(keys, needs_socket)?;
    let arrivals = read_arrivals(keys, kind)?;
    let relay = keys.text("relay", false)?;
    let sectors = read_sectors(keys, kind)?;
    Ok(PortConfig {
        kind,
        base: place.base,
        size: place.size,
        line: place.line,
        posted_stores: link.posted_stores,
        answered_lines: link.answered_lines,
        caps: link.caps,
        socket: link.socket,
        input: arrivals.input,
        gap: arrivals.gap,
        relay,
        disk: sectors.disk,
        bad: sectors.bad,
        result: sectors.result,
    })
}

/// An entry of the array `port`.
pub fn port(
    alloc: Global,
    number: u32,
    table: &Table,
    needs_socket: bool,
) -> Result<PortConfig, ConfigFault>
    ensures { Reads PortValue
        (table_found (TableName.Port number) (port_keys (port_kind_at (table_view table.now)) needs_socket) (table_view table.now))
        (port_of (table_view table.now)) result }
{
    let keys = Keys {
        alloc,
        name: TableName::Port(number),
        table,
    };
    keys.only(port_key_names(said_port_kind(&keys), needs_socket))?;
    let kind = port_kind(&keys)?;
    read_port(&keys, kind, needs_socket)
}
