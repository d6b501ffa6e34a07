// The tables of a configuration, each read key by key in the order of its keys.
ghost use Rattle.std.specs.Prelude.{◌≡◌, ◌⊎◌, ℕ, List, [], ◌∷◌, ◌++◌, Bool, true, false, Option, Some, None, map, codes, is_some, unwrap_or, IfOk};
ghost use Rattle.toml.specs.View.{table_view};
ghost use Rattle.toml.specs.Data.{get_member};
ghost use Rattle.cos_config.specs.declared.config.Config.{Config as ConfigValue};
ghost use Rattle.cos_config.specs.declared.config.PortConfig.{PortConfig as PortValue};
ghost use Rattle.cos_config.specs.declared.config.MachineKind.{MachineKind as MachineValue};
ghost use Rattle.cos_config.specs.declared.config.PortKind.{PortKind as PortKindValue};
ghost use Rattle.cos_config.specs.Keys.{A_word, key_found, keys_found, table_found, unknown_found, name_of};
ghost use Rattle.cos_config.specs.Tables.{machine_kind_at, port_kind_at, machine_keys, port_keys, place_keys, link_keys, uart_keys, disk_keys, source_keys, text_at, required_key, machine_kind_of, port_kind_of};
ghost use Rattle.cos_config.specs.Settings.{port_of, machine_of, script_of};
ghost use Rattle.cos_config.specs.declared.machine.Sources.{Sources as SourcesValue};
ghost use Rattle.cos_config.specs.Reading.{Reads};

use crate::keys::{Keys, Limits};
use crate::{Config, ConfigFault, MachineKind, Name, Ports, TableName, words};
use std::alloc::Global;
use toml::Table;

/// The keys of the table `machine`, by its kind where it says one.
fn machine_key_names(kind: Option<MachineKind>) -> &'static [&'static str]
    ensures { map (λ s. s.now) result.now ≡ map name_of (machine_keys kind) }
{
    match kind {
        Some(MachineKind::Rv) => &["kind", "image", "ram", "quantum", "units"],
        _ => &["kind", "image", "script", "ram", "quantum", "units"],
    }
}

const RAM: Limits = Limits {
    low: 4096,
    high: 67_108_864,
    step: 4096,
};

const QUANTUM: Limits = Limits {
    low: 1,
    high: 1_000_000_000,
    step: 1,
};

const UNITS: Limits = Limits {
    low: 0,
    high: 4_294_967_295,
    step: 1,
};

/// The kind that the table `machine` says, if it says one.
fn said_machine_kind(keys: &Keys<'_>) -> Option<MachineKind>
    ensures { result ≡ machine_kind_at (table_view keys.now.table.now) }
{
    match keys.text_there("kind") {
        Some(word) => words::machine_kind(word),
        None => None,
    }
}

/// The kind of the machine.
fn machine_kind(keys: &Keys<'_>) -> Result<MachineKind, ConfigFault>
    ensures ok { IfOk result (λ kind. machine_kind_at (table_view keys.now.table.now) ≡ Some kind) }
    ensures found { Reads MachineValue
        (key_found keys.now.name (table_view keys.now.table.now) (required_key (codes "kind") (A_word (λ s. is_some (machine_kind_of s)))))
        (unwrap_or (machine_kind_at (table_view keys.now.table.now)) MachineKind.Rv) result }
{
    let word = keys.word("kind")?;
    match words::machine_kind(word) {
        Some(kind) => Ok(kind),
        None => Err(keys.wrong_word("kind")),
    }
}

/// The machine's files.
#[derive(Drop)]
struct Sources {
    image: Option<Name>,
    script: Option<Name>,
}

fn read_sources(keys: &Keys<'_>, kind: MachineKind) -> Result<Sources, ConfigFault>
    ensures { Reads SourcesValue
        (keys_found keys.now.name (table_view keys.now.table.now) (source_keys (Some kind)))
        (record { image = text_at (codes "image") (table_view keys.now.table.now); script = script_of kind (table_view keys.now.table.now) })
        result }
{
    let image = keys.text("image", kind == MachineKind::Rv)?;
    match kind {
        MachineKind::Rv => Ok(Sources {
            image,
            script: None,
        }),
        MachineKind::Script => match keys.text("script", true) {
            Ok(script) => Ok(Sources { image, script }),
            Err(fault) => Err(fault),
        },
    }
}

/// The table `machine`, and no ports yet.
pub fn machine(alloc: Global, table: &Table) -> Result<Config, ConfigFault>
    ensures { Reads ConfigValue
        (table_found TableName.Machine (machine_keys (machine_kind_at (table_view table.now))) (table_view table.now))
        (machine_of (table_view table.now) []) result }
{
    let keys = Keys {
        alloc,
        name: TableName::Machine,
        table,
    };
    keys.only(machine_key_names(said_machine_kind(&keys)))?;
    let kind = machine_kind(&keys)?;
    let sources = read_sources(&keys, kind)?;
    let ram = keys.number("ram", RAM)?;
    let quantum = keys.number("quantum", QUANTUM)?;
    let units = keys.number("units", UNITS)?;
    let Sources { image, script } = sources;
    Ok(Config {
        kind,
        image,
        script,
        ram,
        quantum: quantum as u64,
        units: units as u64,
        ports: Ports::make(alloc),
    })
}
