// A text, judged rule by rule.
ghost use Rattle.std.specs.Prelude.{◌≡◌, ◌⊎◌, ◌<◌, ◌≤◌, ℕ, List, Bool, true, false, Option, Some, None, IfOk, IfErr, codes, option_map, length};
ghost use Rattle.toml.specs.View.{view, table_view, array_view};
ghost use Rattle.toml.specs.Data.{Data, Items, Members, array, get_member};
ghost use Rattle.cos_config.specs.declared.config.Config.{Config as ConfigValue};
ghost use Rattle.cos_config.specs.declared.config.PortConfig.{PortConfig as PortValue};
ghost use Rattle.cos_config.specs.Rules.{are_tables, each_port_found, needs_socket, too_many_found, machine_found, ports_found, top_found, config_found};
ghost use Rattle.cos_config.specs.Settings.{tables_of, tables_in, ports_of, machine_table, port_tables, config_of};
ghost use Rattle.cos_config.specs.First.{Refuses, or_else};
ghost use Rattle.cos_config.specs.Reading.{Reads};
ghost use Rattle.cos_config.specs.Judged.{IsToml};

use crate::keys::Keys;
use crate::{Config, ConfigFault, Ports, Sockets, TableName, machine, port, rules};
use cos_base::NoMemory;
use std::alloc::Global;
use toml::Table;
use toml::value::Array;

/// Whether an array has tables alone.
fn has_tables_alone(entries: &Array) -> bool
    ensures { result ≡ are_tables (array_view entries.now) }
{
    for entry in entries.iter() {
        if entry.as_table().is_none() {
            return false;
        }
    }
    true
}

/// How many tables an array has.
fn count_tables(entries: &Array) -> usize
    ensures { result ≡ length (tables_of (array_view entries.now)) }
{
    let mut count = 0;
    for entry in entries.iter() {
        if entry.as_table().is_some() {
            count += 1;
        }
    }
    count
}

fn asks_for_socket(sockets: Sockets, port: u32) -> bool
    ensures { result ≡ needs_socket sockets port }
{
    match sockets {
        Sockets::Unneeded => false,
        Sockets::All => true,
        Sockets::Port { port: served } => served == port,
    }
}

/// The ports, of which there are few.
fn read_ports(alloc: Global, entries: &Array, sockets: Sockets) -> Result<Ports, ConfigFault>
    requires few { length (tables_of (array_view entries.now)) ≤ 16 }
    ensures found { Reads (List PortValue) (each_port_found sockets 0 (tables_of (array_view entries.now)))
        (ports_of (tables_of (array_view entries.now))) result }
    ensures few { IfOk result (λ ports. length ports ≤ 16) }
{
    let mut ports = Ports::make(alloc);
    for entry in entries.iter() {
        let table = match entry.as_table() {
            Some(table) => table,
            None => continue,
        };
        let number = ports.len() as u32;
        let read = port::port(alloc, number, table, asks_for_socket(sockets, number))?;
        ports.push(read)?;
    }
    Ok(ports)
}

/// The table `machine`.
fn judge_machine<'a>(keys: &Keys<'a>) -> Result<&'a Table, ConfigFault>
    requires { keys.now.name ≡ TableName.Top }
    ensures ok { IfOk result (λ t. (machine_found (get_member (codes "machine") (table_view keys.now.table.now)) ≡ None)
        × (table_view t.now ≡ machine_table (table_view keys.now.table.now))) }
    ensures err { IfErr result (Refuses (machine_found (get_member (codes "machine") (table_view keys.now.table.now)))) }
{
    let value = match keys.find("machine") {
        Some(value) => value,
        None => return Err(keys.missing("machine")),
    };
    match value.as_table() {
        Some(table) => Ok(table),
        None => Err(keys.wrong_kind("machine")),
    }
}

/// The array `port`, where there is one.
fn read_entries<'a>(keys: &Keys<'a>) -> Result<Option<&'a Array>, ConfigFault>
    requires { keys.now.name ≡ TableName.Top }
    ensures ok { IfOk result (λ found. (ports_found (get_member (codes "port") (table_view keys.now.table.now)) ≡ None)
        × (tables_in (option_map (λ e. array (array_view e.now)) found) ≡ port_tables (table_view keys.now.table.now))) }
    ensures err { IfErr result (Refuses (ports_found (get_member (codes "port") (table_view keys.now.table.now)))) }
{
    let value = match keys.find("port") {
        Some(value) => value,
        None => return Ok(None),
    };
    let entries = match value.as_array() {
        Some(entries) => entries,
        None => return Err(keys.wrong_kind("port")),
    };
    if has_tables_alone(entries) {
        Ok(Some(entries))
    } else {
        Err(keys.wrong_kind("port"))
    }
}

/// The ports, where there are at most 16.
fn read_few_ports(
    alloc: Global,
    entries: Option<&Array>,
    sockets: Sockets,
) -> Result<Ports, ConfigFault>
    ensures found { Reads (List PortValue)
        (or_else (too_many_found (length (tables_in (option_map (λ e. array (array_view e.now)) entries.entry))))
        (each_port_found sockets 0 (tables_in (option_map (λ e. array (array_view e.now)) entries.entry))))
        (ports_of (tables_in (option_map (λ e. array (array_view e.now)) entries.entry))) result }
    ensures few { IfOk result (λ ports. length ports ≤ 16) }
{
    let entries = match entries {
        Some(entries) => entries,
        None => return Ok(Ports::make(alloc)),
    };
    let count = count_tables(entries);
    if count > 16 {
        return Err(ConfigFault::TooMany {
            count: count as u64,
        });
    }
    read_ports(alloc, entries, sockets)
}

/// A table of the top level.
fn judge_table(alloc: Global, table: &Table, sockets: Sockets) -> Result<Config, ConfigFault>
    ensures { Reads ConfigValue (config_found sockets (table_view table.now)) (config_of (table_view table.now)) result }
{
    let keys = Keys {
        alloc,
        name: TableName::Top,
        table,
    };
    keys.only(&["machine", "port"])?;
    let machine_table = judge_machine(&keys)?;
    let entries = read_entries(&keys)?;
    let machine = machine::machine(alloc, machine_table)?;
    let ports = read_few_ports(alloc, entries, sockets)?;
    let config = Config { ports, ..machine };
    match rules::broken(alloc, &config, sockets) {
        None => Ok(config),
        Some(fault) => Err(fault),
    }
}

/// The configuration of a TOML text, exactly where no rule is broken, and otherwise the first rule that it breaks.
///
/// Rules go in this order: the text is TOML; the top level has the table `machine`, at most an array of tables `port`, and nothing
/// else; the table `machine`, then at most 16 ports by number, of each first its least unknown key and then its keys in their order;
/// no two parts of the address space overlap; no two ports share a line; each port offers what its device needs; the port that is
/// to be served is there. The keys and their limits stand in `docs/CONFIGURATION.md`.
pub fn judge(alloc: Global, bytes: &[u8], sockets: Sockets) -> Result<Config, ConfigFault>
    ensures toml { (m : Members) → IsToml bytes.now m → Reads ConfigValue (config_found sockets m) (config_of m) result }
    ensures ok { IfOk result (λ _. (m : Members) × IsToml bytes.now m) }
    ensures other { ((m : Members) → IsToml bytes.now m → ⊥) → IfErr result (λ f. (f ≡ ConfigFault.NoMemory) ⊎ (f ≡ ConfigFault.Text)) }
{
    match toml::table_from_slice(alloc, bytes) {
        Ok(table) => judge_table(alloc, &table, sockets),
        Err(error) if error.is_memory() => Err(ConfigFault::NoMemory),
        Err(_) => Err(ConfigFault::Text),
    }
}
