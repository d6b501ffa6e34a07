// What is wrong with a configuration.
use crate::Name;
use cos_base::NoMemory;

/// A table of the configuration.
#[derive(Clone, Copy, PartialEq, Eq, Debug)]
pub enum TableName {
    /// The text's top level.
    Top,
    /// The table `machine`.
    Machine,
    /// An entry of the array `port`, counted from 0.
    Port(u32),
}

/// The first rule of the configuration that a text breaks.
#[derive(Drop)]
pub enum ConfigFault {
    /// The bytes aren't TOML.
    Text,
    /// The least key of the table, by bytes, that the table doesn't have.
    Unknown {
        table: TableName,
        key: Name,
    },
    /// A required key is absent.
    Missing {
        table: TableName,
        key: Name,
    },
    /// A value has another TOML type than its key's.
    Kind {
        table: TableName,
        key: Name,
    },
    /// There are more than 16 ports.
    TooMany {
        count: u64,
    },
    /// A text is none of the words that its key takes.
    Word {
        table: TableName,
        key: Name,
    },
    /// A number is outside its key's limits, or an entry of a list is outside or not above the one before it.
    Range {
        table: TableName,
        key: Name,
        value: i64,
    },
    /// Two parts share an address, or a window passes the end of the addresses, where both numbers are its own. Part 0 is the RAM,
    /// part 1 the system block, part 2 + p the window of port p.
    Overlap {
        a: u64,
        b: u64,
    },
    /// Two ports have one line.
    LineTwice {
        a: u64,
        b: u64,
    },
    /// A port lacks a capability that its device needs.
    Needs {
        port: u64,
        cap: u64,
    },
    /// There was no memory. Nothing is said of the text.
    NoMemory,
}

impl From<NoMemory> for ConfigFault {
    ghost use Rattle.std.specs.Prelude.{◌≡◌};
    ghost use Rattle.cos_config.specs.declared.fault.ConfigFault.TheVariants.{NoMemory as WantOfMemory};

    ghost from_gives = { λ _ fault. fault ≡ WantOfMemory };

    fn from(_: NoMemory) -> Self {
        ConfigFault::NoMemory
    }
}
