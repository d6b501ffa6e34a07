// One key of a table: its value, or what is wrong with it.
ghost use Rattle.std.specs.Prelude.{◌≡◌, ◌⊎◌, ◌<◌, ℕ, List, [], Bool, true, false, Option, Some, None, MatchOption, IfOk, IfErr, map, option_map, is_some};
ghost use Rattle.toml.specs.View.{view, table_view, array_view};
ghost use Rattle.toml.specs.Data.{get_member};
ghost use Rattle.cos_config.specs.Keys.{A_text, A_word, A_number, Ascending, value_found, key_found, unknown_found, is_among, entries_found, is_within, natural, number_in};
ghost use Rattle.cos_config.specs.Tables.{as_text, text_at, posting_of, key_of, required_key, optional_key};
ghost use Rattle.cos_config.specs.Settings.{number_at, posting_at, numbers_in, numbers_of};
ghost use Rattle.cos_config.specs.Reading.{Reads};
ghost use Rattle.cos_config.specs.First.{Refuses};

use crate::{ConfigFault, Name, TableName, words};
use cos_base::{NoMemory, Numbers};
use std::alloc::Global;
use toml::value::Array;
use toml::{Table, Value};

/// A table of the configuration that is read key by key.
#[derive(Drop)]
pub struct Keys<'a> {
    pub alloc: Global,
    pub name: TableName,
    pub table: &'a Table,
}

/// The limits of a whole number: from `low` to `high`, and a multiple of `step`.
#[derive(Clone, Copy)]
pub struct Limits {
    pub low: u32,
    pub high: u32,
    pub step: u32,
}

impl<'a> Keys<'a> {
    /// The value at a key.
    pub fn find(&self, key: &str) -> Option<&'a Value>
        ensures { option_map (λ v. view v.now) result ≡ get_member key.now (table_view self.now.table.now) }
    {
        self.table.get(key)
    }

    pub fn missing(&self, key: &str) -> ConfigFault
        ensures { (result ≡ ConfigFault.NoMemory) ⊎ (result ≡ ConfigFault.Missing self.now.name key.now) }
    {
        let table = self.name;
        match Name::copy_of(self.alloc, key) {
            Ok(key) => ConfigFault::Missing { table, key },
            Err(NoMemory) => ConfigFault::NoMemory,
        }
    }

    pub fn wrong_kind(&self, key: &str) -> ConfigFault
        ensures { (result ≡ ConfigFault.NoMemory) ⊎ (result ≡ ConfigFault.Kind self.now.name key.now) }
    {
        let table = self.name;
        match Name::copy_of(self.alloc, key) {
            Ok(key) => ConfigFault::Kind { table, key },
            Err(NoMemory) => ConfigFault::NoMemory,
        }
    }

    pub fn wrong_word(&self, key: &str) -> ConfigFault
        ensures { (result ≡ ConfigFault.NoMemory) ⊎ (result ≡ ConfigFault.Word self.now.name key.now) }
    {
        let table = self.name;
        match Name::copy_of(self.alloc, key) {
            Ok(key) => ConfigFault::Word { table, key },
            Err(NoMemory) => ConfigFault::NoMemory,
        }
    }

    fn unknown(&self, key: &str) -> ConfigFault
        ensures { (result ≡ ConfigFault.NoMemory) ⊎ (result ≡ ConfigFault.Unknown self.now.name key.now) }
    {
        let table = self.name;
        match Name::copy_of(self.alloc, key) {
            Ok(key) => ConfigFault::Unknown { table, key },
            Err(NoMemory) => ConfigFault::NoMemory,
        }
    }

    /// Whether the table has no key but these.
    pub fn only(&self, names: &[&str]) -> Result<(), ConfigFault>
        ensures { Reads (Unit {0}) (unknown_found self.now.name (map (λ s. s.now) names.now) (table_view self.now.table.now)) tt result }
    {
        for key in self.table.keys() {
            if !is_among(key.as_str(), names) {
                return Err(self.unknown(key.as_str()));
            }
        }
        Ok(())
    }

    fn out_of_range(&self, key: &str, value: i64) -> ConfigFault
        ensures { (result ≡ ConfigFault.NoMemory) ⊎ (result ≡ ConfigFault.Range self.now.name key.now value) }
    {
        let table = self.name;
        match Name::copy_of(self.alloc, key) {
            Ok(key) => ConfigFault::Range { table, key, value },
            Err(NoMemory) => ConfigFault::NoMemory,
        }
    }

    fn text_in(&self, key: &str, value: &Value) -> Result<Option<Name>, ConfigFault>
        ensures { Reads (Option (List ℕ)) (value_found self.now.name key.now A_text (view value.now))
            (as_text (Some (view value.now))) result }
    {
        match value.as_str() {
            None => Err(self.wrong_kind(key)),
            Some(text) => Ok(Some(Name::copy_of(self.alloc, text)?)),
        }
    }

    /// The text at a key, if there is one.
    pub fn text(&self, key: &str, required: bool) -> Result<Option<Name>, ConfigFault>
        ensures { Reads (Option (List ℕ)) (key_found self.now.name (table_view self.now.table.now) (key_of key.now required A_text))
            (text_at key.now (table_view self.now.table.now)) result }
    {
        match self.find(key) {
            Some(value) => self.text_in(key, value),
            None if required => Err(self.missing(key)),
            None => Ok(None),
        }
    }

    fn number_in(&self, key: &str, value: &Value, limits: Limits) -> Result<u32, ConfigFault>
        requires { 0 < limits.step }
        ensures { Reads ℕ (value_found self.now.name key.now (A_number limits.low limits.high limits.step) (view value.now))
            (number_in 0 (Some (view value.now))) result }
    {
        match value.as_integer() {
            None => Err(self.wrong_kind(key)),
            Some(number) => match within(number, limits) {
                Some(number) => Ok(number),
                None => Err(self.out_of_range(key, number)),
            },
        }
    }

    /// The whole number at a key that has to be there.
    pub fn number(&self, key: &str, limits: Limits) -> Result<u32, ConfigFault>
        requires { 0 < limits.step }
        ensures { Reads ℕ (key_found self.now.name (table_view self.now.table.now) (required_key key.now (A_number limits.low limits.high limits.step)))
            (number_at key.now 0 (table_view self.now.table.now)) result }
    {
        match self.find(key) {
            Some(value) => self.number_in(key, value, limits),
            None => Err(self.missing(key)),
        }
    }

    /// The whole number at a key, or a default.
    pub fn number_or(&self, key: &str, limits: Limits, default: u32) -> Result<u32, ConfigFault>
        requires { 0 < limits.step }
        ensures { Reads ℕ (key_found self.now.name (table_view self.now.table.now) (optional_key key.now (A_number limits.low limits.high limits.step)))
            (number_at key.now default (table_view self.now.table.now)) result }
    {
        match self.find(key) {
            Some(value) => self.number_in(key, value, limits),
            None => Ok(default),
        }
    }

    /// The numbers of a list, each above the one before it.
    fn entries_in(
        &self,
        key: &str,
        entries: &Array,
        low: u32,
        high: u32,
    ) -> Result<Numbers, ConfigFault>
        requires { high < 4294967295 }
        ensures { Reads (List ℕ) (entries_found self.now.name key.now low high (array_view entries.now))
            (numbers_of (array_view entries.now)) result }
    {
        let mut numbers = Numbers::make(self.alloc);
        let mut least = low;
        for entry in entries.iter() {
            let limits = Limits {
                low: least,
                high,
                step: 1,
            };
            let number = self.number_in(key, entry, limits)?;
            numbers.push(number)?;
            least = number + 1;
        }
        Ok(numbers)
    }

    /// The ascending numbers at a key, if there is one.
    pub fn numbers(&self, key: &str, low: u32, high: u32) -> Result<Option<Numbers>, ConfigFault>
        requires { high < 4294967295 }
        ensures { Reads (Option (List ℕ)) (key_found self.now.name (table_view self.now.table.now) (optional_key key.now (Ascending low high)))
            (numbers_in (get_member key.now (table_view self.now.table.now))) result }
    {
        let value = match self.find(key) {
            Some(value) => value,
            None => return Ok(None),
        };
        match value.as_array() {
            None => Err(self.wrong_kind(key)),
            Some(entries) => match self.entries_in(key, entries, low, high) {
                Ok(numbers) => Ok(Some(numbers)),
                Err(fault) => Err(fault),
            },
        }
    }

    /// The text at a key, if there is one.
    pub fn text_there(&self, key: &str) -> Option<&str>
        ensures { option_map (λ s. s.now) result ≡ text_at key.now (table_view self.now.table.now) }
    {
        match self.find(key) {
            Some(value) => value.as_str(),
            None => None,
        }
    }

    /// The word at a key that has to be there.
    pub fn word(&self, key: &str) -> Result<&str, ConfigFault>
        ensures ok { IfOk result (λ s. text_at key.now (table_view self.now.table.now) ≡ Some s.now) }
        ensures err { IfErr result (λ f. (is_word : List ℕ → Bool)
            → Refuses (key_found self.now.name (table_view self.now.table.now) (required_key key.now (A_word is_word))) f) }
    {
        let value = match self.find(key) {
            Some(value) => value,
            None => return Err(self.missing(key)),
        };
        match value.as_str() {
            Some(word) => Ok(word),
            None => Err(self.wrong_kind(key)),
        }
    }

    /// Whether answers are waited for at a key that says so, which is `answered` where it is absent: true where it is `posted`.
    pub fn posting(&self, key: &str) -> Result<bool, ConfigFault>
        ensures { Reads Bool (key_found self.now.name (table_view self.now.table.now) (optional_key key.now (A_word (λ s. is_some (posting_of s)))))
            (posting_at key.now (table_view self.now.table.now)) result }
    {
        let value = match self.find(key) {
            Some(value) => value,
            None => return Ok(false),
        };
        match value.as_str() {
            None => Err(self.wrong_kind(key)),
            Some(word) => match words::posting(word) {
                Some(posted) => Ok(posted),
                None => Err(self.wrong_word(key)),
            },
        }
    }
}

fn is_among(name: &str, names: &[&str]) -> bool
    ensures { result ≡ is_among name.now (map (λ s. s.now) names.now) }
{
    names.contains(&name)
}

/// A whole number within limits.
fn within(value: i64, limits: Limits) -> Option<u32>
    requires { 0 < limits.step }
    ensures { MatchOption result (is_within limits.low limits.high limits.step value ≡ false)
        (λ n. (is_within limits.low limits.high limits.step value ≡ true) × (n ≡ natural value)) }
{
    if value < limits.low as i64 || value > limits.high as i64 {
        return None;
    }
    let number = value as u32;
    if number % limits.step == 0 {
        Some(number)
    } else {
        None
    }
}
