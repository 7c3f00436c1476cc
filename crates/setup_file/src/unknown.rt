ghost use Rattle.std.specs.Prelude.{◌≡◌, map, filter_map, not, Some, string_bytes};
ghost use Rattle.std.specs.BTreeMap.{keys};
ghost use Rattle.std.specs.List.{list_any};
ghost use Rattle.std.specs.Option.{option_to_list};
ghost use Rattle.toml.specs.Data.{as_table};
ghost use Rattle.toml.specs.View.{table_view, view};
ghost use Rattle.setup_keys.specs.Keys.{is_known};
ghost use Rattle.setup_file.specs.Unknown.{first_unknown, has_unknown, tables_in, tables_named};

use crate::read::entry_at;
use setup_keys::KeyName;
use toml::{Table, Value};

/// The tables, in the order in which they are searched.
const TABLES: [KeyName; 8] = [
    KeyName::Setup,
    KeyName::Grid,
    KeyName::Check,
    KeyName::Tool,
    KeyName::Stock,
    KeyName::Part,
    KeyName::Fixture,
    KeyName::Turn,
];

/// The first table of a setup that holds a key that isn't known.
pub(crate) fn first_unknown(setup: &Table) -> Option<KeyName>
    ensures { result ≡ first_unknown (table_view setup.now) }
{
    for key in TABLES {
        if any_unknown(setup, key) {
            return Some(key);
        }
    }
    None
}

/// Whether some table of that name holds a key that isn't known.
fn any_unknown(setup: &Table, key: KeyName) -> bool
    ensures { result ≡ list_any (has_unknown key) (tables_named (table_view setup.now) key) }
{
    match key {
        KeyName::Setup => has_unknown(setup, key),
        _ => match entry_at(setup, key) {
            Some(value) => value_has_unknown(value, key),
            None => false,
        },
    }
}

/// Whether the table that a value is, or some table of its list, holds a key that isn't known.
fn value_has_unknown(value: &Value, key: KeyName) -> bool
    ensures { result ≡ list_any (has_unknown key) (tables_in (Some (view value.now))) }
{
    if let Some(table) = value.as_table() {
        return has_unknown(table, key);
    }
    match value.as_array() {
        Some(values) => list_has_unknown(values, key),
        None => false,
    }
}

/// Whether some table of a list holds a key that isn't known.
fn list_has_unknown(values: &[Value], key: KeyName) -> bool
    ensures { result ≡ list_any (has_unknown key) (filter_map as_table (map view values.now)) }
{
    for value in values {
        if item_has_unknown(value, key) {
            return true;
        }
    }
    false
}

/// Whether an item is a table that holds a key that isn't known.
fn item_has_unknown(value: &Value, key: KeyName) -> bool
    ensures { result ≡ list_any (has_unknown key) (option_to_list (as_table (view value.now))) }
{
    match value.as_table() {
        Some(table) => has_unknown(table, key),
        None => false,
    }
}

/// Whether a table holds a key that isn't known.
fn has_unknown(table: &Table, key: KeyName) -> bool
    ensures { result ≡ has_unknown key (table_view table.now) }
{
    has_unknown_name(table, key)
}

/// Whether some key of a table isn't known.
fn has_unknown_name(table: &Table, key: KeyName) -> bool
    ensures { result ≡ list_any (λ name. not (is_known key (string_bytes name))) (keys table.now) }
{
    table.keys().any(|name| !is_known(key, name.as_bytes()))
}

/// Whether the name is that of a key that the table may hold.
fn is_known(table: KeyName, name: &[u8]) -> bool
    ensures { result ≡ is_known table name.now }
{
    table.keys().iter().any(|key| name == key.name().as_bytes())
}
