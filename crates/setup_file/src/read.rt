ghost use Rattle.std.specs.Prelude.{◌≡◌, All, IfOk, IsTrue, OnOk, MatchResult, Ok, Err, map, option_map};
ghost use Rattle.space.specs.Ranges.{IsBetween};
ghost use Rattle.toml.specs.View.{table_view, view};
ghost use Rattle.setup_file.specs.Reads.{each, entry_at, is_between, list_in, only_if, ranged};
ghost use Rattle.setup_file.specs.Reads.{number_at, numbers_at, numbers_in, table_at};

use setup_keys::{KeyName, SetupFault};
use toml::{Table, Value};

/// The value at a key of a table.
pub(crate) fn entry_at<'a>(table: &'a Table, key: KeyName) -> Option<&'a Value>
    ensures { option_map (λ v. view v.now) result ≡ entry_at key (table_view table.now) }
{
    table.get(key.name())
}

/// The table at a key.
pub(crate) fn table_at<'a>(table: &'a Table, key: KeyName) -> Result<&'a Table, SetupFault>
    ensures { MatchResult result (λ t. table_at key (table_view table.now) ≡ Ok (table_view t.now))
        (λ fault. table_at key (table_view table.now) ≡ Err fault) }
{
    let Some(value) = entry_at(table, key) else {
        return Err(SetupFault::SetupKey(key));
    };
    match value.as_table() {
        Some(inner) => Ok(inner),
        None => Err(SetupFault::SetupKey(key)),
    }
}

/// How far a coordinate may be from 0, in micrometres.
pub(crate) const METRE: i64 = 1_000_000;

/// The number, where the test holds; else it is reported as out of the key's range.
pub(crate) fn only_if(holds: bool, key: KeyName, number: i64) -> Result<i64, SetupFault>
    ensures value { result ≡ only_if holds key number }
    ensures holds { OnOk result (IsTrue holds) }
{
    if holds {
        Ok(number)
    } else {
        Err(SetupFault::SetupRange(key, number))
    }
}

/// The number, where it is from the least to the most.
pub(crate) fn ranged(key: KeyName, least: i64, most: i64, number: i64) -> Result<i64, SetupFault>
    ensures value { result ≡ ranged key least most number }
    ensures range { IfOk result (IsBetween least most) }
    ensures within { OnOk result (IsBetween least most number) }
{
    only_if(least <= number && number <= most, key, number)
}

/// The whole number at a key, within its range.
pub(crate) fn number_at(
    table: &Table,
    key: KeyName,
    least: i64,
    most: i64,
) -> Result<i64, SetupFault>
    ensures value { result ≡ number_at key least most (table_view table.now) }
    ensures range { IfOk result (IsBetween least most) }
{
    let Some(value) = entry_at(table, key) else {
        return Err(SetupFault::SetupKey(key));
    };
    match value.as_integer() {
        Some(number) => ranged(key, least, most, number),
        None => Err(SetupFault::SetupKey(key)),
    }
}

/// The whole numbers of a list of exactly `N` of them.
pub(crate) fn numbers_in<const N: usize>(value: &Value) -> Option<[i64; N]>
    ensures { result ≡ numbers_in N (view value.now) }
{
    let Some(values) = value.as_array() else {
        return None;
    };
    if values.len() != N {
        return None;
    }
    let mut numbers = [0; N];
    for i in 0..N {
        let Some(number) = values[i].as_integer() else {
            return None;
        };
        numbers[i] = number;
    }
    Some(numbers)
}

/// The whole numbers of a list of exactly `N` of them, at a key.
pub(crate) fn numbers_at<const N: usize>(
    table: &Table,
    key: KeyName,
) -> Result<[i64; N], SetupFault>
    ensures { result ≡ numbers_at N key (table_view table.now) }
{
    let Some(value) = entry_at(table, key) else {
        return Err(SetupFault::SetupKey(key));
    };
    match numbers_in(value) {
        Some(numbers) => Ok(numbers),
        None => Err(SetupFault::SetupKey(key)),
    }
}

/// The first of the numbers that is out of the range is reported, where there is one.
pub(crate) fn all_ranged(
    numbers: &[i64],
    key: KeyName,
    least: i64,
    most: i64,
) -> Result<(), SetupFault>
    ensures numbers { MatchResult result (λ _. each (ranged key least most) numbers.now ≡ Ok numbers.now)
        (λ fault. each (ranged key least most) numbers.now ≡ Err fault) }
    ensures range { OnOk result (All (IsBetween least most) numbers.now) }
{
    for number in numbers {
        ranged(key, least, most, *number)?;
    }
    Ok(())
}
