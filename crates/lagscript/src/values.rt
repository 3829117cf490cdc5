ghost use Rattle.std.specs.Prelude.{◌≡◌, None, map, option_map, string_bytes};
ghost use Rattle.std.specs.BTreeMap.{keys};
ghost use Rattle.std.specs.List.{list_all, list_any};
ghost use Rattle.std.specs.Str.{bytes_eq};
ghost use Rattle.toml.specs.Data.{get_member};
ghost use Rattle.toml.specs.View.{items_view, table_view, view};
ghost use Rattle.lagscript.specs.Keys.{each_in, ends_in, flag_in, keys_among, limit_in, mac_in, integer_in, just_two, value_at};

use crate::words::mac_of;
use toml::{Table, Value};

/// Whether the key is one of these.
fn is_among(known: &[&str], key: &str) -> bool
    ensures { result ≡ list_any (λ name. bytes_eq name.now key.now) known.now }
{
    known.contains(&key)
}

/// Whether each key of the table is one of these.
fn are_among(known: &[&str], table: &Table) -> bool
    ensures { result ≡ list_all (λ k. list_any (λ name. bytes_eq name.now (string_bytes k)) known.now) (keys table.now) }
{
    table.keys().all(|key| is_among(known, key.as_str()))
}

/// Whether the table has no keys but these.
pub(crate) fn has_only(table: &Table, known: &[&str]) -> bool
    ensures { result ≡ keys_among (map (λ k. k.now) known.now) (table_view table.now) }
{
    are_among(known, table)
}

/// The value of a key, if the table has it.
pub(crate) fn member<'a>(table: &'a Table, key: &str) -> Option<&'a Value>
    ensures { option_map (λ v. view v.now) result ≡ get_member key.now (table_view table.now) }
{
    table.get(key)
}

/// The value as a number from 0 to 65535.
pub(crate) fn integer_in(value: &Value) -> Option<u16>
    ensures { result ≡ integer_in 65536 (view value.now) }
{
    match value {
        Value::Integer(n) => u16::try_from(*n).ok(),
        _ => None,
    }
}

/// The value as a number from 0 to 4294967295.
pub(crate) fn long_number_in(value: &Value) -> Option<u32>
    ensures { result ≡ integer_in 4294967296 (view value.now) }
{
    match value {
        Value::Integer(n) => u32::try_from(*n).ok(),
        _ => None,
    }
}

/// The value as the limit of a cable, a number from 1 to 65535.
pub(crate) fn limit_in(value: &Value) -> Option<u16>
    ensures { result ≡ limit_in (view value.now) }
{
    match integer_in(value) {
        Some(n) if n >= 1 => Some(n),
        _ => None,
    }
}

/// The value as true or false.
fn flag_in(value: &Value) -> Option<bool>
    ensures { result ≡ flag_in (view value.now) }
{
    match value {
        Value::Boolean(flag) => Some(*flag),
        _ => None,
    }
}

/// The value as a MAC address.
pub(crate) fn mac_in(value: &Value) -> Option<[u8; 6]>
    ensures { result ≡ mac_in (view value.now) }
{
    match value.as_str() {
        Some(text) => mac_of(text),
        None => None,
    }
}

/// The number of a key, or this default if the key is left out.
pub(crate) fn number_at(table: &Table, key: &str, default: Option<u16>) -> Option<u16>
    ensures { result ≡ value_at key.now (integer_in 65536) default (table_view table.now) }
{
    match member(table, key) {
        Some(value) => integer_in(value),
        None => default,
    }
}

/// The number of a key, 0 to 4294967295, or this default if the key is left out.
pub(crate) fn long_number_at(table: &Table, key: &str, default: Option<u32>) -> Option<u32>
    ensures { result ≡ value_at key.now (integer_in 4294967296) default (table_view table.now) }
{
    match member(table, key) {
        Some(value) => long_number_in(value),
        None => default,
    }
}

/// The Boolean of a key, or this default if the key is left out.
pub(crate) fn flag_at(table: &Table, key: &str, default: Option<bool>) -> Option<bool>
    ensures { result ≡ value_at key.now flag_in default (table_view table.now) }
{
    match member(table, key) {
        Some(value) => flag_in(value),
        None => default,
    }
}

/// The MAC address of a key, or this default if the key is left out.
pub(crate) fn mac_at(table: &Table, key: &str, default: Option<[u8; 6]>) -> Option<[u8; 6]>
    ensures { result ≡ value_at key.now mac_in default (table_view table.now) }
{
    match member(table, key) {
        Some(value) => mac_in(value),
        None => default,
    }
}

/// The numbers, if there are exactly two.
fn two_numbers(values: &[Value]) -> Option<(u16, u16)>
    ensures { result ≡ just_two (each_in (integer_in 65536) (items_view values.now)) }
{
    match values {
        [a, b] => Some((integer_in(a)?, integer_in(b)?)),
        _ => None,
    }
}

/// The value as the two ends of a cable.
fn ends_in(value: &Value) -> Option<(u16, u16)>
    ensures { result ≡ ends_in (view value.now) }
{
    match value.as_array() {
        Some(ends) => two_numbers(ends),
        None => None,
    }
}

/// The ends of a cable in its table.
pub(crate) fn ends_at(table: &Table, key: &str) -> Option<(u16, u16)>
    ensures { result ≡ value_at key.now ends_in None (table_view table.now) }
{
    match member(table, key) {
        Some(value) => ends_in(value),
        None => None,
    }
}
