ghost use Rattle.std.specs.Prelude.{◌≡◌, IfOk, map, option_map};
ghost use Rattle.toml.specs.Data.{as_str, as_table};
ghost use Rattle.toml.specs.View.{items_view, view};
ghost use Rattle.lagscript.specs.Keys.{each_in, key_in, list_in};
ghost use Rattle.lagscript.specs.Results.{table_members, word_octets};

use crate::values::integer_in;
use lagtypes::Key;
use std::alloc::{AllocError, Global};
use toml::{Table, Value};

/// Each value as a table; None if one is not a table.
fn each_table<'a>(alloc: Global, values: &'a [Value]) -> Result<Option<Vec<&'a Table>>, AllocError>
    ensures { IfOk result (λ o. option_map (λ v. map table_members v.items) o ≡ each_in as_table (items_view values.now)) }
{
    let mut tables = Vec::with_capacity(alloc, values.len())?;
    for value in values {
        match value.as_table() {
            Some(table) => tables.push(table)?,
            None => return Ok(None),
        }
    }
    Ok(Some(tables))
}

/// Each value as a string; None if one is not a string.
fn each_text<'a>(alloc: Global, values: &'a [Value]) -> Result<Option<Vec<&'a str>>, AllocError>
    ensures { IfOk result (λ o. option_map (λ v. map word_octets v.items) o ≡ each_in as_str (items_view values.now)) }
{
    let mut texts = Vec::with_capacity(alloc, values.len())?;
    for value in values {
        match value.as_str() {
            Some(text) => texts.push(text)?,
            None => return Ok(None),
        }
    }
    Ok(Some(texts))
}

/// Each value as a key; None if one is not a number from 0 to 65535.
fn each_key(alloc: Global, values: &[Value]) -> Result<Option<Vec<Key>>, AllocError>
    ensures { IfOk result (λ o. option_map (λ v. v.items) o ≡ each_in key_in (items_view values.now)) }
{
    let mut keys = Vec::with_capacity(alloc, values.len())?;
    for value in values {
        match integer_in(value) {
            Some(number) => keys.push(Key(number))?,
            None => return Ok(None),
        }
    }
    Ok(Some(keys))
}

/// The tables of an array; None if the value is not an array of tables.
pub(crate) fn tables_in<'a>(
    alloc: Global,
    value: &'a Value,
) -> Result<Option<Vec<&'a Table>>, AllocError>
    ensures { IfOk result (λ o. option_map (λ v. map table_members v.items) o ≡ list_in as_table (view value.now)) }
{
    match value.as_array() {
        Some(values) => each_table(alloc, values),
        None => Ok(None),
    }
}

/// The strings of an array; None if the value is not an array of strings.
pub(crate) fn texts_in<'a>(
    alloc: Global,
    value: &'a Value,
) -> Result<Option<Vec<&'a str>>, AllocError>
    ensures { IfOk result (λ o. option_map (λ v. map word_octets v.items) o ≡ list_in as_str (view value.now)) }
{
    match value.as_array() {
        Some(values) => each_text(alloc, values),
        None => Ok(None),
    }
}

/// The keys of an array; None if the value is not an array of numbers from 0 to 65535.
pub(crate) fn keys_in(alloc: Global, value: &Value) -> Result<Option<Vec<Key>>, AllocError>
    ensures { IfOk result (λ o. option_map (λ v. v.items) o ≡ list_in key_in (view value.now)) }
{
    match value.as_array() {
        Some(values) => each_key(alloc, values),
        None => Ok(None),
    }
}
