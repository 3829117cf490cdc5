use crate::names::quote;
use std::alloc::AllocError;
use toml::{Table, Value};

/// The most elements of an array that are shown.
const MOST_ELEMENTS: usize = 8;

/// Adds a value that is an element of an array.
fn show_element(out: &mut String, value: &Value) -> Result<(), AllocError> {
    match value {
        Value::String(text) => quote(out, text.as_str()),
        Value::Integer(n) => write!(out, "{n}"),
        Value::Boolean(flag) => write!(out, "{flag}"),
        Value::Float(_) => out.push_str("a fraction"),
        Value::Datetime(_) => out.push_str("a date or a time"),
        Value::Array(_) => out.push_str("[..]"),
        Value::Table(_) => out.push_str("{..}"),
    }
}

/// Adds an array; of a long one only a beginning.
fn show_array(out: &mut String, values: &[Value]) -> Result<(), AllocError> {
    out.push_str("[")?;
    let mut shown = 0;
    for value in values {
        if shown > 0 {
            out.push_str(", ")?;
        }
        if shown >= MOST_ELEMENTS {
            out.push_str("..")?;
            break;
        }
        show_element(out, value)?;
        shown += 1;
    }
    out.push_str("]")
}

/// Adds a value.
fn show(out: &mut String, value: &Value) -> Result<(), AllocError> {
    match value.as_array() {
        Some(values) => show_array(out, values.as_slice()),
        None => show_element(out, value),
    }
}

/// Says that the value of a key is missing or wrong, and what is wanted.
pub(crate) fn explain_value(
    out: &mut String,
    table: Option<&Table>,
    key: &str,
    wanted: &str,
) -> Result<(), AllocError> {
    let value = match table {
        Some(table) => table.get(key),
        None => None,
    };
    match value {
        Some(value) => {
            write!(out, "{key} = ")?;
            show(out, value)?;
        }
        None => write!(out, "{key} is missing")?,
    }
    write!(out, ": wanted is {wanted}")
}
