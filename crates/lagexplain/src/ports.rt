use crate::arrays::{elements_at, integer_at, table_at};
use crate::values::explain_value;
use std::alloc::AllocError;
use toml::Table;

/// The number of the port at this place of a system, from 1.
fn number_at(system: &Table, place: usize) -> Option<i64> {
    match table_at(system, "port", place) {
        Some(port) => integer_at(port, "number"),
        None => None,
    }
}

/// Whether a system has a port with this number.
pub(crate) fn has_port(system: Option<&Table>, number: i64) -> bool {
    let Some(system) = system else {
        return false;
    };
    for value in elements_at(system, "port") {
        if let Some(port) = value.as_table() {
            if integer_at(port, "number") == Some(number) {
                return true;
            }
        }
    }
    false
}

/// Says what is wrong with the number of the port at this place of a system, from 1.
pub(crate) fn explain_port_number(
    out: &mut String,
    system: Option<&Table>,
    place: usize,
) -> Result<(), AllocError> {
    let Some(system) = system else {
        return Ok(());
    };
    explain_value(
        out,
        table_at(system, "port", place),
        "number",
        "a number, 1 to 65535, above that of the port before it",
    )?;
    match number_at(system, place.saturating_sub(1)) {
        Some(before) => write!(out, ", {before}"),
        None => Ok(()),
    }
}
