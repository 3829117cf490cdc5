use crate::arrays::{elements_at, table_at};
use crate::ports::has_port;
use std::alloc::AllocError;
use toml::{Table, Value};

/// The ends of a cable.
fn ends_of(cable: &Table) -> Option<(i64, i64)> {
    match elements_at(cable, "ends") {
        [Value::Integer(first), Value::Integer(second)] => Some((*first, *second)),
        _ => None,
    }
}

/// The place, from 1, of the first cable that has this end.
fn first_with(top: &Table, is_second: bool, number: i64) -> usize {
    let mut place = 0usize;
    for value in elements_at(top, "cable") {
        place = place.saturating_add(1);
        if let Some(cable) = value.as_table() {
            if let Some((first, second)) = ends_of(cable) {
                if number == if is_second { second } else { first } {
                    break;
                }
            }
        }
    }
    place
}

/// Says what is wrong with one end of the cable at this place, from 1; false if nothing is.
fn explain_end(
    out: &mut String,
    top: &Table,
    place: usize,
    is_second: bool,
    number: i64,
) -> Result<bool, AllocError> {
    let system = if is_second { 2 } else { 1 };
    if !has_port(table_at(top, "system", system), number) {
        write!(out, "system {system} has no port {number}")?;
        return Ok(true);
    }
    let other = first_with(top, is_second, number);
    if other < place {
        write!(
            out,
            "port {number} of system {system} has cable {other} already"
        )?;
        return Ok(true);
    }
    Ok(false)
}

/// Says what is wrong with the ends of the cable at this place, from 1.
pub(crate) fn explain_ends(out: &mut String, top: &Table, place: usize) -> Result<(), AllocError> {
    let Some(cable) = table_at(top, "cable", place) else {
        return Ok(());
    };
    let Some((first, second)) = ends_of(cable) else {
        return Ok(());
    };
    write!(out, "ends = [{first}, {second}]: ")?;
    if !explain_end(out, top, place, false, first)? {
        let _ = explain_end(out, top, place, true, second)?;
    }
    Ok(())
}
