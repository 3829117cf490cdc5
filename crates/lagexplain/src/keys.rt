use crate::names::{is_among, list, nearest, quote};
use lagscript::{PortKey, SystemKey};
use std::alloc::{AllocError, Global};
use toml::Table;

/// A number of 16 bits.
const NUMBER: &str = "a number, 0 to 65535";

/// A MAC address.
const MAC: &str = "six two-digit hexadecimal numbers joined by -, as \"02-00-00-00-00-01\"";

/// The first key of a table that is none of these; None if each is one.
fn unknown_key<'a>(table: &'a Table, known: &[&str]) -> Option<&'a str> {
    for key in table.keys() {
        if !is_among(known, key.as_str()) {
            return Some(key.as_str());
        }
    }
    None
}

/// Says which key of a table is unknown.
pub(crate) fn explain_extra_key(
    alloc: Global,
    out: &mut String,
    table: Option<&Table>,
    known: &[&str],
) -> Result<(), AllocError> {
    let Some(table) = table else {
        return Ok(());
    };
    let Some(key) = unknown_key(table, known) else {
        return Ok(());
    };
    out.push_str("unknown key ")?;
    quote(out, key)?;
    if let Some(meant) = nearest(alloc, key, known)? {
        return write!(out, "; did you mean {meant}?");
    }
    out.push_str("; the keys here are ")?;
    list(out, known)
}

/// The name of a key of a system, and what its value has to be.
pub(crate) fn system_key(key: SystemKey) -> (&'static str, &'static str) {
    match key {
        SystemKey::Priority => ("priority", NUMBER),
        SystemKey::Mac => ("mac", MAC),
        SystemKey::MaxDelay => ("max_delay", NUMBER),
        SystemKey::FirstMarker => ("first_marker", "a number, 0 to 4294967295"),
        SystemKey::Aggregators => ("aggregators", "an array of 1 to 64 keys, each 0 to 65535"),
        SystemKey::MaxLinks => ("max_links", "a number, 1 to 64"),
        SystemKey::Conversations => ("conversations", "256 or 4096"),
        SystemKey::Port => ("port", "1 to 64 tables [[system.port]]"),
    }
}

/// The name of a key of a port, and what its value has to be.
pub(crate) fn port_key(key: PortKey) -> (&'static str, &'static str) {
    match key {
        PortKey::Number => ("number", "a number, 1 to 65535"),
        PortKey::Priority => ("priority", NUMBER),
        PortKey::Mac => ("mac", MAC),
        PortKey::Key => ("key", NUMBER),
        PortKey::Aggregatable => ("aggregatable", "true or false"),
        PortKey::Active => ("active", "true or false"),
        PortKey::Short => ("short", "true or false"),
    }
}
