ghost use Rattle.std.specs.Prelude.{◌<◌, ◌^◌, IfOk, IsErr, length, string_bytes, take};
ghost use Rattle.std.specs.Io.{StartsWith};
ghost use Rattle.toml.specs.Errors.{IsMemory, IsWithin, span_start};
ghost use Rattle.lagexplain.specs.Explanations.{SaysWhere, place_text};

use crate::arrays::{count_at, table_at};
use crate::cables::explain_ends;
use crate::entries::explain_entry;
use crate::keys::{explain_extra_key, port_key, system_key};
use crate::ports::explain_port_number;
use crate::subject_text::SubjectText;
use crate::text_places::place_of;
use crate::values::explain_value;
use lagscript::{
    CABLE_KEYS, MOST_ENTRIES, PORT_KEYS, PortKey, SYSTEM_KEYS, ScriptFault, SystemKey, TOP_KEYS,
};
use std::alloc::{AllocError, Global};
use toml::Table;

/// The table of a system of a script.
fn system_of(top: &Table, system: u8) -> Option<&Table> {
    table_at(top, "system", system as usize)
}

/// The table of a port of a system of a script.
fn port_of(top: &Table, system: u8, place: usize) -> Option<&Table> {
    match system_of(top, system) {
        Some(table) => table_at(table, "port", place),
        None => None,
    }
}

/// Says what is wrong with a value of a system.
fn explain_system(
    out: &mut String,
    top: &Table,
    system: u8,
    key: SystemKey,
) -> Result<(), AllocError> {
    let (name, wanted) = system_key(key);
    explain_value(out, system_of(top, system), name, wanted)
}

/// Says what is wrong with a value of a port.
fn explain_port(
    out: &mut String,
    top: &Table,
    system: u8,
    place: usize,
    key: PortKey,
) -> Result<(), AllocError> {
    let (name, wanted) = port_key(key);
    explain_value(out, port_of(top, system, place), name, wanted)
}

/// Says how many a system has of what it may have 1 to 64.
fn explain_count(
    out: &mut String,
    top: &Table,
    system: u8,
    key: &str,
    what: &str,
) -> Result<(), AllocError> {
    let count = match system_of(top, system) {
        Some(table) => count_at(table, key),
        None => 0,
    };
    write!(out, "{count} {what}: wanted are 1 to 64")
}

/// Says what is wrong with `system`.
fn explain_systems(out: &mut String, top: &Table) -> Result<(), AllocError> {
    match count_at(top, "system") {
        0 => explain_value(out, Some(top), "system", "two tables [[system]]"),
        2 => out.push_str("system holds what is no table: wanted are two tables [[system]]"),
        1 => out.push_str("there is 1 table [[system]]: wanted are two"),
        count => write!(out, "there are {count} tables [[system]]: wanted are two"),
    }
}

/// Says what is wrong with `events`.
fn explain_events(out: &mut String, top: &Table) -> Result<(), AllocError> {
    match count_at(top, "events") {
        count if count > MOST_ENTRIES => write!(
            out,
            "events has {count} entries: wanted are at most {MOST_ENTRIES}"
        ),
        _ => explain_value(out, Some(top), "events", "an array of texts"),
    }
}

/// Says what is wrong with a table of the script: a key or a value.
fn explain_table(
    alloc: Global,
    out: &mut String,
    top: &Table,
    fault: ScriptFault,
) -> Result<(), AllocError> {
    match fault {
        ScriptFault::ExtraKey => explain_extra_key(alloc, out, Some(top), &TOP_KEYS),
        ScriptFault::SystemExtraKey(system) => {
            explain_extra_key(alloc, out, system_of(top, system), &SYSTEM_KEYS)
        }
        ScriptFault::PortExtraKey(system, place) => {
            explain_extra_key(alloc, out, port_of(top, system, place), &PORT_KEYS)
        }
        ScriptFault::CableExtraKey(place) => {
            explain_extra_key(alloc, out, table_at(top, "cable", place), &CABLE_KEYS)
        }
        ScriptFault::SystemValue(system, key) => explain_system(out, top, system, key),
        ScriptFault::PortValue(system, place, key) => explain_port(out, top, system, place, key),
        ScriptFault::CableEnds(place) => {
            let wanted = "two numbers, 0 to 65535: a port of system 1, a port of system 2";
            explain_value(out, table_at(top, "cable", place), "ends", wanted)
        }
        ScriptFault::CableLimit(place) => {
            explain_value(
                out,
                table_at(top, "cable", place),
                "limit",
                "a number, 1 to 65535",
            )
        }
        fault => explain_whole(alloc, out, top, fault),
    }
}

/// Says what is wrong with an array or with the configuration as a whole.
fn explain_whole(
    alloc: Global,
    out: &mut String,
    top: &Table,
    fault: ScriptFault,
) -> Result<(), AllocError> {
    match fault {
        ScriptFault::Systems => explain_systems(out, top),
        ScriptFault::Cables => explain_value(
            out,
            Some(top),
            "cable",
            "an array of tables [[cable]]",
        ),
        ScriptFault::Events => explain_events(out, top),
        ScriptFault::Entry(place, cause) => explain_entry(alloc, out, top, place, cause),
        ScriptFault::Ports(system) => explain_count(out, top, system, "port", "ports"),
        ScriptFault::AggregatorCount(system) => {
            explain_count(out, top, system, "aggregators", "aggregators")
        }
        ScriptFault::PortNumber(system, place) => {
            explain_port_number(out, system_of(top, system), place)
        }
        ScriptFault::MaxLinks(system) => explain_system(out, top, system, SystemKey::MaxLinks),
        ScriptFault::ConversationCount(system) => {
            explain_system(out, top, system, SystemKey::Conversations)
        }
        ScriptFault::SameSystem => {
            out.push_str("both systems have one priority and one mac: one of the two has to differ")
        }
        ScriptFault::CableEnd(place) => explain_ends(out, top, place),
        _ => Ok(()),
    }
}

/// Says where a text is no TOML, by the error of its parser, and why. `AllocError` if that error is one of memory.
fn explain_toml(alloc: Global, text: &str, error: &toml::de::Error) -> Result<String, AllocError>
    requires { IsWithin text.now error.now }
    ensures memory { IsMemory error.now → IsErr result }
    ensures place { length text.now < 2 ^ 32 → IfOk result (λ why. StartsWith (string_bytes why) (place_text (take (span_start error.now) text.now))) }
{
    let Some(span) = error.span() else {
        return Err(AllocError);
    };
    let place = place_of(&text.as_bytes()[..span.start]);
    format!(in alloc; ":{}:{}: {}", place.line, place.column, error.message())
}

// promise: an explanation begins with the place: `:LINE:COLUMN: ` in a text that is no TOML, the place that the parser's error names; else
//    the system, port, cable or entry that the fault names; else `: `
// contract: `explain` (`SaysWhere`), `explain_toml` (`place`)
// not said: that the text ceases to be TOML there
/// Says what is wrong with a text that `read_plan` refuses for this fault: what is to stand behind the name of its file.
/// For `NotToml` that is `:LINE:COLUMN: ` and the message of the crate `toml`, for any other fault `: `, what the fault names,
/// as `system 1 port 2`, and what is wrong with it. Its contract speaks of what stands first, not of the words behind it, nor that
/// the fault is at that place. `AllocError` if memory is refused (profile).
pub fn explain(alloc: Global, text: &str, fault: ScriptFault) -> Result<String, AllocError>
    ensures { length text.now < 2 ^ 32 → IfOk result (λ why. SaysWhere text.now fault (string_bytes why)) }
{
    match toml::table_from_str(alloc, text) {
        Ok(top) => {
            let mut why = String::new(alloc);
            explain_table(alloc, &mut why, &top, fault)?;
            format!(in alloc; ": {}{why}", SubjectText(fault))
        }
        Err(error) => explain_toml(alloc, text, &error),
    }
}
