ghost use Rattle.std.specs.Prelude.{◌≡◌, map};
ghost use Rattle.toml.specs.View.{table_view};
ghost use Rattle.lagsystem.specs.First.{config_value};
ghost use Rattle.lagscript.specs.Readings.{ReadsAs, each_at_place};
ghost use Rattle.lagscript.specs.Tables.{aggregators_in, cable_of, conversations_in, limit_of, max_links_in, port_config_of};
ghost use Rattle.lagscript.specs.Tables.{ports_in, system_of, system_values_in};
ghost use Rattle.lagscript.specs.declared.fault.ScriptFault.TheVariants.{NoMemory};
ghost use Rattle.lagscript.specs.Results.{table_members};

use crate::fault::{PortKey, ScriptFault, SystemKey};
use crate::lists::{keys_in, tables_in};
use crate::values::{
    ends_at, flag_at, has_only, integer_in, limit_in, long_number_at, mac_at, member, number_at,
};
use lagsystem::{Config, PortConfig};
use lagtypes::{Key, SystemId};
use std::alloc::Global;
use toml::Table;

/// The keys in the table of a system.
pub const SYSTEM_KEYS: [&str; 8] = [
    "priority",
    "mac",
    "max_delay",
    "first_marker",
    "aggregators",
    "max_links",
    "conversations",
    "port",
];

/// The keys in the table of a port.
pub const PORT_KEYS: [&str; 7] = [
    "number",
    "priority",
    "mac",
    "key",
    "aggregatable",
    "active",
    "short",
];

/// The keys in the table of a cable.
pub const CABLE_KEYS: [&str; 2] = ["ends", "limit"];

/// Reads the port at this place of a system. If the MAC address is left out, it is that of the system.
fn port_config_of(
    system: u8,
    own: [u8; 6],
    place: usize,
    table: &Table,
) -> Result<PortConfig, ScriptFault>
    ensures { result ≡ port_config_of system own place (table_view table.now) }
{
    if !has_only(table, &PORT_KEYS) {
        return Err(ScriptFault::PortExtraKey(system, place));
    }
    let wrong = |key: PortKey| ScriptFault::PortValue(system, place, key);
    let number = number_at(table, "number", None).ok_or(wrong(PortKey::Number))?;
    let priority = number_at(table, "priority", Some(128)).ok_or(wrong(PortKey::Priority))?;
    let mac = mac_at(table, "mac", Some(own)).ok_or(wrong(PortKey::Mac))?;
    let key = number_at(table, "key", None).ok_or(wrong(PortKey::Key))?;
    let aggregatable = flag_at(table, "aggregatable", Some(true)).ok_or(wrong(
        PortKey::Aggregatable,
    ))?;
    let active = flag_at(table, "active", Some(true)).ok_or(wrong(PortKey::Active))?;
    let short = flag_at(table, "short", Some(true)).ok_or(wrong(PortKey::Short))?;
    Ok(PortConfig {
        number,
        priority,
        mac,
        key: Key(key),
        aggregatable,
        active,
        short,
    })
}

/// Reads the ports from these tables, in order.
fn each_port(
    alloc: Global,
    system: u8,
    own: [u8; 6],
    tables: &[&Table],
) -> Result<Vec<PortConfig>, ScriptFault>
    ensures { ReadsAs NoMemory (λ v. v.items) (each_at_place (port_config_of system own) 1 (map table_members tables.now)) result }
{
    let mut ports = Vec::with_capacity(alloc, tables.len())?;
    let mut place = 0;
    for table in tables {
        place += 1;
        let port = port_config_of(system, own, place, *table)?;
        ports.push(port)?;
    }
    Ok(ports)
}

/// Reads the ports of a system.
fn ports_of(
    alloc: Global,
    system: u8,
    own: [u8; 6],
    table: &Table,
) -> Result<Vec<PortConfig>, ScriptFault>
    ensures { ReadsAs NoMemory (λ v. v.items) (ports_in system own (table_view table.now)) result }
{
    let wrong = ScriptFault::SystemValue(system, SystemKey::Port);
    match member(table, "port") {
        Some(value) => match tables_in(alloc, value)? {
            Some(tables) => each_port(alloc, system, own, &tables),
            None => Err(wrong),
        },
        None => Err(wrong),
    }
}

/// Reads the keys of a system's aggregators.
fn aggregators_of(alloc: Global, system: u8, table: &Table) -> Result<Vec<Key>, ScriptFault>
    ensures { ReadsAs NoMemory (λ v. v.items) (aggregators_in system (table_view table.now)) result }
{
    let wrong = ScriptFault::SystemValue(system, SystemKey::Aggregators);
    match member(table, "aggregators") {
        Some(value) => match keys_in(alloc, value)? {
            Some(keys) => Ok(keys),
            None => Err(wrong),
        },
        None => Err(wrong),
    }
}

/// Reads how many links each aggregator of a system may have; None if it is left out.
fn max_links_of(system: u8, table: &Table) -> Result<Option<u16>, ScriptFault>
    ensures { result ≡ max_links_in system (table_view table.now) }
{
    let wrong = ScriptFault::SystemValue(system, SystemKey::MaxLinks);
    match member(table, "max_links") {
        Some(value) => match integer_in(value) {
            Some(most) => Ok(Some(most)),
            None => Err(wrong),
        },
        None => Ok(None),
    }
}

/// Reads how many conversations each aggregator of a system has.
fn conversations_of(system: u8, table: &Table) -> Result<u16, ScriptFault>
    ensures { result ≡ conversations_in system (table_view table.now) }
{
    let wrong = ScriptFault::SystemValue(system, SystemKey::Conversations);
    number_at(table, "conversations", Some(256)).ok_or(wrong)
}

/// The values of a system that come before its lists.
#[derive(Clone, Copy, Debug, PartialEq, Eq)]
struct SystemValues {
    id: SystemId,
    max_delay: u16,
    first_marker: u32,
}

/// Reads the values of a system that come before its lists.
fn system_values_of(system: u8, table: &Table) -> Result<SystemValues, ScriptFault>
    ensures { result ≡ system_values_in system (table_view table.now) }
{
    if !has_only(table, &SYSTEM_KEYS) {
        return Err(ScriptFault::SystemExtraKey(system));
    }
    let wrong = |key: SystemKey| ScriptFault::SystemValue(system, key);
    let priority = number_at(table, "priority", Some(32_768)).ok_or(wrong(SystemKey::Priority))?;
    let mac = mac_at(table, "mac", None).ok_or(wrong(SystemKey::Mac))?;
    let max_delay = number_at(table, "max_delay", Some(0)).ok_or(wrong(SystemKey::MaxDelay))?;
    let first_marker = long_number_at(table, "first_marker", Some(1)).ok_or(wrong(
        SystemKey::FirstMarker,
    ))?;
    Ok(SystemValues {
        id: SystemId { priority, mac },
        max_delay,
        first_marker,
    })
}

/// Reads the configuration of a system.
pub(crate) fn system_of(alloc: Global, system: u8, table: &Table) -> Result<Config, ScriptFault>
    ensures { ReadsAs NoMemory config_value (system_of system (table_view table.now)) result }
{
    let numbers = system_values_of(system, table)?;
    let aggregators = aggregators_of(alloc, system, table)?;
    let max_links = max_links_of(system, table)?;
    let conversations = conversations_of(system, table)?;
    let ports = ports_of(alloc, system, numbers.id.mac, table)?;
    Ok(Config {
        system: numbers.id,
        max_delay: numbers.max_delay,
        first_marker: numbers.first_marker,
        conversations,
        aggregators,
        max_links,
        ports,
    })
}

/// One cable of a script.
#[derive(Clone, Copy, Debug, PartialEq, Eq)]
pub(crate) struct CablePlan {
    /// The port of system 1 and the port of system 2 that it joins.
    pub ends: (u16, u16),
    /// How many frames each direction can hold; `None` for any number.
    pub limit: Option<u16>,
}

/// Reads the limit of the cable at this place; None if it is left out.
fn limit_of(cable: usize, table: &Table) -> Result<Option<u16>, ScriptFault>
    ensures { result ≡ limit_of cable (table_view table.now) }
{
    match member(table, "limit") {
        Some(value) => limit_in(value)
            .map(Some)
            .ok_or(ScriptFault::CableLimit(cable)),
        None => Ok(None),
    }
}

/// Reads the cable at this place.
pub(crate) fn cable_of(cable: usize, table: &Table) -> Result<CablePlan, ScriptFault>
    ensures { result ≡ cable_of cable (table_view table.now) }
{
    if !has_only(table, &CABLE_KEYS) {
        return Err(ScriptFault::CableExtraKey(cable));
    }
    let ends = ends_at(table, "ends").ok_or(ScriptFault::CableEnds(cable))?;
    let limit = limit_of(cable, table)?;
    Ok(CablePlan { ends, limit })
}
