ghost use Rattle.std.specs.Prelude.{◌≡◌, ◌≢◌, All, IfOk, None, Some, length, map, option_and_then, option_map};
ghost use Rattle.toml.specs.View.{table_view};
ghost use Rattle.lagscript.specs.EventValues.{event_value, event_values};
ghost use Rattle.lagscript.specs.Configs.{world_refusal};
ghost use Rattle.lagsystem.specs.First.{config_value};
ghost use Rattle.lagscript.specs.Entries.{event_at, events_from};
ghost use Rattle.lagscript.specs.Keys.{just_two};
ghost use Rattle.lagscript.specs.Readings.{ReadsAs, each_at_place};
ghost use Rattle.lagscript.specs.Scripts.{ReadsScript, ReadsPlan, events_in, cables_in, script_fault_for, ends_of, limits_of, plan_in};
ghost use Rattle.lagscript.specs.Scripts.{plan_value, systems_in, two_systems};
ghost use Rattle.lagscript.specs.Tables.{cable_of};
ghost use Rattle.lagscript.specs.declared.fault.ScriptFault.TheVariants.{NoMemory};
ghost use Rattle.lagscript.specs.Results.{table_members, word_octets};

use crate::config::{BadWorld, WorldConfig};
use crate::entries::{EntryError, event_in};
use crate::event::Event;
use crate::fault::ScriptFault;
use crate::lists::{tables_in, texts_in};
use crate::plan::Plan;
use crate::tables::{CablePlan, cable_of, system_of};
use crate::values::{has_only, member};
use lagsystem::{BadConfig, Config};
use std::alloc::{AllocError, Global};
use toml::Table;

/// The most entries that a script may have in `events`.
pub const MOST_ENTRIES: usize = 100_000;

/// The keys at the top of a script.
pub const TOP_KEYS: [&str; 3] = ["system", "cable", "events"];

/// The fault of a script whose configuration is refused for this reason; None for `Lines`, which a script does not
/// have.
fn script_fault_for(reason: BadWorld) -> Option<ScriptFault>
    ensures { result ≡ script_fault_for reason }
{
    match reason {
        BadWorld::System { side, reason } => match reason {
            BadConfig::Ports => Some(ScriptFault::Ports(side)),
            BadConfig::Aggregators => Some(ScriptFault::AggregatorCount(side)),
            BadConfig::PortNumber(place) => Some(ScriptFault::PortNumber(side, place)),
            BadConfig::MaxLinks => Some(ScriptFault::MaxLinks(side)),
            BadConfig::Conversations => Some(ScriptFault::ConversationCount(side)),
        },
        BadWorld::SameSystem => Some(ScriptFault::SameSystem),
        BadWorld::CableEnd(place) => Some(ScriptFault::CableEnd(place)),
        BadWorld::Lines => None,
    }
}

/// The fault of a script with this configuration, or None.
fn fault_of(config: &WorldConfig) -> Option<ScriptFault>
    ensures { result ≡ option_and_then script_fault_for (world_refusal config.now) }
{
    match config.refusal() {
        Some(reason) => script_fault_for(reason),
        None => None,
    }
}

/// Reads the cables from these tables, in order.
fn each_cable(alloc: Global, tables: &[&Table]) -> Result<Vec<CablePlan>, ScriptFault>
    ensures { ReadsAs NoMemory (λ v. v.items) (each_at_place cable_of 1 (map table_members tables.now)) result }
{
    let mut cables = Vec::with_capacity(alloc, tables.len())?;
    let mut place = 0;
    for table in tables {
        place += 1;
        let cable = cable_of(place, *table)?;
        cables.push(cable)?;
    }
    Ok(cables)
}

/// Reads the cables of a script.
fn cables_of(alloc: Global, top: &Table) -> Result<Vec<CablePlan>, ScriptFault>
    ensures { ReadsAs NoMemory (λ v. v.items) (cables_in (table_view top.now)) result }
{
    match member(top, "cable") {
        Some(value) => match tables_in(alloc, value)? {
            Some(tables) => each_cable(alloc, &tables),
            None => Err(ScriptFault::Cables),
        },
        None => Ok(Vec::new(alloc)),
    }
}

/// Reads the event of the entry at this place, counted from 1, in a script with this many cables.
fn event_at(alloc: Global, cables: usize, place: usize, text: &str) -> Result<Event, ScriptFault>
    ensures { ReadsAs NoMemory event_value (event_at cables place text.now) result }
{
    match event_in(alloc, cables, text) {
        Ok(event) => Ok(event),
        Err(EntryError::Fault(cause)) => Err(ScriptFault::Entry(place, cause)),
        Err(EntryError::NoMemory) => Err(ScriptFault::NoMemory),
    }
}

/// Reads the events of these entries, in order.
fn each_event(alloc: Global, cables: usize, texts: &[&str]) -> Result<Vec<Event>, ScriptFault>
    ensures { ReadsAs NoMemory (λ v. event_values v.items) (events_from cables 1 (map word_octets texts.now)) result }
{
    let mut events = Vec::with_capacity(alloc, texts.len())?;
    let mut place = 0;
    for text in texts {
        place += 1;
        let event = event_at(alloc, cables, place, *text)?;
        events.push(event)?;
    }
    Ok(events)
}

/// Reads the events of a script with this many cables.
fn events_of(alloc: Global, cables: usize, top: &Table) -> Result<Vec<Event>, ScriptFault>
    ensures { ReadsAs NoMemory (λ v. event_values v.items) (events_in cables (table_view top.now)) result }
{
    match member(top, "events") {
        Some(value) => match texts_in(alloc, value)? {
            Some(texts) if texts.len() <= MOST_ENTRIES => each_event(alloc, cables, &texts),
            _ => Err(ScriptFault::Events),
        },
        None => Ok(Vec::new(alloc)),
    }
}

/// The tables, if there are exactly two.
fn pair<'a>(tables: &[&'a Table]) -> Option<(&'a Table, &'a Table)>
    ensures { option_map (λ p. (table_members p.0, table_members p.1)) result ≡ just_two (Some (map table_members tables.now)) }
{
    match tables {
        [first, second] => Some((*first, *second)),
        _ => None,
    }
}

/// Reads the two systems from these tables.
fn two_systems(alloc: Global, tables: &[&Table]) -> Result<[Config; 2], ScriptFault>
    ensures { ReadsAs NoMemory (map config_value) (two_systems (map table_members tables.now)) result }
{
    let (first, second) = pair(tables).ok_or(ScriptFault::Systems)?;
    let first = system_of(alloc, 1, first)?;
    let second = system_of(alloc, 2, second)?;
    Ok([first, second])
}

/// Reads the two systems of a script.
fn systems_of(alloc: Global, top: &Table) -> Result<[Config; 2], ScriptFault>
    ensures { ReadsAs NoMemory (map config_value) (systems_in (table_view top.now)) result }
{
    match member(top, "system") {
        Some(value) => match tables_in(alloc, value)? {
            Some(tables) => two_systems(alloc, &tables),
            None => Err(ScriptFault::Systems),
        },
        None => Err(ScriptFault::Systems),
    }
}

/// The ends of each of these cables.
fn ends_of(alloc: Global, cables: &[CablePlan]) -> Result<Vec<(u16, u16)>, AllocError>
    ensures { IfOk result (λ ends. ends.items ≡ ends_of cables.now) }
{
    let mut ends = Vec::with_capacity(alloc, cables.len())?;
    for cable in cables {
        ends.push(cable.ends)?;
    }
    Ok(ends)
}

/// The limit of each of these cables.
fn limits_of(alloc: Global, cables: &[CablePlan]) -> Result<Vec<Option<u16>>, AllocError>
    ensures { IfOk result (λ limits. limits.items ≡ limits_of cables.now) }
{
    let mut limits = Vec::with_capacity(alloc, cables.len())?;
    for cable in cables {
        limits.push(cable.limit)?;
    }
    Ok(limits)
}

// promise: a text has a plan or a first fault, by one function of its document over the grammar that `toml` states. Refused memory aside,
//    `read_plan` returns that plan, `not toml` exactly if the text is none, or the first fault; `read_script` the script of the plan
// contract: `plan_in`; `read_plan` (`reads`: `ReadsPlan`), `read_script` (`reads`: `ReadsScript`)
// not said: the texts of faults: tests
/// Reads the plan of a document.
fn plan_in(alloc: Global, top: &Table) -> Result<Plan, ScriptFault>
    ensures reads { ReadsAs NoMemory plan_value (plan_in (table_view top.now)) result }
    ensures accepted { IfOk result (λ plan. world_refusal plan.config ≡ None) }
    ensures one_each { IfOk result (λ plan. length plan.limits.items ≡ length plan.config.cables.items) }
    ensures from_one { IfOk result (λ plan. All (λ limit. limit ≢ Some 0) plan.limits.items) }
{
    if !has_only(top, &TOP_KEYS) {
        return Err(ScriptFault::ExtraKey);
    }
    let systems = systems_of(alloc, top)?;
    let cables = cables_of(alloc, top)?;
    let events = events_of(alloc, cables.len(), top)?;
    let limits = limits_of(alloc, &cables)?;
    let ends = ends_of(alloc, &cables)?;
    let config = WorldConfig {
        systems,
        cables: ends,
    };
    match fault_of(&config) {
        None => Ok(Plan {
            config,
            limits,
            events,
        }),
        Some(fault) => Err(fault),
    }
}

// promise: a configuration that was read is not refused; as many limits as cables, none of them 0
// contract: both (`accepted`); `read_plan` (`one_each`, `from_one`)
/// Reads a whole script (profile): the configuration of two systems and their cables, the limit of each cable, and the
/// events. The configuration is one that is accepted, as far as a script can tell; no limit is 0.
///
/// `NotToml` if the text is not TOML; `NoMemory` if memory is refused; any other fault is the first one in the
/// document, in the order of `ScriptFault`.
pub fn read_plan(alloc: Global, text: &str) -> Result<Plan, ScriptFault>
    ensures reads { ReadsPlan text.now result }
    ensures accepted { IfOk result (λ plan. world_refusal plan.config ≡ None) }
    ensures one_each { IfOk result (λ plan. length plan.limits.items ≡ length plan.config.cables.items) }
    ensures from_one { IfOk result (λ plan. All (λ limit. limit ≢ Some 0) plan.limits.items) }
{
    match toml::table_from_str(alloc, text) {
        Ok(table) => plan_in(alloc, &table),
        Err(e) => {
            if e.is_memory() {
                Err(ScriptFault::NoMemory)
            } else {
                Err(ScriptFault::NotToml)
            }
        }
    }
}

/// Reads a script without the limits of its cables (profile): the configuration of two systems and their cables, and
/// the events. The faults are those of `read_plan`.
pub fn read_script(alloc: Global, text: &str) -> Result<(WorldConfig, Vec<Event>), ScriptFault>
    ensures reads { ReadsScript text.now result }
    ensures accepted { IfOk result (λ r. world_refusal r.0 ≡ None) }
{
    let plan = read_plan(alloc, text)?;
    Ok((plan.config, plan.events))
}
