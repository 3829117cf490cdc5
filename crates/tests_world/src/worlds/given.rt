ghost use Rattle.std.specs.Prelude.{◌<◌};

use crate::comparing::same;
use cables::{AnyCable, ListCable, RingCable};
use lagscript::{ScriptFault, WorldConfig, read_script};
use lagtypes::NoMemory;
use lagworld::{Event, WorldFault};
use std::alloc::Global;
use std::process::Abort;

/// The tables of a script: both systems with their ports, and the cables.
pub(crate) type Setting = &'static str;

/// One cable between ports with Short Timeout.
pub(crate) const ONE_SHORT: &str = r#"
system = [
    { mac = "02-00-00-00-00-01", aggregators = [1], port = [{ number = 1, key = 1, short = true }] },
    { mac = "02-00-00-00-00-02", aggregators = [1], port = [{ number = 1, key = 1, short = true }] },
]
cable = [{ ends = [1, 1] }]
"#;

/// Two cables between ports with Long Timeout.
pub(crate) const TWO_LONG: &str = r#"
system = [
    { mac = "02-00-00-00-00-01", aggregators = [1], port = [{ number = 1, key = 1, short = false }, { number = 2, key = 1, short = false }] },
    { mac = "02-00-00-00-00-02", aggregators = [1], port = [{ number = 1, key = 1, short = false }, { number = 2, key = 1, short = false }] },
]
cable = [{ ends = [1, 1] }, { ends = [2, 2] }]
"#;

/// Two cables between ports with Short Timeout.
pub(crate) const TWO_SHORT: &str = r#"
system = [
    { mac = "02-00-00-00-00-01", aggregators = [1], port = [{ number = 1, key = 1, short = true }, { number = 2, key = 1, short = true }] },
    { mac = "02-00-00-00-00-02", aggregators = [1], port = [{ number = 1, key = 1, short = true }, { number = 2, key = 1, short = true }] },
]
cable = [{ ends = [1, 1] }, { ends = [2, 2] }]
"#;

/// Two cables between ports with Short Timeout; those of system 1 are Individual.
pub(crate) const INDIVIDUAL: &str = r#"
system = [
    { mac = "02-00-00-00-00-01", aggregators = [1], port = [
        { number = 1, key = 1, aggregatable = false, short = true },
        { number = 2, key = 1, aggregatable = false, short = true },
    ] },
    { mac = "02-00-00-00-00-02", aggregators = [1], port = [{ number = 1, key = 1, short = true }, { number = 2, key = 1, short = true }] },
]
cable = [{ ends = [1, 1] }, { ends = [2, 2] }]
"#;

/// The distribution algorithm of both systems.
pub(crate) fn modulo(conv: u16, count: usize) -> usize
    ensures { 0 < count → result < count }
{
    if count == 0 {
        0
    } else {
        usize::from(conv) % count
    }
}

/// The parts of a line before and behind its arrow.
pub(crate) fn parts(line: &str) -> (&str, &str) {
    line.split_once(" => ").unwrap_or((line, ""))
}

/// The text of a script with these tables and the events of these lines.
pub(crate) fn script(alloc: Global, setting: &str, lines: &str) -> Result<String, NoMemory> {
    let mut text = String::from_str(alloc, "events = [")?;
    for line in lines.lines() {
        let (event, _) = parts(line);
        write!(text, "\"{event}\", ")?;
    }
    write!(text, "]{setting}")?;
    Ok(text)
}

/// The systems and cables of a script with these tables, and the events of these lines. Fails where the script is refused.
pub(crate) fn read(
    rt: &impl Abort,
    alloc: Global,
    setting: &str,
    lines: &str,
) -> Result<(WorldConfig, Vec<Event>), WorldFault> {
    let text = script(alloc, setting, lines)?;
    match read_script(alloc, text.as_str()) {
        Ok(read) => Ok(read),
        Err(fault) => {
            same(rt, "the script", &fault, &ScriptFault::NoMemory);
            Err(WorldFault::NoMemory)
        }
    }
}

/// The systems and cables of a script with these tables.
pub(crate) fn world_config(
    rt: &impl Abort,
    alloc: Global,
    setting: &str,
) -> Result<WorldConfig, WorldFault> {
    let (config, _) = read(rt, alloc, setting, "")?;
    Ok(config)
}

/// The events of these lines, in a script with these tables.
pub(crate) fn events(
    rt: &impl Abort,
    alloc: Global,
    setting: &str,
    lines: &str,
) -> Result<Vec<Event>, WorldFault> {
    let (_, events) = read(rt, alloc, setting, lines)?;
    Ok(events)
}

/// One empty direction of a cable with this limit.
pub(crate) fn empty_direction(alloc: Global, limit: Option<u16>) -> Result<AnyCable, WorldFault> {
    match limit {
        None => Ok(AnyCable::List(ListCable::new(alloc))),
        Some(limit) => match RingCable::new(alloc, limit) {
            Ok(ring) => Ok(AnyCable::Ring(ring)),
            Err(_) => Err(WorldFault::NoMemory),
        },
    }
}

/// Adds a cable with these two directions.
pub(crate) fn add_line(
    lines: &mut Vec<(AnyCable, AnyCable)>,
    to_one: AnyCable,
    to_two: AnyCable,
) -> Result<(), WorldFault> {
    match lines.push((to_one, to_two)) {
        Ok(()) => Ok(()),
        Err(_) => Err(WorldFault::NoMemory),
    }
}

/// This many empty cables with this limit.
pub(crate) fn lines(
    alloc: Global,
    count: usize,
    limit: Option<u16>,
) -> Result<Vec<(AnyCable, AnyCable)>, WorldFault> {
    let mut lines = Vec::new(alloc);
    for _ in 0..count {
        let to_one = empty_direction(alloc, limit)?;
        let to_two = empty_direction(alloc, limit)?;
        add_line(&mut lines, to_one, to_two)?;
    }
    Ok(lines)
}
