ghost use Rattle.std.specs.Prelude.{◌<◌};

use crate::comparing::same;
use cables::{AnyCable, ListCable};
use lagscript::{ScriptFault, WorldConfig, read_script};
use lagtypes::NoMemory;
use lagworld::{Event, WorldFault};
use std::alloc::Global;
use std::process::Abort;

/// The tables of a script: both systems with their ports, and the cables.
pub(crate) type Setting = &'static str;

/// One cable between ports with Short Timeout.
pub(crate) const ONE_SHORT: &str = r#"
system = [
    { mac = "02-00-00-00-00-01", aggregators = [1], port = [{ number = 1, key = 1, short = true }] },
    { mac = "02-00-00-00-00-02", aggregators = [1], port = [{ number = 1, key = 1, short = true }] },
]
cable = [{ ends = [1, 1] }]
"#;

/// One cable between ports with Long Timeout.
pub(crate) const ONE_LONG: &str = r#"
system = [
    { mac = "02-00-00-00-00-01", aggregators = [1], port = [{ number = 1, key = 1, short = false }] },
    { mac = "02-00-00-00-00-02", aggregators = [1], port = [{ number = 1, key = 1, short = false }] },
]
cable = [{ ends = [1, 1] }]
"#;

/// Two cables between ports with Long Timeout.
pub(crate) const TWO_LONG: &str = r#"
system = [
    { mac = "02-00-00-00-00-01", aggregators = [1], port = [{ number = 1, key = 1, short = false }, { number = 2, key = 1, short = false }] },
    { mac = "02-00-00-00-00-02", aggregators = [1], port = [{ number = 1, key = 1, short = false }, { number = 2, key = 1, short = false }] },
]
cable = [{ ends = [1, 1] }, { ends = [2, 2] }]
"#;

/// The distribution algorithm of both systems.
pub(crate) fn modulo(conv: u16, count: usize) -> usize
    ensures { 0 < count → result < count }
{
    if count == 0 {
        0
    } else {
        usize::from(conv) % count
    }
}

/// Lines, each with an event as an entry of a script has it, an arrow, and the text of its expected reply.
pub(crate) type EventLines = &'static str;

/// The parts of a line before and behind its arrow.
pub(crate) fn parts(line: &str) -> (&str, &str) {
    line.split_once(" => ").unwrap_or((line, ""))
}

/// The text of a script with these tables and the events of these lines.
pub(crate) fn script(alloc: Global, setting: &str, lines: &str) -> Result<String, NoMemory> {
    let mut text = String::from_str(alloc, "events = [")?;
    for line in lines.lines() {
        let (event, _) = parts(line);
        write!(text, "\"{event}\", ")?;
    }
    write!(text, "]{setting}")?;
    Ok(text)
}

/// The systems and cables of a script with these tables, and the events of these lines. Fails where the script is refused.
pub(crate) fn read(
    rt: &impl Abort,
    alloc: Global,
    setting: &str,
    lines: &str,
) -> Result<(WorldConfig, Vec<Event>), WorldFault> {
    let text = script(alloc, setting, lines)?;
    match read_script(alloc, text.as_str()) {
        Ok(read) => Ok(read),
        Err(fault) => {
            same(rt, "the script", &fault, &ScriptFault::NoMemory);
            Err(WorldFault::NoMemory)
        }
    }
}

/// This many empty cables without a limit.
pub(crate) fn lines(alloc: Global, count: usize) -> Result<Vec<(AnyCable, AnyCable)>, NoMemory> {
    let mut lines = Vec::new(alloc);
    for _ in 0..count {
        let to_one = AnyCable::List(ListCable::new(alloc));
        let to_two = AnyCable::List(ListCable::new(alloc));
        lines.push((to_one, to_two))?;
    }
    Ok(lines)
}
