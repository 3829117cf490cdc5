use crate::comparing::same;
use crate::scripts::{ENTRY_1, MAC, SYSTEM_1, SYSTEMS, outcome, parts};
use lagscript::read_script;
use std::alloc::{AllocError, Global};
use std::process::Abort;

const TWO_CABLES: &str = r#"
system = [
    {mac = "02-00-00-00-00-01", aggregators = [1], port = [{number = 1, key = 1}, {number = 2, key = 1}]},
    {mac = "02-00-00-00-00-02", aggregators = [1], port = [{number = 1, key = 1}, {number = 2, key = 1}]},
]
cable = [{ends = [1, 1]}, {ends = [2, 2]}]
"#;

const TWO_CABLES_READ: &str =
    "WorldConfig { systems: [Config { system: SystemId { priority: 32768, mac: [2, 0, 0, 0, 0, 1] }, max_delay: 0, first_marker: 1, conversations: 256, aggregators: [Key(1)], max_links: None, ports: [PortConfig { number: 1, priority: 128, mac: [2, 0, 0, 0, 0, 1], key: Key(1), aggregatable: true, active: true, short: true }, PortConfig { number: 2, priority: 128, mac: [2, 0, 0, 0, 0, 1], key: Key(1), aggregatable: true, active: true, short: true }] }, Config { system: SystemId { priority: 32768, mac: [2, 0, 0, 0, 0, 2] }, max_delay: 0, first_marker: 1, conversations: 256, aggregators: [Key(1)], max_links: None, ports: [PortConfig { number: 1, priority: 128, mac: [2, 0, 0, 0, 0, 2], key: Key(1), aggregatable: true, active: true, short: true }, PortConfig { number: 2, priority: 128, mac: [2, 0, 0, 0, 0, 2], key: Key(1), aggregatable: true, active: true, short: true }] }], cables: [(1, 1), (2, 2)] } []";

/// All keys. Of each of the three ports another flag is false.
const FULL: &str = "events = [\"restart 2\", \"cut 1\"]
[[system]]
priority = 0
mac = \"ab-CD-00-00-00-ff\"
max_delay = 65535
first_marker = 4294967295
conversations = 4096
max_links = 63
aggregators = [65535, 0]
[[system.port]]
number = 65535
priority = 65535
mac = \"02-00-00-00-00-20\"
key = 0
aggregatable = false
[[system]]
mac = \"ab-CD-00-00-00-ff\"
aggregators = [1]
[[system.port]]
number = 3
key = 65535
active = false
short = true
[[system.port]]
number = 4
key = 65535
active = true
short = false
[[cable]]
ends = [65535, 3]
";

const FULL_READ: &str =
    "WorldConfig { systems: [Config { system: SystemId { priority: 0, mac: [171, 205, 0, 0, 0, 255] }, max_delay: 65535, first_marker: 4294967295, conversations: 4096, aggregators: [Key(65535), Key(0)], max_links: Some(63), ports: [PortConfig { number: 65535, priority: 65535, mac: [2, 0, 0, 0, 0, 32], key: Key(0), aggregatable: false, active: true, short: true }] }, Config { system: SystemId { priority: 32768, mac: [171, 205, 0, 0, 0, 255] }, max_delay: 0, first_marker: 1, conversations: 256, aggregators: [Key(1)], max_links: None, ports: [PortConfig { number: 3, priority: 128, mac: [171, 205, 0, 0, 0, 255], key: Key(65535), aggregatable: true, active: false, short: true }, PortConfig { number: 4, priority: 128, mac: [171, 205, 0, 0, 0, 255], key: Key(65535), aggregatable: true, active: true, short: false }] }], cables: [(65535, 3)] } [Restart(2), Cut(1)]";

/// The plan that is read from a text, or the text of its fault.
fn read_as(alloc: Global, text: &str) -> Result<String, AllocError> {
    match read_script(alloc, text) {
        Ok((config, events)) => format!(in alloc; "{config:?} {events:?}"),
        Err(fault) => format!(in alloc; "{fault}"),
    }
}

#[test]
fn configurations_are_read(rt: HostRuntime) -> Result<(), AllocError> {
    let alloc = rt.alloc();
    let two = read_as(alloc, TWO_CABLES)?;
    same(&rt, "two cables", &two.as_str(), &TWO_CABLES_READ);
    let full = read_as(alloc, FULL)?;
    same(&rt, "all keys", &full.as_str(), &FULL_READ);
    Ok(())
}

/// The events of a script with this entry and one more tick, or the text of the fault.
fn entry_as(alloc: Global, entry: &str) -> Result<String, AllocError> {
    let (before, behind) = (ENTRY_1.before, ENTRY_1.behind);
    let text = format!(in alloc; "{before}{entry}{behind}")?;
    match read_script(alloc, text.as_str()) {
        Ok((_, events)) => format!(in alloc; "{events:?}"),
        Err(fault) => format!(in alloc; "{fault}"),
    }
}

/// An entry is read as this event.
fn is_read(rt: &impl Abort, alloc: Global, (entry, event): (&str, &str)) -> Result<(), AllocError> {
    let came = entry_as(alloc, entry)?;
    let wanted = format!(in alloc; "[{event}, Tick(1, 1)]")?;
    same(rt, entry, &came.as_str(), &wanted.as_str());
    Ok(())
}

/// Entries, and the events that they are.
const EVENTS_READ: &str = r#"tick 2 3 => Tick(2, 3)
tick 01 0010 => Tick(1, 10)
emit 1 2 => Emit(1, 2)
deliver 1 2 => Deliver(1, 2)
lose 1 2 => Lose(1, 2)
repeat 1 2 => Repeat(1, 2)
cut 1 => Cut(1)
join 0001 => Join(1)
sense 1 2 => Sense(1, 2)
restart 2 => Restart(2)
configure 2 3 4 5 aggregatable => Configure(2, 3, PortChange { key: Key(4), priority: 5, aggregatable: true })
configure 1 65535 0 65535 individual => Configure(1, 65535, PortChange { key: Key(0), priority: 65535, aggregatable: false })
offer 2 3 0aFf => Offer(2, AggId(3), [10, 255])
offer 1 1  => Offer(1, AggId(1), [])
move 1 2 3 4 => Move(1, AggId(2), 3, 4)
force 2 3 4 => Force(2, AggId(3), 4)"#;

#[test]
fn entries_are_read(rt: HostRuntime) -> Result<(), AllocError> {
    for line in EVENTS_READ.lines() {
        is_read(&rt, rt.alloc(), parts(line))?;
    }
    Ok(())
}

/// This text, repeated this many times, between two others.
fn repeated(
    alloc: Global,
    before: &str,
    text: &str,
    count: usize,
    behind: &str,
) -> Result<String, AllocError> {
    let mut all = String::new(alloc);
    all.push_str(before)?;
    for _ in 0..count {
        all.push_str(text)?;
    }
    all.push_str(behind)?;
    Ok(all)
}

/// This text, repeated this many times between two others, has this outcome.
fn repeated_comes_to(
    rt: &impl Abort,
    alloc: Global,
    (before, text, behind): (&str, &str, &str),
    count: usize,
    wanted: &str,
) -> Result<(), AllocError> {
    let all = repeated(alloc, before, text, count, behind)?;
    let came = outcome(alloc, all.as_str())?;
    same(rt, text, &came.as_str(), &wanted);
    Ok(())
}

#[test]
fn aggregators_have_a_limit(rt: HostRuntime) -> Result<(), AllocError> {
    let alloc = rt.alloc();
    let (before, behind) = (SYSTEM_1.before, SYSTEM_1.behind);
    let start = format!(in alloc;
        "{before}{MAC}port = [{{number = 1, key = 1}}], aggregators = ["
    )?;
    let end = format!(in alloc; "]{behind}")?;
    let texts = (start.as_str(), "1,", end.as_str());
    repeated_comes_to(&rt, alloc, texts, 64, "read")?;
    repeated_comes_to(&rt, alloc, texts, 65, "system 1: aggregator count")
}

/// How many events are read to their end: the most that a script may have.
const EVENTS: usize = 100_000;

/// The outcome of reading this many events with this text.
fn events_come_to(
    rt: &impl Abort,
    alloc: Global,
    text: &str,
    count: usize,
    wanted: &str,
) -> Result<(), AllocError> {
    let end = format!(in alloc; "]{}", SYSTEMS.behind)?;
    repeated_comes_to(rt, alloc, ("events = [", text, end.as_str()), count, wanted)
}

/// The count of the events is looked at before the first of them.
#[test]
fn events_have_a_limit(rt: HostRuntime) -> Result<(), AllocError> {
    let alloc = rt.alloc();
    let tick = "\"tick 1 1\",";
    let empty = "\"\",";
    events_come_to(&rt, alloc, tick, EVENTS, "read")?;
    events_come_to(&rt, alloc, empty, EVENTS, "event 1: word")?;
    events_come_to(&rt, alloc, empty, EVENTS + 1, "events")
}

#[test]
fn long_and_hostile_texts_end_with_a_fault(rt: HostRuntime) -> Result<(), AllocError> {
    let alloc = rt.alloc();
    let end = format!(in alloc; "\"]{}", SYSTEMS.behind)?;
    let end = end.as_str();
    let rows = [
        (("events = ", "[", ""), 1 << 20, "not toml"),
        (("system = ", "{a=", ""), 1 << 20, "not toml"),
        (("", "k", " = 1"), 1 << 16, "extra key"),
        (
            ("events = [\"tick 1 ", "1", end),
            1 << 16,
            "event 1: number",
        ),
        (
            ("events = [\"tick 1 ", "0", end),
            1 << 16,
            "event 1: number",
        ),
        (("events = [\"tick", " ", end), 1 << 16, "event 1: count"),
        (("", "[[system]]\n", ""), 1000, "system"),
        (("", "\u{feff}", TWO_CABLES), 1, "read"),
        (("", "\u{feff}", TWO_CABLES), 2, "not toml"),
        (("", "a.b.c.d.e.f = 1", ""), 1, "extra key"),
        (("", "\0", ""), 1, "not toml"),
    ];
    for (texts, count, wanted) in rows {
        repeated_comes_to(&rt, alloc, texts, count, wanted)?;
    }
    Ok(())
}
