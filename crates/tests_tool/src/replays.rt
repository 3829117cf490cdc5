use crate::comparing::{same, same_at, same_octets, same_text, told};
use crate::pieces::{by_number, one_text};
use crate::slow::sink_of;
use crate::wrong_answers::report;
use lagstreams::Sink;
use lagtool_jobs::{
    ALONE, ALONE_TEXT, Expectation, FaultText, ONE_CABLE, Summary, ToolFault, UP, UP_TEXT, VECTORS,
    replay, run_vectors, vectors,
};
use lagworld::{EntryFault, ScriptFault};
use std::alloc::{AllocError, Global};
use std::process::Abort;
use std::test::Fail;

/// Two systems with two ports each, all with Long Timeout.
pub(crate) const TWO_PORTS: &str = r#"
system = [
    { mac = "02-00-00-00-00-01", aggregators = [1], port = [{ number = 1, key = 1, short = false }, { number = 2, key = 1, short = false }] },
    { mac = "02-00-00-00-00-02", aggregators = [1], port = [{ number = 1, key = 1, short = false }, { number = 2, key = 1, short = false }] },
]
"#;

pub(crate) const TWO_CABLES: &str = "cable = [{ ends = [1, 1] }, { ends = [2, 2] }]\n";

/// Two cables with room for all frames of these tests.
const LIMIT_8: &str = "cable = [{ ends = [1, 1], limit = 8 }, { ends = [2, 2], limit = 8 }]\n";

/// Both ends of both cables come to distribute.
pub(crate) const BOTH_UP: &str = "sense 1 1 -> up
sense 1 2 -> up
sense 2 1 -> up
sense 2 2 -> up
tick 1 10 -> ticked
tick 2 10 -> ticked
emit 1 1 -> lacpdu c5 sent
emit 1 2 -> lacpdu c5 sent
deliver 1 2 -> took
deliver 2 2 -> took
emit 2 1 -> lacpdu 05 sent
emit 2 2 -> lacpdu 05 sent
deliver 1 1 -> took
deliver 2 1 -> took
tick 1 20 -> ticked
tick 2 20 -> ticked
emit 1 1 -> lacpdu 0d sent
emit 1 2 -> lacpdu 0d sent
deliver 1 2 -> took
deliver 2 2 -> took
emit 2 1 -> lacpdu 3d sent
emit 2 2 -> lacpdu 3d sent
deliver 1 1 -> took
deliver 2 1 -> took
";

/// A conversation moves behind a marker.
pub(crate) const MOVE: &str = "offer 1 1 0200000000200200000000100800 -> port 1 serial 0 sent
offer 1 1 0200000000200200000000100800 -> port 1 serial 1 sent
offer 1 1 0200000000200200000000100800 -> port 1 serial 2 sent
move 1 1 48 2 -> moved
offer 1 1 0200000000200200000000100800 -> refused 5 held
emit 1 1 -> lacpdu 3d sent
emit 1 1 -> marker 1 sent
deliver 1 2 -> up 1
deliver 1 2 -> up 1
deliver 1 2 -> up 1
deliver 1 2 -> took
deliver 1 2 -> responded sent
offer 1 1 0200000000200200000000100800 -> refused 5 held
deliver 1 1 -> released 1
offer 1 1 0200000000200200000000100800 -> port 2 serial 3 sent
deliver 2 2 -> up 1
cable 1 agreement same
cable 2 agreement same
flow 1/1/48 sent 4 collected 0 1 2 3
";

/// What is written for a script with these entries and this configuration.
pub(crate) fn replayed(alloc: Global, pieces: &[&str]) -> Result<String, ToolFault> {
    let script = one_text(alloc, pieces)?;
    let mut sink = Sink::new(Vec::new(alloc));
    replay(alloc, script.as_str(), by_number, by_number, &mut sink)?;
    Ok(String::from_utf8_lossy(alloc, sink.into_inner().as_slice())?)
}

/// The report of a script of these pieces is this text, in pieces too.
pub(crate) fn reports(
    rt: &(impl Abort + AllocGlobal),
    pieces: &[&str],
    texts: &[&str],
) -> Result<(), Fail> {
    let written = replayed(rt.alloc(), pieces)?;
    let wanted = one_text(rt.alloc(), texts)?;
    same_text(rt, "report", written.as_str(), wanted.as_str());
    Ok(())
}

/// A script of the entries of a report and of these systems; and the report, with a number before each entry. It is given in
/// pieces, without the numbers.
pub(crate) fn script_and_report(
    alloc: Global,
    pieces: &[&str],
    systems: &[&str],
) -> Result<(String, String), AllocError> {
    let whole = one_text(alloc, pieces)?;
    let mut script = String::from_str(alloc, "events = [\n")?;
    let mut report = String::new(alloc);
    let mut number = 0u16;
    for line in whole.as_str().lines() {
        if let Some((entry, _)) = line.split_once(" -> ") {
            number = number.saturating_add(1);
            write!(script, "    \"{entry}\",\n")?;
            write!(report, "{number} ")?;
        }
        write!(report, "{line}\n")?;
    }
    script.push_str("]\n")?;
    for text in systems {
        script.push_str(*text)?;
    }
    Ok((script, report))
}

/// The entries of a report, given in pieces, are played by these systems, and that is the report.
pub(crate) fn plays(
    rt: &(impl Abort + AllocGlobal),
    pieces: &[&str],
    systems: &[&str],
) -> Result<(), Fail> {
    let (script, report) = script_and_report(rt.alloc(), pieces, systems)?;
    reports(rt, &[script.as_str()], &[report.as_str()])
}

/// A script of these pieces is refused with this fault and this message.
fn refuses(
    rt: &(impl Abort + AllocGlobal),
    pieces: &[&str],
    fault: ScriptFault,
    said: &str,
) -> Result<(), Fail> {
    let fault = ToolFault::Script(fault);
    same(rt, said, &replayed(rt.alloc(), pieces), &Err(fault));
    same(rt, said, &fault.number(), &4);
    told(rt, FaultText { fault, file: "a" }, said)
}

/// Two systems with an aggregator and a port of each of two keys, and cables of unlike limits.
const TWO_KEYS: &str = r#"
system = [
    { mac = "02-00-00-00-00-01", aggregators = [1, 2], port = [{ number = 1, key = 1, short = false }, { number = 2, key = 2, short = false }] },
    { mac = "02-00-00-00-00-02", aggregators = [1, 2], port = [{ number = 1, key = 1, short = false }, { number = 2, key = 2, short = false }] },
]
cable = [{ ends = [1, 1], limit = 1 }, { ends = [2, 2], limit = 2 }]
"#;

/// Conversation 255 of aggregator 2 of system 1, and conversation 55 of aggregator 1 of system 2.
const BOTH_WAYS: &str = "offer 1 2 0200000000a502000000005a0800 -> port 2 serial 0 sent
offer 1 2 0200000000a502000000005a0800 -> port 2 serial 1 sent
offer 1 2 0200000000a502000000005a0800 -> port 2 serial 2 lost
offer 2 1 0200000000130200000000240800 -> port 1 serial 0 sent
offer 2 1 0200000000130200000000240800 -> port 1 serial 1 lost
deliver 2 2 -> up 2
deliver 2 2 -> up 2
deliver 1 1 -> up 1
force 2 1 55 -> forced
cable 1 agreement same
cable 2 agreement same
flow 1/2/255 sent 3 collected 0 1
flow 2/1/55 sent 2 collected 0 forced
";

/// A conversation is forced, and a later frame of it arrives before an earlier one.
const FORCE: &str = "offer 1 1 0200000000200200000000100800 -> port 1 serial 0 sent
move 1 1 48 2 -> moved
force 1 1 48 -> forced
offer 1 1 0200000000200200000000100800 -> port 2 serial 1 sent
deliver 2 2 -> up 1
deliver 1 2 -> up 1
cable 1 agreement same
cable 2 agreement same
flow 1/1/48 sent 2 collected 1 0 forced
";

#[test]
fn conversations_of_both_systems(rt: HostRuntime) -> Result<(), Fail> {
    for cables in [TWO_CABLES, LIMIT_8] {
        plays(&rt, &[BOTH_UP, MOVE], &[TWO_PORTS, cables])?;
    }
    plays(&rt, &[BOTH_UP, BOTH_WAYS], &[TWO_KEYS])?;
    plays(&rt, &[BOTH_UP, FORCE], &[TWO_PORTS, TWO_CABLES])
}

/// An entry with leading zeros and upper-case digits, and each event that is in none of the others.
const OTHERS: &str = r#"events = [
    "tick 01 0010",
    "offer 1 1 0200000000AB",
    "configure 1 1 2 128 individual",
    "configure 1 1 2 128 individual",
    "repeat 1 2",
    "lose 1 2",
    "cut 1",
    "join 1",
    "sense 1 1",
    "restart 1",
    "move 1 1 48 1",
    "force 1 2 48",
    "emit 1 9",
]
"#;

const OTHERS_TEXT: &str = "1 tick 1 10 -> ticked
2 offer 1 1 0200000000ab -> refused 3 frame-length
3 configure 1 1 2 128 individual -> configured
4 configure 1 1 2 128 individual -> unchanged
5 repeat 1 2 -> empty
6 lose 1 2 -> empty
7 cut 1 -> cut
8 join 1 -> joined
9 sense 1 1 -> up
10 restart 1 -> restarted
11 move 1 1 48 1 -> refused 9 not-assigned
12 force 1 2 48 -> refused 2 no-aggregator
13 emit 1 9 -> refused 1 no-port
cable 1 agreement not-both
";

/// A thousand entries, and their report.
fn a_thousand(alloc: Global) -> Result<(String, String), AllocError> {
    let mut events = String::from_str(alloc, "events = [\n")?;
    let mut text = String::new(alloc);
    for number in 1..=1_000 {
        events.push_str("    \"tick 1 1\",\n")?;
        write!(text, "{number} tick 1 1 -> ticked\n")?;
    }
    Ok((events, text))
}

#[test]
fn entries_of_one_cable(rt: HostRuntime) -> Result<(), Fail> {
    for limit in ["", "limit = 8\n"] {
        reports(&rt, &[ALONE, ONE_CABLE, limit], &[ALONE_TEXT])?;
        reports(&rt, &[UP, ONE_CABLE, limit], &[UP_TEXT])?;
    }
    reports(&rt, &[OTHERS, ONE_CABLE], &[OTHERS_TEXT])?;
    let (events, text) = a_thousand(rt.alloc())?;
    reports(
        &rt,
        &[events.as_str(), "]\n", ONE_CABLE],
        &[text.as_str(), "cable 1 agreement not-both\n"],
    )
}

/// A beginning of a text that is no script, its fault, and its message.
const NO_SCRIPTS: [(&str, ScriptFault, &str); 3] = [
    (
        "events = [\"cut 0\"]\n",
        ScriptFault::Entry(1, EntryFault::Cable),
        "script: event 1: cable",
    ),
    ("events = [", ScriptFault::NotToml, "script: not toml"),
    ("other = 1\n", ScriptFault::ExtraKey, "script: extra key"),
];

#[test]
fn texts_that_are_no_script(rt: HostRuntime) -> Result<(), Fail> {
    for (events, fault, said) in NO_SCRIPTS {
        refuses(&rt, &[events, ONE_CABLE], fault, said)?;
    }
    let (fault, said) = (ScriptFault::CableLimit(1), "script: cable 1: limit");
    refuses(&rt, &[ONE_CABLE, "limit = 0\n"], fault, said)
}

/// A report goes into a sink with room for this many octets.
fn report_into(rt: &(impl Abort + AllocGlobal), room: usize, errs: bool) {
    let text = b"cable 1 agreement not-both\n";
    let fits = room >= text.len();
    let expected = if fits { Ok(()) } else { Err(ToolFault::Write) };
    let mut sink = sink_of(rt.alloc(), room, errs);
    let answer = replay(rt.alloc(), ONE_CABLE, by_number, by_number, &mut sink);
    same_at(rt, "octets of room", room, &answer, &expected);
    let taken = sink.into_inner().taken;
    let wanted = &text[..room.min(text.len())];
    same_octets(rt, "octets of room", room, taken.as_slice(), wanted);
}

#[test]
fn a_report_into_a_sink_that_fails(rt: HostRuntime) {
    for room in 0..=27 {
        report_into(&rt, room, false);
        report_into(&rt, room, true);
    }
}

#[test]
fn the_vectors_pass(rt: HostRuntime) -> Result<(), Fail> {
    let alloc = rt.alloc();
    let text = report(alloc, 0, 0)?;
    let mut sink = Sink::new(Vec::new(alloc));
    let summary = vectors(alloc, &mut sink)?;
    let (checked, faults) = (10, 0);
    same(&rt, "summary", &summary, &Summary { checked, faults });
    same_octets(
        &rt,
        "vectors",
        10,
        sink.into_inner().as_slice(),
        text.as_bytes(),
    );
    Ok(())
}

#[test]
fn a_vector_that_fails_is_told(rt: HostRuntime) -> Result<(), Fail> {
    let alloc = rt.alloc();
    let wrong = [Expectation::Replays {
        events: ALONE,
        text: UP_TEXT,
    }];
    let vectors = [VECTORS[0], wrong.as_slice(), VECTORS[1]];
    let mut sink = Sink::new(Vec::new(alloc));
    let summary = run_vectors(alloc, &vectors, &mut sink)?;
    let (checked, faults) = (3, 1);
    same(&rt, "summary", &summary, &Summary { checked, faults });
    let wanted = b"V1 ok\nV2 failed\nV3 ok\nvectors 3 failed 1\n";
    same_octets(&rt, "vectors", 3, sink.into_inner().as_slice(), wanted);
    Ok(())
}
