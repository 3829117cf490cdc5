use crate::checks::{four_lines, whole};
use crate::comparing::{same, same_octets};
use crate::pieces::by_number;
use crate::replays::{BOTH_UP, MOVE, TWO_CABLES, TWO_PORTS, script_and_report};
use lagstreams::{Sink, Source};
use lagtool_jobs::{ToolFault, check, replay};
use std::alloc::Global;
use std::process::Abort;

/// The report of `four_lines`.
const CHECKED: &str = "1 marker-response\n2 runt\n3 not hex\n4 data\nchecked 4 faults 2\n";

/// A report is whole; or it is a beginning, and memory was refused. Returns whether it is whole.
fn ends(rt: &impl Abort, answer: Result<(), ToolFault>, taken: &[u8], report: &str) -> bool {
    if answer.is_ok() {
        same_octets(rt, "report", 0, taken, report.as_bytes());
        return true;
    }
    same(rt, "answer", &answer, &Err(ToolFault::NoMemory));
    let is_beginning = taken.len() < report.len() && report.as_bytes().starts_with(taken);
    same(rt, "a beginning of the report", &is_beginning, &true);
    false
}

/// Checks a file into a sink that takes no memory; returns whether the report is whole.
fn checks(rt: &impl Abort, alloc: Global) -> Result<bool, ToolFault> {
    let file = four_lines(alloc)?;
    let mut sink = Sink::new(Vec::with_capacity(alloc, 4096)?);
    let mut source = Source::new(whole(file.as_bytes()));
    let answer = match check(alloc, &mut source, &mut sink) {
        Ok(_) => Ok(()),
        Err(fault) => Err(fault),
    };
    Ok(ends(rt, answer, sink.into_inner().as_slice(), CHECKED))
}

/// Replays a script in the same way.
fn replays(rt: &impl Abort, alloc: Global) -> Result<bool, ToolFault> {
    let (script, report) = script_and_report(alloc, &[BOTH_UP, MOVE], &[TWO_PORTS, TWO_CABLES])?;
    let mut sink = Sink::new(Vec::with_capacity(alloc, 4096)?);
    let answer = replay(alloc, script.as_str(), by_number, by_number, &mut sink);
    Ok(ends(rt, answer, sink.into_inner().as_slice(), report.as_str()))
}

/// Fails if an allocation is refused.
#[test]
fn memory_for_a_check_and_a_replay_is_granted(rt: HostRuntime) {
    same(&rt, "whole", &checks(&rt, rt.alloc()), &Ok(true));
    same(&rt, "whole", &replays(&rt, rt.alloc()), &Ok(true));
}

/// Passes whichever allocation is refused.
#[test]
fn refused_memory_cuts_a_check(rt: HostRuntime) {
    if let Err(fault) = checks(&rt, rt.alloc()) {
        same(&rt, "fault", &fault, &ToolFault::NoMemory);
    }
}

/// Passes whichever allocation is refused.
#[test]
fn refused_memory_cuts_a_replay(rt: HostRuntime) {
    if let Err(fault) = replays(&rt, rt.alloc()) {
        same(&rt, "fault", &fault, &ToolFault::NoMemory);
    }
}
