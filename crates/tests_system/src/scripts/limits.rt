use crate::comparing::same;
use crate::scripts::parts;
use lagscript::{ScriptFault, read_plan, read_script};
use std::alloc::{AllocError, Global};
use std::process::Abort;

/// Three ports in each system, and three cables between them.
const THREE: &str =
    "system = [{mac = \"02-00-00-00-00-01\", aggregators = [1], port = [{number = 1, key = 1}, {number = 2, key = 1}, {number = 3, key = 1}]}, {mac = \"02-00-00-00-00-02\", aggregators = [1], port = [{number = 4, key = 1}, {number = 5, key = 1}, {number = 6, key = 1}]}]\n";

/// What both readers read: the cables, their limits and the events of a script; or the text of the fault.
fn read_as(alloc: Global, cables: &str, events: &str) -> Result<String, AllocError> {
    let text = format!(in alloc; "events = [{events}]\ncable = [{cables}]\n{THREE}")?;
    match read_plan(alloc, text.as_str()) {
        Ok(plan) => match read_script(alloc, text.as_str()) {
            Ok((config, events)) => {
                format!(in alloc;
                    "{:?} {:?} {:?}, {:?} {:?}",
                    plan.config.cables, plan.limits, plan.events, config.cables, events
                )
            }
            Err(fault) => format!(in alloc; "no script: {fault}"),
        },
        Err(fault) => format!(in alloc; "{fault}"),
    }
}

/// Both readers read cables and events as a line says.
fn are_read(rt: &impl Abort, alloc: Global, line: &str) -> Result<(), AllocError> {
    let (cables, rest) = parts(line);
    let (events, wanted) = parts(rest);
    let came = read_as(alloc, cables, events)?;
    same(rt, line, &came.as_str(), &wanted);
    Ok(())
}

/// Cables, events, and what both readers read.
const ONE_A_CABLE: &str = r#" =>  => [] [] [], [] []
{ends = [1, 4]} => "cut 1" => [(1, 4)] [None] [Cut(1)], [(1, 4)] [Cut(1)]
{ends = [1, 4], limit = 1}, {ends = [2, 5], limit = 65535}, {ends = [3, 6], limit = 8} => "cut 3", "cut 2" => [(1, 4), (2, 5), (3, 6)] [Some(1), Some(65535), Some(8)] [Cut(3), Cut(2)], [(1, 4), (2, 5), (3, 6)] [Cut(3), Cut(2)]
{ends = [3, 4]}, {limit = 2, ends = [1, 5]}, {ends = [2, 6]} =>  => [(3, 4), (1, 5), (2, 6)] [None, Some(2), None] [], [(3, 4), (1, 5), (2, 6)] []
{ends = [3, 4], limit = 7}, {ends = [1, 5]}, {ends = [2, 6], limit = 9} =>  => [(3, 4), (1, 5), (2, 6)] [Some(7), None, Some(9)] [], [(3, 4), (1, 5), (2, 6)] []
{ends = [1, 4], limit = 0}, {ends = 1} => "cut 3" => cable 1: limit
{ends = 1}, {ends = [1, 4], limit = 0} =>  => cable 1: ends
{ends = [1, 4]}, {ends = [1, 4], limit = 0} => "cut 3" => cable 2: limit
{ends = [1, 4]}, {ends = [2, 5]}, {ends = [1, 6]} =>  => cable 3: end
{ends = [1, 4]}, {ends = [2, 5]}, {ends = [3, 4]} =>  => cable 3: end
{ends = [7, 7]}, {ends = [8, 8]} =>  => cable 1: end
{ends = [1, 4], limit = 9}, {ends = [1, 4], limit = 8} => "cut 3" => event 1: cable"#;

#[test]
fn limits_are_read_one_a_cable(rt: HostRuntime) -> Result<(), AllocError> {
    for line in ONE_A_CABLE.lines() {
        are_read(&rt, rt.alloc(), line)?;
    }
    Ok(())
}

/// Both readers refuse a text for this fault.
fn both_refuse(rt: &impl Abort, alloc: Global, text: &str, fault: ScriptFault) {
    same(rt, text, &read_plan(alloc, text).err(), &Some(fault));
    same(rt, text, &read_script(alloc, text).err(), &Some(fault));
}

#[test]
fn both_readers_refuse_alike(rt: HostRuntime) {
    let alloc = rt.alloc();
    both_refuse(&rt, alloc, "x =", ScriptFault::NotToml);
    both_refuse(&rt, alloc, "x = 1", ScriptFault::ExtraKey);
    both_refuse(&rt, alloc, "limit = 8", ScriptFault::ExtraKey);
    both_refuse(&rt, alloc, "", ScriptFault::Systems);
}
