use crate::worlds::agreements::ONE_CABLE_ROW;
use crate::worlds::conversations::{FULL_ROW, MOVES_ROW, NARROW_ROW};
use crate::worlds::given::{add_line, empty_direction, modulo, script};
use crate::worlds::playing::run_of;
use crate::worlds::{Row, compare_run, lines_of, tells};
use cables::AnyCable;
use lagscript::read_plan;
use lagworld::{World, WorldFault};
use std::alloc::Global;
use std::process::Abort;
use std::test::Fail;

/// Empty cables with these limits.
fn limited(alloc: Global, limits: &[Option<u16>]) -> Result<Vec<(AnyCable, AnyCable)>, WorldFault> {
    let mut lines = Vec::new(alloc);
    for limit in limits {
        let to_one = empty_direction(alloc, *limit)?;
        let to_two = empty_direction(alloc, *limit)?;
        add_line(&mut lines, to_one, to_two)?;
    }
    Ok(lines)
}

/// Reads a plan of the systems and events of a row with these cables in place of its own, and compares the replies with the expected
/// ones.
fn plays_plan(rt: &impl Abort, alloc: Global, cables: &str, row: &Row) -> Result<(), Fail> {
    let wanted = lines_of(alloc, row)?;
    let (systems, _) = row.setting.split_once("cable = ").unwrap_or(("", ""));
    let tables = format!(in alloc; "{systems}cable = [{cables}]\n")?;
    let plan = read_plan(
        alloc,
        script(alloc, tables.as_str(), wanted.as_str())?.as_str(),
    )?;
    let lines = limited(alloc, &plan.limits)?;
    let mut world = World::new(alloc, plan.config, modulo, modulo, lines)?;
    compare_run(rt, alloc, wanted.as_str(), run_of(&mut world, &plan.events))?;
    tells(rt, alloc, &world, row.told)?;
    Ok(())
}

/// Each cable, or the first of two, holds fewer frames in each direction than the events put on it.
#[test]
fn a_plan_of_cables_that_fill(rt: HostRuntime) -> Result<(), Fail> {
    let both_for_2 = "{ ends = [1, 1], limit = 2 }, { ends = [2, 2], limit = 2 }";
    plays_plan(&rt, rt.alloc(), both_for_2, &FULL_ROW)?;
    let first_for_2 = "{ ends = [1, 1], limit = 2 }, { ends = [2, 2] }";
    plays_plan(&rt, rt.alloc(), first_for_2, &FULL_ROW)?;
    let both_for_1 = "{ ends = [1, 1], limit = 1 }, { ends = [2, 2], limit = 1 }";
    plays_plan(&rt, rt.alloc(), both_for_1, &NARROW_ROW)
}

#[test]
fn a_plan_of_cables_that_never_fill(rt: HostRuntime) -> Result<(), Fail> {
    let both_for_8 = "{ ends = [1, 1], limit = 8 }, { ends = [2, 2], limit = 8 }";
    plays_plan(&rt, rt.alloc(), both_for_8, &MOVES_ROW)?;
    plays_plan(
        &rt,
        rt.alloc(),
        "{ ends = [1, 1], limit = 8 }",
        &ONE_CABLE_ROW,
    )
}
