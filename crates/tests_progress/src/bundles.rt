use crate::comparing::{same, same_at};
use crate::given::{Setting, modulo};
use crate::playing::{agree, plays_lines, plays_rounds, world_of};
use cables::AnyCable;
use lagprogress::play_round;
use lagtypes::AggId;
use lagworld::{World, WorldFault};
use std::alloc::Global;
use std::process::Abort;
use std::test::Fail;

/// All ports are active.
const ACTIVE: &str = r#"
system = [
    { mac = "02-00-00-00-00-01", aggregators = [7, 9, 7], port = [{ number = 11, key = 7, short = false }, { number = 12, key = 9, short = false }, { number = 13, key = 7, short = false }] },
    { mac = "02-00-00-00-00-02", aggregators = [6, 5, 5], port = [{ number = 21, key = 5, short = true }, { number = 22, key = 6, short = true }, { number = 23, key = 5, short = true }] },
]
cable = [{ ends = [11, 23] }, { ends = [12, 22] }, { ends = [13, 21] }]
"#;

/// One end of each cable is passive.
const HALF_PASSIVE: &str = r#"
system = [
    { mac = "02-00-00-00-00-01", aggregators = [7, 9, 7], port = [{ number = 11, key = 7, short = false }, { number = 12, key = 9, active = false, short = false }, { number = 13, key = 7, active = false, short = false }] },
    { mac = "02-00-00-00-00-02", aggregators = [6, 5, 5], port = [{ number = 21, key = 5, short = true }, { number = 22, key = 6, short = true }, { number = 23, key = 5, active = false, short = true }] },
]
cable = [{ ends = [11, 23] }, { ends = [12, 22] }, { ends = [13, 21] }]
"#;

/// The link of every port is up.
const LINKS_UP: &str = "sense 1 1 => Sensed(true)
sense 1 2 => Sensed(true)
sense 2 1 => Sensed(true)
sense 2 2 => Sensed(true)
sense 3 1 => Sensed(true)
sense 3 2 => Sensed(true)
";

/// Compares the ports of an aggregator that distribute with the expected ones.
fn compare_distributing<F: Fn(u16, usize) -> usize + Drop>(
    rt: &impl Abort,
    world: &World<AnyCable, F>,
    number: u8,
    agg: u16,
    wanted: &[u16],
) {
    let came = match world.system(number) {
        Some(system) => system.distributing(AggId(agg)),
        None => return same(rt, "a system", &false, &true),
    };
    let came = (number, agg, came.as_slice());
    same(
        rt,
        "system, aggregator and ports",
        &came,
        &(number, agg, wanted),
    );
}

/// After so many healthy rounds each cable agrees. Cables 1 and 3 make one aggregation, and cable 2 another. The number is no
/// constant here: the prover would unfold each of these rounds.
fn comes_up(
    rt: &impl Abort,
    alloc: Global,
    setting: Setting,
    rounds: u16,
) -> Result<(), WorldFault> {
    let mut world = world_of(rt, alloc, setting, modulo, modulo)?;
    plays_lines(rt, alloc, &mut world, setting, LINKS_UP)?;
    plays_rounds(rt, &mut world, rounds);
    agree(rt, &world, 3);
    compare_distributing(rt, &world, 1, 1, &[11, 13]);
    compare_distributing(rt, &world, 1, 2, &[12]);
    compare_distributing(rt, &world, 1, 3, &[]);
    compare_distributing(rt, &world, 2, 1, &[22]);
    compare_distributing(rt, &world, 2, 2, &[21, 23]);
    compare_distributing(rt, &world, 2, 3, &[]);
    Ok(())
}

#[test]
fn crossed_cables_agree_in_356_healthy_rounds(rt: HostRuntime) -> Result<(), Fail> {
    comes_up(&rt, rt.alloc(), ACTIVE, 356)?;
    Ok(())
}

#[test]
fn crossed_cables_with_a_passive_end_agree_in_657(rt: HostRuntime) -> Result<(), Fail> {
    comes_up(&rt, rt.alloc(), HALF_PASSIVE, 657)?;
    Ok(())
}

/// After 12 rounds (1.2 s) each port has heard its peer: each end was asked, and what it sent arrived (6.4.12, 6.4.13).
#[test]
fn a_round_asks_each_end_of_each_cable(rt: HostRuntime) -> Result<(), Fail> {
    let mut world = world_of(&rt, rt.alloc(), ACTIVE, modulo, modulo)?;
    plays_lines(&rt, rt.alloc(), &mut world, ACTIVE, LINKS_UP)?;
    for _ in 0..12 {
        same(&rt, "the round", &play_round(&mut world), &Ok(()));
    }
    for (number, ports) in [(1, [11, 12, 13]), (2, [21, 22, 23])] {
        for port in ports {
            let defaulted = match world.system(number) {
                Some(system) => system.defaulted(port),
                None => None,
            };
            same_at(&rt, "port", usize::from(port), &defaulted, &Some(false));
        }
    }
    Ok(())
}

#[test]
fn a_world_tells_its_cables(rt: HostRuntime) -> Result<(), Fail> {
    let world = world_of(&rt, rt.alloc(), ACTIVE, modulo, modulo)?;
    same(&rt, "how many", &world.cables(), &3);
    let told = [
        (0, None),
        (1, Some((11, 23))),
        (2, Some((12, 22))),
        (3, Some((13, 21))),
        (4, None),
    ];
    for (cable, ends) in told {
        same_at(&rt, "cable", usize::from(cable), &world.ends(cable), &ends);
    }
    Ok(())
}
