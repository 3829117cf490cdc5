ghost use Rattle.std.specs.Prelude.{◌<◌};

use crate::comparing::{same, same_in_row};
use crate::hosts::playing::{config, heard, told};
use crate::systems::{Row, look, modulo, play};
use dataplane::{ResumeFault, SavedPort, adopt, resume};
use lagsystem::{AggId, BadConfig, Choice, Config, NoMemory, System, SystemFault};
use std::alloc::Global;
use std::process::Abort;
use std::test::Fail;

/// The places in the frame of an LACPDU of the last octet of Actor_System, of Actor_State, of the lower octet of Partner_Key, and of
/// Partner_State (6.4.2.3).
const ACTOR_SYSTEM_END: usize = 25;

const ACTOR_STATE: usize = 32;

const PARTNER_KEY: usize = 47;

const PARTNER_STATE: usize = 52;

/// What is saved of a port whose LACPDU is so old; its Actor is synchronized.
pub(crate) fn saved(port: u16, age: u32) -> SavedPort {
    SavedPort {
        port,
        aggregator: 1,
        age,
        frame: heard(port),
    }
}

/// The same, with one octet of the frame that is another one.
fn altered(port: u16, place: usize, octet: u8) -> SavedPort
    requires { place < 124 }
{
    let mut changed = saved(port, 0);
    changed.frame[place] = octet;
    changed
}

/// The same of a port that was in this aggregator; the Actor is in the system with this last octet of its MAC address.
fn of_system(port: u16, aggregator: u16, age: u32, system: u8) -> SavedPort {
    let mut changed = saved(port, age);
    changed.aggregator = aggregator;
    changed.frame[ACTOR_SYSTEM_END] = system;
    changed
}

/// Fails unless a warm start from these ports is refused for this reason.
fn refused(
    rt: &impl Abort,
    alloc: Global,
    row: usize,
    ports: &[SavedPort],
    why: ResumeFault,
) -> Result<(), Fail> {
    let made = resume(alloc, config(alloc, 70)?, modulo, ports);
    same_in_row(rt, row, &made.err(), &Some(why));
    Ok(())
}

#[test]
fn saved_ports_distribute_at_once(rt: HostRuntime) -> Result<(), Fail> {
    const ROWS: [Row<'static>; 7] = [
        Row::Due(3, false),
        Row::Due(9, false),
        Row::Free(1, 14, None),
        Row::OffersConversation(1, 14, Ok(3)),
        Row::OffersConversation(1, 15, Ok(7)),
        Row::Moves(1, 14, 7, Ok(())),
        Row::Marks(3, 70),
    ];
    let alloc = rt.alloc();
    let ports = [saved(3, 899), saved(7, 0)];
    let mut system = resume(alloc, config(alloc, 70)?, modulo, &ports)?;
    same(&rt, "distributes", &system.distributes(7), &Some(true));
    play(&rt, alloc, &mut system, "told", &[told(3), told(7)])?;
    play(&rt, alloc, &mut system, "resumed", &ROWS)?;
    Ok(())
}

/// Ports that do not distribute.
const PORT_3: ResumeFault = ResumeFault::NotDistributing(3);

const PORT_4: ResumeFault = ResumeFault::NotDistributing(4);

const PORT_7: ResumeFault = ResumeFault::NotDistributing(7);

#[test]
fn what_changed_meanwhile_is_refused(rt: HostRuntime) -> Result<(), Fail> {
    let alloc = rt.alloc();
    let rows = [
        ([saved(3, 900), saved(7, 1000)], ResumeFault::Stale(3)),
        ([saved(3, 899), saved(7, 900)], ResumeFault::Stale(7)),
        // the system has no port 4
        ([saved(3, 0), saved(4, 5000)], PORT_4),
        // the Actor is not synchronized; its peer knows the port by another key, or as Individual
        ([saved(3, 0), altered(7, ACTOR_STATE, 0x05)], PORT_7),
        ([saved(3, 0), altered(7, PARTNER_KEY, 6)], PORT_7),
        ([saved(3, 0), altered(7, PARTNER_STATE, 0x01)], PORT_7),
        // a marker; a length that is wrong
        ([altered(3, 14, 2), saved(7, 0)], PORT_3),
        ([altered(3, 17, 19), saved(7, 0)], PORT_3),
        // there are two aggregators; one group is in one aggregator
        ([of_system(3, 1, 0, 0x42), of_system(7, 3, 0, 0x99)], PORT_7),
        ([of_system(3, 2, 0, 0x42), of_system(7, 1, 0, 0x42)], PORT_3),
        ([of_system(3, 0, 0, 0x42), of_system(7, 3, 0, 0x42)], PORT_7),
    ];
    for (row, (ports, why)) in rows.iter().enumerate() {
        refused(&rt, alloc, row, ports, *why)?;
    }
    let ports = [of_system(3, 0, 0, 0x42), of_system(7, 0, 0, 0x42)];
    let made = resume(alloc, config(alloc, 70)?, modulo, &ports);
    same(&rt, "any aggregator", &made.is_ok(), &true);
    let mut config = config(alloc, 70)?;
    config.conversations = 100;
    let made = resume(alloc, config, modulo, &[saved(3, 0)]);
    let why = ResumeFault::New(SystemFault::BadConfig(BadConfig::Conversations));
    same(&rt, "the configuration", &made.err(), &Some(why));
    Ok(())
}

/// Fails unless each saved port is in its aggregator, distributes there, and has what is left of 900 ticks.
fn are_back<F: Fn(u16, usize) -> usize + Drop>(
    rt: &impl Abort,
    system: &System<F>,
    ports: &[SavedPort],
) {
    for one in ports {
        let chosen = Choice::Selected(AggId(one.aggregator));
        same(rt, "aggregator", &system.choice(one.port), &Some(chosen));
        let came = system.distributes(one.port);
        same(rt, "distributes", &came, &Some(true));
        let left = system.current_while(one.port).map(u32::from);
        same(
            rt,
            "current_while",
            &left,
            &Some(900_u32.saturating_sub(one.age)),
        );
    }
}

/// Fails unless the port is as it is in a system that has just started.
fn is_new<F: Fn(u16, usize) -> usize + Drop>(
    rt: &impl Abort,
    system: &System<F>,
    fresh: &System<F>,
    port: u16,
) {
    same(rt, "is_up", &system.is_up(port), &Some(false));
    same(rt, "the readers", &look(system, port), &look(fresh, port));
}

/// The same configuration without its last port.
fn of_two_ports(alloc: Global) -> Result<Config, NoMemory> {
    let mut config = config(alloc, 70)?;
    let _last = config.ports.pop();
    Ok(config)
}

#[test]
fn ports_come_back_into_their_aggregators(rt: HostRuntime) -> Result<(), Fail> {
    let alloc = rt.alloc();
    // two groups the other way round; both ports in 2, where port 9 has to take 1; one port of three in 2
    let rows = [
        [of_system(3, 2, 250, 0x99), of_system(7, 1, 899, 0x98)],
        [of_system(3, 2, 17, 0x99), of_system(7, 2, 0, 0x99)],
        [of_system(7, 2, 400, 0x99), of_system(9, 1, 21, 0x42)],
    ];
    let fresh = System::new(alloc, config(alloc, 70)?, modulo)?;
    for (row, ports) in rows.iter().enumerate() {
        let system = resume(alloc, config(alloc, 70)?, modulo, ports)?;
        are_back(&rt, &system, ports);
        let other = if row == 2 { 3 } else { 9 };
        is_new(&rt, &system, &fresh, other);
    }
    // the second port of a group takes the empty aggregator
    let ports = [of_system(3, 2, 0, 0x99), of_system(7, 2, 600, 0x99)];
    let mut system = resume(alloc, of_two_ports(alloc)?, modulo, &ports)?;
    are_back(&rt, &system, &ports);
    let came = adopt(&mut system, AggId(2), 14, 3);
    same(&rt, "adopted in 2", &came, &Ok(()));
    Ok(())
}
