use crate::comparing::{same, same_in_row};
use lagtypes::{AggId, Choice, Key, NoMemory, Party, PortId, SystemId};
use selection::{Aggregators, PortView, Stage, are_views};
use std::alloc::Global;
use std::process::Abort;

const A: u8 = 0xa;

const B: u8 = 0xb;

const C: u8 = 0xc;

/// An aggregatable port with key 1 of a system; this is the last octet of the system's MAC address.
fn party(system: u8, number: u16) -> Party {
    Party {
        system: SystemId {
            priority: 32768,
            mac: [2, 0, 0, 0, 0, system],
        },
        key: Key(1),
        port: PortId {
            priority: 128,
            number,
        },
        aggregatable: true,
    }
}

/// An eligible port of system A, whose partner is in this system.
fn view(number: u16, partner: u8) -> PortView {
    PortView {
        number,
        party: party(A, number),
        partner: party(partner, number),
        enabled: true,
        settled: true,
        stage: Stage::Detached,
        choice: Choice::Unselected,
    }
}

fn views() -> [PortView; 3] {
    [view(1, B), view(2, B), view(3, C)]
}

fn selected(agg: u16) -> Choice {
    Choice::Selected(AggId(agg))
}

/// Ports 1 and 2 are members of an aggregator; their mux machines are in these stages.
fn members(agg: u16, one: Stage, other: Stage) -> [PortView; 3] {
    let mut views = views();
    views[0].choice = selected(agg);
    views[0].stage = one;
    views[1].choice = selected(agg);
    views[1].stage = other;
    views
}

/// Aggregators 1 and 2 of key 1, and aggregator 3 of key 2.
fn aggregators(alloc: Global) -> Result<Aggregators, NoMemory> {
    Aggregators::new(alloc, &[Key(1), Key(1), Key(2)])
}

const NONE: Choice = Choice::Unselected;

/// The ports have these choices.
fn chosen(choices: [Choice; 3]) -> [PortView; 3] {
    let mut views = views();
    for (view, choice) in views.iter_mut().zip(choices) {
        view.choice = choice;
    }
    views
}

/// A port of system A that is a member of an aggregator.
fn member(number: u16, partner: u8, agg: u16) -> PortView {
    PortView {
        choice: selected(agg),
        ..view(number, partner)
    }
}

/// The view of a port with the two ends that another port has.
fn with_ends_of(other: PortView, view: PortView) -> PortView {
    PortView {
        party: other.party,
        partner: other.partner,
        ..view
    }
}

/// Views, a port of them, and the aggregator that it chooses.
type Chooses = ([PortView; 3], u16, Option<u16>);

fn choose(rt: &impl Abort, aggregators: &Aggregators, rows: &[Chooses]) {
    for (place, (views, port, want)) in rows.iter().enumerate() {
        let chosen = aggregators.choose(views, *port);
        same_in_row(rt, place, &chosen, &want.map(AggId));
    }
}

#[test]
fn chooses_by_key_and_group(rt: HostRuntime) -> Result<(), NoMemory> {
    let (first, second, third) = (member(1, B, 1), view(2, B), view(3, C));
    let mut other_key = second;
    other_key.party.key = Key(2);
    let mut to_other_key = second;
    to_other_key.partner.key = Key(9);
    let mut to_itself = second;
    to_itself.partner = party(A, 2);
    let mut to_single = second;
    to_single.partner.aggregatable = false;
    // Individual at either end, and a member
    let (mut their_single, mut own_single) = (first, first);
    their_single.partner.aggregatable = false;
    own_single.party.aggregatable = false;
    let rows = [
        (views(), 1, Some(1)),
        ([first, second, third], 2, Some(1)),
        ([first, second, third], 3, Some(2)),
        ([first, to_single, third], 2, Some(2)),
        ([first, other_key, third], 2, Some(3)),
        ([view(1, B), second, member(3, B, 2)], 1, Some(2)),
        ([first, second, member(3, B, 2)], 2, Some(1)),
        // ports 1 and 3, of different partners
        ([first, second, member(3, C, 1)], 2, Some(2)),
        ([first, to_other_key, third], 2, Some(2)),
        (
            [their_single, with_ends_of(their_single, second), third],
            2,
            Some(2),
        ),
        (
            [own_single, with_ends_of(own_single, second), third],
            2,
            Some(2),
        ),
        ([first, to_single, member(3, C, 2)], 2, None),
        ([first, to_itself, third], 2, None),
        ([first, second, third], 1, None),
        ([first, second, third], 4, None),
        (views(), 0, None),
    ];
    choose(&rt, &aggregators(rt.alloc())?, &rows);
    Ok(())
}

/// 65537 keys; only the one at this index is the key of the ports.
fn many_keys(alloc: Global, place: usize) -> Result<Vec<Key>, NoMemory> {
    let mut keys = Vec::new(alloc);
    for at in 0..65_537 {
        keys.push(if at == place { Key(1) } else { Key(2) })?;
    }
    Ok(keys)
}

/// With the key of the ports at this index, port 1 chooses this aggregator.
fn chooses_with(
    rt: &impl Abort,
    alloc: Global,
    place: usize,
    want: Option<AggId>,
) -> Result<(), NoMemory> {
    let keys = many_keys(alloc, place)?;
    let aggregators = Aggregators::new(alloc, &keys)?;
    same(rt, "count", &aggregators.count(), &65_535);
    same(rt, "choose", &aggregators.choose(&views(), 1), &want);
    Ok(())
}

fn standby(agg: u16) -> Choice {
    Choice::Standby(AggId(agg))
}

/// Ports 5, 7 and 9 of one partner with these choices and priorities.
fn ranked(choices: [Choice; 3], priorities: [u16; 3]) -> [PortView; 3] {
    let mut views = [view(5, B), view(7, B), view(9, B)];
    for (view, choice) in views.iter_mut().zip(choices) {
        view.choice = choice;
    }
    for (view, priority) in views.iter_mut().zip(priorities) {
        view.party.port.priority = priority;
    }
    views
}

/// Those ports, STANDBY with this aggregator. Port 7 has the lowest port identifier and port 5 the highest, by their priorities.
fn all_standby(agg: u16) -> [PortView; 3] {
    ranked([standby(agg); 3], [300, 200, 250])
}

/// Views, a limit and an aggregator: whether that has room, and the STANDBY port that comes next, by its index and number.
type Room = ([PortView; 3], Option<u16>, u16, bool, Option<(usize, u16)>);

fn tells_room(rt: &impl Abort, alloc: Global, place: usize, row: &Room) -> Result<(), NoMemory> {
    let (views, limit, agg, room, next) = row;
    let aggregators = Aggregators::with_limit(alloc, &[Key(1), Key(1), Key(2)], *limit)?;
    let agg = AggId(*agg);
    let index = aggregators.next_standby_index(views, agg);
    let number = aggregators.next_standby(views, agg);
    same_in_row(rt, place, &aggregators.max_links(), limit);
    same_in_row(rt, place, &aggregators.room(views, agg), room);
    same_in_row(rt, place, &index, &next.map(|(index, _)| index));
    same_in_row(rt, place, &number, &next.map(|(_, number)| number));
    Ok(())
}

#[test]
fn tells_room_and_the_next_standby_port(rt: HostRuntime) -> Result<(), NoMemory> {
    // port 9 has the lower port identifier of the two that are STANDBY
    let one = ranked([selected(1), standby(1), standby(1)], [300, 200, 100]);
    let two = ranked([selected(1), standby(1), selected(1)], [300, 200, 100]);
    let equal = ranked([standby(1); 3], [128; 3]);
    let mut falling = equal;
    for (view, number) in falling.iter_mut().zip([40, 30, 20]) {
        view.party.port.number = number;
    }
    let each = ranked([standby(3), standby(1), standby(2)], [300, 200, 250]);
    let rows: [Room; 18] = [
        (all_standby(1), Some(1), 1, true, Some((1, 7))),
        (all_standby(1), Some(0), 1, false, None),
        (all_standby(1), Some(1), 2, true, None),
        (all_standby(0), Some(1), 0, false, None),
        (all_standby(4), None, 4, false, None),
        (all_standby(3), Some(64), 3, true, Some((1, 7))),
        (one, Some(1), 1, false, None),
        (one, Some(2), 1, true, Some((2, 9))),
        (one, None, 1, true, Some((2, 9))),
        (two, Some(1), 1, false, None),
        (two, Some(2), 1, false, None),
        (two, Some(3), 1, true, Some((1, 7))),
        (equal, Some(1), 1, true, Some((0, 5))),
        (falling, Some(1), 1, true, Some((2, 9))),
        (each, Some(1), 1, true, Some((1, 7))),
        (each, Some(1), 2, true, Some((2, 9))),
        (each, Some(1), 3, true, Some((0, 5))),
        (views(), Some(1), 1, true, None),
    ];
    for (place, row) in rows.iter().enumerate() {
        tells_room(&rt, rt.alloc(), place, row)?;
    }
    Ok(())
}

#[test]
fn an_aggregator_that_is_not_in_use_has_no_room(rt: HostRuntime) -> Result<(), NoMemory> {
    let mut aggregators = Aggregators::with_limit(rt.alloc(), &[Key(1), Key(1), Key(2)], Some(2))?;
    let views = all_standby(2);
    // agg, in use, and then whether 1, 2 and 3 are in use; the port that comes next in 2
    let rows = [
        (3, true, [true, true, true], Some(7)),
        (2, false, [true, false, true], None),
        (0, false, [true, false, true], None),
        (4, false, [true, false, true], None),
        (1, false, [false, false, true], None),
        (2, true, [false, true, true], Some(7)),
    ];
    for (place, (agg, in_use, each, next)) in rows.into_iter().enumerate() {
        aggregators.set_in_use(AggId(agg), in_use);
        let told = [1, 2, 3].map(|agg| aggregators.is_in_use(AggId(agg)));
        same_in_row(&rt, place, &told, &each);
        same_in_row(
            &rt,
            place,
            &aggregators.room(&views, AggId(2)),
            &next.is_some(),
        );
        same_in_row(
            &rt,
            place,
            &aggregators.next_standby(&views, AggId(2)),
            &next,
        );
        same_in_row(&rt, place, &aggregators.is_in_use(AggId(4)), &false);
    }
    Ok(())
}

#[test]
fn aggregators_have_numbers_and_no_limit_at_first(rt: HostRuntime) -> Result<(), NoMemory> {
    // The highest number of an aggregator is 65535.
    chooses_with(&rt, rt.alloc(), 65_534, Some(AggId(65_535)))?;
    chooses_with(&rt, rt.alloc(), 65_535, None)?;
    let aggregators = aggregators(rt.alloc())?;
    same(&rt, "max_links", &aggregators.max_links(), &None);
    same(&rt, "count", &aggregators.count(), &3);
    Ok(())
}

/// Port 1 is a member of aggregator 1; port 3, whose partner is another one, is STANDBY with it.
fn member_and_standby() -> [PortView; 3] {
    chosen([selected(1), NONE, standby(1)])
}

/// What a port chooses does not depend on the limit.
#[test]
fn a_standby_port_occupies_its_aggregator(rt: HostRuntime) -> Result<(), NoMemory> {
    let first = chosen([standby(1), NONE, NONE]);
    let mut to_single = first;
    to_single[1].partner.aggregatable = false;
    let rows = [
        (first, 2, Some(1)),
        (first, 3, Some(2)),
        // the partner of port 3 is another one
        (chosen([standby(1), NONE, standby(2)]), 2, Some(1)),
        (member_and_standby(), 2, Some(2)),
        (to_single, 2, Some(2)),
        (chosen([selected(1), NONE, NONE]), 2, Some(1)),
    ];
    for limit in [None, Some(1)] {
        let keys = [Key(1), Key(1), Key(2)];
        choose(
            &rt,
            &Aggregators::with_limit(rt.alloc(), &keys, limit)?,
            &rows,
        );
    }
    Ok(())
}

#[test]
fn members_are_listed_without_standby_ports(rt: HostRuntime) -> Result<(), NoMemory> {
    let aggregators = aggregators(rt.alloc())?;
    lists(&rt, &aggregators, 1, 1, &[5, 9]);
    lists(&rt, &aggregators, 2, 2, &[5, 9]);
    lists(&rt, &aggregators, 1, 2, &[]);
    lists(&rt, &aggregators, 0, 0, &[]);
    lists(&rt, &aggregators, 4, 4, &[]);
    lists(&rt, &aggregators, 3, 3, &[5, 9]);
    let views = member_and_standby();
    assert!(rt; are_views(&views));
    let found = aggregators.members(&views, AggId(1));
    let want: &[u16] = &[1];
    same(&rt, "members", &found.as_slice(), &want);
    Ok(())
}

#[test]
fn tells_which_port_is_eligible(rt: HostRuntime) {
    let eligible = view(1, B);
    let with = |stage: Stage, choice: Choice| PortView {
        stage,
        choice,
        ..eligible
    };
    let down = PortView {
        enabled: false,
        ..eligible
    };
    let unsettled = PortView {
        settled: false,
        ..eligible
    };
    let mut other_priority = view(1, A);
    other_priority.partner.system.priority = 1;
    let rows = [
        (eligible, true),
        (down, false),
        (unsettled, false),
        (
            with(Stage::Waiting { expired: true }, Choice::Unselected),
            false,
        ),
        (with(Stage::Joined, Choice::Unselected), false),
        (with(Stage::Detached, selected(1)), false),
        (with(Stage::Detached, standby(1)), false),
        (view(1, A), false),
        (other_priority, true),
    ];
    for (place, (view, want)) in rows.iter().enumerate() {
        same_in_row(&rt, place, &view.is_eligible(), want);
    }
}

#[test]
fn is_ready_where_all_members_that_wait_have_waited(rt: HostRuntime) -> Result<(), NoMemory> {
    let aggregators = aggregators(rt.alloc())?;
    let waited = Stage::Waiting { expired: true };
    let waits = Stage::Waiting { expired: false };
    let rows = [
        (members(1, waited, waited), 1, true),
        (members(1, waited, waits), 1, false),
        (members(1, waited, Stage::Detached), 1, false),
        (members(1, Stage::Joined, waited), 1, true),
        (members(1, Stage::Joined, Stage::Joined), 1, false),
        (members(1, waited, waited), 2, false),
        (members(0, waited, waited), 0, false),
        (members(4, waited, waited), 4, false),
        (members(3, waited, waited), 3, true),
    ];
    for (place, (views, agg, want)) in rows.iter().enumerate() {
        let ready = aggregators.ready(views, AggId(*agg));
        same_in_row(&rt, place, &ready, want);
    }
    let mut views = members(1, waited, waits);
    same(&rt, "has waited", &views[0].has_waited(), &true);
    same(&rt, "waits", &views[1].has_waited(), &false);
    let as_member = aggregators.ready(&views, AggId(1));
    same(&rt, "as a member", &as_member, &false);
    views[1].choice = standby(1);
    let as_standby = aggregators.ready(&views, AggId(1));
    same(&rt, "as a STANDBY port", &as_standby, &true);
    views[0].choice = standby(1);
    let alone = aggregators.ready(&views, AggId(1));
    same(&rt, "with STANDBY ports alone", &alone, &false);
    Ok(())
}

/// Ports 5 and 9 are members of the first aggregator; the second one has these members.
fn lists(rt: &impl Abort, aggregators: &Aggregators, given: u16, asked: u16, want: &[u16]) {
    let mut views = members(given, Stage::Joined, Stage::Joined);
    views[0].number = 5;
    views[1].number = 9;
    views[2].number = 11;
    assert!(rt; are_views(&views));
    let found = aggregators.members(&views, AggId(asked));
    same(rt, "members", &found.as_slice(), &want);
}
