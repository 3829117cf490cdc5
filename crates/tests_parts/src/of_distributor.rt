ghost use Rattle.std.specs.Prelude.{◌≡◌, ◌≤◌, ◌<◌, length};
ghost use Rattle.distributor.specs.Calls.{PicksIndexes};

use crate::comparing::{Place, same, same_in_case, same_in_row};
use distributor::{Assignment, DistFault, Distributor, by_number};
use lagtypes::{AggId, NoMemory};
use std::alloc::Global;
use std::process::Abort;

/// The algorithm of the programs. A function of another crate cannot be handed over itself.
fn by_place(conversation: u16, count: usize) -> usize
    ensures { 0 < count → result < count }
{
    by_number(conversation, count)
}

const AGG: AggId = AggId(1);

const FREE: Assignment = Assignment::Free { preferred: None };

/// Free, and preferring port 2.
const FREE_FOR_2: Assignment = Assignment::Free { preferred: Some(2) };

/// What a reader of a distributor returns.
#[derive(Clone, Copy, Debug, PartialEq)]
enum Fact {
    State(u16, Assignment),
    /// The conversation waits on port 1 behind marker 1, since this many ticks, and prefers port 65.
    FlushingSince(u16, u8),
    Preferred(u16, Option<u16>),
    IsConversation(u16, bool),
    /// This many conversations of the aggregator are On this port.
    CountOn(u16, u16),
    Load(u16, u32),
    Conversations(u16),
    NextMarker(Option<u32>),
    NextWanted(Option<u8>),
}

/// A call on an aggregator, with its expected result.
#[derive(Clone, Copy)]
enum Row {
    Assign(u16, Result<u16, DistFault>),
    Move(u16, u16, Result<(), DistFault>),
    Force(u16, Result<(), DistFault>),
    Marker(u16, Option<u32>),
    Response(u16, u32, u32),
    Ticks(u16),
    Leave(u16),
    Down(u16),
    Clear,
    Is(Fact),
}

fn tick<F: Fn(u16, usize) -> usize + Drop>(d: &mut Distributor<F>, count: u16)
    ensures algorithm { d.new.algorithm ≡ d.old.algorithm }
{
    for _ in 0..count {
        d.tick();
    }
}

/// How many conversations of the aggregator are On the port.
fn count_on<F: Fn(u16, usize) -> usize + Drop>(d: &Distributor<F>, agg: AggId, port: u16) -> u16 {
    let mut count = 0u16;
    for conv in 0..4096u16 {
        if d.state(agg, conv) == Assignment::On(port) {
            count = count.saturating_add(1);
        }
    }
    count
}

/// What `state` returns for a conversation: `FlushingSince` where it is that state.
fn state_of(conv: u16, state: Assignment) -> Fact {
    match state {
        Assignment::Flushing {
            port: 1,
            id: 1,
            preferred: Some(65),
            age,
        } => Fact::FlushingSince(conv, age),
        _ => Fact::State(conv, state),
    }
}

/// What the reader that a fact names returns.
fn read<F: Fn(u16, usize) -> usize + Drop>(d: &Distributor<F>, agg: AggId, fact: Fact) -> Fact {
    match fact {
        Fact::State(conv, _) | Fact::FlushingSince(conv, _) => state_of(conv, d.state(agg, conv)),
        Fact::Preferred(conv, _) => Fact::Preferred(conv, d.preferred(agg, conv)),
        Fact::IsConversation(conv, _) => Fact::IsConversation(conv, d.is_conversation(agg, conv)),
        Fact::CountOn(port, _) => Fact::CountOn(port, count_on(d, agg, port)),
        Fact::Load(port, _) => Fact::Load(port, d.load(port)),
        Fact::Conversations(_) => Fact::Conversations(d.conversations()),
        Fact::NextMarker(_) => Fact::NextMarker(d.next_marker()),
        Fact::NextWanted(_) => Fact::NextWanted(d.ticks_until_next_wanted()),
    }
}

/// Makes the call of a row on an aggregator while these ports distribute in it, and compares the result with what the row
/// says.
fn play<F: Fn(u16, usize) -> usize + Drop>(
    rt: &impl Abort,
    place: Place<'_>,
    d: &mut Distributor<F>,
    agg: AggId,
    ports: &[u16],
    row: Row,
)
    requires usable { PicksIndexes (F.pre d.old.algorithm) (F.post d.old.algorithm) }
    requires few { length ports.now ≤ 64 }
    ensures algorithm { d.new.algorithm ≡ d.old.algorithm }
{
    match row {
        Row::Assign(conv, answer) => same_in_case(rt, place, &d.assign(agg, conv, ports), &answer),
        Row::Move(conv, to, answer) => {
            same_in_case(rt, place, &d.move_to(agg, conv, to, ports), &answer);
        }
        Row::Force(conv, answer) => same_in_case(rt, place, &d.force(agg, conv), &answer),
        Row::Marker(port, id) => same_in_case(rt, place, &d.marker_for(port), &id),
        Row::Response(port, id, count) => same_in_case(rt, place, &d.response(port, id), &count),
        Row::Ticks(count) => tick(d, count),
        Row::Leave(port) => d.leave(port),
        Row::Down(port) => d.down(port),
        Row::Clear => d.clear(),
        Row::Is(fact) => same_in_case(rt, place, &read(d, agg, fact), &fact),
    }
}

/// Plays the rows on aggregator 1 of a new distributor; these two ports distribute.
fn plays(
    rt: &impl Abort,
    alloc: Global,
    (case, first): (&str, u32),
    ports: [u16; 2],
    rows: &[Row],
) -> Result<(), NoMemory> {
    let mut d = Distributor::new(alloc, 1, first, by_place)?;
    for (place, row) in rows.iter().enumerate() {
        play(rt, (case, place), &mut d, AGG, &ports, *row);
    }
    Ok(())
}

/// An aggregator, the ports that distribute in it, and a call.
type Put<'a> = (u16, &'a [u16], Row);

/// How many conversations each aggregator has, and by which call.
#[derive(Clone, Copy)]
enum Count {
    ByNew,
    With256,
    With4096,
}

/// Plays the rows on a new distributor with this many aggregators.
fn plays_apart(
    rt: &impl Abort,
    alloc: Global,
    aggregators: u16,
    count: Count,
    (case, first): (&str, u32),
    rows: &[Put<'_>],
) -> Result<(), NoMemory> {
    let mut d = match count {
        Count::ByNew => Distributor::new(alloc, aggregators, first, by_place)?,
        Count::With256 => {
            Distributor::with_conversations(alloc, aggregators, 256, first, by_place)?
        }
        Count::With4096 => {
            Distributor::with_conversations(alloc, aggregators, 4096, first, by_place)?
        }
    };
    for (place, (agg, ports, row)) in rows.iter().enumerate() {
        if ports.len() <= 64 {
            play(rt, (case, place), &mut d, AggId(*agg), *ports, *row);
        } else {
            same_in_case(rt, (case, place), &"ports", &"64 ports at most");
        }
    }
    Ok(())
}

const MOVED: [Row; 14] = [
    Row::Assign(48, Ok(1)),
    Row::Assign(49, Ok(2)),
    Row::Move(48, 2, Ok(())),
    Row::Assign(48, Err(DistFault::Held)),
    Row::Marker(1, Some(1)),
    Row::Marker(1, None),
    Row::Ticks(29),
    Row::Marker(1, None),
    Row::Ticks(1),
    Row::Marker(1, Some(2)),
    Row::Response(1, 1, 0),
    Row::Response(2, 2, 0),
    Row::Response(1, 2, 1),
    Row::Assign(48, Ok(2)),
];

const NEXT_WANTED: [Row; 23] = [
    Row::Is(Fact::NextWanted(None)),
    Row::Assign(48, Ok(1)),
    Row::Assign(49, Ok(2)),
    Row::Move(48, 2, Ok(())),
    Row::Is(Fact::NextWanted(None)),
    Row::Marker(1, Some(7)),
    Row::Is(Fact::NextWanted(Some(30))),
    Row::Ticks(12),
    Row::Is(Fact::NextWanted(Some(18))),
    Row::Move(49, 1, Ok(())),
    Row::Marker(2, Some(8)),
    Row::Is(Fact::NextWanted(Some(18))),
    Row::Ticks(5),
    Row::Response(1, 7, 1),
    Row::Is(Fact::NextWanted(Some(25))),
    Row::Ticks(24),
    Row::Is(Fact::NextWanted(Some(1))),
    Row::Ticks(1),
    Row::Is(Fact::NextWanted(None)),
    Row::Marker(2, Some(9)),
    Row::Is(Fact::NextWanted(Some(30))),
    Row::Down(2),
    Row::Is(Fact::NextWanted(None)),
];

const COUNTED: [Row; 14] = [
    Row::Assign(48, Ok(1)),
    Row::Assign(49, Ok(2)),
    Row::Assign(50, Ok(1)),
    Row::Is(Fact::Load(1, 2)),
    Row::Is(Fact::Load(2, 1)),
    Row::Is(Fact::Load(65, 0)),
    Row::Move(48, 2, Ok(())),
    Row::Marker(1, Some(1)),
    Row::Is(Fact::Load(1, 2)),
    Row::Response(1, 1, 1),
    Row::Is(Fact::Load(1, 1)),
    Row::Down(1),
    Row::Is(Fact::Load(1, 0)),
    Row::Is(Fact::Load(2, 1)),
];

const WANTED: Assignment = Assignment::Wanted {
    port: 1,
    preferred: Some(65),
};

const ONE_CHAIN: [Row; 42] = [
    Row::Assign(0, Ok(1)),
    Row::Assign(1, Ok(65)),
    Row::Assign(2, Ok(1)),
    Row::Assign(3, Ok(65)),
    Row::Is(Fact::Load(1, 2)),
    Row::Is(Fact::Load(65, 2)),
    Row::Move(0, 65, Ok(())),
    Row::Is(Fact::State(0, WANTED)),
    Row::Marker(65, None),
    Row::Marker(1, Some(1)),
    Row::Is(Fact::State(1, Assignment::On(65))),
    Row::Is(Fact::State(2, Assignment::On(1))),
    Row::Is(Fact::FlushingSince(0, 0)),
    // what is On port 65 becomes Wanted, and what is On port 1 does not (both are in chain 1)
    Row::Leave(65),
    Row::Is(Fact::State(2, Assignment::On(1))),
    Row::Ticks(1),
    Row::Is(Fact::FlushingSince(0, 1)),
    Row::Response(65, 1, 0),
    Row::Marker(65, Some(2)),
    Row::Response(1, 2, 0),
    Row::Is(Fact::Load(1, 2)),
    Row::Is(Fact::Load(65, 2)),
    Row::Ticks(28),
    Row::Is(Fact::FlushingSince(0, 29)),
    Row::Ticks(1),
    Row::Is(Fact::State(0, WANTED)),
    Row::Response(65, 2, 2),
    Row::Is(Fact::State(0, WANTED)),
    Row::Assign(1, Ok(65)),
    Row::Down(65),
    Row::Is(Fact::Load(65, 0)),
    Row::Is(Fact::Load(1, 2)),
    Row::Force(2, Ok(())),
    Row::Is(Fact::Load(1, 1)),
    Row::Assign(3, Ok(65)),
    Row::Down(1),
    Row::Is(Fact::Load(1, 0)),
    Row::Is(Fact::Load(65, 1)),
    Row::Assign(0, Ok(65)),
    Row::Is(Fact::Load(65, 2)),
    Row::Clear,
    Row::Is(Fact::Load(65, 0)),
];

const NEIGHBOURS: [Row; 16] = [
    Row::Assign(0, Ok(1)),
    Row::Assign(2, Ok(1)),
    Row::Assign(4, Ok(1)),
    Row::Assign(6, Ok(1)),
    // from the middle of the chain, then from each end
    Row::Force(2, Ok(())),
    Row::Is(Fact::Load(1, 3)),
    Row::Force(6, Ok(())),
    Row::Is(Fact::Load(1, 2)),
    Row::Force(0, Ok(())),
    Row::Is(Fact::Load(1, 1)),
    Row::Leave(1),
    Row::Is(Fact::State(
        4,
        Assignment::Wanted {
            port: 1,
            preferred: None,
        },
    )),
    Row::Is(Fact::State(2, Assignment::Free { preferred: None })),
    Row::Marker(1, Some(1)),
    Row::Response(1, 1, 1),
    Row::Is(Fact::Load(1, 0)),
];

const LAST_IDENTIFIER: [Row; 9] = [
    Row::Assign(48, Ok(1)),
    Row::Assign(50, Ok(1)),
    Row::Move(48, 2, Ok(())),
    Row::Marker(1, Some(4294967295)),
    Row::Move(50, 2, Err(DistFault::MarkersSpent)),
    Row::Response(1, 4294967295, 1),
    Row::Move(256, 2, Err(DistFault::NotAssigned)),
    Row::Leave(1),
    Row::Marker(1, None),
];

const REFUSALS: [Row; 14] = [
    // no such conversation, or a free one, whatever the port is
    Row::Assign(256, Err(DistFault::NotAssigned)),
    Row::Move(256, 3, Err(DistFault::NotAssigned)),
    Row::Move(48, 3, Err(DistFault::NotAssigned)),
    Row::Force(256, Err(DistFault::NotAssigned)),
    Row::Force(48, Err(DistFault::NotAssigned)),
    // Held, before the port is looked at
    Row::Assign(48, Ok(1)),
    Row::Assign(50, Ok(1)),
    Row::Move(48, 2, Ok(())),
    Row::Move(48, 3, Err(DistFault::Held)),
    Row::Marker(1, Some(4294967295)),
    Row::Move(48, 1, Err(DistFault::Held)),
    // no identifier is left; NotDistributing and SamePort come before MarkersSpent
    Row::Move(50, 3, Err(DistFault::NotDistributing)),
    Row::Move(50, 1, Err(DistFault::SamePort)),
    Row::Move(50, 2, Err(DistFault::MarkersSpent)),
];

const PREFERENCES: [Row; 22] = [
    // `down` keeps the preferred port, which is used once
    Row::Assign(48, Ok(1)),
    Row::Move(48, 2, Ok(())),
    Row::Down(1),
    Row::Is(Fact::State(48, FREE_FOR_2)),
    Row::Assign(48, Ok(2)),
    Row::Is(Fact::State(48, Assignment::On(2))),
    Row::Force(48, Ok(())),
    Row::Is(Fact::State(48, FREE)),
    // `force` keeps the preferred port of a conversation that waits
    Row::Assign(48, Ok(1)),
    Row::Move(48, 2, Ok(())),
    Row::Marker(1, Some(7)),
    Row::Force(48, Ok(())),
    Row::Is(Fact::State(48, FREE_FOR_2)),
    Row::Response(1, 7, 0),
    // a port that only stops distributing frees nothing
    Row::Assign(50, Ok(1)),
    Row::Leave(1),
    Row::Assign(50, Err(DistFault::Held)),
    Row::Clear,
    Row::Is(Fact::State(48, FREE)),
    Row::Assign(50, Ok(1)),
    Row::Leave(1),
    Row::Marker(1, Some(7)),
];

const LINK_DOWN: [Row; 7] = [
    Row::Assign(48, Ok(1)),
    Row::Assign(50, Ok(1)),
    Row::Move(50, 2, Ok(())),
    Row::Marker(1, Some(7)),
    Row::Down(1),
    Row::Is(Fact::State(48, FREE)),
    Row::Is(Fact::State(50, FREE_FOR_2)),
];

/// A name, the first identifier of a marker, the ports that distribute, and rows.
type Case = (&'static str, u32, [u16; 2], &'static [Row]);

const CASES: [Case; 9] = [
    ("moved", 1, [1, 2], &MOVED),
    ("next wanted", 7, [1, 2], &NEXT_WANTED),
    ("counted", 1, [1, 2], &COUNTED),
    ("one chain", 1, [1, 65], &ONE_CHAIN),
    ("neighbours", 1, [1, 2], &NEIGHBOURS),
    ("last identifier", 4294967295, [1, 2], &LAST_IDENTIFIER),
    ("refusals", 4294967295, [1, 2], &REFUSALS),
    ("preferences", 7, [1, 2], &PREFERENCES),
    ("link down", 7, [1, 2], &LINK_DOWN),
];

#[test]
fn conversations_are_assigned_moved_and_freed(rt: HostRuntime) -> Result<(), NoMemory> {
    for (case, first, ports, rows) in CASES {
        plays(&rt, rt.alloc(), (case, first), ports, rows)?;
    }
    Ok(())
}

/// The last of 64 aggregators with 4096 conversations each.
const APART: [Put<'static>; 19] = [
    (1, &[1, 2], Row::Assign(4095, Ok(2))),
    (1, &[1, 2], Row::Assign(304, Ok(1))),
    (64, &[3], Row::Assign(4095, Ok(3))),
    // neither the numbers modulo 256 nor the next aggregator
    (1, &[], Row::Is(Fact::State(48, FREE))),
    (1, &[], Row::Is(Fact::State(255, FREE))),
    (2, &[], Row::Is(Fact::State(0, FREE))),
    (1, &[], Row::Is(Fact::Load(1, 1))),
    (1, &[], Row::Is(Fact::Load(2, 1))),
    (1, &[], Row::Is(Fact::Load(3, 1))),
    // a move behind a marker, in the last slot
    (64, &[3, 4], Row::Move(4095, 4, Ok(()))),
    (64, &[3, 4], Row::Marker(3, Some(7))),
    (64, &[3, 4], Row::Response(3, 7, 1)),
    (64, &[3, 4], Row::Assign(4095, Ok(4))),
    (1, &[], Row::Is(Fact::State(4095, Assignment::On(2)))),
    (1, &[], Row::Clear),
    (1, &[], Row::Is(Fact::Load(2, 0))),
    (64, &[], Row::Is(Fact::State(4095, FREE))),
    (1, &[], Row::Is(Fact::Conversations(4096))),
    (1, &[], Row::Is(Fact::NextMarker(Some(7)))),
];

/// There is no conversation with this number.
fn beyond<'a>(conv: u16) -> [Put<'a>; 5] {
    let none = DistFault::NotAssigned;
    [
        (1, &[], Row::Is(Fact::IsConversation(conv, false))),
        (1, &[1], Row::Assign(conv, Err(none))),
        (1, &[1], Row::Move(conv, 1, Err(none))),
        (1, &[], Row::Force(conv, Err(none))),
        (1, &[], Row::Is(Fact::State(conv, FREE))),
    ]
}

/// Conversations end below this count: the last one is there, and those with these numbers are not.
fn end_at(
    rt: &impl Abort,
    alloc: Global,
    count: Count,
    last: u16,
    numbers: [u16; 4],
) -> Result<(), NoMemory> {
    let mut rows: Vec<Put<'_>> = Vec::new(alloc);
    for conv in numbers {
        rows.extend_from_slice(&beyond(conv))?;
    }
    rows.push((2, &[1], Row::Assign(last, Ok(1))))?;
    rows.push((3, &[1], Row::Assign(0, Err(DistFault::NotAssigned))))?;
    rows.push((1, &[], Row::Is(Fact::Conversations(last.saturating_add(1)))))?;
    rows.push((1, &[], Row::Is(Fact::Load(1, 1))))?;
    plays_apart(rt, alloc, 2, count, ("the end", 1), &rows)
}

#[test]
fn conversations_end_at_their_count(rt: HostRuntime) -> Result<(), NoMemory> {
    end_at(&rt, rt.alloc(), Count::With256, 255, [256, 257, 511, 65535])?;
    end_at(
        &rt,
        rt.alloc(),
        Count::With4096,
        4095,
        [4096, 4097, 8191, 65535],
    )
}

const BY_NEW: [Put<'static>; 3] = [
    (1, &[], Row::Is(Fact::Conversations(256))),
    (1, &[1, 2], Row::Assign(255, Ok(2))),
    (1, &[1, 2], Row::Assign(256, Err(DistFault::NotAssigned))),
];

/// The port of ports 3, 5 and 67 at the index that is the conversation's number modulo 3.
fn port_of(conv: u16) -> u16 {
    match conv % 3 {
        0 => 3,
        1 => 5,
        _ => 67,
    }
}

/// The conversations of aggregator 2 are on these ports, and those of the others on none. Then one port leaves, and the
/// link of another goes down.
const ALL_ON: [Put<'static>; 24] = [
    (2, &[], Row::Is(Fact::CountOn(3, 1366))),
    (2, &[], Row::Is(Fact::Load(3, 1366))),
    (1, &[], Row::Is(Fact::CountOn(3, 0))),
    (3, &[], Row::Is(Fact::CountOn(3, 0))),
    (2, &[], Row::Is(Fact::CountOn(5, 1365))),
    (2, &[], Row::Is(Fact::Load(5, 1365))),
    (1, &[], Row::Is(Fact::CountOn(5, 0))),
    (3, &[], Row::Is(Fact::CountOn(5, 0))),
    (2, &[], Row::Is(Fact::CountOn(67, 1365))),
    (2, &[], Row::Is(Fact::Load(67, 1365))),
    (1, &[], Row::Is(Fact::CountOn(67, 0))),
    (3, &[], Row::Is(Fact::CountOn(67, 0))),
    (2, &[], Row::Leave(67)),
    (2, &[], Row::Is(Fact::CountOn(67, 0))),
    (2, &[], Row::Is(Fact::Load(67, 1365))),
    (2, &[], Row::Marker(67, Some(1))),
    (2, &[], Row::Marker(3, None)),
    (2, &[], Row::Response(67, 1, 1365)),
    (2, &[], Row::Down(3)),
    (2, &[], Row::Is(Fact::Load(3, 0))),
    (2, &[], Row::Is(Fact::Load(5, 1365))),
    (2, &[], Row::Is(Fact::Load(67, 0))),
    (2, &[], Row::Is(Fact::CountOn(5, 1365))),
    (2, &[], Row::Is(Fact::CountOn(3, 0))),
];

/// Each conversation of aggregator 2 goes on its port, and then the rows above.
fn all_assigned(alloc: Global) -> Result<Vec<Put<'static>>, NoMemory> {
    let ports: &[u16] = &[3, 5, 67];
    let mut rows = Vec::new(alloc);
    for conv in 0..4096u16 {
        rows.push((2u16, ports, Row::Assign(conv, Ok(port_of(conv)))))?;
    }
    rows.extend_from_slice(&ALL_ON)?;
    Ok(rows)
}

/// Ports 3 and 67 share a chain.
#[test]
fn all_4096_conversations_are_on_their_ports(rt: HostRuntime) -> Result<(), NoMemory> {
    let rows = all_assigned(rt.alloc())?;
    plays_apart(&rt, rt.alloc(), 3, Count::With4096, ("all", 1), &rows)
}

/// 64 ports with the numbers from 1000 on.
fn many_ports() -> [u16; 64] {
    let mut ports = [0; 64];
    for (i, port) in (1000..).zip(ports.iter_mut()) {
        *port = i;
    }
    ports
}

#[test]
fn ports_are_picked_by_their_place(rt: HostRuntime) -> Result<(), NoMemory> {
    let ports = many_ports();
    let rows: [Put<'_>; 15] = [
        (2, &ports, Row::Assign(255, Ok(1063))),
        (2, &ports, Row::Assign(64, Ok(1000))),
        (2, &ports, Row::Assign(0, Ok(1000))),
        // no other conversation has changed, in either aggregator
        (1, &[], Row::Is(Fact::State(255, FREE))),
        (1, &[], Row::Is(Fact::State(64, FREE))),
        (2, &[], Row::Is(Fact::State(1, FREE))),
        (1, &[], Row::Is(Fact::Load(1000, 2))),
        (1, &[], Row::Is(Fact::Load(1063, 1))),
        (1, &[], Row::Assign(64, Err(DistFault::NoneDistributing))),
        (3, &ports, Row::Assign(64, Err(DistFault::NotAssigned))),
        (2, &ports, Row::Move(64, 1001, Ok(()))),
        (2, &[], Row::Is(Fact::Preferred(64, Some(1001)))),
        (1, &[], Row::Is(Fact::NextMarker(Some(1)))),
        (2, &[], Row::Is(Fact::IsConversation(255, true))),
        (0, &[], Row::Is(Fact::IsConversation(0, false))),
    ];
    plays_apart(&rt, rt.alloc(), 2, Count::ByNew, ("by place", 1), &rows)
}

const NO_MORE: [Put<'static>; 6] = [
    (1, &[1, 2], Row::Assign(48, Ok(1))),
    // NotDistributing comes before SamePort
    (1, &[2], Row::Move(48, 1, Err(DistFault::NotDistributing))),
    (1, &[1, 2], Row::Move(48, 2, Ok(()))),
    (1, &[], Row::Force(48, Ok(()))),
    // the free conversation prefers port 2, which does not distribute
    (1, &[], Row::Is(Fact::Preferred(48, Some(2)))),
    (1, &[3, 4, 5], Row::Assign(48, Ok(3))),
];

#[test]
fn aggregators_keep_their_conversations_apart(rt: HostRuntime) -> Result<(), NoMemory> {
    let cases: [(&str, u16, Count, u32, &[Put<'_>]); 3] = [
        ("4096 apart", 64, Count::With4096, 7, &APART),
        ("by new", 1, Count::ByNew, 1, &BY_NEW),
        ("no more", 1, Count::ByNew, 1, &NO_MORE),
    ];
    for (case, aggregators, count, first, rows) in cases {
        plays_apart(&rt, rt.alloc(), aggregators, count, (case, first), rows)?;
    }
    Ok(())
}

/// A conversation's number among this many ports, and its place.
const PLACES: [(u16, usize, usize); 6] = [
    (48, 2, 0),
    (49, 2, 1),
    (50, 3, 2),
    (255, 64, 63),
    (64, 64, 0),
    (48, 0, 0),
];

#[test]
fn places_are_numbers_modulo_the_count(rt: HostRuntime) {
    for (row, (conv, count, place)) in PLACES.iter().enumerate() {
        same_in_row(&rt, row, &by_number(*conv, *count), place);
    }
    same(&rt, "number", &DistFault::MarkersSpent.number(), &6);
}
