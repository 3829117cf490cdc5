ghost use Rattle.std.specs.Prelude.{◌≡◌};
ghost use Rattle.distributor.specs.Calls.{PicksIndexes};

use crate::comparing::same;
use crate::hosts::playing::{come_up, config};
use crate::systems::{Response, Row as Played, mac, modulo, play};
use dataplane::{Answering, MarkerNote};
use lagsystem::{Call, NoMemory, Reply, System};
use slowpdu::frame;
use std::alloc::Global;
use std::process::Abort;
use std::test::Fail;

/// A call, which is noted; or what is noted of the peer of a port.
#[derive(Clone, Copy)]
enum Row {
    Link(u16, bool),
    Restarts,
    /// `transmit` sends an LACPDU, of subtype 1, or a marker, of subtype 2.
    Sends(u16, u8),
    Probes(u16),
    /// A response comes on the first port. It names system 1 or another one, a port and an identifier.
    Responds(u16, u8, u16, u32),
    /// The number of the note, and its word.
    Noted(u16, u8, &'static str),
}

/// The call of a row.
fn call_of(alloc: Global, row: Row) -> Result<Call, NoMemory> {
    match row {
        Row::Link(port, up) => Ok(Call::SetLink(port, up)),
        Row::Sends(port, _) => Ok(Call::Transmit(port)),
        Row::Responds(on, system, port, id) => {
            let payload = Response(port, system, id).marker().encode();
            let octets = Vec::from_slice(alloc, &frame(mac(0x43), &payload))?;
            Ok(Call::Receive(on, octets))
        }
        _ => Ok(Call::Restart),
    }
}

/// The subtype of a frame that was sent; 0 for none.
fn subtype(reply: &Reply) -> u8 {
    match reply {
        Reply::Transmit(Ok(Some(octets))) => octets[14],
        _ => 0,
    }
}

/// Fails unless a frame of the subtype that a row names was sent.
fn sent(rt: &impl Abort, row: Row, reply: &Reply) {
    if let Row::Sends(_, wanted) = row {
        same(rt, "the subtype of what is sent", &subtype(reply), &wanted);
    }
}

/// Fails unless the note of a port has this number and this word.
fn noted(
    rt: &impl Abort,
    alloc: Global,
    note: Option<MarkerNote>,
    number: u8,
    word: &str,
) -> Result<(), Fail> {
    let Some(note) = note else {
        same(rt, "the port is there", &false, &true);
        return Ok(());
    };
    let text = format!(in alloc; "{note}")?;
    same(rt, word, &note.number(), &number);
    same(rt, "the word", &text.as_str(), &word);
    Ok(())
}

/// Plays a row on a system and the notes beside it.
fn step<F: Fn(u16, usize) -> usize + Drop>(
    rt: &impl Abort,
    alloc: Global,
    system: &mut System<F>,
    notes: &mut Answering,
    row: Row,
) -> Result<(), Fail>
    requires usable { PicksIndexes (F.pre system.old.algorithm) (F.post system.old.algorithm) }
    ensures { system.new.algorithm ≡ system.old.algorithm }
{
    match row {
        Row::Noted(port, number, word) => noted(rt, alloc, notes.of(system, port), number, word),
        Row::Probes(port) => {
            let answer = system.probe(port);
            notes.after_transmit(system, port, &answer);
            Ok(())
        }
        _ => {
            let call = call_of(alloc, row)?;
            let reply = system.call(&call);
            notes.after_call(system, &call, &reply);
            sent(rt, row, &reply);
            Ok(())
        }
    }
}

/// Plays rows on a system and the notes beside it.
fn steps<F: Fn(u16, usize) -> usize + Drop>(
    rt: &impl Abort,
    alloc: Global,
    system: &mut System<F>,
    notes: &mut Answering,
    rows: &[Row],
) -> Result<(), Fail>
    requires usable { PicksIndexes (F.pre system.old.algorithm) (F.post system.old.algorithm) }
    ensures { system.new.algorithm ≡ system.old.algorithm }
{
    for row in rows {
        step(rt, alloc, system, notes, *row)?;
    }
    Ok(())
}

/// Plays rows on a new system of ports 3, 7 and 9, whose first marker is 70, and on new notes.
fn plays(rt: &impl Abort, alloc: Global, rows: &[Row]) -> Result<(), Fail> {
    let mut system = System::new(alloc, config(alloc, 70)?, modulo)?;
    let mut notes = Answering::nobody_asked();
    steps(rt, alloc, &mut system, &mut notes, rows)
}

#[test]
fn a_probe_asks_and_a_response_answers(rt: HostRuntime) -> Result<(), Fail> {
    const ROWS: [Row; 20] = [
        Row::Noted(3, 0, "never-asked"),
        // its link is down
        Row::Probes(3),
        Row::Noted(3, 0, "never-asked"),
        Row::Link(3, true),
        Row::Link(7, true),
        Row::Probes(3),
        Row::Noted(3, 1, "asked"),
        Row::Noted(7, 0, "never-asked"),
        Row::Responds(3, 1, 3, 70),
        Row::Noted(3, 2, "answered"),
        Row::Noted(7, 0, "never-asked"),
        // a marker after the answer forgets nothing, nor do a link that is up, one that is not there, and that of another port
        Row::Probes(3),
        Row::Link(3, true),
        Row::Link(4, false),
        Row::Link(7, false),
        Row::Noted(3, 2, "answered"),
        Row::Link(3, false),
        Row::Noted(3, 0, "never-asked"),
        Row::Link(3, true),
        Row::Noted(3, 0, "never-asked"),
    ];
    plays(&rt, rt.alloc(), &ROWS)
}

#[test]
fn a_response_answers_its_marker_until_a_restart(rt: HostRuntime) -> Result<(), Fail> {
    const ROWS: [Row; 21] = [
        Row::Link(3, true),
        Row::Link(7, true),
        // to no marker yet
        Row::Responds(3, 1, 3, 70),
        Row::Noted(3, 0, "never-asked"),
        Row::Probes(3),
        Row::Probes(7),
        // to another port, another system, another identifier, and on another port
        Row::Responds(3, 1, 7, 70),
        Row::Responds(3, 2, 3, 70),
        Row::Responds(3, 1, 3, 71),
        Row::Responds(7, 1, 3, 70),
        Row::Noted(3, 1, "asked"),
        Row::Noted(7, 1, "asked"),
        // to the marker before the last
        Row::Probes(3),
        Row::Responds(3, 1, 3, 70),
        Row::Noted(3, 1, "asked"),
        Row::Responds(3, 1, 3, 72),
        Row::Noted(3, 2, "answered"),
        Row::Noted(7, 1, "asked"),
        Row::Restarts,
        Row::Noted(3, 0, "never-asked"),
        Row::Noted(7, 0, "never-asked"),
    ];
    plays(&rt, rt.alloc(), &ROWS)
}

#[test]
fn a_sent_marker_asks_and_an_lacpdu_does_not(rt: HostRuntime) -> Result<(), Fail> {
    const FIRST: [Row; 2] = [Row::Sends(3, 1), Row::Noted(3, 0, "never-asked")];
    const MOVED: [Played<'static>; 2] = [
        Played::OffersConversation(1, 14, Ok(3)),
        Played::Moves(1, 14, 7, Ok(())),
    ];
    const THEN: [Row; 5] = [
        Row::Sends(3, 2),
        Row::Noted(3, 1, "asked"),
        Row::Noted(7, 0, "never-asked"),
        Row::Responds(3, 1, 3, 70),
        Row::Noted(3, 2, "answered"),
    ];
    let alloc = rt.alloc();
    let mut system = System::new(alloc, config(alloc, 70)?, modulo)?;
    let mut notes = Answering::nobody_asked();
    play(&rt, alloc, &mut system, "come up", &come_up()[..4])?;
    steps(&rt, alloc, &mut system, &mut notes, &FIRST)?;
    play(&rt, alloc, &mut system, "moved", &MOVED)?;
    steps(&rt, alloc, &mut system, &mut notes, &THEN)
}

/// The calls of these rows.
fn calls_of(alloc: Global, rows: &[Row]) -> Result<Vec<Call>, NoMemory> {
    let mut calls = Vec::with_capacity(alloc, rows.len())?;
    for row in rows {
        calls.push(call_of(alloc, *row)?)?;
    }
    Ok(calls)
}

#[test]
fn calls_that_are_driven_are_noted_one_after_another(rt: HostRuntime) -> Result<(), Fail> {
    const ASKED: [Row; 4] = [
        Row::Link(3, true),
        Row::Link(7, true),
        Row::Probes(3),
        Row::Probes(7),
    ];
    const TOLD: [Row; 2] = [
        Row::Noted(3, 0, "never-asked"),
        Row::Noted(7, 2, "answered"),
    ];
    let alloc = rt.alloc();
    let mut system = System::new(alloc, config(alloc, 70)?, modulo)?;
    let mut notes = Answering::nobody_asked();
    steps(&rt, alloc, &mut system, &mut notes, &ASKED)?;
    let calls = calls_of(
        alloc,
        &[
            Row::Responds(3, 1, 3, 70),
            Row::Responds(7, 1, 7, 71),
            Row::Link(3, false),
            Row::Link(3, true),
        ],
    )?;
    let replies = system.drive(alloc, calls.as_slice())?;
    notes.after_calls(&system, calls.as_slice(), replies.as_slice());
    steps(&rt, alloc, &mut system, &mut notes, &TOLD)
}
