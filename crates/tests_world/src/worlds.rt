mod agreements;
mod apart;
mod both_systems;
mod changes;
mod conversations;
mod given;
mod joined;
mod memory;
mod planned;
mod playing;
mod refusals;
mod restarts;
mod scripted;
mod standby;
mod starts;

use crate::comparing::{same, same_at};
use crate::worlds::given::{Setting, events, modulo, parts};
use crate::worlds::playing::{runs_part, step_of, world_of};
use bitflags::Flags;
use cables::AnyCable;
use lagtypes::{AggId, NoMemory, decimal_u16, words_of};
use lagworld::{Reply, RunFault, World, WorldFault};
use std::alloc::Global;
use std::process::Abort;

/// Lines, each with an event as an entry of a script has it, an arrow, and the text of its expected reply.
///
/// Unless a comment says otherwise, an offered frame is of conversation 48: octets 5 and 11 of 0200000000200200000000100800 are 0x20
/// and 0x10, and 0x20 xor 0x10 is 48 (profile). A frame of conversation 49 or 50 has 0x21 or 0x22 as octet 5.
type EventLines = &'static str;

/// Events and their expected replies, those of `first` before those of `rest`, and what the readers are expected to
/// return at the end.
#[derive(Clone, Copy)]
struct Row {
    setting: Setting,
    first: EventLines,
    rest: EventLines,
    /// Lines, each with what `told` is asked for, an arrow, and the text that it is expected to give.
    told: &'static str,
}

/// The text of a reply: of an LACPDU its Actor_State, of an offered frame the port that it was sent on and its serial number, each
/// with `lost` behind it if no cable accepted it; and else the reply as Rust has it.
fn text_of(alloc: Global, reply: Reply) -> Result<String, NoMemory> {
    match reply {
        Reply::Lacpdu(state, true) => format!(in alloc; "lacpdu {:02x}", state.bits()),
        Reply::Lacpdu(state, false) => format!(in alloc; "lacpdu {:02x} lost", state.bits()),
        Reply::Port(port, serial, true) => format!(in alloc; "port {port} serial {serial}"),
        Reply::Port(port, serial, false) => format!(in alloc; "port {port} serial {serial} lost"),
        _ => format!(in alloc; "{reply:?}"),
    }
}

/// The lines of a row: `first` and then `rest`.
fn lines_of(alloc: Global, row: &Row) -> Result<String, NoMemory> {
    let mut lines = String::from_str(alloc, row.first)?;
    lines.push_str(row.rest)?;
    Ok(lines)
}

/// Compares the reply to an event with the expected one; the line is at this place, counted from 0.
fn compare(
    rt: &impl Abort,
    alloc: Global,
    place: usize,
    line: &str,
    came: Reply,
) -> Result<(), NoMemory> {
    let (event, wanted) = parts(line);
    let text = text_of(alloc, came)?;
    same_at(rt, event, place, &text.as_str(), &wanted);
    Ok(())
}

/// Compares replies with those of the lines from this place on, counted from 0; there are as many as the second number says.
fn compare_part(
    rt: &impl Abort,
    alloc: Global,
    lines: &str,
    (from, count): (usize, usize),
    came: &[Reply],
) -> Result<(), NoMemory> {
    same(rt, "how many replies", &came.len(), &count);
    let mut place = 0usize;
    for line in lines.lines() {
        if let Some(reply) = came.get(place.wrapping_sub(from)) {
            compare(rt, alloc, place, line, *reply)?;
        }
        place = place.saturating_add(1);
    }
    Ok(())
}

/// Compares the result of a run of some of the events of these lines.
fn compare_run_of(
    rt: &impl Abort,
    alloc: Global,
    lines: &str,
    part: (usize, usize),
    came: Result<Vec<Reply>, RunFault>,
) -> Result<(), NoMemory> {
    match came {
        Ok(replies) => compare_part(rt, alloc, lines, part, &replies),
        Err(stop) => {
            same(rt, "the stop", &Some(stop), &None);
            Ok(())
        }
    }
}

fn count_of(lines: &str) -> usize {
    let mut count = 0usize;
    for _line in lines.lines() {
        count = count.saturating_add(1);
    }
    count
}

/// Compares the result of a run of all events of these lines.
fn compare_run(
    rt: &impl Abort,
    alloc: Global,
    lines: &str,
    came: Result<Vec<Reply>, RunFault>,
) -> Result<(), NoMemory> {
    compare_run_of(rt, alloc, lines, (0, count_of(lines)), came)
}

fn is_from_zero(serials: &[u64]) -> bool {
    let mut next = 0;
    for serial in serials {
        if *serial != next {
            return false;
        }
        next = next.saturating_add(1);
    }
    true
}

/// The number that a word is; 0, which nothing has, if it is none.
fn number(word: &str) -> u16 {
    decimal_u16(word).unwrap_or(0)
}

/// Of a conversation how many serial numbers it sent, from 0 on, which of them were collected, and whether it was forced.
fn flow<F: Fn(u16, usize) -> usize + Drop>(
    alloc: Global,
    world: &World<AnyCable, F>,
    system: u8,
    agg: AggId,
    conv: u16,
) -> Result<String, NoMemory> {
    let sent = world.sent(system, agg, conv);
    let collected = world.collected(system, agg, conv);
    let order = if is_from_zero(sent) {
        ""
    } else {
        " not from 0 on"
    };
    let forced = if world.forced(system, agg, conv) {
        " forced"
    } else {
        ""
    };
    let count = sent.len();
    format!(in alloc; "{count} {collected:?}{order}{forced}")
}

/// What a reader returns, as text: of a cable by its number, or of a conversation by its system, aggregator and number.
fn told<F: Fn(u16, usize) -> usize + Drop>(
    alloc: Global,
    world: &World<AnyCable, F>,
    asked: &str,
) -> Result<String, NoMemory> {
    let words = words_of(alloc, asked)?;
    match words.as_slice() {
        ["cable", cable] => format!(in alloc; "{:?}", world.agreement(number(*cable))),
        ["flow", system, agg, conv] => {
            let [_, system] = number(*system).to_be_bytes();
            flow(alloc, world, system, AggId(number(*agg)), number(*conv))
        }
        _ => format!(in alloc; "nothing has this name"),
    }
}

/// Compares what the readers return with what lines expect.
fn tells<F: Fn(u16, usize) -> usize + Drop>(
    rt: &impl Abort,
    alloc: Global,
    world: &World<AnyCable, F>,
    lines: &str,
) -> Result<(), NoMemory> {
    for line in lines.lines() {
        let (asked, wanted) = parts(line);
        let came = told(alloc, world, asked)?;
        same(rt, asked, &came.as_str(), &wanted);
    }
    Ok(())
}

/// Plays the events of a row by `step`, one by one, in a new world with cables of this limit.
fn steps(rt: &impl Abort, alloc: Global, row: &Row, limit: Option<u16>) -> Result<(), WorldFault> {
    let text = lines_of(alloc, row)?;
    let events = events(rt, alloc, row.setting, text.as_str())?;
    let mut world = world_of(rt, alloc, row.setting, limit, modulo, modulo)?;
    let mut replies = Vec::new(alloc);
    for event in &events {
        let reply = step_of(&mut world, event)?;
        if replies.push(reply).is_err() {
            return Err(WorldFault::NoMemory);
        }
    }
    compare_part(rt, alloc, text.as_str(), (0, events.len()), &replies)?;
    tells(rt, alloc, &world, row.told)?;
    Ok(())
}

/// Plays the events of a row by `run`, first this many and then the rest, in a new world with cables of this limit.
fn runs(
    rt: &impl Abort,
    alloc: Global,
    row: &Row,
    limit: Option<u16>,
    cut: usize,
) -> Result<(), WorldFault> {
    let text = lines_of(alloc, row)?;
    let events = events(rt, alloc, row.setting, text.as_str())?;
    let mut world = world_of(rt, alloc, row.setting, limit, modulo, modulo)?;
    let (now, later) = events.split_at(cut.min(events.len()));
    runs_part(rt, alloc, &mut world, text.as_str(), 0, now)?;
    runs_part(rt, alloc, &mut world, text.as_str(), now.len(), later)?;
    tells(rt, alloc, &world, row.told)?;
    Ok(())
}

/// Plays all events of a row at once, on cables without a limit.
fn plays(rt: &impl Abort, alloc: Global, row: &Row) -> Result<(), WorldFault> {
    runs(rt, alloc, row, None, 0)
}

/// What happens after a beginning: events with their expected replies, and what the readers are expected to return at the end.
type After = (EventLines, &'static str);

/// Plays each of these in a new world of these systems, after this beginning.
fn play_after(
    rt: &impl Abort,
    alloc: Global,
    (setting, first): (Setting, EventLines),
    rows: &[After],
) -> Result<(), WorldFault> {
    for (rest, told) in rows {
        let (rest, told) = (*rest, *told);
        let row = Row {
            setting,
            first,
            rest,
            told,
        };
        plays(rt, alloc, &row)?;
    }
    Ok(())
}
