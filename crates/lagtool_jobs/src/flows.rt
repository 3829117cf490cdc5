ghost use Rattle.std.specs.Prelude.{◌≡◌, ◌<◌, ◌+◌, ◌++◌, ◌||◌, ℕ, OnOk, IfOk, false, get_or, length, string_bytes};
ghost use Rattle.lagworld.specs.Events.{side_of};
ghost use Rattle.lagworld.specs.Readers.{flow_of_system};
ghost use Rattle.lagtool_jobs.specs.Offered.{AreOfferFlags, IsSentWhereOffered, offers_to};
ghost use Rattle.lagtool_jobs.specs.ReplayReport.{collected_text, flow_line, flows_text, aggregator_flows_text};

use cables::AnyCable;
use lagtypes::AggId;
use lagworld::{Event, World};
use std::alloc::{AllocError, Global};

/// How many aggregators a system has, and how many conversations each of them has.
#[derive(Clone, Copy)]
pub(crate) struct Counts {
    /// How many aggregators there are; they are numbered from 1.
    pub(crate) aggregators: u16,
    /// How many conversations each aggregator has; they are numbered from 0.
    pub(crate) conversations: u16,
}

/// Adds the serial numbers that were collected, with a space before each.
fn push_collected(text: &mut String, serials: &[u64]) -> Result<(), AllocError>
    ensures { OnOk result (string_bytes text.new ≡ string_bytes text.old ++ collected_text serials.now) }
{
    if serials.is_empty() {
        return text.push_str(" none");
    }
    for serial in serials {
        write!(text, " {serial}")?;
    }
    Ok(())
}

/// Adds the line of a conversation, if it sent a frame.
fn push_flow<F: Fn(u16, usize) -> usize + Drop>(
    text: &mut String,
    world: &World<AnyCable, F>,
    system: u8,
    agg: u16,
    conv: u16,
) -> Result<(), AllocError>
    ensures { OnOk result (string_bytes text.new ≡ string_bytes text.old
        ++ flow_line system agg conv (flow_of_system (side_of system) agg conv world.now.state)) }
{
    let sent = world.sent(system, AggId(agg), conv).len();
    if sent == 0 {
        return Ok(());
    }
    write!(text, "flow {system}/{agg}/{conv} sent {sent} collected")?;
    push_collected(text, world.collected(system, AggId(agg), conv))?;
    if world.forced(system, AggId(agg), conv) {
        text.push_str(" forced")?;
    }
    text.push_str("\n")
}

/// Adds the flow lines of one aggregator, which has this many conversations: one for each that has frames.
fn push_aggregator_flows<F: Fn(u16, usize) -> usize + Drop>(
    text: &mut String,
    world: &World<AnyCable, F>,
    system: u8,
    agg: u16,
    conversations: u16,
) -> Result<(), AllocError>
    ensures { OnOk result (string_bytes text.new ≡ string_bytes text.old
        ++ aggregator_flows_text world.now.state system conversations agg) }
{
    for conv in 0..conversations {
        push_flow(text, world, system, agg, conv)?;
    }
    Ok(())
}

/// Sets the flag of the aggregator that an event offers a frame to, if it is one of this system.
fn set_offer_flag(flags: &mut [bool], system: u8, event: &Event)
    ensures length { length flags.new ≡ length flags.old }
    ensures flags { (agg : ℕ) → agg < length flags.old → get_or flags.new agg false ≡ (get_or flags.old agg false
        || offers_to system agg event.now) }
{
    if let Event::Offer(number, agg, _) = event {
        let place = usize::from(agg.0);
        if *number == system && place < flags.len() {
            flags[place] = true;
        }
    }
}

// promise: flows are asked of those aggregators to which an event offers; no other sent a frame
// contract: `offer_flags`, `push_flows` (`IsSentWhereOffered`)
/// For each aggregator of a system, by its number: whether an event offers a frame to it. No aggregator has the number
/// 0.
fn offer_flags(
    alloc: Global,
    events: &[Event],
    system: u8,
    aggs: u16,
) -> Result<Vec<bool>, AllocError>
    ensures length { IfOk result (λ flags. length flags.items ≡ aggs + 1) }
    ensures flags { IfOk result (λ flags. AreOfferFlags system events.now flags.items) }
{
    let mut flags = vec![in alloc; false; usize::from(aggs) + 1]?;
    for event in events {
        set_offer_flag(&mut flags, system, event);
    }
    Ok(flags)
}

/// Adds the lines of the conversations of a system with these counts, after these events. Only aggregators that an event
/// offers a frame to can have such lines.
pub(crate) fn push_flows<F: Fn(u16, usize) -> usize + Drop>(
    alloc: Global,
    text: &mut String,
    world: &World<AnyCable, F>,
    events: &[Event],
    system: u8,
    counts: Counts,
) -> Result<(), AllocError>
    requires { IsSentWhereOffered events.now world.now.state }
    ensures { OnOk result (string_bytes text.new ≡ string_bytes text.old
        ++ flows_text world.now.state system counts.aggregators counts.conversations) }
{
    let offers = offer_flags(alloc, events, system, counts.aggregators)?;
    for place in 0..counts.aggregators {
        let agg = place + 1;
        if offers[usize::from(agg)] {
            push_aggregator_flows(text, world, system, agg, counts.conversations)?;
        }
    }
    Ok(())
}
