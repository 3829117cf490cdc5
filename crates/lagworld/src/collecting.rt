ghost use Rattle.std.specs.Prelude.{◌≡◌, OnOk, slice_get};
ghost use Rattle.lagworld.specs.Arriving.{CanCollect, CanCollectAt, aggregator_flow_values};
ghost use Rattle.lagworld.specs.Places.{flow_values};
ghost use Rattle.lagworld.specs.State.{change_flow, change_flow_in, with_collected};

use crate::histories::Flow;
use std::alloc::AllocError;

/// Reserves a place for a serial number in a conversation's list of collected ones, in the conversations of an
/// aggregator, if the conversation exists.
fn reserve_collected_in(conversations: &mut Vec<Flow>, conv: usize) -> Result<(), AllocError>
    ensures same { aggregator_flow_values conversations.new ≡ aggregator_flow_values conversations.old }
    ensures room { OnOk result (CanCollect (slice_get conversations.new.items conv)) }
{
    if conv >= conversations.len() {
        return Ok(());
    }
    let flow = &mut conversations[conv];
    flow.collected.reserve(1)
}

/// Reserves a place for a serial number in the list of collected ones of a conversation of a system, if it exists.
/// Aggregators are numbered from 1, conversations from 0.
pub(crate) fn reserve_collected(
    flows: &mut Vec<Vec<Flow>>,
    agg: u16,
    conv: u16,
) -> Result<(), AllocError>
    ensures same { flow_values flows.new.items ≡ flow_values flows.old.items }
    ensures room { OnOk result (CanCollectAt agg conv flows.new.items) }
{
    let index = match usize::from(agg).checked_sub(1) {
        Some(index) => index,
        None => return Ok(()),
    };
    if index >= flows.len() {
        return Ok(());
    }
    let conversations = &mut flows[index];
    reserve_collected_in(conversations, usize::from(conv))
}

/// Adds a serial number to a conversation's list of collected ones, for which a place is reserved.
fn collect_in(conversations: &mut Vec<Flow>, conv: usize, serial: u64)
    requires room { CanCollect (slice_get conversations.old.items conv) }
    ensures { aggregator_flow_values conversations.new ≡ change_flow_in (with_collected serial)
        (slice_get (aggregator_flow_values conversations.old) conv) conv (aggregator_flow_values conversations.old) }
{
    if conv >= conversations.len() {
        return;
    }
    let flow = &mut conversations[conv];
    flow.collected.push_reserved(serial);
}

/// Adds a serial number to the list of collected ones of a conversation of a system, for which a place is reserved.
pub(crate) fn collect(flows: &mut Vec<Vec<Flow>>, agg: u16, conv: u16, serial: u64)
    requires room { CanCollectAt agg conv flows.old.items }
    ensures { flow_values flows.new.items ≡ change_flow (with_collected serial) agg conv (flow_values flows.old.items) }
{
    let index = match usize::from(agg).checked_sub(1) {
        Some(index) => index,
        None => return,
    };
    if index >= flows.len() {
        return;
    }
    let conversations = &mut flows[index];
    collect_in(conversations, usize::from(conv), serial);
}
