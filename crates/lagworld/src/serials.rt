ghost use Rattle.std.specs.Prelude.{◌≡◌, ◌<◌, ◌+◌, ◌⊎◌, IfNone, IfSome, OnOk, length, map, slice_get, vec_capacity, vec_len};
ghost use Rattle.lagworld.specs.Inner.{flow_value};
ghost use Rattle.lagworld.specs.Places.{HasRoom, HasRoomIn, flow_values};
ghost use Rattle.lagworld.specs.State.{change_flow, sent_in, flow_at, change_flow_in, with_forced, with_sent};

use crate::histories::Flow;
use lagtypes::AggId;
use std::alloc::AllocError;

impl Flow {
    /// Records that one more frame is sent; returns its serial number.
    fn record_sent(&mut self) -> u64
        requires { vec_len self.old.sent < vec_capacity self.old.sent }
        ensures serial { result ≡ length self.old.sent.items }
        ensures sent { flow_value self.new ≡ with_sent (flow_value self.old) }
    {
        let serial = self.sent.len() as u64;
        self.sent.push_reserved(serial);
        serial
    }

    /// Reserves a place for the next serial number.
    fn reserve_sent(&mut self) -> Result<(), AllocError>
        ensures same { flow_value self.new ≡ flow_value self.old }
        ensures ok { OnOk result (vec_len self.new.sent < vec_capacity self.new.sent) }
    {
        self.sent.reserve(1)
    }

    /// Records that the conversation was forced.
    fn record_forced(&mut self)
        ensures { flow_value self.new ≡ with_forced (flow_value self.old) }
    {
        self.forced = true;
    }
}

/// The index of an aggregator in a list of this many; aggregators are numbered from 1.
fn aggregator_index(agg: AggId, count: usize) -> Option<usize>
    ensures there { IfSome result (λ index. (agg.0 ≡ index + 1) × (index < count)) }
    ensures nowhere { IfNone result ((agg.0 ≡ 0) ⊎ (count < agg.0)) }
{
    let index = usize::from(agg.0).checked_sub(1)?;
    if index < count { Some(index) } else { None }
}

/// Reserves a place for the next serial number that a conversation sends, if it exists among these.
fn reserve_sent_in(conversations: &mut Vec<Flow>, conv: usize) -> Result<(), AllocError>
    ensures same { map flow_value conversations.new.items ≡ map flow_value conversations.old.items }
    ensures ok { OnOk result (HasRoomIn conv conversations.new.items) }
{
    if conv >= conversations.len() {
        return Ok(());
    }
    let flow = &mut conversations[conv];
    flow.reserve_sent()
}

/// Records that a conversation sends one more frame; returns the frame's serial number.
fn record_sent_in(conversations: &mut Vec<Flow>, conv: usize) -> u64
    requires { HasRoomIn conv conversations.old.items }
    ensures serial { result ≡ length (sent_in (slice_get (map flow_value conversations.old.items) conv)) }
    ensures sent { map flow_value conversations.new.items ≡ change_flow_in with_sent
        (slice_get (map flow_value conversations.old.items) conv) conv (map flow_value conversations.old.items) }
{
    if conv >= conversations.len() {
        return 0;
    }
    let flow = &mut conversations[conv];
    flow.record_sent()
}

/// Records that a conversation of these was forced, if it exists.
fn record_forced_in(conversations: &mut Vec<Flow>, conv: usize)
    ensures { map flow_value conversations.new.items ≡ change_flow_in with_forced
        (slice_get (map flow_value conversations.old.items) conv) conv (map flow_value conversations.old.items) }
{
    if conv >= conversations.len() {
        return;
    }
    let flow = &mut conversations[conv];
    flow.record_forced();
}

/// Reserves a place for the next serial number of a conversation of an aggregator, if it exists.
pub(crate) fn reserve_serial(
    flows: &mut Vec<Vec<Flow>>,
    agg: AggId,
    conv: u16,
) -> Result<(), AllocError>
    ensures same { flow_values flows.new.items ≡ flow_values flows.old.items }
    ensures ok { OnOk result (HasRoom agg.0 conv flows.new.items) }
{
    match aggregator_index(agg, flows.len()) {
        Some(index) => {
            let conversations = &mut flows[index];
            reserve_sent_in(conversations, usize::from(conv))
        }
        None => Ok(()),
    }
}

/// Records that a conversation of an aggregator sends one more frame; returns the frame's serial number, from 0.
pub(crate) fn record_frame_sent(flows: &mut Vec<Vec<Flow>>, agg: AggId, conv: u16) -> u64
    requires { HasRoom agg.0 conv flows.old.items }
    ensures serial { result ≡ length (sent_in (flow_at (flow_values flows.old.items) agg.0 conv)) }
    ensures sent { flow_values flows.new.items ≡ change_flow with_sent agg.0 conv (flow_values flows.old.items) }
{
    match aggregator_index(agg, flows.len()) {
        Some(index) => {
            let conversations = &mut flows[index];
            record_sent_in(conversations, usize::from(conv))
        }
        None => 0,
    }
}

/// Records that a conversation of an aggregator was forced, if it exists.
pub(crate) fn record_force(flows: &mut Vec<Vec<Flow>>, agg: AggId, conv: u16)
    ensures { flow_values flows.new.items ≡ change_flow with_forced agg.0 conv (flow_values flows.old.items) }
{
    match aggregator_index(agg, flows.len()) {
        Some(index) => {
            let conversations = &mut flows[index];
            record_forced_in(conversations, usize::from(conv));
        }
        None => {}
    }
}
