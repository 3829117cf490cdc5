//! A client's frame where the aggregator that carries changes.
ghost use Rattle.std.specs.Prelude.{true, ◌≡◌, ◌≢◌, ◌↔◌, ◌<◌, ◌^◌, ℕ, List, IsTrue, IfSome, Err};
ghost use Rattle.distributor.specs.Calls.{PicksIndexes};
ghost use Rattle.lagmodel.specs.View.{Free};
ghost use Rattle.lagsystem.specs.Assigning.{OffersConversation};
ghost use Rattle.lagsystem.specs.Calls.{Call};
ghost use Rattle.lagsystem.specs.ModelView.{model_view};
ghost use Rattle.lagsystem.specs.Offers.{MayBeOffered, has_aggregator};
ghost use Rattle.lagsystem.specs.Readers.{aggregator_numbered, conversation_count, conversation_in, number_of_conversation};
ghost use Rattle.lagsystem.specs.Sound.{CallPromise};
ghost use Rattle.lagsystem.specs.declared.drive.Reply.{Reply};
ghost use Rattle.dataplane.specs.Offers.{IsElsewhere, IsHeldElsewhere, IsInOneAggregator, IsNumberElsewhere};

use crate::active::choosing::last_aggregator;
use lagsystem::{AggId, Assignment, System, SystemFault};

/// Whether a conversation of an aggregator is On, Wanted or Flushing.
fn is_busy<F: Fn(u16, usize) -> usize + Drop>(system: &System<F>, agg: AggId, conv: u16) -> bool
    requires there { has_aggregator system.now.state agg ≡ true }
    requires within { conv < conversation_count system.now.state }
    ensures { IsTrue result ↔ ((model_view system.now.state).flows.state agg.0 conv ≢ Free) }
{
    match system.conversation_state(agg, conv) {
        Some(Assignment::On(_) | Assignment::Wanted { .. } | Assignment::Flushing { .. }) => true,
        Some(Assignment::Free { .. }) | None => false,
    }
}

/// Whether a conversation is On, Wanted or Flushing in another aggregator than this one.
fn is_elsewhere<F: Fn(u16, usize) -> usize + Drop>(
    system: &System<F>,
    agg: AggId,
    conv: u16,
) -> bool
    requires { conv < conversation_count system.now.state }
    ensures { IsTrue result ↔ IsElsewhere system.now.state agg conv }
{
    let last = last_aggregator(system);
    for number in 0..last {
        let other = AggId(number + 1);
        if other.0 != agg.0 && is_busy(system, other, conv) {
            return true;
        }
    }
    false
}

/// Whether a conversation, if there is one, is On, Wanted or Flushing in another aggregator than this one.
fn is_held_elsewhere<F: Fn(u16, usize) -> usize + Drop>(
    system: &System<F>,
    agg: AggId,
    conversation: Option<u16>,
) -> bool
    requires { IfSome conversation (λ conv. conv < conversation_count system.now.state) }
    ensures { IsTrue result ↔ IsHeldElsewhere system.now.state agg conversation }
{
    match conversation {
        Some(conv) => is_elsewhere(system, agg, conv),
        None => false,
    }
}

/// Does nothing when it runs. The prover knows the range of a number of its own type, but not of a field.
fn has_16_bits(_number: u16)
    ensures { _number < 2 ^ 16 }
{}

/// Offers a client's frame in the aggregator that carries, where another one may have carried before: `Held`, before every other
/// refusal, and nothing changes, while the conversation of the frame is On, Wanted or Flushing in another aggregator; else what
/// `System::offer` answers and does, with its refusals (6.2.4; profile).
pub fn offer_in_active_aggregator<F: Fn(u16, usize) -> usize + Drop>(
    system: &mut System<F>,
    agg: AggId,
    frame: &[u8],
) -> Result<u16, SystemFault>
    requires usable { PicksIndexes (F.pre system.old.algorithm) (F.post system.old.algorithm) }
    ensures held { IsHeldElsewhere system.old.state agg (conversation_in system.old.state frame.now)
        → (result ≡ Err SystemFault.Held) × (system.new ≡ system.old) }
    ensures answers { (IsHeldElsewhere system.old.state agg (conversation_in system.old.state frame.now) → ⊥)
        → CallPromise (F.post system.old.algorithm) system.old.state (Call.Offer agg frame.now) (Reply.Offer result) system.new.state }
    ensures keeps { IsInOneAggregator system.old.state → IsInOneAggregator system.new.state }
    ensures algorithm { system.new.algorithm ≡ system.old.algorithm }
{
    has_16_bits(agg.0);
    let conversation = system.conversation(frame);
    if is_held_elsewhere(system, agg, conversation) {
        return Err(SystemFault::Held);
    }
    system.offer(agg, frame)
}

/// Whether there is a conversation of this number, and an aggregator.
fn is_known<F: Fn(u16, usize) -> usize + Drop>(system: &System<F>, conv: u16) -> bool
    ensures { IsTrue result ↔ (has_aggregator system.now.state (aggregator_numbered 1) ≡ true) × (conv < conversation_count system.now.state) }
{
    system.conversation_state(AggId(1), conv).is_some()
}

/// Whether there is a conversation of this number, and it is On, Wanted or Flushing in another aggregator than this one.
fn is_number_elsewhere<F: Fn(u16, usize) -> usize + Drop>(
    system: &System<F>,
    agg: AggId,
    conv: u16,
) -> bool
    ensures { IsTrue result ↔ IsNumberElsewhere system.now.state agg conv }
{
    if !is_known(system, conv) {
        return false;
    }
    is_elsewhere(system, agg, conv)
}

/// Offers a client's frame of this conversation, whatever its octets are, in the aggregator that carries, where another one may
/// have carried before: `Held`, before every other refusal, and nothing changes, while the conversation is On, Wanted or
/// Flushing in another aggregator; else what `System::offer_conversation` answers and does, with its refusals: what
/// `offer_in_active_aggregator` does for each frame of the conversation (6.2.4; profile).
pub fn offer_conversation_in_active_aggregator<F: Fn(u16, usize) -> usize + Drop>(
    system: &mut System<F>,
    agg: AggId,
    conv: u16,
) -> Result<u16, SystemFault>
    requires usable { PicksIndexes (F.pre system.old.algorithm) (F.post system.old.algorithm) }
    ensures held { IsNumberElsewhere system.old.state agg conv → (result ≡ Err SystemFault.Held) × (system.new ≡ system.old) }
    ensures offers { (IsNumberElsewhere system.old.state agg conv → ⊥)
        → OffersConversation (F.post system.old.algorithm) agg conv system.old.state result system.new.state }
    ensures answers { (IsNumberElsewhere system.old.state agg conv → ⊥)
        → (octets : List ℕ) → MayBeOffered octets → number_of_conversation system.old.state octets ≡ conv
        → CallPromise (F.post system.old.algorithm) system.old.state (Call.Offer agg octets) (Reply.Offer result) system.new.state }
    ensures keeps { IsInOneAggregator system.old.state → IsInOneAggregator system.new.state }
    ensures algorithm { system.new.algorithm ≡ system.old.algorithm }
{
    has_16_bits(agg.0);
    if is_number_elsewhere(system, agg, conv) {
        return Err(SystemFault::Held);
    }
    system.offer_conversation(agg, conv)
}
