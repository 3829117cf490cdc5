ghost use Rattle.std.specs.Prelude.{◌≡◌, ℕ, Option, Result};
ghost use Rattle.dataplane.specs.Choice.{Carries, aggregator_or_none};
ghost use Rattle.distributor.specs.Calls.{PicksIndexes};
ghost use Rattle.lagtypes.specs.declared.identifiers.AggId.{AggId};
ghost use Rattle.lagsystem.specs.declared.fault.SystemFault.{SystemFault};
ghost use Rattle.lagffi.specs.Algorithms.{gives_by};
ghost use Rattle.lagffi.specs.Asking.{OffersToHeldSystem, ReadsHeldSystem};
ghost use Rattle.lagffi.specs.Carrying.{OffersFrameInActiveAggregator, OffersNumberInActiveAggregator, number_or_0};
ghost use Rattle.lagffi.specs.Holding.{held_value};
ghost use Rattle.lagffi.specs.Numbers.{no_system, number, number_of, number_refused};

use crate::handle::Lag;
use crate::stored::{by_first, by_number, by_sum};
use crate::values::{LagNumber, NO_SYSTEM};
use dataplane::{
    active_aggregator, aggregator_or_none, offer_conversation_in_active_aggregator,
    offer_in_active_aggregator,
};
use lagsystem::{AggId, System, SystemFault};
use std::alloc::Global;

/// The number of the aggregator; 0 for none.
fn number_or_0(agg: Option<AggId>) -> u64
    ensures { result ≡ number_or_0 agg }
{
    match agg {
        Some(AggId(agg)) => u64::from(agg),
        None => 0,
    }
}

// promise: the aggregator that carries, and offers in it, are those of [the active aggregator](#active); 0 is none
// contract: `lagffi_active_aggregator` (`Carries`), `lagffi_offer_in_active_aggregator`, `lagffi_offer_conversation_in_active_aggregator` (`OffersInActiveAggregator`)
// not said: that no frame is offered by another export
/// The aggregator that carries the frames of the client, or 0 if no port distributes. `now` is the one that carried them before, or 0 for
/// none. An aggregator with a partner is before one that runs on defaults, and of those the one with the most ports. `now` stays unless
/// another has strictly more; of several others it is the one with the least LAG ID, then the lowest number. To be asked after each call
/// that may change which ports distribute; its answer is `now` the next time.
/// Refuses: NIW_NO_SYSTEM.
#[unsafe(no_mangle)]
pub extern "C" fn lagffi_active_aggregator(alloc: Global, lag: &mut Lag, now: u16) -> LagNumber
    ensures { ReadsHeldSystem (held_value lag.old.held.kept) (held_value lag.new.held.kept)
        (λ s. (carries : Option AggId) × Carries (aggregator_or_none now) s carries × (result ≡ number (number_or_0 carries)))
        (result ≡ number_refused no_system) }
{
    let Some((system, block)) = lag.take(alloc, by_number) else {
        return LagNumber::refused(NO_SYSTEM);
    };
    let carries = active_aggregator(&system, aggregator_or_none(now));
    lag.put(system, block);
    LagNumber::answered(number_or_0(carries))
}

/// Offers a frame in the aggregator that carries to a system under this algorithm.
fn offer_in_active_aggregator_by<F: Fn(u16, usize) -> usize + Drop>(
    kept: System<()>,
    algorithm: F,
    agg: u16,
    frame: &[u8],
) -> (Result<u16, SystemFault>, System<()>)
    requires usable { PicksIndexes (F.pre algorithm) (F.post algorithm) }
    ensures { OffersFrameInActiveAggregator (F.post algorithm) agg frame.now kept.state result.0 result.1.state }
{
    let mut system = kept.with_algorithm(algorithm);
    let answer = offer_in_active_aggregator(&mut system, AggId(agg), frame);
    (answer, system.with_algorithm(()))
}

/// Offers a frame in the aggregator that carries to a system under the algorithm with this number.
fn offer_in_active_aggregator_with(
    kept: System<()>,
    algorithm: u16,
    agg: u16,
    frame: &[u8],
) -> (Result<u16, SystemFault>, System<()>)
    ensures { OffersFrameInActiveAggregator (gives_by algorithm) agg frame.now kept.state result.0 result.1.state }
{
    if algorithm >= 2 {
        return offer_in_active_aggregator_by(kept, by_first, agg, frame);
    }
    if algorithm >= 1 {
        return offer_in_active_aggregator_by(kept, by_sum, agg, frame);
    }
    offer_in_active_aggregator_by(kept, by_number, agg, frame)
}

/// The port to send a frame on, in the aggregator that carries. NIW_HELD, before every other refusal, while the conversation of the frame
/// is on a port or held in another aggregator; else what niw_offer does and returns. niw_leave_conversation takes it off its port there.
/// Refuses: NIW_NO_SYSTEM, NIW_HELD, NIW_NO_AGGREGATOR, NIW_FRAME_LENGTH, NIW_SLOW_FRAME, NIW_HELD, NIW_NONE_DISTRIBUTING.
#[unsafe(no_mangle)]
pub extern "C" fn lagffi_offer_in_active_aggregator(
    alloc: Global,
    lag: &mut Lag,
    agg: u16,
    frame: &[u8],
) -> LagNumber
    ensures { OffersToHeldSystem (held_value lag.old.held.kept) (held_value lag.new.held.kept)
        (λ gives old new. (answer : Result ℕ SystemFault) × OffersFrameInActiveAggregator gives agg frame.now old answer new
        × (result ≡ number_of answer)) (result ≡ number_refused no_system) }
{
    let Some((kept, block)) = lag.take(alloc, ()) else {
        return LagNumber::refused(NO_SYSTEM);
    };
    let (answer, system) = offer_in_active_aggregator_with(
        kept,
        block.kept().algorithm,
        agg,
        frame,
    );
    lag.put(system, block);
    LagNumber::of(&answer)
}

/// Offers a conversation in the aggregator that carries to a system under this algorithm.
fn offer_conversation_in_active_aggregator_by<F: Fn(u16, usize) -> usize + Drop>(
    kept: System<()>,
    algorithm: F,
    agg: u16,
    conv: u16,
) -> (Result<u16, SystemFault>, System<()>)
    requires usable { PicksIndexes (F.pre algorithm) (F.post algorithm) }
    ensures { OffersNumberInActiveAggregator (F.post algorithm) agg conv kept.state result.0 result.1.state }
{
    let mut system = kept.with_algorithm(algorithm);
    let answer = offer_conversation_in_active_aggregator(&mut system, AggId(agg), conv);
    (answer, system.with_algorithm(()))
}

/// Offers a conversation in the aggregator that carries to a system under the algorithm with this number.
fn offer_conversation_in_active_aggregator_with(
    kept: System<()>,
    algorithm: u16,
    agg: u16,
    conv: u16,
) -> (Result<u16, SystemFault>, System<()>)
    ensures { OffersNumberInActiveAggregator (gives_by algorithm) agg conv kept.state result.0 result.1.state }
{
    if algorithm >= 2 {
        return offer_conversation_in_active_aggregator_by(kept, by_first, agg, conv);
    }
    if algorithm >= 1 {
        return offer_conversation_in_active_aggregator_by(kept, by_sum, agg, conv);
    }
    offer_conversation_in_active_aggregator_by(kept, by_number, agg, conv)
}

/// As niw_offer_in_active_aggregator, for a frame of a conversation, whatever its octets: NIW_HELD as there, else what niw_offer_conversation does.
/// Refuses: NIW_NO_SYSTEM, NIW_HELD, NIW_NO_AGGREGATOR, NIW_NOT_ASSIGNED, NIW_HELD, NIW_NONE_DISTRIBUTING.
#[unsafe(no_mangle)]
pub extern "C" fn lagffi_offer_conversation_in_active_aggregator(
    alloc: Global,
    lag: &mut Lag,
    agg: u16,
    conv: u16,
) -> LagNumber
    ensures { OffersToHeldSystem (held_value lag.old.held.kept) (held_value lag.new.held.kept)
        (λ gives old new. (answer : Result ℕ SystemFault) × OffersNumberInActiveAggregator gives agg conv old answer new
        × (result ≡ number_of answer)) (result ≡ number_refused no_system) }
{
    let Some((kept, block)) = lag.take(alloc, ()) else {
        return LagNumber::refused(NO_SYSTEM);
    };
    let (answer, system) = offer_conversation_in_active_aggregator_with(
        kept,
        block.kept().algorithm,
        agg,
        conv,
    );
    lag.put(system, block);
    LagNumber::of(&answer)
}
