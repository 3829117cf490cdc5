ghost use Rattle.std.specs.Prelude.{◌≡◌, ◌||◌, [], ℕ, IfOk, Ok, Result, length};
ghost use Rattle.distributor.specs.Calls.{PicksIndexes};
ghost use Rattle.lagmodel.specs.View.{ModelCall};
ghost use Rattle.lagsystem.specs.Calls.{Call};
ghost use Rattle.lagsystem.specs.ConversationTables.{TellsFreed, TellsPorts};
ghost use Rattle.lagsystem.specs.Leaving.{system_leave_result, system_rest_result};
ghost use Rattle.lagsystem.specs.Offers.{GivesOrRefuses, has_aggregator};
ghost use Rattle.lagsystem.specs.Promises.{TablePromise};
ghost use Rattle.lagsystem.specs.Readers.{aggregator_numbered};
ghost use Rattle.lagsystem.specs.Sound.{CallPromise};
ghost use Rattle.lagsystem.specs.declared.drive.Reply.{Reply};
ghost use Rattle.lagsystem.specs.declared.fault.SystemFault.{SystemFault};
ghost use Rattle.dataplane.specs.Adopting.{IsFreeIn, IsPlaced, adopt_result};
ghost use Rattle.lagffi.specs.Algorithms.{gives_by};
ghost use Rattle.lagffi.specs.Asking.{CallsHeldSystem, OffersToHeldSystem, ReadsHeldSystem, by_number_gives};
ghost use Rattle.lagffi.specs.Holding.{held_value};
ghost use Rattle.lagffi.specs.Numbers.{no_system, number_of, number_refused, status_of};
ghost use Rattle.lagffi.specs.Tables.{OffersByNumber, TellsRowsIf, lacks_row};

use crate::handle::Lag;
use crate::stored::{by_first, by_number, by_sum};
use crate::values::{LagNumber, NO_SYSTEM, WRONG_BUFFER_LENGTH, status};
use dataplane::adopt;
use lagsystem::{AggId, System, SystemFault};
use std::alloc::Global;

/// The most conversations of an aggregator.
const MANY_CONVERSATIONS: usize = 4096;

/// Offers a conversation to a system under this algorithm.
fn offer_conversation_by<F: Fn(u16, usize) -> usize + Drop>(
    kept: System<()>,
    algorithm: F,
    agg: u16,
    conv: u16,
) -> (Result<u16, SystemFault>, System<()>)
    requires usable { PicksIndexes (F.pre algorithm) (F.post algorithm) }
    ensures { OffersByNumber (F.post algorithm) agg conv kept.state result.0 result.1.state }
{
    let mut system = kept.with_algorithm(algorithm);
    let answer = system.offer_conversation(AggId(agg), conv);
    (answer, system.with_algorithm(()))
}

/// Offers a conversation to a system under the algorithm with this number.
fn offer_conversation_with(
    kept: System<()>,
    algorithm: u16,
    agg: u16,
    conv: u16,
) -> (Result<u16, SystemFault>, System<()>)
    ensures { OffersByNumber (gives_by algorithm) agg conv kept.state result.0 result.1.state }
{
    if algorithm >= 2 {
        return offer_conversation_by(kept, by_first, agg, conv);
    }
    if algorithm >= 1 {
        return offer_conversation_by(kept, by_sum, agg, conv);
    }
    offer_conversation_by(kept, by_number, agg, conv)
}

/// The port to send a frame of a conversation on, whatever its octets: what niw_offer does and returns for a frame of it. For a program
/// that has a hash of its own, which gives each flow one conversation for ever.
/// Refuses: NIW_NO_SYSTEM, NIW_NO_AGGREGATOR, NIW_NOT_ASSIGNED, NIW_HELD, NIW_NONE_DISTRIBUTING.
#[unsafe(no_mangle)]
pub extern "C" fn lagffi_offer_conversation(
    alloc: Global,
    lag: &mut Lag,
    agg: u16,
    conv: u16,
) -> LagNumber
    ensures { OffersToHeldSystem (held_value lag.old.held.kept) (held_value lag.new.held.kept)
        (λ gives old new. (answer : Result ℕ SystemFault) × OffersByNumber gives agg conv old answer new × (result ≡ number_of answer))
        (result ≡ number_refused no_system) }
{
    let Some((kept, block)) = lag.take(alloc, ()) else {
        return LagNumber::refused(NO_SYSTEM);
    };
    let (answer, system) = offer_conversation_with(kept, block.kept().algorithm, agg, conv);
    lag.put(system, block);
    LagNumber::of(&answer)
}

// promise: a leave, a rest, a probe, and an offer by number are the system's own
// contract: `lagffi_leave_conversation`, `lagffi_rest`, `lagffi_probe`, `lagffi_offer_conversation` (`OffersByNumber`)
/// Takes a conversation off its port, behind a marker, without another port to go to: it prefers none.
/// Refuses: NIW_NO_SYSTEM, NIW_NO_AGGREGATOR, NIW_NOT_ASSIGNED, NIW_HELD, NIW_MARKERS_SPENT.
#[unsafe(no_mangle)]
pub extern "C" fn lagffi_leave_conversation(
    alloc: Global,
    lag: &mut Lag,
    agg: u16,
    conv: u16,
) -> u32
    ensures { CallsHeldSystem (held_value lag.old.held.kept) (held_value lag.new.held.kept)
        (λ old new. (answer : Result Unit SystemFault) × GivesOrRefuses (aggregator_numbered agg) conv
        (system_leave_result old (aggregator_numbered agg) conv) old answer new
        × TablePromise ModelCall.Move_conversation [] old new × (result ≡ status_of answer)) (result ≡ no_system) }
{
    let Some((mut system, block)) = lag.take(alloc, by_number) else {
        return NO_SYSTEM;
    };
    let answer = system.leave_conversation(AggId(agg), conv);
    lag.put(system, block);
    status(&answer)
}

/// Frees a conversation that is on a port, on the word of the program that none of its frames is on its way: else they may arrive out of
/// order.
/// Refuses: NIW_NO_SYSTEM, NIW_NO_AGGREGATOR, NIW_NOT_ASSIGNED, NIW_HELD.
#[unsafe(no_mangle)]
pub extern "C" fn lagffi_rest(alloc: Global, lag: &mut Lag, agg: u16, conv: u16) -> u32
    ensures { CallsHeldSystem (held_value lag.old.held.kept) (held_value lag.new.held.kept)
        (λ old new. (answer : Result Unit SystemFault) × GivesOrRefuses (aggregator_numbered agg) conv
        (system_rest_result old (aggregator_numbered agg) conv) old answer new
        × IfOk answer (λ done. CallPromise by_number_gives old (Call.Force (aggregator_numbered agg) conv) (Reply.Force (Ok tt)) new)
        × (result ≡ status_of answer)) (result ≡ no_system) }
{
    let Some((mut system, block)) = lag.take(alloc, by_number) else {
        return NO_SYSTEM;
    };
    let answer = system.rest(AggId(agg), conv);
    lag.put(system, block);
    status(&answer)
}

// promise: an adoption is `adopt`
// contract: `lagffi_adopt`
/// Puts a conversation on the port on which the program's chip has it, whichever port the algorithm picks: after niw_resume, before
/// another frame of it is offered. No frame and no marker is sent. One that is on the port already stays.
/// Refuses: NIW_NO_SYSTEM, NIW_NO_AGGREGATOR, NIW_NO_PORT, NIW_NOT_ASSIGNED, NIW_HELD, NIW_NOT_DISTRIBUTING, NIW_MARKERS_SPENT.
#[unsafe(no_mangle)]
pub extern "C" fn lagffi_adopt(alloc: Global, lag: &mut Lag, agg: u16, conv: u16, port: u16) -> u32
    ensures { CallsHeldSystem (held_value lag.old.held.kept) (held_value lag.new.held.kept)
        (λ old new. (answer : Result Unit SystemFault) × GivesOrRefuses (aggregator_numbered agg) conv
        (adopt_result old (aggregator_numbered agg) conv port) old answer new
        × IfOk answer (λ done. IsFreeIn old (aggregator_numbered agg) conv → IsPlaced (aggregator_numbered agg) conv port old new)
        × ((IsFreeIn old (aggregator_numbered agg) conv → ⊥) → new ≡ old)
        × (result ≡ status_of answer)) (result ≡ no_system) }
{
    let Some((mut system, block)) = lag.take(alloc, by_number) else {
        return NO_SYSTEM;
    };
    let answer = adopt(&mut system, AggId(agg), conv, port);
    lag.put(system, block);
    status(&answer)
}

/// Whether a list of this length has no row for some conversation of an aggregator.
fn lacks_row<F: Fn(u16, usize) -> usize + Drop>(system: &System<F>, agg: u16, rows: usize) -> bool
    ensures { result ≡ lacks_row system.now.state agg rows }
{
    let number = rows.min(MANY_CONVERSATIONS) as u16;
    system.conversation_state(AggId(agg), number).is_some()
}

/// Whether one of two lists of these lengths has no row for some conversation of an aggregator.
fn lack_rows<F: Fn(u16, usize) -> usize + Drop>(
    system: &System<F>,
    agg: u16,
    one: usize,
    other: usize,
) -> bool
    ensures { result ≡ (lacks_row system.now.state agg one || lacks_row system.now.state agg other) }
{
    lacks_row(system, agg, one) || lacks_row(system, agg, other)
}

/// Writes the port of each conversation, and which changed.
fn tell_ports<F: Fn(u16, usize) -> usize + Drop>(
    system: &System<F>,
    agg: u16,
    ports: &mut [u16],
    changed: &mut [bool],
) -> LagNumber
    ensures { TellsRowsIf (lacks_row system.now.state agg (length ports.old) || lacks_row system.now.state agg (length changed.old))
        (has_aggregator system.now.state (aggregator_numbered agg)) result
        ((ports.new ≡ ports.old) × (changed.new ≡ changed.old))
        (λ count. TellsPorts system.now.state (aggregator_numbered agg) ports.old ports.new changed.old changed.new count) }
{
    if lack_rows(system, agg, ports.len(), changed.len()) {
        return LagNumber::refused(WRONG_BUFFER_LENGTH);
    }
    LagNumber::of(&system.conversation_ports(AggId(agg), ports, changed))
}

/// Writes which conversations are busy, and which became free.
fn tell_freed<F: Fn(u16, usize) -> usize + Drop>(
    system: &System<F>,
    agg: u16,
    busy: &mut [bool],
    freed: &mut [bool],
) -> LagNumber
    ensures { TellsRowsIf (lacks_row system.now.state agg (length busy.old) || lacks_row system.now.state agg (length freed.old))
        (has_aggregator system.now.state (aggregator_numbered agg)) result
        ((busy.new ≡ busy.old) × (freed.new ≡ freed.old))
        (λ count. TellsFreed system.now.state (aggregator_numbered agg) busy.old busy.new freed.old freed.new count) }
{
    if lack_rows(system, agg, busy.len(), freed.len()) {
        return LagNumber::refused(WRONG_BUFFER_LENGTH);
    }
    LagNumber::of(&system.released(AggId(agg), busy, freed))
}

// promise: the rows of an aggregator's conversations are written, with marks; lists with too few rows are refused with 15, no aggregator
//    with 2
// contract: `lagffi_conversation_ports`, `lagffi_released` (`TellsRowsIf`)
/// What changed of the conversations of an aggregator: writes into `ports`, for each of them by its number, the port that it is on, or 0
/// if it is free or held; and into `changed` whether `ports` had another number there. Both have a place or more for each conversation.
/// Answers how many changed. The first time, `ports` may hold zeros.
/// Refuses: NIW_NO_SYSTEM, NIW_NO_AGGREGATOR, NIW_BUFFER.
#[unsafe(no_mangle)]
pub extern "C" fn lagffi_conversation_ports(
    alloc: Global,
    lag: &mut Lag,
    agg: u16,
    ports: &mut [u16],
    changed: &mut [bool],
) -> LagNumber
    ensures { ReadsHeldSystem (held_value lag.old.held.kept) (held_value lag.new.held.kept)
        (λ s. TellsRowsIf (lacks_row s agg (length ports.old) || lacks_row s agg (length changed.old)) (has_aggregator s (aggregator_numbered agg)) result
        ((ports.new ≡ ports.old) × (changed.new ≡ changed.old))
        (λ count. TellsPorts s (aggregator_numbered agg) ports.old ports.new changed.old changed.new count))
        ((result ≡ number_refused no_system) × (ports.new ≡ ports.old) × (changed.new ≡ changed.old)) }
{
    let Some((system, block)) = lag.take(alloc, by_number) else {
        return LagNumber::refused(NO_SYSTEM);
    };
    let answer = tell_ports(&system, agg, ports, changed);
    lag.put(system, block);
    answer
}

/// What was released: writes into `busy`, for each conversation of an aggregator by its number, whether it is on a port or held now, and
/// into `freed` whether `busy` told so before and it is free now. `busy` is the program's own list, at first all false: the program sets
/// a place of it when an offer answers a port. Both have a place or more for each conversation. Answers how many became free.
/// Refuses: NIW_NO_SYSTEM, NIW_NO_AGGREGATOR, NIW_BUFFER.
#[unsafe(no_mangle)]
pub extern "C" fn lagffi_released(
    alloc: Global,
    lag: &mut Lag,
    agg: u16,
    busy: &mut [bool],
    freed: &mut [bool],
) -> LagNumber
    ensures { ReadsHeldSystem (held_value lag.old.held.kept) (held_value lag.new.held.kept)
        (λ s. TellsRowsIf (lacks_row s agg (length busy.old) || lacks_row s agg (length freed.old)) (has_aggregator s (aggregator_numbered agg)) result
        ((busy.new ≡ busy.old) × (freed.new ≡ freed.old))
        (λ count. TellsFreed s (aggregator_numbered agg) busy.old busy.new freed.old freed.new count))
        ((result ≡ number_refused no_system) × (busy.new ≡ busy.old) × (freed.new ≡ freed.old)) }
{
    let Some((system, block)) = lag.take(alloc, by_number) else {
        return LagNumber::refused(NO_SYSTEM);
    };
    let answer = tell_freed(&system, agg, busy, freed);
    lag.put(system, block);
    answer
}
