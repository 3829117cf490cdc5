ghost use Rattle.std.specs.Prelude.{◌≡◌, ◌<◌, ◌≤◌, Bool, IfOk, IsTrue, ℕ, List, Option, Result, length, nat_le};
ghost use Rattle.std.specs.Bool.{IsFalse};
ghost use Rattle.distributor.specs.Calls.{PicksIndexes};
ghost use Rattle.lagsystem.specs.Calls.{Call};
ghost use Rattle.lagsystem.specs.Forcing.{ForcesPort};
ghost use Rattle.lagmodel.specs.View.{first_view};
ghost use Rattle.lagsystem.specs.ModelView.{model_setup, model_view};
ghost use Rattle.lagsystem.specs.Readers.{aggregator_numbered, conversation_count, number_of_conversation};
ghost use Rattle.lagsystem.specs.declared.received.Received.{Received};
ghost use Rattle.lagsystem.specs.declared.drive.Reply.{Reply};
ghost use Rattle.lagsystem.specs.declared.fault.SystemFault.{SystemFault};
ghost use Rattle.lagsystem.specs.Sound.{CallPromise};
ghost use Rattle.lagsystem.specs.State.{port_index};
ghost use Rattle.lagffi.specs.Algorithms.{gives_by};
ghost use Rattle.dataplane.specs.Notes.{nobody_asked, notes_after_receive, notes_after_set_link, notes_after_transmit};
ghost use Rattle.lagffi.specs.Asking.{CallsHeldSystem, NotesHeldSystem, OffersToHeldSystem, by_number_gives};
ghost use Rattle.lagffi.specs.Holding.{held_value};
ghost use Rattle.lagffi.specs.Frames.{control_frame_length, received_of, sent_of, sent_refused, buffer_after_transmit, buffer_after_receive};
ghost use Rattle.lagffi.specs.Lists.{put_first};
ghost use Rattle.lagffi.specs.Numbers.{change_of, number_refused, received_refused, no_system, truth_refused, number_of};
ghost use Rattle.lagffi.specs.Numbers.{wrong_buffer_length, status_of, truth_of};
ghost use Rattle.lagffi.specs.Ticking.{TicksInTurn};

use crate::handle::Lag;
use crate::stored::{by_first, by_number, by_sum};
use crate::values::{
    CONTROL_FRAME_LENGTH, LagChange, LagNumber, LagReceived, LagSent, LagTruth, NO_SYSTEM, OK,
    WRONG_BUFFER_LENGTH, status,
};
use dataplane::Answering;
use lagsystem::{AggId, Received, System, SystemFault};
use std::alloc::Global;

/// Writes octets at the front of a buffer.
pub(crate) fn put_octets(octets: &[u8], buffer: &mut [u8])
    requires { length octets.now ≤ length buffer.old }
    ensures { buffer.new ≡ put_first octets.now buffer.old }
{
    buffer[..octets.len()].copy_from_slice(octets);
}

/// Writes the response that a frame had, if it had one.
fn write_reply(answer: &Result<Received, SystemFault>, buffer: &mut [u8])
    requires { control_frame_length ≤ length buffer.old }
    ensures { buffer.new ≡ buffer_after_receive buffer.old answer.now }
{
    if let Ok(Received::Respond(octets)) = answer {
        put_octets(octets, buffer);
    }
}

/// Writes the frame that is due, if one is.
pub(crate) fn write_due(answer: &Result<Option<[u8; 124]>, SystemFault>, buffer: &mut [u8])
    requires { control_frame_length ≤ length buffer.old }
    ensures { buffer.new ≡ buffer_after_transmit buffer.old answer.now }
{
    if let Ok(Some(octets)) = answer {
        put_octets(octets, buffer);
    }
}

// promise: a frame stands at the front of the buffer, the rest stays; room below 124 octets is refused with 15
// contract: `lagffi_receive`, `lagffi_transmit` (`answers`, `room`)
/// A frame comes on a port: of control frames hand over those to 01-80-C2-00-00-02 alone. `response` has NIW_FRAME octets or more, and
/// is written only for NIW_RECEIVED_RESPOND, at its front.
/// Refuses: NIW_BUFFER, NIW_NO_SYSTEM, NIW_NO_PORT.
#[unsafe(no_mangle)]
pub extern "C" fn lagffi_receive(
    alloc: Global,
    lag: &mut Lag,
    port: u16,
    frame: &[u8],
    response: &mut [u8],
) -> LagReceived
    ensures room { IsFalse (nat_le control_frame_length (length response.old)) → (result ≡ received_refused wrong_buffer_length)
        × (held_value lag.new.held.kept ≡ held_value lag.old.held.kept) × (response.new ≡ response.old) }
    ensures answers { IsTrue (nat_le control_frame_length (length response.old))
        → NotesHeldSystem (held_value lag.old.held.kept) (held_value lag.new.held.kept)
        (λ old new before after. (answer : Result Received SystemFault)
        × CallPromise by_number_gives old (Call.Receive port frame.now) (Reply.Receive answer) new
        × (after ≡ notes_after_receive (port_index port new.system_ports) frame.now answer before)
        × (result ≡ received_of answer) × (response.new ≡ buffer_after_receive response.old answer))
        ((result ≡ received_refused no_system) × (response.new ≡ response.old)) }
{
    if response.len() < CONTROL_FRAME_LENGTH {
        return LagReceived::refused(WRONG_BUFFER_LENGTH);
    }
    let Some((mut system, mut block)) = lag.take(alloc, by_number) else {
        return LagReceived::refused(NO_SYSTEM);
    };
    let answer = system.receive(port, frame);
    let notes = &mut block.kept_mut().answering;
    notes.after_receive(&system, port, frame, &answer);
    lag.put(system, block);
    write_reply(&answer, response);
    LagReceived::of(&answer)
}

/// 100 ms have passed.
/// Refuses: NIW_NO_SYSTEM.
#[unsafe(no_mangle)]
pub extern "C" fn lagffi_tick(alloc: Global, lag: &mut Lag) -> u32
    ensures { CallsHeldSystem (held_value lag.old.held.kept) (held_value lag.new.held.kept)
        (λ old new. CallPromise by_number_gives old Call.Tick Reply.Tick new × (result ≡ 0)) (result ≡ no_system) }
{
    let Some((mut system, block)) = lag.take(alloc, by_number) else {
        return NO_SYSTEM;
    };
    system.tick();
    lag.put(system, block);
    OK
}

/// The most ticks of one call: 6553.5 s.
const MOST_TICKS: u32 = 65535;
/// The status of more: NIW_MANY_TICKS.
const MANY_TICKS: u32 = 25;

/// Ticks a system so many times.
fn tick_times<F: Fn(u16, usize) -> usize + Drop>(system: &mut System<F>, count: u32)
    ensures ticked { TicksInTurn (F.post system.old.algorithm) count system.old.state system.new.state }
    ensures algorithm { system.new.algorithm ≡ system.old.algorithm }
{
    for _tick in 0..count {
        system.tick();
    }
}

/// `count` times 100 ms have passed: like `count` calls of niw_tick, and as long as they take. Nothing is sent between them: with more
/// ticks than niw_ticks_until_due tells, a frame that becomes due waits for the end of the call, so a program makes few up at once.
/// Refuses: NIW_MANY_TICKS, NIW_NO_SYSTEM.
#[unsafe(no_mangle)]
pub extern "C" fn lagffi_ticks(alloc: Global, lag: &mut Lag, count: u32) -> u32
    ensures few { count ≤ 65535 → CallsHeldSystem (held_value lag.old.held.kept) (held_value lag.new.held.kept)
        (λ old new. TicksInTurn by_number_gives count old new × (result ≡ 0)) (result ≡ no_system) }
    ensures many { 65535 < count → (lag.new ≡ lag.old) × (result ≡ 25) }
{
    if count > MOST_TICKS {
        return MANY_TICKS;
    }
    let Some((mut system, block)) = lag.take(alloc, by_number) else {
        return NO_SYSTEM;
    };
    tick_times(&mut system, count);
    lag.put(system, block);
    OK
}

/// The link of a port is up or down now.
/// Refuses: NIW_NO_SYSTEM, NIW_NO_PORT.
#[unsafe(no_mangle)]
pub extern "C" fn lagffi_set_link(alloc: Global, lag: &mut Lag, port: u16, up: bool) -> u32
    ensures { NotesHeldSystem (held_value lag.old.held.kept) (held_value lag.new.held.kept)
        (λ old new before after. (answer : Result Unit SystemFault)
        × CallPromise by_number_gives old (Call.Set_link port up) (Reply.SetLink answer) new
        × (after ≡ notes_after_set_link (port_index port new.system_ports) up answer before)
        × (result ≡ status_of answer)) (result ≡ no_system) }
{
    let Some((mut system, mut block)) = lag.take(alloc, by_number) else {
        return NO_SYSTEM;
    };
    let answer = system.set_link(port, up);
    let notes = &mut block.kept_mut().answering;
    notes.after_set_link(&system, port, up, &answer);
    lag.put(system, block);
    status(&answer)
}

/// Gives a port this key, priority and Aggregation bit. Returns false, and changes nothing, if the port has them already.
/// Refuses: NIW_NO_SYSTEM, NIW_NO_PORT.
#[unsafe(no_mangle)]
pub extern "C" fn lagffi_configure(
    alloc: Global,
    lag: &mut Lag,
    port: u16,
    change: &LagChange,
) -> LagTruth
    ensures { CallsHeldSystem (held_value lag.old.held.kept) (held_value lag.new.held.kept)
        (λ old new. (answer : Result Bool SystemFault) × CallPromise by_number_gives old (Call.Configure port (change_of change.now))
        (Reply.Configure answer) new
        × (result ≡ truth_of answer)) (result ≡ truth_refused no_system) }
{
    let Some((mut system, block)) = lag.take(alloc, by_number) else {
        return LagTruth::refused(NO_SYSTEM);
    };
    let answer = system.configure(port, change.change());
    lag.put(system, block);
    LagTruth::of(&answer)
}

/// Starts the system again as niw_new left it, but niw_set_max_delay and niw_set_max_links stay: all links are down, no port is held, and what
/// niw_configure and niw_set_mode changed is lost.
/// Refuses: NIW_NO_SYSTEM.
#[unsafe(no_mangle)]
pub extern "C" fn lagffi_restart(alloc: Global, lag: &mut Lag) -> u32
    ensures { NotesHeldSystem (held_value lag.old.held.kept) (held_value lag.new.held.kept)
        (λ old new before after. CallPromise by_number_gives old Call.Restart Reply.Restart new
        × (model_view new ≡ first_view (model_setup old)) × (after ≡ nobody_asked) × (result ≡ 0))
        (result ≡ no_system) }
{
    let Some((mut system, mut block)) = lag.take(alloc, by_number) else {
        return NO_SYSTEM;
    };
    system.restart();
    block.kept_mut().answering = Answering::nobody_asked();
    lag.put(system, block);
    OK
}

/// The frame that is due on a port, if `is` is true: it is written at the front of `frame` then, which has NIW_FRAME octets or more. To
/// be called until `is` is false.
/// Refuses: NIW_BUFFER, NIW_NO_SYSTEM, NIW_NO_PORT.
#[unsafe(no_mangle)]
pub extern "C" fn lagffi_transmit(
    alloc: Global,
    lag: &mut Lag,
    port: u16,
    frame: &mut [u8],
) -> LagSent
    ensures room { IsFalse (nat_le control_frame_length (length frame.old)) → (result ≡ sent_refused wrong_buffer_length)
        × (held_value lag.new.held.kept ≡ held_value lag.old.held.kept) × (frame.new ≡ frame.old) }
    ensures answers { IsTrue (nat_le control_frame_length (length frame.old))
        → NotesHeldSystem (held_value lag.old.held.kept) (held_value lag.new.held.kept)
        (λ old new before after. (answer : Result (Option (List ℕ)) SystemFault)
        × CallPromise by_number_gives old (Call.Transmit port) (Reply.Transmit answer) new
        × (after ≡ notes_after_transmit (port_index port new.system_ports) answer before)
        × (result ≡ sent_of answer) × (frame.new ≡ buffer_after_transmit frame.old answer))
        ((result ≡ sent_refused no_system) × (frame.new ≡ frame.old)) }
{
    if frame.len() < CONTROL_FRAME_LENGTH {
        return LagSent::refused(WRONG_BUFFER_LENGTH);
    }
    let Some((mut system, mut block)) = lag.take(alloc, by_number) else {
        return LagSent::refused(NO_SYSTEM);
    };
    let answer = system.transmit(port);
    let notes = &mut block.kept_mut().answering;
    notes.after_transmit(&system, port, &answer);
    lag.put(system, block);
    write_due(&answer, frame);
    LagSent::of(&answer)
}

/// Offers a frame to a system under this algorithm.
fn offer_by<F: Fn(u16, usize) -> usize + Drop>(
    kept: System<()>,
    algorithm: F,
    agg: AggId,
    frame: &[u8],
) -> (Result<u16, SystemFault>, System<()>)
    requires usable { PicksIndexes (F.pre algorithm) (F.post algorithm) }
    ensures answers { CallPromise (F.post algorithm) kept.state (Call.Offer agg frame.now) (Reply.Offer result.0) result.1.state }
    ensures within { IfOk result.0 (λ port. number_of_conversation kept.state frame.now < conversation_count kept.state) }
{
    let mut system = kept.with_algorithm(algorithm);
    let answer = system.offer(agg, frame);
    (answer, system.with_algorithm(()))
}

/// Offers a frame to a system under the algorithm with this number.
fn offer_with(
    kept: System<()>,
    algorithm: u16,
    agg: AggId,
    frame: &[u8],
) -> (Result<u16, SystemFault>, System<()>)
    ensures answers { CallPromise (gives_by algorithm) kept.state (Call.Offer agg frame.now) (Reply.Offer result.0) result.1.state }
    ensures within { IfOk result.0 (λ port. number_of_conversation kept.state frame.now < conversation_count kept.state) }
{
    if algorithm >= 2 {
        return offer_by(kept, by_first, agg, frame);
    }
    if algorithm >= 1 {
        return offer_by(kept, by_sum, agg, frame);
    }
    offer_by(kept, by_number, agg, frame)
}

/// The port to send a frame on, in an aggregator: that of its conversation, which picks one by the algorithm of the configuration.
/// Refuses: NIW_NO_SYSTEM, NIW_NO_AGGREGATOR, NIW_FRAME_LENGTH, NIW_SLOW_FRAME, NIW_HELD, NIW_NONE_DISTRIBUTING.
#[unsafe(no_mangle)]
pub extern "C" fn lagffi_offer(alloc: Global, lag: &mut Lag, agg: u16, frame: &[u8]) -> LagNumber
    ensures { OffersToHeldSystem (held_value lag.old.held.kept) (held_value lag.new.held.kept)
        (λ gives old new. (answer : Result ℕ SystemFault) × CallPromise gives old (Call.Offer (aggregator_numbered agg) frame.now)
        (Reply.Offer answer) new
        × IfOk answer (λ port. number_of_conversation old frame.now < conversation_count old)
        × (result ≡ number_of answer)) (result ≡ number_refused no_system) }
{
    let Some((kept, block)) = lag.take(alloc, ()) else {
        return LagNumber::refused(NO_SYSTEM);
    };
    let (answer, system) = offer_with(kept, block.kept().algorithm, AggId(agg), frame);
    lag.put(system, block);
    LagNumber::of(&answer)
}

/// Moves a conversation to a port, behind a marker on the port that it is on.
/// Refuses: NIW_NO_SYSTEM, NIW_NO_AGGREGATOR, NIW_NO_PORT, NIW_NOT_ASSIGNED, NIW_HELD, NIW_NOT_DISTRIBUTING, NIW_SAME_PORT,
/// NIW_MARKERS_SPENT.
#[unsafe(no_mangle)]
pub extern "C" fn lagffi_move_conversation(
    alloc: Global,
    lag: &mut Lag,
    agg: u16,
    conv: u16,
    port: u16,
) -> u32
    ensures { CallsHeldSystem (held_value lag.old.held.kept) (held_value lag.new.held.kept)
        (λ old new. (answer : Result Unit SystemFault)
        × CallPromise by_number_gives old (Call.Move_conversation (aggregator_numbered agg) conv port)
        (Reply.MoveConversation answer) new
        × (result ≡ status_of answer)) (result ≡ no_system) }
{
    let Some((mut system, block)) = lag.take(alloc, by_number) else {
        return NO_SYSTEM;
    };
    let answer = system.move_conversation(AggId(agg), conv, port);
    lag.put(system, block);
    status(&answer)
}

/// Frees a conversation at once. Its next frames may overtake those that are on their way.
/// Refuses: NIW_NO_SYSTEM, NIW_NO_AGGREGATOR, NIW_NOT_ASSIGNED.
#[unsafe(no_mangle)]
pub extern "C" fn lagffi_force(alloc: Global, lag: &mut Lag, agg: u16, conv: u16) -> u32
    ensures { CallsHeldSystem (held_value lag.old.held.kept) (held_value lag.new.held.kept)
        (λ old new. (answer : Result Unit SystemFault) × CallPromise by_number_gives old (Call.Force (aggregator_numbered agg) conv)
        (Reply.Force answer) new
        × (result ≡ status_of answer)) (result ≡ no_system) }
{
    let Some((mut system, block)) = lag.take(alloc, by_number) else {
        return NO_SYSTEM;
    };
    let answer = system.force(AggId(agg), conv);
    lag.put(system, block);
    status(&answer)
}

/// Frees each conversation that is held on a port, as niw_force does; returns how many.
/// Refuses: NIW_NO_SYSTEM, NIW_NO_PORT.
#[unsafe(no_mangle)]
pub extern "C" fn lagffi_force_port(alloc: Global, lag: &mut Lag, port: u16) -> LagNumber
    ensures { CallsHeldSystem (held_value lag.old.held.kept) (held_value lag.new.held.kept)
        (λ old new. (answer : Result ℕ SystemFault) × ForcesPort by_number_gives port old answer new × (result ≡ number_of answer))
        (result ≡ number_refused no_system) }
{
    let Some((mut system, block)) = lag.take(alloc, by_number) else {
        return LagNumber::refused(NO_SYSTEM);
    };
    let answer = system.force_port(port);
    lag.put(system, block);
    LagNumber::of_count(&answer)
}
