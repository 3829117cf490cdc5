ghost use Rattle.std.specs.Prelude.{◌≡◌, ◌<◌, [], IfSome, IsTrue, MatchOption, length, nat_le, option_map};
ghost use Rattle.std.specs.Bool.{IsFalse, OnFalse};
ghost use Rattle.std.specs.List.Sorted.{IsStrictlyIncreasing};
ghost use Rattle.portmachines.specs.Mux.{same_mux_state};
ghost use Rattle.portmachines.specs.Transmit.{actor_state};
ghost use Rattle.portmachines.specs.declared.mux.MuxState.{MuxState};
ghost use Rattle.distributor.specs.Chains.{names_port};
ghost use Rattle.distributor.specs.Conversations.{count_conversations, next_identifier};
ghost use Rattle.lagsystem.specs.Forcing.{count_held_on};
ghost use Rattle.lagsystem.specs.Hosts.{conversation_at, would_transmit_at};
ghost use Rattle.lagsystem.specs.Offers.{has_aggregator};
ghost use Rattle.lagsystem.specs.PortStatus.{port_status_at};
ghost use Rattle.lagsystem.specs.Readers.{aggregator_numbered, conversation_count, conversation_in, distributing, group_at};
ghost use Rattle.lagsystem.specs.State.{port_numbers, port_index, machines_of};
ghost use Rattle.lagsystem.specs.Waiting.{ticks_until_due};
ghost use Rattle.dataplane.specs.Notes.{answers_number, note_of};
ghost use Rattle.lagffi.specs.Asking.{ReadsHeldSystem, ReadsNotes};
ghost use Rattle.lagffi.specs.Holding.{held_value};
ghost use Rattle.lagffi.specs.Lists.{port_list_length, put_first};
ghost use Rattle.lagffi.specs.Numbers.{number_refused, no_system, truth_refused, number, number_or_refused, wrong_buffer_length};
ghost use Rattle.lagffi.specs.Numbers.{truth_or_no_port};
ghost use Rattle.lagffi.specs.ReaderValues.{assignment_or_refused, choice_or_no_port, group_or_no_port, info_or_no_port, lag_marker};
ghost use Rattle.lagffi.specs.ReaderValues.{mux_state_or_no_port, assignment_refused, group_refused, info_refused, marker_refused};
ghost use Rattle.lagffi.specs.ReaderValues.{party_refused, state_or_no_port, party_or_no_port, receive_state_or_no_port};
ghost use Rattle.lagffi.specs.ReaderValues.{port_status_or_no_port, standby_or_no_port, lag_wait, wait_refused};

use crate::handle::Lag;
use crate::reader_values::{
    LagAssignment, LagGroup, LagInfo, LagMarker, LagParty, LagWait, choice_or_no_port,
    mux_state_or_no_port, port_status_or_no_port, receive_state_or_no_port, standby_or_no_port,
    state_or_no_port,
};
use crate::stored::by_number;
use crate::values::{
    FRAME_LENGTH_REFUSED, LagNumber, LagTruth, NO_PORT, NO_SYSTEM, PORT_LIST_LENGTH,
    WRONG_BUFFER_LENGTH, put_first,
};
use lagsystem::AggId;
use std::alloc::Global;

/// Takes the system out of a handle, asks it, and puts it back; refused in this type where the handle holds no system.
macro_rules! ask {
    ($alloc:ident, $lag:ident, $refused:ident, $system:ident, $block:ident => $answer:expr) => {{
        let Some(($system, $block)) = $lag.take($alloc, by_number) else {
            return $refused::refused(NO_SYSTEM);
        };
        let answer = $answer;
        $lag.put($system, $block);
        answer
    }};
}

// promise: a reader has the value of the system's own; 1 without the port, 3 for a frame below 14 octets, 9 without the conversation
// contract: `lagffi_is_up` and the others (`ReadsHeldSystem`), `lagffi_conversation`
/// Whether the link of a port is up.
/// Refuses: NIW_NO_SYSTEM, NIW_NO_PORT.
#[unsafe(no_mangle)]
pub extern "C" fn lagffi_is_up(alloc: Global, lag: &mut Lag, port: u16) -> LagTruth
    ensures { ReadsHeldSystem (held_value lag.old.held.kept) (held_value lag.new.held.kept)
        (λ s. result ≡ truth_or_no_port (option_map (λ p. p.enabled) (machines_of port s))) (result ≡ truth_refused no_system) }
{
    ask!(alloc, lag, LagTruth, system, block => LagTruth::of_port(system.is_up(port)))
}

/// Whether niw_transmit would return a frame now.
/// Refuses: NIW_NO_SYSTEM, NIW_NO_PORT.
#[unsafe(no_mangle)]
pub extern "C" fn lagffi_is_due(alloc: Global, lag: &mut Lag, port: u16) -> LagTruth
    ensures { ReadsHeldSystem (held_value lag.old.held.kept) (held_value lag.new.held.kept)
        (λ s. result ≡ truth_or_no_port (would_transmit_at port s)) (result ≡ truth_refused no_system) }
{
    ask!(alloc, lag, LagTruth, system, block => LagTruth::of_port(system.is_due(port)))
}

/// Actor_State.Defaulted: whether recordDefault set the recorded partner, and no LACPDU since.
/// Refuses: NIW_NO_SYSTEM, NIW_NO_PORT.
#[unsafe(no_mangle)]
pub extern "C" fn lagffi_defaulted(alloc: Global, lag: &mut Lag, port: u16) -> LagTruth
    ensures { ReadsHeldSystem (held_value lag.old.held.kept) (held_value lag.new.held.kept)
        (λ s. result ≡ truth_or_no_port (option_map (λ p. p.defaulted) (machines_of port s))) (result ≡ truth_refused no_system) }
{
    ask!(alloc, lag, LagTruth, system, block => LagTruth::of_port(system.defaulted(port)))
}

/// Whether a port distributes.
/// Refuses: NIW_NO_SYSTEM, NIW_NO_PORT.
#[unsafe(no_mangle)]
pub extern "C" fn lagffi_distributes(alloc: Global, lag: &mut Lag, port: u16) -> LagTruth
    ensures { ReadsHeldSystem (held_value lag.old.held.kept) (held_value lag.new.held.kept)
        (λ s. result ≡ truth_or_no_port (option_map (λ p. same_mux_state MuxState.CollectingDistributing p.mux) (machines_of port s)))
        (result ≡ truth_refused no_system) }
{
    ask!(alloc, lag, LagTruth, system, block => LagTruth::of_port(system.distributes(port)))
}

/// The state octet of a port's own side.
/// Refuses: NIW_NO_SYSTEM, NIW_NO_PORT.
#[unsafe(no_mangle)]
pub extern "C" fn lagffi_state(alloc: Global, lag: &mut Lag, port: u16) -> LagNumber
    ensures { ReadsHeldSystem (held_value lag.old.held.kept) (held_value lag.new.held.kept)
        (λ s. result ≡ state_or_no_port (option_map actor_state (machines_of port s))) (result ≡ number_refused no_system) }
{
    ask!(alloc, lag, LagNumber, system, block => state_or_no_port(system.state(port)))
}

/// The state of the receive machine of a port.
/// Refuses: NIW_NO_SYSTEM, NIW_NO_PORT.
#[unsafe(no_mangle)]
pub extern "C" fn lagffi_receive_state(alloc: Global, lag: &mut Lag, port: u16) -> LagNumber
    ensures { ReadsHeldSystem (held_value lag.old.held.kept) (held_value lag.new.held.kept)
        (λ s. result ≡ receive_state_or_no_port (option_map (λ p. p.receive) (machines_of port s))) (result ≡ number_refused no_system) }
{
    ask!(alloc, lag, LagNumber, system, block => receive_state_or_no_port(system.receive_state(port)))
}

/// The aggregator that a port is given, or 0. The port is SELECTED or STANDBY with it.
/// Refuses: NIW_NO_SYSTEM, NIW_NO_PORT.
#[unsafe(no_mangle)]
pub extern "C" fn lagffi_choice(alloc: Global, lag: &mut Lag, port: u16) -> LagNumber
    ensures { ReadsHeldSystem (held_value lag.old.held.kept) (held_value lag.new.held.kept)
        (λ s. result ≡ choice_or_no_port (option_map (λ p. p.choice) (machines_of port s))) (result ≡ number_refused no_system) }
{
    ask!(alloc, lag, LagNumber, system, block => choice_or_no_port(system.choice(port)))
}

/// Whether a port is STANDBY: its aggregator had no room for one more link.
/// Refuses: NIW_NO_SYSTEM, NIW_NO_PORT.
#[unsafe(no_mangle)]
pub extern "C" fn lagffi_is_standby(alloc: Global, lag: &mut Lag, port: u16) -> LagTruth
    ensures { ReadsHeldSystem (held_value lag.old.held.kept) (held_value lag.new.held.kept)
        (λ s. result ≡ standby_or_no_port (option_map (λ p. p.choice) (machines_of port s))) (result ≡ truth_refused no_system) }
{
    ask!(alloc, lag, LagTruth, system, block => standby_or_no_port(system.choice(port)))
}

/// The state of the mux machine of a port.
/// Refuses: NIW_NO_SYSTEM, NIW_NO_PORT.
#[unsafe(no_mangle)]
pub extern "C" fn lagffi_mux_state(alloc: Global, lag: &mut Lag, port: u16) -> LagNumber
    ensures { ReadsHeldSystem (held_value lag.old.held.kept) (held_value lag.new.held.kept)
        (λ s. result ≡ mux_state_or_no_port (option_map (λ p. p.mux) (machines_of port s))) (result ≡ number_refused no_system) }
{
    ask!(alloc, lag, LagNumber, system, block => mux_state_or_no_port(system.mux_state(port)))
}

/// Whether a port distributes, and else the first reason why not: NIW_PORT_STATUS_..
/// Refuses: NIW_NO_SYSTEM, NIW_NO_PORT.
#[unsafe(no_mangle)]
pub extern "C" fn lagffi_port_status(alloc: Global, lag: &mut Lag, port: u16) -> LagNumber
    ensures { ReadsHeldSystem (held_value lag.old.held.kept) (held_value lag.new.held.kept)
        (λ s. result ≡ port_status_or_no_port (port_status_at port s)) (result ≡ number_refused no_system) }
{
    ask!(alloc, lag, LagNumber, system, block => port_status_or_no_port(system.port_status(port)))
}

/// How many ticks current_while of a port has left, 0 to 900.
/// Refuses: NIW_NO_SYSTEM, NIW_NO_PORT.
#[unsafe(no_mangle)]
pub extern "C" fn lagffi_current_while(alloc: Global, lag: &mut Lag, port: u16) -> LagNumber
    ensures { ReadsHeldSystem (held_value lag.old.held.kept) (held_value lag.new.held.kept)
        (λ s. result ≡ number_or_refused 1 (option_map (λ p. p.current_while) (machines_of port s))) (result ≡ number_refused no_system) }
{
    ask!(alloc, lag, LagNumber, system, block => LagNumber::or(system.current_while(port), NO_PORT))
}

/// How many ticks wait_while of a port has left, 0 to 20.
/// Refuses: NIW_NO_SYSTEM, NIW_NO_PORT.
#[unsafe(no_mangle)]
pub extern "C" fn lagffi_wait_while(alloc: Global, lag: &mut Lag, port: u16) -> LagNumber
    ensures { ReadsHeldSystem (held_value lag.old.held.kept) (held_value lag.new.held.kept)
        (λ s. result ≡ number_or_refused 1 (option_map (λ p. p.wait_while) (machines_of port s))) (result ≡ number_refused no_system) }
{
    ask!(alloc, lag, LagNumber, system, block => LagNumber::octet_or_no_port(system.wait_while(port)))
}

/// Whether an LACPDU is to be sent on a port. It is not due yet where three went in the last eleven ticks; niw_is_due tells of markers
/// too.
/// Refuses: NIW_NO_SYSTEM, NIW_NO_PORT.
#[unsafe(no_mangle)]
pub extern "C" fn lagffi_ntt(alloc: Global, lag: &mut Lag, port: u16) -> LagTruth
    ensures { ReadsHeldSystem (held_value lag.old.held.kept) (held_value lag.new.held.kept)
        (λ s. result ≡ truth_or_no_port (option_map (λ p. p.ntt) (machines_of port s))) (result ≡ truth_refused no_system) }
{
    ask!(alloc, lag, LagTruth, system, block => LagTruth::of_port(system.ntt(port)))
}

/// The own parameters of a port.
/// Refuses: NIW_NO_SYSTEM, NIW_NO_PORT.
#[unsafe(no_mangle)]
pub extern "C" fn lagffi_party(alloc: Global, lag: &mut Lag, port: u16) -> LagParty
    ensures { ReadsHeldSystem (held_value lag.old.held.kept) (held_value lag.new.held.kept)
        (λ s. result ≡ party_or_no_port (option_map (λ p. p.party) (machines_of port s))) (result ≡ party_refused no_system) }
{
    ask!(alloc, lag, LagParty, system, block => LagParty::of(system.party(port)))
}

/// The recorded partner of a port.
/// Refuses: NIW_NO_SYSTEM, NIW_NO_PORT.
#[unsafe(no_mangle)]
pub extern "C" fn lagffi_partner(alloc: Global, lag: &mut Lag, port: u16) -> LagInfo
    ensures { ReadsHeldSystem (held_value lag.old.held.kept) (held_value lag.new.held.kept)
        (λ s. result ≡ info_or_no_port (option_map (λ p. p.partner) (machines_of port s))) (result ≡ info_refused no_system) }
{
    ask!(alloc, lag, LagInfo, system, block => LagInfo::of(system.partner(port)))
}

/// The Link Aggregation Group of a port.
/// Refuses: NIW_NO_SYSTEM, NIW_NO_PORT.
#[unsafe(no_mangle)]
pub extern "C" fn lagffi_group(alloc: Global, lag: &mut Lag, port: u16) -> LagGroup
    ensures { ReadsHeldSystem (held_value lag.old.held.kept) (held_value lag.new.held.kept)
        (λ s. result ≡ group_or_no_port (option_map group_at (machines_of port s))) (result ≡ group_refused no_system) }
{
    ask!(alloc, lag, LagGroup, system, block => LagGroup::of(system.group(port)))
}

/// How many conversations are on a port, those that are held among them.
/// Refuses: NIW_NO_SYSTEM, NIW_NO_PORT.
#[unsafe(no_mangle)]
pub extern "C" fn lagffi_load(alloc: Global, lag: &mut Lag, port: u16) -> LagNumber
    ensures { ReadsHeldSystem (held_value lag.old.held.kept) (held_value lag.new.held.kept)
        (λ s. MatchOption (port_index port s.system_ports) (result ≡ number_refused 1)
        (λ place. result ≡ number (count_conversations (names_port port) s.table))) (result ≡ number_refused no_system) }
{
    ask!(alloc, lag, LagNumber, system, block => LagNumber::of_count(&system.load(port)))
}

// promise: the notes on who answers markers are those of [answering](#answering)
// contract: `lagffi_answers` (`ReadsNotes`), `lagffi_receive` and its siblings (`NotesHeldSystem`)
/// Whether the peer of a port answers markers: NIW_ANSWERS_.. A marker that niw_transmit or niw_probe wrote asks it. A response that
/// niw_receive takes on the port answers, if it has the port, system and identifier of the last such marker. When the link goes down, and
/// after niw_restart, it is as never asked.
/// Refuses: NIW_NO_SYSTEM, NIW_NO_PORT.
#[unsafe(no_mangle)]
pub extern "C" fn lagffi_answers(alloc: Global, lag: &mut Lag, port: u16) -> LagNumber
    ensures { ReadsNotes (held_value lag.old.held.kept) (held_value lag.new.held.kept)
        (λ s notes. result ≡ number_or_refused 1 (option_map answers_number (note_of port s.system_ports notes)))
        (result ≡ number_refused no_system) }
{
    ask!(alloc, lag, LagNumber, system, block => LagNumber::note_or_no_port(block.kept().answering.of(&system, port)))
}

/// How many conversations are held on a port, wanted or flushing there; niw_load counts those that are on it, too. It says nothing
/// of niw_hold, which keeps a port out.
/// Refuses: NIW_NO_SYSTEM, NIW_NO_PORT.
#[unsafe(no_mangle)]
pub extern "C" fn lagffi_held(alloc: Global, lag: &mut Lag, port: u16) -> LagNumber
    ensures { ReadsHeldSystem (held_value lag.old.held.kept) (held_value lag.new.held.kept)
        (λ s. MatchOption (port_index port s.system_ports) (result ≡ number_refused 1)
        (λ place. result ≡ number (count_held_on port s))) (result ≡ number_refused no_system) }
{
    ask!(alloc, lag, LagNumber, system, block => LagNumber::of_count(&system.held(port)))
}

/// How many aggregators there are. They are numbered from 1.
/// Refuses: NIW_NO_SYSTEM.
#[unsafe(no_mangle)]
pub extern "C" fn lagffi_aggregators(alloc: Global, lag: &mut Lag) -> LagNumber
    ensures { ReadsHeldSystem (held_value lag.old.held.kept) (held_value lag.new.held.kept)
        (λ s. result ≡ number (length s.keys)) (result ≡ number_refused no_system) }
{
    ask!(alloc, lag, LagNumber, system, block => LagNumber::answered(system.aggregators() as u64))
}

/// The number of the conversation of a frame, the same in every aggregator.
/// Refuses: NIW_NO_SYSTEM, NIW_FRAME_LENGTH.
#[unsafe(no_mangle)]
pub extern "C" fn lagffi_conversation(alloc: Global, lag: &mut Lag, frame: &[u8]) -> LagNumber
    ensures { ReadsHeldSystem (held_value lag.old.held.kept) (held_value lag.new.held.kept)
        (λ s. (result ≡ number_or_refused 3 (conversation_in s frame.now))
        × IfSome (conversation_in s frame.now) (λ conv. conv < conversation_count s))
        (result ≡ number_refused no_system) }
{
    ask!(alloc, lag, LagNumber, system, block => LagNumber::or(system.conversation(frame), FRAME_LENGTH_REFUSED))
}

/// What a conversation of an aggregator is doing.
/// Refuses: NIW_NO_SYSTEM, NIW_NOT_ASSIGNED.
#[unsafe(no_mangle)]
pub extern "C" fn lagffi_conversation_state(
    alloc: Global,
    lag: &mut Lag,
    agg: u16,
    conv: u16,
) -> LagAssignment
    ensures { ReadsHeldSystem (held_value lag.old.held.kept) (held_value lag.new.held.kept)
        (λ s. result ≡ assignment_or_refused (conversation_at s (aggregator_numbered agg) conv)) (result ≡ assignment_refused no_system) }
{
    ask!(alloc, lag, LagAssignment, system, block => LagAssignment::of(system.conversation_state(AggId(agg), conv)))
}

/// The identifier of the next marker.
/// Refuses: NIW_NO_SYSTEM.
#[unsafe(no_mangle)]
pub extern "C" fn lagffi_next_marker(alloc: Global, lag: &mut Lag) -> LagMarker
    ensures { ReadsHeldSystem (held_value lag.old.held.kept) (held_value lag.new.held.kept)
        (λ s. result ≡ lag_marker (next_identifier s.table)) (result ≡ marker_refused no_system) }
{
    ask!(alloc, lag, LagMarker, system, block => LagMarker::of(system.next_marker()))
}

/// In how many ticks something happens by itself: 0 if a frame is due on some port. Until then a tick only counts: a program may
/// sleep, and make the ticks up by niw_ticks before it hands over a frame or makes another call. `ever` is false if nothing happens
/// without another call.
/// Refuses: NIW_NO_SYSTEM.
#[unsafe(no_mangle)]
pub extern "C" fn lagffi_ticks_until_due(alloc: Global, lag: &mut Lag) -> LagWait
    ensures { ReadsHeldSystem (held_value lag.old.held.kept) (held_value lag.new.held.kept)
        (λ s. result ≡ lag_wait (ticks_until_due s)) (result ≡ wait_refused no_system) }
{
    ask!(alloc, lag, LagWait, system, block => LagWait::of(system.ticks_until_due()))
}

// promise: port numbers stand at the front, ascending; room for fewer than 64 is refused with 15
// contract: `lagffi_ports`, `lagffi_distributing` (`answers`, `room`)
/// How many ports there are. `numbers` has room for NIW_MOST_PORTS numbers or more, which `room` counts; those of the ports are written
/// at its front, ascending.
/// Refuses: NIW_BUFFER, NIW_NO_SYSTEM.
#[unsafe(no_mangle)]
pub extern "C" fn lagffi_ports(alloc: Global, lag: &mut Lag, buffer: &mut [u16]) -> LagNumber
    ensures room { IsFalse (nat_le port_list_length (length buffer.old)) → (result ≡ number_refused wrong_buffer_length)
        × (held_value lag.new.held.kept ≡ held_value lag.old.held.kept) × (buffer.new ≡ buffer.old) }
    ensures answers { IsTrue (nat_le port_list_length (length buffer.old))
        → ReadsHeldSystem (held_value lag.old.held.kept) (held_value lag.new.held.kept)
        (λ s. (result ≡ number (length (port_numbers s.system_ports))) × (buffer.new ≡ put_first (port_numbers s.system_ports) buffer.old)
        × IsStrictlyIncreasing (port_numbers s.system_ports))
        ((result ≡ number_refused no_system) × (buffer.new ≡ buffer.old)) }
{
    if buffer.len() < PORT_LIST_LENGTH {
        return LagNumber::refused(WRONG_BUFFER_LENGTH);
    }
    let Some((system, block)) = lag.take(alloc, by_number) else {
        return LagNumber::refused(NO_SYSTEM);
    };
    let answered = system.ports();
    lag.put(system, block);
    LagNumber::answered(put_first(&answered, buffer))
}

/// How many ports distribute in an aggregator; 0 if there is none. `numbers` has room for NIW_MOST_PORTS numbers or more;
/// those of the ports are written at its front, ascending.
/// Refuses: NIW_BUFFER, NIW_NO_SYSTEM.
#[unsafe(no_mangle)]
pub extern "C" fn lagffi_distributing(
    alloc: Global,
    lag: &mut Lag,
    agg: u16,
    buffer: &mut [u16],
) -> LagNumber
    ensures room { IsFalse (nat_le port_list_length (length buffer.old)) → (result ≡ number_refused wrong_buffer_length)
        × (held_value lag.new.held.kept ≡ held_value lag.old.held.kept) × (buffer.new ≡ buffer.old) }
    ensures answers { IsTrue (nat_le port_list_length (length buffer.old))
        → ReadsHeldSystem (held_value lag.old.held.kept) (held_value lag.new.held.kept)
        (λ s. (result ≡ number (length (distributing (aggregator_numbered agg) s.system_ports)))
        × (buffer.new ≡ put_first (distributing (aggregator_numbered agg) s.system_ports) buffer.old)
        × IsStrictlyIncreasing (distributing (aggregator_numbered agg) s.system_ports)
        × OnFalse (has_aggregator s (aggregator_numbered agg)) (distributing (aggregator_numbered agg) s.system_ports ≡ []))
        ((result ≡ number_refused no_system) × (buffer.new ≡ buffer.old)) }
{
    if buffer.len() < PORT_LIST_LENGTH {
        return LagNumber::refused(WRONG_BUFFER_LENGTH);
    }
    let Some((system, block)) = lag.take(alloc, by_number) else {
        return LagNumber::refused(NO_SYSTEM);
    };
    let answered = system.distributing(AggId(agg));
    lag.put(system, block);
    LagNumber::answered(put_first(&answered, buffer))
}
