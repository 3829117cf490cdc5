ghost use Rattle.std.specs.Prelude.{◌≡◌};
ghost use Rattle.lagtypes.specs.States.{bits_of};
ghost use Rattle.lagtypes.specs.declared.state.State.{State};
ghost use Rattle.dataplane.specs.Churn.{churn_row};
ghost use Rattle.dataplane.specs.Counting.{counts_after_receive, counts_after_send};
ghost use Rattle.lagffi.specs.Observing.{churn_number, churn_state, lag_machine, machine_of, received_told};

use crate::values::OK;
use bitflags::Flags;
use dataplane::{Churn, ChurnMachine, ChurnState, Counters};
use lagsystem::{AggId, Received, State, WireFault};

/// A churn detection machine: that of the Actor or that of the Partner of a port.
#[repr(C)]
#[derive(Clone, Copy)]
pub struct LagChurnMachine {
    /// 0 CHURN_MONITOR, 1 NO_CHURN, 2 CHURN.
    pub state: u32,
    /// For how many ticks its timer has run, 0 to 599.
    pub waited: u16,
    /// How often the state became CHURN.
    pub churns: u64,
    /// How often the state became NO_CHURN.
    pub synchronizations: u64,
}

impl LagChurnMachine {
    /// The machine as C reads it.
    fn of(machine: ChurnMachine) -> LagChurnMachine
        ensures { result ≡ lag_machine machine }
    {
        LagChurnMachine {
            state: churn_number(machine.state),
            waited: machine.waited,
            churns: machine.churns,
            synchronizations: machine.synchronizations,
        }
    }

    /// The machine with these numbers.
    fn machine(self) -> ChurnMachine
        ensures { result ≡ machine_of self }
    {
        ChurnMachine {
            state: churn_state(self.state),
            waited: self.waited,
            churns: self.churns,
            synchronizations: self.synchronizations,
        }
    }
}

/// The number of a state of a churn detection machine.
fn churn_number(state: ChurnState) -> u32
    ensures { result ≡ churn_number state }
{
    match state {
        ChurnState::Monitor => 0,
        ChurnState::NoChurn => 1,
        ChurnState::Churn => 2,
    }
}

/// The state of a churn detection machine with this number.
fn churn_state(number: u32) -> ChurnState
    ensures { result ≡ churn_state number }
{
    match number {
        1 => ChurnState::NoChurn,
        2 => ChurnState::Churn,
        _ => ChurnState::Monitor,
    }
}

/// Churn detection of a port: the machines of both ends.
#[repr(C)]
#[derive(Clone, Copy)]
pub struct LagChurn {
    /// The machine of the Actor.
    pub actor: LagChurnMachine,
    /// The machine of the Partner.
    pub partner: LagChurnMachine,
}

/// A tick of 100 ms for churn detection of a port (6.4.17), after niw_tick. `up`: whether its link is up. `actor_state` is its state
/// octet, `partner_state` that of its recorded partner, as in niw_view. `churn` is the program's own: zeros at first and after
/// niw_restart. At the 600th tick in a row that finds the link up and the Synchronization bit of an end 0, the state of this end becomes
/// NIW_CHURN_CHURN.
/// Refuses: nothing.
#[unsafe(no_mangle)]
pub extern "C" fn lagffi_churn_tick(
    churn: &mut LagChurn,
    up: bool,
    actor_state: u8,
    partner_state: u8,
) -> u32
    ensures status { result ≡ 0 }
    ensures actor { churn.new.actor ≡ lag_machine (churn_row up (bits_of (record { 0 = actor_state })).synchronization (machine_of churn.old.actor)) }
    ensures partner { churn.new.partner ≡ lag_machine (churn_row up (bits_of (record { 0 = partner_state })).synchronization (machine_of churn.old.partner)) }
{
    let mut machines = Churn {
        actor: churn.actor.machine(),
        partner: churn.partner.machine(),
    };
    machines.tick(
        up,
        State::from_bits_retain(actor_state).is_synchronized(),
        State::from_bits_retain(partner_state).is_synchronized(),
    );
    churn.actor = LagChurnMachine::of(machines.actor);
    churn.partner = LagChurnMachine::of(machines.partner);
    OK
}

/// What `niw_receive` answered, by its number, as far as the counters look at it.
fn received_told(what: u32) -> Received
    ensures { result ≡ received_told what }
{
    match what {
        1 => Received::Dropped,
        2 => Received::Ignored(WireFault::Short { have: 0 }),
        3 => Received::TookLacpdu,
        4 => Received::Respond([0; 124]),
        5 => Received::Released(0),
        6 => Received::Up(AggId(0)),
        _ => Received::Disabled,
    }
}

/// Counts a frame that came on a port (7.3.3) by `what` niw_receive answered, NIW_RECEIVED_..; its first 15 octets will do. `counters`
/// is the program's own: zeros at first. Adds one to one count, or to none: none for data, and for a link that is down.
/// Refuses: nothing.
#[unsafe(no_mangle)]
pub extern "C" fn lagffi_count_received(counters: &mut Counters, frame: &[u8], what: u32) -> u32
    ensures status { result ≡ 0 }
    ensures counts { counters.new ≡ counts_after_receive frame.now (received_told what) counters.old }
{
    counters.count_received(frame, &received_told(what));
    OK
}

/// Counts a frame that was sent on a port (7.3.3): one of niw_transmit or niw_probe, or a response of niw_receive. Any other adds nothing.
/// Refuses: nothing.
#[unsafe(no_mangle)]
pub extern "C" fn lagffi_count_sent(counters: &mut Counters, frame: &[u8]) -> u32
    ensures status { result ≡ 0 }
    ensures counts { counters.new ≡ counts_after_send frame.now counters.old }
{
    counters.count_sent(frame);
    OK
}
