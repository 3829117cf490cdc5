ghost use Rattle.std.specs.Prelude.{◌≡◌, ◌≤◌, ◌+◌};
ghost use Rattle.std.specs.Bool.{OnTrue, OnFalse};
ghost use Rattle.portmachines.specs.Rows.{Fires, AtRest, FiresTimes};
ghost use Rattle.portmachines.specs.Mux.{mux_rows, start_mux, is_synchronized};
ghost use Rattle.portmachines.specs.RowsToFire.{mux_rows_to_fire};

use crate::machines::Machines;
use lagtypes::Choice;

/// The states of the mux machine under coupled control (6.4.15).
#[derive(Clone, Copy, Debug, PartialEq, Eq)]
pub enum MuxState {
    /// The port is in no aggregator.
    Detached,
    /// The port has chosen an aggregator. It waits for wait_while, and then for the other ports that wait for that
    /// aggregator (Ready).
    Waiting,
    /// The port is in its aggregator, but neither collects nor distributes.
    Attached,
    /// The port is in its aggregator, and both collects and distributes.
    CollectingDistributing,
}

/// Aggregate_Wait_Time, 2 s, in ticks (6.4.4).
const AGGREGATE_WAIT_TIME: u8 = 20;

impl MuxState {
    /// Actor_State.Synchronization in this state.
    pub(crate) fn is_synchronized(self) -> bool
        ensures { result ≡ is_synchronized self }
    {
        match self {
            MuxState::Attached | MuxState::CollectingDistributing => true,
            MuxState::Detached | MuxState::Waiting => false,
        }
    }
}

impl Machines {
    /// Fires the mux row that is enabled; returns false if none is.
    fn fire_mux(&mut self, ready: bool) -> bool
        ensures fired { OnTrue result (Fires (mux_rows ready) self.old self.new) }
        ensures rest { OnFalse result (AtRest (mux_rows ready) self.old) }
        ensures same { OnFalse result (self.new ≡ self.old) }
        ensures fewer { OnTrue result (mux_rows_to_fire ready self.new + 1 ≡ mux_rows_to_fire ready self.old) }
    {
        let synchronized = self.partner.state.is_synchronized();
        let next = match (self.mux, self.choice) {
            (MuxState::Detached, Choice::Selected(_) | Choice::Standby(_)) => MuxState::Waiting,
            (MuxState::Waiting, Choice::Selected(_)) if ready => MuxState::Attached,
            (MuxState::Waiting, Choice::Unselected)
            | (MuxState::Attached, Choice::Unselected | Choice::Standby(_)) => MuxState::Detached,
            (MuxState::Attached, Choice::Selected(_)) if synchronized => {
                MuxState::CollectingDistributing
            }
            (MuxState::CollectingDistributing, Choice::Unselected | Choice::Standby(_)) => {
                MuxState::Attached
            }
            (MuxState::CollectingDistributing, Choice::Selected(_)) if !synchronized => {
                MuxState::Attached
            }
            (MuxState::Detached, Choice::Unselected)
            | (MuxState::Waiting, Choice::Standby(_))
            | (
                MuxState::Waiting | MuxState::Attached | MuxState::CollectingDistributing,
                Choice::Selected(_),
            ) => return false,
        };
        match next {
            MuxState::Waiting => self.wait_while = AGGREGATE_WAIT_TIME,
            _ => self.ntt = true,
        }
        self.mux = next;
        true
    }

    /// Fires mux rows until none is enabled, and returns how many fired, at most 3.
    pub(crate) fn fire_mux_rows(&mut self, ready: bool) -> u8
        ensures fired { FiresTimes (mux_rows ready) result self.old self.new }
        ensures rest { AtRest (mux_rows ready) self.new }
        ensures few { result ≤ 3 }
    {
        let mut fired = 0;
        while self.fire_mux(ready) {
            fired += 1;
        }
        fired
    }

    /// Starts the mux machine (BEGIN).
    pub(crate) fn start_mux(&mut self)
        ensures { self.new ≡ start_mux self.old }
    {
        self.mux = MuxState::Detached;
        self.ntt = true;
    }
}
