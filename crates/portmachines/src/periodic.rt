ghost use Rattle.std.specs.Prelude.{◌≡◌, ◌+◌};
ghost use Rattle.std.specs.Bool.{OnTrue, OnFalse};
ghost use Rattle.portmachines.specs.Rows.{Fires, AtRest};
ghost use Rattle.portmachines.specs.Periodic.{periodic_rows, RunsPeriodic};
ghost use Rattle.portmachines.specs.RowsToFire.{periodic_rows_to_fire};

use crate::machines::Machines;

/// The states of the periodic machine (6.4.13).
#[derive(Clone, Copy, Debug, PartialEq, Eq)]
pub enum PeriodicState {
    /// No periodic LACPDUs, since the link is down or both ends are passive.
    NoPeriodic,
    /// A periodic LACPDU every second.
    Fast,
    /// A periodic LACPDU every 30 seconds.
    Slow,
    /// A periodic LACPDU is to be sent; the machine leaves this state at once.
    PeriodicTx,
}

/// Fast_Periodic_Time, 1 s, in ticks (6.4.4).
const FAST_PERIODIC_TIME: u16 = 10;
/// Slow_Periodic_Time, 30 s, in ticks (6.4.4).
const SLOW_PERIODIC_TIME: u16 = 300;

impl Machines {
    /// Fires the periodic row that is enabled; returns false if none is.
    fn fire_periodic(&mut self) -> bool
        ensures fired { OnTrue result (Fires periodic_rows self.old self.new) }
        ensures rest { OnFalse result (AtRest periodic_rows self.old) }
        ensures same { OnFalse result (self.new ≡ self.old) }
        ensures fewer { OnTrue result (periodic_rows_to_fire self.new + 1 ≡ periodic_rows_to_fire self.old) }
    {
        let silent = !self.enabled || (!self.active && !self.partner.state.is_active());
        let expired = self.periodic_timer == 0;
        let short = self.partner.state.is_short();
        let next = match self.periodic {
            PeriodicState::NoPeriodic if silent => return false,
            PeriodicState::NoPeriodic => PeriodicState::Fast,
            _ if silent => PeriodicState::NoPeriodic,
            PeriodicState::Fast if expired => PeriodicState::PeriodicTx,
            PeriodicState::Fast if !short => PeriodicState::Slow,
            PeriodicState::Slow if expired || short => PeriodicState::PeriodicTx,
            PeriodicState::PeriodicTx if short => PeriodicState::Fast,
            PeriodicState::PeriodicTx => PeriodicState::Slow,
            _ => return false,
        };
        match next {
            PeriodicState::NoPeriodic => {}
            PeriodicState::Fast => self.periodic_timer = FAST_PERIODIC_TIME,
            PeriodicState::Slow => self.periodic_timer = SLOW_PERIODIC_TIME,
            PeriodicState::PeriodicTx => self.ntt = true,
        }
        self.periodic = next;
        true
    }

    /// Fires periodic rows until none is enabled; then sets NTT to false if the state is NO_PERIODIC.
    pub(crate) fn run_periodic(&mut self)
        ensures { RunsPeriodic self.old self.new }
    {
        while self.fire_periodic() {}
        if self.periodic == PeriodicState::NoPeriodic {
            self.ntt = false;
        }
    }
}
