//! Churn detection (6.4.17): whether a port is up, and its Actor or its Partner has not been synchronized for 60 s. It observes a
//! system, and changes nothing of it.
ghost use Rattle.std.specs.Prelude.{◌≡◌};
ghost use Rattle.dataplane.specs.Churn.{at_begin, churn_row, in_sync, monitoring, out_of_sync};

mod laws;

use crate::counting::one_more;
pub use laws::every_history_of_ticks;

/// Churn_Detection_Time: the ticks of 100 ms that a churn timer runs (6.4.4).
const CHURN_DETECTION_TICKS: u32 = 600;

/// The state of a churn detection machine (6.4.17).
#[derive(Clone, Copy, Debug, PartialEq, Eq)]
pub enum ChurnState {
    /// ACTOR_CHURN_MONITOR or PARTNER_CHURN_MONITOR: the timer runs.
    Monitor,
    /// NO_ACTOR_CHURN or NO_PARTNER_CHURN: the end is synchronized.
    NoChurn,
    /// ACTOR_CHURN or PARTNER_CHURN: the timer expired, and the end has not been synchronized since.
    Churn,
}

/// A churn detection machine: that of the Actor or that of the Partner of a port (6.4.17).
#[derive(Clone, Copy, Debug, PartialEq, Eq)]
pub struct ChurnMachine {
    /// Its state.
    pub state: ChurnState,
    /// For how many ticks its timer has run, 0 to 599; 0 in the other two states.
    pub waited: u16,
    /// How often the state became `Churn`: ActorChurnCount or PartnerChurnCount (7.3.4). It stays at 2^64 - 1.
    pub churns: u64,
    /// How often the state became `NoChurn`: ActorSyncTransitionCount or PartnerSyncTransitionCount (7.3.4). It stays at 2^64 - 1.
    pub synchronizations: u64,
}

impl ChurnMachine {
    /// BEGIN: in `Monitor`, whose timer starts, with nothing counted.
    pub fn at_begin() -> ChurnMachine
        ensures { result ≡ at_begin }
    {
        ChurnMachine {
            state: ChurnState::Monitor,
            waited: 0,
            churns: 0,
            synchronizations: 0,
        }
    }

    /// After a tick, by port_enabled and by the Synchronization bit of the end's state octet.
    pub fn after_tick(&self, enabled: bool, synchronized: bool) -> ChurnMachine
        ensures { result ≡ churn_row enabled synchronized self.now }
    {
        if !enabled {
            return ChurnMachine {
                state: ChurnState::Monitor,
                waited: 0,
                ..*self
            };
        }
        if synchronized {
            self.in_sync()
        } else {
            self.out_of_sync()
        }
    }

    /// Synchronization is true.
    fn in_sync(&self) -> ChurnMachine
        ensures { result ≡ in_sync self.now.state self.now }
    {
        match self.state {
            ChurnState::NoChurn => *self,
            ChurnState::Monitor | ChurnState::Churn => ChurnMachine {
                state: ChurnState::NoChurn,
                waited: 0,
                synchronizations: one_more(self.synchronizations),
                ..*self
            },
        }
    }

    /// Synchronization is false.
    fn out_of_sync(&self) -> ChurnMachine
        ensures { result ≡ out_of_sync self.now.state self.now }
    {
        match self.state {
            ChurnState::Monitor => self.monitoring(u32::from(self.waited) + 1),
            ChurnState::NoChurn => self.monitoring(1),
            ChurnState::Churn => *self,
        }
    }

    /// The timer has run for so many ticks.
    fn monitoring(&self, ticks: u32) -> ChurnMachine
        ensures { result ≡ monitoring ticks self.now }
    {
        if ticks < CHURN_DETECTION_TICKS {
            return ChurnMachine {
                state: ChurnState::Monitor,
                waited: ticks as u16,
                ..*self
            };
        }
        ChurnMachine {
            state: ChurnState::Churn,
            waited: 0,
            churns: one_more(self.churns),
            ..*self
        }
    }
}

// promise: a machine is in CHURN exactly if each of the last 600 ticks or more found the port up and the end out of sync, in NO_CHURN
//    exactly if the last one found it up and in sync; churns are counted
// contract: `Churn::tick` (`churn_row`), `every_history_of_ticks`
/// Churn detection of a port: the machine of the Actor and that of the Partner (6.4.17). It is the caller's own value beside a system.
#[derive(Clone, Copy, Debug, PartialEq, Eq)]
pub struct Churn {
    /// The machine of the Actor.
    pub actor: ChurnMachine,
    /// The machine of the Partner.
    pub partner: ChurnMachine,
}

impl Churn {
    /// BEGIN, of a system that was just made or restarted.
    pub fn at_begin() -> Churn
        ensures actor { result.actor ≡ at_begin }
        ensures partner { result.partner ≡ at_begin }
    {
        Churn {
            actor: ChurnMachine::at_begin(),
            partner: ChurnMachine::at_begin(),
        }
    }

    /// A tick of 100 ms, after the system's own: by port_enabled (`System::is_up`), and by the Synchronization bits of
    /// Actor_Oper_Port_State (`System::state`) and of Partner_Oper_Port_State (`System::partner`). At the 600th tick in a row that finds
    /// the port up and an end out of sync, the state of that end becomes `Churn`.
    pub fn tick(&mut self, enabled: bool, actor_synchronized: bool, partner_synchronized: bool)
        ensures actor { self.new.actor ≡ churn_row enabled actor_synchronized self.old.actor }
        ensures partner { self.new.partner ≡ churn_row enabled partner_synchronized self.old.partner }
    {
        self.actor = self.actor.after_tick(enabled, actor_synchronized);
        self.partner = self.partner.after_tick(enabled, partner_synchronized);
    }
}
