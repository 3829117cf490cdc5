ghost use Rattle.std.specs.Prelude.{◌≡◌, ◌≤◌, ◌==◌, if◌then◌else◌, Some, None, Bool, true};
ghost use Rattle.portmachines.specs.Rows.{AtRest, FiresTimes, OneEnabledAtMost, RunsToRest, FiresIfEnabled};
ghost use Rattle.portmachines.specs.Receive.{receive_rows, lacpdu_rows};
ghost use Rattle.portmachines.specs.Periodic.{RunsPeriodic, periodic_rows};
ghost use Rattle.portmachines.specs.Mux.{mux_rows, same_mux_state};
ghost use Rattle.portmachines.specs.Hearing.{HearsAgain};
ghost use Rattle.std.specs.Bool.{OnTrue, OnFalse};
ghost use Rattle.portmachines.specs.Transmit.{actor_state, count_down, is_due, pdu_of, after_sending};
ghost use Rattle.portmachines.specs.Start.{Starts, before_start};
ghost use Rattle.portmachines.specs.Calls.{ModeExpiresNone, OneEffect, with_mode};

use crate::machines::Machines;
use crate::mux::MuxState;
use crate::periodic::PeriodicState;
use crate::receive::{ReceiveState, default_partner};
use arrayvec::ArrayVec;
use lagtypes::{Choice, Party, State};
use slowpdu::{Info, Lacpdu};
use std::marker::Model;

/// The start values of a port (6.4.7).
#[derive(Clone, Copy, Debug, PartialEq, Eq)]
pub struct Setup {
    /// The operational parameters of the port's own side, the Actor.
    pub party: Party,
    /// LACP_Activity: false if the port is passive.
    pub active: bool,
    /// LACP_Timeout: true for Short Timeout, 3 s; false for Long Timeout, 90 s.
    pub short: bool,
}

/// One port: its receive, periodic, mux and transmit machines with their variables (6.4.12, 6.4.13, 6.4.15, 6.4.16).
/// After each call the receive machine is at rest: none of its rows is enabled (profile).
#[derive(Drop)]
pub struct Port {
    machines: Machines,
}

impl Model for Port {
    ghost use Rattle.portmachines.specs.Machines.{Machines};
    ghost use Rattle.portmachines.specs.Rows.{AtRest};
    ghost use Rattle.portmachines.specs.Receive.{receive_rows};

    ghost Value = { Machines };

    ghost view = { λ p. p.machines };

    ghost invariant = { λ p. AtRest receive_rows p.machines };
}

impl Port {
    // promise: `new` and `reinit` start the receive and mux machine; `reinit` leaves link, periodic machine and window
    // contract: `Port::new`, `reinit` (`Starts`)
    /// A port whose link is down and whose machines have started (BEGIN). NTT is true, as DETACHED sets it (6.4.12,
    /// 6.4.15).
    pub fn new(setup: Setup) -> Port
        ensures { Starts (before_start setup) result }
    {
        let mut machines = Machines {
            party: setup.party,
            active: setup.active,
            short: setup.short,
            enabled: false,
            receive: ReceiveState::Initialize,
            current_while: 0,
            partner: default_partner(),
            defaulted: true,
            expired: false,
            periodic: PeriodicState::NoPeriodic,
            periodic_timer: 0,
            mux: MuxState::Detached,
            wait_while: 0,
            choice: Choice::Unselected,
            ntt: false,
            ages: ArrayVec::new(),
        };
        machines.start();
        Port { machines }
    }

    // promise: `set_link`, and `tick` after its countdown, fire the enabled receive rows until none is enabled
    // contract: `Port::set_link`, `tick` (`receive_rows`)
    /// Sets port_enabled: the link is up or down now. The receive machine runs until none of its rows is enabled
    /// (6.4.7, 6.4.12).
    pub fn set_link(&mut self, enabled: bool)
        ensures { RunsToRest receive_rows (record self.old { enabled = enabled }) self.new }
    {
        self.machines.enabled = enabled;
        self.machines.run_receive();
    }

    // promise: `take` fires the row for an LACPDU; nothing changes while the link is down
    // contract: `Port::take` (`lacpdu_rows`)
    /// Processes an LACPDU that came on the port; while the link is down this has no effect (6.4.12).
    pub fn take(&mut self, pdu: &Lacpdu)
        ensures { FiresIfEnabled (lacpdu_rows pdu.now) self.old self.new }
    {
        self.machines.process_lacpdu(pdu);
    }

    /// Processes an LACPDU as `take` does, if the port distributes and the LACPDU says what is recorded: then current_while starts, and
    /// `mux` would find nothing to do. Else false, and nothing changes. The contract says only what true means (6.4.12).
    pub fn hear_again(&mut self, pdu: &Lacpdu) -> bool
        ensures heard { OnTrue result (HearsAgain pdu.now self.old self.new) }
        ensures other { OnFalse result (self.new ≡ self.old) }
    {
        self.machines.hear_again(pdu)
    }

    /// One tick, 100 ms: each timer counts down, each LACPDU sent becomes one tick older, and the receive machine
    /// changes its state if current_while expired (6.4.10, 6.4.12, 6.4.16).
    pub fn tick(&mut self)
        ensures { RunsToRest receive_rows (count_down self.old) self.new }
    {
        self.machines.count_down();
        self.machines.run_receive();
    }

    // promise: `mux` and `periodic` fire the enabled rows of their machine and leave it at rest; `mux` returns how many fired, at most
    //    three
    // contract: `Port::mux` (`fired`, `rest`, `few`: `mux_rows`), `Port::periodic` (`RunsPeriodic`)
    // promise: a STANDBY port is in WAITING after `mux`, whatever Ready is
    // contract: `Port::mux` (`fired`, `rest`)
    /// Runs the mux machine until none of its rows is enabled, and returns how many fired, at most 3 (6.4.15). `ready`
    /// is the Ready of the aggregator that the port was given (6.4.8).
    pub fn mux(&mut self, ready: bool) -> u8
        ensures fired { FiresTimes (mux_rows ready) result self.old self.new }
        ensures rest { AtRest (mux_rows ready) self.new }
        ensures few { result ≤ 3 }
    {
        self.machines.fire_mux_rows(ready)
    }

    /// Runs the periodic machine until none of its rows is enabled, then sets NTT to false if its state is NO_PERIODIC
    /// (6.4.13).
    pub fn periodic(&mut self)
        ensures { RunsPeriodic self.old self.new }
    {
        self.machines.run_periodic();
    }

    // promise: `select` writes Selected, `set_mode` activity, timeout, NTT, and current_while where Long Timeout follows Short Timeout in
    //    CURRENT; nothing else
    // contract: `Port::select`, `set_mode`
    // promise: the receive machine is at rest between calls
    // contract: the invariant of `Port`
    /// Sets Selected, with the aggregator that the Selection Logic chose (6.4.8, 6.4.14).
    pub fn select(&mut self, choice: Choice)
        ensures { self.new ≡ record self.old { choice = choice } }
    {
        self.machines.choice = choice;
    }

    /// Starts the receive and mux machines again (BEGIN), with these parameters. The link, the periodic machine and the
    /// LACPDUs already sent stay (profile).
    pub fn reinit(&mut self, party: Party)
        ensures { Starts (record self.old { party = party }) self.new }
    {
        self.machines.party = party;
        self.machines.start();
    }

    /// Sets LACP_Activity, false for a passive port, and LACP_Timeout, true for Short Timeout. NTT becomes true if one of them
    /// was another. In CURRENT current_while starts with 900 ticks if Long Timeout follows Short Timeout: the partner, which is
    /// told it only now, may send the next LACPDU a slow period later. Else it goes on, and starts with the other time at the
    /// next LACPDU. Nothing else changes (6.4.2.3, 6.4.7, 6.4.12; profile).
    pub fn set_mode(&mut self, active: bool, short: bool)
        ensures { self.new ≡ with_mode active short self.old }
    {
        if self.machines.active != active || self.machines.short != short {
            self.machines.ntt = true;
        }
        self.machines.active = active;
        self.machines.set_timeout(short);
    }

    // promise: an LACPDU is sent exactly if NTT is set and fewer than three ages are kept; it has the port's party and state, the recorded
    //    partner and the given CollectorMaxDelay
    // contract: `Port::transmit` (`pdu`, `state`)
    /// Returns an LACPDU if NTT is true and fewer than three were sent in the last eleven ticks, and sets NTT to false;
    /// else None. `max_delay` is its CollectorMaxDelay, in tens of microseconds (6.4.16).
    pub fn transmit(&mut self, max_delay: u16) -> Option<Lacpdu>
        ensures pdu { result ≡ (if is_due self.old then Some (pdu_of self.old max_delay) else None) }
        ensures state { self.new ≡ (if is_due self.old then after_sending self.old else self.old) }
    {
        self.machines.transmit_due(max_delay)
    }

    /// The operational parameters of the port's own side, the Actor (6.4.7).
    pub fn party(&self) -> Party
        ensures { result ≡ self.now.party }
    {
        self.machines.party
    }

    /// The operational parameters of the Partner, as recorded (6.4.7).
    pub fn partner(&self) -> Info
        ensures { result ≡ self.now.partner }
    {
        self.machines.partner
    }

    /// Actor_State: the state octet of the port's own side (6.4.2.3).
    pub fn state(&self) -> State
        ensures { result ≡ actor_state self.now }
    {
        self.machines.state()
    }

    /// port_enabled: whether the link is up (6.4.7).
    pub fn is_enabled(&self) -> bool
        ensures { result ≡ self.now.enabled }
    {
        self.machines.enabled
    }

    /// Actor_State.Defaulted: whether recordDefault set the partner, and no LACPDU since (6.4.2.3).
    pub fn is_defaulted(&self) -> bool
        ensures { result ≡ self.now.defaulted }
    {
        self.machines.defaulted
    }

    /// LACP_Activity: false if the port is passive (6.4.2.3).
    pub fn is_active(&self) -> bool
        ensures { result ≡ self.now.active }
    {
        self.machines.active
    }

    /// LACP_Timeout: true for Short Timeout (6.4.2.3).
    pub fn is_short(&self) -> bool
        ensures { result ≡ self.now.short }
    {
        self.machines.short
    }

    /// The state of the receive machine (6.4.12).
    pub fn receive_state(&self) -> ReceiveState
        ensures { result ≡ self.now.receive }
    {
        self.machines.receive
    }

    /// The state of the periodic machine (6.4.13).
    pub fn periodic_state(&self) -> PeriodicState
        ensures { result ≡ self.now.periodic }
    {
        self.machines.periodic
    }

    /// The state of the mux machine (6.4.15).
    pub fn mux_state(&self) -> MuxState
        ensures { result ≡ self.now.mux }
    {
        self.machines.mux
    }

    /// Whether the port distributes: its mux machine is in COLLECTING_DISTRIBUTING (6.4.15).
    pub fn distributes(&self) -> bool
        ensures { result ≡ same_mux_state MuxState.CollectingDistributing self.now.mux }
    {
        self.machines.mux == MuxState::CollectingDistributing
    }

    /// Selected, with the aggregator that the Selection Logic chose last (6.4.8).
    pub fn choice(&self) -> Choice
        ensures { result ≡ self.now.choice }
    {
        self.machines.choice
    }

    /// NTT: whether an LACPDU is to be sent (6.4.7).
    pub fn ntt(&self) -> bool
        ensures { result ≡ self.now.ntt }
    {
        self.machines.ntt
    }

    /// How many ticks current_while has left, 0 to 900 (6.4.10).
    pub fn current_while(&self) -> u16
        ensures { result ≡ self.now.current_while }
    {
        self.machines.current_while
    }

    /// How many ticks periodic_timer has left, 0 to 300 (6.4.10).
    pub fn periodic_timer(&self) -> u16
        ensures { result ≡ self.now.periodic_timer }
    {
        self.machines.periodic_timer
    }

    /// How many ticks wait_while has left, 0 to 20 (6.4.10).
    pub fn wait_while(&self) -> u8
        ensures { result ≡ self.now.wait_while }
    {
        self.machines.wait_while
    }

    /// Whether wait_while has expired: it has no ticks left (6.4.10).
    pub fn has_waited(&self) -> bool
        ensures { result ≡ (self.now.wait_while == 0) }
    {
        self.machines.wait_while == 0
    }

    /// How many ticks ago each LACPDU of the last eleven ticks was sent, 0 to 10, the oldest first; at most three
    /// (6.4.16).
    pub fn ages(&self) -> ArrayVec<u8, 3>
        ensures { result.items ≡ self.now.ages }
    {
        self.machines.window_ages()
    }
}

// promise: a call has one effect on such a port
// contract: `each_call_has_one_effect`
/// The machines are deterministic: each call of a port has exactly one effect (profile).
pub fn each_call_has_one_effect()
    ensures { OneEffect }
{}

// promise: no two rows of a machine are enabled together: mux for either Ready, periodic with its rows in order, receive while the link is
//    up
// contract: `one_row_is_enabled_at_most` (`mux`, `periodic`, `receive`)
// not said: receive rows while the link is down; the row for an LACPDU
/// No two rows of a machine are enabled together: of the mux machine with either value of Ready, of the periodic machine
/// with its rows in order, and, where the link is up, of the receive machine (6.4.12, 6.4.13, 6.4.15; profile).
pub fn one_row_is_enabled_at_most()
    ensures mux { (ready : Bool) → OneEnabledAtMost (λ p. true) (mux_rows ready) }
    ensures periodic { OneEnabledAtMost (λ p. true) periodic_rows }
    ensures receive { OneEnabledAtMost (λ p. p.enabled) receive_rows }
{}

// promise: no port expires for another LACP_Timeout: current_while has no fewer ticks, and 900 where Long Timeout follows Short Timeout in
//    CURRENT
// contract: `a_mode_expires_no_port` (`ModeExpiresNone`)
/// No port expires because another LACP_Timeout is set: one in CURRENT that turns to Long Timeout stays there for 899 ticks without
/// an LACPDU (6.4.12; profile).
pub fn a_mode_expires_no_port()
    ensures { ModeExpiresNone }
{}
