ghost use Rattle.std.specs.Prelude.{◌≡◌, ◌+◌, if◌then◌else◌, true};
ghost use Rattle.std.specs.Bool.{OnTrue, OnFalse};
ghost use Rattle.portmachines.specs.Rows.{Fires, FiresIfEnabled, AtRest, RunsToRest};
ghost use Rattle.portmachines.specs.Receive.{
  receive_rows,
  lacpdu_rows,
  partner_not_synchronized,
  enter_expired,
  enter_defaulted,
  default_partner,
  update_selected,
  record_default,
  record_pdu,
  start_current_while,
  start_receive,
  partner_is_up_to_date,
  recorded_synchronization,
};
ghost use Rattle.portmachines.specs.RowsToFire.{receive_rows_to_fire};
ghost use Rattle.portmachines.specs.Calls.{current_while_with};

use crate::machines::Machines;
use lagtypes::{Choice, Party, State, StateBits};
use slowpdu::{Info, Lacpdu};

/// The states of the receive machine (6.4.12).
#[derive(Clone, Copy, Debug, PartialEq, Eq)]
pub enum ReceiveState {
    /// The port starts. The machine leaves this state within the call that enters it, so a caller never sees it.
    Initialize,
    /// The link is down.
    PortDisabled,
    /// current_while expired, or the link has just come up: an LACPDU is awaited for one more short timeout.
    Expired,
    /// No LACPDU came: the partner has the administrative default values.
    Defaulted,
    /// The partner has the values of the last LACPDU.
    Current,
}

/// Short_Timeout_Time, 3 s, in ticks (6.4.4).
const SHORT_TIMEOUT_TIME: u16 = 30;
/// Long_Timeout_Time, 90 s, in ticks (6.4.4).
const LONG_TIMEOUT_TIME: u16 = 900;

impl Machines {
    /// Fires a receive row that is enabled; returns false if none is.
    fn fire_receive(&mut self) -> bool
        ensures fired { OnTrue result (Fires receive_rows self.old self.new) }
        ensures rest { OnFalse result (AtRest receive_rows self.old) }
        ensures same { OnFalse result (self.new ≡ self.old) }
        ensures fewer { OnTrue result (receive_rows_to_fire self.new + 1 ≡ receive_rows_to_fire self.old) }
    {
        let expired = self.current_while == 0;
        match self.receive {
            ReceiveState::PortDisabled if self.enabled => self.enter_expired(),
            ReceiveState::PortDisabled => return false,
            ReceiveState::Initialize => self.enter_port_disabled(),
            _ if !self.enabled => self.enter_port_disabled(),
            ReceiveState::Expired if expired => self.enter_defaulted(),
            ReceiveState::Current if expired => self.enter_expired(),
            _ => return false,
        }
        true
    }

    /// Sets LACP_Timeout, and starts current_while with the long time where Long Timeout follows Short Timeout in CURRENT.
    pub(crate) fn set_timeout(&mut self, short: bool)
        ensures { self.new ≡ record self.old { short = short; current_while = current_while_with short self.old } }
    {
        if self.receive == ReceiveState::Current && self.short && !short {
            self.current_while = LONG_TIMEOUT_TIME;
        }
        self.short = short;
    }

    /// Fires receive rows until none is enabled.
    pub(crate) fn run_receive(&mut self)
        ensures { RunsToRest receive_rows self.old self.new }
    {
        while self.fire_receive() {}
    }

    /// The row to PORT_DISABLED.
    fn enter_port_disabled(&mut self)
        ensures { self.new ≡ partner_not_synchronized (record self.old { receive = ReceiveState.PortDisabled }) }
    {
        self.receive = ReceiveState::PortDisabled;
        self.partner.state = self.partner.state.with_synchronization(false);
    }

    /// The row to EXPIRED.
    fn enter_expired(&mut self)
        ensures { self.new ≡ enter_expired (record self.old { receive = ReceiveState.Expired }) }
    {
        self.receive = ReceiveState::Expired;
        self.partner.state = self
            .partner
            .state
            .with_synchronization(false)
            .with_timeout(true);
        self.current_while = SHORT_TIMEOUT_TIME;
        self.expired = true;
    }

    /// The row to DEFAULTED.
    fn enter_defaulted(&mut self)
        ensures { self.new ≡ enter_defaulted (record self.old { receive = ReceiveState.Defaulted }) }
    {
        self.receive = ReceiveState::Defaulted;
        self.update_selected(&default_partner().party());
        self.record_default();
        self.expired = false;
    }

    /// update_Selected and update_Default_Selected (6.4.9): Selected becomes UNSELECTED if these parameters differ from
    /// the partner's.
    fn update_selected(&mut self, party: &Party)
        ensures { self.new ≡ update_selected party.now self.old }
    {
        if !party.matches(&self.partner.party()) {
            self.choice = Choice::Unselected;
        }
    }

    /// recordDefault (6.4.9): the partner gets the administrative default values.
    fn record_default(&mut self)
        ensures { self.new ≡ record_default self.old }
    {
        self.partner = default_partner();
        self.defaulted = true;
    }

    /// Starts the receive machine (BEGIN).
    pub(crate) fn start_receive(&mut self)
        ensures { self.new ≡ start_receive self.old }
    {
        self.receive = ReceiveState::Initialize;
        self.choice = Choice::Unselected;
        self.record_default();
        self.expired = false;
    }

    /// Processes an LACPDU, if the link is up.
    pub(crate) fn process_lacpdu(&mut self, pdu: &Lacpdu)
        ensures { FiresIfEnabled (lacpdu_rows pdu.now) self.old self.new }
    {
        if !self.enabled {
            return;
        }
        match self.receive {
            ReceiveState::Expired | ReceiveState::Defaulted | ReceiveState::Current => {
                self.receive = ReceiveState::Current;
                self.update_selected(&pdu.actor.party());
                self.update_ntt(&pdu.partner);
                self.record_pdu(pdu);
                self.start_current_while();
            }
            ReceiveState::Initialize | ReceiveState::PortDisabled => {}
        }
    }

    /// update_NTT (6.4.9): sets NTT unless the partner's view of this port is up to date. The argument is
    /// the Partner information of the LACPDU.
    fn update_ntt(&mut self, pdu_partner: &Info)
        ensures { self.new ≡ record self.old { ntt = if partner_is_up_to_date pdu_partner.now self.old then self.old.ntt else true } }
    {
        if !self.is_up_to_date(pdu_partner) {
            self.ntt = true;
        }
    }

    /// Whether the partner's view of this port is up to date. The argument is the Partner information of the LACPDU.
    pub(crate) fn is_up_to_date(&self, pdu_partner: &Info) -> bool
        ensures { result ≡ partner_is_up_to_date pdu_partner.now self.now }
    {
        pdu_partner.party().matches(&self.party)
            && pdu_partner.state.is_active() == self.active
            && pdu_partner.state.is_short() == self.short
            && pdu_partner.state.is_synchronized() == self.mux.is_synchronized()
    }

    /// The partner's Synchronization that recordPDU records (6.4.9).
    pub(crate) fn recorded_synchronization(&self, pdu: &Lacpdu) -> bool
        ensures { result ≡ recorded_synchronization pdu.now self.now }
    {
        let maintained = pdu.actor.state.is_active()
            || (self.active && pdu.partner.state.is_active());
        let agreed = pdu.partner.party().matches(&self.party) || !pdu.actor.state.is_aggregatable();
        pdu.actor.state.is_synchronized() && maintained && agreed
    }

    /// recordPDU (6.4.9): the partner gets the values of the LACPDU.
    fn record_pdu(&mut self, pdu: &Lacpdu)
        ensures { self.new ≡ record_pdu pdu.now self.old }
    {
        let synchronized = self.recorded_synchronization(pdu);
        self.partner = pdu.actor;
        self.partner.state = pdu.actor.state.with_synchronization(synchronized);
        self.defaulted = false;
    }

    /// Starts current_while, with 3 s or 90 s by the port's own LACP_Timeout, and clears Actor_State.Expired.
    pub(crate) fn start_current_while(&mut self)
        ensures { self.new ≡ start_current_while self.old }
    {
        self.current_while = if self.short {
            SHORT_TIMEOUT_TIME
        } else {
            LONG_TIMEOUT_TIME
        };
        self.expired = false;
    }
}

/// The administrative default values of the partner: all zero, but the state is 0x08 (Synchronization) (profile).
pub(crate) fn default_partner() -> Info
    ensures { result ≡ default_partner }
{
    Info {
        state: State::from(StateBits {
            synchronization: true,
            ..StateBits::default()
        }),
        ..Info::default()
    }
}
