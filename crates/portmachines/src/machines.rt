ghost use Rattle.std.specs.Prelude.{◌≡◌};
ghost use Rattle.portmachines.specs.Transmit.{actor_of, actor_state, count_down};
ghost use Rattle.portmachines.specs.Start.{Starts};

use crate::mux::MuxState;
use crate::periodic::PeriodicState;
use crate::receive::ReceiveState;
use crate::transmit::age_window;
use arrayvec::ArrayVec;
use lagtypes::{Choice, Party, State, StateBits};
use slowpdu::Info;
use std::marker::Model;

/// The variables of the four machines of one port (6.4.7, 6.4.8, 6.4.10). A timer holds the ticks of 100 ms that it has
/// left; at 0 it has expired.
#[derive(Drop)]
pub(crate) struct Machines {
    /// The operational parameters of the port's own side, the Actor.
    pub(crate) party: Party,
    /// LACP_Activity: false if the port is passive.
    pub(crate) active: bool,
    /// LACP_Timeout: true for Short Timeout, 3 s; false for Long Timeout, 90 s.
    pub(crate) short: bool,
    /// port_enabled: whether the link is up.
    pub(crate) enabled: bool,
    pub(crate) receive: ReceiveState,
    /// Ticks until the partner's information times out, 0 to 900.
    pub(crate) current_while: u16,
    /// The operational parameters of the Partner, as recorded.
    pub(crate) partner: Info,
    /// Actor_State.Defaulted: whether recordDefault set the partner, and no LACPDU since.
    pub(crate) defaulted: bool,
    /// Actor_State.Expired: whether the receive machine is in EXPIRED.
    pub(crate) expired: bool,
    pub(crate) periodic: PeriodicState,
    /// Ticks until the next periodic LACPDU, 0 to 300.
    pub(crate) periodic_timer: u16,
    pub(crate) mux: MuxState,
    /// Ticks until the port may attach to its aggregator, 0 to 20.
    pub(crate) wait_while: u8,
    /// Selected, with the aggregator that the port was given.
    pub(crate) choice: Choice,
    /// NTT, Need To Transmit: an LACPDU is to be sent.
    pub(crate) ntt: bool,
    /// How many ticks ago each of the last LACPDUs was sent, 0 to 10, the oldest first.
    pub(crate) ages: ArrayVec<u8, 3>,
}

impl Model for Machines {
    ghost use Rattle.portmachines.specs.Machines.{Machines};

    ghost Value = { Machines };

    ghost view = { λ p. record {
      party = p.party;
      active = p.active;
      short = p.short;
      enabled = p.enabled;
      receive = p.receive;
      current_while = p.current_while;
      partner = p.partner;
      defaulted = p.defaulted;
      expired = p.expired;
      periodic = p.periodic;
      periodic_timer = p.periodic_timer;
      mux = p.mux;
      wait_while = p.wait_while;
      choice = p.choice;
      ntt = p.ntt;
      ages = p.ages.items;
    } };
}

impl Machines {
    /// Counts each timer down by one tick, unless it is 0, and makes each age one tick older.
    pub(crate) fn count_down(&mut self)
        ensures { self.new ≡ count_down self.old }
    {
        self.current_while = self.current_while.saturating_sub(1);
        self.periodic_timer = self.periodic_timer.saturating_sub(1);
        self.wait_while = self.wait_while.saturating_sub(1);
        age_window(&mut self.ages);
    }

    /// Starts the receive and mux machines (BEGIN).
    pub(crate) fn start(&mut self)
        ensures { Starts self.old self.new }
    {
        self.start_receive();
        self.run_receive();
        self.start_mux();
    }

    /// Actor_State: the state octet of the port's own side.
    pub(crate) fn state(&self) -> State
        ensures { result ≡ actor_state self.now }
    {
        let distributing = self.mux == MuxState::CollectingDistributing;
        State::from(StateBits {
            activity: self.active,
            timeout: self.short,
            aggregation: self.party.aggregatable,
            synchronization: self.mux.is_synchronized(),
            collecting: distributing,
            distributing,
            defaulted: self.defaulted,
            expired: self.expired,
        })
    }

    /// The Actor's information in an LACPDU of this port.
    pub(crate) fn actor(&self) -> Info
        ensures { result ≡ actor_of self.now }
    {
        Info {
            system: self.party.system,
            key: self.party.key,
            port: self.party.port,
            state: self.state(),
        }
    }
}
