ghost use Rattle.std.specs.Prelude.{◌≡◌};
ghost use Rattle.std.specs.Bool.{OnTrue, OnFalse};
ghost use Rattle.portmachines.specs.Hearing.{DistributesAtRest, HearsAgain, SaysWhatIsRecorded};

use crate::machines::Machines;
use crate::mux::MuxState;
use crate::receive::ReceiveState;
use lagtypes::Choice;
use slowpdu::Lacpdu;

impl Machines {
    /// Whether the port distributes, and its partner is known and in Synchronization. The contract says only what true means.
    fn distributes_at_rest(&self) -> bool
        ensures { OnTrue result (DistributesAtRest self.now) }
    {
        match (self.receive, self.mux, self.choice) {
            (ReceiveState::Current, MuxState::CollectingDistributing, Choice::Selected(_)) => {
                self.enabled && !self.defaulted && self.partner.state.is_synchronized()
            }
            _ => false,
        }
    }

    /// Whether an LACPDU says what is recorded. The contract says only what true means.
    fn says_what_is_recorded(&self, pdu: &Lacpdu) -> bool
        ensures { OnTrue result (SaysWhatIsRecorded pdu.now self.now) }
    {
        pdu.actor.party().matches(&self.partner.party())
            && self.is_up_to_date(&pdu.partner)
            && self.recorded_synchronization(pdu)
            && pdu.actor.state.with_synchronization(true) == self.partner.state
    }

    /// As `Port::hear_again`.
    pub(crate) fn hear_again(&mut self, pdu: &Lacpdu) -> bool
        ensures heard { OnTrue result (HearsAgain pdu.now self.old self.new) }
        ensures other { OnFalse result (self.new ≡ self.old) }
    {
        if !self.distributes_at_rest() || !self.says_what_is_recorded(pdu) {
            return false;
        }
        self.start_current_while();
        true
    }
}
