ghost use Rattle.std.specs.Prelude.{◌≡◌, List};
ghost use Rattle.findings.specs.declared.recent.Heard.{Heard};
ghost use Rattle.findings.specs.Firsts.{shown_heard};
ghost use Rattle.findings.specs.Holds.{is_current, is_fresh, is_passive, is_individual, is_named_system, is_sibling_of, names_partner_of};
ghost use Rattle.findings.specs.Holds.{is_split, names_own_system, parts_from};
ghost use Rattle.findings.specs.Holds.{has_other_system, has_other_port, has_other_key, has_other_keys, has_rival, has_third, names_as};

use crate::finding::Shown;
use crate::others::{Other, may_aggregate, mixes_keys};
use crate::recent::{Heard, LONG_TIMEOUT, is_ordered};

impl Heard {
    /// The number and the time of this LACPDU, and the end whose latest LACPDU on the interface has its sender as Partner; None
    /// where there is none.
    pub(crate) fn shown(&self) -> Shown
        ensures { result ≡ shown_heard self.now }
    {
        Shown {
            number: self.number,
            nanoseconds: self.nanoseconds,
            partner: match self.others.answer {
                Some(answer) => Some(answer.end),
                None => None,
            },
        }
    }

    /// Whether the sender's information of its partner is current.
    pub(crate) fn is_current(&self) -> bool
        ensures { result ≡ is_current self.now }
    {
        !self.is_unheard()
    }

    /// Whether the LACPDU of another end came at most a Long Timeout before.
    fn is_fresh(&self, other: &Other) -> bool
        ensures { result ≡ is_fresh self.now other.now }
    {
        is_ordered(other.nanoseconds, self.nanoseconds)
            && self.nanoseconds.saturating_sub(other.nanoseconds) <= LONG_TIMEOUT
    }

    /// Whether the other end's system is the Partner's.
    fn is_named_system(&self, other: &Other) -> bool
        ensures { result ≡ is_named_system self.now other.now }
    {
        self.pdu.partner.system == other.pdu.actor.system
    }

    /// Whether another system answers than the Partner's.
    pub(crate) fn has_other_system(&self) -> bool
        ensures { result ≡ has_other_system self.now }
    {
        match self.others.answer {
            Some(answer) => {
                self.is_current() && self.is_fresh(&answer) && !self.is_named_system(&answer)
            }
            None => false,
        }
    }

    /// Whether another port answers of the Partner's system.
    pub(crate) fn has_other_port(&self) -> bool
        ensures { result ≡ has_other_port self.now }
    {
        match self.others.answer {
            Some(answer) => {
                self.is_current()
                    && self.is_fresh(&answer)
                    && self.is_named_system(&answer)
                    && self.pdu.partner.port != answer.pdu.actor.port
            }
            None => false,
        }
    }

    /// Whether the Partner's port answers with another key.
    pub(crate) fn has_other_key(&self) -> bool
        ensures { result ≡ has_other_key self.now }
    {
        match self.others.answer {
            Some(answer) => {
                self.is_current()
                    && self.is_fresh(&answer)
                    && self.is_named_system(&answer)
                    && self.pdu.partner.port == answer.pdu.actor.port
                    && self.pdu.partner.key != answer.pdu.actor.key
            }
            None => false,
        }
    }

    /// Whether the other LACPDU is of the same pair of systems.
    fn is_sibling_of(&self, other: &Other) -> bool
        ensures { result ≡ is_sibling_of self.now other.now }
    {
        self.pdu.actor.system == other.pdu.actor.system
            && self.pdu.partner.system == other.pdu.partner.system
    }

    /// Whether another link of the same pair of systems has one of the two keys and not the other.
    pub(crate) fn has_other_keys(&self) -> bool
        ensures { result ≡ has_other_keys self.now }
    {
        match self.others.sibling {
            Some(sibling) => {
                self.is_current()
                    && self.is_fresh(&sibling)
                    && self.is_sibling_of(&sibling)
                    && mixes_keys(&self.pdu, &sibling.pdu)
            }
            None => false,
        }
    }

    /// Whether the other LACPDU has the same Partner.
    fn names_partner_of(&self, other: &Other) -> bool
        ensures { result ≡ names_partner_of self.now other.now }
    {
        self.pdu.partner.system == other.pdu.partner.system
            && self.pdu.partner.port == other.pdu.partner.port
    }

    /// Whether another end has named the same Partner.
    pub(crate) fn has_rival(&self) -> bool
        ensures { (l : List Heard) → result ≡ has_rival self.now l }
    {
        match self.others.rival {
            Some(rival) => {
                self.is_current() && self.names_partner_of(&rival) && self.is_fresh(&rival)
            }
            None => false,
        }
    }

    /// Whether the Partner's system and a third one speak on the link.
    pub(crate) fn has_third(&self) -> bool
        ensures { result ≡ has_third self.now }
    {
        match (self.others.named, self.others.third) {
            (Some(named), Some(third)) => {
                self.is_current()
                    && self.is_fresh(&named)
                    && self.is_named_system(&named)
                    && self.is_fresh(&third)
                    && !self.is_named_system(&third)
            }
            _ => false,
        }
    }

    /// Whether the other LACPDU has the same system and key, and another Partner's system.
    fn parts_from(&self, other: &Other) -> bool
        ensures { result ≡ parts_from self.now other.now }
    {
        self.pdu.actor.system == other.pdu.actor.system
            && self.pdu.actor.key == other.pdu.actor.key
            && self.pdu.partner.system != other.pdu.partner.system
    }

    /// Whether another port that may be aggregated with the sender's names another system.
    pub(crate) fn is_split(&self) -> bool
        ensures { result ≡ is_split self.now }
    {
        match self.others.fellow {
            Some(fellow) => {
                may_aggregate(&self.pdu)
                    && self.is_fresh(&fellow)
                    && self.parts_from(&fellow)
                    && may_aggregate(&fellow.pdu)
            }
            None => false,
        }
    }

    /// Whether the other LACPDU, of the same end, names the same partner.
    pub(crate) fn names_as(&self, other: &Heard) -> bool
        ensures { result ≡ names_as self.now other.now }
    {
        self.pdu.partner.system == other.pdu.partner.system
            && self.pdu.partner.port == other.pdu.partner.port
    }

    /// Whether both ends are passive.
    pub(crate) fn is_passive(&self) -> bool
        ensures { (l : List Heard) → result ≡ is_passive self.now l }
    {
        let actor = self.pdu.actor.state;
        !actor.is_active() && !self.pdu.partner.state.is_active() && !actor.is_defaulted()
    }

    /// Whether the Partner's system is the sender's own.
    pub(crate) fn names_own_system(&self) -> bool
        ensures { (l : List Heard) → result ≡ names_own_system self.now l }
    {
        self.is_current() && self.pdu.partner.system == self.pdu.actor.system
    }

    /// Whether the sender alone is Individual.
    pub(crate) fn is_individual(&self) -> bool
        ensures { (l : List Heard) → result ≡ is_individual self.now l }
    {
        let actor = self.pdu.actor.state;
        !actor.is_aggregatable()
            && self.pdu.partner.state.is_aggregatable()
            && !actor.is_defaulted()
    }
}
