ghost use Rattle.std.specs.Prelude.{◌≡◌, ◌∷◌, List, unwrap_or, Some, None, if◌then◌else◌};
ghost use Rattle.findings.specs.declared.recent.Heard.{Heard};
ghost use Rattle.findings.specs.Holds.{and_if, hears_itself, is_alone, is_alone_short, is_one_way, is_ordered, is_over, is_attached, is_relapse, is_relapsing, is_unheard, is_discarded, is_periodic, is_rushed, is_late, is_silent, is_desynchronized, lasts, seconds, since, timeout, are_in_a_second, is_near, attaches, is_hasty, no_wait_at, is_split};
ghost use Rattle.findings.specs.Holds.{has_other_system, has_other_port, has_other_key, has_other_keys, has_third, twice};
ghost use Rattle.findings.specs.Firsts.{last_silent};
ghost use Rattle.findings.specs.KeptEnds.{recent_of};

use crate::finding::Shown;
use crate::others::Others;
use slowpdu::Lacpdu;

/// The nanoseconds in a second.
pub(crate) const SECOND: u64 = 1_000_000_000;

/// Short_Timeout_Time (6.4.4), in nanoseconds.
pub(crate) const SHORT_TIMEOUT: u64 = 3 * SECOND;

/// Long_Timeout_Time (6.4.4), in nanoseconds.
pub(crate) const LONG_TIMEOUT: u64 = 90 * SECOND;

/// How long an end may be without current information of its partner, in nanoseconds: the time in which a partner that
/// sends one LACPDU a second is not heard, and then is Expired.
const MOST_UNHEARD: u64 = 6 * SECOND;

/// How long an end may be ATTACHED before its partner is synchronized, in nanoseconds: Aggregate_Wait_Time of 2 seconds
/// (6.4.4), three times.
const MOST_ATTACHED: u64 = 6 * SECOND;

/// How long links of one system may lead to two systems, in nanoseconds: so long, links that move to another system may take.
const MOST_SPLIT: u64 = 6 * SECOND;

/// How long an end waits at least before it is synchronized, in nanoseconds: Aggregate_Wait_Time of 2 seconds, less the
/// tolerance of a timer, 0.25 seconds (6.4.4).
const LEAST_WAIT: u64 = 1_750_000_000;

/// How long an end may distribute before its partner collects, in nanoseconds.
const MOST_DISCARDED: u64 = 3 * SECOND;

/// An LACPDU of an end, and when it was captured.
#[derive(Clone, Copy, Debug, PartialEq, Eq)]
pub(crate) struct Heard {
    /// The number of the packet.
    pub(crate) number: u64,
    /// When it was captured, in nanoseconds.
    pub(crate) nanoseconds: u64,
    /// The LACPDU.
    pub(crate) pdu: Lacpdu,
    /// What was known then of other ends.
    pub(crate) others: Others,
}

/// The LACPDUs of an end that came last, as far as the next one is judged by them.
#[derive(Clone, Copy, Debug, Default, PartialEq, Eq)]
pub(crate) struct Recent {
    /// The latest one.
    pub(crate) last: Option<Heard>,
    /// The one before it.
    pub(crate) second: Option<Heard>,
    /// The one before that.
    pub(crate) third: Option<Heard>,
    /// When the end said first that it is Defaulted or Expired, if it has said so ever since; in nanoseconds.
    pub(crate) unheard_since: Option<u64>,
    /// When the end said first that it distributes and its partner does not collect, if it has said so ever since.
    pub(crate) discarded_since: Option<u64>,
    /// The first LACPDU's time, if none of another end has come on the interface behind it.
    pub(crate) alone_since: Option<u64>,
    /// Since when the end has asked for Short Timeout, if none of another end has come on the interface.
    pub(crate) alone_short_since: Option<u64>,
    /// When the end said first that it is ATTACHED and its partner is not synchronized, if it has said so ever since.
    pub(crate) attached_since: Option<u64>,
    /// When the end named first another system than the latest port of the same key, if it has done so ever since.
    pub(crate) split_since: Option<u64>,
    /// Whether the end became Defaulted or Expired behind current information.
    pub(crate) relapsed: bool,
    /// The time of the latest LACPDU at which the port can't have waited yet for the partner that it names last.
    pub(crate) no_wait: Option<u64>,
}

/// When a condition began to hold: `before` if that is known, else `now`; None if it does not hold.
fn since(is_so: bool, before: Option<u64>, now: u64) -> Option<u64>
    ensures { result ≡ (if is_so then Some (unwrap_or before now) else None) }
{
    if is_so {
        Some(before.unwrap_or(now))
    } else {
        None
    }
}

/// Whether the capture has both times, and the first is not later than the second.
pub(crate) fn is_ordered(first: u64, second: u64) -> bool
    ensures { result ≡ is_ordered first second }
{
    0 < first && first <= second
}

/// Whether this time is more than so many nanoseconds after that, if there is one.
pub(crate) fn is_over(most: u64, since: Option<u64>, now: u64) -> bool
    ensures { result ≡ and_if (λ t. is_over most t now) since }
{
    match since {
        Some(time) => is_ordered(time, now) && most < now.saturating_sub(time),
        None => false,
    }
}

/// Whether both times are there, and less than a second apart.
fn is_near(one: u64, other: u64) -> bool
    ensures { result ≡ is_near one other }
{
    one > 0 && other > 0 && one.abs_diff(other) < SECOND
}

/// Whether no two of these four LACPDUs are a second apart, or more.
fn are_in_a_second(now: &Heard, last: &Heard, second: &Heard, third: &Heard) -> bool
    ensures { result ≡ are_in_a_second now.now last.now second.now third.now }
{
    is_near(now.nanoseconds, last.nanoseconds)
        && is_near(now.nanoseconds, second.nanoseconds)
        && is_near(now.nanoseconds, third.nanoseconds)
        && is_near(last.nanoseconds, second.nanoseconds)
        && is_near(last.nanoseconds, third.nanoseconds)
        && is_near(second.nanoseconds, third.nanoseconds)
}

impl Heard {
    /// Whether the sender is Defaulted or Expired.
    pub(crate) fn is_unheard(&self) -> bool
        ensures { result ≡ is_unheard self.now }
    {
        let state = self.pdu.actor.state;
        state.is_defaulted() || state.is_expired()
    }

    /// Whether the sender distributes and its partner does not collect.
    fn is_discarded(&self) -> bool
        ensures { result ≡ is_discarded self.now }
    {
        self.pdu.actor.state.is_distributing() && !self.pdu.partner.state.is_collecting()
    }

    /// Whether the sender is ATTACHED and its partner is not synchronized.
    fn is_attached(&self) -> bool
        ensures { result ≡ is_attached self.now }
    {
        let actor = self.pdu.actor.state;
        self.is_current()
            && actor.is_synchronized()
            && !actor.is_collecting()
            && !self.pdu.partner.state.is_synchronized()
    }

    /// Whether the sender names its own system and port.
    fn hears_itself(&self) -> bool
        ensures { result ≡ hears_itself self.now }
    {
        self.pdu.partner.system == self.pdu.actor.system
            && self.pdu.partner.port == self.pdu.actor.port
    }

    /// Whether no LACPDU of another end has come on the interface, nor the sender's own.
    fn is_alone(&self) -> bool
        ensures { result ≡ is_alone self.now }
    {
        self.others.facing.is_none() && !self.hears_itself()
    }

    /// Whether no LACPDU of another end has come on the interface, and the sender asks for Short Timeout.
    fn is_alone_short(&self) -> bool
        ensures { result ≡ is_alone_short self.now }
    {
        self.is_alone() && self.pdu.actor.state.is_short()
    }

    /// Whether the sender sends LACPDUs periodically.
    fn is_periodic(&self) -> bool
        ensures { result ≡ is_periodic self.now }
    {
        self.pdu.actor.state.is_active() || self.pdu.partner.state.is_active()
    }

    /// The timeout that the partner asks for, in nanoseconds; the long one if the sender is Expired, behind which it is Defaulted.
    fn timeout(&self) -> u64
        ensures { result ≡ timeout self.now }
    {
        if self.pdu.partner.state.is_short() && !self.pdu.actor.state.is_expired() {
            SHORT_TIMEOUT
        } else {
            LONG_TIMEOUT
        }
    }

    /// Whether the next LACPDU should have come before this time, in nanoseconds.
    pub(crate) fn is_silent(&self, until: u64) -> bool
        ensures { result ≡ is_silent until self.now }
    {
        self.is_periodic() && is_over(self.timeout(), Some(self.nanoseconds), until)
    }
}

impl Recent {
    /// What comes last behind one more LACPDU.
    pub(crate) fn with(&self, now: &Heard) -> Recent
        ensures { (l : List Heard) → self.now ≡ recent_of l → result ≡ recent_of (now.now ∷ l) }
    {
        Recent {
            last: Some(*now),
            second: self.last,
            third: self.second,
            unheard_since: since(now.is_unheard(), self.unheard_since, now.nanoseconds),
            discarded_since: since(now.is_discarded(), self.discarded_since, now.nanoseconds),
            alone_since: since(now.is_alone(), self.alone_since, now.nanoseconds),
            alone_short_since: since(
                now.is_alone_short(),
                self.alone_short_since,
                now.nanoseconds,
            ),
            attached_since: since(now.is_attached(), self.attached_since, now.nanoseconds),
            split_since: since(now.is_split(), self.split_since, now.nanoseconds),
            relapsed: self.is_relapse(now) || self.relapsed,
            no_wait: if now.pdu.actor.state.is_synchronized() {
                Some(now.nanoseconds)
            } else {
                self.no_wait_at(now)
            },
        }
    }

    /// The time of the latest LACPDU before this one at which the port can't have waited yet for this one's partner.
    fn no_wait_at(&self, now: &Heard) -> Option<u64>
        ensures { result ≡ no_wait_at now.now self.now.last self.now.no_wait }
    {
        match self.last {
            Some(heard) => {
                if !is_ordered(heard.nanoseconds, now.nanoseconds) {
                    None
                } else if now.names_as(&heard) {
                    self.no_wait
                } else {
                    Some(heard.nanoseconds)
                }
            }
            None => None,
        }
    }

    /// Whether the end is synchronized with a partner with which it was not.
    fn attaches(&self, now: &Heard) -> bool
        ensures { (l : List Heard) → self.now ≡ recent_of l → result ≡ attaches now.now l }
    {
        let was_synchronized = match self.last {
            Some(heard) => heard.pdu.actor.state.is_synchronized() && now.names_as(&heard),
            None => false,
        };
        now.pdu.actor.state.is_synchronized() && !was_synchronized
    }

    /// Whether the end is synchronized after too short a wait.
    pub(crate) fn is_hasty(&self, now: &Heard) -> bool
        ensures { (l : List Heard) → self.now ≡ recent_of l → result ≡ is_hasty now.now l }
    {
        match self.no_wait_at(now) {
            Some(time) => {
                now.is_current()
                    && self.attaches(now)
                    && now.nanoseconds.saturating_sub(time) < LEAST_WAIT
            }
            None => false,
        }
    }

    /// Whether the end becomes Defaulted or Expired behind current information.
    fn is_relapse(&self, now: &Heard) -> bool
        ensures { (l : List Heard) → self.now ≡ recent_of l → result ≡ is_relapse now.now l }
    {
        match self.last {
            Some(heard) => now.is_unheard() && heard.is_current(),
            None => false,
        }
    }

    /// The latest one, if the next one should have come before this time.
    pub(crate) fn silent(&self, until: u64) -> Option<Shown>
        ensures { result ≡ last_silent until self.now.last }
    {
        match self.last {
            Some(heard) => {
                if heard.is_silent(until) {
                    Some(heard.shown())
                } else {
                    None
                }
            }
            None => None,
        }
    }

    /// Whether it is the fourth LACPDU in less than a second.
    pub(crate) fn is_rushed(&self, now: &Heard) -> bool
        ensures { (l : List Heard) → self.now ≡ recent_of l → result ≡ is_rushed now.now l }
    {
        match (self.last, self.second, self.third) {
            (Some(last), Some(second), Some(third)) => {
                are_in_a_second(now, &last, &second, &third)
            }
            _ => false,
        }
    }

    /// Whether it comes later than the timeout allows.
    pub(crate) fn is_late(&self, now: &Heard) -> bool
        ensures { (l : List Heard) → self.now ≡ recent_of l → result ≡ is_late now.now l }
    {
        match self.last {
            Some(heard) => heard.is_silent(now.nanoseconds),
            None => false,
        }
    }

    /// Whether it says that Synchronization is lost.
    pub(crate) fn is_desynchronized(&self, now: &Heard) -> bool
        ensures { (l : List Heard) → self.now ≡ recent_of l → result ≡ is_desynchronized now.now l }
    {
        match self.last {
            Some(heard) => {
                !now.pdu.actor.state.is_synchronized() && heard.pdu.actor.state.is_synchronized()
            }
            None => false,
        }
    }

    /// Whether another system answers than the Partner's, for the second time in turn.
    pub(crate) fn has_other_system(&self, now: &Heard) -> bool
        ensures { (l : List Heard) → self.now ≡ recent_of l → result ≡ twice has_other_system now.now l }
    {
        match self.last {
            Some(heard) => now.has_other_system() && heard.has_other_system(),
            None => false,
        }
    }

    /// Whether another port answers of the Partner's system, for the second time in turn.
    pub(crate) fn has_other_port(&self, now: &Heard) -> bool
        ensures { (l : List Heard) → self.now ≡ recent_of l → result ≡ twice has_other_port now.now l }
    {
        match self.last {
            Some(heard) => now.has_other_port() && heard.has_other_port(),
            None => false,
        }
    }

    /// Whether the Partner's port answers with another key, for the second time in turn.
    pub(crate) fn has_other_key(&self, now: &Heard) -> bool
        ensures { (l : List Heard) → self.now ≡ recent_of l → result ≡ twice has_other_key now.now l }
    {
        match self.last {
            Some(heard) => now.has_other_key() && heard.has_other_key(),
            None => false,
        }
    }

    /// Whether another link of the same pair of systems has other keys, for the second time in turn.
    pub(crate) fn has_other_keys(&self, now: &Heard) -> bool
        ensures { (l : List Heard) → self.now ≡ recent_of l → result ≡ twice has_other_keys now.now l }
    {
        match self.last {
            Some(heard) => now.has_other_keys() && heard.has_other_keys(),
            None => false,
        }
    }

    /// Whether a third system has named one of the two ends, for the second time in turn.
    pub(crate) fn has_third(&self, now: &Heard) -> bool
        ensures { (l : List Heard) → self.now ≡ recent_of l → result ≡ twice has_third now.now l }
    {
        match self.last {
            Some(heard) => now.has_third() && heard.has_third(),
            None => false,
        }
    }

    /// Whether the end has been Defaulted or Expired for too long.
    pub(crate) fn is_unheard(&self, now: &Heard) -> bool
        ensures { (l : List Heard) → self.now ≡ recent_of l → result ≡ lasts is_unheard (seconds 6) now.now l }
    {
        now.is_unheard() && is_over(MOST_UNHEARD, self.unheard_since, now.nanoseconds)
    }

    /// Whether the end becomes Defaulted or Expired for the second time.
    pub(crate) fn is_relapsing(&self, now: &Heard) -> bool
        ensures { (l : List Heard) → self.now ≡ recent_of l → result ≡ is_relapsing now.now l }
    {
        self.is_relapse(now) && self.relapsed
    }

    /// Whether the end has been ATTACHED for too long while its partner is not synchronized.
    pub(crate) fn is_attached(&self, now: &Heard) -> bool
        ensures { (l : List Heard) → self.now ≡ recent_of l → result ≡ lasts is_attached (seconds 6) now.now l }
    {
        now.is_attached() && is_over(MOST_ATTACHED, self.attached_since, now.nanoseconds)
    }

    /// Whether the end has named another system than other ports of the same key for too long.
    pub(crate) fn is_split(&self, now: &Heard) -> bool
        ensures { (l : List Heard) → self.now ≡ recent_of l → result ≡ lasts is_split (seconds 6) now.now l }
    {
        now.is_split() && is_over(MOST_SPLIT, self.split_since, now.nanoseconds)
    }

    /// Whether the end has distributed for too long while its partner does not collect.
    pub(crate) fn is_discarded(&self, now: &Heard) -> bool
        ensures { (l : List Heard) → self.now ≡ recent_of l → result ≡ lasts is_discarded (seconds 3) now.now l }
    {
        now.is_discarded() && is_over(MOST_DISCARDED, self.discarded_since, now.nanoseconds)
    }

    /// Whether LACPDUs have come in one direction only for longer than the timeout that the end has asked for ever since.
    pub(crate) fn is_one_way(&self, now: &Heard) -> bool
        ensures { (l : List Heard) → self.now ≡ recent_of l → result ≡ is_one_way now.now l }
    {
        let is_over_short = is_over(SHORT_TIMEOUT, self.alone_short_since, now.nanoseconds);
        let is_over_long = is_over(LONG_TIMEOUT, self.alone_since, now.nanoseconds);
        now.is_alone_short() && is_over_short || now.is_alone() && is_over_long
    }
}
