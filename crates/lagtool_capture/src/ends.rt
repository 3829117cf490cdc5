ghost use Rattle.std.specs.Prelude.{◌≡◌, ◌<◌, ◌^◌, List, length, IfSome};
ghost use Rattle.lagtool_capture.specs.Ends.{Sent, end_of, end_index, first_phase, first_seen, gap_between, gaps_between, partner_after, hears_partner, is_expired_on_defaults, is_named_by, last_of, longer, named_by, next_phase, seen_again, shorter};
ghost use Rattle.lagtool_capture.specs.Gaps.{IsMedianOf, median};

use crate::gaps::Gaps;
use findings::LinkEnd;
use slowpdu::{Info, Lacpdu};

/// When a bit of a state octet began and ended to be 1.
#[derive(Clone, Copy, Debug, PartialEq, Eq)]
pub struct Phase {
    /// The time of the LACPDU in which it last became 1, in nanoseconds.
    pub began: Option<u64>,
    /// The time of the LACPDU in which it last became 0, in nanoseconds.
    pub ended: Option<u64>,
}

impl Phase {
    /// The phase of a bit after the first LACPDU.
    fn first(is_set: bool, time: Option<u64>) -> Phase
        ensures { result ≡ first_phase is_set time }
    {
        Phase {
            began: if is_set { time } else { None },
            ended: None,
        }
    }

    /// The phase after one LACPDU more, by whether the bit was 1 in the last one.
    fn then(self, was_set: bool, is_set: bool, time: Option<u64>) -> Phase
        ensures { result ≡ next_phase was_set is_set time self }
    {
        Phase {
            began: if is_set && !was_set { time } else { self.began },
            ended: if was_set && !is_set { time } else { self.ended },
        }
    }
}

/// The time between two LACPDUs in nanoseconds; None if the second is earlier, or one of the times is not known.
fn gap_between(latest: Option<u64>, time: Option<u64>) -> Option<u64>
    ensures { result ≡ gap_between latest time }
{
    match (latest, time) {
        (Some(latest), Some(time)) if latest <= time => Some(time - latest),
        _ => None,
    }
}

/// The shorter of two gaps, as far as they are known.
fn shorter(one: Option<u64>, other: Option<u64>) -> Option<u64>
    ensures { result ≡ shorter one other }
{
    match (one, other) {
        (Some(one), Some(other)) => Some(if other < one { other } else { one }),
        (None, other) => other,
        (one, None) => one,
    }
}

/// The longer of two gaps, or the later of two times, as far as they are known.
pub(crate) fn longer(one: Option<u64>, other: Option<u64>) -> Option<u64>
    ensures { result ≡ longer one other }
{
    match (one, other) {
        (Some(one), Some(other)) => Some(if one < other { other } else { one }),
        (None, other) => other,
        (one, None) => one,
    }
}

/// An end that sent LACPDUs, and what they said so far.
#[derive(Debug, Drop, PartialEq, Eq)]
pub struct LacpduSender {
    /// The end.
    pub sender: LinkEnd,
    /// How many LACPDUs there are.
    pub count: u64,
    /// The time of the first, in nanoseconds.
    pub first: Option<u64>,
    /// The time of the last, in nanoseconds.
    pub latest: Option<u64>,
    /// The shortest time between two of them that follow one another, in nanoseconds.
    pub shortest: Option<u64>,
    /// The longest such time, in nanoseconds.
    pub longest: Option<u64>,
    /// All such times, in tenths of a second.
    pub gaps: Gaps,
    /// When Synchronization of the actor was 1.
    pub synchronized: Phase,
    /// When Collecting of the actor was 1.
    pub collecting: Phase,
    /// When Distributing of the actor was 1.
    pub distributing: Phase,
    /// When it heard its partner: it was neither Defaulted nor Expired.
    pub hearing: Phase,
    /// When it was Defaulted and Expired at once.
    pub expired_on_defaults: Phase,
    /// The partner that it has, or had when it last heard one.
    pub partner: Option<Info>,
    /// The last of them.
    pub last: Lacpdu,
}

/// Whether the sender of this LACPDU hears its partner: it is neither Defaulted nor Expired (6.4.2.3).
pub(crate) fn hears_partner(lacpdu: &Lacpdu) -> bool
    ensures { result ≡ hears_partner lacpdu.now }
{
    let state = lacpdu.actor.state;
    !state.is_defaulted() && !state.is_expired()
}

/// Whether the sender of this LACPDU is Defaulted and Expired at once (6.4.2.3).
pub(crate) fn is_expired_on_defaults(lacpdu: &Lacpdu) -> bool
    ensures { result ≡ is_expired_on_defaults lacpdu.now }
{
    let state = lacpdu.actor.state;
    state.is_defaulted() && state.is_expired()
}

/// The partner that the sender of this LACPDU has, or had when it last heard one.
fn partner_after(lacpdu: &Lacpdu, before: Option<Info>) -> Option<Info>
    ensures { result ≡ partner_after lacpdu.now before }
{
    if hears_partner(lacpdu) {
        Some(lacpdu.partner)
    } else {
        before
    }
}

/// The index of the end with this sender, from 0.
pub(crate) fn end_index(ends: &[LacpduSender], sender: &LinkEnd) -> Option<usize>
    ensures index { result ≡ end_index ends.now sender.now }
    ensures among { IfSome result (λ n. n < length ends.now) }
{
    for (index, end) in ends.iter().enumerate() {
        if end.sender.is(sender) {
            return Some(index);
        }
    }
    None
}

/// Whether the other end names this one: on the same interface, its last Partner is this end's last Actor, a system and
/// its port.
pub(crate) fn is_named_by(end: &LacpduSender, other: &LacpduSender) -> bool
    ensures { result ≡ is_named_by end.now other.now }
{
    other.sender.interface == end.sender.interface
        && other.last.partner.system == end.last.actor.system
        && other.last.partner.port == end.last.actor.port
}

/// The first of these ends that names this one.
pub(crate) fn named_by(ends: &[LacpduSender], end: &LacpduSender) -> Option<LinkEnd>
    ensures { result ≡ named_by ends.now end.now }
{
    for other in ends {
        if is_named_by(end, other) {
            return Some(other.sender);
        }
    }
    None
}

/// The last LACPDU of the end with this index, if there is one.
pub(crate) fn last_of(ends: &[LacpduSender], index: Option<usize>) -> Option<Lacpdu>
    ensures { result ≡ last_of ends.now index }
{
    match ends.get(index?) {
        Some(end) => Some(end.last),
        None => None,
    }
}

impl LacpduSender {
    /// The end whose first LACPDU is this one.
    pub(crate) fn first_seen(sender: LinkEnd, time: Option<u64>, lacpdu: Lacpdu) -> LacpduSender
        ensures { result ≡ first_seen sender time lacpdu }
    {
        let state = lacpdu.actor.state;
        LacpduSender {
            sender,
            count: 1,
            first: time,
            latest: time,
            shortest: None,
            longest: None,
            gaps: Gaps::none(),
            synchronized: Phase::first(state.is_synchronized(), time),
            collecting: Phase::first(state.is_collecting(), time),
            distributing: Phase::first(state.is_distributing(), time),
            hearing: Phase::first(hears_partner(&lacpdu), time),
            expired_on_defaults: Phase::first(is_expired_on_defaults(&lacpdu), time),
            partner: partner_after(&lacpdu, None),
            last: lacpdu,
        }
    }

    /// The median of the times between two LACPDUs that follow one another, in tenths of a second, cut off: of an even number
    /// the lower of the two in the middle. 1000 stands for 100 seconds and more; None if none of these times is known.
    pub fn median(&self) -> Option<usize>
        ensures by_counts { result ≡ median self.now.gaps }
        ensures of_times { (s : LinkEnd) (first : Sent) (later : List Sent) → length later < 2 ^ 64 → self.now ≡ end_of s first later
            → IsMedianOf (gaps_between first later) result }
    {
        self.gaps.median()
    }

    /// Enters one LACPDU more.
    pub(crate) fn see_again(&mut self, time: Option<u64>, lacpdu: Lacpdu)
        ensures { self.new ≡ seen_again time lacpdu self.old }
    {
        let was = self.last.actor.state;
        let is = lacpdu.actor.state;
        let gap = gap_between(self.latest, time);
        self.count = self.count.saturating_add(1);
        self.latest = time;
        self.shortest = shorter(self.shortest, gap);
        self.longest = longer(self.longest, gap);
        self.gaps.add(gap);
        self.synchronized = self
            .synchronized
            .then(was.is_synchronized(), is.is_synchronized(), time);
        self.collecting = self
            .collecting
            .then(was.is_collecting(), is.is_collecting(), time);
        self.distributing = self
            .distributing
            .then(was.is_distributing(), is.is_distributing(), time);
        let heard = hears_partner(&self.last);
        self.hearing = self.hearing.then(heard, hears_partner(&lacpdu), time);
        let expired = is_expired_on_defaults(&self.last);
        self.expired_on_defaults = self
            .expired_on_defaults
            .then(expired, is_expired_on_defaults(&lacpdu), time);
        self.partner = partner_after(&lacpdu, self.partner);
        self.last = lacpdu;
    }
}
