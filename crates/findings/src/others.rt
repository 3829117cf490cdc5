ghost use Rattle.std.specs.Prelude.{◌≡◌, ◌∷◌, List, Some, None, false, if◌then◌else◌};
ghost use Rattle.std.specs.Option.{option_or};
ghost use Rattle.findings.specs.declared.slow_frame.SlowFrame.{SlowFrame};
ghost use Rattle.findings.specs.Ends.{answers, end_of, faces, intrudes, is_fellow, is_heard, is_named, is_sibling, may_aggregate, mixes_keys, names, others, related, rivals, said, same_end, standing_with, unless_of};

use crate::slow_frame::{LinkEnd, SlowFrame};
use slowpdu::{Info, Lacpdu};

/// An LACPDU of another end.
#[derive(Clone, Copy, Debug, PartialEq, Eq)]
pub(crate) struct Other {
    /// The end that sent the LACPDU.
    pub(crate) end: LinkEnd,
    /// When it was captured, in nanoseconds.
    pub(crate) nanoseconds: u64,
    /// The LACPDU.
    pub(crate) pdu: Lacpdu,
}

/// The latest LACPDUs of other ends that are related to an end, by what this end said last before them.
#[derive(Clone, Copy, Debug, Default, PartialEq, Eq)]
pub(crate) struct Others {
    /// The latest LACPDU of another end on the same interface whose Partner is this end.
    pub(crate) answer: Option<Other>,
    /// The latest LACPDU of another end on the same interface that has the same Partner as this end.
    pub(crate) rival: Option<Other>,
    /// The latest LACPDU of another end, on any interface, between the same pair of systems, with one of the two keys and not the
    /// other; None once that end has sent one that is not so.
    pub(crate) sibling: Option<Other>,
    /// The latest LACPDU of another end on the same interface, whatever its Partner.
    pub(crate) facing: Option<Other>,
    /// The latest LACPDU of a third system on the same interface that has this end or its Partner as its Partner.
    pub(crate) third: Option<Other>,
    /// The latest LACPDU of the Partner's system on the same interface.
    pub(crate) named: Option<Other>,
    /// The latest LACPDU of another end, on any interface, of the same system and key.
    pub(crate) fellow: Option<Other>,
}

/// Whether the LACPDU of another end has this end as its Partner.
fn answers(end: &LinkEnd, own: &Lacpdu, now: &SlowFrame, pdu: &Lacpdu) -> bool
    ensures { result ≡ answers end.now own.now now.now pdu.now }
{
    now.interface == end.interface
        && pdu.partner.system == own.actor.system
        && pdu.partner.port == own.actor.port
}

/// Whether the LACPDU of another end has the same Partner.
fn rivals(end: &LinkEnd, own: &Lacpdu, now: &SlowFrame, pdu: &Lacpdu) -> bool
    ensures { result ≡ rivals end.now own.now now.now pdu.now }
{
    now.interface == end.interface
        && pdu.partner.system == own.partner.system
        && pdu.partner.port == own.partner.port
}

/// Whether one of the two keys is the same, and the other one is not.
pub(crate) fn mixes_keys(one: &Lacpdu, other: &Lacpdu) -> bool
    ensures { result ≡ mixes_keys one.now other.now }
{
    if one.actor.key == other.actor.key {
        one.partner.key != other.partner.key
    } else {
        one.partner.key == other.partner.key
    }
}

/// Whether the LACPDU of another end is of the same pair of systems, with one of the two keys.
fn is_sibling(end: &LinkEnd, own: &Lacpdu, now: &SlowFrame, pdu: &Lacpdu) -> bool
    ensures { result ≡ is_sibling end.now own.now now.now pdu.now }
{
    pdu.actor.system == own.actor.system
        && pdu.partner.system == own.partner.system
        && mixes_keys(own, pdu)
}

/// Whether the LACPDU has the end with this information as its Partner.
fn names(pdu: &Lacpdu, end: &Info) -> bool
    ensures { result ≡ names pdu.now end.now }
{
    pdu.partner.system == end.system && pdu.partner.port == end.port
}

/// Whether the sender of the LACPDU is neither Defaulted nor Expired.
fn is_heard(pdu: &Lacpdu) -> bool
    ensures { result ≡ is_heard pdu.now }
{
    !pdu.actor.state.is_defaulted() && !pdu.actor.state.is_expired()
}

/// Whether the sender of the LACPDU has current information of its Partner, and its port may be aggregated.
pub(crate) fn may_aggregate(pdu: &Lacpdu) -> bool
    ensures { result ≡ may_aggregate pdu.now }
{
    is_heard(pdu) && pdu.actor.state.is_aggregatable()
}

/// Whether the LACPDU is of a third system, and names this end or its Partner.
fn intrudes(end: &LinkEnd, own: &Lacpdu, now: &SlowFrame, pdu: &Lacpdu) -> bool
    ensures { result ≡ intrudes end.now own.now now.now pdu.now }
{
    now.interface == end.interface
        && pdu.actor.system != own.actor.system
        && pdu.actor.system != own.partner.system
        && is_heard(pdu)
        && (names(pdu, &own.actor) || names(pdu, &own.partner))
}

/// Whether the LACPDU is of the Partner's system.
fn is_named(end: &LinkEnd, own: &Lacpdu, now: &SlowFrame, pdu: &Lacpdu) -> bool
    ensures { result ≡ is_named end.now own.now now.now pdu.now }
{
    now.interface == end.interface && pdu.actor.system == own.partner.system
}

/// Whether the LACPDU is of the same system and key.
fn is_fellow(end: &LinkEnd, own: &Lacpdu, now: &SlowFrame, pdu: &Lacpdu) -> bool
    ensures { result ≡ is_fellow end.now own.now now.now pdu.now }
{
    pdu.actor.system == own.actor.system && pdu.actor.key == own.actor.key
}

/// Keeps the new one if it is related, else the one before.
fn keep_latest(latest: &mut Option<Other>, is_related: bool, now: &Other)
    ensures { latest.new ≡ option_or (if is_related then Some now.now else None) latest.old }
{
    if is_related {
        *latest = Some(*now);
    }
}

/// Drops what is kept of this end.
fn drop_of(end: &LinkEnd, kept: &mut Option<Other>)
    ensures { kept.new ≡ unless_of end.now kept.old }
{
    if let Some(other) = *kept
        && end.is(&other.end)
    {
        *kept = None;
    }
}

/// Keeps the new one if it is related, else the one before, unless that is of the same end.
fn keep_standing(kept: &mut Option<Other>, is_related: bool, now: &Other)
    ensures { kept.new ≡ (if is_related then Some now.now else unless_of now.now.end kept.old) }
{
    if is_related {
        *kept = Some(*now);
    } else {
        drop_of(&now.end, kept);
    }
}

impl Others {
    /// Keeps the latest ones behind one more LACPDU of another end.
    fn keep(&mut self, end: &LinkEnd, own: &Lacpdu, now: &SlowFrame, pdu: &Lacpdu)
        ensures answer { self.new.answer ≡ option_or (related answers end.now now.now (Some own.now) (Some pdu.now)) self.old.answer }
        ensures rival { self.new.rival ≡ option_or (related rivals end.now now.now (Some own.now) (Some pdu.now)) self.old.rival }
        ensures facing { self.new.facing ≡ option_or (related faces end.now now.now (Some own.now) (Some pdu.now)) self.old.facing }
        ensures third { self.new.third ≡ option_or (related intrudes end.now now.now (Some own.now) (Some pdu.now)) self.old.third }
        ensures named { self.new.named ≡ option_or (related is_named end.now now.now (Some own.now) (Some pdu.now)) self.old.named }
        ensures fellow { self.new.fellow ≡ option_or (related is_fellow end.now now.now (Some own.now) (Some pdu.now)) self.old.fellow }
        ensures sibling { self.new.sibling ≡ standing_with is_sibling end.now now.now (Some own.now) (Some pdu.now) self.old.sibling }
    {
        let other = Other {
            end: now.end(),
            nanoseconds: now.nanoseconds,
            pdu: *pdu,
        };
        keep_latest(&mut self.answer, answers(end, own, now, pdu), &other);
        keep_latest(&mut self.rival, rivals(end, own, now, pdu), &other);
        keep_standing(&mut self.sibling, is_sibling(end, own, now, pdu), &other);
        keep_latest(&mut self.facing, now.interface == end.interface, &other);
        keep_latest(&mut self.third, intrudes(end, own, now, pdu), &other);
        keep_latest(&mut self.named, is_named(end, own, now, pdu), &other);
        keep_latest(&mut self.fellow, is_fellow(end, own, now, pdu), &other);
    }

    /// Takes one more frame of another end; `own` is what this end said last.
    pub(crate) fn see(&mut self, end: &LinkEnd, own: &Option<Lacpdu>, now: &SlowFrame)
        ensures { (h : List SlowFrame) → same_end (end_of now.now) end.now ≡ false → own.now ≡ said end.now h → self.old ≡ others end.now h
            → self.new ≡ others end.now (now.now ∷ h) }
    {
        if let Some(own) = own
            && let Some(pdu) = now.what.lacpdu()
        {
            self.keep(end, own, now, &pdu);
        }
    }
}
