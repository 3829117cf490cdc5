ghost use Rattle.std.specs.Prelude.{◌≡◌, option_map};
ghost use Rattle.lagtool_capture.specs.declared.links.Apart.TheVariants.{Individual};
ghost use Rattle.lagtool_capture.specs.Links.{agreed, apart_at, apart_by, apart_of, awaited, carries, carrying, deaf, evidence, evidence_there, far_after, far_end, far_sender, had_as_partner, has_as_partner, has_other_link, hears, idle, individual, is_apart, is_before, is_likelier, is_other_link, is_own_system, is_passive, is_past, is_periodic, is_silent, is_told, is_told_at, is_told_beside, is_true, is_up, key_apart, keys_apart, last_sent, link_counts, link_of, lost_before, lost_each_other, of_both, of_one, partnered, records_none, same_actor, same_address, share_interface, single_or_waiting, speaking, state_of, until_of, waiting, with_link};

use crate::ends::{LacpduSender, hears_partner, is_expired_on_defaults, longer};
use findings::LinkEnd;
use lagtypes::Key;
use slowpdu::{Info, Lacpdu};

/// The nanoseconds of a short and of a long timeout (6.4.4).
const SHORT_TIMEOUT: u64 = 3_000_000_000;

const LONG_TIMEOUT: u64 = 90_000_000_000;

/// The nanoseconds in which two ends lose each other together.
const TOGETHER: u64 = 2_000_000_000;

/// The last LACPDU of an end, and what is known of those before it.
#[derive(Clone, Copy, Debug, PartialEq, Eq)]
pub struct LastSent {
    /// The end that sent it.
    pub sender: LinkEnd,
    /// The time of its first LACPDU, in nanoseconds.
    pub first: Option<u64>,
    /// The time of the last, in nanoseconds.
    pub time: Option<u64>,
    /// The partner that it has, or had when it last heard one.
    pub partner: Option<Info>,
    /// The time of the LACPDU in which it last lost its partner, in nanoseconds.
    pub lost: Option<u64>,
    /// The time of the LACPDU in which it last became Defaulted and Expired at once, in nanoseconds.
    pub expired: Option<u64>,
    /// The last LACPDU.
    pub lacpdu: Lacpdu,
}

/// That an end of a link has another key than on another link of the same two systems (6.3.6).
#[derive(Clone, Copy, Debug, PartialEq, Eq)]
pub struct KeyApart {
    /// The end.
    pub end: LinkEnd,
    /// Its key.
    pub here: Key,
    /// The key of its system on the other link.
    pub there: Key,
}

/// Why a link is no part of a group with another one that is up (6.3.5, 6.3.6).
#[derive(Clone, Copy, Debug, PartialEq, Eq)]
pub enum Apart {
    /// An end has another key.
    Key(KeyApart),
    /// This end alone is Individual.
    Individual(LinkEnd),
}

/// Whether a link carries data, by the last LACPDUs of its ends, and why not.
#[derive(Clone, Copy, Debug, PartialEq, Eq)]
pub enum LinkState {
    /// Both ends collect and distribute, and each has the other as its partner.
    Carries,
    /// The same, and so does a link of another group.
    CarriesApart(Apart),
    /// It is no part of a group with a link that is up; or one end alone is Individual.
    OtherGroup(Apart),
    /// Both ends have one system, or its MAC address and an end that hears nobody.
    OneSystem,
    /// Both ends are passive (6.4.13).
    BothPassive,
    /// Neither end sends any more.
    Quiet,
    /// This end sends nothing more.
    Silent(LastSent),
    /// This end is Defaulted or Expired (6.4.12).
    HearsNobody(LinkEnd),
    /// Both ends are Defaulted or Expired, and neither is known to have lost the other earlier.
    BothDeaf,
    /// This end has another partner than the other end (6.4.2.3).
    OtherPartner(LinkEnd),
    /// This end alone is not in Synchronization (6.4.15).
    Unattached(LinkEnd),
    /// Its ends do not collect and distribute.
    Waiting,
    /// Its other end is not in the capture, and hears this one.
    Alone,
    /// Its other end is not in the capture, and this one hears nobody, and is passive (6.4.13).
    PassiveAlone,
    /// Its other end is not in the capture, and this one hears nobody: it may use the link by itself.
    Unanswered,
}

/// A link of a capture.
#[derive(Clone, Copy, Debug, PartialEq, Eq)]
pub struct Link {
    /// The end at which it is told: the first of both in the capture, unless its other end has another one.
    pub near: LastSent,
    /// Its other end, if that is in the capture.
    pub far: Option<LastSent>,
    /// Whether it carries.
    pub state: LinkState,
}

/// How many links there are, and how many of them carry.
#[derive(Clone, Copy, Debug, PartialEq, Eq)]
pub struct LinkCounts {
    /// All links.
    pub links: u64,
    /// Those that carry.
    pub carrying: u64,
}

impl LinkState {
    /// Whether the link carries; None if its other end is not in the capture, unless it is silent or names its own system.
    pub(crate) fn carries(&self) -> Option<bool>
        ensures { result ≡ carries self.now }
    {
        match self {
            LinkState::Carries => Some(true),
            LinkState::CarriesApart(_) => Some(true),
            LinkState::Alone | LinkState::PassiveAlone | LinkState::Unanswered => None,
            _ => Some(false),
        }
    }
}

impl Link {
    /// Its other end, if that is in the capture.
    pub(crate) fn far_sender(&self) -> Option<LinkEnd>
        ensures { result ≡ far_sender self.now.far }
    {
        match self.far {
            Some(far) => Some(far.sender),
            None => None,
        }
    }
}

/// Whether it is known to be true.
fn is_true(known: Option<bool>) -> bool
    ensures { result ≡ is_true known }
{
    match known {
        Some(known) => known,
        None => false,
    }
}

impl LinkCounts {
    /// These and one link more, if there is one.
    fn with(self, link: Option<Link>) -> LinkCounts
        ensures { result ≡ with_link link self }
    {
        match link {
            Some(link) => LinkCounts {
                links: self.links.saturating_add(1),
                carrying: if is_true(link.state.carries()) {
                    self.carrying.saturating_add(1)
                } else {
                    self.carrying
                },
            },
            None => self,
        }
    }
}

/// Whether a time lies more than so many nanoseconds behind another, as far as both are known.
fn is_past(most: u64, from: Option<u64>, to: Option<u64>) -> bool
    ensures { result ≡ is_past most from to }
{
    match (from, to) {
        (Some(from), Some(to)) => from <= to && most < to.saturating_sub(from),
        _ => false,
    }
}

/// Whether this is one system and one port of it.
fn same_actor(partner: &Info, actor: &Info) -> bool
    ensures { result ≡ same_actor partner.now actor.now }
{
    partner.system == actor.system && partner.port == actor.port
}

impl LastSent {
    /// The last LACPDU of an end.
    fn of(end: &LacpduSender) -> LastSent
        ensures { result ≡ last_sent end.now }
    {
        LastSent {
            sender: end.sender,
            first: end.first,
            time: end.latest,
            partner: end.partner,
            lost: end.hearing.ended,
            expired: end.expired_on_defaults.began,
            lacpdu: end.last,
        }
    }

    /// Whether it hears its partner.
    fn hears(&self) -> bool
        ensures { result ≡ hears self.now }
    {
        hears_partner(&self.lacpdu)
    }

    /// Whether it collects and distributes, and hears its partner.
    fn is_up(&self) -> bool
        ensures { result ≡ is_up self.now }
    {
        let state = self.lacpdu.actor.state;
        self.hears() && (state.is_collecting() && state.is_distributing())
    }

    /// Whether it has the other end as its partner.
    fn has_as_partner(&self, other: &LastSent) -> bool
        ensures { result ≡ has_as_partner self.now other.now }
    {
        same_actor(&self.lacpdu.partner, &other.lacpdu.actor)
    }

    /// Whether it had the other end as its partner when it last heard one.
    fn had_as_partner(&self, other: &LastSent) -> bool
        ensures { result ≡ had_as_partner self.now other.now }
    {
        match self.partner {
            Some(partner) => same_actor(&partner, &other.lacpdu.actor),
            None => false,
        }
    }

    /// Whether its system has the MAC address of that of the other end.
    fn same_address(&self, other: &LastSent) -> bool
        ensures { result ≡ same_address self.now other.now }
    {
        self.lacpdu.actor.system.mac == other.lacpdu.actor.system.mac
    }

    /// Whether it is passive.
    fn is_passive(&self) -> bool
        ensures { result ≡ is_passive self.now }
    {
        !self.lacpdu.actor.state.is_active()
    }

    /// How long its partner waits, in nanoseconds.
    #[tactic(auto, unfolding(crate::specs::Links::nanoseconds))]
    fn awaited(&self) -> u64
        ensures { result ≡ awaited self.now }
    {
        if self.lacpdu.partner.state.is_short() && !self.lacpdu.actor.state.is_expired() {
            SHORT_TIMEOUT
        } else {
            LONG_TIMEOUT
        }
    }

    /// Whether it has to send.
    fn is_periodic(&self) -> bool
        ensures { result ≡ is_periodic self.now }
    {
        self.lacpdu.actor.state.is_active() || self.lacpdu.partner.state.is_active()
    }

    /// Whether it sends nothing more, if the capture goes on until this time.
    fn is_silent(&self, until: Option<u64>) -> bool
        ensures { result ≡ is_silent until self.now }
    {
        self.is_periodic() && is_past(self.awaited(), self.time, until)
    }

    /// Whether LACPDUs come to it, and it records none.
    #[tactic(auto, unfolding(crate::specs::Links::nanoseconds))]
    fn records_none(&self) -> bool
        ensures { result ≡ records_none self.now }
    {
        is_expired_on_defaults(&self.lacpdu) && is_past(SHORT_TIMEOUT, self.expired, self.time)
    }

    /// Whether both hear nobody; and one had the other as its partner, or their systems have one MAC address, and one of them
    /// records no LACPDUs.
    fn lost_each_other(&self, other: &LastSent) -> bool
        ensures { result ≡ lost_each_other self.now other.now }
    {
        let were_partners = self.had_as_partner(other) || other.had_as_partner(self);
        let record_none = self.records_none() || other.records_none();
        let is_own = self.same_address(other) && record_none;
        (!self.hears() && !other.hears()) && (were_partners || is_own)
    }
}

/// Whether these are two ends on one interface.
fn share_interface(end: &LastSent, other: &LastSent) -> bool
    ensures { result ≡ share_interface end.now other.now }
{
    other.sender.interface == end.sender.interface && !other.sender.is(&end.sender)
}

/// How much says that two ends on one interface make a link: 3 if each has the other as its partner, 2 if one has, 1 if they lost
/// each other, else 0.
fn evidence(end: &LastSent, other: &LastSent) -> u8
    ensures { result ≡ evidence end.now other.now }
{
    if end.has_as_partner(other) && other.has_as_partner(end) {
        3
    } else if end.has_as_partner(other) || other.has_as_partner(end) {
        2
    } else if end.lost_each_other(other) {
        1
    } else {
        0
    }
}

/// The same of any two ends.
fn evidence_there(end: &LastSent, other: &LastSent) -> u8
    ensures { result ≡ evidence_there end.now other.now }
{
    if share_interface(end, other) {
        evidence(end, other)
    } else {
        0
    }
}

/// Whether more says of this end that it is the other one, or as much, and it spoke later.
fn is_likelier(end: &LastSent, far: &LastSent, other: &LastSent) -> bool
    ensures { result ≡ is_likelier end.now far.now other.now }
{
    let (so_far, more) = (evidence_there(end, far), evidence_there(end, other));
    so_far < more || (so_far == more && is_past(0, far.time, other.time))
}

/// The likelier one of the other end so far and this one.
fn far_after(end: &LastSent, far: Option<LastSent>, other: LastSent) -> Option<LastSent>
    ensures { result ≡ far_after end.now far other }
{
    match far {
        Some(far) => {
            if is_likelier(end, &far, &other) {
                Some(other)
            } else {
                Some(far)
            }
        }
        None => {
            if 0 < evidence_there(end, &other) {
                Some(other)
            } else {
                None
            }
        }
    }
}

/// The other end of its link: the likeliest of these.
fn far_end(ends: &[LacpduSender], end: &LastSent) -> Option<LastSent>
    ensures { result ≡ far_end ends.now end.now }
{
    let mut far = None;
    for other in ends {
        far = far_after(end, far, LastSent::of(other));
    }
    far
}

/// Whether this end stands before the other one.
fn is_before(ends: &[LacpduSender], end: &LinkEnd, other: &LinkEnd) -> bool
    ensures { result ≡ is_before ends.now end.now other.now }
{
    for one in ends {
        if one.sender.is(end) || one.sender.is(other) {
            return one.sender.is(end);
        }
    }
    false
}

/// Whether the link of an end and its other end, which has this one (`near`) as its own other end, is not told at this end: it is
/// told at the other end, or this end sent no more when `near` began.
fn is_told_at(all: &[LacpduSender], end: &LastSent, far: &LastSent, near: Option<LastSent>) -> bool
    ensures { result ≡ is_told_at all.now end.now far.now near }
{
    match near {
        Some(near) if near.sender.is(&end.sender) => is_before(all, &far.sender, &end.sender),
        Some(near) => is_past(0, end.time, near.first),
        None => false,
    }
}

/// Whether the link of an end is not told at this end.
fn is_told(all: &[LacpduSender], end: &LastSent) -> bool
    ensures { result ≡ is_told all.now end.now }
{
    match far_end(all, end) {
        Some(far) => is_told_at(all, end, &far, far_end(all, &far)),
        None => false,
    }
}

/// The time of the last LACPDU of these ends, in nanoseconds.
pub(crate) fn until_of(ends: &[LacpduSender]) -> Option<u64>
    ensures { result ≡ until_of ends.now }
{
    let mut until = None;
    for end in ends {
        until = longer(until, end.latest);
    }
    until
}

/// Whether this is an end of another link of these two systems that is up.
fn is_other_link(near: &Info, far: &Info, other: &LacpduSender) -> bool
    ensures { result ≡ is_other_link near.now far.now other.now }
{
    let said = other.last;
    let is_pair = said.actor.system == near.system && said.partner.system == far.system;
    is_pair && (said.actor.port != near.port && LastSent::of(other).is_up())
}

/// Whether the near system has the same key there, and the far one another.
fn is_apart(near: &Info, far: &Info, other: &LacpduSender) -> bool
    ensures { result ≡ is_apart near.now far.now other.now }
{
    let said = other.last;
    is_other_link(near, far, other) && (said.actor.key == near.key && said.partner.key != far.key)
}

/// The key of the far system on the first such link.
fn key_apart(all: &[LacpduSender], near: &Info, far: &Info) -> Option<Key>
    ensures { result ≡ key_apart all.now near.now far.now }
{
    for other in all {
        if is_apart(near, far, other) {
            return Some(other.last.partner.key);
        }
    }
    None
}

/// Whether there is another link of these two systems that is up.
fn has_other_link(all: &[LacpduSender], near: &Info, far: &Info) -> bool
    ensures { result ≡ has_other_link all.now near.now far.now }
{
    for other in all {
        if is_other_link(near, far, other) || is_other_link(far, near, other) {
            return true;
        }
    }
    false
}

/// Of two ends the one that alone is individual.
fn individual(near: &LastSent, far: &LastSent) -> Option<LinkEnd>
    ensures { result ≡ individual near.now far.now }
{
    let (one, other) = (near.lacpdu.actor.state, far.lacpdu.actor.state);
    if !one.is_aggregatable() && other.is_aggregatable() {
        Some(near.sender)
    } else if one.is_aggregatable() && !other.is_aggregatable() {
        Some(far.sender)
    } else {
        None
    }
}

/// That an end has another key there, if it has.
fn apart_at(sent: &LastSent, there: Option<Key>) -> Option<KeyApart>
    ensures { result ≡ apart_at sent.now there }
{
    match there {
        Some(there) => Some(KeyApart {
            end: sent.sender,
            here: sent.lacpdu.actor.key,
            there,
        }),
        None => None,
    }
}

/// An end of a link with another key than on another link, where the other system has one key on both.
fn keys_apart(all: &[LacpduSender], near: &LastSent, far: &LastSent) -> Option<KeyApart>
    ensures { result ≡ keys_apart all.now near.now far.now }
{
    let (one, other) = (near.lacpdu.actor, far.lacpdu.actor);
    let of_far = apart_at(far, key_apart(all, &one, &other));
    let of_near = apart_at(near, key_apart(all, &other, &one));
    match of_far {
        Some(apart) => Some(apart),
        None => of_near,
    }
}

impl Apart {
    /// An end that is individual, if there is one.
    fn single(end: Option<LinkEnd>) -> Option<Apart>
        ensures { result ≡ option_map Individual end }
    {
        match end {
            Some(end) => Some(Apart::Individual(end)),
            None => None,
        }
    }

    /// Why a link is no part of a group with others: a key, or, where there are others, an end that is individual.
    fn by(key: Option<KeyApart>, others: bool, single: Option<LinkEnd>) -> Option<Apart>
        ensures { result ≡ apart_by key others single }
    {
        match key {
            Some(key) => Some(Apart::Key(key)),
            None => { if others { Apart::single(single) } else { None } }
        }
    }

    /// The same of a link with these ends among all.
    fn of(all: &[LacpduSender], near: &LastSent, far: &LastSent) -> Option<Apart>
        ensures { result ≡ apart_of all.now near.now far.now }
    {
        let (one, other) = (near.lacpdu.actor, far.lacpdu.actor);
        let others = has_other_link(all, &one, &other);
        Apart::by(keys_apart(all, near, far), others, individual(near, far))
    }
}

/// Whether this end, which hears nobody, lost the other one before that lost it.
#[tactic(auto, unfolding(crate::specs::Links::nanoseconds))]
fn lost_before(end: &LastSent, other: &LastSent) -> bool
    ensures { result ≡ lost_before end.now other.now }
{
    let is_first = end.partner.is_none() && other.partner.is_some();
    is_first || is_past(TOGETHER, end.lost, other.lost)
}

/// Whether both ends have one system, or its MAC address and an end that hears nobody.
fn is_own_system(near: &LastSent, far: &LastSent) -> bool
    ensures { result ≡ is_own_system near.now far.now }
{
    let is_one = near.lacpdu.actor.system == far.lacpdu.actor.system;
    is_one || (near.same_address(far) && !(near.hears() && far.hears()))
}

impl LinkState {
    /// Of a link that carries, by what keeps it apart.
    fn carrying(apart: Option<Apart>) -> LinkState
        ensures { result ≡ carrying apart }
    {
        match apart {
            Some(apart) => LinkState::CarriesApart(apart),
            None => LinkState::Carries,
        }
    }

    /// Of a link whose ends hear each other, by the end that alone is individual.
    fn single_or_waiting(single: Option<LinkEnd>) -> LinkState
        ensures { result ≡ single_or_waiting single }
    {
        match single {
            Some(end) => LinkState::OtherGroup(Apart::Individual(end)),
            None => LinkState::Waiting,
        }
    }

    /// The same, by who has attached it.
    fn waiting(near: &LastSent, far: &LastSent) -> LinkState
        ensures { result ≡ waiting near.now far.now }
    {
        let (one, other) = (near.lacpdu.actor.state, far.lacpdu.actor.state);
        if !one.is_synchronized() && other.is_synchronized() {
            LinkState::Unattached(near.sender)
        } else if one.is_synchronized() && !other.is_synchronized() {
            LinkState::Unattached(far.sender)
        } else {
            LinkState::single_or_waiting(individual(near, far))
        }
    }

    /// The same, by what keeps it apart.
    fn agreed(apart: Option<Apart>, near: &LastSent, far: &LastSent) -> LinkState
        ensures { result ≡ agreed apart near.now far.now }
    {
        match apart {
            Some(apart) => LinkState::OtherGroup(apart),
            None => LinkState::waiting(near, far),
        }
    }

    /// The same, by who is their partner.
    fn partnered(apart: Option<Apart>, near: &LastSent, far: &LastSent) -> LinkState
        ensures { result ≡ partnered apart near.now far.now }
    {
        if !near.has_as_partner(far) {
            LinkState::OtherPartner(near.sender)
        } else if !far.has_as_partner(near) {
            LinkState::OtherPartner(far.sender)
        } else {
            LinkState::agreed(apart, near, far)
        }
    }

    /// Of a link both ends of which hear nobody.
    fn deaf(near: &LastSent, far: &LastSent) -> LinkState
        ensures { result ≡ deaf near.now far.now }
    {
        if lost_before(near, far) {
            LinkState::HearsNobody(near.sender)
        } else if lost_before(far, near) {
            LinkState::HearsNobody(far.sender)
        } else {
            LinkState::BothDeaf
        }
    }

    /// Of a link that does not carry, though both ends send.
    fn idle(apart: Option<Apart>, near: &LastSent, far: &LastSent) -> LinkState
        ensures { result ≡ idle apart near.now far.now }
    {
        if !near.hears() && !far.hears() {
            LinkState::deaf(near, far)
        } else if !near.hears() {
            LinkState::HearsNobody(near.sender)
        } else if !far.hears() {
            LinkState::HearsNobody(far.sender)
        } else {
            LinkState::partnered(apart, near, far)
        }
    }

    /// Of a link both ends of which send.
    fn speaking(apart: Option<Apart>, near: &LastSent, far: &LastSent) -> LinkState
        ensures { result ≡ speaking apart near.now far.now }
    {
        let are_partners = near.has_as_partner(far) && far.has_as_partner(near);
        if (near.is_up() && far.is_up()) && are_partners {
            LinkState::carrying(apart)
        } else {
            LinkState::idle(apart, near, far)
        }
    }

    /// Of a link with both ends.
    fn of_both(
        all: &[LacpduSender],
        until: Option<u64>,
        near: &LastSent,
        far: &LastSent,
    ) -> LinkState
        ensures { result ≡ of_both all.now until near.now far.now }
    {
        if is_own_system(near, far) {
            LinkState::OneSystem
        } else if near.is_passive() && far.is_passive() {
            LinkState::BothPassive
        } else if near.is_silent(until) && far.is_silent(until) {
            LinkState::Quiet
        } else if near.is_silent(until) {
            LinkState::Silent(*near)
        } else if far.is_silent(until) {
            LinkState::Silent(*far)
        } else {
            LinkState::speaking(Apart::of(all, near, far), near, far)
        }
    }

    /// Of a link with one end in the capture.
    fn of_one(until: Option<u64>, near: &LastSent) -> LinkState
        ensures { result ≡ of_one until near.now }
    {
        if near.lacpdu.actor.system == near.lacpdu.partner.system {
            LinkState::OneSystem
        } else if near.is_silent(until) {
            LinkState::Silent(*near)
        } else if near.hears() {
            LinkState::Alone
        } else if near.is_passive() {
            LinkState::PassiveAlone
        } else {
            LinkState::Unanswered
        }
    }

    /// Of a link with these ends among all.
    fn of(
        all: &[LacpduSender],
        until: Option<u64>,
        near: &LastSent,
        far: Option<LastSent>,
    ) -> LinkState
        ensures { result ≡ state_of all.now until near.now far }
    {
        match far {
            Some(far) => LinkState::of_both(all, until, near, &far),
            None => LinkState::of_one(until, near),
        }
    }
}

// promise: a link is said to carry only if the last LACPDUs of both ends say that they collect and distribute, hear their partner, and have each other as partner
// contract: `link_of` (`link_of`, `of_both`)
/// The link of an end among all ends of a capture whose last LACPDU has this time; None if it is told at its other end, or not told.
#[tactic(auto, unfolding(crate::specs::Links::link_of))]
pub(crate) fn link_of(all: &[LacpduSender], until: Option<u64>, end: &LacpduSender) -> Option<Link>
    ensures { result ≡ link_of all.now until end.now }
{
    let near = LastSent::of(end);
    if is_told(all, &near) {
        return None;
    }
    let far = far_end(all, &near);
    let state = LinkState::of(all, until, &near, far);
    Some(Link { near, far, state })
}

/// How many links these ends make, and how many of them carry.
pub(crate) fn link_counts(all: &[LacpduSender]) -> LinkCounts
    ensures { result ≡ link_counts all.now }
{
    let until = until_of(all);
    let mut counts = LinkCounts {
        links: 0,
        carrying: 0,
    };
    for end in all {
        counts = counts.with(link_of(all, until, end));
    }
    counts
}
