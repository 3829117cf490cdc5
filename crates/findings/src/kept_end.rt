ghost use Rattle.std.specs.Prelude.{◌≡◌, ◌∷◌, [], true, false, List};
ghost use Rattle.findings.specs.declared.slow_frame.SlowFrame.{SlowFrame};
ghost use Rattle.findings.specs.Ends.{end_of, same_end};
ghost use Rattle.findings.specs.Firsts.{first_of, unless_faced};
ghost use Rattle.findings.specs.Knows.{Takes};
ghost use Rattle.findings.specs.Orders.{order_of};
ghost use Rattle.findings.specs.KeptEnds.{kept_end};

use crate::asking::Asking;
use crate::finding::Shown;
use crate::frame_rules::FrameRules;
use crate::lacpdu_rules::LacpduRules;
use crate::order::Order;
use crate::others::Others;
use crate::recent::{Heard, Recent};
use crate::responding::Responding;
use crate::rule::Rule;
use crate::slow_frame::{LinkEnd, SlowFrame};
use slowpdu::Lacpdu;

/// What is kept of one end.
#[derive(Clone, Copy, Debug, Default, PartialEq, Eq)]
pub(crate) struct KeptEnd {
    pub(crate) end: LinkEnd,
    /// The latest LACPDU that the end sent.
    pub(crate) said: Option<Lacpdu>,
    /// What is known of the markers that the end sent.
    pub(crate) asking: Asking,
    /// The markers that ask the end, and the Marker Responses that it sent.
    pub(crate) responding: Responding,
    pub(crate) others: Others,
    pub(crate) recent: Recent,
    pub(crate) lacpdus: LacpduRules,
    pub(crate) frames: FrameRules,
}

impl KeptEnd {
    /// What is kept of an end before its first frame.
    pub(crate) fn new(end: LinkEnd) -> KeptEnd
        ensures { result ≡ kept_end end [] }
    {
        KeptEnd {
            end,
            said: None,
            asking: Asking::default(),
            responding: Responding::default(),
            others: Others::default(),
            recent: Recent::default(),
            lacpdus: LacpduRules::default(),
            frames: FrameRules::default(),
        }
    }

    /// Takes one more frame that this end sent.
    fn see_own(&mut self, now: &SlowFrame)
        ensures end { self.new.end ≡ self.old.end }
        ensures exact { (h : List SlowFrame) → same_end (end_of now.now) self.old.end ≡ true → self.old ≡ kept_end self.old.end h
            → self.new ≡ kept_end self.old.end (now.now ∷ h) }
    {
        self.frames.see(now);
        self.asking.see(&self.end, true, now);
        if let Some(pdu) = now.what.lacpdu() {
            let heard = Heard {
                number: now.number,
                nanoseconds: now.nanoseconds,
                pdu,
                others: self.others,
            };
            self.lacpdus.hear(&self.recent, &heard);
            self.recent = self.recent.with(&heard);
            self.said = Some(pdu);
        }
    }

    /// Takes one frame, of this end or another.
    pub(crate) fn see(&mut self, now: &SlowFrame)
        ensures { Takes now.now self.old self.new }
    {
        if now.end().is(&self.end) {
            self.see_own(now);
        } else {
            self.asking.see(&self.end, false, now);
            self.others.see(&self.end, &self.said, now);
            self.responding.see(&self.end, &self.said, now);
        }
    }

    /// The first LACPDU that shows that LACPDUs go in one direction only, unless one of another end came later.
    fn one_way(&self) -> Option<Shown>
        ensures { result ≡ unless_faced self.now.others.facing self.now.lacpdus.one_way }
    {
        match self.others.facing {
            Some(_) => None,
            None => self.lacpdus.one_way,
        }
    }

    /// The first frame that shows the rule, where the frames have this order and the capture goes up to this time.
    pub(crate) fn first(&self, rule: Rule, order: &Order, until: u64) -> Option<Shown>
        ensures { (h : List SlowFrame) → self.now ≡ kept_end self.now.end h → order.now ≡ order_of h → result ≡ first_of rule until self.now.end h }
    {
        match rule {
            Rule::Rate => self.lacpdus.rate,
            Rule::System => self.lacpdus.system,
            Rule::Port => self.lacpdus.port,
            Rule::Key => self.lacpdus.key,
            Rule::Passive => self.lacpdus.passive,
            Rule::Version => self.frames.version,
            Rule::Length => self.frames.length,
            Rule::Reserved => self.frames.reserved,
            Rule::Destination => self.frames.destination,
            Rule::Tag => self.frames.tag,
            Rule::Silence => self.lacpdus.silence.or(self.recent.silent(until)),
            Rule::Unheard => self.lacpdus.unheard,
            Rule::Desynchronized => self.lacpdus.desynchronized,
            Rule::Individual => self.lacpdus.individual,
            Rule::Keys => self.lacpdus.keys,
            Rule::Segment => self.lacpdus.segment,
            Rule::Discarded => self.lacpdus.discarded,
            Rule::OneWay => order.unless_back(self.one_way()),
            Rule::Unanswered => order.unless_back(self.asking.first(until)),
            Rule::Unasked => order.unless_back(self.responding.unasked),
            Rule::Late => order.unless_back(self.responding.late),
            Rule::Attached => self.lacpdus.attached,
            Rule::Relapsing => self.lacpdus.relapsing,
            Rule::Types => self.frames.types,
            Rule::Source => self.frames.source,
            Rule::Third => self.lacpdus.third,
            Rule::Hasty => self.lacpdus.hasty,
            Rule::Backward => order.back_of(&self.end),
            Rule::Split => self.lacpdus.split,
            Rule::OwnSystem => self.lacpdus.own_system,
        }
    }
}
