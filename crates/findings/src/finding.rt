ghost use Rattle.std.specs.Prelude.{◌≡◌};
ghost use Rattle.std.specs.Option.{option_or};
ghost use Rattle.findings.specs.Firsts.{earlier_or, finding_of};

use crate::rule::Rule;
use crate::slow_frame::LinkEnd;

/// The first frame that shows a rule of an end.
#[derive(Clone, Copy, Debug, Default, PartialEq, Eq)]
pub struct Shown {
    /// The number of the packet in the capture, from 1.
    pub number: u64,
    /// When it was captured, in nanoseconds since the beginning of 1970; 0 if the capture has no time for it.
    pub nanoseconds: u64,
    /// The end that answers this one: the sender of the latest LACPDU before that has this end as its Partner, on the
    /// same interface; None if there is none, and for a rule that any frame can show.
    pub partner: Option<LinkEnd>,
}

/// What is found of one end by one rule.
#[derive(Clone, Copy, Debug, PartialEq, Eq)]
pub struct Finding {
    /// The rule.
    pub rule: Rule,
    /// The end that it holds of.
    pub end: LinkEnd,
    /// The first frame that shows it.
    pub shown: Shown,
}

/// Keeps the earlier one if there is one; else this one, if it shows the rule.
pub(crate) fn keep_earlier(earlier: &mut Option<Shown>, holds: bool, now: &Shown)
    ensures { earlier.new ≡ earlier_or earlier.old holds now.now }
{
    if earlier.is_none() && holds {
        *earlier = Some(*now);
    }
}

/// Keeps the first one, if there is one; else the other.
pub(crate) fn keep_first(first: &mut Option<Shown>, other: Option<Shown>)
    ensures { first.new ≡ option_or first.old other }
{
    if first.is_none() {
        *first = other;
    }
}

/// The finding of this end, if a frame shows the rule.
pub(crate) fn finding_of(rule: Rule, end: LinkEnd, first: Option<Shown>) -> Option<Finding>
    ensures { result ≡ finding_of rule end first }
{
    match first {
        Some(shown) => Some(Finding { rule, end, shown }),
        None => None,
    }
}
