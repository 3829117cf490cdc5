ghost use Rattle.std.specs.Prelude.{◌≡◌, ◌∷◌, [], List, length, option_and_then, slice_get};
ghost use Rattle.std.specs.List.{AllZip};
ghost use Rattle.findings.specs.declared.slow_frame.SlowFrame.{SlowFrame};
ghost use Rattle.findings.specs.Firsts.{found};
ghost use Rattle.findings.specs.Knows.{Knows, Takes, ends_of, has_end};

use crate::finding::{Finding, finding_of};
use crate::kept_end::KeptEnd;
use crate::order::Order;
use crate::rule::Rule;
use crate::slow_frame::{LinkEnd, SlowFrame};
use arrayvec::ArrayVec;

/// The most ends that are kept.
pub const MOST_ENDS: usize = 64;

/// What is found of each end, by the frames so far.
#[derive(Drop)]
pub struct Findings {
    kept: ArrayVec<KeptEnd, MOST_ENDS>,
    order: Order,
    left_out: u64,
}

/// Whether the end is one of them.
fn has_end(ends: &[KeptEnd], end: &LinkEnd) -> bool
    ensures { result ≡ has_end end.now ends.now }
{
    ends.iter().any(|kept| kept.end.is(end))
}

/// Takes one frame at each end.
fn see_each(ends: &mut [KeptEnd], now: &SlowFrame)
    ensures { AllZip (Takes now.now) ends.old ends.new }
{
    for end in ends.iter_mut() {
        end.see(now);
    }
}

impl Findings {
    // promise: behind any frames, `finding` is for an end and a rule the first frame that shows the rule; None if none does; for rule 18 if
    //    another end's frame came later; for 18 to 21 if a frame steps back by over a second
    // contract: `Findings::new`, `observe`, `finding` (`Knows`; `found`; rules in `Holds`, `Orders`, `Markers`, `Responses`)
    // promise: the ends are the first 64 that send, in order; `left_out` counts the frames of all others
    // contract: `new`, `observe`, `count`, `end`, `left_out` (`ends`, `counts`)
    /// What is found before the first frame: nothing.
    pub fn new() -> Findings
        ensures { Knows [] result.kept.items result.order result.left_out }
    {
        Findings {
            kept: ArrayVec::new(),
            order: Order {
                latest: None,
                back: None,
            },
            left_out: 0,
        }
    }

    /// Takes the next frame. A frame of an end that comes after 64 others is left out, and counted.
    pub fn observe(&mut self, now: &SlowFrame)
        ensures { (h : List SlowFrame) → Knows h self.old.kept.items self.old.order self.old.left_out → Knows (now.now ∷ h) self.new.kept.items self.new.order self.new.left_out }
    {
        self.order = self.order.with(now);
        see_each(self.kept.as_mut_slice(), now);
        let end = now.end();
        if has_end(&self.kept, &end) {
            return;
        }
        if self.kept.is_full() {
            self.left_out = self.left_out.saturating_add(1);
            return;
        }
        let mut kept = KeptEnd::new(end);
        kept.see(now);
        self.kept.push(kept);
    }

    /// How many ends are kept, at most 64.
    pub fn count(&self) -> usize
        ensures { result ≡ length self.now.kept.items }
    {
        self.kept.len()
    }

    /// How many frames were left out, since they came from ends after the first 64; at most 2^64 - 1.
    pub fn left_out(&self) -> u64
        ensures { result ≡ self.now.left_out }
    {
        self.left_out
    }

    /// The end with this index, in the order of their first frames; None if there are fewer.
    pub fn end(&self, index: usize) -> Option<LinkEnd>
        ensures { result ≡ slice_get (ends_of self.now.kept.items) index }
    {
        match self.kept.get(index) {
            Some(kept) => Some(kept.end),
            None => None,
        }
    }

    /// What is found by the rule of the end with this index: the first frame that shows it. None if no frame shows it, or
    /// if there are fewer ends. `until` is the time of the capture's last packet of any kind, in nanoseconds since the
    /// beginning of 1970: an end can be silent up to then.
    pub fn finding(&self, index: usize, rule: Rule, until: u64) -> Option<Finding>
        ensures { (h : List SlowFrame) → Knows h self.now.kept.items self.now.order self.now.left_out
            → result ≡ option_and_then (λ e. found rule until e h) (slice_get (ends_of self.now.kept.items) index) }
    {
        match self.kept.get(index) {
            Some(kept) => finding_of(rule, kept.end, kept.first(rule, &self.order, until)),
            None => None,
        }
    }
}
