ghost use Rattle.std.specs.Prelude.{◌≡◌, ◌∷◌, List};
ghost use Rattle.findings.specs.declared.slow_frame.SlowFrame.{SlowFrame};
ghost use Rattle.findings.specs.Orders.{if_of, order_of, step_of, steps_back, unless_back};

use crate::finding::Shown;
use crate::recent::{SECOND, is_over};
use crate::slow_frame::{LinkEnd, SlowFrame};

/// A frame that is more than a second earlier than the one before it in the capture.
#[derive(Clone, Copy, Debug, PartialEq, Eq)]
pub(crate) struct StepBack {
    /// The end that sent it.
    pub(crate) end: LinkEnd,
    /// The frame.
    pub(crate) shown: Shown,
}

/// Whether the frames of a capture come in the order of their times.
#[derive(Clone, Copy, Debug, Default, PartialEq, Eq)]
pub(crate) struct Order {
    /// The time of the latest frame, in nanoseconds.
    pub(crate) latest: Option<u64>,
    /// The first frame that steps back.
    pub(crate) back: Option<StepBack>,
}

/// Whether a frame is more than a second earlier than the time before it.
fn steps_back(now: &SlowFrame, before: Option<u64>) -> bool
    ensures { result ≡ steps_back now.now before }
{
    match before {
        Some(time) => is_over(SECOND, Some(now.nanoseconds), time),
        None => false,
    }
}

/// The frame, as one that steps back.
fn step_of(now: &SlowFrame) -> StepBack
    ensures { result ≡ step_of now.now }
{
    StepBack {
        end: now.end(),
        shown: Shown {
            number: now.number,
            nanoseconds: now.nanoseconds,
            partner: None,
        },
    }
}

impl Order {
    /// What is known of the order behind one more frame.
    pub(crate) fn with(&self, now: &SlowFrame) -> Order
        ensures { (h : List SlowFrame) → self.now ≡ order_of h → result ≡ order_of (now.now ∷ h) }
    {
        let step = if steps_back(now, self.latest) {
            Some(step_of(now))
        } else {
            None
        };
        Order {
            latest: Some(now.nanoseconds),
            back: self.back.or(step),
        }
    }

    /// The first frame that steps back, if this end sent it.
    pub(crate) fn back_of(&self, end: &LinkEnd) -> Option<Shown>
        ensures { result ≡ if_of end.now self.now.back }
    {
        match self.back {
            Some(step) if step.end.is(end) => Some(step.shown),
            _ => None,
        }
    }

    /// A finding that wants the frames of both directions in their order, unless a frame steps back.
    pub(crate) fn unless_back(&self, shown: Option<Shown>) -> Option<Shown>
        ensures { result ≡ unless_back self.now.back shown }
    {
        match self.back {
            Some(_) => None,
            None => shown,
        }
    }
}
