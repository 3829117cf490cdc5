ghost use Rattle.std.specs.Prelude.{◌≡◌, ◌∷◌, List, if◌then◌else◌};
ghost use Rattle.std.specs.Option.{option_or};
ghost use Rattle.findings.specs.declared.slow_frame.SlowFrame.{SlowFrame};
ghost use Rattle.findings.specs.Ends.{end_of, same_end};
ghost use Rattle.findings.specs.Markers.{asked_in, asking, is_response_to, marker_in, overdue, response_in, unless_answered};

use crate::finding::{Shown, keep_first};
use crate::recent::{SHORT_TIMEOUT, is_over};
use crate::slow_frame::{LinkEnd, SlowFrame, What};
use slowpdu::{Marker, MarkerKind};

/// A marker, and when it was captured.
#[derive(Clone, Copy, Debug, PartialEq, Eq)]
pub(crate) struct Asked {
    /// The number of the packet.
    pub(crate) number: u64,
    /// When it was captured, in nanoseconds.
    pub(crate) nanoseconds: u64,
    /// The marker.
    pub(crate) marker: Marker,
}

/// The markers of an end, as far as they wait for a response.
#[derive(Clone, Copy, Debug, Default, PartialEq, Eq)]
pub(crate) struct Asking {
    /// The latest marker, if no other end has responded to it.
    pub(crate) waiting: Option<Asked>,
    /// The first marker that had waited for too long when a frame came.
    pub(crate) overdue: Option<Shown>,
}

impl What {
    /// The marker that it is, if it is one.
    fn marker(&self) -> Option<Marker>
        ensures { result ≡ marker_in self.now }
    {
        match self {
            What::Marker(marker) => match marker.kind {
                MarkerKind::Information => Some(*marker),
                MarkerKind::Response => None,
            },
            _ => None,
        }
    }

    /// The response that it is, if it is one.
    pub(crate) fn response(&self) -> Option<Marker>
        ensures { result ≡ response_in self.now }
    {
        match self {
            What::Marker(marker) => match marker.kind {
                MarkerKind::Information => None,
                MarkerKind::Response => Some(*marker),
            },
            _ => None,
        }
    }
}

impl Asked {
    /// Whether this is the response to the marker.
    pub(crate) fn is_answered_by(&self, response: &Marker) -> bool
        ensures { result ≡ is_response_to self.now.marker response.now }
    {
        response.port == self.marker.port
            && response.system == self.marker.system
            && response.id == self.marker.id
    }
}

/// The marker in a frame.
pub(crate) fn question(now: &SlowFrame) -> Option<Asked>
    ensures { result ≡ asked_in now.now (marker_in now.now.what) }
{
    match now.what.marker() {
        Some(marker) => Some(Asked {
            number: now.number,
            nanoseconds: now.nanoseconds,
            marker,
        }),
        None => None,
    }
}

/// Keeps the marker in the frame, if there is one; else the one before.
pub(crate) fn keep_asked(asked: &mut Option<Asked>, question: Option<Asked>)
    ensures { asked.new ≡ option_or question asked.old }
{
    if question.is_some() {
        *asked = question;
    }
}

/// Keeps the marker, unless the frame of another end is the response to it.
fn keep_unless_answered(end: &LinkEnd, now: &SlowFrame, waiting: &mut Option<Asked>)
    ensures { waiting.new ≡ unless_answered end.now now.now (response_in now.now.what) waiting.old }
{
    if let Some(response) = now.what.response()
        && let Some(asked) = *waiting
        && now.interface == end.interface
        && asked.is_answered_by(&response)
    {
        *waiting = None;
    }
}

/// Keeps the marker that waits behind one more frame, of this end or another.
fn keep_waiting(end: &LinkEnd, is_own: bool, now: &SlowFrame, waiting: &mut Option<Asked>)
    ensures { waiting.new ≡ (if is_own then option_or (asked_in now.now (marker_in now.now.what)) waiting.old
        else unless_answered end.now now.now (response_in now.now.what) waiting.old) }
{
    if is_own {
        keep_asked(waiting, question(now));
    } else {
        keep_unless_answered(end, now, waiting);
    }
}

impl Asking {
    /// The marker that waits, if it has waited for too long at this time, in nanoseconds.
    fn late(&self, time: u64) -> Option<Shown>
        ensures { result ≡ overdue time self.now.waiting }
    {
        match self.waiting {
            Some(asked) => {
                if is_over(SHORT_TIMEOUT, Some(asked.nanoseconds), time) {
                    Some(Shown {
                        number: asked.number,
                        nanoseconds: asked.nanoseconds,
                        partner: None,
                    })
                } else {
                    None
                }
            }
            None => None,
        }
    }

    /// Takes one more frame, of this end or another.
    pub(crate) fn see(&mut self, end: &LinkEnd, is_own: bool, now: &SlowFrame)
        ensures { (h : List SlowFrame) → same_end (end_of now.now) end.now ≡ is_own → self.old ≡ asking end.now h
            → self.new ≡ asking end.now (now.now ∷ h) }
    {
        let late = self.late(now.nanoseconds);
        keep_first(&mut self.overdue, late);
        keep_waiting(end, is_own, now, &mut self.waiting);
    }

    /// The first marker without a response in time, in a capture that goes up to this time.
    pub(crate) fn first(&self, until: u64) -> Option<Shown>
        ensures { result ≡ option_or self.now.overdue (overdue until self.now.waiting) }
    {
        self.overdue.or(self.late(until))
    }
}
