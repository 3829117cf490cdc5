ghost use Rattle.std.specs.Prelude.{◌≡◌, ◌∷◌, List, Some, None, is_some, if◌then◌else◌};
ghost use Rattle.findings.specs.declared.slow_frame.SlowFrame.{SlowFrame};
ghost use Rattle.findings.specs.Ends.{end_of, said, same_end};
ghost use Rattle.findings.specs.Responses.{asks, is_overdue, is_unasked, if_response_is, responding, responds};
ghost use Rattle.std.specs.Prelude.{false, true};

use crate::asking::{Asked, keep_asked, question};
use crate::finding::{Shown, keep_first};
use crate::recent::{SHORT_TIMEOUT, is_over};
use crate::slow_frame::{LinkEnd, SlowFrame};
use crate::waiting::Waiting;
use slowpdu::{Lacpdu, Marker};

/// What an end was asked by markers, and how it responds.
#[derive(Clone, Copy, Debug, Default, PartialEq, Eq)]
pub(crate) struct Responding {
    /// The latest marker.
    pub(crate) request: Option<Asked>,
    /// The markers without a response.
    pub(crate) waiting: Waiting,
    /// The first response that nobody asked for.
    pub(crate) unasked: Option<Shown>,
    /// The first response that came late.
    pub(crate) late: Option<Shown>,
}

/// The marker that a frame asks an end with.
fn asks(end: &LinkEnd, now: &SlowFrame) -> Option<Asked>
    ensures { result ≡ asks end.now now.now }
{
    if now.interface == end.interface && now.source != end.source {
        question(now)
    } else {
        None
    }
}

/// The response of an end in a frame.
fn responds(end: &LinkEnd, now: &SlowFrame) -> Option<Marker>
    ensures { result ≡ responds end.now now.now }
{
    if now.interface == end.interface && now.source == end.source {
        now.what.response()
    } else {
        None
    }
}

/// The frame, if there is a response in it and it is to be shown.
fn shown_if(is_shown: bool, now: &SlowFrame) -> Option<Shown>
    ensures { result ≡ (if is_shown then Some (record { number = now.now.number; nanoseconds = now.now.nanoseconds; partner = None }) else None) }
{
    if is_shown {
        Some(Shown {
            number: now.number,
            nanoseconds: now.nanoseconds,
            partner: None,
        })
    } else {
        None
    }
}

impl Responding {
    /// Whether the response comes late at this time, in nanoseconds.
    fn is_overdue(&self, time: u64, response: &Marker) -> bool
        ensures { result ≡ is_overdue time self.now.request response.now }
    {
        match self.request {
            Some(asked) => {
                asked.is_answered_by(response)
                    && is_over(SHORT_TIMEOUT, Some(asked.nanoseconds), time)
            }
            None => false,
        }
    }

    /// The frame, if nobody asked for the response in it.
    fn unasked_in(&self, now: &SlowFrame, response: Option<Marker>) -> Option<Shown>
        ensures { result ≡ if_response_is (is_unasked self.now.waiting) now.now response }
    {
        match response {
            Some(response) => shown_if(self.waiting.is_unasked(&response), now),
            None => None,
        }
    }

    /// The frame, if the response in it comes late.
    fn late_in(&self, now: &SlowFrame, response: Option<Marker>) -> Option<Shown>
        ensures { result ≡ if_response_is (is_overdue now.now.nanoseconds self.now.request) now.now response }
    {
        match response {
            Some(response) => shown_if(self.is_overdue(now.nanoseconds, &response), now),
            None => None,
        }
    }

    /// Takes one more frame. The end has sent an LACPDU before, and the frame is none of its LACPDUs and markers.
    fn see_later(&mut self, end: &LinkEnd, now: &SlowFrame)
        ensures { (h : List SlowFrame) → same_end (end_of now.now) end.now ≡ false → is_some (said end.now h) ≡ true → self.old ≡ responding end.now h
            → self.new ≡ responding end.now (now.now ∷ h) }
    {
        let request = asks(end, now);
        let response = responds(end, now);
        let unasked = self.unasked_in(now, response);
        let late = self.late_in(now, response);
        keep_first(&mut self.unasked, unasked);
        keep_first(&mut self.late, late);
        self.waiting.ask(request);
        self.waiting.respond(response);
        keep_asked(&mut self.request, request);
    }

    /// Takes one more frame, which is none of the LACPDUs and markers of this end; `own` is what this end said last.
    pub(crate) fn see(&mut self, end: &LinkEnd, own: &Option<Lacpdu>, now: &SlowFrame)
        ensures { (h : List SlowFrame) → same_end (end_of now.now) end.now ≡ false → own.now ≡ said end.now h → self.old ≡ responding end.now h
            → self.new ≡ responding end.now (now.now ∷ h) }
    {
        if own.is_some() {
            self.see_later(end, now);
        }
    }
}
