ghost use Rattle.std.specs.Prelude.{◌≡◌};
ghost use Rattle.findings.specs.Responses.{freed, is_unasked, placed, unasked_by, unpaired, unplaced, with_marker, with_response};

use crate::asking::Asked;
use slowpdu::Marker;

/// The markers that an end was asked with and has not responded to; several links may have theirs under way at once.
#[derive(Clone, Copy, Debug, Default, PartialEq, Eq)]
pub(crate) struct Waiting {
    pub(crate) first: Option<Asked>,
    pub(crate) second: Option<Asked>,
    pub(crate) third: Option<Asked>,
    pub(crate) fourth: Option<Asked>,
    pub(crate) fifth: Option<Asked>,
    pub(crate) sixth: Option<Asked>,
    pub(crate) seventh: Option<Asked>,
    pub(crate) eighth: Option<Asked>,
    /// Whether a marker has found no place.
    pub(crate) beyond: bool,
}

/// Puts the marker into the place, if that is free; gives the marker back if it is not.
fn put(place: &mut Option<Asked>, marker: Option<Asked>) -> Option<Asked>
    ensures place { place.new ≡ placed place.old marker }
    ensures rest { result ≡ unplaced place.old marker }
{
    match *place {
        Some(_) => marker,
        None => {
            *place = marker;
            None
        }
    }
}

/// The response, unless it is to the marker in the place.
fn unpaired(place: &Option<Asked>, response: Option<Marker>) -> Option<Marker>
    ensures { result ≡ unpaired place.now response }
{
    match (*place, response) {
        (Some(asked), Some(response)) => {
            if asked.is_answered_by(&response) {
                None
            } else {
                Some(response)
            }
        }
        (Some(_), None) => None,
        (None, response) => response,
    }
}

/// Frees the place, if the response is to the marker in it; gives the response back if it is not.
fn free(place: &mut Option<Asked>, response: Option<Marker>) -> Option<Marker>
    ensures place { place.new ≡ freed place.old response }
    ensures rest { result ≡ unpaired place.old response }
{
    let rest = unpaired(place, response);
    if response.is_some() && rest.is_none() {
        *place = None;
    }
    rest
}

impl Waiting {
    /// One more marker waits, in the first free place.
    pub(crate) fn ask(&mut self, marker: Option<Asked>)
        ensures { self.new ≡ with_marker marker self.old }
    {
        let rest = put(&mut self.first, marker);
        let rest = put(&mut self.second, rest);
        let rest = put(&mut self.third, rest);
        let rest = put(&mut self.fourth, rest);
        let rest = put(&mut self.fifth, rest);
        let rest = put(&mut self.sixth, rest);
        let rest = put(&mut self.seventh, rest);
        let rest = put(&mut self.eighth, rest);
        self.beyond = self.beyond || rest.is_some();
    }

    /// A response frees the first place whose marker it is to.
    pub(crate) fn respond(&mut self, response: Option<Marker>)
        ensures { self.new ≡ with_response response self.old }
    {
        let rest = free(&mut self.first, response);
        let rest = free(&mut self.second, rest);
        let rest = free(&mut self.third, rest);
        let rest = free(&mut self.fourth, rest);
        let rest = free(&mut self.fifth, rest);
        let rest = free(&mut self.sixth, rest);
        let rest = free(&mut self.seventh, rest);
        let _rest = free(&mut self.eighth, rest);
    }

    /// The response, unless it is to a marker that waits.
    fn unasked_by(&self, response: Option<Marker>) -> Option<Marker>
        ensures { result ≡ unasked_by self.now response }
    {
        let rest = unpaired(&self.first, response);
        let rest = unpaired(&self.second, rest);
        let rest = unpaired(&self.third, rest);
        let rest = unpaired(&self.fourth, rest);
        let rest = unpaired(&self.fifth, rest);
        let rest = unpaired(&self.sixth, rest);
        let rest = unpaired(&self.seventh, rest);
        unpaired(&self.eighth, rest)
    }

    /// Whether nobody asked for the response.
    pub(crate) fn is_unasked(&self, response: &Marker) -> bool
        ensures { result ≡ is_unasked self.now response.now }
    {
        !self.beyond && self.unasked_by(Some(*response)).is_some()
    }
}
