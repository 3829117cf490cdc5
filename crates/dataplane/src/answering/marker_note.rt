ghost use Rattle.std.specs.Prelude.{◌≡◌, Some};
ghost use Rattle.dataplane.specs.Notes.{after_marker, after_response, answers_number, answers_text, is_to_marker, requester};

use std::fmt;

/// What is noted of the peer of a port: whether it answers markers (profile).
#[derive(Clone, Copy, Debug, PartialEq, Eq)]
pub enum MarkerNote {
    /// No marker went out on the port since its link was down.
    NeverAsked,
    /// A marker went out on the port, and no response to it came. These are the Requester_Port, Requester_System and
    /// Requester_Transaction_ID of the last one, as they stand in its frame (6.5.3.3).
    Asked([u8; 12]),
    /// A response to a marker came on the port.
    Answered,
}

impl MarkerNote {
    /// The number of the note: 0 for `NeverAsked`, 1 for `Asked`, 2 for `Answered` (profile).
    pub fn number(&self) -> u8
        ensures { result ≡ answers_number self.now }
    {
        match self {
            MarkerNote::NeverAsked => 0,
            MarkerNote::Asked(_) => 1,
            MarkerNote::Answered => 2,
        }
    }

    /// After the marker in this frame went out on the port. A peer that answered has answered still.
    pub(crate) fn after_marker(&self, frame: &[u8; 124]) -> MarkerNote
        ensures { result ≡ after_marker frame.now self.now }
    {
        match self {
            MarkerNote::NeverAsked | MarkerNote::Asked(_) => MarkerNote::Asked(requester(frame)),
            MarkerNote::Answered => MarkerNote::Answered,
        }
    }

    /// After the response in this frame came on the port. One to another marker than the last changes nothing.
    pub(crate) fn after_response(&self, frame: &[u8]) -> MarkerNote
        ensures { result ≡ after_response frame.now self.now }
    {
        match self {
            MarkerNote::Asked(marker) if is_to_marker(frame, marker) => MarkerNote::Answered,
            note => *note,
        }
    }
}

impl fmt::Display for MarkerNote {
    ghost output = { λ answers. Some (answers_text answers) };

    fn fmt<W: fmt::Write>(&self, f: &mut fmt::Formatter<W>) -> fmt::Result {
        f.write_str(match self {
            MarkerNote::NeverAsked => "never-asked",
            MarkerNote::Asked(_) => "asked",
            MarkerNote::Answered => "answered",
        })
    }
}

/// The Requester_Port, Requester_System and Requester_Transaction_ID of the marker in a frame (6.5.3.3).
fn requester(frame: &[u8; 124]) -> [u8; 12]
    ensures { result ≡ requester frame.now }
{
    let mut fields = [0; 12];
    fields.copy_from_slice(&frame[18..30]);
    fields
}

/// Whether the response in a frame has these Requester_Port, Requester_System and Requester_Transaction_ID (6.5.4).
fn is_to_marker(frame: &[u8], marker: &[u8; 12]) -> bool
    ensures { result ≡ is_to_marker marker.now frame.now }
{
    frame.len() >= 30 && frame[18..30] == marker[..]
}
