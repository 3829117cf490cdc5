//! The Frame Collector and the Marker Responder of a port (IEEE 802.1AX-2014, 6.2.3 and 6.5.4): which received frames
//! are handed to the aggregator's client, and how a marker is answered. The functions keep no state and take no memory.
//!
//! In comments, "profile" is docs/PROFILE.md.
#![tactic(auto)]

ghost use Rattle.std.specs.Prelude.{◌≡◌, Some, None};
ghost use Rattle.collector.specs.Collecting.{IsDataFrame, answer_to};
ghost use Rattle.collector.specs.declared.Taken.{Taken};
ghost use Rattle.lagtypes.specs.declared.identifiers.AggId.{AggId};

use lagtypes::AggId;
use slowpdu::{Kind, Marker, classify, respond};

/// What is to be done with a received frame (6.2.3; profile).
#[derive(Clone, Copy, Debug, PartialEq, Eq)]
pub enum Taken {
    /// Hand it to the client of this aggregator.
    Up(AggId),
    /// Drop it.
    Dropped,
}

// promise: a data frame is handed up in the aggregator in which its port is Collecting; any other is dropped
// contract: `collect`
/// Hands a data frame up to the client of the aggregator in which the receiving port is Collecting. Every other frame
/// is dropped: any frame if the port is not Collecting (`None`), a slow protocols frame (EtherType 0x8809), and one of
/// fewer than 14 octets, which is no frame (6.2.3; profile).
pub fn collect(collecting: Option<AggId>, frame: &[u8]) -> Taken
    ensures up { (agg : AggId) → collecting ≡ Some agg → IsDataFrame frame.now → result ≡ Taken.Up agg }
    ensures not_collecting { collecting ≡ None → result ≡ Taken.Dropped }
    ensures no_data { (IsDataFrame frame.now → ⊥) → result ≡ Taken.Dropped }
{
    match (collecting, classify(frame)) {
        (Some(agg), Kind::Data) => Taken::Up(agg),
        _ => Taken::Dropped,
    }
}

// promise: a marker on an enabled port is answered with the same marker of the response type; a response is not
// contract: `answer`
/// The Marker Response to a marker that came on a port: the same port, system and identifier, with the response type.
/// It is to be sent on the same port, in whichever state the mux machine is. None exactly if the link of the port is
/// down (port_enabled false) or the marker is itself a response (6.5.4; profile).
pub fn answer(enabled: bool, marker: &Marker) -> Option<Marker>
    ensures { result ≡ answer_to enabled marker.now }
{
    if enabled { respond(marker) } else { None }
}
