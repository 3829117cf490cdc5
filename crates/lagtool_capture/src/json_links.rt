ghost use Rattle.std.specs.Prelude.{Some};
ghost use Rattle.lagtool_capture.specs.Json.{known_value, link_ends_part, link_record, link_state_part};

use crate::json_ends::{LinkEndValue, PartnerValue};
use crate::link_texts::StateText;
use crate::links::{Link, LinkState};
use std::fmt;

/// True, false, or null if it is not known.
#[derive(Clone, Copy)]
struct KnownValue(Option<bool>);

impl fmt::Display for KnownValue {
    ghost output = { λ t. Some (known_value t.0) };

    fn fmt<W: fmt::Write>(&self, f: &mut fmt::Formatter<W>) -> fmt::Result {
        match self.0 {
            Some(true) => f.write_str("true"),
            Some(false) => f.write_str("false"),
            None => f.write_str("null"),
        }
    }
}

/// What the record of a link says of its ends.
#[derive(Clone, Copy)]
struct LinkEndsPart(Link);

impl fmt::Display for LinkEndsPart {
    ghost output = { λ t. Some (link_ends_part t.0) };

    #[tactic(auto, unfolding(crate::specs::Json::link_ends_part))]
    fn fmt<W: fmt::Write>(&self, f: &mut fmt::Formatter<W>) -> fmt::Result {
        let link = self.0;
        let near = LinkEndValue(link.near.sender);
        let far = PartnerValue(link.far_sender());
        write!(f, "\"record\":\"link\",\"end\":{near},\"partner\":{far}")
    }
}

/// Whether it carries, and why not.
#[derive(Clone, Copy)]
struct LinkStatePart {
    first: Option<u64>,
    state: LinkState,
}

impl fmt::Display for LinkStatePart {
    ghost output = { λ t. Some (link_state_part t.first t.state) };

    #[tactic(auto, unfolding(crate::specs::Json::link_state_part))]
    fn fmt<W: fmt::Write>(&self, f: &mut fmt::Formatter<W>) -> fmt::Result {
        let state = self.state;
        let carries = KnownValue(state.carries());
        let first = self.first;
        let text = StateText { first, state };
        write!(f, "\"carries\":{carries},\"state\":\"{text}\"")
    }
}

/// The record of a link, with times from the first of the capture.
#[derive(Clone, Copy)]
pub(crate) struct LinkRecord {
    pub first: Option<u64>,
    pub link: Link,
}

impl fmt::Display for LinkRecord {
    ghost output = { λ t. Some (link_record t.first t.link) };

    #[tactic(auto, unfolding(crate::specs::Json::link_record))]
    fn fmt<W: fmt::Write>(&self, f: &mut fmt::Formatter<W>) -> fmt::Result {
        let ends = LinkEndsPart(self.link);
        let state = LinkStatePart {
            first: self.first,
            state: self.link.state,
        };
        write!(f, "{{{ends},{state}}}\n")
    }
}
