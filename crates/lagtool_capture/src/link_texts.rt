ghost use Rattle.std.specs.Prelude.{Some};
ghost use Rattle.lagtool_capture.specs.LinkTexts.{apart_part, far_part, key_part, link_counts_text, link_line, place_text, state_text};

use crate::finding_texts::PortPart;
use crate::line::{InterfacePart, SinceText};
use crate::links::{Apart, KeyApart, LastSent, Link, LinkCounts, LinkState};
use findings::LinkEnd;
use lagtypes::MacText;
use std::fmt;

/// That an end has another key on another link.
#[derive(Clone, Copy)]
struct KeyPart(KeyApart);

impl fmt::Display for KeyPart {
    ghost output = { λ t. Some (key_part t.0) };

    #[tactic(auto, unfolding(crate::specs::LinkTexts::key_part))]
    fn fmt<W: fmt::Write>(&self, f: &mut fmt::Formatter<W>) -> fmt::Result {
        let apart = self.0;
        write!(
            f,
            "{} has key {} here, and {} on a link in use",
            MacText(&apart.end.source),
            apart.here,
            apart.there
        )
    }
}

/// Why a link is no part of a group with another one.
#[derive(Clone, Copy)]
struct ApartPart(Apart);

impl fmt::Display for ApartPart {
    ghost output = { λ t. Some (apart_part t.0) };

    fn fmt<W: fmt::Write>(&self, f: &mut fmt::Formatter<W>) -> fmt::Result {
        match self.0 {
            Apart::Key(key) => write!(f, "{}", KeyPart(key)),
            Apart::Individual(end) => write!(f, "{} is individual", MacText(&end.source)),
        }
    }
}

/// Whether a link carries, and why not, with times from the first of the capture.
#[derive(Clone, Copy)]
pub(crate) struct StateText {
    pub first: Option<u64>,
    pub state: LinkState,
}

impl fmt::Display for StateText {
    ghost output = { λ t. Some (state_text t.first t.state) };

    fn fmt<W: fmt::Write>(&self, f: &mut fmt::Formatter<W>) -> fmt::Result {
        match self.state {
            LinkState::Carries => f.write_str("carries, both ways"),
            LinkState::CarriesApart(apart) => {
                write!(f, "carries, both ways, apart: {}", ApartPart(apart))
            }
            LinkState::OtherGroup(apart) => write!(f, "does not carry: {}", ApartPart(apart)),
            LinkState::OneSystem => f.write_str(
                "does not carry: both ends have one system address, a loop or a copied identifier",
            ),
            LinkState::BothPassive => f.write_str("does not carry: both ends are passive"),
            LinkState::Quiet => f.write_str("does not carry: neither end sends any more"),
            LinkState::Silent(sent) => {
                let since = SinceText {
                    first: self.first,
                    time: sent.time,
                };
                write!(
                    f,
                    "does not carry: {} sends nothing after {since}",
                    MacText(&sent.sender.source)
                )
            }
            LinkState::HearsNobody(end) => {
                write!(f, "does not carry: {} hears nobody", MacText(&end.source))
            }
            LinkState::BothDeaf => f.write_str("does not carry: neither end hears the other"),
            LinkState::OtherPartner(end) => write!(
                f,
                "does not carry: {} has another partner",
                MacText(&end.source)
            ),
            LinkState::Unattached(end) => write!(
                f,
                "does not carry: {} has not attached it: it uses another aggregator, or has links enough",
                MacText(&end.source)
            ),
            LinkState::Waiting => {
                f.write_str("does not carry: its ends do not collect and distribute")
            }
            LinkState::Alone => f.write_str("not seen: its other end is not in the capture"),
            LinkState::PassiveAlone => f.write_str(
                "not seen: nobody answers, and its end is passive: one end has to be active",
            ),
            LinkState::Unanswered => {
                f.write_str("not seen: nobody answers, and its end may use it alone")
            }
        }
    }
}

/// An end of a link: its source address and its port.
#[derive(Clone, Copy)]
struct PlaceText(LinkEnd);

impl fmt::Display for PlaceText {
    ghost output = { λ t. Some (place_text t.0) };

    #[tactic(auto, unfolding(crate::specs::LinkTexts::place_text))]
    fn fmt<W: fmt::Write>(&self, f: &mut fmt::Formatter<W>) -> fmt::Result {
        let end = self.0;
        let port = PortPart(end.port);
        write!(f, "{}{port}", MacText(&end.source))
    }
}

/// The other end of a link, if it is in the capture.
#[derive(Clone, Copy)]
struct FarPart(Option<LastSent>);

impl fmt::Display for FarPart {
    ghost output = { λ t. Some (far_part t.0) };

    fn fmt<W: fmt::Write>(&self, f: &mut fmt::Formatter<W>) -> fmt::Result {
        match self.0 {
            Some(far) => write!(f, " - {}", PlaceText(far.sender)),
            None => Ok(()),
        }
    }
}

/// The line of a link, with times from the first of the capture.
#[derive(Clone, Copy)]
pub(crate) struct LinkLine {
    pub first: Option<u64>,
    pub link: Link,
}

impl fmt::Display for LinkLine {
    ghost output = { λ t. Some (link_line t.first t.link) };

    #[tactic(auto, unfolding(crate::specs::LinkTexts::link_line))]
    fn fmt<W: fmt::Write>(&self, f: &mut fmt::Formatter<W>) -> fmt::Result {
        let link = self.link;
        let near = PlaceText(link.near.sender);
        let far = FarPart(link.far);
        let interface = InterfacePart(link.near.sender.interface);
        let state = StateText {
            first: self.first,
            state: link.state,
        };
        write!(f, "link {near}{far}{interface}: {state}\n")
    }
}

/// The line with the counts of links.
#[derive(Clone, Copy)]
pub(crate) struct LinkCountsText(pub LinkCounts);

impl fmt::Display for LinkCountsText {
    ghost output = { λ t. Some (link_counts_text t.0) };

    #[tactic(auto, unfolding(crate::specs::LinkTexts::link_counts_text))]
    fn fmt<W: fmt::Write>(&self, f: &mut fmt::Formatter<W>) -> fmt::Result {
        let counts = self.0;
        write!(f, "links {} carrying {}\n", counts.links, counts.carrying)
    }
}
