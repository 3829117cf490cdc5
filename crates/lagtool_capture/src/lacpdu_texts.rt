ghost use Rattle.std.specs.Prelude.{◌≡◌, Some};
ghost use Rattle.lagtool_capture.specs.LacpduTexts.{delay_part, is_nothing, is_renamed, lacpdu_text, name_part, same_part, shown_of, state_part};

use crate::names::{Identity, NameText};
use lagtypes::State;
use slowpdu::{Info, Lacpdu};
use std::fmt;

/// Which fields of an LACPDU its line shows.
#[derive(Clone, Copy, Debug, PartialEq, Eq)]
pub(crate) struct ShownFields {
    pub actor: bool,
    pub actor_state: bool,
    pub partner: bool,
    pub partner_state: bool,
    pub max_delay: bool,
}

/// Whether the identifiers differ.
fn is_renamed(last: &Info, info: &Info) -> bool
    ensures { result ≡ is_renamed last.now info.now }
{
    !Identity::of(last).is(&Identity::of(info))
}

impl ShownFields {
    /// The fields that differ from those of the last LACPDU; all fields if there is none.
    pub fn of(last: Option<Lacpdu>, lacpdu: &Lacpdu) -> ShownFields
        ensures { result ≡ shown_of last lacpdu.now }
    {
        match last {
            Some(last) => ShownFields {
                actor: is_renamed(&last.actor, &lacpdu.actor),
                actor_state: last.actor.state != lacpdu.actor.state,
                partner: is_renamed(&last.partner, &lacpdu.partner),
                partner_state: last.partner.state != lacpdu.partner.state,
                max_delay: last.max_delay != lacpdu.max_delay,
            },
            None => ShownFields {
                actor: true,
                actor_state: true,
                partner: true,
                partner_state: true,
                max_delay: true,
            },
        }
    }

    /// Whether no field is shown.
    fn is_nothing(&self) -> bool
        ensures { result ≡ is_nothing self.now }
    {
        !(self.actor || self.actor_state || self.partner || self.partner_state || self.max_delay)
    }
}

/// A blank, a word and the name of an end, if it is shown.
#[derive(Clone, Copy)]
struct NamePart<'a> {
    is_shown: bool,
    word: &'a str,
    name: NameText,
}

impl fmt::Display for NamePart<'_> {
    ghost output = { λ t. Some (name_part t.is_shown t.word.now t.name.number t.name.identity) };

    fn fmt<W: fmt::Write>(&self, f: &mut fmt::Formatter<W>) -> fmt::Result {
        if self.is_shown {
            write!(f, " {} {}", self.word, self.name)
        } else {
            Ok(())
        }
    }
}

/// A blank, a word and a state, if it is shown.
#[derive(Clone, Copy)]
struct StatePart<'a> {
    is_shown: bool,
    word: &'a str,
    state: State,
}

impl fmt::Display for StatePart<'_> {
    ghost output = { λ t. Some (state_part t.is_shown t.word.now t.state) };

    fn fmt<W: fmt::Write>(&self, f: &mut fmt::Formatter<W>) -> fmt::Result {
        if self.is_shown {
            write!(f, " {} {}", self.word, self.state)
        } else {
            Ok(())
        }
    }
}

/// CollectorMaxDelay, if it is shown.
#[derive(Clone, Copy)]
struct DelayPart {
    is_shown: bool,
    max_delay: u16,
}

impl fmt::Display for DelayPart {
    ghost output = { λ t. Some (delay_part t.is_shown t.max_delay) };

    fn fmt<W: fmt::Write>(&self, f: &mut fmt::Formatter<W>) -> fmt::Result {
        if self.is_shown {
            write!(f, " max-delay {}", self.max_delay)
        } else {
            Ok(())
        }
    }
}

/// The word for an LACPDU of which nothing is shown.
#[derive(Clone, Copy)]
struct SamePart(bool);

impl fmt::Display for SamePart {
    ghost output = { λ t. Some (same_part t.0) };

    fn fmt<W: fmt::Write>(&self, f: &mut fmt::Formatter<W>) -> fmt::Result {
        if self.0 { f.write_str(" same") } else { Ok(()) }
    }
}

/// What the line of a frame says of its LACPDU.
#[derive(Clone, Copy)]
pub(crate) struct LacpduLine {
    pub lacpdu: Lacpdu,
    pub shown: ShownFields,
    /// The number of the actor's short name.
    pub actor: Option<usize>,
    /// The number of the partner's short name.
    pub partner: Option<usize>,
}

impl fmt::Display for LacpduLine {
    ghost output = { λ t. Some (lacpdu_text t.shown t.actor t.partner t.lacpdu) };

    fn fmt<W: fmt::Write>(&self, f: &mut fmt::Formatter<W>) -> fmt::Result {
        let lacpdu = self.lacpdu;
        let shown = self.shown;
        let actor = NamePart {
            is_shown: shown.actor,
            word: "actor",
            name: NameText {
                number: self.actor,
                identity: Identity::of(&lacpdu.actor),
            },
        };
        let actor_state = StatePart {
            is_shown: shown.actor_state,
            word: "state",
            state: lacpdu.actor.state,
        };
        let partner = NamePart {
            is_shown: shown.partner,
            word: "partner",
            name: NameText {
                number: self.partner,
                identity: Identity::of(&lacpdu.partner),
            },
        };
        let partner_state = StatePart {
            is_shown: shown.partner_state,
            word: "partner-state",
            state: lacpdu.partner.state,
        };
        let delay = DelayPart {
            is_shown: shown.max_delay,
            max_delay: lacpdu.max_delay,
        };
        let same = SamePart(shown.is_nothing());
        write!(
            f,
            "lacpdu{actor}{actor_state}{partner}{partner_state}{delay}{same}"
        )
    }
}
