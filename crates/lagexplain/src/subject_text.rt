ghost use Rattle.std.specs.Prelude.{Some};
ghost use Rattle.lagexplain.specs.Explanations.{subject_text};

use lagscript::ScriptFault;
use std::fmt;

/// The beginning of an explanation: the system, port, cable or entry of a script that a fault names, and behind it `: `,
/// ` has ` or a space; nothing where the fault is of the whole (profile).
#[derive(Clone, Copy)]
pub(crate) struct SubjectText(pub ScriptFault);

impl fmt::Display for SubjectText {
    ghost output = { λ t. Some (subject_text t.0) };

    fn fmt<W: fmt::Write>(&self, f: &mut fmt::Formatter<W>) -> fmt::Result {
        match self.0 {
            ScriptFault::SystemExtraKey(system)
            | ScriptFault::SystemValue(system, _)
            | ScriptFault::MaxLinks(system)
            | ScriptFault::ConversationCount(system) => write!(f, "system {system}: "),
            ScriptFault::Ports(system) | ScriptFault::AggregatorCount(system) => {
                write!(f, "system {system} has ")
            }
            ScriptFault::PortExtraKey(system, place)
            | ScriptFault::PortValue(system, place, _)
            | ScriptFault::PortNumber(system, place) => write!(f, "system {system} port {place}: "),
            ScriptFault::CableExtraKey(place)
            | ScriptFault::CableEnds(place)
            | ScriptFault::CableLimit(place)
            | ScriptFault::CableEnd(place) => write!(f, "cable {place}: "),
            ScriptFault::Entry(place, _) => write!(f, "event {place} "),
            ScriptFault::NotToml
            | ScriptFault::ExtraKey
            | ScriptFault::Systems
            | ScriptFault::Cables
            | ScriptFault::Events
            | ScriptFault::SameSystem
            | ScriptFault::NoMemory => Ok(()),
        }
    }
}
