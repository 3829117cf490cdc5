ghost use Rattle.std.specs.Prelude.{◌≡◌, ◌≤◌, length, Some, IfSome};
ghost use Rattle.lagtool_capture.specs.Names.{identity_of, identity_text, name_text, named_line, names_text, number_of, same_identity};

use lagtypes::{Key, PortId, SystemId};
use slowpdu::Info;
use std::fmt;

/// The most ends of links that get a short name.
pub const MOST_NAMES: usize = 64;

/// The identifiers by which an LACPDU names one end of a link (6.4.2.3).
#[derive(Clone, Copy, Debug, Default, PartialEq, Eq)]
pub struct Identity {
    /// The System Identifier.
    pub system: SystemId,
    /// The key.
    pub key: Key,
    /// The Port Identifier.
    pub port: PortId,
}

impl Identity {
    /// The identifiers in participant information.
    pub fn of(info: &Info) -> Identity
        ensures { result ≡ identity_of info.now }
    {
        Identity {
            system: info.system,
            key: info.key,
            port: info.port,
        }
    }

    /// Whether all identifiers are equal.
    pub fn is(&self, other: &Identity) -> bool
        ensures { result ≡ same_identity self.now other.now }
    {
        *self == *other
    }
}

/// `SYSTEM key KEY port PORT`.
impl fmt::Display for Identity {
    ghost output = { λ identity. Some (identity_text identity) };

    fn fmt<W: fmt::Write>(&self, f: &mut fmt::Formatter<W>) -> fmt::Result {
        write!(f, "{} key {} port {}", self.system, self.key, self.port)
    }
}

/// The number of an end among those that have short names, from 1; None if it has none.
pub(crate) fn number_of(names: &[Identity], identity: &Identity) -> Option<usize>
    ensures number { result ≡ number_of names.now identity.now }
    ensures among { IfSome result (λ n. n ≤ length names.now) }
{
    for (index, name) in names.iter().enumerate() {
        if name.is(identity) {
            return Some(index + 1);
        }
    }
    None
}

/// The short name of an end; its identifiers if it has none.
#[derive(Clone, Copy)]
pub(crate) struct NameText {
    pub number: Option<usize>,
    pub identity: Identity,
}

impl fmt::Display for NameText {
    ghost output = { λ t. Some (name_text t.number t.identity) };

    fn fmt<W: fmt::Write>(&self, f: &mut fmt::Formatter<W>) -> fmt::Result {
        match self.number {
            Some(number) => write!(f, "P{number}"),
            None => write!(f, "{}", self.identity),
        }
    }
}

/// The line of the legend for an end among those that have short names.
#[derive(Clone, Copy)]
struct NamedLine<'a> {
    names: &'a [Identity],
    identity: Identity,
}

impl fmt::Display for NamedLine<'_> {
    ghost output = { λ t. Some (named_line t.names.now t.identity) };

    #[tactic(auto, unfolding(crate::specs::Names::named_line))]
    fn fmt<W: fmt::Write>(&self, f: &mut fmt::Formatter<W>) -> fmt::Result {
        let identity = self.identity;
        let number = number_of(self.names, &identity);
        let name = NameText { number, identity };
        write!(f, "{name} = {identity}\n")
    }
}

/// The lines of the legend.
#[derive(Clone, Copy)]
pub(crate) struct NamesText<'a> {
    pub names: &'a [Identity],
}

impl fmt::Display for NamesText<'_> {
    ghost output = { λ t. Some (names_text t.names.now t.names.now) };

    fn fmt<W: fmt::Write>(&self, f: &mut fmt::Formatter<W>) -> fmt::Result {
        let names = self.names;
        for name in names {
            let line = NamedLine {
                names,
                identity: *name,
            };
            write!(f, "{line}")?;
        }
        Ok(())
    }
}
