ghost use Rattle.std.specs.Prelude.{◌≡◌, Some, decimal};
ghost use Rattle.std.specs.Ordering.{is_lt};
ghost use Rattle.lagtypes.specs.Order.{port_cmp, system_cmp};
ghost use Rattle.lagtypes.specs.Texts.{hex_text, mac_text, system_text, port_text};

use std::fmt;

/// A System Identifier: priority and MAC address. Identifiers compare as unsigned numbers, with the priority as the
/// more significant part; the lower number has the higher priority (6.3.2).
#[derive(Clone, Copy, Debug, Default, PartialEq, Eq, PartialOrd, Ord, Hash)]
pub struct SystemId {
    /// The system priority, 0 to 65535.
    pub priority: u16,
    /// The MAC address, its most significant octet first.
    pub mac: [u8; 6],
}

/// A Port Identifier: priority and number. It compares as a System Identifier does (6.3.4).
#[derive(Clone, Copy, Debug, Default, PartialEq, Eq, PartialOrd, Ord, Hash)]
pub struct PortId {
    /// The port priority, 0 to 65535.
    pub priority: u16,
    /// The port number, 0 to 65535. Number 0 may occur in LACPDUs, but no configuration may have it (profile).
    pub number: u16,
}

/// An operational key, 0 to 65535: ports of one system with equal keys may be aggregated (6.3.5).
#[derive(Clone, Copy, Debug, Default, PartialEq, Eq, PartialOrd, Ord, Hash)]
pub struct Key(pub u16);

/// An aggregator of a system: its place in the configuration, from 1 (6.3.3; profile). A system has 1 to 64 of them, and refuses
/// a call that names another one.
#[derive(Clone, Copy, Debug, Default, PartialEq, Eq, PartialOrd, Ord, Hash)]
pub struct AggId(pub u16);

impl SystemId {
    // promise: identifiers compare as unsigned numbers, the priority more significant
    // contract: `SystemId::is_below`, `PortId::is_below`; equality, order and hash are derived with their laws
    /// Whether this identifier is the lower number, so the one with the higher priority (6.3.2).
    pub fn is_below(&self, other: &SystemId) -> bool
        ensures { result ≡ is_lt (system_cmp self.now other.now) }
    {
        self.cmp(other).is_lt()
    }
}

impl PortId {
    /// Whether this identifier is the lower number, so the one with the higher priority (6.3.4).
    pub fn is_below(&self, other: &PortId) -> bool
        ensures { result ≡ is_lt (port_cmp self.now other.now) }
    {
        self.cmp(other).is_lt()
    }
}

/// An octet as two lower-case hexadecimal digits (profile).
#[derive(Clone, Copy)]
pub struct OctetText(pub u8);

impl fmt::Display for OctetText {
    ghost output = { λ o. Some (hex_text o.0) };

    fn fmt<W: fmt::Write>(&self, f: &mut fmt::Formatter<W>) -> fmt::Result {
        let octet = self.0;
        write!(f, "{octet:02x}")
    }
}

/// A MAC address as six hexadecimal numbers of two lower-case digits, joined by dashes (profile).
#[derive(Clone, Copy)]
pub struct MacText<'a>(pub &'a [u8; 6]);

impl fmt::Display for MacText<'_> {
    ghost output = { λ m. Some (mac_text m.0.now) };

    fn fmt<W: fmt::Write>(&self, f: &mut fmt::Formatter<W>) -> fmt::Result {
        let [a, b, c, d, e, last] = *self.0;
        write!(
            f,
            "{}-{}-{}-{}-{}-{}",
            OctetText(a),
            OctetText(b),
            OctetText(c),
            OctetText(d),
            OctetText(e),
            OctetText(last)
        )
    }
}

impl fmt::Display for SystemId {
    ghost output = { λ s. Some (system_text s) };

    fn fmt<W: fmt::Write>(&self, f: &mut fmt::Formatter<W>) -> fmt::Result {
        write!(f, "{}/{}", self.priority, MacText(&self.mac))
    }
}

impl fmt::Display for PortId {
    ghost output = { λ p. Some (port_text p) };

    fn fmt<W: fmt::Write>(&self, f: &mut fmt::Formatter<W>) -> fmt::Result {
        write!(f, "{}/{}", self.priority, self.number)
    }
}

impl fmt::Display for Key {
    ghost output = { λ k. Some (decimal k.0) };

    fn fmt<W: fmt::Write>(&self, f: &mut fmt::Formatter<W>) -> fmt::Result {
        let key = self.0;
        write!(f, "{key}")
    }
}

impl fmt::Display for AggId {
    ghost output = { λ g. Some (decimal g.0) };

    fn fmt<W: fmt::Write>(&self, f: &mut fmt::Formatter<W>) -> fmt::Result {
        let place = self.0;
        write!(f, "{place}")
    }
}
