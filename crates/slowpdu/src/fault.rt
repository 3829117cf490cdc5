ghost use Rattle.std.specs.Prelude.{◌≡◌, Some};
ghost use Rattle.slowpdu.specs.Faults.{fault_number};
ghost use Rattle.slowpdu.specs.Texts.{fault_text};

use std::fmt;

/// Why a payload is refused. The faults are checked in the order of the variants; the first that holds is returned
/// (profile).
#[derive(Clone, Copy, Debug, PartialEq, Eq)]
pub enum WireFault {
    /// 1: it has fewer than 110 octets. `have` is how many it has.
    Short { have: usize },
    /// 2: octet 0, the subtype, is neither 1 (LACP) nor 2 (Marker protocol). This is what stands there.
    OtherSubtype(u8),
    /// 3: a TLV length is wrong. `at` is the lowest such offset, `found` what stands there. In an LACPDU the lengths at
    /// 3 and 23 must be 20 and that at 43 must be 16; in a Marker PDU the length at 3 must be 16.
    BadLength { at: usize, found: u8 },
    /// 4: octet 2 of a Marker PDU, the TLV type, is neither 1 (Marker Information) nor 2 (Marker Response Information).
    /// This is what stands there.
    MarkerTlv(u8),
}

impl WireFault {
    /// The number of the fault, 1 to 4 (profile).
    pub fn number(&self) -> u8
        ensures { result ≡ fault_number self.now }
    {
        match self {
            WireFault::Short { .. } => 1,
            WireFault::OtherSubtype(_) => 2,
            WireFault::BadLength { .. } => 3,
            WireFault::MarkerTlv(_) => 4,
        }
    }
}

/// Says what is wrong with the payload, and after a colon what stands there (profile).
impl fmt::Display for WireFault {
    ghost output = { λ fault. Some (fault_text fault) };

    fn fmt<W: fmt::Write>(&self, f: &mut fmt::Formatter<W>) -> fmt::Result {
        match self {
            WireFault::Short { have } => write!(f, "fewer than 110 octets: {have}"),
            WireFault::OtherSubtype(subtype) => write!(
                f,
                "octet 0 names neither LACP (1) nor the Marker protocol (2): {subtype}"
            ),
            WireFault::BadLength { at, found } => {
                write!(f, "the length field at {at} is wrong: {found}")
            }
            WireFault::MarkerTlv(kind) => {
                write!(f, "octet 2 of a Marker PDU is neither 1 nor 2: {kind}")
            }
        }
    }
}
