ghost use Rattle.std.specs.Prelude.{Some};
ghost use Rattle.lagtool_jobs.specs.Texts.{info_text, marker_kind_text, lacpdu_text, marker_text, pdu_text, refusal_text, wire_fault_text};

use lagtypes::MacText;
use slowpdu::{Info, Lacpdu, Marker, MarkerKind, Pdu, WireFault};
use std::fmt;

/// The text of one end: `SYSTEM key K port PORT state HH WORDS`.
#[derive(Clone, Copy)]
struct EndText<'a>(&'a Info);

impl fmt::Display for EndText<'_> {
    ghost output = { λ t. Some (info_text t.0.now) };

    fn fmt<W: fmt::Write>(&self, f: &mut fmt::Formatter<W>) -> fmt::Result {
        let info = self.0;
        write!(
            f,
            "{} key {} port {} state {}",
            info.system, info.key, info.port, info.state
        )
    }
}

/// The name of a kind of Marker PDU.
#[derive(Clone, Copy)]
struct MarkerKindText(MarkerKind);

impl fmt::Display for MarkerKindText {
    ghost output = { λ t. Some (marker_kind_text t.0) };

    fn fmt<W: fmt::Write>(&self, f: &mut fmt::Formatter<W>) -> fmt::Result {
        match self.0 {
            MarkerKind::Information => f.write_str("marker"),
            MarkerKind::Response => f.write_str("marker-response"),
        }
    }
}

/// The four lines for an LACPDU.
#[derive(Clone, Copy)]
struct LacpduText<'a>(&'a Lacpdu);

impl fmt::Display for LacpduText<'_> {
    ghost output = { λ t. Some (lacpdu_text t.0.now) };

    fn fmt<W: fmt::Write>(&self, f: &mut fmt::Formatter<W>) -> fmt::Result {
        let lacpdu = self.0;
        write!(
            f,
            "lacpdu\nactor {}\npartner {}\nmax-delay {}\n",
            EndText(&lacpdu.actor),
            EndText(&lacpdu.partner),
            lacpdu.max_delay
        )
    }
}

/// The two lines for a Marker PDU.
#[derive(Clone, Copy)]
struct MarkerText<'a>(&'a Marker);

impl fmt::Display for MarkerText<'_> {
    ghost output = { λ t. Some (marker_text t.0.now) };

    fn fmt<W: fmt::Write>(&self, f: &mut fmt::Formatter<W>) -> fmt::Result {
        let marker = self.0;
        write!(
            f,
            "{}\nport {} system {} id {}\n",
            MarkerKindText(marker.kind),
            marker.port,
            MacText(&marker.system),
            marker.id
        )
    }
}

/// The lines for a payload that was accepted (profile).
#[derive(Clone, Copy)]
pub struct PduText<'a>(pub &'a Pdu);

impl fmt::Display for PduText<'_> {
    ghost output = { λ t. Some (pdu_text t.0.now) };

    fn fmt<W: fmt::Write>(&self, f: &mut fmt::Formatter<W>) -> fmt::Result {
        match self.0 {
            Pdu::Lacpdu(lacpdu) => write!(f, "{}", LacpduText(lacpdu)),
            Pdu::Marker(marker) => write!(f, "{}", MarkerText(marker)),
        }
    }
}

/// Why a payload is refused (profile).
#[derive(Clone, Copy)]
pub struct RefusalText(pub WireFault);

impl fmt::Display for RefusalText {
    ghost output = { λ t. Some (refusal_text t.0) };

    fn fmt<W: fmt::Write>(&self, f: &mut fmt::Formatter<W>) -> fmt::Result {
        match self.0 {
            WireFault::Short { have } => write!(f, "refused 1 short have {have}"),
            WireFault::OtherSubtype(subtype) => write!(f, "refused 2 subtype {subtype}"),
            WireFault::BadLength { at, found } => {
                write!(f, "refused 3 length at {at} found {found}")
            }
            WireFault::MarkerTlv(kind) => write!(f, "refused 4 marker-tlv {kind}"),
        }
    }
}

/// The line for a payload that was refused (profile).
#[derive(Clone, Copy)]
pub struct WireFaultText(pub WireFault);

impl fmt::Display for WireFaultText {
    ghost output = { λ t. Some (wire_fault_text t.0) };

    fn fmt<W: fmt::Write>(&self, f: &mut fmt::Formatter<W>) -> fmt::Result {
        write!(f, "{}\n", RefusalText(self.0))
    }
}
