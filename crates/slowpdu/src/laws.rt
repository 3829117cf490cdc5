ghost use Rattle.std.specs.Prelude.{◌≡◌, ◌≤◌, ◌++◌, ◌↔◌, ℕ, List, length, drop, None, Ok};
ghost use Rattle.slowpdu.specs.declared.pdu.Lacpdu.{Lacpdu};
ghost use Rattle.slowpdu.specs.declared.pdu.Marker.{Marker};
ghost use Rattle.slowpdu.specs.declared.pdu.Pdu.{Pdu};
ghost use Rattle.slowpdu.specs.Layout.{AreOctets, payload_len};
ghost use Rattle.slowpdu.specs.Lacpdus.{Reads};
ghost use Rattle.slowpdu.specs.Markers.{ReadsMarker};
ghost use Rattle.slowpdu.specs.Pdus.{ReadsPdu, WritesPdu};
ghost use Rattle.slowpdu.specs.Readings.{pdu_in};
ghost use Rattle.slowpdu.specs.Faults.{fault_of};
ghost use Rattle.slowpdu.specs.Frames.{IsSlowProtocolsFrame, frame_octets};

use crate::decoding::decode;
use crate::fault::WireFault;
use crate::pdu::Pdu;

// promise: a sent payload reads as its PDU and as nothing else, whatever follows; decoding what was encoded gives the PDU
// contract: `what_is_written_is_read`, `encode_then_decode`
/// The octets that `encode` makes of a PDU read as that PDU and as no other, whatever follows them (6.4.2.3, 6.5.3.3;
/// profile).
pub fn what_is_written_is_read()
    ensures reads { (b rest : List ℕ) (v : Pdu) → WritesPdu b v → ReadsPdu (b ++ rest) v }
    ensures only { (b rest : List ℕ) (v w : Pdu) → WritesPdu b v → ReadsPdu (b ++ rest) w → w ≡ v }
{}

/// A PDU has exactly one payload to send (6.4.2.3, 6.5.3.3).
pub fn one_payload_is_written()
    ensures { (b c : List ℕ) (v : Pdu) → WritesPdu b v → WritesPdu c v → b ≡ c }
{}

// promise: a payload has one reading or one fault, never both, never neither, and is never of both kinds; the reading is a function,
//    `pdu_in`
// contract: `one_reading_or_one_fault` (`kinds`, `readings`, `not_both`, `not_neither`, `as_function`)
// not said: what `pdu_in` is of a refused payload
/// A payload either reads as exactly one PDU or has a first fault, never both; and none reads as both an LACPDU and a
/// Marker PDU. The reading is a function of the octets (profile).
pub fn one_reading_or_one_fault()
    ensures kinds { (b : List ℕ) (v : Lacpdu) (m : Marker) → Reads b v → ReadsMarker b m → ⊥ }
    ensures readings { (b : List ℕ) (v w : Pdu) → ReadsPdu b v → ReadsPdu b w → w ≡ v }
    ensures as_function { (b : List ℕ) (v : Pdu) → ReadsPdu b v → pdu_in b ≡ v }
    ensures not_both { (b : List ℕ) (v : Pdu) → ReadsPdu b v → fault_of b ≡ None }
    ensures not_neither { (b : List ℕ) → AreOctets b → fault_of b ≡ None → ((v : Pdu) × ReadsPdu b v) }
{}

/// Octets after the first 110 change neither the reading nor the fault (profile).
pub fn what_follows_is_ignored()
    ensures readings { (b rest : List ℕ) (v : Pdu) → payload_len ≤ length b → (ReadsPdu (b ++ rest) v ↔ ReadsPdu b v) }
    ensures faults { (b rest : List ℕ) → payload_len ≤ length b → fault_of (b ++ rest) ≡ fault_of b }
{}

/// A frame that `frame` makes is classified as a control frame with just the payload it was made of (6.4.2.2, 6.5.3.2).
pub fn what_is_framed_is_control()
    ensures slow { (source payload : List ℕ) → length source ≡ 6 → IsSlowProtocolsFrame (frame_octets source payload) }
    ensures payload { (source payload : List ℕ) → length source ≡ 6 → drop 14 (frame_octets source payload) ≡ payload }
{}

/// Encodes a PDU and decodes the payload again: the result is the PDU (6.4.2.3, 6.5.3.3).
pub fn encode_then_decode(pdu: &Pdu) -> Result<Pdu, WireFault>
    ensures { result ≡ Ok pdu.now }
{
    match pdu {
        Pdu::Lacpdu(lacpdu) => decode(&lacpdu.encode()),
        Pdu::Marker(marker) => decode(&marker.encode()),
    }
}
