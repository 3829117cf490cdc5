ghost use Rattle.std.specs.Prelude.{◌≡◌, IsTrue, MatchOption, Ok, Result, Some, length, nat_le};
ghost use Rattle.std.specs.Bool.{IsFalse};
ghost use Rattle.slowpdu.specs.declared.fault.WireFault.{WireFault};
ghost use Rattle.slowpdu.specs.declared.pdu.Pdu.{Pdu};
ghost use Rattle.slowpdu.specs.Layout.{payload_len};
ghost use Rattle.slowpdu.specs.Pdus.{IsDecoded, ReadsPdu, WritesPdu};
ghost use Rattle.lagffi.specs.Codec.{WritesFirst, decoded_of, no_pdu, pdu_after_decode, pdu_of};
ghost use Rattle.lagffi.specs.Numbers.{wrong_buffer_length};

use crate::calls::put_octets;
use crate::codec_values::{LagDecoded, LagPdu, NO_PDU};
use crate::values::{OK, WRONG_BUFFER_LENGTH};
use slowpdu::{Pdu, decode};

/// The octets of a payload (6.4.2.3, 6.5.3.3).
const PAYLOAD_LENGTH: usize = 110;

// promise: a payload is read as `decode` reads it, or refused with 17, its first fault, the offset and the octet
// contract: `lagffi_decode` (`reads`, `answers`: `IsDecoded`)
/// Reads the payload of a control frame, what follows its EtherType 0x8809, and writes its numbers into `pdu`. Octets after the first
/// NIW_PAYLOAD_LENGTH are not looked at. A payload that is refused leaves `pdu` as it was.
/// Refuses: NIW_BAD_PAYLOAD.
#[unsafe(no_mangle)]
pub extern "C" fn lagffi_decode(payload: &[u8], pdu: &mut LagPdu) -> LagDecoded
    ensures answers { (answer : Result Pdu WireFault) × IsDecoded payload.now answer × (result ≡ decoded_of answer)
        × (pdu.new ≡ pdu_after_decode pdu.old answer) }
    // The PDU that the payload reads as is the one with the numbers that are written.
    ensures reads { (v : Pdu) → ReadsPdu payload.now v → (result ≡ decoded_of (Ok v)) × (pdu_of pdu.new ≡ Some v) }
{
    let answer = decode(payload);
    if let Ok(found) = &answer {
        *pdu = LagPdu::of(found);
    }
    LagDecoded::of(&answer)
}

/// The payload that is sent for a PDU.
fn octets_of(pdu: &Pdu) -> [u8; PAYLOAD_LENGTH]
    ensures { WritesPdu result pdu.now }
{
    match pdu {
        Pdu::Lacpdu(lacpdu) => lacpdu.encode(),
        Pdu::Marker(marker) => marker.encode(),
    }
}

// promise: the payload for a PDU is written; numbers of no PDU are refused with 18, below 110 octets with 15
// contract: `lagffi_encode` (`answers`: `WritesFirst`; `room`)
/// Writes the payload of a PDU at the front of `payload`, which has NIW_PAYLOAD_LENGTH octets or more: version 1, and 0 in each
/// reserved octet.
/// Refuses: NIW_BUFFER, NIW_NO_PDU.
#[unsafe(no_mangle)]
pub extern "C" fn lagffi_encode(pdu: &LagPdu, payload: &mut [u8]) -> u32
    ensures room { IsFalse (nat_le payload_len (length payload.old)) → (result ≡ wrong_buffer_length) × (payload.new ≡ payload.old) }
    ensures answers { IsTrue (nat_le payload_len (length payload.old)) → MatchOption (pdu_of pdu.now)
        ((result ≡ no_pdu) × (payload.new ≡ payload.old)) (λ v. (result ≡ 0) × WritesFirst payload.old payload.new v) }
{
    if payload.len() < PAYLOAD_LENGTH {
        return WRONG_BUFFER_LENGTH;
    }
    let Some(found) = pdu.pdu() else {
        return NO_PDU;
    };
    put_octets(&octets_of(&found), payload);
    OK
}
