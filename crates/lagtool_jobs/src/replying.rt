ghost use Rattle.std.specs.Prelude.{◌≡◌, false, IfOk, IfErr, string_bytes};
ghost use Rattle.lagtool_jobs.specs.Engines.{Replies, SaysMac};
ghost use Rattle.lagtool_jobs.specs.Reports.{IsAnswerToMarker, IsMac, IsAnswerToFrame, IsAnswerToPayload};
ghost use Rattle.lagtool_jobs.specs.declared.fault.ToolFault.TheVariants.{NotMac};
ghost use Rattle.slowpdu.specs.Markers.{response_to};

use crate::fault::ToolFault;
use crate::report::Outcome;
use crate::showing::octets_of;
use crate::texts::WireFaultText;
use hex::FromHex;
use lagstreams::Sink;
use slowpdu::{Kind, Marker, Pdu, classify, decode, frame, respond};
use std::alloc::{AllocError, Global};
use std::io::Write;

/// The MAC address in twelve hexadecimal digits.
fn mac_of(text: &str) -> Result<[u8; 6], ToolFault>
    ensures ok { IfOk result (λ mac. IsMac text.now mac) }
    ensures err { IfErr result (λ e. (e ≡ NotMac) × (SaysMac text.now → ⊥)) }
{
    match <[u8; 6] as FromHex>::from_hex(text) {
        Ok(mac) => Ok(mac),
        Err(_) => Err(ToolFault::NotMac),
    }
}

/// What `respond` prints for a frame that gets no response: the line that says why.
fn unanswered(text: String) -> Outcome
    ensures { result ≡ record { text = text; accepted = false } }
{
    Outcome {
        text,
        accepted: false,
    }
}

/// What `respond` prints for a marker or a Marker Response, with this MAC address as the source of the response.
fn answer_marker(alloc: Global, mac: [u8; 6], marker: &Marker) -> Result<Outcome, AllocError>
    ensures { IfOk result (λ r. IsAnswerToMarker mac (string_bytes r.text) r.accepted (response_to marker.now)) }
{
    match respond(marker) {
        Some(response) => {
            let octets = frame(mac, &response.encode());
            let digits = hex::encode(alloc, octets.as_slice())?;
            let text = format!(in alloc; "{digits}\n")?;
            Ok(Outcome {
                text,
                accepted: true,
            })
        }
        None => Ok(unanswered(format!(in alloc; "no answer marker-response\n")?)),
    }
}

/// What `respond` prints for the payload of a control frame.
fn answer_payload(alloc: Global, mac: [u8; 6], payload: &[u8]) -> Result<Outcome, AllocError>
    ensures { IfOk result (λ r. IsAnswerToPayload mac payload.now (string_bytes r.text) r.accepted) }
{
    match decode(payload) {
        Ok(Pdu::Marker(marker)) => answer_marker(alloc, mac, &marker),
        Ok(Pdu::Lacpdu(_)) => Ok(unanswered(format!(in alloc; "no answer lacpdu\n")?)),
        Err(fault) => Ok(unanswered(format!(in alloc; "{}", WireFaultText(fault))?)),
    }
}

/// What `respond` prints for a frame.
fn answer_frame(alloc: Global, mac: [u8; 6], octets: &[u8]) -> Result<Outcome, AllocError>
    ensures { IfOk result (λ r. IsAnswerToFrame mac octets.now (string_bytes r.text) r.accepted) }
{
    match classify(octets) {
        Kind::TooShort => Ok(unanswered(format!(in alloc; "no answer runt\n")?)),
        Kind::Data => Ok(unanswered(format!(in alloc; "no answer data\n")?)),
        Kind::Control(payload) => answer_payload(alloc, mac, payload),
    }
}

// promise: `reply`: `NotMac` first, exactly if MAC is not twelve hexadecimal digits, then `NotHex`; else the answer's frame, a `no answer`
//    line or a refusal, and true exactly for a frame
// contract: `reply` (`Replies`)
// promise: of `show` and `reply`: nothing is written after `NotMac`, `NotHex`, `NoMemory`; after `Write`, with which the sink failed, a beginning
// contract: `show`, `reply`
/// Writes the response to a frame in hexadecimal, with this MAC address as its source; returns whether there is a
/// response (profile).
///
/// `NotMac` if the address is not twelve hexadecimal digits, which is checked first; `NotHex` if the frame is not
/// hexadecimal; `NoMemory` if memory is refused; then nothing is written. `Write` if the sink failed in this call; then
/// nothing or a beginning of the text is written.
pub fn reply<W: Write>(
    alloc: Global,
    mac: &str,
    hex: &str,
    sink: &mut Sink<W>,
) -> Result<bool, ToolFault>
    requires { sink.old.failed ≡ false }
    ensures { Replies W.contents mac.now hex.now sink.old sink.new result }
{
    let source = mac_of(mac)?;
    let octets = octets_of(alloc, hex)?;
    let report = answer_frame(alloc, source, octets.as_slice())?;
    sink.put(report.text.as_str().as_bytes())?;
    Ok(report.accepted)
}
