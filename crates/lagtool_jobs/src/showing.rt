ghost use Rattle.std.specs.Prelude.{◌≡◌, false, Ok, IfOk, IfErr, string_bytes};
ghost use Rattle.hex.specs.Hex.{decode_of};
ghost use Rattle.lagtool_jobs.specs.Engines.{HasNoOctets, Shows};
ghost use Rattle.lagtool_jobs.specs.Reports.{IsTextOfPayload};

use crate::fault::ToolFault;
use crate::report::Outcome;
use crate::texts::{PduText, WireFaultText};
use hex::FromHexError;
use lagstreams::Sink;
use slowpdu::decode;
use std::alloc::{AllocError, Global};
use std::io::Write;

/// The octets of a text in hexadecimal digits, upper or lower case.
pub fn octets_of(alloc: Global, text: &str) -> Result<Vec<u8>, ToolFault>
    ensures ok { IfOk result (λ octets. decode_of text.now ≡ Ok octets.items) }
    ensures err { IfErr result (HasNoOctets text.now) }
{
    match hex::decode(alloc, text) {
        Ok(octets) => Ok(octets),
        Err(FromHexError::OutOfMemory) => Err(ToolFault::NoMemory),
        Err(_) => Err(ToolFault::NotHex),
    }
}

/// What `decode` prints for a payload.
fn report_on(alloc: Global, payload: &[u8]) -> Result<Outcome, AllocError>
    ensures { IfOk result (λ r. IsTextOfPayload payload.now (string_bytes r.text) r.accepted) }
{
    match decode(payload) {
        Ok(pdu) => Ok(Outcome {
            text: format!(in alloc; "{}", PduText(&pdu))?,
            accepted: true,
        }),
        Err(fault) => Ok(Outcome {
            text: format!(in alloc; "{}", WireFaultText(fault))?,
            accepted: false,
        }),
    }
}

// promise: `show`: `NotHex` exactly if HEX is not hexadecimal; else the text for its octets, and true exactly if the payload has a reading
// contract: `show` (`Shows`)
/// Writes what a payload in hexadecimal says; returns whether it is accepted (profile).
///
/// `NotHex` if the text is not hexadecimal, which includes an odd number of digits; `NoMemory` if memory is refused;
/// then nothing is written. `Write` if the sink failed in this call; then nothing or a beginning of the text is
/// written.
pub fn show<W: Write>(alloc: Global, hex: &str, sink: &mut Sink<W>) -> Result<bool, ToolFault>
    requires { sink.old.failed ≡ false }
    ensures { Shows W.contents hex.now sink.old sink.new result }
{
    let octets = octets_of(alloc, hex)?;
    let report = report_on(alloc, octets.as_slice())?;
    sink.put(report.text.as_str().as_bytes())?;
    Ok(report.accepted)
}
