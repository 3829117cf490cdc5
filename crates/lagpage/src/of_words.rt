ghost use Rattle.std.specs.Prelude.{◌≡◌, IfOk, codes, string_bytes};
ghost use Rattle.lagpage.specs.Answers.{Answers};
ghost use Rattle.lagpage.specs.Words.{SaysNoHex, SaysNoMac, TellsDecode, TellsDecodeOf, TellsNoWord, TellsRespond, TellsRespondOf};

use crate::answer::{Answer, answered};
use crate::said::said_of_fault;
use crate::told::{Told, make_told};
use lagstreams::Sink;
use lagtool_jobs::{ToolFault, digits_text, reply, show, status_of};
use std::alloc::{AllocError, Global};

/// What is said of a word that is no octets in hexadecimal. `AllocError` if memory is refused.
fn said_of_no_hex(alloc: Global, hex: &str) -> Result<String, AllocError>
    ensures { IfOk result (λ said. SaysNoHex hex.now (string_bytes said)) }
{
    let more = digits_text(alloc, "HEX", hex, "is an even number")?;
    said_of_fault(alloc, ToolFault::NotHex, more.as_str())
}

/// What is said of a word that is no MAC address. `AllocError` if memory is refused.
fn said_of_no_mac(alloc: Global, mac: &str) -> Result<String, AllocError>
    ensures { IfOk result (λ said. SaysNoMac mac.now (string_bytes said)) }
{
    let more = digits_text(alloc, "MAC", mac, "are 12")?;
    said_of_fault(alloc, ToolFault::NotMac, more.as_str())
}

/// What is told of a word that is not UTF-8. `AllocError` if memory is refused.
fn told_of_no_word(alloc: Global) -> Result<Told, AllocError>
    ensures { IfOk result (λ t. TellsNoWord t) }
{
    make_told(Vec::new(alloc), "a word is not UTF-8".as_bytes(), 2)
}

/// What `lagtool --explain decode` tells of a word. `AllocError` if memory is refused: nothing else fails in memory.
fn told_of_decode(alloc: Global, hex: &str) -> Result<Told, AllocError>
    ensures { IfOk result (λ t. TellsDecodeOf hex.now t) }
{
    let mut sink = Sink::new(Vec::new(alloc));
    let accepted = show(alloc, hex, &mut sink);
    let status = u32::from(status_of(&accepted));
    match accepted {
        Ok(_) => make_told(sink.into_inner(), b"", status),
        Err(ToolFault::NotHex) => {
            let said = said_of_no_hex(alloc, hex)?;
            make_told(sink.into_inner(), said.as_bytes(), status)
        }
        Err(_) => Err(AllocError),
    }
}

/// What `lagtool --explain respond` tells of two words. `AllocError` if memory is refused: nothing else fails in memory.
fn told_of_respond(alloc: Global, mac: &str, hex: &str) -> Result<Told, AllocError>
    ensures { IfOk result (λ t. TellsRespondOf mac.now hex.now t) }
{
    let mut sink = Sink::new(Vec::new(alloc));
    let answered = reply(alloc, mac, hex, &mut sink);
    let status = u32::from(status_of(&answered));
    match answered {
        Ok(_) => make_told(sink.into_inner(), b"", status),
        Err(ToolFault::NotMac) => {
            let said = said_of_no_mac(alloc, mac)?;
            make_told(sink.into_inner(), said.as_bytes(), status)
        }
        Err(ToolFault::NotHex) => {
            let said = said_of_no_hex(alloc, hex)?;
            make_told(sink.into_inner(), said.as_bytes(), status)
        }
        Err(_) => Err(AllocError),
    }
}

/// What is told of the word of `decode`, whatever octets it has.
#[tactic(auto, using(crate::proofs::UtfLemmas::decodes, crate::proofs::UtfLemmas::decodes_no_text))]
fn told_of_decoded(alloc: Global, hex: &[u8]) -> Result<Told, AllocError>
    ensures { IfOk result (λ t. TellsDecode hex.now t) }
{
    match str::from_utf8(hex) {
        Ok(hex) => told_of_decode(alloc, hex),
        Err(_) => told_of_no_word(alloc),
    }
}

/// What is told of the words of `respond`, whatever octets they have.
#[tactic(auto, using(crate::proofs::UtfLemmas::responds, crate::proofs::UtfLemmas::responds_no_text))]
fn told_of_answered(alloc: Global, mac: &[u8], hex: &[u8]) -> Result<Told, AllocError>
    ensures { IfOk result (λ t. TellsRespond mac.now hex.now t) }
{
    match str::from_utf8(mac) {
        Ok(mac) => match str::from_utf8(hex) {
            Ok(hex) => told_of_respond(alloc, mac, hex),
            Err(_) => told_of_no_word(alloc),
        },
        Err(_) => told_of_no_word(alloc),
    }
}

// promise: what is told of a payload, of a frame that is to be answered and of the vectors is what `show`, `reply` and `vectors` write, and
//    their status
// contract: `lagpage_decode`, `lagpage_respond`, `lagpage_vectors` (`TellsDecode`, `TellsRespond`, `TellsVectors`)
// not said: the character that is no digit
/// Says what a payload in hexadecimal is as `lagtool --explain decode` does. It writes what is printed at the front of `out`, and
/// behind it what is said on standard error.
#[unsafe(no_mangle)]
pub extern "C" fn lagpage_decode(alloc: Global, hex: &[u8], out: &mut [u8], answer: &mut Answer)
    ensures { Answers (λ t. TellsDecode hex.now t) out.old out.new answer.new }
{
    let told = told_of_decoded(alloc, hex);
    *answer = answered(&told, out);
}

/// Answers a frame in hexadecimal, with this MAC address as the source, as `lagtool --explain respond` does. It writes what is
/// printed at the front of `out`, and behind it what is said on standard error.
#[unsafe(no_mangle)]
pub extern "C" fn lagpage_respond(
    alloc: Global,
    mac: &[u8],
    hex: &[u8],
    out: &mut [u8],
    answer: &mut Answer,
)
    ensures { Answers (λ t. TellsRespond mac.now hex.now t) out.old out.new answer.new }
{
    let told = told_of_answered(alloc, mac, hex);
    *answer = answered(&told, out);
}
