ghost use Rattle.std.specs.Prelude.{◌≡◌, ◌<◌, ◌^◌, IfOk, length, string_bytes, take};
ghost use Rattle.std.specs.Str.Lossy.{utf8_valid_len};
ghost use Rattle.distributor.specs.Calls.{index_by_number};
ghost use Rattle.lagpage.specs.Answers.{Answers};
ghost use Rattle.lagpage.specs.Scripts.{SaysNoScript, SaysNoUtf8, TellsNoUtf8, TellsReplay, TellsScript};

use crate::answer::{Answer, answered};
use crate::said::{SCRIPT, said_of_fault};
use crate::told::{Told, make_told};
use lagscript::ScriptFault;
use lagstreams::Sink;
use lagtool_jobs::{ToolFault, replay, script_text, utf8_text};
use std::alloc::{AllocError, Global};

/// The distribution algorithm of `lagtool`, for both systems: the conversation number modulo the count of ports, and
/// 0 if the count is 0 (6.2.4; profile). A function of another crate cannot be handed over itself.
fn by_number(conversation: u16, count: usize) -> usize
    ensures { result ≡ index_by_number conversation count }
{
    distributor::by_number(conversation, count)
}

/// What is said of a text that is no script, with this fault: a line of the fault, and one that says first where it is.
/// `AllocError` if memory is refused.
fn said_of_no_script(alloc: Global, text: &str, fault: ScriptFault) -> Result<String, AllocError>
    ensures { IfOk result (λ said. SaysNoScript text.now fault (string_bytes said)) }
{
    let why = script_text(alloc, SCRIPT, text, fault)?;
    said_of_fault(alloc, ToolFault::Script(fault), why.as_str())
}

/// What is told of a text that is replayed. `AllocError` if memory is refused: nothing else fails in memory.
fn told_of_script(alloc: Global, text: &str) -> Result<Told, AllocError>
    ensures { IfOk result (λ t. TellsScript text.now t) }
{
    let mut sink = Sink::new(Vec::new(alloc));
    match replay(alloc, text, by_number, by_number, &mut sink) {
        Ok(()) => make_told(sink.into_inner(), b"", 0),
        Err(ToolFault::Script(fault)) => {
            let said = said_of_no_script(alloc, text, fault)?;
            make_told(sink.into_inner(), said.as_bytes(), 2)
        }
        Err(_) => Err(AllocError),
    }
}

/// What is said of a file that is no UTF-8 behind these octets. `AllocError` if memory is refused.
fn said_of_no_utf8(alloc: Global, before: &[u8]) -> Result<String, AllocError>
    ensures { IfOk result (λ said. SaysNoUtf8 before.now (string_bytes said)) }
{
    let place = utf8_text(alloc, SCRIPT, before)?;
    said_of_fault(alloc, ToolFault::Read, place.as_str())
}

/// What is told of octets that are no UTF-8 behind so many. `AllocError` if memory is refused.
#[tactic(auto, using(crate::proofs::UtfLemmas::tells_no_text))]
fn told_of_no_utf8(alloc: Global, octets: &[u8], valid: usize) -> Result<Told, AllocError>
    requires valid { valid ≡ utf8_valid_len octets.now }
    requires short { valid < length octets.now }
    ensures { IfOk result (λ t. TellsNoUtf8 octets.now t) }
{
    let said = said_of_no_utf8(alloc, &octets[..valid])?;
    make_told(Vec::new(alloc), said.as_bytes(), 2)
}

/// What `lagtool --explain replay` tells of a file with these octets. `AllocError` if memory is refused.
#[tactic(auto, using(crate::proofs::UtfLemmas::replays, crate::proofs::UtfLemmas::replays_no_text))]
fn told_of_replay(alloc: Global, octets: &[u8]) -> Result<Told, AllocError>
    ensures { IfOk result (λ t. TellsReplay octets.now t) }
{
    match str::from_utf8(octets) {
        Ok(text) => told_of_script(alloc, text),
        Err(error) => told_of_no_utf8(alloc, octets, error.valid_up_to()),
    }
}

// promise: what is told of a script is the report of its run; else its fault, and where it is no UTF-8, no TOML or no script
// contract: `lagpage_replay` (`TellsReplay`)
// not said: the words of the fault, and those behind the place, as in `explain`
/// Replays a script as `lagtool --explain replay script` does. It writes what is printed at the front of `out`, and behind it what
/// is said on standard error: of a text that is no script a line of its fault, and one that says why, with the line and the column
/// where it is no TOML or no UTF-8.
#[unsafe(no_mangle)]
pub extern "C" fn lagpage_replay(alloc: Global, script: &[u8], out: &mut [u8], answer: &mut Answer)
    ensures { Answers (λ t. TellsReplay script.now t) out.old out.new answer.new }
{
    let told = told_of_replay(alloc, script);
    *answer = answered(&told, out);
}
