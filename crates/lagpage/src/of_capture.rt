ghost use Rattle.std.specs.Prelude.{◌≡◌, ◌⊎◌, IfErr, IfOk, IsTrue, None, is_some};
ghost use Rattle.lagpage.specs.Answers.{done, no_memory};
ghost use Rattle.lagpage.specs.Captures.{settings_with};
ghost use Rattle.lagpage.specs.Pieces.{Advances, Continues, History, IsHeldBy, ended_at, fed_with, opened};

use crate::answer::{Answer, DONE, NO_MEMORY, answered};
use crate::handle::LagpageCapture;
use crate::pieces::Pieces;
use crate::told::Told;
use lagtool_capture::Settings;
use std::alloc::{AllocError, Global};

/// The options of a capture, each on where its number is above 0.
fn settings_with(all: u32, no_frames: u32, json: u32) -> Settings
    ensures { result ≡ settings_with all no_frames json }
{
    Settings {
        all: all > 0,
        frames: no_frames == 0,
        json: json > 0,
    }
}

/// What is told behind a piece more. `AllocError` if memory is refused, or the handle holds no capture.
fn told_behind(
    alloc: Global,
    capture: &mut LagpageCapture,
    piece: &[u8],
    room: usize,
) -> Result<Told, AllocError>
    ensures holds { IfOk result (λ t. IsTrue (is_some capture.old.held.kept)) }
    ensures refused { IfErr result (λ e. capture.new.held.kept ≡ None) }
    ensures continues { (h : History) → IsHeldBy h capture.old.held.kept
        → IfOk result (λ t. Continues (fed_with piece.now h) room capture.new.held.kept t) }
{
    match capture.take(alloc) {
        Some(taken) => {
            let mut pieces = taken;
            pieces.feed(piece)?;
            let told = pieces.hand_out(alloc, room)?;
            capture.put(pieces);
            Ok(told)
        }
        None => Err(AllocError),
    }
}

/// What is told at the end. `AllocError` if memory is refused, or the handle holds no capture.
fn told_at_end(alloc: Global, capture: &mut LagpageCapture, room: usize) -> Result<Told, AllocError>
    ensures holds { IfOk result (λ t. IsTrue (is_some capture.old.held.kept)) }
    ensures refused { IfErr result (λ e. capture.new.held.kept ≡ None) }
    ensures continues { (h : History) → IsHeldBy h capture.old.held.kept
        → IfOk result (λ t. Continues (ended_at h) room capture.new.held.kept t) }
{
    match capture.take(alloc) {
        Some(taken) => {
            let mut pieces = taken;
            pieces.end(alloc)?;
            let told = pieces.hand_out(alloc, room)?;
            capture.put(pieces);
            Ok(told)
        }
        None => Err(AllocError),
    }
}

/// Opens a capture that comes in pieces: with `--all`, `--no-frames` and `--json` of `lagtool`, where these numbers are above 0. One that
/// the handle held is dropped. It returns 0, or 2 if memory was refused.
#[unsafe(no_mangle)]
pub extern "C" fn lagpage_open(
    alloc: Global,
    capture: &mut LagpageCapture,
    all: u32,
    no_frames: u32,
    json: u32,
) -> u64
    ensures { ((result ≡ done) × IsHeldBy (opened (settings_with all no_frames json)) capture.new.held.kept)
        ⊎ ((result ≡ no_memory) × (capture.new.held.kept ≡ None)) }
{
    drop(capture.take(alloc));
    match Box::new(
        alloc,
        Pieces::new(alloc, settings_with(all, no_frames, json)),
    ) {
        Ok(pieces) => {
            capture.put(pieces);
            DONE
        }
        Err(_) => NO_MEMORY,
    }
}

// promise: a call writes what is told at the front of the buffer, if that has room for all of it; else it answers 1 and how much it takes,
//    and the buffer stays; 2 if memory was refused
// contract: each export (`Answers`, `Advances`)
// not said: that memory is refused only if there is none; the host's part, in `lib.rt`
// promise: of a capture that comes in pieces, what is told in all is the lines of what was fed, and at the end the report on all of it, the
//    status and, where it is not read on, why; printed text is told until it is written, and once
// contract: `lagpage_open`, `lagpage_feed`, `lagpage_end` (`Advances`, `Continues`)
/// Explains a piece more of an open capture. It writes what is printed of all that was fed, and was not written by an earlier call, at the
/// front of `out`; where that has no room, a later call writes it, as one with an empty piece. It answers 2 where no capture is open.
#[unsafe(no_mangle)]
pub extern "C" fn lagpage_feed(
    alloc: Global,
    capture: &mut LagpageCapture,
    piece: &[u8],
    out: &mut [u8],
    answer: &mut Answer,
)
    ensures { Advances (fed_with piece.now) capture.old.held.kept capture.new.held.kept out.old out.new answer.new }
{
    let told = told_behind(alloc, capture, piece, out.len());
    *answer = answered(&told, out);
}

/// Ends an open capture. It writes the rest of what is printed at the front of `out`, and behind it what is said on standard error; where
/// that has no room, a later call writes it. It answers 2 where no capture is open.
#[unsafe(no_mangle)]
pub extern "C" fn lagpage_end(
    alloc: Global,
    capture: &mut LagpageCapture,
    out: &mut [u8],
    answer: &mut Answer,
)
    ensures { Advances ended_at capture.old.held.kept capture.new.held.kept out.old out.new answer.new }
{
    let told = told_at_end(alloc, capture, out.len());
    *answer = answered(&told, out);
}
