use crate::comparing::{same, same_at};
use lagstreams::Sink;
use lagtool_jobs::{
    ALONE, ALONE_TEXT, DATA_FRAME, Expectation, LACPDU, LACPDU_AND_MORE, LACPDU_OF_VERSION_2,
    LACPDU_TEXT, MARKER_FRAME, MARKER_OF_TYPE_3, Pieces, RESPONSE_FRAME, SHORT, SUBTYPE_3, Summary,
    TWO_BAD_LENGTHS, UP, UP_TEXT, VECTORS, run_vectors,
};
use slowpdu::WireFault;
use std::alloc::{AllocError, Global};
use std::process::Abort;
use std::test::Fail;

/// The number of a vector, the place of one of its expectations, from 0, and what is expected there by mistake.
type Mistake = (usize, usize, Expectation<'static>);

fn shows(payload: Pieces, accepted: bool, text: &'static str) -> Expectation<'static> {
    Expectation::Shows {
        payload,
        accepted,
        text,
    }
}

fn replies(frame: Pieces, answered: bool, text: Pieces) -> Expectation<'static> {
    Expectation::Replies {
        frame,
        answered,
        text,
    }
}

fn ignores(payloads: &'static [Pieces], cause: WireFault) -> Expectation<'static> {
    Expectation::Ignores { payloads, cause }
}

fn replays(events: &'static str, text: &'static str) -> Expectation<'static> {
    Expectation::Replays { events, text }
}

/// The text that a run of the ten vectors writes if this one alone fails, or none with this number.
pub(crate) fn report(alloc: Global, failing: usize, failed: u64) -> Result<String, AllocError> {
    let mut text = String::new(alloc);
    for place in 1..=10usize {
        let result = if place == failing { "failed" } else { "ok" };
        write!(text, "V{place} {result}\n")?;
    }
    write!(text, "vectors 10 failed {failed}\n")?;
    Ok(text)
}

/// With this mistake in their place, the vectors run so that the one with the mistake fails and no other.
fn is_found(
    rt: &(impl Abort + AllocGlobal),
    (number, place, mistake): Mistake,
) -> Result<(), Fail> {
    let alloc = rt.alloc();
    let mut expected = Vec::new(alloc);
    for (at, known) in VECTORS.iter().enumerate() {
        let mut changed = Vec::from_slice(alloc, *known)?;
        if at + 1 == number {
            let is_there = place < changed.len();
            same_at(rt, "an expectation of V", number, &is_there, &true);
            if is_there {
                changed[place] = mistake;
            }
        }
        expected.push(changed)?;
    }
    let mut vectors = Vec::new(alloc);
    for changed in &expected {
        vectors.push(changed.as_slice())?;
    }
    let mut sink = Sink::new(Vec::new(alloc));
    let summary = run_vectors(alloc, vectors.as_slice(), &mut sink)?;
    let (checked, faults) = (10, 1);
    same_at(
        rt,
        "summary at V",
        number,
        &summary,
        &Summary { checked, faults },
    );
    let written = String::from_utf8_lossy(alloc, sink.into_inner().as_slice())?;
    let wanted = report(alloc, number, 1)?;
    let came = (number, place, written.as_str());
    let wanted = (number, place, wanted.as_str());
    same(rt, "vector, place and lines", &came, &wanted);
    Ok(())
}

/// Other texts of payloads, other verdicts, and payloads that are not encoded so.
fn mistakes_in_payloads() -> [Mistake; 14] {
    [
        (1, 0, shows(LACPDU, true, "lacpdu\n")),
        (1, 0, shows(LACPDU, false, LACPDU_TEXT)),
        (1, 1, Expectation::Encodes(LACPDU_OF_VERSION_2)),
        (1, 1, Expectation::Encodes(LACPDU_AND_MORE)),
        (1, 1, Expectation::Encodes(MARKER_OF_TYPE_3)),
        (2, 0, shows(LACPDU_OF_VERSION_2, true, "lacpdu\n")),
        (2, 0, shows(LACPDU_OF_VERSION_2, false, LACPDU_TEXT)),
        (3, 0, shows(SHORT, false, "refused 1 short have 110\n")),
        (3, 0, shows(SHORT, true, "refused 1 short have 109\n")),
        (3, 1, shows(LACPDU_AND_MORE, false, LACPDU_TEXT)),
        (3, 2, shows(&[], false, "refused 1 short have 1\n")),
        (
            4,
            0,
            shows(TWO_BAD_LENGTHS, false, "refused 3 length at 43 found 15\n"),
        ),
        (5, 0, shows(SUBTYPE_3, false, "refused 2 subtype 1\n")),
        (
            8,
            0,
            shows(MARKER_OF_TYPE_3, false, "refused 4 marker-tlv 1\n"),
        ),
    ]
}

const OTHER: &[Pieces] = &[SUBTYPE_3];

const TAKEN: &[Pieces] = &[LACPDU];

/// The LACPDU is taken and changes the port; the payload behind it is ignored.
const TAKEN_AND_OTHER: &[Pieces] = &[LACPDU, SUBTYPE_3];

/// Other causes, other answers to frames, and other reports.
fn mistakes_in_frames_and_reports() -> [Mistake; 13] {
    let other = WireFault::OtherSubtype(3);
    [
        (5, 1, ignores(OTHER, WireFault::OtherSubtype(4))),
        (5, 1, ignores(OTHER, WireFault::OtherSubtype(1))),
        (5, 1, ignores(TAKEN, other)),
        (5, 1, ignores(TAKEN_AND_OTHER, other)),
        (6, 0, replies(MARKER_FRAME, true, RESPONSE_FRAME)),
        (
            6,
            0,
            replies(MARKER_FRAME, false, &[("no answer data\n", 1)]),
        ),
        (
            7,
            0,
            replies(RESPONSE_FRAME, false, &[("no answer marker\n", 1)]),
        ),
        (7, 1, replies(DATA_FRAME, false, &[("no answer runt\n", 1)])),
        (7, 1, replies(DATA_FRAME, true, &[("no answer data\n", 1)])),
        (9, 0, replays(ALONE, UP_TEXT)),
        (10, 0, replays(UP, ALONE_TEXT)),
        (10, 0, replays(UP, "")),
        (10, 0, replays("events = [\"cut 0\"]\n", "")),
    ]
}

#[test]
fn each_mistake_in_a_vector_is_found(rt: HostRuntime) -> Result<(), Fail> {
    for mistake in mistakes_in_payloads() {
        is_found(&rt, mistake)?;
    }
    for mistake in mistakes_in_frames_and_reports() {
        is_found(&rt, mistake)?;
    }
    Ok(())
}
