ghost use Rattle.std.specs.Prelude.{◌≡◌, false};

use crate::comparing::{same, same_at};
use crate::pieces::{DATA, Words, joined};
use crate::slow::sink_of;
use lagstreams::Source;
use lagtool_jobs::{Summary, ToolFault, check};
use std::alloc::{AllocError, Global};
use std::io;
use std::io::Read;
use std::process::Abort;
use std::test::Fail;

/// A reader that gives `first` octets, then `size` octets in each read, and fails after a number of reads.
#[derive(Drop)]
pub(crate) struct Piecewise<'a> {
    pub rest: &'a [u8],
    pub first: usize,
    pub size: usize,
    pub reads: usize,
}

impl Read for Piecewise<'_> {
    fn read(&mut self, buf: &mut [u8]) -> io::Result<usize> {
        if self.reads == 0 {
            return Err(io::Error::from(io::ErrorKind::BrokenPipe));
        }
        self.reads -= 1;
        let n = self.first.min(self.rest.len()).min(buf.len());
        let (now, later) = self.rest.split_at(n);
        buf[..n].copy_from_slice(now);
        self.rest = later;
        self.first = self.size;
        Ok(n)
    }
}

/// A reader of these octets that does not fail.
pub(crate) fn whole(rest: &[u8]) -> Piecewise<'_> {
    Piecewise {
        rest,
        first: usize::MAX,
        size: usize::MAX,
        reads: usize::MAX,
    }
}

/// The outcome of a check: its result, what was written, and whether source and sink failed.
#[derive(Debug, PartialEq, Drop)]
struct Outcome {
    answer: Result<Summary, ToolFault>,
    text: String,
    failed: (bool, bool),
}

fn source_of(reader: Piecewise<'_>) -> Source<Piecewise<'_>>
    ensures { result.failed ≡ false }
{
    Source::new(reader)
}

/// The outcome of a check into a writer that accepts one octet at a time while it has room, and then none, or returns
/// an error.
fn outcome_into(
    alloc: Global,
    reader: Piecewise<'_>,
    room: usize,
    errs: bool,
) -> Result<Outcome, AllocError> {
    let mut source = source_of(reader);
    let mut sink = sink_of(alloc, room, errs);
    let answer = check(alloc, &mut source, &mut sink);
    let failed = (source.failed(), sink.failed());
    let text = String::from_utf8_lossy(alloc, sink.into_inner().taken.as_slice())?;
    Ok(Outcome {
        answer,
        text,
        failed,
    })
}

fn outcome_of(alloc: Global, reader: Piecewise<'_>) -> Result<Outcome, AllocError> {
    outcome_into(alloc, reader, usize::MAX, false)
}

/// The expected outcome of a check that succeeds: a line for each of these verdicts, and this number of faults.
fn wanted(alloc: Global, verdicts: &[&str], faults: u64) -> Result<Outcome, AllocError> {
    let mut text = String::new(alloc);
    let mut checked = 0u64;
    for verdict in verdicts {
        checked = checked.wrapping_add(1);
        write!(text, "{checked} {verdict}\n")?;
    }
    write!(text, "checked {checked} faults {faults}\n")?;
    Ok(Outcome {
        answer: Ok(Summary { checked, faults }),
        text,
        failed: (false, false),
    })
}

/// A check of these octets says this of each line, and counts these faults.
fn says(
    rt: &(impl Abort + AllocGlobal),
    octets: &[u8],
    verdicts: &[&str],
    faults: u64,
) -> Result<(), Fail> {
    let seen = outcome_of(rt.alloc(), whole(octets))?;
    let said = wanted(rt.alloc(), verdicts, faults)?;
    same(rt, "outcome", &seen, &said);
    Ok(())
}

/// A line, its verdict, and whether it is a fault.
const LINES: [(Words, &str, u64); 13] = [
    ("TO_ALL FROM_1 SLOW HEAD 00*66", "lacpdu", 0),
    ("TO_ALL FROM_1 SLOW MARKER 00*92", "marker", 0),
    ("TO_ALL FROM_1 SLOW RESPONSE 00*94", "marker-response", 0),
    ("DATA", "data", 0),
    ("02*12 88cc", "data", 0),
    ("02*12 0809", "data", 0),
    ("02*13", "runt", 1),
    ("02*12 SLOW", "refused 1 short have 0", 1),
    ("02*12 SLOW 03 00*109", "refused 2 subtype 3", 1),
    (
        "02*12 SLOW 0201010f 00*106",
        "refused 3 length at 3 found 15",
        1,
    ),
    ("02*12 SLOW 02010310 00*106", "refused 4 marker-tlv 3", 1),
    ("zz", "not hex", 1),
    ("0", "not hex", 1),
];

/// 14 octets with a space behind each.
const SPACED: &str = "02 02 02 02 02 02 02 02 02 02 02 02 02 02 ";

/// This is said of a line, whatever its end.
fn says_of(
    rt: &(impl Abort + AllocGlobal),
    digits: &str,
    verdict: &str,
    faults: u64,
) -> Result<(), Fail> {
    for end in ["\n", "\r\n", "", "\r"] {
        let line = format!(in rt.alloc(); "{digits}{end}")?;
        says(rt, line.as_bytes(), &[verdict], faults)?;
    }
    Ok(())
}

#[test]
fn each_verdict(rt: HostRuntime) -> Result<(), Fail> {
    for (words, verdict, faults) in LINES {
        says_of(&rt, joined(rt.alloc(), words)?.as_str(), verdict, faults)?;
    }
    says_of(&rt, SPACED, "not hex", 1)
}

/// The response to a marker, from port 2.
const ANSWER: Words = "TO_ALL FROM_2 SLOW RESPONSE 00*94";

/// A marker response, a runt, a line that is not hexadecimal and a data frame.
pub(crate) fn four_lines(alloc: Global) -> Result<String, AllocError> {
    let answer = joined(alloc, ANSWER)?;
    format!(in alloc; "{answer}\n00\nzz\n{DATA}\n")
}

#[test]
fn a_file_of_frames(rt: HostRuntime) -> Result<(), Fail> {
    let file = four_lines(rt.alloc())?;
    let verdicts = ["marker-response", "runt", "not hex", "data"];
    says(&rt, file.as_bytes(), &verdicts, 2)?;
    says(&rt, b"", &[], 0)?;
    // No line has a digit; one carriage return at the end of a line is dropped.
    let verdicts = ["runt", "runt", "not hex", "runt"];
    says(&rt, b"\n\r\n\r\r\n\r", &verdicts, 4)?;
    let file = joined(rt.alloc(), "00\n*1000")?;
    says(&rt, file.as_bytes(), &["runt"; 1_000], 1_000)
}

/// A line without its end, its end, and what is said of it.
const LENGTHS: [(Words, &str, &str); 7] = [
    ("0*65472 0*62", "\r\n", "data"),
    ("0*65472 0*63", "\n", "not hex"),
    ("0*65472 0*63", "\r\n", "not hex"),
    ("0*65472 0*64", "\n", "data"),
    ("0*65472 0*64", "\r\n", "too long"),
    ("0*65472 0*65", "\n", "too long"),
    ("0*65472 0*66", "\n", "too long"),
];

/// A frame behind each line is read as one.
#[test]
fn a_line_of_each_length_around_the_limit(rt: HostRuntime) -> Result<(), Fail> {
    for (words, end, verdict) in LENGTHS {
        let line = joined(rt.alloc(), words)?;
        let lines = format!(in rt.alloc(); "{line}{end}{DATA}")?;
        let faults = u64::from(verdict != "data");
        says(&rt, lines.as_bytes(), &[verdict, "data"], faults)?;
    }
    Ok(())
}

/// What is said of the first octets of a frame of this kind.
fn verdict_on(alloc: Global, n: u64, kind: &str) -> Result<String, AllocError> {
    let have = n.saturating_sub(14);
    match n {
        0..=13 => String::from_str(alloc, "runt"),
        124 => String::from_str(alloc, kind),
        _ => format!(in alloc; "refused 1 short have {have}"),
    }
}

/// Each beginning of a frame.
fn truncated(rt: &(impl Abort + AllocGlobal), words: Words, kind: &str) -> Result<(), Fail> {
    let frame = joined(rt.alloc(), words)?;
    for n in 0u64..=124 {
        let count = (n as usize * 2).min(frame.len());
        let verdict = verdict_on(rt.alloc(), n, kind)?;
        let faults = u64::from(n < 124);
        let mut line = Vec::from_slice(rt.alloc(), &frame.as_bytes()[..count])?;
        line.push(b'\n')?;
        says(rt, line.as_slice(), &[verdict.as_str()], faults)?;
    }
    Ok(())
}

#[test]
fn truncated_frames(rt: HostRuntime) -> Result<(), Fail> {
    let (lacpdu, _, _) = LINES[0];
    truncated(&rt, lacpdu, "lacpdu")?;
    truncated(&rt, ANSWER, "marker-response")
}

pub(crate) const FILE: &[u8] = b"00\nzz\r\n\n0200000000200200000000100800\r\n0";

const VERDICTS: [&str; 5] = ["runt", "not hex", "runt", "data", "not hex"];

/// This is said of the file, whose first read gives so many octets, and each later one so many.
fn says_of_reads(rt: &(impl Abort + AllocGlobal), first: usize, size: usize) -> Result<(), Fail> {
    let reader = Piecewise {
        rest: FILE,
        first,
        size,
        reads: usize::MAX,
    };
    let seen = outcome_of(rt.alloc(), reader)?;
    let said = wanted(rt.alloc(), &VERDICTS, 4)?;
    let (came, wanted) = ((first, size, seen), (first, size, said));
    same(rt, "first read, later reads and outcome", &came, &wanted);
    Ok(())
}

#[test]
fn reads_cut_at_every_place(rt: HostRuntime) -> Result<(), Fail> {
    for first in 1..=FILE.len() {
        says_of_reads(&rt, first, 1)?;
        says_of_reads(&rt, first, 2)?;
        says_of_reads(&rt, first, usize::MAX)?;
    }
    Ok(())
}

/// After so many reads the next one fails; these lines were ended by then.
fn read_fails(rt: &(impl Abort + AllocGlobal), reads: usize, text: &str) -> Result<(), Fail> {
    let reader = Piecewise {
        rest: FILE,
        first: 1,
        size: 1,
        reads,
    };
    let seen = outcome_of(rt.alloc(), reader)?;
    let said = Outcome {
        answer: Err(ToolFault::Read),
        text: String::from_str(rt.alloc(), text)?,
        failed: (true, false),
    };
    same_at(rt, "the failing read", reads, &seen, &said);
    Ok(())
}

#[test]
fn each_read_fails(rt: HostRuntime) -> Result<(), Fail> {
    let mut text = String::new(rt.alloc());
    let mut line = 0usize;
    for reads in 0..=FILE.len() {
        read_fails(&rt, reads, text.as_str())?;
        if reads < FILE.len() && FILE[reads] == b'\n' && line < VERDICTS.len() {
            let verdict = VERDICTS[line];
            line += 1;
            write!(text, "{line} {verdict}\n")?;
        }
    }
    Ok(())
}

/// The writer has room for this text alone.
fn write_fails(rt: &(impl Abort + AllocGlobal), text: &str, errs: bool) -> Result<(), Fail> {
    let seen = outcome_into(rt.alloc(), whole(FILE), text.len(), errs)?;
    let said = Outcome {
        answer: Err(ToolFault::Write),
        text: String::from_str(rt.alloc(), text)?,
        failed: (false, true),
    };
    same(rt, "outcome", &seen, &said);
    Ok(())
}

#[test]
fn each_write_fails_or_takes_nothing(rt: HostRuntime) -> Result<(), Fail> {
    let said = wanted(rt.alloc(), &VERDICTS, 4)?;
    let mut text = String::new(rt.alloc());
    for next in said.text.chars() {
        write_fails(&rt, text.as_str(), false)?;
        write_fails(&rt, text.as_str(), true)?;
        text.push(next)?;
    }
    let seen = outcome_into(rt.alloc(), whole(FILE), text.len(), false)?;
    same(&rt, "room for all", &seen, &said);
    Ok(())
}
