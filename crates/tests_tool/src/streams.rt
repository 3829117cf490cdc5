ghost use Rattle.std.specs.Prelude.{◌≡◌, false};

use crate::checks::{FILE, Piecewise};
use crate::comparing::{same, same_at};
use crate::pieces::by_number;
use crate::replays::{BOTH_UP, MOVE, TWO_CABLES, TWO_PORTS, script_and_report};
use lagstreams::{Sink, Source};
use lagtool_jobs::{ToolFault, check, replay};
use std::alloc::Global;
use std::io;
use std::io::Write;
use std::process::Abort;
use std::test::Fail;

/// What one write does, unlike the others.
#[derive(Clone, Copy, Debug, PartialEq, Eq)]
enum Turn {
    Fails,
    TakesNone,
    TakesOne,
}

/// A writer that accepts up to 64 octets in each write, but for one write that does something else.
#[derive(Drop)]
struct Moody {
    taken: Vec<u8>,
    /// How many writes come before that one; None after it.
    before: Option<u32>,
    turn: Turn,
}

impl Moody {
    /// How many octets the next write accepts, of this many; None if it fails.
    fn takes(&mut self, count: usize) -> Option<usize> {
        match self.before {
            None => Some(count.min(64)),
            Some(0) => {
                self.before = None;
                match self.turn {
                    Turn::Fails => None,
                    Turn::TakesNone => Some(0),
                    Turn::TakesOne => Some(count.min(1)),
                }
            }
            Some(more) => {
                self.before = Some(more.saturating_sub(1));
                Some(count.min(64))
            }
        }
    }
}

impl Write for Moody {
    fn write(&mut self, buf: &[u8]) -> io::Result<usize> {
        match self.takes(buf.len()) {
            Some(count) => {
                let count = count.min(buf.len());
                self.taken.extend_from_slice(&buf[..count])?;
                Ok(count)
            }
            None => Err(io::Error::from(io::ErrorKind::BrokenPipe)),
        }
    }

    fn flush(&mut self) -> io::Result<()> {
        Ok(())
    }
}

fn sink_of(alloc: Global, before: u32, turn: Turn) -> Sink<Moody>
    ensures { result.failed ≡ false }
{
    Sink::new(Moody {
        taken: Vec::new(alloc),
        before: Some(before),
        turn,
    })
}

/// Checks the result of a report into a sink; returns whether that one write came.
fn ends(
    rt: &impl Abort,
    answer: Result<(), ToolFault>,
    sink: Sink<Moody>,
    report: &[u8],
    place: (Turn, u32),
) -> bool {
    let failed = sink.failed();
    let writer = sink.into_inner();
    let taken = writer.taken.as_slice();
    let came = writer.before.is_none();
    if came && writer.turn != Turn::TakesOne {
        let is_beginning = taken.len() < report.len() && report.starts_with(taken);
        let wanted = (place, Err(ToolFault::Write), true, true);
        same(rt, "write", &(place, answer, failed, is_beginning), &wanted);
    } else {
        let wanted = (place, Ok(()), false, report);
        same(rt, "write", &(place, answer, failed, taken), &wanted);
    }
    came
}

/// A check of a file, one octet in each read; all writes are normal, or one is not.
fn checked(rt: &impl Abort, alloc: Global, before: u32, turn: Turn) -> bool {
    let report = b"1 runt\n2 not hex\n3 runt\n4 data\n5 not hex\nchecked 5 faults 4\n";
    let mut sink = sink_of(alloc, before, turn);
    let mut source = Source::new(Piecewise {
        rest: FILE,
        first: 1,
        size: 1,
        reads: usize::MAX,
    });
    let answer = match check(alloc, &mut source, &mut sink) {
        Ok(_) => Ok(()),
        Err(fault) => Err(fault),
    };
    ends(rt, answer, sink, report, (turn, before))
}

#[test]
fn one_write_of_a_check(rt: HostRuntime) {
    for turn in [Turn::Fails, Turn::TakesNone, Turn::TakesOne] {
        let mut writes = 0u32;
        for before in 0..100 {
            writes = writes.saturating_add(u32::from(checked(&rt, rt.alloc(), before, turn)));
        }
        // one for each line that ends, and one for the rest of the report
        let counted = writes as usize;
        same_at(
            &rt,
            "writes",
            counted,
            &(counted >= 5 && counted < 100),
            &true,
        );
    }
}

#[test]
fn one_write_of_a_replay(rt: HostRuntime) -> Result<(), Fail> {
    let alloc = rt.alloc();
    let (text, report) = script_and_report(alloc, &[BOTH_UP, MOVE], &[TWO_PORTS, TWO_CABLES])?;
    for turn in [Turn::Fails, Turn::TakesNone, Turn::TakesOne] {
        let mut writes = 0usize;
        for before in 0..100 {
            let mut sink = sink_of(alloc, before, turn);
            let answer = replay(alloc, text.as_str(), by_number, by_number, &mut sink);
            let came = ends(&rt, answer, sink, report.as_bytes(), (turn, before));
            writes = writes.saturating_add(usize::from(came));
        }
        same(&rt, "writes", &writes, &report.len().div_ceil(64));
    }
    Ok(())
}
