ghost use Rattle.std.specs.Prelude.{◌≡◌, false, IfErr, IfOk};
ghost use Rattle.lagtool_jobs.specs.CheckEnds.{Checks, Completes, HasCause, Stops};

use crate::fault::ToolFault;
use crate::progress::{Unwatched, Watch};
use crate::scan::Scan;
use crate::summary::Summary;
use lagstreams::{Sink, Source};
use std::alloc::Global;
use std::io::{Read, Write};

/// Reads the stream to its end, and writes a verdict for each line and then the counts. After each read the watch is shown
/// how many lines have ended.
fn check_all<R: Read, W: Write, P: Watch>(
    alloc: Global,
    source: &mut Source<R>,
    sink: &mut Sink<W>,
    watch: &P,
) -> Result<Summary, ToolFault>
    requires source { source.old.failed ≡ false }
    requires sink { sink.old.failed ≡ false }
    ensures ok { IfOk result (λ s. Completes R.remaining W.contents source.old source.new sink.old sink.new s) }
    ensures err { IfErr result (Stops R.remaining W.contents source.old source.new sink.old sink.new) }
    ensures cause { IfErr result (HasCause source.new.failed sink.new.failed) }
{
    source.is_bounded();
    let mut scan = Scan::new(alloc);
    let mut piece = [0; 4096];
    loop {
        let n = source.read(&mut piece)?;
        if n == 0 {
            break;
        }
        scan.feed(alloc, &piece[..n])?;
        scan.write(sink)?;
        watch.show(scan.lines());
    }
    let summary = scan.finish(alloc)?;
    scan.write(sink)?;
    Ok(summary)
}

// promise: a watch changes nothing; a sign is due after a tenth of a second; progress comes if asked for, under the work's name
// contract: `check_watched`, `replay_watched`; `SignText`, `is_due` (`Signs`); `Progress::new` (`unasked`, `noun`)
// not said: that it appears: tests
/// Checks as `check` does, and shows the watch how many lines have ended, as tests show (profile).
pub fn check_watched<R: Read, W: Write, P: Watch>(
    alloc: Global,
    source: &mut Source<R>,
    sink: &mut Sink<W>,
    watch: &P,
) -> Result<Summary, ToolFault>
    requires source { source.old.failed ≡ false }
    requires sink { sink.old.failed ≡ false }
    ensures { Checks R.remaining W.contents source.old source.new sink.old sink.new result }
{
    check_all(alloc, source, sink, watch)
}

// promise: `check` is `Ok` only at the end of the source: the sink got the report of all octets, however they were cut, and the summary has
//    its counts
// contract: `check` (`Checks`, `Completes`; `report`)
// promise: if the source fails, the lines are written that a newline ended before; the report on a read is written before the next
// contract: `check` (`StopsReading`)
// promise: if memory runs out, so are they for all but a last part of 4,096 octets at most; if the sink fails, at least these, and a
//    beginning of the report
// contract: `check` (`StopsShort`, `StopsWriting`)
// promise: `Read`, `Write`, `NoMemory` come only if the source alone, the sink alone, neither failed; no other fault comes
// contract: `check` (`HasCause`)
/// Reads frames in hexadecimal, one a line. Writes for each line its number and what frame it is, and at the end the
/// counts of lines and faults (profile). Up to 4,096 octets are read at a time; the verdicts on the lines that they end
/// are written before the next read.
///
/// Before the call, neither stream has failed. `Read` if the source failed in this call, `Write` if the sink did, and
/// then the other did not; `NoMemory` if memory was refused, and neither failed. After `Read`, the verdicts on the
/// lines ended by a newline so far are written, and no more. After `NoMemory` the same, but nothing of the last read.
/// After `Write`, a beginning of the report, and at least what was written before the last read.
pub fn check<R: Read, W: Write>(
    alloc: Global,
    source: &mut Source<R>,
    sink: &mut Sink<W>,
) -> Result<Summary, ToolFault>
    requires source { source.old.failed ≡ false }
    requires sink { sink.old.failed ≡ false }
    ensures { Checks R.remaining W.contents source.old source.new sink.old sink.new result }
{
    check_watched(alloc, source, sink, &Unwatched)
}
