ghost use Rattle.std.specs.Prelude.{◌≡◌, ◌&&◌, false, nat_lt, IfErr, IfOk};
ghost use Rattle.lagtool_capture.specs.Faults.{HasCause};
ghost use Rattle.lagtool_capture.specs.Reports.{Completes};
ghost use Rattle.lagtool_capture.specs.CaptureReadings.{is_read_on};

use crate::fault::CaptureFault;
use crate::reading::Reading;
use crate::settings::Settings;
use crate::summary::CaptureSummary;
use lagstreams::{Sink, Source};
use std::alloc::Global;
use std::io::{Read, Write};

/// Whether a capture is read on behind a read that gave so many octets.
fn is_read_on(reading: &Reading, n: usize) -> bool
    ensures { result ≡ (nat_lt 0 n && is_read_on reading.now) }
{
    n > 0 && reading.is_read_on()
}

// promise: a packet adds the line of its frame, the lines of the legend that it needs, and what it says of its end; the end of a capture a
//    line for each end and each finding, and the counts. With `json` each line is a record
// contract: `report_capture` (`ok`), over `CaptureReport::count`, `observe` (`after_frame`), `finish` (`with_ends`, `closing_records`;
//    `Json`)
// not said: that a record is JSON: Python's `json`
// promise: where `report_capture` answers `Ok`, what is written is the report on all octets that it read, however the reads cut them, and
//    the summary is the report's; the source is at its end, or what follows changes nothing
// contract: `report_capture` (`ok`: `Completes`, `report`, `summary`; `capture_in` of `captures`)
// not said: what is written before the next read or a failure
// promise: a job that fails has a cause: `Read` if the source alone failed, `Write` if the sink alone did
// contract: `report_capture` (`HasCause`)
/// Reads a capture to its end, and writes what it says: a line for each frame of the slow protocols, then a line for each
/// end of a link, what is found of the ends, and the counts (profile). Up to 4,096 octets are read at a time, and what they say is written before
/// the next read. A capture that is not read on has the lines of what was read before.
///
/// After `Ok` the report of all that there was to read is written, or of so much that whatever follows changes nothing.
/// `Read` if the source failed, `Write` if the sink did, `NoMemory` if memory was refused.
pub fn report_capture<R: Read, W: Write>(
    alloc: Global,
    settings: Settings,
    source: &mut Source<R>,
    sink: &mut Sink<W>,
) -> Result<CaptureSummary, CaptureFault>
    requires source { source.old.failed ≡ false }
    requires sink { sink.old.failed ≡ false }
    ensures ok { IfOk result (Completes R.remaining W.contents settings source.old source.new sink.old sink.new) }
    ensures cause { IfErr result (HasCause source.new.failed sink.new.failed) }
{
    source.is_bounded();
    let mut reading = Reading::new(alloc, settings);
    let mut piece = [0; 4096];
    let mut goes_on = true;
    while goes_on {
        let n = source.read(&mut piece)?;
        reading.feed(&piece[..n])?;
        reading.write(sink)?;
        goes_on = is_read_on(&reading, n);
    }
    reading.finish(alloc)?;
    reading.write(sink)?;
    Ok(reading.summary())
}
