ghost use Rattle.std.specs.Prelude.{◌≡◌, ◌+◌, ◌<◌, ◌≤◌, ◌^◌, ◌++◌, [], length, IfOk, OnOk, OnErr};
ghost use Rattle.memchr.specs.Find.{Nowhere, Passes, is_byte};
ghost use Rattle.lagtool_jobs.specs.CheckReport.{summary_text, fault_count, verdict_line};
ghost use Rattle.lagtool_jobs.specs.Scans.{ReadsOctets, summary_after, unwritten};
ghost use Rattle.lagstreams.specs.Sinks.{WritesPart, WritesWhole};

use crate::summary::Summary;
use crate::verdict::line_verdict;
use lagstreams::{LONGEST_LINE, Sink, WriteFailed};
use memchr::memchr;
use std::alloc::{AllocError, Global};
use std::io::Write;
use std::marker::Model;

/// The state of a check: how many lines were read, how many of them are faults, the octets of the line being read, and
/// the part of the report that is not written yet (profile).
#[derive(Drop)]
pub struct Scan {
    lines: u64,
    faults: u64,
    /// Of a line that is too long, only 65,537 octets.
    line: Vec<u8>,
    /// Whole lines of the report.
    report: String,
}

impl Model for Scan {
    ghost use Rattle.std.specs.Prelude.{◌≤◌, string_bytes, vec_len};
    ghost use Rattle.lagtool_jobs.specs.Scans.{ScanState};

    ghost Value = { ScanState };

    ghost view = { λ s. record { lines = s.lines; faults = s.faults; line = s.line.items; to_write = string_bytes s.report } };

    ghost invariant = { λ s. (s.faults ≤ s.lines) × (vec_len s.line ≤ 65537) };
}

impl Scan {
    /// A scan before anything is read.
    pub fn new(alloc: Global) -> Scan
        ensures { result ≡ record { lines = 0; faults = 0; line = []; to_write = [] } }
    {
        Scan {
            lines: 0,
            faults: 0,
            line: Vec::new(alloc),
            report: String::new(alloc),
        }
    }

    /// How many lines have ended.
    pub(crate) fn lines(&self) -> u64
        ensures { result ≡ self.now.lines }
    {
        self.lines
    }

    /// Ends the line being read: adds its verdict to the report, and counts it. `AllocError` if memory is refused.
    fn end_line(&mut self, alloc: Global) -> Result<(), AllocError>
        requires { self.old.lines + 1 < 2 ^ 64 }
        ensures to_write { OnOk result (self.new.to_write ≡ self.old.to_write ++ verdict_line (self.old.lines + 1) self.old.line) }
        ensures lines { OnOk result (self.new.lines ≡ self.old.lines + 1) }
        ensures faults { OnOk result (self.new.faults ≡ self.old.faults + fault_count self.old.line) }
        ensures line { OnOk result (self.new.line ≡ []) }
    {
        let verdict = line_verdict(alloc, &self.line)?;
        let number = self.lines + 1;
        write!(self.report, "{number} {verdict}\n")?;
        if verdict.is_fault() {
            self.faults += 1;
        }
        self.lines = number;
        self.line.clear();
        Ok(())
    }

    /// Adds octets, without a newline, to the line being read. No more are stored of a line that is too long.
    /// `AllocError` if memory is refused.
    fn keep(&mut self, octets: &[u8]) -> Result<(), AllocError>
        requires { Nowhere (Passes (is_byte 10) octets.now) 0 (length octets.now) }
        ensures reads { OnOk result (ReadsOctets self.old self.new octets.now) }
        ensures lines { OnOk result (self.new.lines ≡ self.old.lines) }
    {
        let room = LONGEST_LINE + 1 - self.line.len();
        let kept = octets.len().min(room);
        self.line.extend_from_slice(&octets[..kept])
    }

    /// Reads a piece of the stream: each newline ends a line, and the octets after the last newline begin the next
    /// line. `AllocError` if memory is refused.
    pub fn feed(&mut self, alloc: Global, piece: &[u8]) -> Result<(), AllocError>
        requires { self.old.lines + length piece.now < 2 ^ 64 }
        ensures reads { OnOk result (ReadsOctets self.old self.new piece.now) }
        ensures lines { OnOk result (self.new.lines ≤ self.old.lines + length piece.now) }
    {
        let mut rest = piece;
        while let Some(n) = memchr(b'\n', rest) {
            self.keep(&rest[..n])?;
            self.end_line(alloc)?;
            rest = &rest[n + 1..];
        }
        self.keep(rest)
    }

    /// Adds the counts to the report. `AllocError` if memory is refused.
    fn end_report(&mut self) -> Result<Summary, AllocError>
        ensures to_write { OnOk result (self.new.to_write ≡ self.old.to_write
            ++ summary_text (record { checked = self.old.lines; faults = self.old.faults })) }
        ensures counts { IfOk result (λ s. s ≡ record { checked = self.old.lines; faults = self.old.faults }) }
    {
        let (checked, faults) = (self.lines, self.faults);
        write!(self.report, "checked {checked} faults {faults}\n")?;
        Ok(Summary { checked, faults })
    }

    /// Ends the stream: octets after the last newline are a line too. `AllocError` if memory is refused.
    pub fn finish(&mut self, alloc: Global) -> Result<Summary, AllocError>
        requires { self.old.lines + 1 < 2 ^ 64 }
        ensures to_write { OnOk result (self.new.to_write ≡ unwritten self.old []) }
        ensures counts { IfOk result (λ s. s ≡ summary_after self.old []) }
    {
        if !self.line.is_empty() {
            self.end_line(alloc)?;
        }
        self.end_report()
    }

    /// Writes the part of the report that is not written yet, in one call of the sink. `WriteFailed` if the sink
    /// failed.
    pub fn write<W: Write>(&mut self, sink: &mut Sink<W>) -> Result<(), WriteFailed>
        ensures ok { OnOk result (WritesWhole W.contents sink.old sink.new (self.old.to_write)) }
        ensures err { OnErr result (WritesPart W.contents sink.old sink.new (self.old.to_write)) }
        ensures to_write { OnOk result (self.new ≡ record self.old { to_write = [] }) }
    {
        sink.put(self.report.as_bytes())?;
        self.report.clear();
        Ok(())
    }
}
