ghost use Rattle.std.specs.Prelude.{◌≡◌, ◌≤◌, [], length, OnErr, OnOk};
ghost use Rattle.captures.specs.Steps.{end_of};
ghost use Rattle.lagtool_capture.specs.Reporting.{with_ends};
ghost use Rattle.lagtool_capture.specs.Noticing.{Follows, Log};
ghost use Rattle.lagtool_capture.specs.CaptureReadings.{Feeds, IsBefore, Takes, ended, is_read_on, refused_at, summary_of};
ghost use Rattle.lagstreams.specs.Sinks.{WritesPart, WritesWhole};

use crate::capture_report::CaptureReport;
use crate::fault::ReadFault;
use crate::noticing::Noticed;
use crate::settings::Settings;
use crate::summary::CaptureSummary;
use crate::taking::take_steps;
use captures::{Fault, Reader};
use lagstreams::{Sink, WriteFailed};
use std::alloc::{AllocError, Global};
use std::io::Write;
use std::marker::Model;

/// A capture that is being read: what is read of it and not taken yet, and what it says so far.
#[derive(Drop)]
pub struct Reading {
    reader: Reader,
    report: CaptureReport,
    noticed: Noticed,
    /// Octets that were read and are not taken yet.
    rest: Vec<u8>,
    /// How many octets behind them are taken already.
    skip: usize,
    /// The offset of `rest` in the capture.
    at: u64,
    /// Why the capture is not read on.
    fault: Option<ReadFault>,
}

impl Model for Reading {
    ghost use Rattle.lagtool_capture.specs.CaptureReadings.{ReadingState};

    ghost Value = { ReadingState };

    ghost view = { λ w. record {
      reader = w.reader;
      report = w.report;
      noticed = w.noticed;
      rest = w.rest.items;
      skip = w.skip;
      at = w.at;
      fault = w.fault;
    } };
}

/// A fault at an offset from the first octet that is not taken, as one of the capture.
fn refused_at(at: u64, fault: Fault) -> ReadFault
    ensures { result ≡ refused_at at fault }
{
    ReadFault {
        at: at.saturating_add(fault.at as u64),
        cause: fault.cause,
    }
}

impl Reading {
    /// Before the beginning of a capture.
    pub fn new(alloc: Global, settings: Settings) -> Reading
        ensures { IsBefore settings result }
    {
        Reading {
            reader: Reader::new(),
            report: CaptureReport::new(alloc, settings),
            noticed: Noticed::new(),
            rest: Vec::new(alloc),
            skip: 0,
            at: 0,
            fault: None,
        }
    }

    /// Whether the capture is read on.
    pub fn is_read_on(&self) -> bool
        ensures { result ≡ is_read_on self.now }
    {
        self.fault.is_none()
    }

    /// Reads and explains octets that follow those that were taken. `AllocError` if memory is refused.
    fn take(&mut self, octets: &[u8]) -> Result<(), AllocError>
        ensures { OnOk result (Takes octets.now self.old self.new) }
    {
        self.rest.extend_from_slice(octets)?;
        let taken = take_steps(
            &mut self.reader,
            &mut self.report,
            &mut self.noticed,
            &self.rest,
        )?;
        self.rest = self.rest.split_off(taken.count)?;
        self.skip = taken.skip;
        self.at = self.at.saturating_add(taken.count as u64);
        self.fault = match taken.fault {
            Some(fault) => Some(refused_at(self.at, fault)),
            None => None,
        };
        Ok(())
    }

    /// Reads a piece of the capture, and explains what is whole of it. `AllocError` if memory is refused.
    pub fn feed(&mut self, piece: &[u8]) -> Result<(), AllocError>
        ensures { OnOk result (Feeds piece.now self.old self.new) }
    {
        let skipped = self.skip.min(piece.len());
        self.skip -= skipped;
        self.at = self.at.saturating_add(skipped as u64);
        if self.skip > 0 {
            return Ok(());
        }
        self.take(&piece[skipped..])
    }

    /// Ends the capture: a fault if it may not end there; then the ends, what is found and the
    /// counts. `AllocError` if memory is refused.
    pub fn finish(&mut self, alloc: Global) -> Result<(), AllocError>
        ensures { OnOk result ((l : Log) → Follows l self.old.noticed → self.new ≡ ended l self.old) }
    {
        let findings = self.noticed.findings(alloc)?;
        if self.fault.is_none()
            && let Err(fault) = self.reader.end(self.rest.len())
        {
            self.fault = Some(refused_at(self.at, fault));
        }
        self.report.finish(&findings)
    }

    /// What is not written yet.
    pub fn text(&self) -> &[u8]
        ensures { result.now ≡ self.now.report.to_write }
    {
        self.report.text()
    }

    /// Takes what is not written yet for written.
    pub fn clear(&mut self)
        ensures { self.new ≡ record self.old { report = record self.old.report { to_write = [] } } }
    {
        self.report.clear();
    }

    /// Writes what is not written yet, in one call of the sink. `WriteFailed` if the sink failed.
    pub fn write<W: Write>(&mut self, sink: &mut Sink<W>) -> Result<(), WriteFailed>
        ensures ok { OnOk result (WritesWhole W.contents sink.old sink.new self.old.report.to_write) }
        ensures err { OnErr result (WritesPart W.contents sink.old sink.new self.old.report.to_write) }
        ensures to_write { OnOk result (self.new ≡ record self.old { report = record self.old.report { to_write = [] } }) }
    {
        self.report.write(sink)
    }

    /// What was read.
    pub fn summary(&self) -> CaptureSummary
        ensures { result ≡ summary_of self.now }
    {
        self.report.summary(self.fault)
    }
}
