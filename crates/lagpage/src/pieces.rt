ghost use Rattle.std.specs.Prelude.{◌≡◌, ◌++◌, IfOk, OnOk, Some, string_bytes};
ghost use Rattle.lagtool_capture.specs.CaptureReadings.{summary_of};
ghost use Rattle.lagpage.specs.Answers.{Tells};
ghost use Rattle.lagpage.specs.Captures.{said_of_capture, status_of_summary};
ghost use Rattle.lagpage.specs.Pieces.{Continues, History, IsBy, Turns, ended_at, fed_with, opened, said_at, status_at};

use crate::told::{Told, make_told};
use lagtool_capture::{CaptureSummary, ReadFault, Reading, Settings};
use std::alloc::{AllocError, Global};

/// A capture that comes in pieces: what is read of it, whether it is ended, and the text that is not handed out yet.
#[derive(Drop)]
pub struct Pieces {
    reading: Reading,
    is_ended: bool,
}

/// What is said of a capture that is not read on. `AllocError` if memory is refused.
fn said_of_capture(alloc: Global, fault: Option<ReadFault>) -> Result<String, AllocError>
    ensures { IfOk result (λ said. string_bytes said ≡ said_of_capture fault) }
{
    match fault {
        Some(fault) => format!(in alloc; "cannot read: {fault}"),
        None => Ok(String::new(alloc)),
    }
}

/// The exit status of `lagtool capture`.
fn status_of_summary(summary: CaptureSummary) -> u32
    ensures { result ≡ status_of_summary summary }
{
    match summary.fault {
        Some(_) => 2,
        None if summary.findings == 0 => 0,
        None => 1,
    }
}

impl Pieces {
    /// Before the first piece.
    pub(crate) fn new(alloc: Global, settings: Settings) -> Pieces
        ensures { IsBy (opened settings) result }
    {
        Pieces {
            reading: Reading::new(alloc, settings),
            is_ended: false,
        }
    }

    /// Explains a piece. `AllocError` if memory is refused.
    pub(crate) fn feed(&mut self, piece: &[u8]) -> Result<(), AllocError>
        ensures { OnOk result (Turns (fed_with piece.now) self.old self.new) }
    {
        if self.is_ended {
            return Ok(());
        }
        if !self.reading.is_read_on() {
            return Ok(());
        }
        self.reading.feed(piece)?;
        Ok(())
    }

    /// Ends the capture: of its ends, what is found, and the counts. `AllocError` if memory is refused.
    pub(crate) fn end(&mut self, alloc: Global) -> Result<(), AllocError>
        ensures { OnOk result (Turns ended_at self.old self.new) }
    {
        if self.is_ended {
            return Ok(());
        }
        self.reading.finish(alloc)?;
        self.is_ended = true;
        Ok(())
    }

    /// What is not handed out yet, and at the end what is said and the status. `AllocError` if memory is refused.
    fn told(&self, alloc: Global) -> Result<Told, AllocError>
        ensures { IfOk result (λ t. Tells (status_at self.now.is_ended (summary_of self.now.reading)) self.now.reading.report.to_write
            (said_at self.now.is_ended (summary_of self.now.reading)) t) }
    {
        let mut printed = Vec::new(alloc);
        printed.extend_from_slice(self.reading.text())?;
        if !self.is_ended {
            return make_told(printed, b"", 0);
        }
        let summary = self.reading.summary();
        let said = said_of_capture(alloc, summary.fault)?;
        make_told(printed, said.as_bytes(), status_of_summary(summary))
    }

    /// Takes the text for handed out.
    fn clear(&mut self)
        ensures { (h : History) → IsBy h self.old → IsBy (record h { out = h.out ++ self.old.reading.report.to_write }) self.new }
    {
        self.reading.clear();
    }

    /// What is not handed out yet, which is handed out if there is room for so many octets. `AllocError` if memory is refused.
    pub(crate) fn hand_out(&mut self, alloc: Global, room: usize) -> Result<Told, AllocError>
        ensures { (h : History) → IsBy h self.old → IfOk result (λ t. Continues h room (Some self.new) t) }
    {
        let told = self.told(alloc)?;
        if room < told.octets.len() {
            return Ok(told);
        }
        self.clear();
        Ok(told)
    }
}
