ghost use Rattle.std.specs.Prelude.{◌≡◌, ◌++◌, [], length, OnErr, OnOk, IfOk};
ghost use Rattle.lagtool_capture.specs.Counting.{one_more};
ghost use Rattle.lagtool_capture.specs.Reporting.{closing_records, closing_texts, ends_findings_counts, legend_added, legend_behind, after_frame, after_lacpdu, after_named, counted, last_shown, name_number, named, nothing_seen, with_end, with_ends, with_line};
ghost use Rattle.lagtool_capture.specs.Links.{link_counts, until_of};
ghost use Rattle.lagtool_capture.specs.LinkForms.{links_lines};
ghost use Rattle.lagtool_capture.specs.LinkTexts.{link_counts_text};
ghost use Rattle.lagstreams.specs.Sinks.{WritesPart, WritesWhole};

use crate::end_texts::{CountsText, EndsText};
use crate::ends::{LacpduSender, end_index, last_of};
use crate::fault::ReadFault;
use crate::finding_texts::FindingsText;
use crate::json::FrameRecord;
use crate::json_ends::{CountsRecord, EndsRecords, FindingsRecords};
use crate::lacpdu_texts::{LacpduLine, ShownFields};
use crate::line::{HeadText, SinceText, WhatText};
use crate::link_forms::{LinkForm, LinksText};
use crate::link_texts::LinkCountsText;
use crate::links::{link_counts, until_of};
use crate::names::{Identity, MOST_NAMES, NamesText, number_of};
use crate::settings::Settings;
use crate::summary::CaptureSummary;
use findings::{Finding, LinkEnd, MOST_ENDS, SlowFrame, What};
use lagstreams::{Sink, WriteFailed};
use slowpdu::Lacpdu;
use std::alloc::{AllocError, Global};
use std::io::Write;
use std::marker::Model;

/// What was read of a capture so far, and the part of its explanation that is not written yet.
#[derive(Drop)]
pub struct CaptureReport {
    settings: Settings,
    /// How many packets there were.
    number: u64,
    /// The time of the first packet that has one, in nanoseconds.
    first: Option<u64>,
    /// How many of them are frames of the slow protocols.
    slow: u64,
    /// How many LACPDUs are of no end in `ends`.
    beyond: u64,
    names: Vec<Identity>,
    ends: Vec<LacpduSender>,
    /// How many findings are told.
    findings: usize,
    text: String,
}

impl Model for CaptureReport {
    ghost use Rattle.std.specs.Prelude.{string_bytes};
    ghost use Rattle.lagtool_capture.specs.Reporting.{ReportState};

    ghost Value = { ReportState };

    ghost view = { λ e. record {
      settings = e.settings;
      number = e.number;
      first = e.first;
      slow = e.slow;
      beyond = e.beyond;
      names = e.names.items;
      ends = e.ends.items;
      findings = e.findings;
      to_write = string_bytes e.text;
    } };
}

impl CaptureReport {
    /// An explanation with these settings, before the first packet.
    pub fn new(alloc: Global, settings: Settings) -> CaptureReport
        ensures { result ≡ nothing_seen settings }
    {
        CaptureReport {
            settings,
            number: 0,
            first: None,
            slow: 0,
            beyond: 0,
            names: Vec::new(alloc),
            ends: Vec::new(alloc),
            findings: 0,
            text: String::new(alloc),
        }
    }

    /// Counts a packet, or a record that holds none; returns its number.
    pub fn count(&mut self, time: Option<u64>) -> u64
        ensures counted { self.new ≡ counted time self.old }
        ensures number { result ≡ one_more self.old.number }
    {
        self.number = self.number.saturating_add(1);
        self.first = self.first.or(time);
        self.number
    }

    /// Adds the line of the legend for an end with this number; records have no legend, and where frames have no lines it stands
    /// behind the links.
    fn put_legend(&mut self, number: usize, identity: Identity) -> Result<(), AllocError>
        ensures { OnOk result (self.new ≡ record self.old { to_write = legend_added self.old.settings number identity self.old.to_write }) }
    {
        if self.settings.json || !self.settings.frames {
            Ok(())
        } else {
            write!(self.text, "P{number} = {identity}\n")
        }
    }

    /// The number of an end's short name; a new end gets one if there is one left, and a line of the legend.
    fn name(&mut self, identity: Identity) -> Result<Option<usize>, AllocError>
        ensures named { OnOk result (self.new ≡ named identity self.old) }
        ensures number { IfOk result (λ n. n ≡ name_number identity self.old) }
    {
        if let Some(number) = number_of(&self.names, &identity) {
            return Ok(Some(number));
        }
        if self.names.len() >= MOST_NAMES {
            return Ok(None);
        }
        self.names.push(identity)?;
        let number = self.names.len();
        self.put_legend(number, identity)?;
        Ok(Some(number))
    }

    /// Adds the line of a frame of the slow protocols, if frames have lines.
    fn put_line(
        &mut self,
        time: Option<u64>,
        frame: &SlowFrame,
        what: WhatText,
    ) -> Result<(), AllocError>
        ensures { OnOk result (self.new ≡ with_line time frame.now what self.old) }
    {
        if self.settings.frames {
            let head = HeadText {
                since: SinceText {
                    first: self.first,
                    time,
                },
                frame,
            };
            if self.settings.json {
                write!(self.text, "{}", FrameRecord { head, what })?;
            } else {
                write!(self.text, "{head}{what}\n")?;
            }
        }
        Ok(())
    }

    /// Enters an LACPDU at the end with this index; None if its sender has none yet.
    fn enter(
        &mut self,
        index: Option<usize>,
        sender: LinkEnd,
        time: Option<u64>,
        lacpdu: Lacpdu,
    ) -> Result<(), AllocError>
        ensures { OnOk result (self.new ≡ with_end index sender time lacpdu self.old) }
    {
        match index {
            Some(index) => {
                if index < self.ends.len() {
                    self.ends[index].see_again(time, lacpdu);
                }
            }
            None if self.ends.len() < MOST_ENDS => {
                self.ends
                    .push(LacpduSender::first_seen(sender, time, lacpdu))?;
            }
            None => self.beyond = self.beyond.saturating_add(1),
        }
        Ok(())
    }

    /// The last LACPDU of the end with this index, unless every field is to be shown.
    fn last_shown(&self, index: Option<usize>) -> Option<Lacpdu>
        ensures { result ≡ last_shown self.now index }
    {
        if self.settings.all {
            return None;
        }
        last_of(&self.ends, index)
    }

    /// Adds the line of an LACPDU in this frame whose ends have short names with these numbers, and enters it at its end.
    fn put_lacpdu(
        &mut self,
        actor: Option<usize>,
        partner: Option<usize>,
        time: Option<u64>,
        frame: &SlowFrame,
        lacpdu: Lacpdu,
    ) -> Result<(), AllocError>
        ensures { OnOk result (self.new ≡ after_named actor partner time frame.now lacpdu self.old) }
    {
        let sender = frame.end();
        let index = end_index(&self.ends, &sender);
        let shown = ShownFields::of(self.last_shown(index), &lacpdu);
        let text = LacpduLine {
            lacpdu,
            shown,
            actor,
            partner,
        };
        self.put_line(time, frame, WhatText::Lacpdu(text))?;
        self.enter(index, sender, time, lacpdu)
    }

    /// Reports an LACPDU in this frame.
    fn lacpdu(
        &mut self,
        time: Option<u64>,
        frame: &SlowFrame,
        lacpdu: Lacpdu,
    ) -> Result<(), AllocError>
        ensures { OnOk result (self.new ≡ after_lacpdu time frame.now lacpdu self.old) }
    {
        let actor = self.name(Identity::of(&lacpdu.actor))?;
        let partner = self.name(Identity::of(&lacpdu.partner))?;
        self.put_lacpdu(actor, partner, time, frame, lacpdu)
    }

    /// Reports a frame of the slow protocols in a packet with this time, which is counted: adds its line, and enters an LACPDU
    /// at its end. `AllocError` if memory is refused.
    #[tactic(auto, unfolding(crate::specs::Reporting::after_frame))]
    pub fn observe(&mut self, time: Option<u64>, frame: &SlowFrame) -> Result<(), AllocError>
        ensures { OnOk result (self.new ≡ after_frame time frame.now self.old) }
    {
        self.slow = self.slow.saturating_add(1);
        match frame.what {
            What::Lacpdu(lacpdu) => self.lacpdu(time, frame, lacpdu),
            What::Marker(marker) => self.put_line(time, frame, WhatText::Marker(marker)),
            What::Refused(fault) => self.put_line(time, frame, WhatText::Refused(fault)),
        }
    }

    /// The counts.
    fn counts(&self, findings: &[Finding]) -> CountsText
        ensures { result ≡ record { packets = self.now.number; slow = self.now.slow; ends = length self.now.ends; findings = length findings.now; beyond = self.now.beyond } }
    {
        CountsText {
            packets: self.number,
            slow: self.slow,
            ends: self.ends.len(),
            findings: findings.len(),
            beyond: self.beyond,
        }
    }

    /// Adds a record for each link and for each end that sent LACPDUs, one for each of these findings, and the counts.
    fn put_records(&mut self, findings: &[Finding]) -> Result<(), AllocError>
        ensures { OnOk result (self.new ≡ record self.old { to_write = self.old.to_write ++ closing_records findings.now self.old }) }
    {
        let first = self.first;
        let counts = CountsRecord(self.counts(findings));
        let links = LinksText {
            form: LinkForm::Record,
            first,
            until: until_of(&self.ends),
            ends: &self.ends,
        };
        write!(self.text, "{links}")?;
        let ends = EndsRecords {
            first,
            ends: &self.ends,
        };
        write!(self.text, "{ends}")?;
        let told = FindingsRecords { first, findings };
        write!(self.text, "{told}")?;
        write!(self.text, "{counts}")
    }

    /// Adds how many links carry, and a line for each link.
    fn put_links(&mut self) -> Result<(), AllocError>
        ensures { OnOk result (self.new ≡ record self.old {
          to_write = self.old.to_write
              ++ (link_counts_text (link_counts self.old.ends) ++ links_lines self.old.first self.old.ends (until_of self.old.ends) self.old.ends);
        }) }
    {
        let counts = LinkCountsText(link_counts(&self.ends));
        let links = LinksText {
            form: LinkForm::Line,
            first: self.first,
            until: until_of(&self.ends),
            ends: &self.ends,
        };
        write!(self.text, "{counts}{links}")
    }

    /// Adds the legend, where frames have no lines.
    fn put_names(&mut self) -> Result<(), AllocError>
        ensures { OnOk result (self.new ≡ record self.old { to_write = self.old.to_write ++ legend_behind self.old }) }
    {
        if self.settings.frames {
            return Ok(());
        }
        let names = NamesText { names: &self.names };
        write!(self.text, "{names}")
    }

    /// Adds a line for each end that sent LACPDUs, one for each of these findings, and the counts.
    fn put_ends(&mut self, findings: &[Finding]) -> Result<(), AllocError>
        ensures { OnOk result (self.new ≡ record self.old { to_write = self.old.to_write ++ ends_findings_counts findings.now self.old }) }
    {
        let first = self.first;
        let counts = self.counts(findings);
        let ends = EndsText {
            first,
            names: &self.names,
            ends: &self.ends,
        };
        write!(self.text, "{ends}")?;
        let told = FindingsText { first, findings };
        write!(self.text, "{told}")?;
        write!(self.text, "{counts}")
    }

    /// Adds how many links carry, a line for each link, each end and each of these findings, and the counts.
    fn put_texts(&mut self, findings: &[Finding]) -> Result<(), AllocError>
        ensures { OnOk result (self.new ≡ record self.old { to_write = self.old.to_write ++ closing_texts findings.now self.old }) }
    {
        self.put_links()?;
        self.put_names()?;
        self.put_ends(findings)
    }

    /// Adds what is said behind the last packet: of each link, of each end that sent LACPDUs, of each of these findings, and the
    /// counts.
    /// `AllocError` if memory is refused.
    pub fn finish(&mut self, findings: &[Finding]) -> Result<(), AllocError>
        ensures { OnOk result (self.new ≡ with_ends findings.now self.old) }
    {
        self.findings = findings.len();
        if self.settings.json {
            self.put_records(findings)
        } else {
            self.put_texts(findings)
        }
    }

    /// The part of the explanation that is not written yet.
    pub fn text(&self) -> &[u8]
        ensures { result.now ≡ self.now.to_write }
    {
        self.text.as_bytes()
    }

    /// Takes that part for written.
    pub fn clear(&mut self)
        ensures { self.new ≡ record self.old { to_write = [] } }
    {
        self.text.clear();
    }

    // promise: what is written is what was added, once; the words of each line are exact
    // contract: `CaptureReport::write` (`ok`, `to_write`); `Display` of each text
    /// Writes the part of the explanation that is not written yet, in one call of the sink. `WriteFailed` if the sink
    /// failed.
    pub fn write<W: Write>(&mut self, sink: &mut Sink<W>) -> Result<(), WriteFailed>
        ensures ok { OnOk result (WritesWhole W.contents sink.old sink.new self.old.to_write) }
        ensures err { OnErr result (WritesPart W.contents sink.old sink.new self.old.to_write) }
        ensures to_write { OnOk result (self.new ≡ record self.old { to_write = [] }) }
    {
        sink.put(self.text.as_bytes())?;
        self.clear();
        Ok(())
    }

    /// What was read so far.
    pub fn summary(&self, fault: Option<ReadFault>) -> CaptureSummary
        ensures { result ≡ record { packets = self.now.number; slow = self.now.slow; findings = self.now.findings; fault = fault } }
    {
        CaptureSummary {
            packets: self.number,
            slow: self.slow,
            findings: self.findings,
            fault,
        }
    }
}
