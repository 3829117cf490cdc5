ghost use Rattle.std.specs.Prelude.{Some};
ghost use Rattle.lagtool_capture.specs.Ends.{named_by};
ghost use Rattle.lagtool_capture.specs.EndTexts.{counts_text, end_line, ends_text, gaps_part, median_part, name_part, named_by_part, phase_part, tenths_text, who_text};
ghost use Rattle.lagtool_capture.specs.Gaps.{median};

use crate::ends::{LacpduSender, Phase, named_by};
use crate::finding_texts::EndText;
use crate::line::{SecondsText, SinceText};
use crate::names::{Identity, NameText, number_of};
use findings::LinkEnd;
use slowpdu::Info;
use std::fmt;

/// The shortest and the longest time between two LACPDUs, if they are known.
#[derive(Clone, Copy)]
struct GapsPart {
    shortest: Option<u64>,
    longest: Option<u64>,
}

impl fmt::Display for GapsPart {
    ghost output = { λ t. Some (gaps_part t.shortest t.longest) };

    fn fmt<W: fmt::Write>(&self, f: &mut fmt::Formatter<W>) -> fmt::Result {
        match (self.shortest, self.longest) {
            (Some(shortest), Some(longest)) => write!(
                f,
                " gaps {} to {}",
                SecondsText(shortest),
                SecondsText(longest)
            ),
            _ => Ok(()),
        }
    }
}

/// Tenths of a second as seconds.
#[derive(Clone, Copy)]
pub(crate) struct TenthsText(pub usize);

impl fmt::Display for TenthsText {
    ghost output = { λ t. Some (tenths_text t.0) };

    #[tactic(auto, unfolding(crate::specs::EndTexts::tenths_text))]
    fn fmt<W: fmt::Write>(&self, f: &mut fmt::Formatter<W>) -> fmt::Result {
        let tenths = self.0;
        write!(f, "{}.{}", tenths / 10, tenths % 10)
    }
}

/// The median of the times between LACPDUs, if there is one.
#[derive(Clone, Copy)]
struct MedianPart(Option<usize>);

impl fmt::Display for MedianPart {
    ghost output = { λ t. Some (median_part t.0) };

    fn fmt<W: fmt::Write>(&self, f: &mut fmt::Formatter<W>) -> fmt::Result {
        match self.0 {
            Some(tenths) => write!(f, " median {}", TenthsText(tenths)),
            None => Ok(()),
        }
    }
}

/// A word, and the short name of the end that an LACPDU has this information of.
#[derive(Clone, Copy)]
struct NamePart<'a> {
    word: &'a str,
    names: &'a [Identity],
    info: &'a Info,
}

impl fmt::Display for NamePart<'_> {
    ghost output = { λ t. Some (name_part t.word.now t.names.now t.info.now) };

    #[tactic(auto, unfolding(crate::specs::EndTexts::name_part))]
    fn fmt<W: fmt::Write>(&self, f: &mut fmt::Formatter<W>) -> fmt::Result {
        let word = self.word;
        let identity = Identity::of(self.info);
        let number = number_of(self.names, &identity);
        let name = NameText { number, identity };
        write!(f, " {word} {name}")
    }
}

/// The end that names it, if there is one.
#[derive(Clone, Copy)]
struct NamedByPart(Option<LinkEnd>);

impl fmt::Display for NamedByPart {
    ghost output = { λ t. Some (named_by_part t.0) };

    fn fmt<W: fmt::Write>(&self, f: &mut fmt::Formatter<W>) -> fmt::Result {
        match self.0 {
            Some(end) => write!(f, " named by {}", EndText(end)),
            None => Ok(()),
        }
    }
}

/// Who it is, who it names and who names it, among all ends.
#[derive(Clone, Copy)]
struct WhoText<'a> {
    names: &'a [Identity],
    all: &'a [LacpduSender],
    end: &'a LacpduSender,
}

impl fmt::Display for WhoText<'_> {
    ghost output = { λ t. Some (who_text t.names.now t.all.now t.end.now) };

    #[tactic(auto, unfolding(crate::specs::EndTexts::who_text))]
    fn fmt<W: fmt::Write>(&self, f: &mut fmt::Formatter<W>) -> fmt::Result {
        let end = EndText(self.end.sender);
        let own = NamePart {
            word: "is",
            names: self.names,
            info: &self.end.last.actor,
        };
        let partner = NamePart {
            word: "names",
            names: self.names,
            info: &self.end.last.partner,
        };
        let named = NamedByPart(named_by(self.all, self.end));
        write!(f, "{end}{own}{partner}{named}")
    }
}

/// When a bit began and ended to be 1, if it ever was.
#[derive(Clone, Copy)]
struct PhasePart<'a> {
    word: &'a str,
    first: Option<u64>,
    phase: Phase,
}

impl fmt::Display for PhasePart<'_> {
    ghost output = { λ t. Some (phase_part t.word.now t.first t.phase) };

    fn fmt<W: fmt::Write>(&self, f: &mut fmt::Formatter<W>) -> fmt::Result {
        let word = self.word;
        let began = SinceText {
            first: self.first,
            time: self.phase.began,
        };
        let ended = SinceText {
            first: self.first,
            time: self.phase.ended,
        };
        match (self.phase.began, self.phase.ended) {
            (Some(_), Some(_)) => write!(f, " {word} {began} ended {ended}"),
            (Some(_), None) => write!(f, " {word} {began}"),
            (None, _) => Ok(()),
        }
    }
}

/// The line of an end among all ends, with times from the first of the capture.
#[derive(Clone, Copy)]
struct EndLine<'a> {
    first: Option<u64>,
    names: &'a [Identity],
    all: &'a [LacpduSender],
    end: &'a LacpduSender,
}

impl fmt::Display for EndLine<'_> {
    ghost output = { λ t. Some (end_line t.first t.names.now t.all.now t.end.now) };

    #[tactic(auto, unfolding(crate::specs::EndTexts::end_line))]
    fn fmt<W: fmt::Write>(&self, f: &mut fmt::Formatter<W>) -> fmt::Result {
        let end = self.end;
        let first = self.first;
        let who = WhoText {
            names: self.names,
            all: self.all,
            end: self.end,
        };
        let gaps = GapsPart {
            shortest: end.shortest,
            longest: end.longest,
        };
        let median = MedianPart(end.median());
        let from = SinceText {
            first,
            time: end.first,
        };
        let to = SinceText {
            first,
            time: end.latest,
        };
        let synchronized = PhasePart {
            word: "synchronized",
            first,
            phase: end.synchronized,
        };
        let collecting = PhasePart {
            word: "collecting",
            first,
            phase: end.collecting,
        };
        let distributing = PhasePart {
            word: "distributing",
            first,
            phase: end.distributing,
        };
        write!(
            f,
            "end {who} lacpdus {} first {from} last {to}{gaps}{median}{synchronized}{collecting}{distributing}\n",
            end.count
        )
    }
}

/// The lines of ends, by the short names.
#[derive(Clone, Copy)]
pub(crate) struct EndsText<'a> {
    pub first: Option<u64>,
    pub names: &'a [Identity],
    pub ends: &'a [LacpduSender],
}

impl fmt::Display for EndsText<'_> {
    ghost output = { λ t. Some (ends_text t.first t.names.now t.ends.now t.ends.now) };

    fn fmt<W: fmt::Write>(&self, f: &mut fmt::Formatter<W>) -> fmt::Result {
        let first = self.first;
        let names = self.names;
        let all = self.ends;
        for end in all {
            let line = EndLine {
                first,
                names,
                all,
                end,
            };
            write!(f, "{line}")?;
        }
        Ok(())
    }
}

/// The line with the counts.
#[derive(Clone, Copy)]
pub(crate) struct CountsText {
    pub packets: u64,
    pub slow: u64,
    pub ends: usize,
    pub findings: usize,
    pub beyond: u64,
}

impl fmt::Display for CountsText {
    ghost output = { λ t. Some (counts_text t.packets t.slow t.ends t.findings t.beyond) };

    fn fmt<W: fmt::Write>(&self, f: &mut fmt::Formatter<W>) -> fmt::Result {
        let beyond = self.beyond;
        write!(
            f,
            "packets {} slow {} ends {} findings {}",
            self.packets, self.slow, self.ends, self.findings
        )?;
        if beyond > 0 {
            write!(f, " beyond {beyond}")?;
        }
        f.write_str("\n")
    }
}
