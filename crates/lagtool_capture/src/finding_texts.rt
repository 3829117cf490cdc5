ghost use Rattle.std.specs.Prelude.{Some};
ghost use Rattle.findings.specs.Rules.{rule_advice, rule_clause};
ghost use Rattle.lagtool_capture.specs.FindingTexts.{end_text, finding_line, findings_text, number_text, port_part, rule_text, shown_text};

use crate::line::{InterfacePart, SinceText};
use findings::{Finding, LinkEnd, Rule, Shown};
use lagtypes::MacText;
use std::fmt;

/// The port of an end, if its frames name one.
#[derive(Clone, Copy)]
pub(crate) struct PortPart(pub Option<u16>);

impl fmt::Display for PortPart {
    ghost output = { λ t. Some (port_part t.0) };

    fn fmt<W: fmt::Write>(&self, f: &mut fmt::Formatter<W>) -> fmt::Result {
        match self.0 {
            Some(port) => write!(f, " port {port}"),
            None => Ok(()),
        }
    }
}

/// The number of a rule.
#[derive(Clone, Copy)]
pub(crate) struct NumberText(pub Rule);

impl fmt::Display for NumberText {
    ghost output = { λ t. Some (number_text t.0) };

    #[tactic(auto, unfolding(crate::specs::FindingTexts::number_text))]
    fn fmt<W: fmt::Write>(&self, f: &mut fmt::Formatter<W>) -> fmt::Result {
        let number = self.0.number();
        write!(f, "{number}")
    }
}

/// The section that has a rule.
#[derive(Clone, Copy)]
pub(crate) struct ClauseText(pub Rule);

impl fmt::Display for ClauseText {
    ghost output = { λ t. Some (rule_clause t.0) };

    fn fmt<W: fmt::Write>(&self, f: &mut fmt::Formatter<W>) -> fmt::Result {
        f.write_str(self.0.clause())
    }
}

/// What to do about a rule.
#[derive(Clone, Copy)]
pub(crate) struct AdviceText(pub Rule);

impl fmt::Display for AdviceText {
    ghost output = { λ t. Some (rule_advice t.0) };

    fn fmt<W: fmt::Write>(&self, f: &mut fmt::Formatter<W>) -> fmt::Result {
        f.write_str(self.0.advice())
    }
}

/// What is found by a rule, the section that has it, and what to do.
#[derive(Clone, Copy)]
struct RuleText(Rule);

impl fmt::Display for RuleText {
    ghost output = { λ t. Some (rule_text t.0) };

    #[tactic(auto, unfolding(crate::specs::FindingTexts::rule_text))]
    fn fmt<W: fmt::Write>(&self, f: &mut fmt::Formatter<W>) -> fmt::Result {
        let rule = self.0;
        write!(f, "{rule} ({}). {}", ClauseText(rule), AdviceText(rule))
    }
}

/// An end: its source address, its interface if that isn't the first, and its port if its frames name one.
#[derive(Clone, Copy)]
pub(crate) struct EndText(pub LinkEnd);

impl fmt::Display for EndText {
    ghost output = { λ t. Some (end_text t.0) };

    #[tactic(auto, unfolding(crate::specs::FindingTexts::end_text))]
    fn fmt<W: fmt::Write>(&self, f: &mut fmt::Formatter<W>) -> fmt::Result {
        let end = self.0;
        let interface = InterfacePart(end.interface);
        let port = PortPart(end.port);
        write!(f, "{}{interface}{port}", MacText(&end.source))
    }
}

/// Where and when a finding is shown first, with its time from the first of the capture.
#[derive(Clone, Copy)]
struct ShownText {
    first: Option<u64>,
    shown: Shown,
}

impl fmt::Display for ShownText {
    ghost output = { λ t. Some (shown_text t.first t.shown) };

    #[tactic(auto, unfolding(crate::specs::FindingTexts::shown_text))]
    fn fmt<W: fmt::Write>(&self, f: &mut fmt::Formatter<W>) -> fmt::Result {
        let shown = self.shown;
        let since = SinceText {
            first: self.first,
            time: Some(shown.nanoseconds),
        };
        write!(f, "packet {} at {since}", shown.number)
    }
}

/// The line of a finding, with its time from the first of the capture.
#[derive(Clone, Copy)]
struct FindingLine<'a> {
    first: Option<u64>,
    finding: &'a Finding,
}

impl fmt::Display for FindingLine<'_> {
    ghost output = { λ t. Some (finding_line t.first t.finding.now) };

    #[tactic(auto, unfolding(crate::specs::FindingTexts::finding_line))]
    fn fmt<W: fmt::Write>(&self, f: &mut fmt::Formatter<W>) -> fmt::Result {
        let finding = *self.finding;
        let number = NumberText(finding.rule);
        let end = EndText(finding.end);
        let shown = ShownText {
            first: self.first,
            shown: finding.shown,
        };
        let rule = RuleText(finding.rule);
        write!(f, "finding {number} end {end} {shown}: {rule}\n")
    }
}

/// The lines of findings.
#[derive(Clone, Copy)]
pub(crate) struct FindingsText<'a> {
    pub first: Option<u64>,
    pub findings: &'a [Finding],
}

impl fmt::Display for FindingsText<'_> {
    ghost output = { λ t. Some (findings_text t.first t.findings.now) };

    fn fmt<W: fmt::Write>(&self, f: &mut fmt::Formatter<W>) -> fmt::Result {
        let first = self.first;
        for finding in self.findings {
            write!(f, "{}", FindingLine { first, finding })?;
        }
        Ok(())
    }
}
