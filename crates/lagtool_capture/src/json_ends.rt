ghost use Rattle.std.specs.Prelude.{Some};
ghost use Rattle.lagtool_capture.specs.Json.{advice_part, counts_record, end_record, ends_records, finding_record, findings_records, identity_value, link_end_value, median_value, packets_part, parties_part, partner_value, phases_part, rule_part, sender_part, shown_part, times_part, told_part};

use crate::end_texts::{CountsText, TenthsText};
use crate::ends::{LacpduSender, named_by};
use crate::finding_texts::{AdviceText, ClauseText, NumberText};
use crate::json::{GapValue, PhaseValue, PortValue, SinceValue};
use crate::names::Identity;
use findings::{Finding, LinkEnd, Rule, Shown};
use lagtypes::MacText;
use std::fmt;

/// What the record of an end says of its sender.
#[derive(Clone, Copy)]
struct SenderPart<'a> {
    end: &'a LacpduSender,
}

impl fmt::Display for SenderPart<'_> {
    ghost output = { λ t. Some (sender_part t.end.now) };

    #[tactic(auto, unfolding(crate::specs::Json::sender_part))]
    fn fmt<W: fmt::Write>(&self, f: &mut fmt::Formatter<W>) -> fmt::Result {
        let end = self.end;
        write!(
            f,
            "\"record\":\"end\",\"interface\":{},\"source\":\"{}\",\"port\":{},\"lacpdus\":{}",
            end.sender.interface,
            MacText(&end.sender.source),
            PortValue(end.sender.port),
            end.count
        )
    }
}

/// The identifiers by which an LACPDU names an end.
#[derive(Clone, Copy)]
struct IdentityValue(Identity);

impl fmt::Display for IdentityValue {
    ghost output = { λ t. Some (identity_value t.0) };

    #[tactic(auto, unfolding(crate::specs::Json::identity_value))]
    fn fmt<W: fmt::Write>(&self, f: &mut fmt::Formatter<W>) -> fmt::Result {
        let identity = self.0;
        write!(
            f,
            "{{\"system\":\"{}\",\"key\":{},\"port\":\"{}\"}}",
            identity.system, identity.key, identity.port
        )
    }
}

/// The fields of an end for who it is and the partner that it named last, and for the end, among all, that names it.
#[derive(Clone, Copy)]
struct PartiesPart<'a> {
    all: &'a [LacpduSender],
    end: &'a LacpduSender,
}

impl fmt::Display for PartiesPart<'_> {
    ghost output = { λ t. Some (parties_part t.all.now t.end.now) };

    #[tactic(auto, unfolding(crate::specs::Json::parties_part))]
    fn fmt<W: fmt::Write>(&self, f: &mut fmt::Formatter<W>) -> fmt::Result {
        let own = IdentityValue(Identity::of(&self.end.last.actor));
        let names = IdentityValue(Identity::of(&self.end.last.partner));
        let named = PartnerValue(named_by(self.all, self.end));
        write!(
            f,
            "\"identity\":{own},\"names\":{names},\"named_by\":{named}"
        )
    }
}

/// The median of times between LACPDUs in seconds; null if there is none.
#[derive(Clone, Copy)]
struct MedianValue(Option<usize>);

impl fmt::Display for MedianValue {
    ghost output = { λ t. Some (median_value t.0) };

    fn fmt<W: fmt::Write>(&self, f: &mut fmt::Formatter<W>) -> fmt::Result {
        match self.0 {
            Some(tenths) => write!(f, "{}", TenthsText(tenths)),
            None => f.write_str("null"),
        }
    }
}

/// The fields of an end for times: its first and latest LACPDU, and the shortest, longest and median gap, in seconds.
#[derive(Clone, Copy)]
struct TimesPart<'a> {
    first: Option<u64>,
    end: &'a LacpduSender,
}

impl fmt::Display for TimesPart<'_> {
    ghost output = { λ t. Some (times_part t.first t.end.now) };

    #[tactic(auto, unfolding(crate::specs::Json::times_part))]
    fn fmt<W: fmt::Write>(&self, f: &mut fmt::Formatter<W>) -> fmt::Result {
        let end = self.end;
        let first = self.first;
        let from = SinceValue {
            first,
            time: end.first,
        };
        let to = SinceValue {
            first,
            time: end.latest,
        };
        let shortest = GapValue(end.shortest);
        let longest = GapValue(end.longest);
        let median = MedianValue(end.median());
        write!(
            f,
            "\"first\":{from},\"last\":{to},\"shortest\":{shortest},\"longest\":{longest},\"median\":{median}"
        )
    }
}

/// The fields of an end for the bits of its state: synchronized, collecting, distributing.
#[derive(Clone, Copy)]
struct PhasesPart<'a> {
    first: Option<u64>,
    end: &'a LacpduSender,
}

impl fmt::Display for PhasesPart<'_> {
    ghost output = { λ t. Some (phases_part t.first t.end.now) };

    #[tactic(auto, unfolding(crate::specs::Json::phases_part))]
    fn fmt<W: fmt::Write>(&self, f: &mut fmt::Formatter<W>) -> fmt::Result {
        let end = self.end;
        let first = self.first;
        let synchronized = PhaseValue {
            first,
            phase: end.synchronized,
        };
        let collecting = PhaseValue {
            first,
            phase: end.collecting,
        };
        let distributing = PhaseValue {
            first,
            phase: end.distributing,
        };
        write!(
            f,
            "\"synchronized\":{synchronized},\"collecting\":{collecting},\"distributing\":{distributing}"
        )
    }
}

/// The record of an end that sent LACPDUs, among all ends.
#[derive(Clone, Copy)]
struct EndRecord<'a> {
    first: Option<u64>,
    all: &'a [LacpduSender],
    end: &'a LacpduSender,
}

impl fmt::Display for EndRecord<'_> {
    ghost output = { λ t. Some (end_record t.first t.all.now t.end.now) };

    #[tactic(auto, unfolding(crate::specs::Json::end_record))]
    fn fmt<W: fmt::Write>(&self, f: &mut fmt::Formatter<W>) -> fmt::Result {
        let first = self.first;
        let end = self.end;
        let sender = SenderPart { end };
        let parties = PartiesPart { all: self.all, end };
        let times = TimesPart { first, end };
        let phases = PhasesPart { first, end };
        write!(f, "{{{sender},{parties},{times},{phases}}}\n")
    }
}

/// The records of ends.
#[derive(Clone, Copy)]
pub(crate) struct EndsRecords<'a> {
    pub first: Option<u64>,
    pub ends: &'a [LacpduSender],
}

impl fmt::Display for EndsRecords<'_> {
    ghost output = { λ t. Some (ends_records t.first t.ends.now t.ends.now) };

    fn fmt<W: fmt::Write>(&self, f: &mut fmt::Formatter<W>) -> fmt::Result {
        let first = self.first;
        let all = self.ends;
        for end in all {
            write!(f, "{}", EndRecord { first, all, end })?;
        }
        Ok(())
    }
}

/// An end of a link.
#[derive(Clone, Copy)]
pub(crate) struct LinkEndValue(pub LinkEnd);

impl fmt::Display for LinkEndValue {
    ghost output = { λ t. Some (link_end_value t.0) };

    #[tactic(auto, unfolding(crate::specs::Json::link_end_value))]
    fn fmt<W: fmt::Write>(&self, f: &mut fmt::Formatter<W>) -> fmt::Result {
        let end = self.0;
        let port = PortValue(end.port);
        write!(
            f,
            "{{\"interface\":{},\"source\":\"{}\",\"port\":{port}}}",
            end.interface,
            MacText(&end.source)
        )
    }
}

/// The end that answers; null if there is none.
#[derive(Clone, Copy)]
pub(crate) struct PartnerValue(pub Option<LinkEnd>);

impl fmt::Display for PartnerValue {
    ghost output = { λ t. Some (partner_value t.0) };

    fn fmt<W: fmt::Write>(&self, f: &mut fmt::Formatter<W>) -> fmt::Result {
        match self.0 {
            Some(end) => write!(f, "{}", LinkEndValue(end)),
            None => f.write_str("null"),
        }
    }
}

/// What the record of a finding says of its rule: its number and its name.
#[derive(Clone, Copy)]
struct RulePart {
    rule: Rule,
}

impl fmt::Display for RulePart {
    ghost output = { λ t. Some (rule_part t.rule) };

    #[tactic(auto, unfolding(crate::specs::Json::rule_part))]
    fn fmt<W: fmt::Write>(&self, f: &mut fmt::Formatter<W>) -> fmt::Result {
        let rule = self.rule;
        let number = NumberText(rule);
        write!(
            f,
            "\"record\":\"finding\",\"rule\":{number},\"name\":\"{rule}\""
        )
    }
}

/// The section that has the rule, and what to do.
#[derive(Clone, Copy)]
struct AdvicePart {
    rule: Rule,
}

impl fmt::Display for AdvicePart {
    ghost output = { λ t. Some (advice_part t.rule) };

    #[tactic(auto, unfolding(crate::specs::Json::advice_part))]
    fn fmt<W: fmt::Write>(&self, f: &mut fmt::Formatter<W>) -> fmt::Result {
        let rule = self.rule;
        let clause = ClauseText(rule);
        let advice = AdviceText(rule);
        write!(f, "\"clause\":\"{clause}\",\"advice\":\"{advice}\"")
    }
}

/// The fields of a finding for the end and its partner, and for the packet that shows it.
#[derive(Clone, Copy)]
struct ShownPart {
    first: Option<u64>,
    end: LinkEnd,
    shown: Shown,
}

impl fmt::Display for ShownPart {
    ghost output = { λ t. Some (shown_part t.first t.end t.shown) };

    #[tactic(auto, unfolding(crate::specs::Json::shown_part))]
    fn fmt<W: fmt::Write>(&self, f: &mut fmt::Formatter<W>) -> fmt::Result {
        let shown = self.shown;
        let end = LinkEndValue(self.end);
        let partner = PartnerValue(shown.partner);
        let seconds = SinceValue {
            first: self.first,
            time: Some(shown.nanoseconds),
        };
        write!(
            f,
            "\"end\":{end},\"partner\":{partner},\"packet\":{},\"seconds\":{seconds}",
            shown.number
        )
    }
}

/// The record of a finding.
#[derive(Clone, Copy)]
struct FindingRecord<'a> {
    first: Option<u64>,
    finding: &'a Finding,
}

impl fmt::Display for FindingRecord<'_> {
    ghost output = { λ t. Some (finding_record t.first t.finding.now) };

    #[tactic(auto, unfolding(crate::specs::Json::finding_record))]
    fn fmt<W: fmt::Write>(&self, f: &mut fmt::Formatter<W>) -> fmt::Result {
        let finding = *self.finding;
        let rule = RulePart { rule: finding.rule };
        let advice = AdvicePart { rule: finding.rule };
        let shown = ShownPart {
            first: self.first,
            end: finding.end,
            shown: finding.shown,
        };
        write!(f, "{{{rule},{advice},{shown}}}\n")
    }
}

/// The records of findings.
#[derive(Clone, Copy)]
pub(crate) struct FindingsRecords<'a> {
    pub first: Option<u64>,
    pub findings: &'a [Finding],
}

impl fmt::Display for FindingsRecords<'_> {
    ghost output = { λ t. Some (findings_records t.first t.findings.now) };

    fn fmt<W: fmt::Write>(&self, f: &mut fmt::Formatter<W>) -> fmt::Result {
        let first = self.first;
        for finding in self.findings {
            write!(f, "{}", FindingRecord { first, finding })?;
        }
        Ok(())
    }
}

/// What the record of the counts says of packets.
#[derive(Clone, Copy)]
struct PacketsPart {
    packets: u64,
    slow: u64,
}

impl fmt::Display for PacketsPart {
    ghost output = { λ t. Some (packets_part t.packets t.slow) };

    #[tactic(auto, unfolding(crate::specs::Json::packets_part))]
    fn fmt<W: fmt::Write>(&self, f: &mut fmt::Formatter<W>) -> fmt::Result {
        write!(
            f,
            "\"record\":\"counts\",\"packets\":{},\"slow\":{}",
            self.packets, self.slow
        )
    }
}

/// The fields of the counts of ends, of findings, and of LACPDUs of ends beyond the limit.
#[derive(Clone, Copy)]
struct ToldPart {
    ends: usize,
    findings: usize,
    beyond: u64,
}

impl fmt::Display for ToldPart {
    ghost output = { λ t. Some (told_part t.ends t.findings t.beyond) };

    #[tactic(auto, unfolding(crate::specs::Json::told_part))]
    fn fmt<W: fmt::Write>(&self, f: &mut fmt::Formatter<W>) -> fmt::Result {
        write!(
            f,
            "\"ends\":{},\"findings\":{},\"beyond\":{}",
            self.ends, self.findings, self.beyond
        )
    }
}

/// The record of the counts.
#[derive(Clone, Copy)]
pub(crate) struct CountsRecord(pub CountsText);

impl fmt::Display for CountsRecord {
    ghost output = { λ t. Some (counts_record t.0.packets t.0.slow t.0.ends t.0.findings t.0.beyond) };

    #[tactic(auto, unfolding(crate::specs::Json::counts_record))]
    fn fmt<W: fmt::Write>(&self, f: &mut fmt::Formatter<W>) -> fmt::Result {
        let counts = self.0;
        let packets = PacketsPart {
            packets: counts.packets,
            slow: counts.slow,
        };
        let told = ToldPart {
            ends: counts.ends,
            findings: counts.findings,
            beyond: counts.beyond,
        };
        write!(f, "{{{packets},{told}}}\n")
    }
}
