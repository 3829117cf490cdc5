ghost use Rattle.std.specs.Prelude.{◌≡◌, ◌++◌, ◌<◌, [], List, Some, IfOk, OnOk, slice_get, unwrap_or};
ghost use Rattle.std.specs.List.{cons_option};
ghost use Rattle.findings.specs.declared.slow_frame.SlowFrame.{SlowFrame};
ghost use Rattle.findings.specs.Knows.{ends_of};
ghost use Rattle.lagtool_capture.specs.Noticing.{Follows, IsKnown, Log, findings_by, findings_in, if_timed, nothing_logged};

use findings::{Finding, Findings, Rule, SlowFrame};
use std::alloc::{AllocError, Global};

/// What the frames of a capture show of each end.
#[derive(Drop)]
pub(crate) struct Noticed {
    findings: Findings,
    /// The time of the last packet that has one, in nanoseconds; 0 before there is one.
    until: u64,
}

/// Adds a finding, if there is one. `AllocError` if memory is refused.
fn put(out: &mut Vec<Finding>, finding: Option<Finding>) -> Result<(), AllocError>
    ensures { OnOk result (out.new.items ≡ out.old.items ++ cons_option finding []) }
{
    if let Some(finding) = finding {
        out.push(finding)?;
    }
    Ok(())
}

/// Adds what is found by these rules of the end with this index. `AllocError` if memory is refused.
fn put_findings(
    out: &mut Vec<Finding>,
    findings: &Findings,
    index: usize,
    rules: &[Rule],
    until: u64,
) -> Result<(), AllocError>
    ensures { OnOk result ((h : List SlowFrame) → IsKnown h findings.now
        → out.new.items ≡ out.old.items ++ findings_by until h rules.now (slice_get (ends_of findings.now.kept.items) index)) }
{
    for rule in rules {
        put(out, findings.finding(index, *rule, until))?;
    }
    Ok(())
}

impl Noticed {
    /// Nothing noticed yet, before the first packet.
    pub fn new() -> Noticed
        ensures { Follows nothing_logged result }
    {
        Noticed {
            findings: Findings::new(),
            until: 0,
        }
    }

    /// Notes the time of a packet.
    pub fn note_time(&mut self, time: Option<u64>)
        ensures { self.new ≡ record self.old { until = unwrap_or time self.old.until } }
    {
        self.until = time.unwrap_or(self.until);
    }

    /// Takes a frame of the slow protocols in a packet with this time; nothing is found of a frame without a time.
    pub fn observe(&mut self, time: Option<u64>, frame: &SlowFrame)
        ensures until { self.new.until ≡ self.old.until }
        ensures frames { (h : List SlowFrame) → IsKnown h self.old.findings → IsKnown (cons_option (if_timed (Some frame.now) time) h) self.new.findings }
    {
        if time.is_some() {
            self.findings.observe(frame);
        }
    }

    /// What is found, end by end in the order of their first frames, and of each end rule by rule. `AllocError` if memory
    /// is refused.
    pub fn findings(&self, alloc: Global) -> Result<Vec<Finding>, AllocError>
        ensures { IfOk result (λ found. (l : Log) → Follows l self.now → found.items ≡ findings_in l (ends_of self.now.findings.kept.items)) }
    {
        let mut found = Vec::new(alloc);
        for index in 0..self.findings.count() {
            put_findings(&mut found, &self.findings, index, &Rule::ALL, self.until)?;
        }
        Ok(found)
    }
}
