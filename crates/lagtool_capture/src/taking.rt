ghost use Rattle.std.specs.Prelude.{◌≡◌, ◌≤◌, length, IfOk, IfSome, OnOk};
ghost use Rattle.captures.specs.Wanted.{IsWithin};
ghost use Rattle.captures.specs.Whole.{numbered_in};
ghost use Rattle.lagtool_capture.specs.Reporting.{after_all, observed};
ghost use Rattle.lagtool_capture.specs.Noticing.{Agrees, Log, logged, logged_all};
ghost use Rattle.lagtool_capture.specs.Taking.{StepsThrough, stopped_at};

use crate::capture_report::CaptureReport;
use crate::noticing::Noticed;
use crate::slow_frames::frame_in;
use captures::{Fault, Packet, Reader, Step, Stop};
use std::alloc::AllocError;

/// How far octets were read.
#[derive(Clone, Copy, Debug, PartialEq, Eq)]
pub(crate) struct Taken {
    /// How many of them are taken.
    pub count: usize,
    /// How many octets behind them are taken too.
    pub skip: usize,
    /// Why no more are taken, if the capture is not read on. Its offset is counted from the first octet that is not
    /// taken.
    pub fault: Option<Fault>,
}

/// Reports a packet with these captured octets, which is counted; the frame of the slow protocols in it is made once, for the
/// report and for what is found.
fn observe_packet(
    report: &mut CaptureReport,
    noticed: &mut Noticed,
    packet: &Packet,
    octets: &[u8],
) -> Result<(), AllocError>
    ensures reported { OnOk result (report.new ≡ observed packet.now octets.now report.old) }
    ensures noticed { OnOk result ((l : Log) → Agrees l report.old.number noticed.old
        → Agrees (logged packet.now octets.now l) report.new.number noticed.new) }
{
    let number = report.count(packet.time);
    noticed.note_time(packet.time);
    match frame_in(number, packet, octets) {
        Some(frame) => {
            noticed.observe(packet.time, &frame);
            report.observe(packet.time, &frame)
        }
        None => Ok(()),
    }
}

/// Reports the packet that a step found among these octets, and counts a record that holds none.
#[tactic(auto, using(crate::proofs::FrameLemmas::follows_record))]
fn observe_any(
    report: &mut CaptureReport,
    noticed: &mut Noticed,
    step: Step,
    octets: &[u8],
) -> Result<(), AllocError>
    requires { IfSome step.packet (λ p. IsWithin octets.now p) }
    ensures reported { OnOk result (report.new ≡ after_all (numbered_in step octets.now) report.old) }
    ensures noticed { OnOk result ((l : Log) → Agrees l report.old.number noticed.old
        → Agrees (logged_all (numbered_in step octets.now) l) report.new.number noticed.new) }
{
    match step.packet {
        Some(packet) => observe_packet(report, noticed, &packet, packet.octets(octets)),
        None => {
            if step.is_record {
                report.count(None);
            }
            Ok(())
        }
    }
}

/// This many octets are taken and none is skipped; with the fault if the capture is refused, and none if octets are missing.
fn stopped_at(count: usize, stop: Stop) -> Taken
    ensures { result ≡ stopped_at count stop }
{
    let fault = match stop {
        Stop::Wants(_) => None,
        Stop::Refused(fault) => Some(fault),
    };
    Taken {
        count,
        skip: 0,
        fault,
    }
}

/// Reads and explains what stands in these octets, up to what does not end among them. `AllocError` if memory is refused.
pub(crate) fn take_steps(
    reader: &mut Reader,
    report: &mut CaptureReport,
    noticed: &mut Noticed,
    octets: &[u8],
) -> Result<Taken, AllocError>
    ensures steps { IfOk result (λ taken. StepsThrough octets.now reader.old reader.new report.old report.new noticed.old noticed.new taken) }
    ensures count { IfOk result (λ taken. taken.count ≤ length octets.now) }
{
    let mut count = 0;
    while count < octets.len() {
        let rest = &octets[count..];
        match reader.read(rest) {
            Ok(step) => {
                observe_any(report, noticed, step, rest)?;
                if step.taken > rest.len() {
                    return Ok(Taken {
                        count: octets.len(),
                        skip: step.taken - rest.len(),
                        fault: None,
                    });
                }
                count += step.taken;
            }
            Err(stop) => return Ok(stopped_at(count, stop)),
        }
    }
    Ok(Taken {
        count,
        skip: 0,
        fault: None,
    })
}
