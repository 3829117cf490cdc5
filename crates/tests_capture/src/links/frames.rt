use crate::given::end;
use arrayvec::ArrayVec;
use findings::{Findings, Rule, SlowFrame, What};
use slowpdu::{Info, Lacpdu};
use std::process::Abort;

/// Systems, by the last octet of their MAC addresses.
pub const A: u8 = 0xa;

pub const B: u8 = 0xb;

pub const C: u8 = 0xc;

/// A state octet: active, Long Timeout, aggregatable, synchronized, collecting, distributing.
pub const UP: u8 = 0x3d;

/// A state octet: active, Short Timeout, aggregatable, synchronized, collecting, distributing.
pub const FAST: u8 = 0x3f;

/// Port 1 of a system, with key 1.
pub fn info(system: u8, state: u8) -> Info {
    end(system, 1, 1, state)
}

/// What an end sends in an LACPDU: the Actor and the Partner.
#[derive(Clone, Copy, Debug)]
pub struct Said {
    pub actor: Info,
    pub partner: Info,
}

/// From this end to this one.
pub fn said_by(actor: Info, partner: Info) -> Said {
    Said { actor, partner }
}

/// System A to system B, with these two states.
pub fn a_to_b(own: u8, seen: u8) -> Said {
    said_by(info(A, own), info(B, seen))
}

/// System B to system A.
pub fn b_to_a(own: u8, seen: u8) -> Said {
    said_by(info(B, own), info(A, seen))
}

/// The nanoseconds of so many milliseconds after the captures begin, which is 1000 seconds after the beginning of 1970.
fn time(milliseconds: u64) -> u64 {
    milliseconds.wrapping_add(1_000_000).wrapping_mul(1_000_000)
}

/// A frame with this LACPDU, so many milliseconds after the beginning. Its source is the Actor's MAC address.
pub fn at(milliseconds: u64, said: Said) -> SlowFrame {
    let source = said.actor.system.mac;
    SlowFrame {
        number: 0,
        interface: 0,
        nanoseconds: time(milliseconds),
        source,
        destination: Some([0x01, 0x80, 0xc2, 0, 0, 2]),
        tags: 0,
        length: 124,
        version: 1,
        reserved: false,
        other_types: false,
        what: What::Lacpdu(Lacpdu {
            actor: said.actor,
            partner: said.partner,
            max_delay: 0,
        }),
    }
}

/// Frames with this LACPDU, one at each of these times.
pub fn each_at<const N: usize>(times: [u64; N], said: Said) -> [SlowFrame; N] {
    let mut frames = [at(0, said); N];
    for (frame, milliseconds) in frames.iter_mut().zip(times) {
        *frame = at(milliseconds, said);
    }
    frames
}

/// The frame on another interface than the first.
pub fn on(interface: u32, frame: SlowFrame) -> SlowFrame {
    let mut other = frame;
    other.interface = interface;
    other
}

/// What is known behind these frames, which are numbered from 1.
pub fn observed(frames: &[SlowFrame]) -> Findings {
    let mut findings = Findings::new();
    let mut number: u64 = 0;
    for frame in frames {
        number = number.wrapping_add(1);
        let mut frame = *frame;
        frame.number = number;
        findings.observe(&frame);
    }
    findings
}

/// What is found behind these frames of a capture that ends so many milliseconds after its beginning: the number of the rule and
/// that of the frame; end by end, as they come first, and rule by rule.
fn found(frames: &[SlowFrame], milliseconds: u64) -> ArrayVec<(u8, u64), 32> {
    let findings = observed(frames);
    let until = time(milliseconds);
    let mut found = ArrayVec::new();
    for index in 0..findings.count() {
        for rule in Rule::ALL {
            if let Some(finding) = findings.finding(index, rule, until) {
                let _left = found.try_push((finding.rule.number(), finding.shown.number));
            }
        }
    }
    found
}

/// Fails unless just this is found; the message has what is found and what was expected.
pub fn shows(rt: &impl Abort, frames: &[SlowFrame], milliseconds: u64, expected: &[(u8, u64)]) {
    assert_eq!(rt; found(frames, milliseconds).as_slice(), expected);
}
