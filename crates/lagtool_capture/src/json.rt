ghost use Rattle.std.specs.Prelude.{Some};
ghost use Rattle.lagtool_capture.specs.Json.{destination_value, frame_record, gap_value, info_value, members, phase_value, port_value, since_value, what_members};

use crate::ends::Phase;
use crate::line::{HeadText, SecondsText, SignedSeconds, WhatText};
use bitflags::Flags;
use lagtypes::MacText;
use slowpdu::{Info, MarkerKind};
use std::fmt;

/// The seconds from the first time of a capture to another; null if one of the times is not known.
#[derive(Clone, Copy)]
pub(crate) struct SinceValue {
    pub first: Option<u64>,
    pub time: Option<u64>,
}

impl fmt::Display for SinceValue {
    ghost output = { λ t. Some (since_value t.first t.time) };

    fn fmt<W: fmt::Write>(&self, f: &mut fmt::Formatter<W>) -> fmt::Result {
        match (self.first, self.time) {
            (Some(first), Some(time)) => write!(f, "{}", SignedSeconds { first, time }),
            _ => f.write_str("null"),
        }
    }
}

/// A time between two frames in seconds; null if it is not known.
#[derive(Clone, Copy)]
pub(crate) struct GapValue(pub Option<u64>);

impl fmt::Display for GapValue {
    ghost output = { λ t. Some (gap_value t.0) };

    fn fmt<W: fmt::Write>(&self, f: &mut fmt::Formatter<W>) -> fmt::Result {
        match self.0 {
            Some(gap) => write!(f, "{}", SecondsText(gap)),
            None => f.write_str("null"),
        }
    }
}

/// A port number; null if there is none.
#[derive(Clone, Copy)]
pub(crate) struct PortValue(pub Option<u16>);

impl fmt::Display for PortValue {
    ghost output = { λ t. Some (port_value t.0) };

    fn fmt<W: fmt::Write>(&self, f: &mut fmt::Formatter<W>) -> fmt::Result {
        match self.0 {
            Some(port) => write!(f, "{port}"),
            None => f.write_str("null"),
        }
    }
}

/// A destination address; null if the capture does not keep it.
#[derive(Clone, Copy)]
struct DestinationValue(Option<[u8; 6]>);

impl fmt::Display for DestinationValue {
    ghost output = { λ t. Some (destination_value t.0) };

    fn fmt<W: fmt::Write>(&self, f: &mut fmt::Formatter<W>) -> fmt::Result {
        match self.0 {
            Some(mac) => write!(f, "\"{}\"", MacText(&mac)),
            None => f.write_str("null"),
        }
    }
}

/// When a bit began and ended to be 1.
#[derive(Clone, Copy)]
pub(crate) struct PhaseValue {
    pub first: Option<u64>,
    pub phase: Phase,
}

impl fmt::Display for PhaseValue {
    ghost output = { λ t. Some (phase_value t.first t.phase) };

    #[tactic(auto, unfolding(crate::specs::Json::phase_value))]
    fn fmt<W: fmt::Write>(&self, f: &mut fmt::Formatter<W>) -> fmt::Result {
        let began = SinceValue {
            first: self.first,
            time: self.phase.began,
        };
        let ended = SinceValue {
            first: self.first,
            time: self.phase.ended,
        };
        write!(f, "{{\"began\":{began},\"ended\":{ended}}}")
    }
}

/// Participant information (6.4.2.3).
#[derive(Clone, Copy)]
struct InfoValue(Info);

impl fmt::Display for InfoValue {
    ghost output = { λ t. Some (info_value t.0) };

    #[tactic(auto, unfolding(crate::specs::Json::info_value))]
    fn fmt<W: fmt::Write>(&self, f: &mut fmt::Formatter<W>) -> fmt::Result {
        let info = self.0;
        write!(
            f,
            "{{\"system\":\"{}\",\"key\":{},\"port\":\"{}\",\"state\":{}}}",
            info.system,
            info.key,
            info.port,
            info.state.bits()
        )
    }
}

/// What the record of a frame says of what is in it.
#[derive(Clone, Copy)]
struct WhatMembers(WhatText);

impl fmt::Display for WhatMembers {
    ghost output = { λ t. Some (members (what_members t.0)) };

    fn fmt<W: fmt::Write>(&self, f: &mut fmt::Formatter<W>) -> fmt::Result {
        match self.0 {
            WhatText::Lacpdu(text) => {
                let lacpdu = text.lacpdu;
                write!(
                    f,
                    "\"kind\":\"lacpdu\",\"actor\":{},\"partner\":{},\"max_delay\":{}",
                    InfoValue(lacpdu.actor),
                    InfoValue(lacpdu.partner),
                    lacpdu.max_delay
                )
            }
            WhatText::Marker(marker) => {
                let word = match marker.kind {
                    MarkerKind::Information => "marker",
                    MarkerKind::Response => "marker-response",
                };
                write!(
                    f,
                    "\"kind\":\"{word}\",\"port\":{},\"system\":\"{}\",\"id\":{}",
                    marker.port,
                    MacText(&marker.system),
                    marker.id
                )
            }
            WhatText::Refused(fault) => { write!(f, "\"kind\":\"refused\",\"fault\":\"{fault}\"") }
        }
    }
}

/// The record of a frame.
#[derive(Clone, Copy)]
pub(crate) struct FrameRecord<'a> {
    pub head: HeadText<'a>,
    pub what: WhatText,
}

impl fmt::Display for FrameRecord<'_> {
    ghost output = { λ t. Some (frame_record t.head.since.first t.head.since.time t.head.frame.now t.what) };

    #[tactic(auto, unfolding(crate::specs::Json::frame_record))]
    fn fmt<W: fmt::Write>(&self, f: &mut fmt::Formatter<W>) -> fmt::Result {
        let head = self.head;
        let frame = head.frame;
        let seconds = SinceValue {
            first: head.since.first,
            time: head.since.time,
        };
        let destination = DestinationValue(frame.destination);
        let what = WhatMembers(self.what);
        write!(
            f,
            "{{\"record\":\"frame\",\"packet\":{},\"seconds\":{seconds},\"interface\":{},\"source\":\"{}\",\"destination\":{destination},\"tags\":{},{what}}}\n",
            frame.number,
            frame.interface,
            MacText(&frame.source),
            frame.tags
        )
    }
}
