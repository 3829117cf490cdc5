ghost use Rattle.std.specs.Prelude.{◌≡◌, Some};
ghost use Rattle.lagtool_capture.specs.LineTexts.{destination_part, head_text, interface_part, marker_text, seconds_text, signed_seconds, since_text, six_digits, tags_part, what_text};

use crate::lacpdu_texts::LacpduLine;
use findings::SlowFrame;
use lagtypes::MacText;
use slowpdu::{Marker, MarkerKind, WireFault};
use std::fmt;

/// Six decimal digits of a number below 1,000,000.
#[derive(Clone, Copy)]
struct SixDigits(u64);

impl fmt::Display for SixDigits {
    ghost output = { λ t. Some (six_digits t.0) };

    fn fmt<W: fmt::Write>(&self, f: &mut fmt::Formatter<W>) -> fmt::Result {
        let number = self.0;
        write!(
            f,
            "{}{}{}{}{}{}",
            number / 100_000 % 10,
            number / 10_000 % 10,
            number / 1_000 % 10,
            number / 100 % 10,
            number / 10 % 10,
            number % 10
        )
    }
}

/// Nanoseconds as seconds with six digits, the rest cut off.
#[derive(Clone, Copy)]
pub(crate) struct SecondsText(pub u64);

impl fmt::Display for SecondsText {
    ghost output = { λ t. Some (seconds_text t.0) };

    fn fmt<W: fmt::Write>(&self, f: &mut fmt::Formatter<W>) -> fmt::Result {
        let micros = self.0 / 1_000;
        write!(
            f,
            "{}.{}",
            micros / 1_000_000,
            SixDigits(micros % 1_000_000)
        )
    }
}

/// The seconds from the first time of a capture to another, with a minus sign if that is earlier.
#[derive(Clone, Copy)]
pub(crate) struct SignedSeconds {
    pub first: u64,
    pub time: u64,
}

impl fmt::Display for SignedSeconds {
    ghost output = { λ t. Some (signed_seconds t.first t.time) };

    fn fmt<W: fmt::Write>(&self, f: &mut fmt::Formatter<W>) -> fmt::Result {
        let (first, time) = (self.first, self.time);
        if time < first {
            write!(f, "-{}", SecondsText(first - time))
        } else {
            write!(f, "{}", SecondsText(time - first))
        }
    }
}

/// The same; a dash if one of the times is not known.
#[derive(Clone, Copy)]
pub(crate) struct SinceText {
    pub first: Option<u64>,
    pub time: Option<u64>,
}

impl fmt::Display for SinceText {
    ghost output = { λ t. Some (since_text t.first t.time) };

    fn fmt<W: fmt::Write>(&self, f: &mut fmt::Formatter<W>) -> fmt::Result {
        match (self.first, self.time) {
            (Some(first), Some(time)) => write!(f, "{}", SignedSeconds { first, time }),
            _ => f.write_str("-"),
        }
    }
}

/// The interface, if it isn't the first.
#[derive(Clone, Copy)]
pub(crate) struct InterfacePart(pub u32);

impl fmt::Display for InterfacePart {
    ghost output = { λ t. Some (interface_part t.0) };

    fn fmt<W: fmt::Write>(&self, f: &mut fmt::Formatter<W>) -> fmt::Result {
        let interface = self.0;
        if interface == 0 {
            Ok(())
        } else {
            write!(f, " interface {interface}")
        }
    }
}

/// The destination address, if it isn't the Slow_Protocols_Multicast address.
#[derive(Clone, Copy)]
struct DestinationPart(Option<[u8; 6]>);

impl fmt::Display for DestinationPart {
    ghost output = { λ t. Some (destination_part t.0) };

    fn fmt<W: fmt::Write>(&self, f: &mut fmt::Formatter<W>) -> fmt::Result {
        match self.0 {
            Some(mac) if mac != [0x01, 0x80, 0xc2, 0x00, 0x00, 0x02] => {
                write!(f, " to {}", MacText(&mac))
            }
            _ => Ok(()),
        }
    }
}

/// How many tags there are, if there is one.
#[derive(Clone, Copy)]
struct TagsPart(u8);

impl fmt::Display for TagsPart {
    ghost output = { λ t. Some (tags_part t.0) };

    fn fmt<W: fmt::Write>(&self, f: &mut fmt::Formatter<W>) -> fmt::Result {
        let tags = self.0;
        if tags == 0 {
            Ok(())
        } else {
            write!(f, " tags {tags}")
        }
    }
}

/// The head of the line of a frame: number, seconds, interface, source, destination and tags, and a blank.
#[derive(Clone, Copy)]
pub(crate) struct HeadText<'a> {
    pub since: SinceText,
    pub frame: &'a SlowFrame,
}

impl fmt::Display for HeadText<'_> {
    ghost output = { λ t. Some (head_text t.since.first t.since.time t.frame.now) };

    fn fmt<W: fmt::Write>(&self, f: &mut fmt::Formatter<W>) -> fmt::Result {
        let frame = self.frame;
        let interface = InterfacePart(frame.interface);
        let destination = DestinationPart(frame.destination);
        let tags = TagsPart(frame.tags);
        write!(
            f,
            "{} {}{interface} {}{destination}{tags} ",
            frame.number,
            self.since,
            MacText(&frame.source)
        )
    }
}

/// What the line of a frame says of its Marker PDU.
#[derive(Clone, Copy)]
pub(crate) struct MarkerText(pub Marker);

impl fmt::Display for MarkerText {
    ghost output = { λ t. Some (marker_text t.0) };

    fn fmt<W: fmt::Write>(&self, f: &mut fmt::Formatter<W>) -> fmt::Result {
        let marker = self.0;
        let word = match marker.kind {
            MarkerKind::Information => "marker",
            MarkerKind::Response => "marker-response",
        };
        write!(
            f,
            "{word} port {} system {} id {}",
            marker.port,
            MacText(&marker.system),
            marker.id
        )
    }
}

/// What the line of a frame says behind its head.
#[derive(Clone, Copy)]
pub(crate) enum WhatText {
    /// The frame holds an LACPDU.
    Lacpdu(LacpduLine),
    /// The frame holds a Marker PDU.
    Marker(Marker),
    /// The frame is refused.
    Refused(WireFault),
}

impl fmt::Display for WhatText {
    ghost output = { λ t. Some (what_text t) };

    fn fmt<W: fmt::Write>(&self, f: &mut fmt::Formatter<W>) -> fmt::Result {
        match self {
            WhatText::Lacpdu(text) => write!(f, "{text}"),
            WhatText::Marker(marker) => write!(f, "{}", MarkerText(*marker)),
            WhatText::Refused(fault) => write!(f, "refused {fault}"),
        }
    }
}
