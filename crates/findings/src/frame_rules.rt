ghost use Rattle.std.specs.Prelude.{◌≡◌, ◌∷◌, List};
ghost use Rattle.findings.specs.declared.slow_frame.SlowFrame.{SlowFrame};
ghost use Rattle.findings.specs.Firsts.{shown_frame};
ghost use Rattle.findings.specs.Holds.{has_other_destination, has_other_length, has_other_source, has_other_types, has_other_version, has_reserved, is_read};
ghost use Rattle.findings.specs.KeptEnds.{frame_rules};

use crate::finding::{Shown, keep_earlier};
use crate::slow_frame::{SlowFrame, What};

/// The Slow_Protocols_Multicast address (6.4.2.2).
const SLOW_PROTOCOLS: [u8; 6] = [0x01, 0x80, 0xc2, 0x00, 0x00, 0x02];

/// The length of a header and 110 octets; that with the frame check sequence.
const LENGTHS: [u32; 2] = [124, 128];

/// The first frame of an end that shows each rule of frames.
#[derive(Clone, Copy, Debug, Default, PartialEq, Eq)]
pub(crate) struct FrameRules {
    pub(crate) version: Option<Shown>,
    pub(crate) length: Option<Shown>,
    pub(crate) reserved: Option<Shown>,
    pub(crate) destination: Option<Shown>,
    pub(crate) tag: Option<Shown>,
    pub(crate) types: Option<Shown>,
    pub(crate) source: Option<Shown>,
}

impl SlowFrame {
    fn shown(&self) -> Shown
        ensures { result ≡ shown_frame self.now }
    {
        Shown {
            number: self.number,
            nanoseconds: self.nanoseconds,
            partner: None,
        }
    }

    /// Whether the payload is one of the Slow Protocols that are read.
    fn is_read(&self) -> bool
        ensures { result ≡ is_read self.now.what }
    {
        match self.what {
            What::Lacpdu(_) | What::Marker(_) => true,
            What::Refused(_) => false,
        }
    }

    /// Whether the version is another one.
    fn has_other_version(&self) -> bool
        ensures { (l : List SlowFrame) → result ≡ has_other_version self.now l }
    {
        self.is_read() && self.version != 1
    }

    /// Whether a reserved octet is not zero.
    fn has_reserved(&self) -> bool
        ensures { (l : List SlowFrame) → result ≡ has_reserved self.now l }
    {
        self.is_read() && self.reserved
    }

    /// Whether a TLV type or the Terminator is another one.
    fn has_other_types(&self) -> bool
        ensures { (l : List SlowFrame) → result ≡ has_other_types self.now l }
    {
        self.is_read() && self.other_types
    }

    /// Whether the source address is no individual one.
    fn has_other_source(&self) -> bool
        ensures { (l : List SlowFrame) → result ≡ has_other_source self.now l }
    {
        self.source[0] % 2 == 1 || self.source == [0; 6]
    }

    /// Whether the length is neither 124 nor 128 octets.
    fn has_other_length(&self) -> bool
        ensures { (l : List SlowFrame) → result ≡ has_other_length self.now l }
    {
        self.length != LENGTHS[0] && self.length != LENGTHS[1]
    }

    /// Whether the destination is known and another one.
    fn has_other_destination(&self) -> bool
        ensures { (l : List SlowFrame) → result ≡ has_other_destination self.now l }
    {
        match self.destination {
            Some(destination) => destination != SLOW_PROTOCOLS,
            None => false,
        }
    }
}

impl FrameRules {
    /// Keeps the first frame that shows each rule, after one more frame.
    pub(crate) fn see(&mut self, now: &SlowFrame)
        ensures { (l : List SlowFrame) → self.old ≡ frame_rules l → self.new ≡ frame_rules (now.now ∷ l) }
    {
        let shown = now.shown();
        keep_earlier(&mut self.version, now.has_other_version(), &shown);
        keep_earlier(&mut self.length, now.has_other_length(), &shown);
        keep_earlier(&mut self.reserved, now.has_reserved(), &shown);
        keep_earlier(&mut self.destination, now.has_other_destination(), &shown);
        keep_earlier(&mut self.tag, now.tags > 0, &shown);
        keep_earlier(&mut self.types, now.has_other_types(), &shown);
        keep_earlier(&mut self.source, now.has_other_source(), &shown);
    }
}
