//! The counters of a port that 7.3.3 names, for the slow protocols. They observe a system, and change nothing of it.
ghost use Rattle.std.specs.Prelude.{◌≡◌, slice_index};
ghost use Rattle.dataplane.specs.Counting.{counts_after_receive, counts_after_send, has_unknown_subtype, is_slow, is_to_slow_group, no_counts};
ghost use Rattle.dataplane.specs.Counting.{with_marker_sent, with_other, with_refused};
ghost use Rattle.dataplane.specs.Holding.{counted};

use lagsystem::Received;

/// Where a frame has its subtype (6.4.2.3, 6.5.3.3).
const SUBTYPE_AT: usize = 14;
/// Where the frame of a Marker PDU has the type of its TLV (6.5.3.3).
const TLV_TYPE_AT: usize = 16;
/// The subtype of an LACPDU (6.4.2.3).
const SUBTYPE_LACP: u8 = 1;
/// The subtype of a Marker PDU (6.5.3.3).
const SUBTYPE_MARKER: u8 = 2;

/// The frames of a port that came or went, by kind: the statistics of an Aggregation Port (7.3.3). Each count stays at 2^64 - 1.
#[repr(C)]
#[derive(Clone, Copy, Debug, PartialEq, Eq)]
pub struct Counters {
    /// LACPDUsRx: LACPDUs that were taken.
    pub lacpdus_received: u64,
    /// MarkerPDUsRx: markers that were taken.
    pub markers_received: u64,
    /// MarkerResponsePDUsRx: marker responses that were taken.
    pub marker_responses_received: u64,
    /// UnknownRx: frames of the slow protocols of an unknown subtype, 3 to 10; or to 01-80-C2-00-00-02, and of another EtherType.
    pub unknown_received: u64,
    /// IllegalRx: frames of the slow protocols with a badly formed PDU, or with an illegal subtype: 0, or 11 to 255.
    pub illegal_received: u64,
    /// LACPDUsTx: LACPDUs that were sent.
    pub lacpdus_sent: u64,
    /// MarkerPDUsTx: markers that were sent.
    pub markers_sent: u64,
    /// MarkerResponsePDUsTx: marker responses that were sent.
    pub marker_responses_sent: u64,
}

// promise: a received frame is counted once, as 7.3.3 names its kind; data, and what comes on a link that is down, is not; a sent control
//    frame is counted once
// contract: `count_received` (`counts_after_receive`), `count_sent` (`counts_after_send`)
impl Counters {
    /// Nothing was counted.
    pub fn none() -> Counters
        ensures { result ≡ no_counts }
    {
        Counters {
            lacpdus_received: 0,
            markers_received: 0,
            marker_responses_received: 0,
            unknown_received: 0,
            illegal_received: 0,
            lacpdus_sent: 0,
            markers_sent: 0,
            marker_responses_sent: 0,
        }
    }

    /// Counts a frame that came, by what `System::receive` answered. A frame on a link that is down, or of data, counts nothing.
    pub fn count_received(&mut self, frame: &[u8], answer: &Received)
        ensures { self.new ≡ counts_after_receive frame.now answer.now self.old }
    {
        match answer {
            Received::Disabled => {}
            Received::TookLacpdu => self.lacpdus_received = one_more(self.lacpdus_received),
            Received::Respond(_) => self.markers_received = one_more(self.markers_received),
            Received::Released(_) => self.marker_responses_received = one_more(
                self.marker_responses_received,
            ),
            Received::Ignored(_) => self.count_refused(frame),
            Received::Dropped | Received::Up(_) => self.count_other(frame),
        }
    }

    /// Counts a frame of the slow protocols whose payload is refused.
    fn count_refused(&mut self, frame: &[u8])
        ensures { self.new ≡ with_refused frame.now self.old }
    {
        if has_unknown_subtype(frame) {
            self.unknown_received = one_more(self.unknown_received);
        } else {
            self.illegal_received = one_more(self.illegal_received);
        }
    }

    /// Counts a frame of another EtherType, if it is addressed to the slow protocols.
    fn count_other(&mut self, frame: &[u8])
        ensures { self.new ≡ with_other frame.now self.old }
    {
        if is_to_slow_group(frame) {
            self.unknown_received = one_more(self.unknown_received);
        }
    }

    /// Counts a frame that was sent: one that `System::transmit` or `System::probe` answered, or the response of a `Received::Respond`.
    /// Any other frame counts nothing.
    pub fn count_sent(&mut self, frame: &[u8])
        ensures { self.new ≡ counts_after_send frame.now self.old }
    {
        if is_slow(frame, SUBTYPE_LACP) {
            self.lacpdus_sent = one_more(self.lacpdus_sent);
        } else if is_slow(frame, SUBTYPE_MARKER) {
            self.count_marker_sent(octet_at(frame, TLV_TYPE_AT));
        }
    }

    /// Counts a Marker PDU that was sent, by its TLV type.
    fn count_marker_sent(&mut self, tlv_type: u8)
        ensures { self.new ≡ with_marker_sent tlv_type self.old }
    {
        match tlv_type {
            1 => self.markers_sent = one_more(self.markers_sent),
            2 => self.marker_responses_sent = one_more(self.marker_responses_sent),
            _ => {}
        }
    }
}

/// One more than a count, which stays at 2^64 - 1.
pub(crate) fn one_more(count: u64) -> u64
    ensures { result ≡ counted count 1 }
{
    count.saturating_add(1)
}

/// An octet of a frame; 0 behind its end.
fn octet_at(frame: &[u8], place: usize) -> u8
    ensures { result ≡ slice_index frame.now place }
{
    match frame.get(place) {
        Some(octet) => *octet,
        None => 0,
    }
}

/// Whether the frame has a subtype that is neither illegal nor of LACP or the Marker protocol (IEEE 802.3, Table 57A-3).
fn has_unknown_subtype(frame: &[u8]) -> bool
    ensures { result ≡ has_unknown_subtype frame.now }
{
    let subtype = octet_at(frame, SUBTYPE_AT);
    3 <= subtype && subtype <= 10
}

/// Whether the frame is addressed to the Slow_Protocols_Multicast address.
fn is_to_slow_group(frame: &[u8]) -> bool
    ensures { result ≡ is_to_slow_group frame.now }
{
    frame.len() >= 14 && frame[..6] == [0x01, 0x80, 0xc2, 0x00, 0x00, 0x02]
}

/// Whether the frame is one of the slow protocols with this subtype.
fn is_slow(frame: &[u8], subtype: u8) -> bool
    ensures { result ≡ is_slow frame.now subtype }
{
    octet_at(frame, 12) == 0x88
        && octet_at(frame, 13) == 0x09
        && octet_at(frame, SUBTYPE_AT) == subtype
}
