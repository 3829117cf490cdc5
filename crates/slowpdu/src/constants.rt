//! The constants of payloads and frames.

/// The length of a payload in octets (6.4.2.3, 6.5.3.3).
pub(crate) const PAYLOAD_LEN: usize = 110;

/// The octets before a frame's payload: both addresses and the EtherType (6.4.2.2, 6.5.3.2).
pub(crate) const HEADER_LEN: usize = 14;

/// The length of a control frame in octets.
pub(crate) const FRAME_LEN: usize = HEADER_LEN + PAYLOAD_LEN;

/// The EtherType of the slow protocols (6.4.2.2, 6.5.3.2).
pub(crate) const SLOW_TYPE: [u8; 2] = [0x88, 0x09];

/// The subtype of an LACPDU (6.4.2.3).
pub(crate) const LACP_SUBTYPE: u8 = 1;

/// The subtype of a Marker PDU (6.5.3.3).
pub(crate) const MARKER_SUBTYPE: u8 = 2;

/// The version number that is sent (6.4.2.3, 6.5.3.3).
pub(crate) const VERSION: u8 = 1;

/// The type of the Actor TLV (6.4.2.3).
pub(crate) const ACTOR_TYPE: u8 = 1;

/// The type of the Partner TLV (6.4.2.3).
pub(crate) const PARTNER_TYPE: u8 = 2;

/// The type of the Collector TLV (6.4.2.3).
pub(crate) const COLLECTOR_TYPE: u8 = 3;

/// The length of the Actor TLV, and of the Partner TLV (6.4.2.3).
pub(crate) const INFO_LENGTH: u8 = 20;

/// The length of the Collector TLV (6.4.2.3).
pub(crate) const COLLECTOR_LENGTH: u8 = 16;

/// The type of the Marker Information TLV (6.5.3.3).
pub(crate) const INFORMATION_TYPE: u8 = 1;

/// The type of the Marker Response Information TLV (6.5.3.3).
pub(crate) const RESPONSE_TYPE: u8 = 2;

/// The length of the TLV of a Marker PDU, of either type (6.5.3.3).
pub(crate) const MARKER_LENGTH: u8 = 16;
