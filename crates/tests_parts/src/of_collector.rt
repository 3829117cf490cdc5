use crate::comparing::same_in_row;
use collector::{Taken, answer, collect};
use lagtypes::AggId;
use slowpdu::{Marker, MarkerKind};

const MARKER: Marker = Marker {
    kind: MarkerKind::Information,
    port: 7,
    system: [2, 0, 0, 0, 0, 1],
    id: 4294967295,
};

const RESPONSE: Marker = Marker {
    kind: MarkerKind::Response,
    ..MARKER
};

const DATA: [u8; 14] = [2, 0, 0, 0, 0, 0x20, 2, 0, 0, 0, 0, 0x10, 0x08, 0x00];

/// A frame of the slow protocols.
const SLOW: [u8; 14] = [1, 0x80, 0xc2, 0, 0, 2, 2, 0, 0, 0, 0, 1, 0x88, 0x09];

/// A frame to the address of the slow protocols with an EtherType that is not theirs.
const OTHER: [u8; 14] = [1, 0x80, 0xc2, 0, 0, 2, 2, 0, 0, 0, 0, 1, 0x88, 0x08];

/// An octet less than a header.
const SHORT: [u8; 13] = [2, 0, 0, 0, 0, 0x20, 2, 0, 0, 0, 0, 0x10, 0x08];

/// Where the port collects, a frame, and what becomes of it.
const TAKEN: [(Option<AggId>, &[u8], Taken); 7] = [
    (Some(AggId(1)), &DATA, Taken::Up(AggId(1))),
    (Some(AggId(64)), &DATA, Taken::Up(AggId(64))),
    (Some(AggId(64)), &OTHER, Taken::Up(AggId(64))),
    (None, &DATA, Taken::Dropped),
    (Some(AggId(1)), &SLOW, Taken::Dropped),
    (Some(AggId(1)), &SHORT, Taken::Dropped),
    (Some(AggId(1)), &[], Taken::Dropped),
];

/// Whether the port is enabled, a marker, and the answer to it.
const ANSWERED: [(bool, Marker, Option<Marker>); 4] = [
    (true, MARKER, Some(RESPONSE)),
    (false, MARKER, None),
    (true, RESPONSE, None),
    (false, RESPONSE, None),
];

#[test]
fn data_is_handed_up_and_markers_are_answered(rt: HostRuntime) {
    for (place, (collecting, frame, taken)) in TAKEN.iter().enumerate() {
        same_in_row(&rt, place, &collect(*collecting, *frame), taken);
    }
    for (place, (enabled, marker, wanted)) in ANSWERED.iter().enumerate() {
        same_in_row(&rt, place, &answer(*enabled, marker), wanted);
    }
}
