//! The vectors: their inputs and what they expect.

use crate::expectation::Expectation;
use slowpdu::WireFault;

/// A text in hexadecimal: its pieces, and how often each is repeated.
pub type Pieces = &'static [(&'static str, usize)];

/// An LACPDU of an active port that has no partner yet.
pub const LACPDU: Pieces = &[
    (
        "010101148000020000000001000100800001c700000002140000000000000000000000000000020000000310",
        1,
    ),
    ("00", 66),
];

/// What `show` prints for this LACPDU.
pub const LACPDU_TEXT: &str = "lacpdu
actor 32768/02-00-00-00-00-01 key 1 port 128/1 state c7 active,short,aggregatable,defaulted,expired
partner 0/00-00-00-00-00-00 key 0 port 0/0 state 02 short
max-delay 0
";

/// `LACPDU` with version 2, other TLV types, and reserved octets that are not zero.
pub const LACPDU_OF_VERSION_2: Pieces = &[
    ("010209148000020000000001000100800001c7ffffff", 1),
    ("0914", 1),
    ("00", 14),
    ("02ffffff", 1),
    ("09100000", 1),
    ("ff", 64),
];

/// `LACPDU` without its last octet.
pub const SHORT: Pieces = &[
    (
        "010101148000020000000001000100800001c700000002140000000000000000000000000000020000000310",
        1,
    ),
    ("00", 65),
];

/// `LACPDU` with more octets at the end.
pub const LACPDU_AND_MORE: Pieces = &[
    (
        "010101148000020000000001000100800001c700000002140000000000000000000000000000020000000310",
        1,
    ),
    ("00", 66),
    ("aa", 40),
];

/// `LACPDU` with two wrong lengths.
pub const TWO_BAD_LENGTHS: Pieces = &[
    ("010101148000020000000001000100800001c7000000", 1),
    ("0213", 1),
    ("00", 14),
    ("02000000", 1),
    ("030f", 1),
    ("00", 66),
];

/// `LACPDU` with another subtype.
pub const SUBTYPE_3: Pieces = &[
    (
        "030101148000020000000001000100800001c700000002140000000000000000000000000000020000000310",
        1,
    ),
    ("00", 66),
];

/// The header of a control frame from 02-00-00-00-00-02.
pub const HEADER: Pieces = &[("0180c20000020200000000028809", 1)];

/// A frame with a marker.
pub const MARKER_FRAME: Pieces = &[
    ("0180c20000020200000000018809", 1),
    ("020101100001020000000001ffffffffbeef", 1),
    ("00", 92),
];

/// The response to the marker in `MARKER_FRAME`.
pub const RESPONSE_FRAME: Pieces = &[
    ("0180c20000020200000000028809", 1),
    ("020102100001020000000001ffffffff", 1),
    ("00", 94),
];

/// What `reply` prints for the marker in `MARKER_FRAME`.
pub const RESPONSE_LINE: Pieces = &[
    ("0180c20000020200000000028809", 1),
    ("020102100001020000000001ffffffff", 1),
    ("00", 94),
    ("\n", 1),
];

/// A data frame.
pub const DATA_FRAME: Pieces = &[("0200000000200200000000100800", 1)];

/// The payload of the marker with another TLV type.
pub const MARKER_OF_TYPE_3: Pieces = &[("020103100001020000000001ffffffffbeef", 1), ("00", 92)];

/// Two systems with one port each, and the cable between them.
pub const ONE_CABLE: &str = r#"
[[system]]
mac = "02-00-00-00-00-01"
aggregators = [1]
[[system.port]]
number = 1
key = 1
[[system]]
mac = "02-00-00-00-00-02"
aggregators = [1]
[[system.port]]
number = 1
key = 1
[[cable]]
ends = [1, 1]
"#;

/// A port without a peer: its partner becomes defaulted.
pub const ALONE: &str = r#"events = [
    "sense 1 1",
    "tick 1 9",
    "emit 1 1",
    "tick 1 1",
    "emit 1 1",
    "tick 1 20",
    "emit 1 1",
    "tick 1 19",
    "offer 1 1 0200000000200200000000100800",
    "tick 1 1",
    "offer 1 1 0200000000200200000000100800",
    "emit 1 1",
]
"#;

/// What `replay` prints for the events `ALONE` of the systems `ONE_CABLE`.
pub const ALONE_TEXT: &str = "1 sense 1 1 -> up
2 tick 1 9 -> ticked
3 emit 1 1 -> nothing
4 tick 1 1 -> ticked
5 emit 1 1 -> lacpdu c7 sent
6 tick 1 20 -> ticked
7 emit 1 1 -> lacpdu 47 sent
8 tick 1 19 -> ticked
9 offer 1 1 0200000000200200000000100800 -> refused 6 none-distributing
10 tick 1 1 -> ticked
11 offer 1 1 0200000000200200000000100800 -> port 1 serial 0 sent
12 emit 1 1 -> lacpdu 7f sent
cable 1 agreement not-both
flow 1/1/48 sent 1 collected none
";

/// Both ends of a cable come to distribute.
pub const UP: &str = r#"events = [
    "sense 1 1",
    "sense 1 2",
    "tick 1 10",
    "tick 2 10",
    "emit 1 1",
    "deliver 1 2",
    "emit 2 1",
    "deliver 1 1",
    "tick 1 10",
    "tick 2 10",
    "emit 1 1",
    "deliver 1 2",
    "tick 1 10",
    "tick 2 10",
    "emit 1 1",
    "deliver 1 2",
    "emit 2 1",
    "deliver 1 1",
    "emit 1 1",
    "deliver 1 2",
]
"#;

/// What `replay` prints for the events `UP` of the systems `ONE_CABLE`.
pub const UP_TEXT: &str = "1 sense 1 1 -> up
2 sense 1 2 -> up
3 tick 1 10 -> ticked
4 tick 2 10 -> ticked
5 emit 1 1 -> lacpdu c7 sent
6 deliver 1 2 -> took
7 emit 2 1 -> lacpdu 07 sent
8 deliver 1 1 -> took
9 tick 1 10 -> ticked
10 tick 2 10 -> ticked
11 emit 1 1 -> lacpdu 07 sent
12 deliver 1 2 -> took
13 tick 1 10 -> ticked
14 tick 2 10 -> ticked
15 emit 1 1 -> lacpdu 0f sent
16 deliver 1 2 -> took
17 emit 2 1 -> lacpdu 3f sent
18 deliver 1 1 -> took
19 emit 1 1 -> lacpdu 3f sent
20 deliver 1 2 -> took
cable 1 agreement same
";

/// V1 to V10: each passes if all that it expects is so (profile).
pub const VECTORS: [&[Expectation<'static>]; 10] = [
    // V1: an LACPDU is read, and encoded as it was.
    &[
        Expectation::Shows {
            payload: LACPDU,
            accepted: true,
            text: LACPDU_TEXT,
        },
        Expectation::Encodes(LACPDU),
    ],
    // V2: another version, other TLV types and reserved octets are read alike.
    &[Expectation::Shows {
        payload: LACPDU_OF_VERSION_2,
        accepted: true,
        text: LACPDU_TEXT,
    }],
    // V3: a payload that is too short, one with more octets at the end, and an empty one.
    &[
        Expectation::Shows {
            payload: SHORT,
            accepted: false,
            text: "refused 1 short have 109\n",
        },
        Expectation::Shows {
            payload: LACPDU_AND_MORE,
            accepted: true,
            text: LACPDU_TEXT,
        },
        Expectation::Shows {
            payload: &[],
            accepted: false,
            text: "refused 1 short have 0\n",
        },
    ],
    // V4: of two wrong lengths the first is told.
    &[Expectation::Shows {
        payload: TWO_BAD_LENGTHS,
        accepted: false,
        text: "refused 3 length at 23 found 19\n",
    }],
    // V5: another subtype is refused, and a system ignores it.
    &[
        Expectation::Shows {
            payload: SUBTYPE_3,
            accepted: false,
            text: "refused 2 subtype 3\n",
        },
        Expectation::Ignores {
            payloads: &[SUBTYPE_3],
            cause: WireFault::OtherSubtype(3),
        },
    ],
    // V6: a marker gets a response.
    &[Expectation::Replies {
        frame: MARKER_FRAME,
        answered: true,
        text: RESPONSE_LINE,
    }],
    // V7: a Marker Response and a data frame get none.
    &[
        Expectation::Replies {
            frame: RESPONSE_FRAME,
            answered: false,
            text: &[("no answer marker-response\n", 1)],
        },
        Expectation::Replies {
            frame: DATA_FRAME,
            answered: false,
            text: &[("no answer data\n", 1)],
        },
    ],
    // V8: a marker of another type is refused.
    &[Expectation::Shows {
        payload: MARKER_OF_TYPE_3,
        accepted: false,
        text: "refused 4 marker-tlv 3\n",
    }],
    // V9: a port without a peer.
    &[Expectation::Replays {
        events: ALONE,
        text: ALONE_TEXT,
    }],
    // V10: both ends of a cable come to distribute.
    &[Expectation::Replays {
        events: UP,
        text: UP_TEXT,
    }],
];
