use crate::comparing::same_in_row;
use crate::systems::{
    Case, DATA, Given, LAST, NEXT, Response, Row, Side, THIRD, TWO, config, modulo, plays,
    plays_cases,
};
use lagsystem::{Assignment, Received, System, SystemFault};

/// A data frame of conversation 304 if there are 4096 of them, and of conversation 48 if there are 256.
const WIDE: [u8; 14] = [2, 0, 0, 0, 0xf1, 0x20, 2, 0, 0, 0, 0, 0x10, 8, 0];

/// Ports 1 and 2 come up: both distribute in aggregator 1, with system 2 as their partner; then nothing is due, and no
/// LACPDU was sent in the last eleven ticks.
pub(crate) const COMING_UP: [Row<'static>; 16] = [
    Row::Links(&[1, 2]),
    Row::Takes(1, Side::Of(2, 1, 1, 0x05), Side::Of(1, 1, 1, 0x07)),
    Row::Takes(2, Side::Of(2, 2, 1, 0x05), Side::Of(1, 2, 1, 0x07)),
    Row::Ticks(20),
    Row::Sends(1, Side::Of(1, 1, 1, 0x0f), Side::Of(2, 1, 1, 0x05)),
    Row::Sends(2, Side::Of(1, 2, 1, 0x0f), Side::Of(2, 2, 1, 0x05)),
    Row::Takes(1, Side::Of(2, 1, 1, 0x0d), Side::Of(1, 1, 1, 0x0f)),
    Row::Takes(2, Side::Of(2, 2, 1, 0x0d), Side::Of(1, 2, 1, 0x0f)),
    Row::Sends(1, Side::Of(1, 1, 1, 0x3f), Side::Of(2, 1, 1, 0x0d)),
    Row::Sends(2, Side::Of(1, 2, 1, 0x3f), Side::Of(2, 2, 1, 0x0d)),
    Row::Takes(1, Side::Of(2, 1, 1, 0x0d), Side::Of(1, 1, 1, 0x3f)),
    Row::Takes(2, Side::Of(2, 2, 1, 0x0d), Side::Of(1, 2, 1, 0x3f)),
    Row::Ticks(11),
    Row::Silent(1),
    Row::Silent(2),
    Row::Distributing(1, &[1, 2]),
];

/// After these rows, port 1 leaves the aggregator, and conversation 48 goes to port 2 after its Marker Response.
const LEAVING: [Row<'static>; 14] = [
    Row::Conversation(&DATA, Some(48)),
    Row::Conversation(&NEXT, Some(49)),
    Row::Conversation(&[0; 13], None),
    Row::Offers(1, &DATA, Ok(1)),
    Row::Offers(1, &NEXT, Ok(2)),
    // the partner's key is another one; all else is as before
    Row::Takes(1, Side::Of(2, 1, 2, 0x0d), Side::Of(1, 1, 1, 0x3f)),
    Row::Distributing(1, &[2]),
    Row::Offers(1, &DATA, Err(SystemFault::Held)),
    Row::Offers(1, &NEXT, Ok(2)),
    Row::Sends(1, Side::Of(1, 1, 1, 0x07), Side::Of(2, 1, 2, 0x0d)),
    Row::Marks(1, 1),
    Row::Silent(1),
    Row::Releases(1, Response(1, 1, 1), 1),
    Row::Offers(1, &DATA, Ok(2)),
];

/// A frame of the slow protocols.
const SLOW: [u8; 14] = [2, 0, 0, 0, 0, 0x20, 2, 0, 0, 0, 0, 0x10, 0x88, 9];

/// A frame of the slow protocols that is an octet too long.
fn long_and_slow() -> [u8; 1519] {
    let mut octets = [0; 1519];
    octets[12] = 0x88;
    octets[13] = 9;
    octets
}

#[test]
fn offers_are_refused_in_order(rt: HostRuntime) -> Result<(), SystemFault> {
    let long = long_and_slow();
    let rows = [
        Row::Offers(0, &[0; 13], Err(SystemFault::NoAggregator)),
        Row::Offers(3, &[0; 13], Err(SystemFault::NoAggregator)),
        Row::Offers(1, &[0; 13], Err(SystemFault::FrameLength)),
        Row::Offers(1, &[0; 1519], Err(SystemFault::FrameLength)),
        Row::Offers(1, &long, Err(SystemFault::FrameLength)),
        Row::Offers(1, &SLOW, Err(SystemFault::SlowFrame)),
        Row::Offers(1, &DATA, Err(SystemFault::NoneDistributing)),
        Row::Offers(2, &[0; 1518], Err(SystemFault::NoneDistributing)),
    ];
    let given = config(rt.alloc(), &[1, 2], 2)?;
    plays(&rt, rt.alloc(), given, "refused offers", &rows)
}

// the link of port 3 stays down
const REFUSED_MOVES: [Row<'static>; 23] = [
    Row::Offers(1, &DATA, Ok(1)),
    Row::Moves(0, 48, 4, Err(SystemFault::NoAggregator)),
    Row::Moves(3, 48, 4, Err(SystemFault::NoAggregator)),
    Row::Moves(1, 48, 4, Err(SystemFault::NoPort)),
    Row::Moves(1, 49, 4, Err(SystemFault::NoPort)),
    Row::Moves(1, 256, 4, Err(SystemFault::NoPort)),
    Row::Moves(1, 49, 3, Err(SystemFault::NotAssigned)),
    Row::Moves(2, 48, 3, Err(SystemFault::NotAssigned)),
    Row::Moves(1, 256, 3, Err(SystemFault::NotAssigned)),
    Row::Moves(1, 48, 3, Err(SystemFault::NotDistributing)),
    Row::Moves(1, 48, 1, Err(SystemFault::SamePort)),
    Row::Moves(1, 48, 2, Ok(())),
    Row::Moves(1, 48, 3, Err(SystemFault::Held)),
    Row::Moves(1, 48, 1, Err(SystemFault::Held)),
    Row::Offers(1, &DATA, Err(SystemFault::Held)),
    Row::Forces(0, 48, Err(SystemFault::NoAggregator)),
    Row::Forces(3, 256, Err(SystemFault::NoAggregator)),
    Row::Forces(1, 49, Err(SystemFault::NotAssigned)),
    Row::Forces(1, 256, Err(SystemFault::NotAssigned)),
    Row::Forces(1, 48, Ok(())),
    Row::Forces(1, 48, Err(SystemFault::NotAssigned)),
    // no marker is due any more, and the port that was asked for is still preferred
    Row::Silent(1),
    Row::Offers(1, &DATA, Ok(2)),
];

const OTHER_RESPONSES: [Row<'static>; 13] = [
    Row::Offers(1, &DATA, Ok(1)),
    Row::Moves(1, 48, 2, Ok(())),
    Row::Silent(2),
    Row::Marks(1, 1),
    Row::Releases(1, Response(1, 2, 1), 0),
    Row::Releases(1, Response(2, 1, 1), 0),
    Row::Releases(2, Response(1, 1, 1), 0),
    Row::Releases(2, Response(2, 1, 1), 0),
    Row::Releases(1, Response(1, 1, 2), 0),
    Row::Offers(1, &DATA, Err(SystemFault::Held)),
    Row::Releases(1, Response(1, 1, 1), 1),
    Row::Releases(1, Response(1, 1, 1), 0),
    Row::Offers(1, &DATA, Ok(2)),
];

const GOES_DOWN: [Row<'static>; 6] = [
    Row::Offers(1, &DATA, Ok(1)),
    Row::Moves(1, 48, 2, Ok(())),
    Row::Link(1, false),
    Row::Silent(1),
    Row::Hears(1, &DATA, Received::Disabled),
    Row::Offers(1, &DATA, Ok(2)),
];

const LAST_IDENTIFIER: [Row<'static>; 17] = [
    Row::Offers(1, &DATA, Ok(1)),
    Row::Offers(1, &THIRD, Ok(1)),
    Row::Moves(1, 48, 2, Ok(())),
    Row::Next(Some(4294967295)),
    Row::Due(1, true),
    Row::Marks(1, 4294967295),
    Row::Next(None),
    Row::Moves(1, 50, 2, Err(SystemFault::MarkersSpent)),
    Row::Silent(1),
    // conversation 50 needs a marker, but no identifier is left
    Row::Takes(1, Side::Of(2, 1, 2, 0x0d), Side::Of(1, 1, 1, 0x3f)),
    Row::Offers(1, &THIRD, Err(SystemFault::Held)),
    Row::Sends(1, Side::Of(1, 1, 1, 0x07), Side::Of(2, 1, 2, 0x0d)),
    Row::Due(1, false),
    Row::Silent(1),
    Row::Restart,
    Row::Forces(1, 48, Err(SystemFault::NotAssigned)),
    Row::Forces(1, 50, Err(SystemFault::NotAssigned)),
];

const SENT_AGAIN: [Row<'static>; 14] = [
    Row::Offers(1, &DATA, Ok(1)),
    Row::Moves(1, 48, 2, Ok(())),
    Row::Marks(1, 1),
    Row::Quiet(1, 10),
    // an LACPDU of the partner comes, so that both ports stay in the aggregator
    Row::Takes(1, Side::Of(2, 1, 1, 0x0d), Side::Of(1, 1, 1, 0x3f)),
    Row::Takes(2, Side::Of(2, 2, 1, 0x0d), Side::Of(1, 2, 1, 0x3f)),
    Row::Quiet(1, 19),
    Row::Ticks(1),
    Row::Marks(1, 2),
    Row::Releases(1, Response(1, 1, 1), 0),
    Row::Offers(1, &DATA, Err(SystemFault::Held)),
    Row::Releases(1, Response(1, 1, 2), 1),
    Row::Offers(1, &DATA, Ok(2)),
    Row::Distributing(1, &[1, 2]),
];

/// The conversation waits for the response to marker 1 on port 1, which was sent in this tick.
const SENT_NOW: Assignment = Assignment::Flushing {
    port: 1,
    id: 1,
    preferred: Some(2),
    age: 0,
};

/// The same one tick later.
const SENT_A_TICK_AGO: Assignment = Assignment::Flushing {
    port: 1,
    id: 1,
    preferred: Some(2),
    age: 1,
};

const SEEN: [Row<'static>; 21] = [
    Row::Has(&[1, 2], 2),
    Row::Next(Some(1)),
    Row::Conversing(0, 48, None),
    Row::Conversing(3, 48, None),
    Row::Conversing(1, 256, None),
    Row::Free(1, 48, None),
    Row::Offers(1, &DATA, Ok(1)),
    Row::Conversing(1, 48, Some(Assignment::On(1))),
    Row::Due(1, false),
    Row::Moves(1, 48, 2, Ok(())),
    Row::Wanted(1, 48, 1, Some(2)),
    Row::Due(1, true),
    Row::Due(2, false),
    Row::Marks(1, 1),
    Row::Due(1, false),
    Row::Next(Some(2)),
    Row::Conversing(1, 48, Some(SENT_NOW)),
    Row::Ticks(1),
    Row::Conversing(1, 48, Some(SENT_A_TICK_AGO)),
    Row::Releases(1, Response(1, 1, 1), 1),
    Row::Free(1, 48, Some(2)),
];

const LAST_CONVERSATION: [Row<'static>; 13] = [
    Row::Conversation(&LAST, Some(255)),
    Row::Moves(1, 255, 1, Err(SystemFault::NotAssigned)),
    Row::Forces(1, 255, Err(SystemFault::NotAssigned)),
    Row::Offers(1, &LAST, Ok(2)),
    Row::Conversing(1, 255, Some(Assignment::On(2))),
    Row::Moves(1, 255, 1, Ok(())),
    Row::Offers(1, &LAST, Err(SystemFault::Held)),
    Row::Marks(2, 7),
    Row::Releases(2, Response(2, 1, 7), 1),
    Row::Offers(1, &LAST, Ok(1)),
    Row::Forces(1, 255, Ok(())),
    Row::Free(1, 255, None),
    Row::Offers(1, &LAST, Ok(2)),
];

const FOUR_MORE_BITS: [Row<'static>; 14] = [
    Row::Conversation(&WIDE, Some(304)),
    Row::Conversation(&LAST, Some(255)),
    Row::Offers(1, &WIDE, Ok(1)),
    Row::Conversing(1, 304, Some(Assignment::On(1))),
    Row::Free(1, 48, None),
    Row::Free(1, 4095, None),
    Row::Conversing(1, 4096, None),
    Row::Moves(1, 4096, 1, Err(SystemFault::NotAssigned)),
    Row::Forces(1, 4096, Err(SystemFault::NotAssigned)),
    Row::Moves(1, 304, 2, Ok(())),
    Row::Offers(1, &WIDE, Err(SystemFault::Held)),
    Row::Marks(1, 1),
    Row::Releases(1, Response(1, 1, 1), 1),
    Row::Offers(1, &WIDE, Ok(2)),
];

const FEW: [Row<'static>; 1] = [Row::Conversation(&WIDE, Some(48))];

/// A port without a peer distributes with a defaulted partner.
const LOADED: [Row<'static>; 12] = [
    Row::Load(1, Ok(0)),
    Row::Load(3, Err(SystemFault::NoPort)),
    Row::Link(1, true),
    Row::Ticks(50),
    Row::Offers(1, &DATA, Ok(1)),
    Row::Offers(1, &NEXT, Ok(1)),
    Row::Load(1, Ok(2)),
    Row::Load(2, Ok(0)),
    Row::Forces(1, 48, Ok(())),
    Row::Load(1, Ok(1)),
    Row::Link(1, false),
    Row::Load(1, Ok(0)),
];

const THREE: Given<'static> = Given {
    ports: &[1, 2, 3],
    ..TWO
};

const FROM_LAST: Given<'static> = Given {
    first_marker: 4294967295,
    ..TWO
};

const FROM_SEVEN: Given<'static> = Given {
    first_marker: 7,
    ..TWO
};

const MANY: Given<'static> = Given {
    conversations: 4096,
    ..TWO
};

const CASES: [Case<'static>; 11] = [
    ("leaving", TWO, &[&COMING_UP, &LEAVING]),
    ("refused moves", THREE, &[&COMING_UP, &REFUSED_MOVES]),
    ("other responses", TWO, &[&COMING_UP, &OTHER_RESPONSES]),
    ("a link goes down", TWO, &[&COMING_UP, &GOES_DOWN]),
    (
        "identifiers end",
        FROM_LAST,
        &[&COMING_UP, &LAST_IDENTIFIER, &COMING_UP, &LAST_IDENTIFIER],
    ),
    ("sent again", TWO, &[&COMING_UP, &SENT_AGAIN]),
    ("what a host sees", TWO, &[&COMING_UP, &SEEN]),
    (
        "the last one",
        FROM_SEVEN,
        &[&COMING_UP, &LAST_CONVERSATION],
    ),
    ("four more bits", MANY, &[&COMING_UP, &FOUR_MORE_BITS]),
    ("few", TWO, &[&FEW]),
    ("load", TWO, &[&LOADED]),
];

#[test]
fn conversations_move_and_are_freed(rt: HostRuntime) -> Result<(), SystemFault> {
    plays_cases(&rt, rt.alloc(), &CASES)
}

/// A data frame of this conversation of 4096, both of whose addresses count.
fn frame_of(conv: u16) -> [u8; 14] {
    let [high, low] = (conv ^ 0x35a5).to_be_bytes();
    [2, 0, 0, 0, high, low, 2, 0, 0, 0, 0xc5, 0xa5, 8, 0]
}

/// Each of the twelve bits counts, in either address.
#[test]
fn each_of_4096_conversations_has_its_frames(rt: HostRuntime) -> Result<(), SystemFault> {
    let mut given = config(rt.alloc(), &[1], 1)?;
    given.conversations = 4096;
    let system = System::new(rt.alloc(), given, modulo)?;
    for conv in 0..4096u16 {
        let found = system.conversation(&frame_of(conv));
        same_in_row(&rt, usize::from(conv), &found, &Some(conv));
    }
    Ok(())
}
