use crate::hosts::playing::{Case, plays_cases};
use crate::systems::{Response, Row};
use lagsystem::{Assignment, SystemFault};

/// A data frame of conversation 0xa5, 165: octets 5 and 11 differ by that.
const FRAME: [u8; 14] = [2, 0, 0, 0, 0, 0xb7, 2, 0, 0, 0, 0, 0x12, 8, 0];

const GOES_WITH_FRAMES: [Row<'static>; 16] = [
    // 165 % 2 is 1: the second port that distributes
    Row::OffersConversation(1, 165, Ok(7)),
    Row::Conversing(1, 165, Some(Assignment::On(7))),
    Row::Offers(1, &FRAME, Ok(7)),
    // another number is another conversation, though it is the same host
    Row::OffersConversation(1, 90, Ok(3)),
    Row::Conversing(1, 165, Some(Assignment::On(7))),
    Row::Moves(1, 165, 3, Ok(())),
    Row::OffersConversation(1, 165, Err(SystemFault::Held)),
    Row::Offers(1, &FRAME, Err(SystemFault::Held)),
    Row::Due(7, true),
    Row::Marks(7, 11),
    Row::OffersConversation(1, 165, Err(SystemFault::Held)),
    Row::Releases(7, Response(7, 1, 11), 1),
    // it prefers the port that it was moved to
    Row::OffersConversation(1, 165, Ok(3)),
    Row::Offers(1, &FRAME, Ok(3)),
    Row::Due(3, false),
    Row::Due(7, false),
];

const REFUSED_OFFERS: [Row<'static>; 6] = [
    Row::OffersConversation(0, 300, Err(SystemFault::NoAggregator)),
    Row::OffersConversation(3, 300, Err(SystemFault::NoAggregator)),
    Row::OffersConversation(1, 256, Err(SystemFault::NotAssigned)),
    Row::OffersConversation(2, 65535, Err(SystemFault::NotAssigned)),
    // no port distributes in aggregator 2
    Row::OffersConversation(2, 255, Err(SystemFault::NoneDistributing)),
    Row::OffersConversation(1, 255, Ok(7)),
];

const HELD_UNTIL_FREE: [Row<'static>; 13] = [
    // 165 % 2 is 1: the second port that distributes
    Row::OffersInActiveAggregator(1, 165, Ok(7)),
    Row::Conversing(1, 165, Some(Assignment::On(7))),
    Row::OffersInActiveAggregator(1, 165, Ok(7)),
    Row::OffersInActiveAggregator(2, 165, Err(SystemFault::Held)),
    // before every other refusal
    Row::OffersInActiveAggregator(3, 165, Err(SystemFault::Held)),
    Row::Leaves(1, 165, Ok(())),
    Row::OffersInActiveAggregator(2, 165, Err(SystemFault::Held)),
    Row::OffersInActiveAggregator(1, 165, Err(SystemFault::Held)),
    Row::Marks(7, 11),
    Row::OffersInActiveAggregator(2, 165, Err(SystemFault::Held)),
    Row::Releases(7, Response(7, 1, 11), 1),
    // it is free, and no port distributes in aggregator 2
    Row::OffersInActiveAggregator(2, 165, Err(SystemFault::NoneDistributing)),
    Row::OffersInActiveAggregator(1, 165, Ok(7)),
];

const REFUSED_IN_ACTIVE: [Row<'static>; 7] = [
    Row::OffersInActiveAggregator(0, 300, Err(SystemFault::NoAggregator)),
    Row::OffersInActiveAggregator(3, 90, Err(SystemFault::NoAggregator)),
    Row::OffersInActiveAggregator(1, 256, Err(SystemFault::NotAssigned)),
    Row::OffersInActiveAggregator(2, 65535, Err(SystemFault::NotAssigned)),
    // 90 % 2 is 0: the first port that distributes
    Row::OffersInActiveAggregator(1, 90, Ok(3)),
    Row::OffersInActiveAggregator(2, 90, Err(SystemFault::Held)),
    // another conversation is not held with it
    Row::OffersInActiveAggregator(2, 91, Err(SystemFault::NoneDistributing)),
];

const LEAVING_40: Assignment = Assignment::Flushing {
    port: 7,
    id: 40,
    preferred: None,
    age: 0,
};

const LEAVES: [Row<'static>; 15] = [
    Row::OffersConversation(1, 23, Ok(7)),
    Row::OffersConversation(1, 25, Ok(7)),
    Row::Leaves(1, 23, Ok(())),
    Row::Wanted(1, 23, 7, None),
    Row::Conversing(1, 25, Some(Assignment::On(7))),
    Row::Held(7, Ok(1)),
    Row::Held(3, Ok(0)),
    Row::Marks(7, 40),
    Row::Conversing(1, 23, Some(LEAVING_40)),
    Row::Held(7, Ok(1)),
    Row::Releases(7, Response(7, 1, 40), 1),
    Row::Free(1, 23, None),
    Row::Held(7, Ok(0)),
    Row::ForcesPort(7, Ok(0)),
    Row::Conversing(1, 25, Some(Assignment::On(7))),
];

const REFUSED_LEAVING: [Row<'static>; 14] = [
    Row::OffersConversation(1, 6, Ok(3)),
    Row::OffersConversation(1, 8, Ok(3)),
    Row::Leaves(0, 6, Err(SystemFault::NoAggregator)),
    Row::Leaves(3, 256, Err(SystemFault::NoAggregator)),
    Row::Leaves(1, 256, Err(SystemFault::NotAssigned)),
    Row::Leaves(1, 7, Err(SystemFault::NotAssigned)),
    Row::Leaves(2, 6, Err(SystemFault::NotAssigned)),
    Row::Leaves(1, 6, Ok(())),
    Row::Leaves(1, 6, Err(SystemFault::Held)),
    // the last identifier
    Row::Marks(3, 4294967295),
    Row::Next(None),
    Row::Leaves(1, 6, Err(SystemFault::Held)),
    Row::Leaves(1, 8, Err(SystemFault::MarkersSpent)),
    Row::Conversing(1, 8, Some(Assignment::On(3))),
];

const RESTS: [Row<'static>; 18] = [
    Row::OffersConversation(1, 9, Ok(7)),
    Row::OffersConversation(1, 13, Ok(7)),
    Row::Moves(1, 13, 3, Ok(())),
    Row::Rests(3, 9, Err(SystemFault::NoAggregator)),
    Row::Rests(1, 256, Err(SystemFault::NotAssigned)),
    Row::Rests(1, 10, Err(SystemFault::NotAssigned)),
    Row::Rests(1, 13, Err(SystemFault::Held)),
    Row::Marks(7, 2),
    Row::Rests(1, 13, Err(SystemFault::Held)),
    Row::Rests(1, 9, Ok(())),
    Row::Free(1, 9, None),
    Row::Rests(1, 9, Err(SystemFault::NotAssigned)),
    Row::Held(7, Ok(1)),
    Row::ForcesPort(7, Ok(1)),
    Row::Free(1, 13, Some(3)),
    Row::Held(7, Ok(0)),
    Row::ForcesPort(7, Ok(0)),
    Row::Held(8, Err(SystemFault::NoPort)),
];

const PROBED_71: Assignment = Assignment::Flushing {
    port: 3,
    id: 71,
    preferred: Some(7),
    age: 0,
};

const PROBE: [Row<'static>; 16] = [
    Row::Silent(3),
    Row::Probes(3, Ok(Some(70))),
    Row::Next(Some(71)),
    // nobody waits for it
    Row::Releases(3, Response(3, 1, 70), 0),
    Row::OffersConversation(1, 14, Ok(3)),
    Row::OffersConversation(1, 16, Ok(3)),
    Row::Moves(1, 14, 7, Ok(())),
    Row::Due(3, true),
    Row::Probes(3, Ok(Some(71))),
    Row::Conversing(1, 14, Some(PROBED_71)),
    Row::Conversing(1, 16, Some(Assignment::On(3))),
    Row::Due(3, false),
    Row::Silent(3),
    Row::Releases(3, Response(3, 1, 71), 1),
    Row::Free(1, 14, Some(7)),
    Row::Probes(7, Ok(Some(72))),
];

const NO_PROBE: [Row<'static>; 7] = [
    Row::Probes(8, Err(SystemFault::NoPort)),
    // its link is down
    Row::Probes(9, Ok(None)),
    Row::Next(Some(4294967295)),
    Row::Probes(7, Ok(Some(4294967295))),
    Row::Next(None),
    Row::Probes(7, Ok(None)),
    Row::Probes(3, Ok(None)),
];

const NOT_ADOPTED: [Row<'static>; 20] = [
    Row::Adopts(3, 999, 4, Err(SystemFault::NoAggregator)),
    Row::Adopts(0, 14, 7, Err(SystemFault::NoAggregator)),
    Row::Adopts(1, 999, 4, Err(SystemFault::NoPort)),
    Row::Adopts(1, 256, 9, Err(SystemFault::NotAssigned)),
    // the link of port 9 is down; port 7 distributes in aggregator 1
    Row::Adopts(1, 14, 9, Err(SystemFault::NotDistributing)),
    Row::Adopts(2, 14, 7, Err(SystemFault::NotDistributing)),
    Row::Free(1, 14, None),
    // a conversation that waits, and one that then prefers 7
    Row::OffersConversation(1, 14, Ok(3)),
    Row::Moves(1, 14, 7, Ok(())),
    Row::Adopts(1, 14, 3, Err(SystemFault::Held)),
    Row::Adopts(1, 14, 7, Err(SystemFault::Held)),
    Row::ForcesPort(3, Ok(1)),
    Row::Adopts(1, 14, 3, Ok(())),
    Row::Conversing(1, 14, Some(Assignment::On(3))),
    // the last identifier is used up
    Row::Moves(1, 14, 7, Ok(())),
    Row::Marks(3, 4_294_967_295),
    Row::Next(None),
    Row::Adopts(1, 15, 9, Err(SystemFault::NotDistributing)),
    Row::Adopts(1, 15, 7, Err(SystemFault::MarkersSpent)),
    Row::Free(1, 15, None),
];

const CASES: [Case<'static>; 10] = [
    ("goes with frames", 11, &GOES_WITH_FRAMES),
    ("refused offers", 1, &REFUSED_OFFERS),
    ("held until free", 11, &HELD_UNTIL_FREE),
    ("refused in active", 1, &REFUSED_IN_ACTIVE),
    ("leaves", 40, &LEAVES),
    ("refused leaving", 4294967295, &REFUSED_LEAVING),
    ("rests", 2, &RESTS),
    ("a probe", 70, &PROBE),
    ("no probe", 4294967295, &NO_PROBE),
    ("not adopted", 4_294_967_295, &NOT_ADOPTED),
];

#[test]
fn calls_for_a_data_plane(rt: HostRuntime) -> Result<(), SystemFault> {
    plays_cases(&rt, rt.alloc(), &CASES)
}
