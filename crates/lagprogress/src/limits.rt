//! Which links of a bundle carry where one system has a limit of links.

ghost use Rattle.lagworld.specs.Sound.{both_algorithms};
ghost use Rattle.lagprogress.specs.Limited.{EachReachedHasDownUnselected};

/// No port whose link is down is SELECTED or STANDBY in a system with a limit of links, in each world that events lead to from a
/// start, as `each_limited_link_agrees_by_clocks` wants it (6.4.14; profile).
pub fn down_ports_are_unselected<F: Fn(u16, usize) -> usize>()
    ensures { (one two : F) → EachReachedHasDownUnselected (both_algorithms (F.post one) (F.post two)) }
{}

ghost use Rattle.lagprogress.specs.Bundle.{BothAreActive, OneIsActive};
ghost use Rattle.lagprogress.specs.Limited.{EachLimitedLinkAgrees};
ghost use Rattle.lagprogress.specs.LateRounds.{LateRounds};
ghost use Rattle.lagprogress.specs.Rounds.{up_if_both_active, up_if_one_is};

// promise: each healthy cable agrees (`Same`), or its end at the limited system is STANDBY in an aggregator with as many members as the
//    limit, each of which ends a cable that agrees: 356 | 657 late rounds
// contract: `each_limited_link_agrees_by_clocks` (`CarriesOnAll`)
// premises: `IsBundle`, but one system may have any limit; none of its ports whose link is down is SELECTED or STANDBY, as after any events
//    (`down_ports_are_unselected`); the world is sound
/// A bundle one of whose systems has a limit of links carries on as many: after 356 late rounds (35.6 s) or more if both ends
/// of each healthy cable are active, after 657 (65.7 s) if one is, whatever was before them, the agreement of each healthy cable
/// is `Same`, or its end at that system is STANDBY in an aggregator that has as many members as the limit, and each of these
/// ends a cable whose agreement is `Same`. The world is sound; each port whose link is up ends a healthy cable; each system has
/// aggregators as `each_link_comes_up_by_clocks` wants them; the limit of the other system, if it has one, is no less than the ports of one
/// key; the two systems differ; their timers are within their bounds; no port is held; and no port of the limited system whose
/// link is down is SELECTED or STANDBY (6.3.6, 6.4.12 to 6.4.16; profile).
pub fn each_limited_link_agrees_by_clocks<F: Fn(u16, usize) -> usize>()
    ensures both { (one two : F) → EachLimitedLinkAgrees LateRounds BothAreActive up_if_both_active (both_algorithms (F.post one) (F.post two)) }
    ensures one { (one two : F) → EachLimitedLinkAgrees LateRounds OneIsActive up_if_one_is (both_algorithms (F.post one) (F.post two)) }
{}
