//! Ports that share aggregators.

ghost use Rattle.lagworld.specs.Sound.{both_algorithms};
ghost use Rattle.lagprogress.specs.Together.{CallsKeepGroupsWhole, FirstGroupsAreWhole, ReachedGroupsAreWhole};

// promise: no two aggregators of a system have occupants of one group that is not Individual
// contract: `groups_stay_whole` (`first`, `calls`, `reached`)
// premises: before calls it was so, and sound
/// No two aggregators of a system have SELECTED or STANDBY ports whose links have one group, unless it is Individual: not after a start,
/// not after any calls (`HostCall`) of a sound system of which that holds, and not in either system of a world that events lead to
/// from one that was made (6.3.6, 6.4.14; profile).
pub fn groups_stay_whole<F: Fn(u16, usize) -> usize>()
    ensures first { FirstGroupsAreWhole }
    ensures calls { (algorithm : F) → CallsKeepGroupsWhole (F.post algorithm) }
    ensures reached { (one two : F) → ReachedGroupsAreWhole (both_algorithms (F.post one) (F.post two)) }
{}

ghost use Rattle.lagprogress.specs.Bundle.{BothAreActive, OneIsActive};
ghost use Rattle.lagprogress.specs.LateRounds.{LateRounds};
ghost use Rattle.lagprogress.specs.Rounds.{up_if_both_active, up_if_one_is};
ghost use Rattle.lagprogress.specs.Together.{EachKeyIsInOneAggregator};

// promise: the ports of a key that are one group come up in one aggregator of several: 356 | 657 late rounds
// contract: `each_key_is_in_one_aggregator_by_clocks` (`both`, `one`)
// premises: those of `each_link_comes_up_by_clocks`; `AreOneGroup`; `GroupsAreWhole`
/// The ports of a key that are one group in a bundle as in `each_link_comes_up_by_clocks` are in one aggregator, though several have that
/// key: after 356 late rounds (35.6 s) or more if both ends of each healthy cable are active, after 657 (65.7 s) if one is, all whose
/// links are up are SELECTED with the same one. The system is as `groups_stay_whole` has it before the rounds (6.3.6, 6.4.14; profile).
pub fn each_key_is_in_one_aggregator_by_clocks<F: Fn(u16, usize) -> usize>()
    ensures both { (one two : F) → EachKeyIsInOneAggregator LateRounds BothAreActive up_if_both_active (both_algorithms (F.post one) (F.post two)) }
    ensures one { (one two : F) → EachKeyIsInOneAggregator LateRounds OneIsActive up_if_one_is (both_algorithms (F.post one) (F.post two)) }
{}
