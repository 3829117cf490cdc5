//! Late rounds: hosts tick by clocks of their own, and their frames take up to a tick to arrive.

ghost use Rattle.lagworld.specs.Sound.{both_algorithms};
ghost use Rattle.lagprogress.specs.Beside.{AskingIsRoundBeside};
ghost use Rattle.lagprogress.specs.HostRounds.{AskingIsPlayed, IsBetweenTicks};
ghost use Rattle.lagprogress.specs.LateRounds.{HostRoundIsLateRound, HostRoundsAreLateRounds, OldArrive};
ghost use Rattle.lagprogress.specs.Several.{AskingIsSeveral, AskingIsSeveralBeside, LateRoundsAreSeveral};

// promise: events and calls as in the first row are a late round (`IsLateRound`) if what was on each healthy cable before has arrived,
//    whatever is on it in the end; each healthy round of hosts is one, and so many are as many
// contract: `clocks_play_rounds` (`asking`, `host`, `hosts`)
// premises: both systems are sound, with timers within bounds; the events acted, the calls kept their contracts; for `host` and `hosts` no port
//    has two cables
// promise: events, calls and settings are a late round beside a link (`RoundsBeside`) if each system ticks once, every other one may come in a
//    healthy round of hosts or is a setting that neither holds, lets go nor sets a port at an end of the link, each end of a healthy cable is
//    asked after its system's tick, and what was on each healthy cable before has arrived; ports may be held
// contract: `clocks_play_rounds` (`beside`: `RoundsBeside`)
// premises: both systems are sound, with timers within bounds; the events acted, the calls and settings kept their contracts
// promise: events and calls as in the first row, and with settings as in the row above, are a late round of several ticks (`IsPlayedTicks`) if each
//    system ticks so many times, at once or not, each end of a healthy cable is asked after the last tick of its system, and what was on each healthy cable
//    before has arrived; late rounds are rounds of one tick
// contract: `clocks_play_rounds` (`several`, `several_beside`, `several_late`: `SeveralRounds`)
// premises: as in the row above
/// Which events are a late round: each system ticks once, and every other event or call is as `hosts_play_rounds` has it, in any order; each
/// end of a healthy cable is asked at least once after the tick of its system; and what was on each healthy cable before has arrived,
/// while frames may be on it in the end. Settings may come among them, too, for rounds beside the ends of a cable, as
/// `each_link_stays_up_by_clocks` has them, if none holds, lets go or sets the mode of a port at these ends. So it is of rounds of several
/// ticks, in which each end is asked after the last one of its system. The systems are sound, and their
/// timers within their bounds; ports may be held. Each healthy round of hosts is a late one, and what holds after so many late rounds holds
/// after as many of hosts, and of `play_round` (6.4.16; profile).
pub fn clocks_play_rounds<F: Fn(u16, usize) -> usize>()
    ensures asking { (one two : F) → AskingIsPlayed IsBetweenTicks OldArrive (both_algorithms (F.post one) (F.post two)) }
    ensures beside { (one two : F) → AskingIsRoundBeside (both_algorithms (F.post one) (F.post two)) }
    ensures several { (one two : F) → AskingIsSeveral IsBetweenTicks (both_algorithms (F.post one) (F.post two)) }
    ensures several_beside { (one two : F) → AskingIsSeveralBeside (both_algorithms (F.post one) (F.post two)) }
    ensures several_late { (one two : F) → LateRoundsAreSeveral (both_algorithms (F.post one) (F.post two)) }
    ensures host { (one two : F) → HostRoundIsLateRound (both_algorithms (F.post one) (F.post two)) }
    ensures hosts { (one two : F) → HostRoundsAreLateRounds (both_algorithms (F.post one) (F.post two)) }
{}

ghost use Rattle.lagprogress.specs.Bundle.{BothAreActive, EndsOfEachKnow, OneIsActive};
ghost use Rattle.lagprogress.specs.LateRounds.{LateRounds};
ghost use Rattle.lagprogress.specs.Rounds.{known_if_both_active, known_if_one_is};
ghost use Rattle.lagprogress.specs.Several.{SeveralRounds, known_in_several_if_both_active, known_in_several_if_one_is};

// promise: among any cables, the ports of each healthy one know each other after 323 late rounds if both are active, after 624 if one is
// contract: `ends_come_to_know_by_clocks` (`both`, `one`)
// premises: steady; no port has two cables
// promise: so they do after 365 late rounds of several ticks if both are active, after 649 if one is: in each both systems tick one to six times, as often
//    as the other, at once or not
// contract: `ends_come_to_know_by_clocks` (`several_both`, `several_one`: `SeveralRounds`)
// premises: as in the row above; each end of a healthy cable is asked after the last tick of its system in the round, and each tick is an event of its own
/// Of any number of cables, the ends of each healthy one come to know each other in late rounds: from 323 (32.3 s) on if both are active,
/// from 624 (62.4 s) on if one is, whatever was before them, whatever is offered or called in them, whatever the other cables are, and
/// whatever other ports and aggregators the systems have. A cable is healthy that is whole and has no limit, with the links of both of its
/// ports up; no port has two cables; both systems are sound, their timers within their bounds, and no port held (6.4.12, 6.4.13). So they
/// do where hosts make up ticks: in each round each system may tick up to six times, as often as the other; from 365 such rounds on, or 649.
pub fn ends_come_to_know_by_clocks<F: Fn(u16, usize) -> usize>()
    ensures both { (one two : F) → EndsOfEachKnow LateRounds BothAreActive known_if_both_active (both_algorithms (F.post one) (F.post two)) }
    ensures one { (one two : F) → EndsOfEachKnow LateRounds OneIsActive known_if_one_is (both_algorithms (F.post one) (F.post two)) }
    ensures several_both { (one two : F) → EndsOfEachKnow SeveralRounds BothAreActive known_in_several_if_both_active (both_algorithms (F.post one) (F.post two)) }
    ensures several_one { (one two : F) → EndsOfEachKnow SeveralRounds OneIsActive known_in_several_if_one_is (both_algorithms (F.post one) (F.post two)) }
{}

ghost use Rattle.lagprogress.specs.Bundle.{EachLinkAgrees, EachLinkComesUp};
ghost use Rattle.lagprogress.specs.Rounds.{up_if_both_active, up_if_one_is};
ghost use Rattle.lagprogress.specs.Several.{up_in_several_if_both_active, up_in_several_if_one_is};

// promise: both ports of each healthy cable are up, and its `agreement` is `Same`: 356 | 657
// contract: `each_link_comes_up_by_clocks`, `each_link_agrees_by_clocks` (`both`, `one`)
// premises: `IsBundle`; for the agreement the world is sound. Other cables may be cut, have a limit, or end at ports whose links are down
// promise: **a link comes up in rounds of up to six ticks, too:** both ports of each healthy cable are up, and its `agreement` is `Same`, after 408 | 692 late
//    rounds of several ticks: in each both systems tick one to six times, as often as the other, at once or not
// contract: `each_link_comes_up_by_clocks`, `each_link_agrees_by_clocks` (`several_both`, `several_one`: `SeveralRounds`)
// premises: as in the row above; each end of a healthy cable is asked after the last tick of its system in the round, and each tick is an event of its own
/// The links of a bundle come up in late rounds: both ends of each healthy cable are SELECTED and distribute from 356 (35.6 s) on if both ends
/// of each are active, from 657 (65.7 s) on if one is, whatever was before them, and whatever is offered or called in them. Each port whose
/// link is up ends a healthy cable; each system has as many aggregators of a port's key as ports of that key, or at least one,
/// where the ports of that key lead to aggregatable ports of one key at the other system, and are aggregatable themselves, and
/// those whose links are down are UNSELECTED or led there; a limit of links, if it has one, is no less than the ports of one key;
/// the two systems differ, both are sound, their timers are within their bounds, and no port is held. Other cables may be cut,
/// or end at ports whose links are down (6.3.6, 6.4.12 to 6.4.16). So they do where hosts make up ticks: in each round each system may tick
/// up to six times, as often as the other; from 408 such rounds on, or 692.
pub fn each_link_comes_up_by_clocks<F: Fn(u16, usize) -> usize>()
    ensures both { (one two : F) → EachLinkComesUp LateRounds BothAreActive up_if_both_active (both_algorithms (F.post one) (F.post two)) }
    ensures one { (one two : F) → EachLinkComesUp LateRounds OneIsActive up_if_one_is (both_algorithms (F.post one) (F.post two)) }
    ensures several_both { (one two : F) → EachLinkComesUp SeveralRounds BothAreActive up_in_several_if_both_active (both_algorithms (F.post one) (F.post two)) }
    ensures several_one { (one two : F) → EachLinkComesUp SeveralRounds OneIsActive up_in_several_if_one_is (both_algorithms (F.post one) (F.post two)) }
{}

/// The two ends of each link agree: in a sound world as in `each_link_comes_up_by_clocks` the agreement of each healthy cable is `Same` from
/// 356 late rounds (35.6 s) on if both ends of each are active, from 657 (65.7 s) on if one is; and from 408 rounds of several ticks on, or
/// 692 (6.3.6, 6.4.12 to 6.4.16; profile).
pub fn each_link_agrees_by_clocks<F: Fn(u16, usize) -> usize>()
    ensures both { (one two : F) → EachLinkAgrees LateRounds BothAreActive up_if_both_active (both_algorithms (F.post one) (F.post two)) }
    ensures one { (one two : F) → EachLinkAgrees LateRounds OneIsActive up_if_one_is (both_algorithms (F.post one) (F.post two)) }
    ensures several_both { (one two : F) → EachLinkAgrees SeveralRounds BothAreActive up_in_several_if_both_active (both_algorithms (F.post one) (F.post two)) }
    ensures several_one { (one two : F) → EachLinkAgrees SeveralRounds OneIsActive up_in_several_if_one_is (both_algorithms (F.post one) (F.post two)) }
{}

ghost use Rattle.lagprogress.specs.Beside.{EachLinkStaysAgreed, EachLinkStaysUp};
ghost use Rattle.lagprogress.specs.Several.{EachLinkStaysAgreedInSeveral, EachLinkStaysUpInSeveral};
ghost use Rattle.lagprogress.specs.Several.{EachLinkStaysAgreedThroughout, EachLinkStaysUpThroughout};

// promise: **a setting of another port does no harm to a link that is up:** behind 356 | 657 late rounds both its ports stay up, and agree,
//    for any number of late rounds in which hosts also hold other ports, let them go and set their modes, CollectorMaxDelay and any limit of
//    links. Else the count begins anew behind a setting, if no port is held then, and there are aggregators and links enough
//    (`reached_worlds_are_bundles`, `hosts_both`, `hosts_one`)
// contract: `each_link_stays_up_by_clocks` (`up_both`, `up_one`, `agrees_both`, `agrees_one`: `RoundsBeside`)
// premises: those of `each_link_comes_up_by_clocks` and of `each_link_agrees_by_clocks` before the rounds; no setting holds, lets go or sets
//    the port at an end of this link. Each end of a healthy cable is asked still, and what was on it arrives, as in each late round; whether
//    other ports are held, or come up, is of no account. That a link stays up that came up while another port was held no clause says
// promise: **up to six ticks at once do no harm to a link that is up:** behind 356 | 657 late rounds both its ports stay up, and agree, for any number
//    of late rounds of several ticks: in each both systems tick one to six times, as often as the other, at once or not. Settings come as in the row above
// contract: `each_link_stays_up_by_clocks` (`several_up_both`, `several_up_one`, `several_agrees_both`, `several_agrees_one`: `SeveralBeside`)
// premises: as in the row above; each end of a healthy cable is asked after the last tick of its system in the round, and each tick is an event of its
//    own. No clause says what ticks do that one end has more of than the other
// promise: so it goes on behind 408 | 692 late rounds of several ticks
// contract: `each_link_stays_up_by_clocks` (`throughout_up_both`, `throughout_up_one`, `throughout_agrees_both`, `throughout_agrees_one`: `SeveralRounds`,
//    `SeveralBeside`)
// premises: as in the row above
/// The links that come up as in `each_link_comes_up_by_clocks` stay up, and agree, in any number of late rounds behind them in which hosts
/// also make settings: other ports are held, let go, or set to other modes, CollectorMaxDelay is set, and so is any limit of links that
/// `set_max_links` takes. No setting is one of `hold_port` or `set_mode` for a port at an end of the link (6.4.2.3, 6.4.7, 6.4.8; profile).
/// So they do where hosts make up ticks: in each round each system may tick up to six times, as often as the other; also those that came up in
/// such rounds.
pub fn each_link_stays_up_by_clocks<F: Fn(u16, usize) -> usize>()
    ensures up_both { (one two : F) → EachLinkStaysUp BothAreActive up_if_both_active (both_algorithms (F.post one) (F.post two)) }
    ensures up_one { (one two : F) → EachLinkStaysUp OneIsActive up_if_one_is (both_algorithms (F.post one) (F.post two)) }
    ensures agrees_both { (one two : F) → EachLinkStaysAgreed BothAreActive up_if_both_active (both_algorithms (F.post one) (F.post two)) }
    ensures agrees_one { (one two : F) → EachLinkStaysAgreed OneIsActive up_if_one_is (both_algorithms (F.post one) (F.post two)) }
    ensures several_up_both { (one two : F) → EachLinkStaysUpInSeveral BothAreActive up_if_both_active (both_algorithms (F.post one) (F.post two)) }
    ensures several_up_one { (one two : F) → EachLinkStaysUpInSeveral OneIsActive up_if_one_is (both_algorithms (F.post one) (F.post two)) }
    ensures several_agrees_both { (one two : F) → EachLinkStaysAgreedInSeveral BothAreActive up_if_both_active (both_algorithms (F.post one) (F.post two)) }
    ensures several_agrees_one { (one two : F) → EachLinkStaysAgreedInSeveral OneIsActive up_if_one_is (both_algorithms (F.post one) (F.post two)) }
    ensures throughout_up_both { (one two : F) → EachLinkStaysUpThroughout BothAreActive up_in_several_if_both_active (both_algorithms (F.post one) (F.post two)) }
    ensures throughout_up_one { (one two : F) → EachLinkStaysUpThroughout OneIsActive up_in_several_if_one_is (both_algorithms (F.post one) (F.post two)) }
    ensures throughout_agrees_both { (one two : F) → EachLinkStaysAgreedThroughout BothAreActive up_in_several_if_both_active (both_algorithms (F.post one) (F.post two)) }
    ensures throughout_agrees_one { (one two : F) → EachLinkStaysAgreedThroughout OneIsActive up_in_several_if_one_is (both_algorithms (F.post one) (F.post two)) }
{}

ghost use Rattle.lagprogress.specs.Bundle.{SelectedPairsAgree, SelectedPairsComeUp};

// promise: if both ports of a healthy cable are SELECTED after that many late rounds, they are up and agree, however few aggregators and links
//    there are: 356 | 657
// contract: `selected_pairs_agree_by_clocks` (`up_both`, `up_one`, `both`, `one`)
// premises: steady; no port has two cables; `AllHeard`; for the agreement the world is sound. That they are SELECTED no clause says
/// However few aggregators and links the systems have: if each port whose link is up ends a healthy cable, and both ends of one
/// are SELECTED after 356 late rounds or more if both ends of each are active, after 657 if one is, then both distribute, and in
/// a sound world the agreement of that cable is `Same`, whatever was before the rounds. Both systems are sound, their timers within
/// their bounds, and no port held, as in each world that events lead to from a start (6.3.6, 6.4.12 to 6.4.16; profile).
pub fn selected_pairs_agree_by_clocks<F: Fn(u16, usize) -> usize>()
    ensures up_both { (one two : F) → SelectedPairsComeUp LateRounds BothAreActive up_if_both_active (both_algorithms (F.post one) (F.post two)) }
    ensures up_one { (one two : F) → SelectedPairsComeUp LateRounds OneIsActive up_if_one_is (both_algorithms (F.post one) (F.post two)) }
    ensures both { (one two : F) → SelectedPairsAgree LateRounds BothAreActive up_if_both_active (both_algorithms (F.post one) (F.post two)) }
    ensures one { (one two : F) → SelectedPairsAgree LateRounds OneIsActive up_if_one_is (both_algorithms (F.post one) (F.post two)) }
{}
