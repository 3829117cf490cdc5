//! Healthy rounds as hosts play them.

ghost use Rattle.lagworld.specs.Sound.{both_algorithms};
ghost use Rattle.lagprogress.specs.HostRounds.{AskingIsPlayed, EventsAreOfHosts, IsBetweenTicks, NoneIsLeft};
ghost use Rattle.lagprogress.specs.HostRounds.{RoundIsHostRound, RoundsAreHostRounds, RunsHaveReplies};

// promise: events and calls, with their replies and the worlds between them, are a healthy round of hosts in which each system ticks once, every
//    other one is Emit, Deliver, Offer, Move or Force, or `offer_conversation`, `leave_conversation`, `probe`, `rest`, `force_port` or
//    `set_max_delay`, each end of a healthy cable is asked after its system's tick, and nothing is on any cable in the end
// contract: `hosts_play_rounds` (`asking`: `IsBetweenTicks`; `replies`)
// premises: both systems are sound, with timers within bounds; the events acted, the calls kept their contracts
// promise: a list of events is one of such events and calls, so each of these laws holds of events alone
// contract: `hosts_play_rounds` (`events`)
// premises: the events acted
// promise: each healthy round is a healthy round of hosts, with the same events, replies and worlds
// contract: `hosts_play_rounds` (`round`, `rounds`)
// premises: steady
/// Which events are a healthy round of hosts: each system ticks once, and every other event is Emit, Deliver, Offer, Move or Force, or a
/// call `offer_conversation`, `leave_conversation`, `probe`, `rest`, `force_port` or `set_max_delay`, in any order; each end of a healthy
/// cable is asked at least once after the tick of its system; and nothing is on any cable in the end. The round has just these events, their
/// replies and the worlds between them. The systems are sound, and their timers within their bounds; ports may be held. If no port is held,
/// each healthy round, as `play_round` plays it, is one, with the same events, replies and worlds. Events and calls that act have replies. A
/// list of events alone is such a list, so what follows from rounds of hosts follows, after as many, from rounds of events (6.4.16; profile).
pub fn hosts_play_rounds<F: Fn(u16, usize) -> usize>()
    ensures asking { (one two : F) → AskingIsPlayed IsBetweenTicks NoneIsLeft (both_algorithms (F.post one) (F.post two)) }
    ensures events { (one two : F) → EventsAreOfHosts (both_algorithms (F.post one) (F.post two)) }
    ensures replies { (one two : F) → RunsHaveReplies (both_algorithms (F.post one) (F.post two)) }
    ensures round { (one two : F) → RoundIsHostRound (both_algorithms (F.post one) (F.post two)) }
    ensures rounds { (one two : F) → RoundsAreHostRounds (both_algorithms (F.post one) (F.post two)) }
{}

ghost use Rattle.lagprogress.specs.CutOff.{CutOffIsDefaulted, EachLinkAgreesBesideCutOffs, EachLinkComesUpBesideCutOffs};
ghost use Rattle.lagprogress.specs.HostRounds.{HostRounds};

// promise: a port whose link is up is DEFAULTED after 931 rounds of hosts, if it is cut off: each of its cables is cut, or ends at a port
//    whose link is down
// contract: `cut_offs_do_no_harm_by_hosts` (`defaulted`: `CutOff`)
// premises: steady; no bundle is needed
// promise: beside such ports both ports of each healthy cable are up and agree after 964 rounds of hosts
// contract: `cut_offs_do_no_harm_by_hosts` (`up`, `agrees`)
// premises: `IsBundle`, but a port whose link is up may be cut off, and there are as many aggregators of a key as ports
//    (`EnoughAggregators`); for `agrees` the world is sound
/// A port whose link is up, and each cable of which is cut or ends at a port whose link is down, is DEFAULTED after 931 healthy rounds of
/// hosts (93.1 s) or more, whatever was before them, and whatever the other ports and cables are. Such ports do no harm: as in
/// `each_link_comes_up_by_clocks`, but beside the healthy cables, of each of which one end is active, there may be ports whose links are up
/// and that are cut off so; and each system has as many aggregators of a port's key as ports of that key. From 964 (96.4 s) on both ends of
/// each healthy cable distribute, and in a sound world its agreement is `Same` (6.3.6, 6.4.12 to 6.4.16; profile).
pub fn cut_offs_do_no_harm_by_hosts<F: Fn(u16, usize) -> usize>()
    ensures defaulted { (one two : F) → CutOffIsDefaulted HostRounds (both_algorithms (F.post one) (F.post two)) }
    ensures up { (one two : F) → EachLinkComesUpBesideCutOffs HostRounds (both_algorithms (F.post one) (F.post two)) }
    ensures agrees { (one two : F) → EachLinkAgreesBesideCutOffs HostRounds (both_algorithms (F.post one) (F.post two)) }
{}

ghost use Rattle.lagprogress.specs.Bundle.{BothAreActive, OneIsActive};
ghost use Rattle.lagprogress.specs.HostFreed.{AskingInVainIsDraining, NoneIsHeldBesideCutOffsByHosts, NoneIsHeldOnEndsByHosts};
ghost use Rattle.lagprogress.specs.HostFreed.{NothingIsHeldByHosts, RoundIsDraining};
ghost use Rattle.lagprogress.specs.Rounds.{up_if_both_active, up_if_one_is};

// promise: a conversation is not held on an end of a healthy cable after 356 | 657 late rounds, and 30 of hosts that neither move nor force
//    it, nor let it leave or rest, in which at each end nothing is due, nor a marker, at some time after its tick, as in each healthy round,
//    or if each end is asked until it sends nothing
// contract: `held_conversations_are_freed_by_hosts` (`ends_both`, `ends_one`, `round`, `asking`)
// premises: those of `each_link_comes_up_by_clocks`; an identifier is left in the end
// promise: nor is it held at all; nor beside ports that are cut off, after 964 and 30
// contract: `held_conversations_are_freed_by_hosts` (`all_both`, `all_one`; `beside`)
// premises: the same, and `CarriersAreUp` in the end; as for `cut_offs_do_no_harm_by_hosts`
/// A conversation that is held in a bundle as in `each_link_comes_up_by_clocks` is freed in rounds of hosts that ask until nothing is due:
/// after 356 late rounds (35.6 s) or more if both ends of each healthy cable are active, after 657 (65.7 s) if one is, and 30 healthy rounds
/// of hosts more (3 s) in which it is neither moved nor forced, leaves no port and does not rest, and each end has neither an LACPDU nor a
/// marker due at some time after its system's tick, it is not Wanted or Flushing on an end of a healthy cable, if an identifier for a
/// marker is left in the end; nor on any port, if the links of the ports are up then that carry a conversation, or hold one, as
/// `carriers_are_up` has it. Beside ports that are cut off it takes 964 rounds of hosts and 30. Frames may be offered, others moved, and
/// ports probed and forced in all of them. Each healthy round is one of the 30 that does not move it, and so is one of hosts in which each
/// end is asked after its system's tick until it sends nothing (6.2.5; profile).
pub fn held_conversations_are_freed_by_hosts<F: Fn(u16, usize) -> usize>()
    ensures ends_both { (one two : F) → NoneIsHeldOnEndsByHosts BothAreActive up_if_both_active (both_algorithms (F.post one) (F.post two)) }
    ensures ends_one { (one two : F) → NoneIsHeldOnEndsByHosts OneIsActive up_if_one_is (both_algorithms (F.post one) (F.post two)) }
    ensures all_both { (one two : F) → NothingIsHeldByHosts BothAreActive up_if_both_active (both_algorithms (F.post one) (F.post two)) }
    ensures all_one { (one two : F) → NothingIsHeldByHosts OneIsActive up_if_one_is (both_algorithms (F.post one) (F.post two)) }
    ensures beside { (one two : F) → NoneIsHeldBesideCutOffsByHosts (both_algorithms (F.post one) (F.post two)) }
    ensures round { (one two : F) → RoundIsDraining (both_algorithms (F.post one) (F.post two)) }
    ensures asking { (one two : F) → AskingInVainIsDraining (both_algorithms (F.post one) (F.post two)) }
{}
