//! How two systems make progress: how soon the ends of a cable know each other, a link comes up, and both ends agree; and that LACPDUs
//! may overtake data. The functions of this crate but four do nothing when they run: the contract of each is a proved theorem over the
//! events of `lagworld`, on what `lagbeside` proves of one port.
//! `play_round` and `play_rounds` play healthy rounds, `play_host_round` and `play_host_rounds` those of hosts.
//!
//! In comments, numbers such as 6.4.13 are sections of IEEE 802.1AX-2014, and "profile" is docs/PROFILE.md.
#![tactic(auto)]

mod arriving;
mod clocks;
mod hosting;
mod limits;
mod loops;
mod overtaking;
mod playing;
mod sharing;

ghost use Rattle.lagworld.specs.Sound.{both_algorithms};
ghost use Rattle.lagprogress.specs.Steady.{EachEventIsCalls, EachEventKeepsSteady, StartIsSteady};
ghost use Rattle.lagprogress.specs.Steady.{EachHostReachedIsSteady, EachHostRunKeepsSteady, EachReachedIsSteady, EachRunKeepsSteady};
ghost use Rattle.lagprogress.specs.WarmStarts.{WarmStartIsSteady};

pub use arriving::{
    disabled_ports_have_unsynchronized_partners, each_frame_arrives_by_hosts, frames_pass_cables,
};
pub use clocks::{
    clocks_play_rounds, each_link_agrees_by_clocks, each_link_comes_up_by_clocks,
    each_link_stays_up_by_clocks, ends_come_to_know_by_clocks, selected_pairs_agree_by_clocks,
};
pub use hosting::{
    cut_offs_do_no_harm_by_hosts, held_conversations_are_freed_by_hosts, hosts_play_rounds,
};
pub use limits::{down_ports_are_unselected, each_limited_link_agrees_by_clocks};
pub use loops::{play_host_round, play_host_rounds};
pub use overtaking::lacpdus_may_overtake;
pub use playing::{play_round, play_rounds};
pub use sharing::{each_key_is_in_one_aggregator_by_clocks, groups_stay_whole};

// promise: each event of a world is a list of calls of each system, perhaps empty
// contract: `each_event_is_calls`
/// Each event of a world is a list of calls of each of its two systems, perhaps an empty one (profile). Which calls they
/// are it does not say.
pub fn each_event_is_calls<F: Fn(u16, usize) -> usize>()
    ensures { (one two : F) → EachEventIsCalls (both_algorithms (F.post one) (F.post two)) }
{}

// promise: a world is steady at first, and after any events, and then it is sound, too; and after any events, calls and settings of hosts
// contract: `each_world_is_steady` (`start`, `kept`, `run`, `reached`, `hosts`, `hosts_reached`)
// premises: `World::new` made the first; for `reached` at most 2^63 events; after settings no port is held in the end
// promise: so is a system that a warm start made (`IsSteadySystem`), whatever it adopted: it is what `any_peer_brings_a_port_up` asks of a system, and the laws
//    of rounds of both (`IsSteady`)
// contract: `each_world_is_steady` (`warm`: `WarmStartIsSteady`)
// premises: `resume` made it, and `adopt` refused none. That a world with it is sound, as agreement after rounds wants it, no clause says
/// Both systems of a world are sound, their timers within their bounds, and no port held: at the start, after each event and
/// after any events, whatever the distribution algorithms return. So each world that at most 2^63 events lead to from a start
/// is sound, and both its systems are sound, with their timers within their bounds and no port held, as the laws of
/// rounds want it (6.4.4; profile). So it is after any list of events, of calls of hosts and of settings, as `HostEvent` of
/// `laghosts` has them, `set_mode` to Short Timeout among them, if the hosts hold no port in the end. And so is a system that `resume` of
/// `dataplane` made, and that adopted any conversations.
pub fn each_world_is_steady<F: Fn(u16, usize) -> usize>()
    ensures start { StartIsSteady }
    ensures kept { (one two : F) → EachEventKeepsSteady (both_algorithms (F.post one) (F.post two)) }
    ensures run { (one two : F) → EachRunKeepsSteady (both_algorithms (F.post one) (F.post two)) }
    ensures reached { (one two : F) → EachReachedIsSteady (both_algorithms (F.post one) (F.post two)) }
    ensures hosts { (one two : F) → EachHostRunKeepsSteady (both_algorithms (F.post one) (F.post two)) }
    ensures hosts_reached { (one two : F) → EachHostReachedIsSteady (both_algorithms (F.post one) (F.post two)) }
    ensures warm { (algorithm : F) → WarmStartIsSteady (F.post algorithm) }
{}

ghost use Rattle.lagprogress.specs.Passing.{DeliverProcessesLacpdu, EmitSendsLacpdu};

// promise: Emit puts the LACPDU that is due on the port's cable, behind all items; Deliver of a cable whose first item is an LACPDU makes
//    the port at the other end process it
// contract: `lacpdus_pass_cables` (`sent`, `processed`)
// premises: the port's link is up; the cable accepts the item
/// What an end of a cable sends is heard at the other: an Emit event of a port whose LACPDU is due puts just that LACPDU
/// on its cable, behind what is there, if the cable accepts it; and when it is the first item, a Deliver event of the
/// cable makes the port at the other end process just that LACPDU, if the link of that port is up (6.4.12, 6.4.16).
pub fn lacpdus_pass_cables<F: Fn(u16, usize) -> usize>()
    ensures sent { (one two : F) → EmitSendsLacpdu (both_algorithms (F.post one) (F.post two)) }
    ensures processed { (one two : F) → DeliverProcessesLacpdu (both_algorithms (F.post one) (F.post two)) }
{}

ghost use Rattle.lagprogress.specs.Bundle.{BothAreActive, HostReachedIsBundle, OneIsActive, ReachedIsApart, ReachedIsBundle};

// promise: a world that events, calls and settings of hosts lead to from a new one is sound and meets `IsBundle`; its systems differ
// contract: `reached_worlds_are_bundles` (`apart`, `both`, `one`, `hosts_both`, `hosts_one`)
// premises: the configuration is accepted; at most 2^63 events; `AllHeard`, `HasAggregators`, `EnoughLinks`; after settings no port is held
/// A world that at most 2^63 events lead to from a start of two systems whose configurations are accepted is sound, and a
/// bundle as `each_link_comes_up_by_clocks`, `each_link_agrees_by_clocks` and `held_conversations_are_freed` want it, if each port whose link is up
/// ends a healthy cable with both ends active, or one, and each system has aggregators and enough links as they say. Its two
/// systems differ in any case. So is a world that events, calls of hosts and settings lead to, as `HostEvent` of `laghosts` has them, if
/// the hosts hold no port in the end (profile).
pub fn reached_worlds_are_bundles<F: Fn(u16, usize) -> usize>()
    ensures apart { (one two : F) → ReachedIsApart (both_algorithms (F.post one) (F.post two)) }
    ensures both { (one two : F) → ReachedIsBundle BothAreActive (both_algorithms (F.post one) (F.post two)) }
    ensures one { (one two : F) → ReachedIsBundle OneIsActive (both_algorithms (F.post one) (F.post two)) }
    ensures hosts_both { (one two : F) → HostReachedIsBundle BothAreActive (both_algorithms (F.post one) (F.post two)) }
    ensures hosts_one { (one two : F) → HostReachedIsBundle OneIsActive (both_algorithms (F.post one) (F.post two)) }
{}

ghost use Rattle.lagprogress.specs.Freed.{NothingIsHeld};
ghost use Rattle.lagprogress.specs.Rounds.{freed_if_both_active, freed_if_one_is};

// promise: no conversation is held in the whole system: 386 | 687 healthy rounds
// contract: `held_conversations_are_freed` (`both`, `one`)
// premises: `IsBundle`; an identifier is left in the end (`HasIdentifierLeft`); before the rounds the links of all ports that conversations
//    are On or held on are up, as in each world that events, or calls and settings of hosts, lead to (`carriers_are_up`)
/// Conversations that are held in a bundle as in `each_link_comes_up_by_clocks` are freed: from 386 healthy rounds (38.6 s) on if both ends
/// of each healthy cable are active, from 687 (68.7 s) on if one is, no conversation of a system is Wanted or Flushing, whatever was before
/// them, if an identifier for a marker is left in the end, and each port that carried a conversation, or held one, had its link up (6.2.5;
/// profile).
pub fn held_conversations_are_freed<F: Fn(u16, usize) -> usize>()
    ensures both { (one two : F) → NothingIsHeld BothAreActive freed_if_both_active (both_algorithms (F.post one) (F.post two)) }
    ensures one { (one two : F) → NothingIsHeld OneIsActive freed_if_one_is (both_algorithms (F.post one) (F.post two)) }
{}

ghost use Rattle.lagprogress.specs.Freed.{EachHostReachedHasCarriersUp};

/// The link of each port that carries a conversation, or on which one is held, is up, in both systems of each world that
/// events, or calls and settings of hosts, lead to from a start, as `held_conversations_are_freed` wants it (6.4.12, 6.4.15;
/// profile).
pub fn carriers_are_up<F: Fn(u16, usize) -> usize>()
    ensures { (one two : F) → EachHostReachedHasCarriersUp (both_algorithms (F.post one) (F.post two)) }
{}
