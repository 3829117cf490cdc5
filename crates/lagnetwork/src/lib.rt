//! The headline for any number of systems, cabled in any way, whose cables may be moved, about definitions only: a network
//! (`specs/Network`), and what holds after every event (`specs/NetworkLaw`). It stands on the views and moves of `lagmodel`, and on its lemmas of one system.
//! The functions of this crate do nothing when they run: the contract of each is a proved theorem.
//!
//! In comments, numbers such as 6.2.4 are sections of IEEE 802.1AX-2014, and "profile" is docs/PROFILE.md.
#![tactic(auto)]

ghost use Rattle.lagnetwork.specs.NetworkLaw.{IsNetworkInvariant, EachOnePartner, CablesAgree, NetworkInOrder, NamesFarEnd, TookFromFarEnd, TookFromFixedEnd, OneDevice};
ghost use Rattle.lagnetwork.specs.NetworkLaw.{EachTookInSync, FirstMarkersAreAlike, MayBeginAnew, MaySucceedItself, EachCollectorInOrder, NotWithItself, FlyOnItsCable, FlushedBehindMarker, AllBelowNext, CollectedThenFlying, AllCountFromZero};

// promise: one partner, agreement and order hold after each event of any number of systems, cabled in any way, whose cables may be moved,
//    and whose other ports hear anything: agreement of two ports that took their last LACPDUs from each other; order of what all collectors
//    together got of a conversation, and of what each got
// contract: `network` (`one_partner`, `agree`, `in_order`, `each_in_order`)
// not said: progress
// promise: a port that is not on defaults took its last LACPDU from the port at the other end of its cable, if this was never moved; or if
//    the port was down (out of sync, or on defaults) when it was last moved, and distributes; and from then on, if it was up when a warm
//    start followed. The ends of a moved cable may come up with each other
// contract: `network` (`took_from_far_end`, `took_from_fixed_end`), `ends_meet_after_move`
// promise: a port that is not on defaults names the system and port that its last LACPDU came from
// contract: `network` (`names_far_end`)
// promise: a distributing port that is not on defaults took last an LACPDU that said IN_SYNC, whose Actor it names, and that named
//    the port or was of an individual link
// contract: `network` (`took_synchronized`)
// promise: ports that distribute in one aggregator, not on defaults, took their last LACPDUs from one system, if no other claims its
//    identifier. Else one aggregator may reach two devices, as an MLAG pair, and a run does
// contract: `network` (`one_device`), `one_aggregator_reaches_two`
// not said: that one aggregator meets one aggregator: where the far system has two of the key, the far ports may lie in both
// promise: a port in an aggregator, not on defaults, took its last LACPDU neither from its own system nor from one that claims its identifier
// contract: `network` (`not_with_itself`)
// promise: what order rests on holds: the frames of a conversation fly on the cable of its port, none behind a marker whose response it
//    waits for; identifiers in flight are below the next; what was collected, then what flies, is in order; serials count from 0
// contract: `network` (`on_its_cable`, `flushed_by_marker`, `below_next`, `collected_then_in_flight`, `counts_from_zero`)
/// The headline for any number of systems, cabled in any way, whose other ports may hear anything from anyone. Cables may be taken out
/// and put in elsewhere at any time. No identifier has to differ from another: only `one_device` asks for that. After each event of every
/// schedule: ports of a system that distribute in one aggregator name one partner system and key; two distributing ports that took their
/// last LACPDU from each other, as the ends of a cable do, name the same group, unless one of them changed since it sent that, or runs on
/// defaults; what all systems together collect of a conversation that was never forced is, in the order of time, a subsequence of what was
/// sent; what a port that is not on defaults names is the system and port that its last LACPDU came from; this is the port at the other
/// end of its cable, if that was never moved, or was moved while the port was down, and the port distributes, or was up when a warm start
/// followed; and ports that distribute in
/// one aggregator, not on defaults, took their last LACPDUs from one system, if no other claims its identifier (6.2.4, 6.3.6, 6.4.14, 6.5).
/// A system may take its own place with another first marker, and so it may restart: what comes then is one more run of the law. The other
/// clauses are the invariants on which the order rests.
pub fn network()
    ensures one_partner { IsNetworkInvariant (λ x w. EachOnePartner w) }
    ensures agree { IsNetworkInvariant (λ x w. CablesAgree w) }
    ensures in_order { IsNetworkInvariant (λ x w. NetworkInOrder w) }
    ensures each_in_order { IsNetworkInvariant (λ x w. EachCollectorInOrder w) }
    ensures names_far_end { IsNetworkInvariant (λ x w. NamesFarEnd x w) }
    ensures took_from_far_end { IsNetworkInvariant (λ x w. TookFromFarEnd x w) }
    ensures took_from_fixed_end { TookFromFixedEnd }
    ensures one_device { IsNetworkInvariant (λ x w. OneDevice x w) }
    ensures not_with_itself { IsNetworkInvariant (λ x w. NotWithItself x w) }
    ensures took_synchronized { IsNetworkInvariant (λ x w. EachTookInSync x w) }
    ensures on_its_cable { IsNetworkInvariant (λ x w. FlyOnItsCable x w) }
    ensures flushed_by_marker { IsNetworkInvariant (λ x w. FlushedBehindMarker x w) }
    ensures below_next { IsNetworkInvariant (λ x w. AllBelowNext x w) }
    ensures collected_then_in_flight { IsNetworkInvariant (λ x w. CollectedThenFlying x w) }
    ensures counts_from_zero { IsNetworkInvariant (λ x w. AllCountFromZero w) }
    ensures takeovers { IsNetworkInvariant (λ x w. MaySucceedItself x w) }
    ensures restarts { IsNetworkInvariant (λ x w. MayBeginAnew x w) }
    ensures first_markers { IsNetworkInvariant (λ x w. FirstMarkersAreAlike x) }
{}

ghost use Rattle.lagnetwork.specs.NetworkLaw.{EndsMeetAfterMove, OneAggregatorReachesTwo};

/// Why `one_device` of `network` has its premise: two systems that claim one identifier are reached by one aggregator. The law of
/// a network is not empty, either (profile).
pub fn one_aggregator_reaches_two()
    ensures { OneAggregatorReachesTwo }
{}

/// A cable may be moved, and the ends of the moved cable may come up with each other: so what `network` says of them is not empty (profile).
pub fn ends_meet_after_move()
    ensures { EndsMeetAfterMove }
{}

ghost use Rattle.lagnetwork.specs.NetworkLaw.{LawfulCallsAreCalls};

// promise: a takeover is possible: a system of which no conversation waits may take its own place, and any system may restart, with another
//    first marker, or with any configuration that is alike
// contract: `network` (`takeovers`, `restarts`, `first_markers`)
// premises: a system that takes over has the identifier, the keys of aggregators and the ports of the one before (`IsAlikeSetup`); its configuration
//    may have other own parameters, and another first marker
// promise: a call of one system, lawful moves with visible acts, is a call of the network, whatever cables accept, and leaves what it sends on
//    them
// contract: `lawful_calls`
/// A call of one system, as the contract of `lagsystem` has it (lawful moves, with what its reply shows), is a call of the network, and
/// leaves on the cables what the reply shows.
pub fn lawful_calls()
    ensures { LawfulCallsAreCalls }
{}
