//! Frames arrive in a bundle.

ghost use Rattle.lagworld.specs.Sound.{both_algorithms};
ghost use Rattle.lagprogress.specs.Arriving.{DeliverHandsUp, OfferGetsPort};

// promise: an Offer gives a frame a port that distributes in the aggregator, and sends it behind all items on the port's cable, if that
//    accepts it; no port changes
// contract: `frames_pass_cables` (`offered`: `GetsPort`)
// premises: sound; a port distributes in the aggregator; 14 to 1518 octets, no slow protocols frame; its conversation is not held
//    (`TakesFrame`)
// promise: Deliver of a cable whose first item is a data frame hands it up in the aggregator in which the port there collects
// contract: `frames_pass_cables` (`delivered`)
// premises: that port's link is up, and it collects
/// An Offer event gives a frame that a sound system takes a port that distributes in the aggregator: a frame of 14 to 1518
/// octets, no slow protocols frame, for an aggregator that exists and in which a port distributes, and whose conversation is
/// not held. And where a data frame is the first item on a cable, a Deliver event hands it up in the aggregator in which the
/// port there collects, if the link of that port is up (6.2.3, 6.2.4; profile).
pub fn frames_pass_cables<F: Fn(u16, usize) -> usize>()
    ensures offered { (one two : F) → OfferGetsPort (both_algorithms (F.post one) (F.post two)) }
    ensures delivered { (one two : F) → DeliverHandsUp (both_algorithms (F.post one) (F.post two)) }
{}

ghost use Rattle.lagprogress.specs.Arriving.{EachHostReachedHasUnsynchronized};

/// The recorded partner of each port in PORT_DISABLED has Synchronization FALSE, in both systems of each world that events, or
/// calls and settings of hosts, lead to from a start, as `each_frame_arrives_by_hosts` wants it (6.4.12).
pub fn disabled_ports_have_unsynchronized_partners<F: Fn(u16, usize) -> usize>()
    ensures { (one two : F) → EachHostReachedHasUnsynchronized (both_algorithms (F.post one) (F.post two)) }
{}

ghost use Rattle.lagprogress.specs.Arriving.{EachFrameArrivesByHosts};
ghost use Rattle.lagprogress.specs.Bundle.{BothAreActive, OneIsActive};
ghost use Rattle.lagprogress.specs.Rounds.{up_if_both_active, up_if_one_is};

// promise: a frame offered behind the rounds gets a port, the cable accepts it, and in the next healthy round of hosts the other end hands it
//    up, octet by octet, whatever else is offered or called in that: 356 | 657 late rounds
// contract: `each_frame_arrives_by_hosts` (`Arrives`, `HandsUp`)
// premises: `IsBundle` before the rounds; nothing is on any cable behind them, as behind each healthy round; `TakesFrame` when it is offered;
//    a partner recorded in PORT_DISABLED has Synchronization FALSE, as after any events, or calls and settings of hosts
//    (`disabled_ports_have_unsynchronized_partners`); the Offer comes between two rounds
/// A data frame that a bundle as in `each_link_comes_up_by_clocks` is offered after 356 late rounds (35.6 s) or more if both ends of each
/// healthy cable are active, after 657 (65.7 s) if one is, when nothing is on any cable, arrives within one healthy round of hosts (100 ms),
/// whatever was before them, and whatever else is offered or called in that round: it gets a port that distributes in the aggregator, its
/// cable accepts it, and at the other end it is handed up, with the same octets, in the aggregator in which the port there collects. The
/// system takes the frame as in `frames_pass_cables`. Each disabled port of the sender has an unsynchronized partner, as
/// `disabled_ports_have_unsynchronized_partners` has it (6.2.3, 6.2.4; profile).
pub fn each_frame_arrives_by_hosts<F: Fn(u16, usize) -> usize>()
    ensures both { (one two : F) → EachFrameArrivesByHosts BothAreActive up_if_both_active (both_algorithms (F.post one) (F.post two)) }
    ensures one { (one two : F) → EachFrameArrivesByHosts OneIsActive up_if_one_is (both_algorithms (F.post one) (F.post two)) }
{}
