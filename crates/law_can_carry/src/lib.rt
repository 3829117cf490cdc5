//! Runs that meet the premises of the laws of `lagbeside` and of `beside_any_peer` of `lagfleet`: a port can carry beside a peer, not on
//! defaults. The functions of this crate do nothing when they run: the contract of each is a proved theorem.
//!
//! In comments, numbers such as 6.4.15 are sections of IEEE 802.1AX-2014.
#![tactic(auto)]

ghost use Rattle.law_can_carry.specs.Carrying.{ComesToCarry};

// promise: **a port can come to carry beside a peer:** calls of a new system, one LACPDU and 20 ticks, meet each premise of
//    `any_peer_brings_a_port_up`, and the port carries, not on defaults, with that peer as its partner
// contract: `a_port_comes_to_carry` (`ComesToCarry`)
/// There is a run of calls, from the first state of a configuration that is accepted, which meets each premise of
/// `any_peer_brings_a_port_up`; at its end the port is in COLLECTING_DISTRIBUTING, not on defaults, with the peer as its partner
/// (6.4.12 to 6.4.15).
pub fn a_port_comes_to_carry<F: Fn(u16, usize) -> usize>()
    ensures { (algorithm : F) → ComesToCarry (F.post algorithm) }
{}

ghost use Rattle.law_can_carry.specs.BesidePeers.{CarriesBesidePeer};

// promise: **and so it can in a run of `beside_any_peer`:** at its end a port distributes, not on defaults, with the Actor of the LACPDU
//    that it took last as its partner
// contract: `a_port_carries_beside_a_peer` (`CarriesBesidePeer`)
/// There is a run of calls of a `System`, as `beside_any_peer` of `lagfleet` has them, at whose end port 1 distributes, not on defaults
/// (6.4.15).
pub fn a_port_carries_beside_a_peer<F: Fn(u16, usize) -> usize>()
    ensures { (algorithm : F) → CarriesBesidePeer (F.post algorithm) }
{}
