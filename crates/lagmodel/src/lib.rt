//! The two-system theorem, about definitions only: the view of a system (`specs/View`), the moves that it may make
//! (`specs/Move`), what can happen to two systems on cables (`specs/World`), and what holds after every event
//! (`specs/Law`). The functions of this crate do nothing when they run: the contract of each is a proved theorem.
//!
//! In comments, numbers such as 6.2.4 are sections of IEEE 802.1AX-2014, and "profile" is docs/PROFILE.md.
#![tactic(auto)]

ghost use Rattle.lagmodel.specs.World.{Side};
ghost use Rattle.lagmodel.specs.Law.{IsInvariant, OnePartner, EndsAgree, InOrder, LastLacpduSaysInSync, UpToDateLacpdusNameSender};
ghost use Rattle.lagmodel.specs.Law.{OnItsCable, FlushedByMarker, BelowNext, CollectedThenInFlight, CountsFromZero};

/// The headline. After each event of every schedule: ports of one system that distribute in one aggregator name one partner
/// system and key; the two distributing ends of a cable name the same group (LAG ID), unless one of them changed since it
/// sent the LACPDU that its peer took last, or runs on defaults; and what is collected of a conversation that was never
/// forced is a subsequence of what was sent (6.2.4, 6.3.6, 6.4.14, 6.5). The other clauses are the invariants on which the
/// proof rests.
pub fn headline()
    ensures one_partner { IsInvariant (λ x w. (s : Side) → OnePartner (w.view s)) }
    ensures agree { IsInvariant (λ x w. EndsAgree x w) }
    ensures in_order { IsInvariant (λ x w. InOrder w) }
    ensures took_synchronized { IsInvariant (λ x w. LastLacpduSaysInSync w) }
    ensures names_present { IsInvariant (λ x w. UpToDateLacpdusNameSender x w) }
    ensures on_its_cable { IsInvariant (λ x w. OnItsCable x w) }
    ensures flushed_by_marker { IsInvariant (λ x w. FlushedByMarker x w) }
    ensures below_next { IsInvariant (λ x w. BelowNext w) }
    ensures collected_then_in_flight { IsInvariant (λ x w. CollectedThenInFlight w) }
    ensures counts_from_zero { IsInvariant (λ x w. CountsFromZero w) }
{}

ghost use Rattle.std.specs.Prelude.{List};
ghost use Rattle.lagmodel.specs.View.{View, SystemSetup, IsSystemSetup, ModelCall, first_view};
ghost use Rattle.lagmodel.specs.Move.{Act, LawfulMoves};
ghost use Rattle.lagmodel.specs.Law.{LawfulRun, Members};

/// One system by itself, whatever it receives: `Members` holds at the start and after each call, so after every list of
/// calls; and if it holds, ports that distribute in one aggregator name one partner system and key (6.4.14.1).
pub fn one_system()
    ensures first { (u : SystemSetup) → IsSystemSetup u → Members u (first_view u).port }
    ensures preserved { (u : SystemSetup) (call : ModelCall) (old new : View) (seen : List Act) → IsSystemSetup u
        → LawfulMoves u call old seen new
        → Members u old.port → Members u new.port }
    ensures always { (u : SystemSetup) (calls : List ModelCall) (v : View) → IsSystemSetup u
        → LawfulRun u calls (first_view u) v → Members u v.port
        × OnePartner v }
    ensures one_partner { (u : SystemSetup) (v : View) → Members u v.port → OnePartner v }
{}

ghost use Rattle.lagmodel.specs.Law.{SomethingArrives};

/// The headline is not empty: there is a run in which both ends agree and a frame arrives (profile).
pub fn something_arrives()
    ensures { SomethingArrives }
{}

ghost use Rattle.lagmodel.specs.AnyPeer.{EachCallIsOne, HoldsWithAnyPeer, OrderHolds, SerialsCountFromZero, TookInSync};

/// One system beside peers of any kind and number, however they are wired: ports that distribute in one aggregator name one partner; a
/// port that distributes, and is not defaulted, took last an LACPDU that said IN_SYNC, whose Actor it names; and what the peers hand up of a
/// conversation that was never forced is a subsequence of what was sent, of which no two have one serial, if a Marker Response answers the
/// marker that has come first on its cable; also where LACPDUs overtake. Each lawful call is one of the happenings, with what it sends
/// (6.2.4, 6.4.9, 6.4.14, 6.5.4; profile).
pub fn order_with_any_peer()
    ensures one_partner { HoldsWithAnyPeer (λ w. OnePartner w.view) }
    ensures took_synchronized { HoldsWithAnyPeer TookInSync }
    ensures in_order { HoldsWithAnyPeer OrderHolds }
    ensures counts_from_zero { HoldsWithAnyPeer SerialsCountFromZero }
    ensures each_call { EachCallIsOne }
{}

ghost use Rattle.lagmodel.specs.Succession.{HoldsThroughSuccession};

/// The headline, as in `headline`, where at any time another system may take the place of one and go on where it was, as after a warm start:
/// one partner, agreement and order, and no serial comes twice (6.2.4, 6.3.6, 6.4.14; profile).
pub fn headline_through_succession()
    ensures one_partner { HoldsThroughSuccession (λ x w. (s : Side) → OnePartner (w.view s)) }
    ensures agree { HoldsThroughSuccession (λ x w. EndsAgree x w) }
    ensures in_order { HoldsThroughSuccession (λ x w. InOrder w) }
    ensures counts_from_zero { HoldsThroughSuccession (λ x w. CountsFromZero w) }
{}

ghost use Rattle.lagmodel.specs.AnyPeer.{ArrivesAtAnyPeer};

/// `order_with_any_peer` is not empty: there is a run in which a port distributes, with the partner that it heard, and a frame arrives
/// (profile).
pub fn something_arrives_at_any_peer()
    ensures { ArrivesAtAnyPeer }
{}

ghost use Rattle.lagmodel.specs.TruthfulPeer.{NamesTruthfulPeer};

/// Agreement beside peers that name themselves as they are, among others that lie: a port that is not defaulted has recorded such a peer as it
/// is, unless that changed since it sent the LACPDU that the port took last (6.3.6, 6.4.9; profile).
pub fn a_truthful_peer_is_named_as_it_is()
    ensures { NamesTruthfulPeer }
{}
