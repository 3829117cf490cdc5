//! What follows from the choice and from the offers. The functions do nothing when they run: the contract of each is a
//! proved theorem.
ghost use Rattle.std.specs.Prelude.{◌≡◌, ◌≢◌, ℕ, Option, None, Some};
ghost use Rattle.lagtypes.specs.declared.identifiers.AggId.{AggId};
ghost use Rattle.lagsystem.specs.State.{SystemState};
ghost use Rattle.dataplane.specs.Choice.{Carries, IsAggregator, rank_in};
ghost use Rattle.dataplane.specs.declared.active.choosing.Rank.{Rank};
ghost use Rattle.dataplane.specs.Ends.{Alike, HasMore, ShowTheSame};

// promise: both ends choose alike: if two systems show the same partner flags, counts of ports and groups, and none carried before, both
//    choose none, or aggregators with the same of these three
// contract: `both_ends_choose_alike`
// not said: what they choose if one carried before; that no two aggregators of a system have one LAG ID
/// Both ends of the same bundles choose the same one, however each numbers its aggregators: if two systems show the same
/// partner flags, counts of ports and groups (LAG IDs), and none carried before, each chooses none, or an aggregator with the
/// same partner flag, count of ports and group as the other's (6.3.6; profile).
pub fn both_ends_choose_alike()
    ensures { (s t : SystemState) (g h : Option AggId) → ShowTheSame s t → Carries None s g → Carries None t h → Alike s g t h }
{}

// promise: another than `now` is chosen only if it has a partner where `now` runs on defaults, or more ports where both are alike in this,
//    or `now` has no rank
// contract: `the_active_aggregator_stays` (`HasMore`)
// promise: `offer_in_active_aggregator`, `offer_conversation_in_active_aggregator` return `Held` and change nothing while the number is On, Wanted or Flushing
//    in another aggregator; else they are the system's own offers
// contract: both (`held`, `offers`, `answers`)
/// The aggregator that carries stays unless another has strictly more: another is chosen only if it has a partner and this one
/// runs on defaults, or if both are alike in this and it has more ports, or if no port distributes in this one (profile).
pub fn the_active_aggregator_stays()
    ensures { (s : SystemState) (now g : AggId) (r q : Rank) → Carries (Some now) s (Some g) → g ≢ now → IsAggregator s now
        → rank_in (Some now) s g ≡ Some r → rank_in (Some now) s now ≡ Some q → HasMore r q }
{}

ghost use Rattle.lagmodel.specs.World.{Side, World, WorldSetup};
ghost use Rattle.lagmodel.specs.Law.{OnItsCable};
ghost use Rattle.lagsystem.specs.Calls.{Call};
ghost use Rattle.lagsystem.specs.First.{IsFirst};
ghost use Rattle.lagsystem.specs.ModelView.{model_view};
ghost use Rattle.lagsystem.specs.Sound.{CallPromise};
ghost use Rattle.lagsystem.specs.declared.drive.Reply.{Reply};
ghost use Rattle.dataplane.specs.Offers.{IsElsewhere, IsInOneAggregator, IsNoOffer};
ghost use Rattle.dataplane.specs.OneAggregator.{NoneOnItsWayElsewhere};

// promise: where each frame is offered by these two, a number is On, Wanted or Flushing in one aggregator at most: at first, after each
//    `Call` that is no offer, after `leave_conversation`, `probe`, `force_port`, `rest`, and after these two
// contract: `each_call_keeps_one_aggregator` (`first`, `kept`), `leaving_and_probing_keep_one_aggregator`,
//    `forcing_and_resting_keep_one_aggregator`; both offers (`keeps`)
// promise: while they do not hold a frame back, no frame of its number that was sent in another aggregator is on any cable, if the number
//    was never forced there
// contract: `each_call_keeps_one_aggregator` (`behind`)
/// Where each frame is offered by `offer_in_active_aggregator`, a conversation number is On, Wanted or Flushing in one aggregator at
/// most: so it is in the first state, and each call of `Call` that is no offer keeps it, as `offer_in_active_aggregator` does. And while
/// `offer_in_active_aggregator` does not hold a frame back, no frame of its number that was sent in another aggregator is on any cable,
/// if the number was never forced there. The premise `OnItsCable` holds after each event of each schedule of two systems (6.2.4,
/// 6.2.5; profile).
pub fn each_call_keeps_one_aggregator<F: Fn(u16, usize) -> usize>()
    ensures first { (s : SystemState) → IsFirst s → IsInOneAggregator s }
    ensures kept { (algorithm : F) (old : SystemState) (call : Call) (reply : Reply) (new : SystemState)
        → CallPromise (F.post algorithm) old call reply new → IsNoOffer call → IsInOneAggregator old → IsInOneAggregator new }
    ensures behind { (x : WorldSetup) (w : World) (s : Side) (t : SystemState) (agg : AggId) (conv : ℕ) → OnItsCable x w
        → w.view s ≡ model_view t → IsInOneAggregator t → (IsElsewhere t agg conv → ⊥) → NoneOnItsWayElsewhere w s agg.0 conv }
{}

ghost use Rattle.std.specs.Prelude.{[], List, Ok, Result};
ghost use Rattle.lagmodel.specs.View.{ModelCall};
ghost use Rattle.lagsystem.specs.Probing.{ProbesLawfully};
ghost use Rattle.lagsystem.specs.Promises.{TablePromise};
ghost use Rattle.lagsystem.specs.declared.fault.SystemFault.{SystemFault};

/// A conversation number that is On, Wanted or Flushing in one aggregator at most is so after `leave_conversation` and after
/// `probe`, which `Call` does not name. The premises are their clauses `promise` and `lawful` (6.2.5, 6.5.3.3; profile).
pub fn leaving_and_probing_keep_one_aggregator()
    ensures left { (old new : SystemState) → TablePromise ModelCall.Move_conversation [] old new → IsInOneAggregator old
        → IsInOneAggregator new }
    ensures probed { (port : ℕ) (old : SystemState) (answer : Result (Option (List ℕ)) SystemFault) (new : SystemState)
        → ProbesLawfully port old answer new → IsInOneAggregator old → IsInOneAggregator new }
{}

ghost use Rattle.std.specs.Prelude.{IfOk};
ghost use Rattle.lagsystem.specs.Forcing.{ForcesPort};
ghost use Rattle.lagsystem.specs.Leaving.{system_rest_result};
ghost use Rattle.lagsystem.specs.Offers.{GivesOrRefuses};

/// A conversation number that is On, Wanted or Flushing in one aggregator at most is so after `force_port` and after `rest`,
/// which `Call` does not name, refused or not. The premises are the clause `forced` of `force_port`, and the clauses `gives` and
/// `forces` of `rest` (profile).
pub fn forcing_and_resting_keep_one_aggregator<F: Fn(u16, usize) -> usize>()
    ensures forced { (algorithm : F) (port : ℕ) (old : SystemState) (answer : Result ℕ SystemFault) (new : SystemState)
        → ForcesPort (F.post algorithm) port old answer new → IsInOneAggregator old → IsInOneAggregator new }
    ensures rested { (algorithm : F) (agg : AggId) (conv : ℕ) (old : SystemState) (answer : Result Unit SystemFault)
        (new : SystemState) → GivesOrRefuses agg conv (system_rest_result old agg conv) old answer new
        → IfOk answer (λ done. CallPromise (F.post algorithm) old (Call.Force agg conv) (Reply.Force (Ok tt)) new) → IsInOneAggregator old
        → IsInOneAggregator new }
{}
