//! The order of a client's frames from the client to the client: through the queues of `holding`, and where the aggregator
//! that carries changes. The functions of this module do nothing when they run: the contract of each is a proved theorem, in the
//! words of the model of two systems (`lagmodel`).

ghost use Rattle.std.specs.Prelude.{[], ◌∷◌, ◌≡◌, false, ℕ, List};
ghost use Rattle.lagmodel.specs.View.{ModelCall, SystemSetup, View, first_view};
ghost use Rattle.lagmodel.specs.Move.{Act, LawfulMoves, Sends_frame};
ghost use Rattle.lagmodel.specs.World.{Side, World, WorldSetup};
ghost use Rattle.lagmodel.specs.Law.{CountsFromZero, InOrder, OnItsCable};
ghost use Rattle.dataplane.specs.Holding.{HoldingValue};
ghost use Rattle.dataplane.specs.QueueCalls.{QueueCall};
ghost use Rattle.dataplane.specs.Arrivals.{ArrivesInOrder, SentFromQueue};
ghost use Rattle.dataplane.specs.OneAggregator.{FreeElsewhere, InOneAggregator, NoneOnItsWayElsewhere, SendsNoFrame};

// promise: **from a client to a client in order**: if the host sends what leaves a queue of `Holding` to be sent, in this order, or gives
//    some up (`SentFromQueue`), and the conversation was never forced, what is collected of it is a subsequence of what waited at first and
//    was put since
// contract: `from_client_to_client` (`ArrivesInOrder`)
// not said: what a host does behind the collector. `headline` of `lagmodel` proves the premises `InOrder`, `CountsFromZero`
/// From a client to a client in order. The client's frames of a conversation are put into a queue of `holding`, whatever
/// calls come between; the host sends each that leaves it to be sent, in this order, or gives it up. Then what is collected of
/// the conversation, if it was never forced, is a subsequence of what the client put: nothing is reordered and nothing comes
/// twice. The premises `InOrder` and `CountsFromZero` hold after each event of each schedule (6.2.4; profile).
pub fn from_client_to_client<T>()
    ensures { (calls : List (QueueCall T)) (h : HoldingValue T) (offered : List T) (w : World) (s : Side) (g k : ℕ)
        → InOrder w → CountsFromZero w → w.forced s g k ≡ false → SentFromQueue calls h offered w s g k
        → ArrivesInOrder calls h offered w s g k }
{}

// promise: a number is On, Wanted or Flushing in one aggregator at most: at the start, after each call whose moves send no frame, and after
//    one that sends a frame whose number is Free in every other aggregator
// contract: `one_aggregator_at_a_time` (`first`, `kept`, `sent`)
// promise: while a number is Free in every other aggregator, and was never forced there, no frame of it that was sent there is on any cable
// contract: `one_aggregator_at_a_time` (`behind`)
// not said: `headline` proves the premise `OnItsCable`
/// Where a frame of a conversation number is sent in an aggregator only while the number is Free in every other one: it is
/// On, Wanted or Flushing in one aggregator at most, at the start and after each call; and while a frame may be sent, no
/// frame that was sent in another aggregator is on any cable, if the number was never forced there. The premise `OnItsCable`
/// holds after each event of each schedule (6.2.4, 6.2.5; profile).
pub fn one_aggregator_at_a_time()
    ensures first { (u : SystemSetup) → InOneAggregator (first_view u) }
    ensures kept { (u : SystemSetup) (call : ModelCall) (old new : View) (seen : List Act) → LawfulMoves u call old seen new
        → SendsNoFrame seen → InOneAggregator old → InOneAggregator new }
    ensures sent { (u : SystemSetup) (call : ModelCall) (old new : View) (p g k : ℕ)
        → LawfulMoves u call old (Sends_frame p g k ∷ []) new → FreeElsewhere old g k → InOneAggregator old → InOneAggregator new }
    ensures behind { (x : WorldSetup) (w : World) (s : Side) (g k : ℕ) → OnItsCable x w → FreeElsewhere (w.view s) g k
        → NoneOnItsWayElsewhere w s g k }
{}
