//! What every list of calls keeps. The function does nothing when it runs: its contract is a proved theorem about what
//! the contracts of `Holding` say that each call does (`after`, in `specs/Calls`).
ghost use Rattle.std.specs.Prelude.{◌≡◌, ℕ, ◌^◌, ◌<◌, List, ◌++◌, map};
ghost use Rattle.dataplane.specs.Holding.{HoldingValue, queue, counted};
ghost use Rattle.dataplane.specs.QueueCalls.{QueueCall};
ghost use Rattle.dataplane.specs.QueueLaws.{after_all, all_accepted, all_gone, all_sent, all_dropped, all_handed_back, handle_of, IsSubsequence, IsWithin};

// promise: **every list of calls keeps the order**: the handles that waited in a conversation, then those put there since, are those taken
//    out, to be sent or dropped, then those that wait now. The sent ones are a subsequence
// contract: `every_list_of_calls` (`in_order`, `subsequence`) over `QueueCalls`, which the clauses `after` of the calls cite
// promise: each dropped handle and each handed back is counted, up to 2^64 - 1
// contract: `every_list_of_calls` (`dropped`, `refused`), `drop_oldest`, `clear`, `put` (`after`)
// promise: no more wait than the bounds allow, in a conversation and in all
// contract: `every_list_of_calls` (`within`), `waiting`, `waiting_in_all` (`within`)
/// After every list of calls, whatever was held before them: what waited in a conversation and what was put there since,
/// in this order, is what was taken out of it followed by what waits, so that nothing overtakes and nothing is lost; what
/// was sent of it is a subsequence of that; each handle that was not sent is counted, up to 2^64 - 1, as each that was
/// handed back; and no bound is passed (profile).
pub fn every_list_of_calls<T>()
    ensures in_order { (calls : List (QueueCall T)) (h : HoldingValue T) (k : ℕ)
        → queue h k ++ all_accepted k calls h ≡ map handle_of (all_gone k calls h) ++ queue (after_all calls h) k }
    ensures subsequence { (calls : List (QueueCall T)) (h : HoldingValue T) (k : ℕ)
        → IsSubsequence (all_sent (all_gone k calls h)) (queue h k ++ all_accepted k calls h) }
    ensures dropped { (calls : List (QueueCall T)) (h : HoldingValue T) → h.dropped < 2 ^ 64
        → (after_all calls h).dropped ≡ counted h.dropped (all_dropped calls h) }
    ensures refused { (calls : List (QueueCall T)) (h : HoldingValue T) → h.refused < 2 ^ 64
        → (after_all calls h).refused ≡ counted h.refused (all_handed_back calls h) }
    ensures within { (calls : List (QueueCall T)) (h : HoldingValue T) → IsWithin h → IsWithin (after_all calls h) }
{}
