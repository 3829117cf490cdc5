ghost use Rattle.std.specs.Prelude.{◌≡◌, [], ℕ, IsTrue, MatchOption, None, Option, is_some, length, nat_le, replicate};
ghost use Rattle.std.specs.Bool.{IsFalse};
ghost use Rattle.dataplane.specs.QueueCalls.{after, DropOldest, Next, Put};
ghost use Rattle.dataplane.specs.Holding.{holding_of, oldest, queue, refusal};
ghost use Rattle.dataplane.specs.declared.holding.queues.Released.{Released};
ghost use Rattle.lagffi.specs.Numbers.{number, number_refused};
ghost use Rattle.lagffi.specs.Queues.{CallsQueue, Releases, counts_of, frame_of, holds_queue_already, no_counts, no_frame, no_queue, queue_value};
ghost use Rattle.lagffi.specs.Queues.{released_of, status_of_put};
ghost use Rattle.lagsystem.specs.Faults.{fault_number};
ghost use Rattle.lagsystem.specs.declared.fault.SystemFault.{SystemFault};

use crate::balancing::MOST_CONVERSATIONS;
use crate::handle::{Block, LagQueue};
use crate::queued::{HOLDS_QUEUE_ALREADY, LagQueueCounts, LagQueued, NO_QUEUE, status_of_put};
use crate::stored::Stored;
use crate::values::{LagNumber, NO_CONVERSATION, NO_MEMORY, OK};
use dataplane::{Holding, Refusal};
use std::alloc::Global;

/// Makes empty queues and puts them into an empty handle: one for each conversation, numbered from 0. At most `in_all`
/// frames wait in all, and at most `each` in each. All memory is taken here: 2,048 octets at most, and for each conversation 32, and 8
/// for each frame that may wait in it, which is the lesser of `in_all` and `each`. By NIW_POOL it is 1,200 and 48 in their place.
/// Refuses: NIW_HAS_QUEUE, NIW_NO_MEMORY.
#[unsafe(no_mangle)]
pub extern "C" fn lagffi_queue_new(
    alloc: Global,
    lag: &mut LagQueue,
    conversations: u16,
    in_all: usize,
    each: usize,
) -> u32
    ensures live { IsTrue (is_some (queue_value lag.old.held.kept)) → (result ≡ holds_queue_already)
        × (queue_value lag.new.held.kept ≡ queue_value lag.old.held.kept) }
    ensures made { queue_value lag.old.held.kept ≡ None → MatchOption (queue_value lag.new.held.kept) (result ≡ fault_number SystemFault.NoMemory)
        (λ h. (h ≡ holding_of (replicate conversations []) in_all each 0 0) × (result ≡ 0)) }
{
    if let Some((queue, block)) = lag.take(alloc) {
        lag.put(queue, block);
        return HOLDS_QUEUE_ALREADY;
    }
    let Ok(block) = Block::new(alloc, Stored::under(0)) else {
        return NO_MEMORY;
    };
    match Holding::new(alloc, conversations, in_all, each) {
        Ok(queue) => {
            lag.put(queue, block);
            OK
        }
        Err(_) => {
            drop(block.free());
            NO_MEMORY
        }
    }
}

/// Frees the queues of a handle, which is empty then. It does not tell which frames still waited.
/// Refuses: NIW_NO_QUEUE.
#[unsafe(no_mangle)]
pub extern "C" fn lagffi_queue_free(alloc: Global, lag: &mut LagQueue) -> u32
    ensures left { queue_value lag.new.held.kept ≡ None }
    ensures status { MatchOption (queue_value lag.old.held.kept) (result ≡ no_queue) (λ h. result ≡ 0) }
{
    match lag.take(alloc) {
        Some((_, block)) => {
            drop(block.free());
            OK
        }
        None => NO_QUEUE,
    }
}

/// Why a put is refused, if it is.
fn put_into(queue: &mut Holding<u64>, conv: u16, frame: u64) -> Option<Refusal>
    ensures refusal { result ≡ refusal queue.old conv }
    ensures after { queue.new ≡ after (Put conv frame) queue.old }
{
    match queue.put(conv, frame) {
        Ok(()) => None,
        Err((refusal, _)) => Some(refusal),
    }
}

// promise: a call of the queues is holding's own; without queues 19
// contract: `lagffi_queue_put` and its siblings (`CallsQueue`)
// not said: that the program sends what it takes out
/// Puts a frame behind those that wait in its conversation. One that is refused is counted, and not put: by NIW_NOT_ASSIGNED where there
/// is no such conversation, NIW_CONVERSATION_FULL or NIW_ALL_FULL.
/// Refuses: NIW_NO_QUEUE, NIW_NOT_ASSIGNED, NIW_CONVERSATION_FULL, NIW_ALL_FULL.
#[unsafe(no_mangle)]
pub extern "C" fn lagffi_queue_put(alloc: Global, lag: &mut LagQueue, conv: u16, frame: u64) -> u32
    ensures { CallsQueue (queue_value lag.old.held.kept) (queue_value lag.new.held.kept)
        (λ old new. (new ≡ after (Put conv frame) old) × (result ≡ status_of_put (refusal old conv))) (result ≡ no_queue) }
{
    let Some((mut queue, block)) = lag.take(alloc) else {
        return NO_QUEUE;
    };
    let refusal = put_into(&mut queue, conv, frame);
    lag.put(queue, block);
    status_of_put(refusal)
}

/// Takes the oldest frame of a conversation out, to be sent. `is` is false if none waits.
/// Refuses: NIW_NO_QUEUE.
#[unsafe(no_mangle)]
pub extern "C" fn lagffi_queue_next(alloc: Global, lag: &mut LagQueue, conv: u16) -> LagQueued
    ensures { CallsQueue (queue_value lag.old.held.kept) (queue_value lag.new.held.kept)
        (λ old new. (new ≡ after (Next conv) old) × (result ≡ frame_of conv (oldest old conv))) (result ≡ no_frame no_queue) }
{
    let Some((mut queue, block)) = lag.take(alloc) else {
        return LagQueued::none(NO_QUEUE);
    };
    let answer = queue.next(conv);
    lag.put(queue, block);
    LagQueued::of(conv, answer)
}

/// Takes the oldest frame of a conversation out, not to be sent, and counts it. `is` is false if none waits.
/// Refuses: NIW_NO_QUEUE.
#[unsafe(no_mangle)]
pub extern "C" fn lagffi_queue_drop(alloc: Global, lag: &mut LagQueue, conv: u16) -> LagQueued
    ensures { CallsQueue (queue_value lag.old.held.kept) (queue_value lag.new.held.kept)
        (λ old new. (new ≡ after (DropOldest conv) old) × (result ≡ frame_of conv (oldest old conv))) (result ≡ no_frame no_queue) }
{
    let Some((mut queue, block)) = lag.take(alloc) else {
        return LagQueued::none(NO_QUEUE);
    };
    let answer = queue.drop_oldest(conv);
    lag.put(queue, block);
    LagQueued::of(conv, answer)
}

/// The oldest frame of a conversation, the one that niw_queue_next would take out. It stays. `is` is false if none waits.
/// Refuses: NIW_NO_QUEUE.
#[unsafe(no_mangle)]
pub extern "C" fn lagffi_queue_oldest(alloc: Global, lag: &mut LagQueue, conv: u16) -> LagQueued
    ensures { CallsQueue (queue_value lag.old.held.kept) (queue_value lag.new.held.kept)
        (λ old new. (new ≡ old) × (result ≡ frame_of conv (oldest old conv))) (result ≡ no_frame no_queue) }
{
    let Some((queue, block)) = lag.take(alloc) else {
        return LagQueued::none(NO_QUEUE);
    };
    let answer = queue.oldest(conv).copied();
    lag.put(queue, block);
    LagQueued::of(conv, answer)
}

/// Takes out the oldest frame of the first conversation that is on a port and has one waiting, and tells the port. `ports` has for each
/// conversation, by its number, the port that it is on, or 0, as niw_conversation_ports writes it. A list of more than
/// NIW_MOST_CONVERSATIONS is refused with NIW_NOT_ASSIGNED.
/// Refuses: NIW_NOT_ASSIGNED, NIW_NO_QUEUE.
#[unsafe(no_mangle)]
pub extern "C" fn lagffi_queue_next_released(
    alloc: Global,
    lag: &mut LagQueue,
    ports: &[u16],
) -> LagQueued
    ensures length { IsFalse (nat_le (length ports.now) 65536) → (result ≡ no_frame (fault_number SystemFault.NotAssigned)) × (queue_value lag.new.held.kept ≡ queue_value lag.old.held.kept) }
    ensures answers { IsTrue (nat_le (length ports.now) 65536) → CallsQueue (queue_value lag.old.held.kept) (queue_value lag.new.held.kept)
        (λ old new. (answer : Option (Released ℕ)) × Releases ports.now old new answer × (result ≡ released_of answer)) (result ≡ no_frame no_queue) }
{
    if ports.len() > MOST_CONVERSATIONS {
        return LagQueued::none(NO_CONVERSATION);
    }
    let Some((mut queue, block)) = lag.take(alloc) else {
        return LagQueued::none(NO_QUEUE);
    };
    let answer = queue.next_released(ports);
    lag.put(queue, block);
    LagQueued::released(answer)
}

/// How many frames of a conversation wait; 0 if there is no such conversation.
/// Refuses: NIW_NO_QUEUE.
#[unsafe(no_mangle)]
pub extern "C" fn lagffi_queue_waiting(alloc: Global, lag: &mut LagQueue, conv: u16) -> LagNumber
    ensures { CallsQueue (queue_value lag.old.held.kept) (queue_value lag.new.held.kept)
        (λ old new. (new ≡ old) × (result ≡ number (length (queue old conv)))) (result ≡ number_refused no_queue) }
{
    let Some((queue, block)) = lag.take(alloc) else {
        return LagNumber::refused(NO_QUEUE);
    };
    let answer = queue.waiting(conv) as u64;
    lag.put(queue, block);
    LagNumber::answered(answer)
}

/// How many frames wait, were dropped and were refused.
/// Refuses: NIW_NO_QUEUE.
#[unsafe(no_mangle)]
pub extern "C" fn lagffi_queue_counts(alloc: Global, lag: &mut LagQueue) -> LagQueueCounts
    ensures { CallsQueue (queue_value lag.old.held.kept) (queue_value lag.new.held.kept)
        (λ old new. (new ≡ old) × (result ≡ counts_of old)) (result ≡ no_counts no_queue) }
{
    let Some((queue, block)) = lag.take(alloc) else {
        return LagQueueCounts::none(NO_QUEUE);
    };
    let answer = LagQueueCounts::of(&queue);
    lag.put(queue, block);
    answer
}
