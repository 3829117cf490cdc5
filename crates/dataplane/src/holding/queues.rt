//! The queues of held frames.
ghost use Rattle.std.specs.Prelude.{◌≡◌, ◌≤◌, ◌<◌, ◌++◌, ◌∷◌, [], ℕ, Some, None, length, take, drop, replicate, slice_index, get_or, IfOk, IfErr, OnOk, IfNone, IfSome, MatchOption, option_copied};
ghost use Rattle.dataplane.specs.QueueCalls.{after, Put, Next, DropOldest, Clear};
ghost use Rattle.dataplane.specs.Holding.{holding_of, queue, oldest, in_all, refusal};

use crate::holding::refusal::Refusal;
use crate::holding::rings::{empty_one, empty_rings, put_behind, take_first};
use circular_buffer::HeapCircularBuffer;
use std::alloc::{AllocError, Global};
use std::marker::Model;

/// The frames that wait, by the handles that the host has for them (profile).
#[derive(Drop)]
pub struct Holding<T: Drop> {
    rings: Vec<HeapCircularBuffer<T>>,
    waiting: usize,
    most_in_all: usize,
    most_each: usize,
    dropped: u64,
    refused: u64,
}

/// A handle that leaves, with its conversation and the port that it is to be sent on (profile).
#[derive(Debug, PartialEq, Eq, Drop)]
pub struct Released<T: Drop> {
    /// The conversation, from 0.
    pub conversation: u16,
    /// The number of the port.
    pub port: u16,
    /// The host's handle of the frame.
    pub handle: T,
}

impl<T: Drop> Model for Holding<T> {
    ghost use Rattle.dataplane.specs.Holding.{HoldingValue, holding_code, holding_of, ring_queues, IsHolding};

    ghost Value = { HoldingValue T };

    ghost coded = { holding_code T.code };

    ghost view = { λ h. holding_of (ring_queues h.rings.items) h.most_in_all h.most_each h.dropped h.refused };

    ghost invariant = { λ h. IsHolding h.rings.items h.waiting h.most_in_all h.most_each };
}

impl<T: Drop> Holding<T> {
    // promise: a new `Holding` is empty and has the given bounds
    // contract: `new`
    /// Empty queues for `conversations` conversations, numbered from 0: at most `most_in_all` handles wait in all, and at
    /// most `most_each` in each. All memory is taken here: a conversation has the lesser of both numbers of places.
    /// `AllocError` if it is refused (profile).
    pub fn new(
        alloc: Global,
        conversations: u16,
        most_in_all: usize,
        most_each: usize,
    ) -> Result<Holding<T>, AllocError>
        ensures { IfOk result (λ h. h ≡ holding_of (replicate conversations []) most_in_all most_each 0 0) }
    {
        let rings = empty_rings(alloc, conversations, most_each.min(most_in_all))?;
        Ok(Holding {
            rings,
            waiting: 0,
            most_in_all,
            most_each,
            dropped: 0,
            refused: 0,
        })
    }

    // promise: a handle waits behind the others, or comes back with the first reason
    // contract: `put` (`room`, `reason`, `handed_back`, `after`), `refusal`
    /// Puts a handle behind those that wait in its conversation. Hands it back, counts it and changes nothing else if
    /// there is no such conversation, its queue is full or all that may wait do (profile).
    pub fn put(&mut self, conversation: u16, handle: T) -> Result<(), (Refusal, T)>
        ensures room { OnOk result (refusal self.old conversation ≡ None) }
        ensures reason { IfErr result (λ back. refusal self.old conversation ≡ Some back.0) }
        ensures handed_back { IfErr result (λ back. back.1 ≡ handle) }
        ensures after { self.new ≡ after (Put conversation handle) self.old }
    {
        if let Some(refusal) = self.refusal(conversation) {
            self.refused = self.refused.saturating_add(1);
            return Err((refusal, handle));
        }
        put_behind(&mut self.rings, usize::from(conversation), handle);
        self.waiting += 1;
        Ok(())
    }

    // promise: the oldest comes out first; `oldest` names it, `waiting` tells how many, and both change nothing
    // contract: `next`, `drop_oldest` (`first`, `after`), `clear` (`number`, `after`), `oldest`, `waiting` (`number`)
    /// Takes the oldest handle of a conversation out, to be sent; `None` if none waits or there is no such conversation
    /// (profile).
    pub fn next(&mut self, conversation: u16) -> Option<T>
        ensures first { result ≡ oldest self.old conversation }
        ensures after { self.new ≡ after (Next conversation) self.old }
    {
        let handle = take_first(&mut self.rings, usize::from(conversation))?;
        self.waiting -= 1;
        Some(handle)
    }

    // promise: of a table of ports, the first conversation on a port with a waiting handle gives its oldest, with that port; None only
    //    without one
    // contract: `next_released`
    /// Takes out the oldest handle of the first conversation that is on a port and has one waiting: `ports` has the port of
    /// each conversation, 0 for none. `None` if nothing waits that may leave (profile). Reads `ports` from its start.
    pub fn next_released(&mut self, ports: &[u16]) -> Option<Released<T>>
        requires { length ports.now ≤ 65536 }
        ensures none { IfNone result ((k : ℕ) → k < length ports.now → 0 < slice_index ports.now k → queue self.old k ≡ []) }
        ensures unchanged { IfNone result (self.new ≡ self.old) }
        ensures least { IfSome result (λ r. (k : ℕ) → k < r.conversation → 0 < slice_index ports.now k → queue self.old k ≡ []) }
        ensures port { IfSome result (λ r. (r.port ≡ slice_index ports.now r.conversation) × (0 < r.port)) }
        ensures first { IfSome result (λ r. oldest self.old r.conversation ≡ Some r.handle) }
        ensures after { IfSome result (λ r. self.new ≡ after (Next r.conversation) self.old) }
    {
        let conversation = self.first_released(ports)?;
        let handle = self.next(conversation)?;
        Some(Released {
            conversation,
            port: ports[usize::from(conversation)],
            handle,
        })
    }

    /// The first conversation that is on a port and has a handle waiting.
    fn first_released(&self, ports: &[u16]) -> Option<u16>
        requires { length ports.now ≤ 65536 }
        ensures found { MatchOption result ((k : ℕ) → k < length ports.now → 0 < slice_index ports.now k → queue self.now k ≡ [])
            (λ k. (k < length ports.now) × (0 < slice_index ports.now k) × (0 < length (queue self.now k))) }
        ensures least { IfSome result (λ j. (k : ℕ) → k < j → 0 < slice_index ports.now k → queue self.now k ≡ []) }
    {
        for (place, port) in ports.iter().enumerate() {
            if *port != 0 && self.waiting(place as u16) > 0 {
                return Some(place as u16);
            }
        }
        None
    }

    /// Takes the oldest handle of a conversation out, not to be sent, and counts it; `None` if none waits or there is no
    /// such conversation (profile).
    pub fn drop_oldest(&mut self, conversation: u16) -> Option<T>
        ensures first { result ≡ oldest self.old conversation }
        ensures after { self.new ≡ after (DropOldest conversation) self.old }
    {
        let handle = take_first(&mut self.rings, usize::from(conversation))?;
        self.waiting -= 1;
        self.dropped = self.dropped.saturating_add(1);
        Some(handle)
    }

    /// Drops each handle of a conversation, counts them, and says how many there were (profile).
    pub fn clear(&mut self, conversation: u16) -> usize
        ensures number { result ≡ length (queue self.old conversation) }
        ensures after { self.new ≡ after (Clear conversation) self.old }
    {
        let number = empty_one(&mut self.rings, usize::from(conversation));
        self.waiting -= number;
        self.dropped = self.dropped.saturating_add(number as u64);
        number
    }

    /// Why `put` would hand a handle of this conversation back; `None` if it would not (profile).
    pub fn refusal(&self, conversation: u16) -> Option<Refusal>
        ensures { result ≡ refusal self.now conversation }
    {
        let place = usize::from(conversation);
        if place >= self.rings.len() {
            return Some(Refusal::NoConversation);
        }
        if self.rings[place].len() >= self.most_each {
            return Some(Refusal::ConversationFull);
        }
        if self.waiting >= self.most_in_all {
            return Some(Refusal::AllFull);
        }
        None
    }

    /// The oldest handle of a conversation, the one that `next` would take out; it stays. `None` if none waits or there is no
    /// such conversation (profile).
    pub fn oldest(&self, conversation: u16) -> Option<&T>
        ensures first { option_copied result ≡ oldest self.now conversation }
    {
        let place = usize::from(conversation);
        if place >= self.rings.len() {
            return None;
        }
        self.rings[place].front()
    }

    /// How many handles wait in a conversation; 0 if there is no such conversation (profile).
    pub fn waiting(&self, conversation: u16) -> usize
        ensures number { result ≡ length (queue self.now conversation) }
        ensures within { result ≤ self.now.most_each }
    {
        let place = usize::from(conversation);
        if place >= self.rings.len() {
            return 0;
        }
        self.rings[place].len()
    }

    /// How many handles wait in all (profile).
    pub fn waiting_in_all(&self) -> usize
        ensures number { result ≡ in_all self.now }
        ensures within { result ≤ self.now.most_in_all }
    {
        self.waiting
    }

    /// How many handles `drop_oldest` and `clear` took out, up to 2^64 - 1 (profile).
    pub fn dropped(&self) -> u64
        ensures { result ≡ self.now.dropped }
    {
        self.dropped
    }

    /// How many handles `put` handed back, up to 2^64 - 1 (profile).
    pub fn refused(&self) -> u64
        ensures { result ≡ self.now.refused }
    {
        self.refused
    }
}
