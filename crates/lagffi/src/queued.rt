ghost use Rattle.std.specs.Prelude.{◌≡◌};
ghost use Rattle.lagffi.specs.Queues.{counts_of, frame_of, no_counts, no_frame, released_of, status_of_put};

use crate::values::{NO_CONVERSATION, OK};
use dataplane::{Holding, Refusal, Released};

/// The handle holds no queues.
pub(crate) const NO_QUEUE: u32 = 19;
/// The handle holds queues already.
pub(crate) const HOLDS_QUEUE_ALREADY: u32 = 20;
/// The queue of the conversation is full.
const CONVERSATION_FULL: u32 = 21;
/// As many frames wait in all queues together as the limit allows.
const ALL_FULL: u32 = 22;

/// The status of a put, by why it is refused.
pub(crate) fn status_of_put(refusal: Option<Refusal>) -> u32
    ensures { result ≡ status_of_put refusal }
{
    match refusal {
        None => OK,
        Some(Refusal::NoConversation) => NO_CONVERSATION,
        Some(Refusal::ConversationFull) => CONVERSATION_FULL,
        Some(Refusal::AllFull) => ALL_FULL,
    }
}

/// A frame of a queue, if there is one, or why that is not told.
#[repr(C)]
#[derive(Clone, Copy)]
pub struct LagQueued {
    /// 0, or the number of the refusal.
    pub status: u32,
    /// Whether there is a frame.
    pub is: bool,
    /// The conversation of the frame; 0 where there is no frame.
    pub conversation: u16,
    /// The port that it is to be sent on, where ports were asked; else 0.
    pub port: u16,
    /// The number that the program has for the frame; 0 where there is none.
    pub frame: u64,
}

impl LagQueued {
    /// No frame, with this status.
    pub(crate) fn none(status: u32) -> LagQueued
        ensures { result ≡ no_frame status }
    {
        LagQueued {
            status,
            is: false,
            conversation: 0,
            port: 0,
            frame: 0,
        }
    }

    /// A frame of a conversation, or none.
    pub(crate) fn of(conversation: u16, frame: Option<u64>) -> LagQueued
        ensures { result ≡ frame_of conversation frame }
    {
        match frame {
            Some(frame) => LagQueued {
                status: OK,
                is: true,
                conversation,
                port: 0,
                frame,
            },
            None => LagQueued::none(OK),
        }
    }

    /// The frame that leaves with its port, or none.
    pub(crate) fn released(answer: Option<Released<u64>>) -> LagQueued
        ensures { result ≡ released_of answer }
    {
        match answer {
            Some(found) => LagQueued {
                status: OK,
                is: true,
                conversation: found.conversation,
                port: found.port,
                frame: found.handle,
            },
            None => LagQueued::none(OK),
        }
    }
}

/// How many frames wait, were dropped and were refused, or why that is not told.
#[repr(C)]
#[derive(Clone, Copy)]
pub struct LagQueueCounts {
    /// 0, or the number of the refusal.
    pub status: u32,
    /// How many wait.
    pub waiting: u64,
    /// How many were dropped, up to 2^64 - 1.
    pub dropped: u64,
    /// How many were refused, up to 2^64 - 1.
    pub refused: u64,
}

impl LagQueueCounts {
    /// All counts 0, with this status.
    pub(crate) fn none(status: u32) -> LagQueueCounts
        ensures { result ≡ no_counts status }
    {
        LagQueueCounts {
            status,
            waiting: 0,
            dropped: 0,
            refused: 0,
        }
    }

    /// The counts of these queues, with status 0.
    pub(crate) fn of(queue: &Holding<u64>) -> LagQueueCounts
        ensures { result ≡ counts_of queue.now }
    {
        LagQueueCounts {
            status: OK,
            waiting: queue.waiting_in_all() as u64,
            dropped: queue.dropped(),
            refused: queue.refused(),
        }
    }
}
