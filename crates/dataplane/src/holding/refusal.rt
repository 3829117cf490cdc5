//! Why a frame is handed back.

/// Why `Holding::put` hands a frame back (profile).
#[derive(Clone, Copy, Debug, PartialEq, Eq)]
pub enum Refusal {
    /// There is no such conversation.
    NoConversation,
    /// The queue of the conversation is full.
    ConversationFull,
    /// As many frames wait in all queues together as the limit allows.
    AllFull,
}
