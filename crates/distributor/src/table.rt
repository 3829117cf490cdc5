ghost use Rattle.std.specs.Prelude.{false, ◌≡◌, ◌≤◌, ◌<◌, ◌+◌, ◌*◌, ◌-◌, ◌↔◌, nat_lt, IfOk, IfSome, IfNone, IsTrue};
ghost use Rattle.distributor.specs.Conversations.{first_table, assignment_of, slot_index, count_conversations, next_identifier};
ghost use Rattle.distributor.specs.Conversations.{IsConversation};
ghost use Rattle.distributor.specs.Changes.{SetsAssignment, ChangesAssignments, Marks, after_change, wants_marker, awaits_response};
ghost use Rattle.distributor.specs.Changes.{marker_due};
ghost use Rattle.distributor.specs.Chains.{is_flushing, is_held_on, names_port};
ghost use Rattle.distributor.specs.Waiting.{ticks_until_next_wanted};

use crate::assignment::Assignment;
use crate::change::Change;
use crate::slots::{ConversationTest, Slots};
use lagtypes::NoMemory;
use std::alloc::Global;
use std::marker::Model;

/// The conversations of every aggregator and the identifier of the next marker.
#[derive(Drop)]
pub(crate) struct ConversationTable {
    /// How many aggregators there are.
    aggs: u16,
    /// How many conversations each aggregator has.
    conversations: u16,
    /// The identifier of the first marker.
    first: u32,
    /// The identifier of the next marker; 4294967296 if none is left.
    next: u64,
    /// The states: those of aggregator 1, then of aggregator 2, and so on.
    slots: Slots,
}

impl Model for ConversationTable {
    ghost use Rattle.distributor.specs.Conversations.{Table};
    ghost use Rattle.distributor.specs.Slots.{SlotsFit};

    ghost Value = { Table };

    ghost view = { λ t. record { aggs = t.aggs; conversations = t.conversations; first = t.first; next = t.next; states = t.slots.states.items } };

    ghost invariant = { λ t. SlotsFit t.aggs t.conversations t.slots };
}

impl ConversationTable {
    /// Makes the table at the start: every conversation free, and `first` the identifier of the first marker.
    pub(crate) fn new(
        alloc: Global,
        aggs: u16,
        conversations: u16,
        first: u32,
    ) -> Result<ConversationTable, NoMemory>
        ensures { IfOk result (λ t. t ≡ first_table aggs conversations first) }
    {
        Ok(ConversationTable {
            aggs,
            conversations,
            first,
            next: u64::from(first),
            slots: Slots::new(alloc, u32::from(aggs) * u32::from(conversations))?,
        })
    }

    /// Makes every conversation free, and the next marker the first one again.
    pub(crate) fn clear(&mut self)
        ensures { self.new ≡ first_table self.old.aggs self.old.conversations self.old.first }
    {
        self.slots.clear();
        self.next = u64::from(self.first);
    }

    /// Whether there is such a conversation.
    pub(crate) fn contains(&self, agg: u16, conv: u16) -> bool
        ensures { IsTrue result ↔ IsConversation self.now agg conv }
    {
        agg > 0 && agg <= self.aggs && conv < self.conversations
    }

    /// How many conversations each aggregator has.
    pub(crate) fn conversations(&self) -> u16
        ensures { result ≡ self.now.conversations }
    {
        self.conversations
    }

    /// The state of a conversation; Free without a preferred port if there is no such conversation.
    pub(crate) fn state(&self, agg: u16, conv: u16) -> Assignment
        ensures { result ≡ assignment_of self.now agg conv }
    {
        if agg > 0 && agg <= self.aggs && conv < self.conversations {
            return self.slots.state(slot_index(self.conversations, agg, conv));
        }
        Assignment::Free { preferred: None }
    }

    /// Gives a conversation a state that is not Flushing.
    pub(crate) fn set(&mut self, agg: u16, conv: u16, state: Assignment)
        requires known { IsConversation self.old agg conv }
        requires still { is_flushing state ≡ false }
        ensures { SetsAssignment self.old self.new agg conv state }
    {
        self.slots
            .set(slot_index(self.conversations, agg, conv), state);
    }

    /// Whether some conversation is Wanted on the port, that is, waits for a marker to be sent there.
    pub(crate) fn wants_marker_on(&self, port: u16) -> bool
        ensures { result ≡ nat_lt 0 (count_conversations (wants_marker port) self.now) }
    {
        self.slots.count(ConversationTest::WantsMarker(port)) > 0
    }

    /// How many conversations wait for the response to this marker on the port.
    pub(crate) fn count_waiting(&self, port: u16, id: u32) -> u32
        ensures { result ≡ count_conversations (awaits_response port id) self.now }
    {
        self.slots.count(ConversationTest::AwaitsResponse(port, id))
    }

    /// How many conversations are On, Wanted or Flushing on the port.
    pub(crate) fn load(&self, port: u16) -> u32
        ensures { result ≡ count_conversations (names_port port) self.now }
    {
        self.slots.count(ConversationTest::NamesPort(port))
    }

    /// How many conversations are Wanted or Flushing on the port.
    pub(crate) fn held(&self, port: u16) -> u32
        ensures { result ≡ count_conversations (is_held_on port) self.now }
    {
        self.slots.count(ConversationTest::HeldOn(port))
    }

    /// In how many ticks the next conversation is Wanted again; None if none is Flushing.
    pub(crate) fn ticks_until_next_wanted(&self) -> Option<u8>
        ensures { result ≡ ticks_until_next_wanted self.now }
    {
        self.slots.ticks_until_next_wanted()
    }

    /// Gives every conversation its state after this event: a port stops distributing, a marker is sent, its response
    /// comes, a link goes down or a tick passes. The next marker identifier stays.
    #[inline(always)]
    pub(crate) fn change(&mut self, change: Change)
        ensures { ChangesAssignments self.old self.new (after_change change) }
    {
        match change {
            Change::Leave(port)
            | Change::Mark(port, _)
            | Change::Release(port, _)
            | Change::Down(port) => self.slots.change(port, change),
            Change::Tick => self.slots.tick(),
        }
    }

    /// The identifier of the next marker; None if none is left.
    pub(crate) fn next_identifier(&self) -> Option<u32>
        ensures { result ≡ next_identifier self.now }
    {
        u32::try_from(self.next).ok()
    }

    /// Whether a conversation is Wanted on this port. A walk that finds none computes the flags of its chain again.
    fn find_wanted(&mut self, port: u16) -> bool
        ensures found { result ≡ nat_lt 0 (count_conversations (wants_marker port) self.old) }
        ensures same { self.new ≡ self.old }
    {
        self.slots.find_wanted(port)
    }

    /// Takes the next identifier for a marker on this port, if a conversation is Wanted there; else None.
    pub(crate) fn mark(&mut self, port: u16) -> Option<u32>
        ensures answer { result ≡ marker_due self.old port }
        ensures some { IfSome result (λ id. Marks self.old self.new port id) }
        ensures none { IfNone result (self.new ≡ self.old) }
    {
        if !self.find_wanted(port) {
            return None;
        }
        self.mark_next(port)
    }

    /// Takes the next identifier for a marker on this port, whether or not a conversation is Wanted there; None if none is left.
    pub(crate) fn mark_next(&mut self, port: u16) -> Option<u32>
        ensures answer { result ≡ next_identifier self.old }
        ensures some { IfSome result (λ id. Marks self.old self.new port id) }
        ensures none { IfNone result (self.new ≡ self.old) }
    {
        let id = self.next_identifier()?;
        self.next += 1;
        self.change(Change::Mark(port, id));
        Some(id)
    }
}

/// The slot number of a conversation.
fn slot_index(conversations: u16, agg: u16, conv: u16) -> u32
    requires agg { 0 < agg }
    ensures { result ≡ slot_index conversations agg conv }
{
    (u32::from(agg) - 1) * u32::from(conversations) + u32::from(conv)
}
