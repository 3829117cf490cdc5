ghost use Rattle.std.specs.Prelude.{true, false, ◌≡◌, ◌+◌, ◌%◌, ◌<◌, ◌≤◌, ◌^◌, length, get_or, set, map, cond, ℕ, None, IfOk, nat_lt, replicate};
ghost use Rattle.distributor.specs.Chains.{assignment_port, chain_of, is_in_chain, slot_state, is_flushing, is_wanted};
ghost use Rattle.distributor.specs.Slots.{AreChained, AreFlagged};
ghost use Rattle.distributor.specs.Changes.{after_change, after_tick, wants_marker};
ghost use Rattle.std.specs.Bool.{OnFalse};
ghost use Rattle.distributor.specs.Chains.{changed_in_chain, passes, tested_port};
ghost use Rattle.distributor.specs.Conversations.{sum_below};
ghost use Rattle.distributor.specs.declared.assignment.Assignment.{Assignment};

mod waiting;

use crate::assignment::Assignment;
use crate::change::Change;
use std::alloc::{AllocError, Global};

/// How many chains there are: one for each port number modulo 64.
const CHAINS: u32 = 64;

/// Free states, to be copied.
const FREE: [Assignment; 64] = [Assignment::Free { preferred: None }; 64];

/// The states of all conversations, one slot each. The slots that are not free are chained by the port number of their
/// state modulo 64, so that an event of a port need not look at every slot. A chain is a ring, doubly linked by slot
/// numbers, that begins and ends at an entry of its own after the slots. A chain has two flags. A flag that is clear says
/// that none of its conversations is Wanted, or Flushing; then no call walks the chain in search of one. A flag that is set
/// says that one may be: a walk in search of a Wanted one that finds none on its port works both out anew.
#[derive(Drop)]
pub(crate) struct Slots {
    /// How many slots there are.
    count: u32,
    /// The state of each slot.
    states: Vec<Assignment>,
    /// For each slot, and then for the end of each chain: what comes next in the ring.
    next: Vec<u32>,
    /// For each slot, and then for the end of each chain: what comes before it in the ring.
    prev: Vec<u32>,
    /// For each chain, whether one of its conversations may be Wanted.
    may_want: Vec<bool>,
    /// For each chain, whether one of its conversations may be Flushing.
    may_flush: Vec<bool>,
}

/// Which conversations are counted.
#[derive(Clone, Copy, Debug)]
pub(crate) enum ConversationTest {
    /// Conversations that wait for a marker to be sent on this port.
    WantsMarker(u16),
    /// Conversations that wait for the response to this marker on this port.
    AwaitsResponse(u16, u32),
    /// Conversations that are On, Wanted or Flushing on this port.
    NamesPort(u16),
    /// Conversations that are Wanted or Flushing on this port.
    HeldOn(u16),
}

impl ConversationTest {
    /// Whether a conversation in this state is counted.
    fn passes(&self, state: Assignment) -> bool
        ensures { result ≡ passes self.now state }
    {
        match *self {
            ConversationTest::WantsMarker(port) => state.wants_marker(port),
            ConversationTest::AwaitsResponse(port, id) => state.awaits_response(port, id),
            ConversationTest::NamesPort(port) => state.names_port(port),
            ConversationTest::HeldOn(port) => state.is_held_on(port),
        }
    }

    /// The chain of the port that the test names, 0 to 63.
    fn chain(&self) -> u32
        ensures chain { result ≡ chain_of (tested_port self.now) }
        ensures below { result < 64 }
    {
        match *self {
            ConversationTest::WantsMarker(port)
            | ConversationTest::AwaitsResponse(port, _)
            | ConversationTest::NamesPort(port)
            | ConversationTest::HeldOn(port) => chain(port),
        }
    }
}

impl Slots {
    /// Makes this many slots, all free.
    pub(crate) fn new(alloc: Global, count: u32) -> Result<Slots, AllocError>
        requires few { count + 64 < 2 ^ 32 }
        ensures chained { IfOk result (λ s. AreChained s) }
        ensures flagged { IfOk result (λ s. AreFlagged s) }
        ensures states { IfOk result (λ s. s.states.items ≡ replicate count (Assignment.Free None)) }
        ensures count { IfOk result (λ s. s.count ≡ count) }
    {
        let places = count + CHAINS;
        let states = vec![in alloc; Assignment::Free { preferred: None }; count as usize]?;
        let mut next = vec![in alloc; 0; places as usize]?;
        let mut prev = vec![in alloc; 0; places as usize]?;
        let may_want = vec![in alloc; false; CHAINS as usize]?;
        let may_flush = vec![in alloc; false; CHAINS as usize]?;
        close(&mut next, count, places);
        close(&mut prev, count, places);
        Ok(Slots {
            count,
            states,
            next,
            prev,
            may_want,
            may_flush,
        })
    }

    /// The state of the conversation in a slot.
    pub(crate) fn state(&self, slot: u32) -> Assignment
        requires chained { AreChained self.now }
        requires inside { slot < self.now.count }
        ensures { result ≡ slot_state self.now.states.items slot }
    {
        self.states[slot as usize]
    }

    /// Gives a slot a state that is not Flushing, and puts it into the chain of that state.
    pub(crate) fn set(&mut self, slot: u32, state: Assignment)
        requires chained { AreChained self.old }
        requires flagged { AreFlagged self.old }
        requires inside { slot < self.old.count }
        requires still { is_flushing state ≡ false }
        ensures chained { AreChained self.new }
        ensures flagged { AreFlagged self.new }
        ensures states { self.new.states.items ≡ set self.old.states.items slot state }
        ensures count { self.new.count ≡ self.old.count }
    {
        flag_wanted(&mut self.may_want, state);
        self.vacate(slot);
        self.fill(slot, state);
    }

    /// Whether the flags allow a conversation that the test counts.
    fn may_pass(&self, test: ConversationTest) -> bool
        requires flagged { AreFlagged self.now }
        ensures { OnFalse result ((k : ℕ) → passes test (slot_state self.now.states.items k) ≡ false) }
    {
        match test {
            ConversationTest::WantsMarker(port) => self.may_want[chain(port) as usize],
            ConversationTest::AwaitsResponse(port, _) => self.may_flush[chain(port) as usize],
            ConversationTest::HeldOn(port) => {
                let chain = chain(port);
                self.may_want[chain as usize] || self.may_flush[chain as usize]
            }
            ConversationTest::NamesPort(_) => true,
        }
    }

    /// Whether the flags allow a conversation in this chain that the change changes.
    fn may_change(&self, chain: u32, change: Change) -> bool
        requires flagged { AreFlagged self.now }
        requires below { chain < 64 }
        ensures { OnFalse result (self.now.states.items ≡ map (changed_in_chain chain (after_change change)) self.now.states.items) }
    {
        match change {
            Change::Release(..) => self.may_flush[chain as usize],
            Change::Leave(_) | Change::Mark(..) | Change::Down(_) | Change::Tick => true,
        }
    }

    /// Applies a change to each slot in the chain of this port. It stands in each caller, as does the walk: there it is known which
    /// change it is, and the walk need not ask at each slot.
    #[inline(always)]
    pub(crate) fn change(&mut self, port: u16, change: Change)
        requires chained { AreChained self.old }
        requires flagged { AreFlagged self.old }
        ensures chained { AreChained self.new }
        ensures flagged { AreFlagged self.new }
        ensures states { self.new.states.items ≡ map (changed_in_chain (chain_of port) (after_change change)) self.old.states.items }
        ensures count { self.new.count ≡ self.old.count }
    {
        let chain = chain(port);
        if self.may_change(chain, change) {
            self.change_chain(chain, change);
        }
    }

    /// Applies a change to each slot in this chain, and works out the flags of the chain again.
    #[inline(always)]
    fn change_chain(&mut self, chain: u32, change: Change)
        requires chained { AreChained self.old }
        requires flagged { AreFlagged self.old }
        requires below { chain < 64 }
        ensures chained { AreChained self.new }
        ensures flagged { AreFlagged self.new }
        ensures states { self.new.states.items ≡ map (changed_in_chain chain (after_change change)) self.old.states.items }
        ensures count { self.new.count ≡ self.old.count }
    {
        let end = self.count + chain;
        let mut at = self.next[end as usize];
        let mut wanted = false;
        let mut flushing = false;
        while at != end {
            let slot = at;
            at = self.next[slot as usize];
            let state = change.apply(self.states[slot as usize]);
            wanted |= state.is_wanted();
            flushing |= state.is_flushing();
            match state.port() {
                None => {
                    take_from_ring(&mut self.next, &mut self.prev, slot);
                    self.states[slot as usize] = state;
                }
                Some(_) => self.states[slot as usize] = state,
            }
        }
        self.may_want[chain as usize] = wanted;
        self.may_flush[chain as usize] = flushing;
    }

    /// How many conversations the test counts.
    pub(crate) fn count(&self, test: ConversationTest) -> u32
        requires chained { AreChained self.now }
        requires flagged { AreFlagged self.now }
        ensures { result ≡ sum_below (λ k. cond (passes test (slot_state self.now.states.items k)) 1 0) self.now.count }
    {
        if self.may_pass(test) {
            self.count_chain(test)
        } else {
            0
        }
    }

    /// How many conversations the test counts, by a walk along the chain of the test, whatever its flags are.
    fn count_chain(&self, test: ConversationTest) -> u32
        requires chained { AreChained self.now }
        ensures { result ≡ sum_below (λ k. cond (passes test (slot_state self.now.states.items k)) 1 0) self.now.count }
    {
        let end = self.count + test.chain();
        let mut at = self.next[end as usize];
        let mut count = 0;
        while at != end {
            let passes = test.passes(self.states[at as usize]);
            count += u32::from(passes);
            at = self.next[at as usize];
        }
        count
    }

    /// Whether the test counts some conversation. The walk ends at the first; a conversation that was set last comes first.
    fn any_in_chain(&self, test: ConversationTest) -> bool
        requires chained { AreChained self.now }
        ensures { result ≡ nat_lt 0 (sum_below (λ k. cond (passes test (slot_state self.now.states.items k)) 1 0) self.now.count) }
    {
        let end = self.count + test.chain();
        let mut at = self.next[end as usize];
        while at != end {
            if test.passes(self.states[at as usize]) {
                return true;
            }
            at = self.next[at as usize];
        }
        false
    }

    /// Whether some conversation is Wanted on this port. A walk that finds none works out the flags of the chain again.
    pub(crate) fn find_wanted(&mut self, port: u16) -> bool
        requires chained { AreChained self.old }
        requires flagged { AreFlagged self.old }
        ensures found { result ≡ nat_lt 0 (sum_below (λ k. cond (wants_marker port (slot_state self.old.states.items k)) 1 0) self.old.count) }
        ensures chained { AreChained self.new }
        ensures flagged { AreFlagged self.new }
        ensures states { self.new.states.items ≡ self.old.states.items }
        ensures count { self.new.count ≡ self.old.count }
    {
        let test = ConversationTest::WantsMarker(port);
        if !self.may_pass(test) {
            return false;
        }
        if self.any_in_chain(test) {
            return true;
        }
        // No conversation is Wanted on the port, so this changes no state.
        self.change_chain(chain(port), Change::Mark(port, 0));
        false
    }

    /// One tick for each conversation in this chain. Not inlined, so that the loop of `tick_flagged_chains` is small.
    #[inline(never)]
    fn tick_chain(&mut self, chain: u32)
        requires chained { AreChained self.old }
        requires flagged { AreFlagged self.old }
        requires below { chain < 64 }
        ensures chained { AreChained self.new }
        ensures flagged { AreFlagged self.new }
        ensures states { self.new.states.items ≡ map (changed_in_chain chain after_tick) self.old.states.items }
        ensures count { self.new.count ≡ self.old.count }
    {
        self.change_chain(chain, Change::Tick);
    }

    /// Whether the flag for Flushing of some chain is set. The contract says only what false means. The loop has no early exit,
    /// so that the compiler can read many flags at once.
    fn any_may_flush(&self) -> bool
        requires flagged { AreFlagged self.now }
        ensures { OnFalse result ((c : ℕ) → get_or self.now.may_flush.items c false ≡ false) }
    {
        let mut any = false;
        for chain in 0..CHAINS {
            any |= self.may_flush[chain as usize];
        }
        any
    }

    /// One tick for each conversation. Only chains with a flag for Flushing are read.
    pub(crate) fn tick(&mut self)
        requires chained { AreChained self.old }
        requires flagged { AreFlagged self.old }
        ensures chained { AreChained self.new }
        ensures flagged { AreFlagged self.new }
        ensures states { self.new.states.items ≡ map after_tick self.old.states.items }
        ensures count { self.new.count ≡ self.old.count }
    {
        if self.any_may_flush() {
            self.tick_flagged_chains();
        }
    }

    /// One tick for each conversation, by a walk along each chain whose flag for Flushing is set.
    fn tick_flagged_chains(&mut self)
        requires chained { AreChained self.old }
        requires flagged { AreFlagged self.old }
        ensures chained { AreChained self.new }
        ensures flagged { AreFlagged self.new }
        ensures states { self.new.states.items ≡ map after_tick self.old.states.items }
        ensures count { self.new.count ≡ self.old.count }
    {
        for chain in 0..CHAINS {
            if self.may_flush[chain as usize] {
                self.tick_chain(chain);
            }
        }
    }

    /// Makes every slot free, and clears all flags.
    pub(crate) fn clear(&mut self)
        requires chained { AreChained self.old }
        requires flagged { AreFlagged self.old }
        ensures chained { AreChained self.new }
        ensures flagged { AreFlagged self.new }
        ensures states { self.new.states.items ≡ replicate self.old.count (Assignment.Free None) }
        ensures count { self.new.count ≡ self.old.count }
        ensures wanted { (c : ℕ) → c < 64 → get_or self.new.may_want.items c true ≡ false }
        ensures flushing { (c : ℕ) → c < 64 → get_or self.new.may_flush.items c true ≡ false }
    {
        let places = self.count + CHAINS;
        free_each(&mut self.states);
        close(&mut self.next, self.count, places);
        close(&mut self.prev, self.count, places);
        clear_flags(&mut self.may_want);
        clear_flags(&mut self.may_flush);
    }

    /// Makes a slot free, and takes it out of its chain.
    fn vacate(&mut self, slot: u32)
        requires chained { AreChained self.old }
        requires inside { slot < self.old.count }
        ensures chained { AreChained self.new }
        ensures states { self.new.states.items ≡ set self.old.states.items slot (Assignment.Free None) }
        ensures count { self.new.count ≡ self.old.count }
        ensures wanted { self.new.may_want ≡ self.old.may_want }
        ensures flushing { self.new.may_flush ≡ self.old.may_flush }
    {
        let free = Assignment::Free { preferred: None };
        let state = self.states[slot as usize];
        match state.port() {
            None => self.states[slot as usize] = free,
            Some(_) => {
                take_from_ring(&mut self.next, &mut self.prev, slot);
                self.states[slot as usize] = free;
            }
        }
    }

    /// Gives a free slot a state, and puts it into the chain of that state.
    fn fill(&mut self, slot: u32, state: Assignment)
        requires chained { AreChained self.old }
        requires inside { slot < self.old.count }
        requires free { assignment_port (slot_state self.old.states.items slot) ≡ None }
        ensures chained { AreChained self.new }
        ensures states { self.new.states.items ≡ set self.old.states.items slot state }
        ensures count { self.new.count ≡ self.old.count }
        ensures wanted { self.new.may_want ≡ self.old.may_want }
        ensures flushing { self.new.may_flush ≡ self.old.may_flush }
    {
        match state.port() {
            None => self.states[slot as usize] = state,
            Some(port) => {
                let end = self.count + chain(port);
                put_into_ring(&mut self.next, &mut self.prev, end, slot);
                self.states[slot as usize] = state;
            }
        }
    }
}

/// Makes each entry after the slots a ring of its own, so that every chain is empty. The links of slots, which are free then, are
/// in no ring, and stay as they are.
fn close(links: &mut Vec<u32>, count: u32, places: u32)
    requires { length links.old.items ≡ places }
    ensures len { length links.new.items ≡ places }
    ensures closed { (k : ℕ) → count ≤ k → k < places → get_or links.new.items k 0 ≡ k }
{
    for place in count..places {
        links[place as usize] = place;
    }
}

/// Makes each of these states free.
fn free_each(states: &mut Vec<Assignment>)
    ensures { states.new.items ≡ replicate (length states.old.items) (Assignment.Free None) }
{
    copy_free(states);
}

/// Makes each of these states free. They are copied in pieces: a copy writes whole words, and an assignment only the octets that a
/// free state has, by more stores.
fn copy_free(states: &mut [Assignment])
    ensures { states.new ≡ replicate (length states.old) (Assignment.Free None) }
{
    let mut at = 0;
    while at < states.len() {
        let piece = FREE.len().min(states.len() - at);
        states[at..at + piece].copy_from_slice(&FREE[..piece]);
        at += piece;
    }
}

/// Clears the flag of each chain.
fn clear_flags(flags: &mut Vec<bool>)
    requires { length flags.old.items ≡ 64 }
    ensures len { length flags.new.items ≡ 64 }
    ensures cleared { (c : ℕ) → c < 64 → get_or flags.new.items c true ≡ false }
{
    for chain in 0..CHAINS {
        flags[chain as usize] = false;
    }
}

/// Sets the flag of the chain of a state that is Wanted.
fn flag_wanted(wanted: &mut Vec<bool>, state: Assignment)
    requires { length wanted.old.items ≡ 64 }
    ensures len { length wanted.new.items ≡ 64 }
    ensures kept { (c : ℕ) → get_or wanted.old.items c false ≡ true → get_or wanted.new.items c false ≡ true }
    ensures set { (c : ℕ) → is_in_chain c state ≡ true → is_wanted state ≡ true → get_or wanted.new.items c false ≡ true }
{
    if let Assignment::Wanted { port, .. } = state {
        wanted[chain(port) as usize] = true;
    }
}

/// The number of a port's chain, 0 to 63.
fn chain(port: u16) -> u32
    ensures chain { result ≡ chain_of port }
    ensures below { result < 64 }
{
    u32::from(port) % CHAINS
}

/// Takes a slot out of the ring that it is in.
fn take_from_ring(next: &mut Vec<u32>, prev: &mut Vec<u32>, slot: u32)
    requires slot { slot < length next.old.items }
    requires same { length prev.old.items ≡ length next.old.items }
    requires after { get_or next.old.items slot 0 < length prev.old.items }
    requires before { get_or prev.old.items slot 0 < length next.old.items }
    ensures next { next.new.items ≡ set next.old.items (get_or prev.old.items slot 0) (get_or next.old.items slot 0) }
    ensures prev { prev.new.items ≡ set prev.old.items (get_or next.old.items slot 0) (get_or prev.old.items slot 0) }
{
    let after = next[slot as usize];
    let before = prev[slot as usize];
    next[before as usize] = after;
    prev[after as usize] = before;
}

/// Puts a slot that is in no ring into a ring, right after the ring's end.
fn put_into_ring(next: &mut Vec<u32>, prev: &mut Vec<u32>, end: u32, slot: u32)
    requires slot { slot < length next.old.items }
    requires end { end < length next.old.items }
    requires same { length prev.old.items ≡ length next.old.items }
    requires after { get_or next.old.items end 0 < length prev.old.items }
    ensures next { next.new.items ≡ set (set next.old.items slot (get_or next.old.items end 0)) end slot }
    ensures prev { prev.new.items ≡ set (set prev.old.items slot end) (get_or next.old.items end 0) slot }
{
    let after = next[end as usize];
    next[slot as usize] = after;
    next[end as usize] = slot;
    prev[slot as usize] = end;
    prev[after as usize] = slot;
}
