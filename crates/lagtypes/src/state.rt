ghost use Rattle.std.specs.Prelude.{⊤, ◌≡◌, [], ◌∷◌, Some, codes, map, if◌then◌else◌};
ghost use Rattle.std.specs.Fmt.{DisplaysOnOk};
ghost use Rattle.std.specs.Int.RustNames.{bit_or};
ghost use Rattle.lagtypes.specs.States.{bits_of, state_from_bits, with_synchronization, with_timeout};
ghost use Rattle.lagtypes.specs.Texts.{joined_words, set_words, state_text};

use crate::identifiers::OctetText;
use bitflags::{Flag, Flags, bitflag_items};
use std::fmt;

/// The state octet of one end of a link (6.4.2.3, Actor_State).
#[derive(Clone, Copy, Debug, Default, PartialEq, Eq, PartialOrd, Ord, Hash)]
pub struct State(u8);

/// The eight bits of a state octet, from the least significant on (6.4.2.3).
#[derive(Clone, Copy, Debug, Default, PartialEq, Eq, Hash)]
pub struct StateBits {
    /// LACP_Activity: 1 active, 0 passive.
    pub activity: bool,
    /// LACP_Timeout: 1 Short Timeout, 0 Long Timeout.
    pub timeout: bool,
    /// Aggregation: 1 aggregatable, 0 Individual.
    pub aggregation: bool,
    /// Synchronization: 1 IN_SYNC, the end is in the right aggregator.
    pub synchronization: bool,
    /// Collecting: 1 if the end collects frames that come on the link.
    pub collecting: bool,
    /// Distributing: 1 if the end distributes frames to the link.
    pub distributing: bool,
    /// Defaulted: 1 if recordDefault set the end's partner, and no LACPDU since.
    pub defaulted: bool,
    /// Expired: 1 if the end's receive machine is in EXPIRED.
    pub expired: bool,
}

bitflag_items! {
    impl State: u8 {
        const ACTIVITY = 1;
        const TIMEOUT = 2;
        const AGGREGATION = 4;
        const SYNCHRONIZATION = 8;
        const COLLECTING = 16;
        const DISTRIBUTING = 32;
        const DEFAULTED = 64;
        const EXPIRED = 128;
    }
}

impl Flags for State {
    type Bits = u8;

    ghost exact = { ⊤ };

    ghost table = { (codes "ACTIVITY", 1) ∷ (codes "TIMEOUT", 2) ∷ (codes "AGGREGATION", 4) ∷ (codes "SYNCHRONIZATION", 8)
        ∷ (codes "COLLECTING", 16) ∷ (codes "DISTRIBUTING", 32) ∷ (codes "DEFAULTED", 64) ∷ (codes "EXPIRED", 128) ∷ [] };

    ghost set_of = { λ s. s.0 };

    fn flags<'a>() -> &'a [Flag<State>] {
        State::FLAGS
    }

    fn bits(&self) -> u8 {
        self.0
    }

    fn from_bits_retain(bits: u8) -> State {
        State(bits)
    }
}

impl From<StateBits> for State {
    ghost from_gives = { λ bits state. state ≡ state_from_bits bits };

    fn from(bits: StateBits) -> State {
        let mut state = State(0);
        state.insert_if(State::ACTIVITY, bits.activity);
        state.insert_if(State::TIMEOUT, bits.timeout);
        state.insert_if(State::AGGREGATION, bits.aggregation);
        state.insert_if(State::SYNCHRONIZATION, bits.synchronization);
        state.insert_if(State::COLLECTING, bits.collecting);
        state.insert_if(State::DISTRIBUTING, bits.distributing);
        state.insert_if(State::DEFAULTED, bits.defaulted);
        state.insert_if(State::EXPIRED, bits.expired);
        state
    }
}

impl State {
    /// Adds a bit if `on` is true.
    fn insert_if(&mut self, flag: State, on: bool)
        ensures { self.new.0 ≡ (if on then bit_or self.old.0 flag.0 else self.old.0) }
    {
        if on {
            self.insert(flag);
        }
    }

    /// The eight bits by name (6.4.2.3).
    pub fn named(self) -> StateBits
        ensures { result ≡ bits_of self }
    {
        StateBits {
            activity: self.is_active(),
            timeout: self.is_short(),
            aggregation: self.is_aggregatable(),
            synchronization: self.is_synchronized(),
            collecting: self.is_collecting(),
            distributing: self.is_distributing(),
            defaulted: self.is_defaulted(),
            expired: self.is_expired(),
        }
    }

    // promise: a reader of a state reads its bit; `with_synchronization`, `with_timeout` change that bit alone
    // contract: `is_active` and its siblings, `named`, `State::from`
    /// Whether LACP_Activity is 1: the end is active (6.4.2.3).
    pub fn is_active(self) -> bool
        ensures { result ≡ (bits_of self).activity }
    {
        self.contains(State::ACTIVITY)
    }

    /// Whether LACP_Timeout is 1: the end has Short Timeout (6.4.2.3).
    pub fn is_short(self) -> bool
        ensures { result ≡ (bits_of self).timeout }
    {
        self.contains(State::TIMEOUT)
    }

    /// Whether Aggregation is 1: the end is aggregatable, not Individual (6.4.2.3).
    pub fn is_aggregatable(self) -> bool
        ensures { result ≡ (bits_of self).aggregation }
    {
        self.contains(State::AGGREGATION)
    }

    /// Whether Synchronization is 1: the end is in the right aggregator (6.4.2.3).
    pub fn is_synchronized(self) -> bool
        ensures { result ≡ (bits_of self).synchronization }
    {
        self.contains(State::SYNCHRONIZATION)
    }

    /// Whether Collecting is 1 (6.4.2.3).
    pub fn is_collecting(self) -> bool
        ensures { result ≡ (bits_of self).collecting }
    {
        self.contains(State::COLLECTING)
    }

    /// Whether Distributing is 1 (6.4.2.3).
    pub fn is_distributing(self) -> bool
        ensures { result ≡ (bits_of self).distributing }
    {
        self.contains(State::DISTRIBUTING)
    }

    /// Whether Defaulted is 1: recordDefault set the end's partner, and no LACPDU since (6.4.2.3).
    pub fn is_defaulted(self) -> bool
        ensures { result ≡ (bits_of self).defaulted }
    {
        self.contains(State::DEFAULTED)
    }

    /// Whether Expired is 1: the end's receive machine is in EXPIRED (6.4.2.3).
    pub fn is_expired(self) -> bool
        ensures { result ≡ (bits_of self).expired }
    {
        self.contains(State::EXPIRED)
    }

    /// This state with Synchronization set to this value, and all other bits as they are (6.4.2.3).
    pub fn with_synchronization(self, on: bool) -> State
        ensures { result ≡ with_synchronization on self }
    {
        let mut bits = self.named();
        bits.synchronization = on;
        State::from(bits)
    }

    /// This state with LACP_Timeout set to this value, and all other bits as they are (6.4.2.3).
    pub fn with_timeout(self, on: bool) -> State
        ensures { result ≡ with_timeout on self }
    {
        let mut bits = self.named();
        bits.timeout = on;
        State::from(bits)
    }
}

/// The name of each bit.
const WORDS: [(State, &str); 8] = [
    (State::ACTIVITY, "active"),
    (State::TIMEOUT, "short"),
    (State::AGGREGATION, "aggregatable"),
    (State::SYNCHRONIZATION, "synchronized"),
    (State::COLLECTING, "collecting"),
    (State::DISTRIBUTING, "distributing"),
    (State::DEFAULTED, "defaulted"),
    (State::EXPIRED, "expired"),
];

/// Writes a word, with a comma before it if it is not the first.
fn write_word<W: fmt::Write>(f: &mut fmt::Formatter<W>, is_first: bool, word: &str) -> fmt::Result
    ensures { DisplaysOnOk W.write_str_gives f.old result (Some (if is_first then word.now else (44 ∷ word.now))) f.new }
{
    if !is_first {
        f.write_str(",")?;
    }
    f.write_str(word)
}

/// Writes the names of the bits that are 1, with commas between, or `none`.
fn write_words<W: fmt::Write>(
    f: &mut fmt::Formatter<W>,
    state: State,
    words: &[(State, &str)],
) -> fmt::Result
    ensures { DisplaysOnOk W.write_str_gives f.old result
        (Some (joined_words (set_words state.0 (map (λ w. (w.0.0, w.1.now)) words.now)))) f.new }
{
    let mut is_first = true;
    for (flag, word) in words {
        if state.contains(*flag) {
            write_word(f, is_first, word)?;
            is_first = false;
        }
    }
    if is_first {
        f.write_str("none")?;
    }
    Ok(())
}

impl fmt::Display for State {
    ghost output = { λ s. Some (state_text s.0) };

    /// Two lower-case hexadecimal digits, a space, and the names of the bits that are 1, lowest bit first, with commas
    /// between, or `none`.
    fn fmt<W: fmt::Write>(&self, f: &mut fmt::Formatter<W>) -> fmt::Result {
        write!(f, "{} ", OctetText(self.0))?;
        write_words(f, *self, &WORDS)
    }
}
