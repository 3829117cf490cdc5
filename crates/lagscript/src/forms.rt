/// What a word of an entry has to be.
#[derive(Clone, Copy, Debug, PartialEq, Eq)]
pub enum WordKind {
    /// The number of a system, 1 or 2.
    System,
    /// A number of ticks, 1 to 65535.
    Ticks,
    /// The number of a cable of the script, from 1.
    Cable,
    /// A number, 0 to 65535.
    Number,
    /// `aggregatable` or `individual`.
    Aggregation,
    /// The octets of a frame in hexadecimal.
    Octets,
}

/// How an entry of an event is written (profile).
#[derive(Clone, Copy, Debug, PartialEq, Eq)]
pub struct Form {
    /// The entry, with names in the place of its words.
    pub text: &'static str,
    /// How many words follow the name of the event, 1 to 5.
    pub count: usize,
    /// What these words have to be: `count` of these are read, the others are fillers.
    pub kinds: [WordKind; 5],
}
