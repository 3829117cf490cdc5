ghost use Rattle.std.specs.Prelude.{◌≡◌, ◌∷◌, [], ℕ, IfSome, codes, false, length, map, option_map, take};
ghost use Rattle.std.specs.Str.{bytes_eq};
ghost use Rattle.lagscript.specs.Entries.{aggregation_word, cable_word, event_in, event_named, event_result_value, kinds_named};
ghost use Rattle.lagscript.specs.Entries.{kinds_of_form, number_word, system_word, ticks_word};
ghost use Rattle.lagscript.specs.Results.{ReadsEntryAs};
ghost use Rattle.lagscript.specs.declared.entries.EntryError.TheVariants.{Fault, NoMemory as Spent};
ghost use Rattle.lagscript.specs.declared.forms.WordKind.TheVariants.{Number};

use crate::event::Event;
use crate::fault::EntryFault;
use crate::forms::{Form, WordKind};
use crate::words::{NoOctets, octets_of};
use lagsystem::PortChange;
use lagtypes::{AggId, Key, decimal_u16, words_of};
use std::alloc::{AllocError, Global};

/// Why an entry cannot be read as an event.
#[derive(Clone, Copy, Debug, PartialEq, Eq)]
pub enum EntryError {
    /// The entry is no event, with this fault.
    Fault(EntryFault),
    /// Memory was refused.
    NoMemory,
}

impl From<EntryFault> for EntryError {
    ghost from_gives = { λ fault e. e ≡ Fault fault };

    fn from(fault: EntryFault) -> EntryError {
        EntryError::Fault(fault)
    }
}

impl From<AllocError> for EntryError {
    ghost from_gives = { λ _ e. e ≡ Spent };

    fn from(_e: AllocError) -> EntryError {
        EntryError::NoMemory
    }
}

/// The names of the events, as the entries of a script begin with them (profile).
pub const NAMES: [&str; 13] = [
    "tick",
    "emit",
    "deliver",
    "lose",
    "repeat",
    "cut",
    "join",
    "sense",
    "restart",
    "configure",
    "offer",
    "move",
    "force",
];

/// The form of an event whose last words are numbers.
fn with_numbers(text: &'static str, count: usize, first: WordKind, second: WordKind) -> Form
    ensures kinds { kinds_of_form result ≡ take count (first ∷ second ∷ Number ∷ Number ∷ Number ∷ []) }
    ensures count { result.count ≡ count }
{
    Form {
        text,
        count,
        kinds: [
            first,
            second,
            WordKind::Number,
            WordKind::Number,
            WordKind::Number,
        ],
    }
}

/// The form of the entries of the event with this name; None if no event has it.
pub fn form_of(name: &str) -> Option<Form>
    ensures kinds { option_map kinds_of_form result ≡ kinds_named name.now }
    ensures count { IfSome result (λ form. form.count ≡ length (kinds_of_form form)) }
{
    let system = WordKind::System;
    let cable = WordKind::Cable;
    let number = WordKind::Number;
    match name {
        "tick" => Some(with_numbers("tick S N", 2, system, WordKind::Ticks)),
        "emit" => Some(with_numbers("emit S PORT", 2, system, number)),
        "deliver" => Some(with_numbers("deliver C S", 2, cable, system)),
        "lose" => Some(with_numbers("lose C S", 2, cable, system)),
        "repeat" => Some(with_numbers("repeat C S", 2, cable, system)),
        "cut" => Some(with_numbers("cut C", 1, cable, number)),
        "join" => Some(with_numbers("join C", 1, cable, number)),
        "sense" => Some(with_numbers("sense C S", 2, cable, system)),
        "restart" => Some(with_numbers("restart S", 1, system, number)),
        "configure" => Some(Form {
            text: "configure S PORT KEY PRIORITY KIND",
            count: 5,
            kinds: [system, number, number, number, WordKind::Aggregation],
        }),
        "offer" => Some(Form {
            text: "offer S AGG HEX",
            count: 3,
            kinds: [system, number, WordKind::Octets, number, number],
        }),
        "move" => Some(with_numbers("move S AGG CONV PORT", 4, system, number)),
        "force" => Some(with_numbers("force S AGG CONV", 3, system, number)),
        _ => None,
    }
}

/// Reads a number from 0 to 65535.
fn number(word: &str) -> Result<u16, EntryFault>
    ensures { result ≡ number_word word.now }
{
    decimal_u16(word).ok_or(EntryFault::Number)
}

/// Reads a system, 1 or 2.
fn system(word: &str) -> Result<u8, EntryFault>
    ensures { result ≡ system_word word.now }
{
    match decimal_u16(word) {
        None => Err(EntryFault::Number),
        Some(1) => Ok(1),
        Some(2) => Ok(2),
        Some(_) => Err(EntryFault::System),
    }
}

/// Reads the number of a cable; there are this many.
fn cable(cables: usize, word: &str) -> Result<u16, EntryFault>
    ensures { result ≡ cable_word cables word.now }
{
    match decimal_u16(word) {
        None => Err(EntryFault::Number),
        Some(n) => {
            if n >= 1 && n as usize <= cables {
                Ok(n)
            } else {
                Err(EntryFault::Cable)
            }
        }
    }
}

/// Reads a number of ticks, 1 to 65535.
fn ticks(word: &str) -> Result<u16, EntryFault>
    ensures { result ≡ ticks_word word.now }
{
    match decimal_u16(word) {
        None | Some(0) => Err(EntryFault::Number),
        Some(n) => Ok(n),
    }
}

/// Reads whether the link is aggregatable or individual.
fn aggregation(word: &str) -> Result<bool, EntryFault>
    ensures { result ≡ aggregation_word word.now }
{
    match word {
        "aggregatable" => Ok(true),
        "individual" => Ok(false),
        _ => Err(EntryFault::Kind),
    }
}

/// Reads the words of `tick`: a system and a number of ticks.
fn tick(words: &[&str]) -> Result<Event, EntryFault>
    ensures { (cables : ℕ) → event_result_value result ≡ event_named cables (codes "tick") (map (λ w. w.now) words.now) }
{
    match words {
        [s, n] => Ok(Event::Tick(system(s)?, ticks(n)?)),
        _ => Err(EntryFault::Count),
    }
}

/// Reads the words of `emit`: a system and a port.
fn emit(words: &[&str]) -> Result<Event, EntryFault>
    ensures { (cables : ℕ) → event_result_value result ≡ event_named cables (codes "emit") (map (λ w. w.now) words.now) }
{
    match words {
        [s, port] => Ok(Event::Emit(system(s)?, number(port)?)),
        _ => Err(EntryFault::Count),
    }
}

/// Reads the words of `deliver`: a cable and the system that receives.
fn deliver(cables: usize, words: &[&str]) -> Result<Event, EntryFault>
    ensures { event_result_value result ≡ event_named cables (codes "deliver") (map (λ w. w.now) words.now) }
{
    match words {
        [c, s] => Ok(Event::Deliver(cable(cables, c)?, system(s)?)),
        _ => Err(EntryFault::Count),
    }
}

/// Reads the words of `lose`: a cable and the system towards which an item is lost.
fn lose(cables: usize, words: &[&str]) -> Result<Event, EntryFault>
    ensures { event_result_value result ≡ event_named cables (codes "lose") (map (λ w. w.now) words.now) }
{
    match words {
        [c, s] => Ok(Event::Lose(cable(cables, c)?, system(s)?)),
        _ => Err(EntryFault::Count),
    }
}

/// Reads the words of `repeat`: a cable and the system that receives.
fn repeat(cables: usize, words: &[&str]) -> Result<Event, EntryFault>
    ensures { event_result_value result ≡ event_named cables (codes "repeat") (map (λ w. w.now) words.now) }
{
    match words {
        [c, s] => Ok(Event::Repeat(cable(cables, c)?, system(s)?)),
        _ => Err(EntryFault::Count),
    }
}

/// Reads the word of `cut`: a cable.
fn cut(cables: usize, words: &[&str]) -> Result<Event, EntryFault>
    ensures { event_result_value result ≡ event_named cables (codes "cut") (map (λ w. w.now) words.now) }
{
    match words {
        [c] => Ok(Event::Cut(cable(cables, c)?)),
        _ => Err(EntryFault::Count),
    }
}

/// Reads the word of `join`: a cable.
fn join(cables: usize, words: &[&str]) -> Result<Event, EntryFault>
    ensures { event_result_value result ≡ event_named cables (codes "join") (map (λ w. w.now) words.now) }
{
    match words {
        [c] => Ok(Event::Join(cable(cables, c)?)),
        _ => Err(EntryFault::Count),
    }
}

/// Reads the words of `sense`: a cable and a system.
fn sense(cables: usize, words: &[&str]) -> Result<Event, EntryFault>
    ensures { event_result_value result ≡ event_named cables (codes "sense") (map (λ w. w.now) words.now) }
{
    match words {
        [c, s] => Ok(Event::Sense(cable(cables, c)?, system(s)?)),
        _ => Err(EntryFault::Count),
    }
}

/// Reads the word of `restart`: a system.
fn restart(words: &[&str]) -> Result<Event, EntryFault>
    ensures { (cables : ℕ) → event_result_value result ≡ event_named cables (codes "restart") (map (λ w. w.now) words.now) }
{
    match words {
        [s] => Ok(Event::Restart(system(s)?)),
        _ => Err(EntryFault::Count),
    }
}

/// Reads the words of `configure`: a system, a port, its key and priority, and `aggregatable` or `individual`.
fn configure(words: &[&str]) -> Result<Event, EntryFault>
    ensures { (cables : ℕ) → event_result_value result ≡ event_named cables (codes "configure") (map (λ w. w.now) words.now) }
{
    match words {
        [s, port, key, priority, aggregatable] => {
            let s = system(s)?;
            let port = number(port)?;
            let key = Key(number(key)?);
            let priority = number(priority)?;
            let aggregatable = aggregation(aggregatable)?;
            let change = PortChange {
                key,
                priority,
                aggregatable,
            };
            Ok(Event::Configure(s, port, change))
        }
        _ => Err(EntryFault::Count),
    }
}

/// Reads the words of `move`: a system, an aggregator, a conversation and a port.
fn move_to(words: &[&str]) -> Result<Event, EntryFault>
    ensures { (cables : ℕ) → event_result_value result ≡ event_named cables (codes "move") (map (λ w. w.now) words.now) }
{
    match words {
        [s, agg, conv, port] => {
            let s = system(s)?;
            let agg = AggId(number(agg)?);
            Ok(Event::Move(s, agg, number(conv)?, number(port)?))
        }
        _ => Err(EntryFault::Count),
    }
}

/// Reads the words of `force`: a system, an aggregator and a conversation.
fn force(words: &[&str]) -> Result<Event, EntryFault>
    ensures { (cables : ℕ) → event_result_value result ≡ event_named cables (codes "force") (map (λ w. w.now) words.now) }
{
    match words {
        [s, agg, conv] => Ok(Event::Force(system(s)?, AggId(number(agg)?), number(conv)?)),
        _ => Err(EntryFault::Count),
    }
}

/// Reads an event, by its first word, which is not `offer`, and the words after it.
fn frameless_event_named(cables: usize, name: &str, words: &[&str]) -> Result<Event, EntryFault>
    requires { bytes_eq name.now (codes "offer") ≡ false }
    ensures { event_result_value result ≡ event_named cables name.now (map (λ w. w.now) words.now) }
{
    match name {
        "tick" => tick(words),
        "emit" => emit(words),
        "deliver" => deliver(cables, words),
        "lose" => lose(cables, words),
        "repeat" => repeat(cables, words),
        "cut" => cut(cables, words),
        "join" => join(cables, words),
        "sense" => sense(cables, words),
        "restart" => restart(words),
        "configure" => configure(words),
        "move" => move_to(words),
        "force" => force(words),
        _ => Err(EntryFault::Word),
    }
}

/// Reads the words of `offer`: a system, an aggregator and a frame.
fn offer(alloc: Global, words: &[&str]) -> Result<Event, EntryError>
    ensures { (cables : ℕ) → ReadsEntryAs (event_named cables (codes "offer") (map (λ w. w.now) words.now)) result }
{
    match words {
        [s, agg, frame] => {
            let s = system(s)?;
            let agg = AggId(number(agg)?);
            match octets_of(alloc, frame) {
                Ok(octets) => Ok(Event::Offer(s, agg, octets)),
                Err(NoOctets::NotHex) => Err(EntryError::Fault(EntryFault::Hex)),
                Err(NoOctets::NoMemory) => Err(EntryError::NoMemory),
            }
        }
        _ => Err(EntryError::Fault(EntryFault::Count)),
    }
}

/// Reads an event, by its first word and the words after it.
fn event_named(
    alloc: Global,
    cables: usize,
    name: &str,
    words: &[&str],
) -> Result<Event, EntryError>
    ensures { ReadsEntryAs (event_named cables name.now (map (λ w. w.now) words.now)) result }
{
    if name == "offer" {
        return offer(alloc, words);
    }
    match frameless_event_named(cables, name, words) {
        Ok(event) => Ok(event),
        Err(fault) => Err(EntryError::Fault(fault)),
    }
}

/// Reads the event of an entry, in a script with this many cables.
pub(crate) fn event_in(alloc: Global, cables: usize, text: &str) -> Result<Event, EntryError>
    ensures { ReadsEntryAs (event_in cables text.now) result }
{
    let words = words_of(alloc, text)?;
    match words.as_slice() {
        [name, words @ ..] => event_named(alloc, cables, name, words),
        [] => Err(EntryError::Fault(EntryFault::Word)),
    }
}
