ghost use Rattle.std.specs.Prelude.{◌≡◌, option_and_then, option_map};
ghost use Rattle.toml.specs.Data.{as_str, at, get_member};
ghost use Rattle.toml.specs.View.{table_view, view};
ghost use Rattle.lagexplain.specs.Entries.{entry_at};

use crate::arrays::count_at;
use crate::names::{is_among, list, nearest, quote};
use crate::words::first_wrong;
use lagscript::{EntryFault, Form, NAMES, WordKind, form_of};
use lagtypes::words_of;
use std::alloc::{AllocError, Global};
use toml::{Table, Value};

/// The value of a key, if the table has it.
fn member<'a>(table: &'a Table, key: &str) -> Option<&'a Value>
    ensures { option_map (λ v. view v.now) result ≡ get_member key.now (table_view table.now) }
{
    table.get(key)
}

/// The text at this index of an array; None if there is none.
fn text_at(value: &Value, index: usize) -> Option<&str>
    ensures { option_map (λ s. s.now) result ≡ option_and_then as_str (at index (view value.now)) }
{
    match value.get(index) {
        Some(entry) => entry.as_str(),
        None => None,
    }
}

// promise: `entry_at` finds the entry at its place, `first_wrong` the first word that is not of its kind
// contract: `entry_at`, `first_wrong`
/// The text of the entry at this place, from 1; None if there is none.
pub(crate) fn entry_at<'a>(top: &'a Table, place: usize) -> Option<&'a str>
    ensures { option_map (λ s. s.now) result ≡ entry_at place (table_view top.now) }
{
    if place < 1 {
        return None;
    }
    match member(top, "events") {
        Some(value) => text_at(value, place - 1),
        None => None,
    }
}

/// Says that a first word names no event.
fn no_event(alloc: Global, out: &mut String, name: &str) -> Result<(), AllocError> {
    out.push_str("no event has this name; ")?;
    match nearest(alloc, name, &NAMES)? {
        Some(meant) => write!(out, "did you mean {meant}?")?,
        None => {
            out.push_str("the names are ")?;
            list(out, &NAMES)?;
        }
    }
    if name.is_empty() || name.contains('\t') {
        out.push_str("; words are separated by one space each")?;
    }
    Ok(())
}

/// Says that an event takes another number of words.
fn wrong_count(out: &mut String, form: &Form, words: &[&str]) -> Result<(), AllocError> {
    let given = words.len();
    let noun = if form.count == 1 { "word" } else { "words" };
    write!(
        out,
        "{} takes {} {noun} behind its name; {given} ",
        form.text, form.count
    )?;
    out.push_str(if given == 1 { "is there" } else { "are there" })?;
    if is_among(words, "") {
        out.push_str(", an empty one among them: words are separated by one space each")?;
    }
    Ok(())
}

/// Says what a word has to be, in a script with this many cables.
fn say_wanted(out: &mut String, kind: WordKind, cables: usize) -> Result<(), AllocError> {
    match kind {
        WordKind::System => out.push_str("a system, 1 or 2"),
        WordKind::Ticks => out.push_str("a number of ticks, 1 to 65535, in decimal digits"),
        WordKind::Number => out.push_str("a number, 0 to 65535, in decimal digits"),
        WordKind::Aggregation => out.push_str("aggregatable or individual"),
        WordKind::Octets => out.push_str("a frame in hexadecimal, two digits an octet"),
        WordKind::Cable if cables == 0 => out.push_str("a cable, and this script has none"),
        WordKind::Cable => write!(out, "a cable, 1 to {cables}"),
    }
}

/// Says which word is none of its kind.
fn wrong_word(
    alloc: Global,
    out: &mut String,
    form: &Form,
    cables: usize,
    words: &[&str],
) -> Result<(), AllocError> {
    let Some(place) = first_wrong(alloc, cables, &form.kinds, words)? else {
        return Ok(());
    };
    let (Some(word), Some(kind)) = (words.get(place), form.kinds.get(place)) else {
        return Ok(());
    };
    write!(out, "word {} ", place.saturating_add(2))?;
    quote(out, *word)?;
    out.push_str(": wanted is ")?;
    say_wanted(out, *kind, cables)?;
    write!(out, " ({})", form.text)
}

/// Says what is wrong with the words of an entry.
fn explain_words(
    alloc: Global,
    out: &mut String,
    cause: EntryFault,
    cables: usize,
    name: &str,
    words: &[&str],
) -> Result<(), AllocError> {
    let Some(form) = form_of(name) else {
        return no_event(alloc, out, name);
    };
    match cause {
        EntryFault::Word | EntryFault::Count => wrong_count(out, &form, words),
        _ => wrong_word(alloc, out, &form, cables, words),
    }
}

/// Says why the entry at this place, from 1, is no event.
pub(crate) fn explain_entry(
    alloc: Global,
    out: &mut String,
    top: &Table,
    place: usize,
    cause: EntryFault,
) -> Result<(), AllocError> {
    let Some(text) = entry_at(top, place) else {
        return out.push_str("is not there");
    };
    quote(out, text)?;
    out.push_str(": ")?;
    let words = words_of(alloc, text)?;
    match words.as_slice() {
        [name, words @ ..] => explain_words(
            alloc,
            out,
            cause,
            count_at(top, "cable"),
            *name,
            words,
        ),
        [] => Ok(()),
    }
}
