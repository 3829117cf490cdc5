//! Texts that are made of pieces, and the algorithm.
ghost use Rattle.std.specs.Prelude.{◌<◌};

use lagtypes::{decimal_u16, words_of};
use std::alloc::{AllocError, Global};

/// A text in hexadecimal, in words: digits, or a name that `digits_of` knows; `00*66` stands for 66 times 00.
pub(crate) type Words = &'static str;

/// A data frame of conversation 48.
pub(crate) const DATA: &str = "0200000000200200000000100800";

/// The digits that a word stands for.
fn digits_of(word: &str) -> &str {
    match word {
        "TO_ALL" => "0180c2000002",
        "FROM_1" => "020000000001",
        "FROM_2" => "020000000002",
        "SLOW" => "8809",
        // the first 44 octets of an LACPDU; the other 66 are zero
        "HEAD" => {
            "010101148000020000000001000100800001c700000002140000000000000000000000000000020000000310"
        }
        // the first 18 octets of a marker, and 16 of its response
        "MARKER" => "020101100001020000000001ffffffffbeef",
        "RESPONSE" => "020102100001020000000001ffffffff",
        "DATA" => DATA,
        _ => word,
    }
}

/// The text that the words make.
pub(crate) fn joined(alloc: Global, words: &str) -> Result<String, AllocError> {
    let mut text = String::new(alloc);
    let words = words_of(alloc, words)?;
    for word in &words {
        let (name, count) = word.split_once("*").unwrap_or((*word, "1"));
        for _ in 0..decimal_u16(count).unwrap_or(0) {
            text.push_str(digits_of(name))?;
        }
    }
    Ok(text)
}

/// One text of these.
pub(crate) fn one_text(alloc: Global, texts: &[&str]) -> Result<String, AllocError> {
    let mut one = String::new(alloc);
    for text in texts {
        one.push_str(*text)?;
    }
    Ok(one)
}

/// The algorithm of `lagtool`. A function of another crate cannot be handed over itself.
pub(crate) fn by_number(conversation: u16, count: usize) -> usize
    ensures { 0 < count → result < count }
{
    distributor::by_number(conversation, count)
}
