ghost use Rattle.std.specs.Prelude.{◌≡◌, IfOk, map};
ghost use Rattle.lagtypes.specs.Words.{number_below, words_of};

use std::alloc::{AllocError, Global};

// promise: a text is cut into words at every single space
// contract: `words_of`
/// The words of a text, cut at each space: an empty word stands between two spaces, and an empty text is one empty word.
/// `AllocError` if memory for the list is refused.
pub fn words_of<'a>(alloc: Global, text: &'a str) -> Result<Vec<&'a str>, AllocError>
    ensures { IfOk result (λ words. map (λ w. w.now) words.items ≡ words_of text.now) }
{
    let mut words = Vec::new(alloc);
    for word in text.split(' ') {
        words.push(word)?;
    }
    Ok(words)
}

// promise: decimal digits have their value up to 65,535 or 4,294,967,295, with leading zeros; any other word has none
// contract: `decimal_u16`, `decimal_u32` (`number_below`)
/// The value of a word of decimal digits, 0 to 65535; leading zeros are allowed. None for any other word: one that is empty,
/// signed or too large.
pub fn decimal_u16(word: &str) -> Option<u16>
    ensures { result ≡ number_below 65536 word.now }
{
    // `parse` would accept a plus sign too.
    if word.starts_with('+') {
        return None;
    }
    word.parse().ok()
}

/// The value of a word of decimal digits, 0 to 4294967295; leading zeros are allowed. None for any other word: one that is
/// empty, signed or too large.
pub fn decimal_u32(word: &str) -> Option<u32>
    ensures { result ≡ number_below 4294967296 word.now }
{
    if word.starts_with('+') {
        return None;
    }
    word.parse().ok()
}
