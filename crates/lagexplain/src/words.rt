ghost use Rattle.std.specs.Prelude.{◌≡◌, IfOk, map, slice_get};
ghost use Rattle.lagexplain.specs.Entries.{first_wrong, is_wrong, is_wrong_at};

use hex::FromHexError;
use lagscript::WordKind;
use lagtypes::decimal_u16;
use std::alloc::{AllocError, Global};

/// Whether the word is none of its kind, in a script with this many cables.
fn is_wrong(alloc: Global, cables: usize, kind: WordKind, word: &str) -> Result<bool, AllocError>
    ensures { IfOk result (λ wrong. wrong ≡ is_wrong cables kind word.now) }
{
    let number = decimal_u16(word);
    match kind {
        WordKind::System => Ok(number != Some(1) && number != Some(2)),
        WordKind::Ticks => Ok(number.is_none() || number == Some(0)),
        WordKind::Cable => match number {
            Some(n) => Ok(n < 1 || n as usize > cables),
            None => Ok(true),
        },
        WordKind::Number => Ok(number.is_none()),
        WordKind::Aggregation => Ok(word != "aggregatable" && word != "individual"),
        WordKind::Octets => match hex::decode(alloc, word) {
            Ok(_) => Ok(false),
            Err(FromHexError::OutOfMemory) => Err(AllocError),
            Err(_) => Ok(true),
        },
    }
}

/// Whether the word at this place, from 0, is none of the kind that stands there.
fn is_wrong_at(
    alloc: Global,
    cables: usize,
    kinds: &[WordKind],
    place: usize,
    word: &str,
) -> Result<bool, AllocError>
    ensures { IfOk result (λ wrong. wrong ≡ is_wrong_at cables (slice_get kinds.now place) word.now) }
{
    match kinds.get(place) {
        Some(kind) => is_wrong(alloc, cables, *kind, word),
        None => Ok(false),
    }
}

/// The place, from 0, of the first of these words that is none of its kind.
pub(crate) fn first_wrong(
    alloc: Global,
    cables: usize,
    kinds: &[WordKind],
    words: &[&str],
) -> Result<Option<usize>, AllocError>
    ensures { IfOk result (λ place. place ≡ first_wrong cables kinds.now 0 (map (λ w. w.now) words.now)) }
{
    let mut place = 0;
    for word in words {
        if is_wrong_at(alloc, cables, kinds, place, *word)? {
            return Ok(Some(place));
        }
        place += 1;
    }
    Ok(None)
}
