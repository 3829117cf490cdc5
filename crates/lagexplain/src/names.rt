ghost use Rattle.std.specs.Prelude.{◌≡◌, IfOk, map, option_map};
ghost use Rattle.lagexplain.specs.Nearest.{FindsNearest, edits_between};

use std::alloc::{AllocError, Global};
use strsim::osa_distance;

/// Fewer edits than these lead from a word to the name that was meant.
const TOO_MANY_EDITS: usize = 3;

/// The most octets of a word that is compared with names.
const LONGEST_WORD: usize = 40;

/// How many edits lead from a word to a name.
fn edits_between(alloc: Global, word: &str, name: &str) -> Result<usize, AllocError>
    ensures { IfOk result (λ edits. edits ≡ edits_between word.now name.now) }
{
    osa_distance(alloc, word, name)
}

// promise: the suggested name is one of the known ones with the fewest edits, two at most, the first of these; none only if each needs
//    more, or the word has over 40 octets
// contract: `nearest` (`FindsNearest`)
/// The first of the names that are nearest to a word of at most 40 octets, if at most two edits lead there. `AllocError` if memory
/// is refused.
pub(crate) fn nearest<'a>(
    alloc: Global,
    word: &str,
    names: &[&'a str],
) -> Result<Option<&'a str>, AllocError>
    ensures { IfOk result (λ found. FindsNearest word.now (map (λ n. n.now) names.now) (option_map (λ n. n.now) found)) }
{
    let mut found = None;
    if word.len() > LONGEST_WORD {
        return Ok(found);
    }
    let mut fewest = TOO_MANY_EDITS;
    for name in names {
        let edits = edits_between(alloc, word, *name)?;
        if edits < fewest {
            fewest = edits;
            found = Some(*name);
        }
    }
    Ok(found)
}

/// Whether the name is one of these.
pub(crate) fn is_among(known: &[&str], name: &str) -> bool {
    known.contains(&name)
}

/// Adds a text in quotes, with its control characters escaped; of a long one only a beginning.
pub(crate) fn quote(out: &mut String, text: &str) -> Result<(), AllocError> {
    match text.char_indices().nth(80) {
        Some((end, _)) => match text.get(..end) {
            Some(beginning) => write!(out, "{beginning:?}.."),
            None => Ok(()),
        },
        None => write!(out, "{text:?}"),
    }
}

/// Adds names, with commas between them.
pub(crate) fn list(out: &mut String, names: &[&str]) -> Result<(), AllocError> {
    let mut is_first = true;
    for name in names {
        if !is_first {
            out.push_str(", ")?;
        }
        is_first = false;
        out.push_str(*name)?;
    }
    Ok(())
}
