ghost use Rattle.std.specs.Prelude.{◌≡◌, Some, None, IfOk, Err};
ghost use Rattle.lagscript.specs.declared.words.NoOctets.TheVariants.{NotHex};
ghost use Rattle.lagscript.specs.Words.{is_dashed, mac_of, octets_of};

use hex::{FromHex, FromHexError};
use std::alloc::Global;

/// Whether the text has 17 octets, with dashes where a MAC address has them.
fn is_dashed(text: &[u8]) -> bool
    ensures { result ≡ is_dashed text.now }
{
    text.len() == 17
        && text[2] == b'-'
        && text[5] == b'-'
        && text[8] == b'-'
        && text[11] == b'-'
        && text[14] == b'-'
}

/// The MAC address in a text of six hexadecimal numbers of two digits, joined by dashes.
pub(crate) fn mac_of(text: &str) -> Option<[u8; 6]>
    ensures { result ≡ mac_of text.now }
{
    let octets = text.as_bytes();
    if !is_dashed(octets) {
        return None;
    }
    let digits = [
        octets[0], octets[1], octets[3], octets[4], octets[6], octets[7], octets[9], octets[10],
        octets[12], octets[13], octets[15], octets[16],
    ];
    <[u8; 6] as FromHex>::from_hex(digits).ok()
}

/// Why the octets of a word cannot be read.
#[derive(Clone, Copy, Debug, PartialEq, Eq)]
pub enum NoOctets {
    /// The word is not hexadecimal.
    NotHex,
    /// Memory was refused.
    NoMemory,
}

/// The octets of a word in hexadecimal.
pub(crate) fn octets_of(alloc: Global, word: &str) -> Result<Vec<u8>, NoOctets>
    ensures ok { IfOk result (λ octets. octets_of word.now ≡ Some octets.items) }
    ensures err { result ≡ Err NotHex → octets_of word.now ≡ None }
{
    match hex::decode(alloc, word) {
        Ok(octets) => Ok(octets),
        Err(FromHexError::OutOfMemory) => Err(NoOctets::NoMemory),
        Err(_) => Err(NoOctets::NotHex),
    }
}
