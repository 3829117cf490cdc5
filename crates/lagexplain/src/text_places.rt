ghost use Rattle.std.specs.Prelude.{◌≡◌, ◌+◌, ◌<◌, ◌^◌, length};
ghost use Rattle.lagexplain.specs.TextPlaces.{begins_character, characters_behind, column_behind, ends_line, line_behind, line_ends};

/// A place in a text.
#[derive(Clone, Copy, Debug, PartialEq, Eq)]
pub struct Place {
    /// The line, from 1.
    pub line: usize,
    /// The column in characters, from 1.
    pub column: usize,
}

/// Whether an octet ends a line.
fn ends_line(octet: u8) -> bool
    ensures { result ≡ ends_line octet }
{
    octet == b'\n'
}

/// Whether an octet of a text in UTF-8 is the first of a character.
fn begins_character(octet: u8) -> bool
    ensures { result ≡ begins_character octet }
{
    octet & 0xc0 != 0x80
}

/// How many lines end in these octets.
fn line_ends(before: &[u8]) -> usize
    ensures { result ≡ line_ends before.now }
{
    before.iter().filter(|octet| ends_line(**octet)).count()
}

/// How many characters begin behind the last line end in these octets of a text in UTF-8.
fn characters_behind(before: &[u8]) -> usize
    ensures { result ≡ characters_behind before.now }
{
    before
        .iter()
        .rev()
        .take_while(|octet| !ends_line(**octet))
        .filter(|octet| begins_character(**octet))
        .count()
}

// promise: a place is a line, one more than the line ends before it, and a column, one more than the characters since
// contract: `place_of` (`line`, `column`)
// not said: texts of 2^32 octets or more
/// The place right behind these octets of a text in UTF-8. One line end, or one character in the last line, leads one
/// further; above the largest `usize` there is no place (profile).
pub fn place_of(before: &[u8]) -> Place
    ensures line { length before.now < 2 ^ 32 → result.line ≡ line_behind before.now }
    ensures column { length before.now < 2 ^ 32 → result.column ≡ column_behind before.now }
{
    Place {
        line: line_ends(before).saturating_add(1),
        column: characters_behind(before).saturating_add(1),
    }
}
