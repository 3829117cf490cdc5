ghost use Rattle.std.specs.Prelude.{◌≡◌, ◌≤◌, length};
ghost use Rattle.lagtool.specs.Options.{count_options, has_option, is_option, options_in};

/// The options of the program, which stand before its subcommand (profile).
#[derive(Clone, Copy, Debug, PartialEq, Eq)]
pub struct Options {
    /// `--explain`: a second line on standard error says more of a fault.
    pub explain: bool,
    /// `--progress`: standard error shows how far `check` or `replay` is.
    pub progress: bool,
    /// `--all`: a line of `capture` has every field.
    pub all: bool,
    /// `--no-frames`: `capture` prints no line for a frame.
    pub no_frames: bool,
    /// `--json`: `capture` prints a record as JSON in each line.
    pub json: bool,
    /// How many words they are.
    pub count: usize,
}

/// Whether a word is an option.
fn is_option(word: &str) -> bool
    ensures { result ≡ is_option word.now }
{
    word == "--explain"
        || word == "--progress"
        || word == "--all"
        || word == "--no-frames"
        || word == "--json"
}

/// Whether one of these words is this option.
#[tactic(auto, unfolding(crate::specs::Options::has_option))]
fn has_option(words: &[String], name: &str) -> bool
    ensures { result ≡ has_option name.now words.now }
{
    for word in words {
        if word.as_str() == name {
            return true;
        }
    }
    false
}

/// How many of these words are options, up to the first that is none.
fn count_options(words: &[String]) -> usize
    ensures count { result ≡ count_options words.now }
    ensures few { result ≤ length words.now }
{
    let mut count = 0;
    for word in words {
        if !is_option(word.as_str()) {
            return count;
        }
        count += 1;
    }
    count
}

// promise: the options are the words before the first that is none; what they ask for, and how many
// contract: `read_options`
/// Reads the options of a command line, whose first word is the program's name. The words from place `count` on, with the
/// word at that place in the place of the name, are the command line without them (profile).
pub fn read_options(words: &[String]) -> Options
    ensures options { result ≡ options_in words.now }
    ensures few { result.count ≤ length words.now }
{
    let rest = if words.is_empty() { words } else { &words[1..] };
    let count = count_options(rest);
    let options = &rest[..count];
    Options {
        explain: has_option(options, "--explain"),
        progress: has_option(options, "--progress"),
        all: has_option(options, "--all"),
        no_frames: has_option(options, "--no-frames"),
        json: has_option(options, "--json"),
        count,
    }
}
