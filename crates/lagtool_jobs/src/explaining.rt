//! The second lines of standard error, which `--explain` asks for, each without `lagtool: ` before it (profile).
ghost use Rattle.std.specs.Prelude.{◌≡◌, ◌<◌, ◌^◌, IfOk, length, string_bytes, take_while};
ghost use Rattle.std.specs.Io.{StartsWith};
ghost use Rattle.std.specs.IoError.{error_kind};
ghost use Rattle.lagtool_jobs.specs.Explained.{SaysError, SaysFault, SaysUnread, character_text, count_text, digits_first, is_digit, name_of, utf8_text};

use lagexplain::{explain, place_of};
use lagworld::ScriptFault;
use std::alloc::{AllocError, Global};
use std::fs::{File, Files};
use std::io::ErrorKind;
use std::{fs, io};

/// What a file is called: its word of the command line, or standard input for `-`.
fn name_of(file: &str) -> &str
    ensures { result.now ≡ name_of file.now }
{
    if file == "-" { "standard input" } else { file }
}

/// What the error is that a file cannot be opened for.
fn error_text(alloc: Global, error: &io::Error) -> Result<String, AllocError>
    ensures { IfOk result (λ text. SaysError (error_kind error.now) (string_bytes text)) }
{
    match error.kind() {
        ErrorKind::NotFound => String::from_str(alloc, "no such file"),
        ErrorKind::PermissionDenied => String::from_str(alloc, "permission denied"),
        ErrorKind::IsADirectory => String::from_str(alloc, "is a folder"),
        _ => format!(in alloc; "{error}"),
    }
}

/// Why a file cannot be read, which is asked of these files anew.
fn why_unread(alloc: Global, files: &impl Files, file: &str) -> Result<String, AllocError> {
    match fs::metadata(files, file) {
        Ok(found) if found.is_dir() => String::from_str(alloc, "is a folder"),
        _ => match File::open(files, file) {
            Ok(_) => String::from_str(alloc, "reading failed"),
            Err(error) => error_text(alloc, &error),
        },
    }
}

/// Says why a file, or standard input for `-`, cannot be read: behind its name that it is not there, a folder or not to be opened,
/// which is asked of these files anew, or that reading failed. `AllocError` if memory is refused (profile).
pub fn unread_text(alloc: Global, files: &impl Files, file: &str) -> Result<String, AllocError>
    ensures { IfOk result (λ text. SaysUnread file.now (string_bytes text)) }
{
    if file == "-" {
        return String::from_str(alloc, "standard input: reading failed");
    }
    let why = why_unread(alloc, files, file)?;
    format!(in alloc; "{file}: {why}")
}

/// Says where the octets of a file are no UTF-8, behind those that are. `AllocError` if memory is refused (profile).
pub fn utf8_text(alloc: Global, file: &str, before: &[u8]) -> Result<String, AllocError>
    ensures { length before.now < 2 ^ 32 → IfOk result (λ text. string_bytes text ≡ utf8_text file.now before.now) }
{
    let place = place_of(before);
    format!(in alloc;
        "{}:{}:{}: octet {} is not UTF-8",
        name_of(file),
        place.line,
        place.column,
        before.len().saturating_add(1)
    )
}

// promise: the second line about a script, octets that are no UTF-8, a word or a file is exact, but for the character that is no digit and
//    the cause of a file
// contract: `script_text`, `utf8_text`, `digits_text` (`count`, `character`), `unread_text`, `error_text` (`Explained`)
// not said: texts of 2^32 octets or more; that it is printed
/// Says what is wrong with a text that `read_plan` refuses for this fault, behind the name of its file. `AllocError` if memory is
/// refused (profile).
pub fn script_text(
    alloc: Global,
    file: &str,
    text: &str,
    fault: ScriptFault,
) -> Result<String, AllocError>
    ensures { length text.now < 2 ^ 32 → IfOk result (λ said. SaysFault file.now text.now fault (string_bytes said)) }
{
    let why = explain(alloc, text, fault)?;
    format!(in alloc; "{}{why}", name_of(file))
}

/// Whether an octet is a hexadecimal digit.
fn is_digit(octet: u8) -> bool
    ensures { result ≡ is_digit octet }
{
    octet.is_ascii_hexdigit()
}

/// How many hexadecimal digits stand before the first other octet.
fn digits_first(word: &[u8]) -> usize
    ensures { result ≡ digits_first word.now }
{
    word.iter().take_while(|octet| is_digit(**octet)).count()
}

/// Says which character of a word, from 1, is no hexadecimal digit; of a word of digits alone, how many there are, and what count
/// is wanted. `AllocError` if memory is refused (profile).
pub fn digits_text(
    alloc: Global,
    name: &str,
    word: &str,
    wanted: &str,
) -> Result<String, AllocError>
    ensures count { digits_first word.now ≡ length word.now → IfOk result (λ text. string_bytes text ≡ count_text name.now (length word.now) wanted.now) }
    ensures character { digits_first word.now < length word.now → IfOk result (λ text. StartsWith (string_bytes text) (character_text name.now (digits_first word.now))) }
{
    let digits = digits_first(word.as_bytes());
    if digits >= word.len() {
        return format!(in alloc; "{name}: {digits} hexadecimal digits: wanted {wanted}");
    }
    let other = word.chars().nth(digits).unwrap_or('?');
    let said = format!(in alloc; "{other:?} is no hexadecimal digit")?;
    format!(in alloc; "{name}: character {} {said}", digits.saturating_add(1))
}
