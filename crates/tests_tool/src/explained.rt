use crate::comparing::same_text;
use lagtool_jobs::{digits_text, script_text, unread_text, utf8_text};
use lagworld::{EntryFault, ScriptFault};
use std::alloc::Allocator;
use std::fs::{File, Files, Metadata, OpenOptions};
use std::io;
use std::io::ErrorKind;
use std::process::Abort;
use std::test::Fail;

/// Files that all fail with an error of this kind.
#[derive(Clone, Copy, Drop)]
struct Failing(ErrorKind);

impl Failing {
    fn error(&self) -> io::Error {
        io::Error::from(self.0)
    }
}

impl Files for Failing {
    type File = File;

    type Dir = File;

    fn open_file(&self, _how: &OpenOptions, _path: &str) -> io::Result<File> {
        Err(self.error())
    }

    fn open_dir(&self, _path: &str) -> io::Result<File> {
        Err(self.error())
    }

    fn metadata(&self, _path: &str) -> io::Result<Metadata> {
        Err(self.error())
    }

    fn symlink_metadata(&self, _path: &str) -> io::Result<Metadata> {
        Err(self.error())
    }

    fn copy(&self, _from: &str, _to: &str) -> io::Result<u64> {
        Err(self.error())
    }

    fn rename(&self, _from: &str, _to: &str) -> io::Result<()> {
        Err(self.error())
    }

    fn remove_file(&self, _path: &str) -> io::Result<()> {
        Err(self.error())
    }

    fn create_dir(&self, _path: &str) -> io::Result<()> {
        Err(self.error())
    }

    fn remove_dir(&self, _path: &str) -> io::Result<()> {
        Err(self.error())
    }

    fn remove_dir_all<B: Allocator>(&self, _alloc: B, _path: &str) -> io::Result<()> {
        Err(self.error())
    }
}

/// A file that cannot be read is explained so.
fn unread(
    rt: &(impl Abort + AllocGlobal),
    files: &impl Files,
    file: &str,
    text: &str,
) -> Result<(), Fail> {
    let said = unread_text(rt.alloc(), files, file)?;
    same_text(rt, file, said.as_str(), text);
    Ok(())
}

/// Errors, and what is said of a file.
const FAILURES: [(ErrorKind, &str); 3] = [
    (ErrorKind::NotFound, "a b: no such file"),
    (ErrorKind::PermissionDenied, "a b: permission denied"),
    (ErrorKind::IsADirectory, "a b: is a folder"),
];

/// Files, and why they cannot be read.
const UNREAD: [(&str, &str); 4] = [
    ("-", "standard input: reading failed"),
    ("/", "/: is a folder"),
    ("/dev/null", "/dev/null: reading failed"),
    ("/no/file", "/no/file: no such file"),
];

#[test]
fn files_that_cannot_be_read(rt: HostRuntime) -> Result<(), Fail> {
    for (kind, text) in FAILURES {
        unread(&rt, &Failing(kind), "a b", text)?;
    }
    for (file, text) in UNREAD {
        unread(&rt, &rt, file, text)?;
    }
    Ok(())
}

/// A file, its octets before the one that is refused, and what is said of it.
const NOT_UTF8: [(&str, &[u8], &str); 5] = [
    ("a.toml", b"", "a.toml:1:1: octet 1 is not UTF-8"),
    ("-", b"ab\n", "standard input:2:1: octet 4 is not UTF-8"),
    (
        "a.toml",
        b"k = 1\nx\xc3\xbc",
        "a.toml:2:3: octet 10 is not UTF-8",
    ),
    ("a.toml", b"\n\n", "a.toml:3:1: octet 3 is not UTF-8"),
    ("a.toml", b"abc", "a.toml:1:4: octet 4 is not UTF-8"),
];

/// Words, and why they are not an even number of hexadecimal digits.
const NOT_HEXADECIMAL: &str = "zz => HEX: character 1 'z' is no hexadecimal digit
00fFg0 => HEX: character 5 'g' is no hexadecimal digit
01 1 => HEX: character 3 ' ' is no hexadecimal digit
a\u{fc}: => HEX: character 2 '\u{fc}' is no hexadecimal digit
010 => HEX: 3 hexadecimal digits: wanted is an even number";

/// Words, and why they are no MAC addresses.
const NO_ADDRESSES: &str = "02:00:00:00:00:01 => MAC: character 3 ':' is no hexadecimal digit
02000000000O => MAC: character 12 'O' is no hexadecimal digit
02000000001 => MAC: 11 hexadecimal digits: wanted are 12
0200000000001 => MAC: 13 hexadecimal digits: wanted are 12
 => MAC: 0 hexadecimal digits: wanted are 12";

/// A script whose third entry names no event.
const NO_EVENT: &str = "events = [\"tick 1 1\", \"tick 2 1\", \"tic 1 10\"]\n";

/// What is said of it behind the name of the file.
const NO_EVENT_TEXT: &str = ": event 3 \"tic 1 10\": no event has this name; did you mean tick?";

#[test]
fn texts_of_what_is_refused(rt: HostRuntime) -> Result<(), Fail> {
    for (file, before, text) in NOT_UTF8 {
        let said = utf8_text(rt.alloc(), file, before)?;
        same_text(&rt, file, said.as_str(), text);
    }
    for (name, wanted, words) in [
        ("HEX", "is an even number", NOT_HEXADECIMAL),
        ("MAC", "are 12", NO_ADDRESSES),
    ] {
        for line in words.lines() {
            let (word, text) = line.split_once(" => ").unwrap_or((line, ""));
            let said = digits_text(rt.alloc(), name, word, wanted)?;
            same_text(&rt, word, said.as_str(), text);
        }
    }
    let fault = ScriptFault::Entry(3, EntryFault::Word);
    for (file, name) in [("lag.toml", "lag.toml"), ("-", "standard input")] {
        let said = script_text(rt.alloc(), file, NO_EVENT, fault)?;
        let text = format!(in rt.alloc(); "{name}{NO_EVENT_TEXT}")?;
        same_text(&rt, file, said.as_str(), text.as_str());
    }
    Ok(())
}
