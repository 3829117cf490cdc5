use crate::line::{Job, LineFault, read_line};
use crate::options::{Options, read_options};
use std::alloc::{AllocError, Global};
use std::test::Fail;

/// What a line is read as: a job with its words, or a fault.
fn said_of(alloc: Global, words: &[&str]) -> Result<String, AllocError> {
    match read_line(alloc, words) {
        Ok(job) => format!(in alloc; "{job:?}"),
        Err(LineFault::Help(_)) => String::from_str(alloc, "help"),
        Err(LineFault::Usage(_)) => String::from_str(alloc, "usage"),
        Err(LineFault::NoMemory) => String::from_str(alloc, "no memory"),
    }
}

#[test]
fn lines(rt: HostRuntime) -> Result<(), Fail> {
    let rows: [(&[&str], &str); 24] = [
        (&["lagtool", "decode", ""], "Decode { hex: \"\" }"),
        (
            &["lagtool", "respond", "02", "0180"],
            "Respond { mac: \"02\", hex: \"0180\" }",
        ),
        (&["lagtool", "check", "-"], "Check { file: \"-\" }"),
        (&["lagtool", "capture", "-"], "Capture { file: \"-\" }"),
        (&["lagtool", "capture"], "usage"),
        (
            &["lagtool", "replay", "a.toml"],
            "Replay { script: \"a.toml\" }",
        ),
        (&["lagtool", "replay", "-"], "Replay { script: \"-\" }"),
        (&["lagtool", "vectors"], "Vectors"),
        (&["lagtool", "replay", "-h"], "help"),
        (&["lagtool", "vectors", "-h"], "help"),
        (&["lagtool", "--help"], "help"),
        (&["lagtool", "decode", "-h"], "help"),
        (&["lagtool", "--version"], "help"),
        (&["lagtool"], "usage"),
        (&["lagtool", "decode"], "usage"),
        (&["lagtool", "decode", "01", "02"], "usage"),
        (&["lagtool", "respond", "02"], "usage"),
        (&["lagtool", "check"], "usage"),
        (&["lagtool", "check", "-", "-"], "usage"),
        (&["lagtool", "replay"], "usage"),
        (&["lagtool", "replay", "a", "b"], "usage"),
        (&["lagtool", "vectors", "1"], "usage"),
        (&["lagtool", "help"], "usage"),
        (&["lagtool", "decode", "--version"], "usage"),
    ];
    for (words, said) in rows {
        let seen = said_of(rt.alloc(), words)?;
        assert_eq!(rt; seen.as_str(), said, "{words:?}");
    }
    Ok(())
}

/// The options of these words.
fn options_of(alloc: Global, words: &[&str]) -> Result<Options, AllocError> {
    let mut line = Vec::new(alloc);
    for word in words {
        line.push(String::from_str(alloc, *word)?)?;
    }
    Ok(read_options(&line))
}

#[test]
fn options_before_a_subcommand(rt: HostRuntime) -> Result<(), Fail> {
    let rows: [(&[&str], bool, bool, usize); 12] = [
        (&[], false, false, 0),
        (&["lagtool"], false, false, 0),
        (&["lagtool", "replay", "--explain"], false, false, 0),
        (&["lagtool", "--explain", "replay", "a"], true, false, 1),
        (&["lagtool", "--explain", "--explain"], true, false, 2),
        (&["lagtool", "--explains", "replay", "a"], false, false, 0),
        (&["--explain", "--help"], false, false, 0),
        (&["lagtool", "--progress", "check", "a"], false, true, 1),
        (
            &["lagtool", "--progress", "--explain", "check", "a"],
            true,
            true,
            2,
        ),
        (
            &["lagtool", "--explain", "--progress", "check", "a"],
            true,
            true,
            2,
        ),
        (
            &["lagtool", "--explain", "check", "--progress"],
            true,
            false,
            1,
        ),
        (&["--progress", "--progres", "check"], false, false, 0),
    ];
    for (words, explain, progress, count) in rows {
        let seen = options_of(rt.alloc(), words)?;
        let wanted = Options {
            explain,
            progress,
            all: false,
            no_frames: false,
            json: false,
            count,
        };
        assert_eq!(rt; seen, wanted, "{words:?}");
    }
    Ok(())
}

#[test]
fn options_of_a_capture(rt: HostRuntime) -> Result<(), Fail> {
    let rows: [(&[&str], bool, bool, bool, usize); 5] = [
        (&["lagtool", "--all", "capture", "a"], true, false, false, 1),
        (
            &["lagtool", "--no-frames", "capture", "a"],
            false,
            true,
            false,
            1,
        ),
        (
            &["lagtool", "--json", "capture", "a"],
            false,
            false,
            true,
            1,
        ),
        (
            &["lagtool", "--json", "--no-frames", "capture", "a"],
            false,
            true,
            true,
            2,
        ),
        (
            &["lagtool", "capture", "--all", "--json", "a"],
            false,
            false,
            false,
            0,
        ),
    ];
    for (words, all, no_frames, json, count) in rows {
        let seen = options_of(rt.alloc(), words)?;
        let wanted = Options {
            explain: false,
            progress: false,
            all,
            no_frames,
            json,
            count,
        };
        assert_eq!(rt; seen, wanted, "{words:?}");
    }
    Ok(())
}

/// The help text that a line asks for.
fn help_of(alloc: Global, words: &[&str]) -> Result<String, AllocError> {
    match read_line(alloc, words) {
        Err(LineFault::Help(text)) => format!(in alloc; "{text}"),
        _ => Ok(String::new(alloc)),
    }
}

#[test]
fn help_says_what_words_mean(rt: HostRuntime) -> Result<(), Fail> {
    let alloc = rt.alloc();
    let rows: [(&[&str], &[&str]); 8] = [
        (
            &["lagtool", "--help"],
            &[
                "LACPDUs",
                "decode",
                "respond",
                "check",
                "replay",
                "vectors",
                "Status 0",
                "Status 1",
                "Status 2",
                "--explain",
                "--progress",
            ],
        ),
        (
            &["lagtool", "decode", "--help"],
            &[
                "lagtool decode <HEX>",
                "EtherType 8809",
                "digits only",
                "lagtool decode 0101",
            ],
        ),
        (
            &["lagtool", "respond", "--help"],
            &[
                "lagtool respond <MAC> <HEX>",
                "twelve digits, no separators",
                "a group address is no source",
                "lagtool respond 02",
            ],
        ),
        (
            &["lagtool", "check", "--help"],
            &[
                "lagtool check <FILE>",
                "standard input",
                "a line is a frame",
                "lagtool check frames.txt",
            ],
        ),
        (
            &["lagtool", "capture", "--help"],
            &[
                "lagtool capture <FILE>",
                "pcapng",
                "standard input",
                "--no-frames",
                "--json",
                "lagtool capture lacp.pcap",
            ],
        ),
        (
            &["lagtool", "replay", "--help"],
            &[
                "lagtool replay <SCRIPT>",
                "TOML",
                "standard input",
                "docs/COMMAND.md",
                "lagtool replay examples/",
            ],
        ),
        (&["lagtool", "vectors", "--help"], &["V1 to V10"]),
        (&["lagtool", "--version"], &["lagtool 0.3.0"]),
    ];
    for (words, parts) in rows {
        let text = help_of(alloc, words)?;
        for part in parts {
            assert!(rt;
                text.as_str().contains(*part),
                "{words:?} does not say {part}: {text}"
            );
        }
    }
    Ok(())
}

#[test]
fn help_has_the_lines_in_their_order(rt: HostRuntime) -> Result<(), Fail> {
    let text = help_of(rt.alloc(), &["lagtool", "--help"])?;
    let mut rest = text.as_str();
    for name in ["decode", "respond", "check", "capture", "replay", "vectors"] {
        let line = rest.split_once(name);
        assert!(rt; line.is_some(), "{name} is not behind the others: {text}");
        rest = line.map(|(_, behind)| behind).unwrap_or("");
    }
    Ok(())
}
