//! `lagtool`: reads and answers LACPDUs and Marker PDUs, explains captures, and runs scripts of two systems.
//!
//! Exit status 0: accepted; 1: refused, or no answer, or a line that is a fault, or a finding; 2: it could not be done, and standard
//! error says why.
#![tactic(auto)]

ghost use Rattle.std.specs.Prelude.{◌≡◌, ◌<◌};
ghost use Rattle.distributor.specs.Calls.{index_by_number};

mod help;
mod line;
mod options;
#[cfg(test)]
mod tests;

use crate::line::{Job, LineFault, read_line};
use crate::options::{Options, read_options};
use lagstreams::{Sink, Source};
use lagtool_capture::{CaptureFault, CaptureSummary, Settings, report_capture};
use lagtool_jobs::{
    FaultText, Progress, ToolFault, Watch, check_watched, digits_text, replay_watched, reply,
    script_text, show, status_of, unread_text, utf8_text, vectors,
};
use std::alloc::AllocError;
use std::fmt::Display;
use std::fs::{File, Files};
use std::io::{Input, Read};
use std::process::ExitCode;
use std::time::Clock;
use std::{env, fs, io};

/// The distribution algorithm of the program, for both systems: the conversation number modulo the count of ports, and
/// 0 if the count is 0 (6.2.4; profile). A function of another crate cannot be handed over itself.
fn by_number(conversation: u16, count: usize) -> usize
    ensures place { result ≡ index_by_number conversation count }
    ensures among { 0 < count → result < count }
{
    distributor::by_number(conversation, count)
}

/// Says on standard error why a command line could not be done; returns exit status 2.
fn could_not_do<D: Display + Drop>(rt: &impl Eprint, why: D) -> ExitCode {
    let _ = eprintln!(rt; "lagtool: {why}");
    ExitCode::from(2)
}

/// Prints the text for a command line that asks for no job; returns its exit status.
fn without_job(rt: &(impl Print + Eprint), fault: LineFault) -> ExitCode {
    match fault {
        LineFault::Help(text) => match text.print(rt) {
            Ok(()) => ExitCode::SUCCESS,
            Err(_) => could_not_do(rt, ToolFault::Write),
        },
        LineFault::Usage(text) => {
            let _ = text.print(rt);
            ExitCode::from(2)
        }
        LineFault::NoMemory => could_not_do(rt, ToolFault::NoMemory),
    }
}

/// The exit status for the result of a job; standard error says why one could not be done.
fn ended(rt: &impl Eprint, file: &str, accepted: Result<bool, ToolFault>) -> ExitCode {
    let status = status_of(&accepted);
    if let Err(fault) = accepted {
        let _ = eprintln!(rt; "lagtool: {}", FaultText { fault, file });
    }
    ExitCode::from(status)
}

/// Says a second line on standard error; none where memory for it was refused.
fn say_more(rt: &impl Eprint, line: Result<String, AllocError>) {
    if let Ok(line) = line {
        let _ = eprintln!(rt; "lagtool: {line}");
    }
}

/// The exit status for the result of a job with a file; standard error says why one could not be done, and with `--explain` what
/// is wrong with a file that cannot be read.
fn ended_with_file(
    rt: &(impl Eprint + Files + AllocGlobal),
    options: Options,
    file: &str,
    accepted: Result<bool, ToolFault>,
) -> ExitCode {
    let status = ended(rt, file, accepted);
    if options.explain && accepted == Err(ToolFault::Read) {
        say_more(rt, unread_text(rt.alloc(), rt, file));
    }
    status
}

/// Checks a file, or standard input for `-`; returns whether no line is a fault. The watch is shown how many have ended.
fn check_file<R: Print + Files + Input + AllocGlobal, P: Watch>(
    rt: &R,
    file: &str,
    watch: &P,
) -> Result<bool, ToolFault> {
    let mut sink = Sink::new(io::writer(rt));
    let summary = if file == "-" {
        check_watched(rt.alloc(), &mut Source::new(rt.reader()), &mut sink, watch)?
    } else {
        match File::open(rt, file) {
            Ok(opened) => check_watched(rt.alloc(), &mut Source::new(opened), &mut sink, watch)?,
            Err(_) => return Err(ToolFault::Read),
        }
    };
    Ok(summary.faults == 0)
}

/// Checks a file, or standard input for `-`; returns the exit status.
fn status_of_check<R: Print + Eprint + Files + Input + Clock + AllocGlobal>(
    rt: &R,
    options: Options,
    file: &str,
) -> ExitCode {
    let progress = Progress::new(rt, options.progress, "line");
    let checked = check_file(rt, file, &progress);
    progress.clear();
    ended_with_file(rt, options, file, checked)
}

/// Explains a capture, or standard input for `-`.
fn capture_file<R: Print + Files + Input + AllocGlobal>(
    rt: &R,
    settings: Settings,
    file: &str,
) -> Result<CaptureSummary, CaptureFault> {
    let mut sink = Sink::new(io::writer(rt));
    if file == "-" {
        report_capture(
            rt.alloc(),
            settings,
            &mut Source::new(rt.reader()),
            &mut sink,
        )
    } else {
        match File::open(rt, file) {
            Ok(opened) => report_capture(rt.alloc(), settings, &mut Source::new(opened), &mut sink),
            Err(_) => Err(CaptureFault::Read),
        }
    }
}

/// A fault of a job with captures as a fault of the program.
fn tool_fault(fault: CaptureFault) -> ToolFault {
    match fault {
        CaptureFault::Read => ToolFault::Read,
        CaptureFault::Write => ToolFault::Write,
        CaptureFault::NoMemory => ToolFault::NoMemory,
    }
}

/// Explains a capture, or standard input for `-`; returns the exit status.
fn status_of_capture<R: Print + Eprint + Files + Input + AllocGlobal>(
    rt: &R,
    options: Options,
    file: &str,
) -> ExitCode {
    let settings = Settings {
        all: options.all,
        frames: !options.no_frames,
        json: options.json,
    };
    match capture_file(rt, settings, file) {
        Ok(
            CaptureSummary {
                fault: Some(fault),
                ..
            },
        ) => {
            let _ = eprintln!(rt; "lagtool: cannot read {file}: {fault}");
            ExitCode::from(2)
        }
        Ok(summary) => ended(rt, file, Ok(summary.findings == 0)),
        Err(fault) => ended_with_file(rt, options, file, Err(tool_fault(fault))),
    }
}

/// The octets of a file, or of standard input for `-`.
fn read_octets<R: Files + Input + AllocGlobal>(rt: &R, file: &str) -> Result<Vec<u8>, ToolFault> {
    let read = if file == "-" {
        let mut octets = Vec::new(rt.alloc());
        match rt.reader().read_to_end(&mut octets) {
            Ok(_) => Ok(octets),
            Err(error) => Err(error),
        }
    } else {
        fs::read(rt, file)
    };
    match read {
        Ok(octets) => Ok(octets),
        Err(error) if error.kind() == io::ErrorKind::OutOfMemory => Err(ToolFault::NoMemory),
        Err(_) => Err(ToolFault::Read),
    }
}

/// Replays a script, which was read from this file; returns the exit status.
fn status_of_script<R: Print + Eprint + Clock + AllocGlobal>(
    rt: &R,
    options: Options,
    file: &str,
    text: &str,
) -> ExitCode {
    let mut sink = Sink::new(io::writer(rt));
    let progress = Progress::new(rt, options.progress, "entry");
    let replayed = replay_watched(rt.alloc(), text, by_number, by_number, &mut sink, &progress);
    progress.clear();
    match replayed {
        Ok(()) => ended(rt, file, Ok(true)),
        Err(fault) => {
            let status = ended(rt, file, Err(fault));
            if let ToolFault::Script(fault) = fault
                && options.explain
            {
                say_more(rt, script_text(rt.alloc(), file, text, fault));
            }
            status
        }
    }
}

/// Replays the script in a file, or in standard input for `-`; returns the exit status.
fn status_of_replay<R: Print + Eprint + Files + Input + Clock + AllocGlobal>(
    rt: &R,
    options: Options,
    file: &str,
) -> ExitCode {
    let octets = match read_octets(rt, file) {
        Ok(octets) => octets,
        Err(fault) => return ended_with_file(rt, options, file, Err(fault)),
    };
    match str::from_utf8(&octets) {
        Ok(text) => status_of_script(rt, options, file, text),
        Err(error) => {
            let status = ended(rt, file, Err(ToolFault::Read));
            if options.explain {
                let before = octets.get(..error.valid_up_to()).unwrap_or(&[]);
                say_more(rt, utf8_text(rt.alloc(), file, before));
            }
            status
        }
    }
}

/// The exit status for the result of `decode` or `respond`; standard error says why one could not be done.
fn ended_with_words(
    rt: &(impl Eprint + AllocGlobal),
    options: Options,
    mac: &str,
    hex: &str,
    accepted: Result<bool, ToolFault>,
) -> ExitCode {
    let status = ended(rt, "", accepted);
    if options.explain {
        let alloc = rt.alloc();
        match accepted {
            Err(ToolFault::NotHex) => {
                say_more(rt, digits_text(alloc, "HEX", hex, "is an even number"));
            }
            Err(ToolFault::NotMac) => say_more(rt, digits_text(alloc, "MAC", mac, "are 12")),
            _ => {}
        }
    }
    status
}

/// Runs the vectors; returns whether none failed.
fn run_vectors<R: Print + AllocGlobal>(rt: &R) -> Result<bool, ToolFault> {
    let mut sink = Sink::new(io::writer(rt));
    let summary = vectors(rt.alloc(), &mut sink)?;
    Ok(summary.faults == 0)
}

/// Does what a command line asks for; returns its exit status.
fn status<R: Print + Eprint + Files + Input + Clock + AllocGlobal>(
    rt: &R,
    words: &[String],
) -> ExitCode {
    let alloc = rt.alloc();
    let options = read_options(words);
    match read_line(alloc, &words[options.count..]) {
        Ok(Job::Decode { hex }) => {
            let mut sink = Sink::new(io::writer(rt));
            ended_with_words(rt, options, "", hex, show(alloc, hex, &mut sink))
        }
        Ok(Job::Respond { mac, hex }) => {
            let mut sink = Sink::new(io::writer(rt));
            ended_with_words(rt, options, mac, hex, reply(alloc, mac, hex, &mut sink))
        }
        Ok(Job::Check { file }) => status_of_check(rt, options, file),
        Ok(Job::Capture { file }) => status_of_capture(rt, options, file),
        Ok(Job::Replay { script }) => status_of_replay(rt, options, script),
        Ok(Job::Vectors) => ended(rt, "", run_vectors(rt)),
        Err(fault) => without_job(rt, fault),
    }
}

/// The words of the command line.
fn words_of(rt: &HostRuntime) -> io::Result<Vec<String>> {
    let mut words = Vec::new(rt.alloc());
    for word in env::args(rt)? {
        words.push(word)?;
    }
    Ok(words)
}

/// Runs the command line of the program.
pub fn main(rt: HostRuntime) -> ExitCode {
    match words_of(&rt) {
        Ok(words) => status(&rt, words.as_slice()),
        Err(error) if error.kind() == io::ErrorKind::OutOfMemory => could_not_do(
            &rt,
            ToolFault::NoMemory,
        ),
        // The only other error is a word that is not UTF-8.
        Err(_) => could_not_do(&rt, "a word is not UTF-8"),
    }
}
