ghost use Rattle.std.specs.Prelude.{◌≡◌, [], IfErr, IfOk, OnOk, map, true, false};
ghost use Rattle.clap.specs.declared.builder.command.Command.TheViews.{out-Command as fields_of};
ghost use Rattle.clap.specs.Words.{app_of, fault_of, new_app, subcommand_of, subcommand_rows_of, with_rule};
ghost use Rattle.lagtool.specs.declared.line.LineFault.TheVariants.{NoMemory};
ghost use Rattle.lagtool.specs.Lines.{IsCause, IsJob, KeepsKind, has_each_argument, program, program_alone, required_argument};
ghost use Rattle.lagtool.specs.Lines.{capture_subcommand, check_subcommand, decode_subcommand, replay_subcommand, respond_subcommand};
ghost use Rattle.lagtool.specs.Lines.{up_to_capture, up_to_check, up_to_decode, up_to_replay, up_to_respond};

use crate::help;
use clap::error::ErrorKind;
use clap::{Arg, ArgMatches, Command, Error};
use std::alloc::{AllocError, Global};
use std::convert::AsStr;

/// The job that a command line asks for, with its words as they were given (profile).
#[derive(Clone, Copy, Debug, PartialEq, Eq)]
pub enum Job<'a> {
    /// `lagtool decode HEX`: prints an LACPDU or Marker PDU.
    Decode { hex: &'a str },
    /// `lagtool respond MAC HEX`: prints the response to a marker frame.
    Respond { mac: &'a str, hex: &'a str },
    /// `lagtool check FILE`: says for each line of a file what frame it is; `-` is standard input.
    Check { file: &'a str },
    /// `lagtool capture FILE`: explains the LACPDUs and Marker PDUs of a capture; `-` is standard input.
    Capture { file: &'a str },
    /// `lagtool replay SCRIPT`: runs a script of two systems; `-` is standard input.
    Replay { script: &'a str },
    /// `lagtool vectors`: tests the program on known inputs.
    Vectors,
}

/// Why a command line asks for no job (profile). `Help` and `Usage` have the text to print.
#[derive(Debug, Drop)]
pub enum LineFault {
    /// The words ask for help or for the version. The text goes to standard output.
    Help(Error),
    /// The words name no job, or have too few or too many words for it.
    Usage(Error),
    /// Memory was refused.
    NoMemory,
}

impl From<AllocError> for LineFault {
    ghost from_gives = { λ _ e. e ≡ NoMemory };

    fn from(_e: AllocError) -> LineFault {
        LineFault::NoMemory
    }
}

/// The fault for an error of `clap`.
fn fault_in(error: Error) -> LineFault
    ensures { KeepsKind error result }
{
    match error.kind() {
        ErrorKind::OutOfMemory => LineFault::NoMemory,
        ErrorKind::DisplayHelp | ErrorKind::DisplayVersion => LineFault::Help(error),
        _ => LineFault::Usage(error),
    }
}

/// A subcommand without arguments so far.
fn subcommand<'a>(alloc: Global, name: &'a str, about: &'a str, after: &'a str) -> Command<'a>
    ensures app { app_of result ≡ new_app name.entry.now }
    ensures local { (fields_of result).has_globals ≡ false }
{
    Command::new(alloc, name).about(about).after_help(after)
}

/// The command with one more argument, which is required.
fn with_argument<'a>(
    command: Command<'a>,
    alloc: Global,
    id: &'a str,
    help: &'a str,
) -> Result<Command<'a>, AllocError>
    ensures app { IfOk result (λ c. app_of c ≡ with_rule (app_of command.entry) (required_argument id.entry.now)) }
    ensures local { IfOk result (λ c. (fields_of command.entry).has_globals ≡ false → (fields_of c).has_globals ≡ false) }
{
    command.arg(Arg::new(alloc, id).required(true).help(help))
}

/// The program, without its subcommands.
fn program_alone<'a>(alloc: Global) -> Result<Command<'a>, AllocError>
    ensures { IfOk result (λ c. app_of c ≡ program_alone) }
{
    Command::new(alloc, "lagtool")
        .version(help::VERSION)
        .about(help::ABOUT)
        .after_help(help::STATUSES)
        .subcommand_required(true)
        .disable_help_subcommand(true)
        .bin_name("lagtool")
}

/// The line `decode HEX`.
fn decode_line<'a>(alloc: Global) -> Result<Command<'a>, AllocError>
    ensures app { IfOk result (λ c. app_of c ≡ decode_subcommand) }
    ensures local { IfOk result (λ c. (fields_of c).has_globals ≡ false) }
{
    let decode = subcommand(alloc, "decode", help::DECODE, help::DECODE_EXAMPLE);
    with_argument(decode, alloc, "HEX", help::DECODE_HEX)
}

/// The line `respond MAC HEX`.
fn respond_line<'a>(alloc: Global) -> Result<Command<'a>, AllocError>
    ensures app { IfOk result (λ c. app_of c ≡ respond_subcommand) }
    ensures local { IfOk result (λ c. (fields_of c).has_globals ≡ false) }
{
    let respond = subcommand(alloc, "respond", help::RESPOND, help::RESPOND_EXAMPLE);
    let respond = with_argument(respond, alloc, "MAC", help::RESPOND_MAC)?;
    with_argument(respond, alloc, "HEX", help::RESPOND_HEX)
}

/// The line `check FILE`.
fn check_line<'a>(alloc: Global) -> Result<Command<'a>, AllocError>
    ensures app { IfOk result (λ c. app_of c ≡ check_subcommand) }
    ensures local { IfOk result (λ c. (fields_of c).has_globals ≡ false) }
{
    let check = subcommand(alloc, "check", help::CHECK, help::CHECK_EXAMPLE);
    with_argument(check, alloc, "FILE", help::CHECK_FILE)
}

/// The line `capture FILE`.
fn capture_line<'a>(alloc: Global) -> Result<Command<'a>, AllocError>
    ensures app { IfOk result (λ c. app_of c ≡ capture_subcommand) }
    ensures local { IfOk result (λ c. (fields_of c).has_globals ≡ false) }
{
    let capture = subcommand(alloc, "capture", help::CAPTURE, help::CAPTURE_EXAMPLE);
    with_argument(capture, alloc, "FILE", help::CAPTURE_FILE)
}

/// The line `replay SCRIPT`.
fn replay_line<'a>(alloc: Global) -> Result<Command<'a>, AllocError>
    ensures app { IfOk result (λ c. app_of c ≡ replay_subcommand) }
    ensures local { IfOk result (λ c. (fields_of c).has_globals ≡ false) }
{
    let replay = subcommand(alloc, "replay", help::REPLAY, help::REPLAY_EXAMPLE);
    with_argument(replay, alloc, "SCRIPT", help::REPLAY_SCRIPT)
}

/// The program with its first line, `decode`. One line is added in each function, since the proof of a function grows much
/// faster than its calls.
fn up_to_decode<'a>(alloc: Global) -> Result<Command<'a>, AllocError>
    ensures { IfOk result (λ c. app_of c ≡ up_to_decode) }
{
    program_alone(alloc)?.subcommand(decode_line(alloc)?)
}

/// The program with its lines up to `respond`.
fn up_to_respond<'a>(alloc: Global) -> Result<Command<'a>, AllocError>
    ensures { IfOk result (λ c. app_of c ≡ up_to_respond) }
{
    up_to_decode(alloc)?.subcommand(respond_line(alloc)?)
}

/// The program with its lines up to `check`.
fn up_to_check<'a>(alloc: Global) -> Result<Command<'a>, AllocError>
    ensures { IfOk result (λ c. app_of c ≡ up_to_check) }
{
    up_to_respond(alloc)?.subcommand(check_line(alloc)?)
}

/// The program with its lines up to `capture`.
fn up_to_capture<'a>(alloc: Global) -> Result<Command<'a>, AllocError>
    ensures { IfOk result (λ c. app_of c ≡ up_to_capture) }
{
    up_to_check(alloc)?.subcommand(capture_line(alloc)?)
}

/// The program with its lines up to `replay`.
fn up_to_replay<'a>(alloc: Global) -> Result<Command<'a>, AllocError>
    ensures { IfOk result (λ c. app_of c ≡ up_to_replay) }
{
    up_to_capture(alloc)?.subcommand(replay_line(alloc)?)
}

/// The program with its lines.
fn program<'a>(alloc: Global) -> Result<Command<'a>, AllocError>
    ensures { IfOk result (λ c. app_of c ≡ program) }
{
    let vectors = subcommand(alloc, "vectors", help::VECTORS, help::VECTORS_LINES);
    up_to_replay(alloc)?.subcommand(vectors)
}

/// The job of a subcommand with the values of its arguments.
fn job_in<'a>(matches: &ArgMatches<'a>) -> Job<'a>
    requires { has_each_argument (subcommand_rows_of matches.now) ≡ true }
    ensures { IsJob (subcommand_rows_of matches.now) result }
{
    let (name, values) = matches.subcommand().unwrap();
    match name {
        "decode" => Job::Decode {
            hex: values.get_str("HEX").unwrap(),
        },
        "respond" => Job::Respond {
            mac: values.get_str("MAC").unwrap(),
            hex: values.get_str("HEX").unwrap(),
        },
        "check" => Job::Check {
            file: values.get_str("FILE").unwrap(),
        },
        "capture" => Job::Capture {
            file: values.get_str("FILE").unwrap(),
        },
        "replay" => Job::Replay {
            script: values.get_str("SCRIPT").unwrap(),
        },
        "vectors" => Job::Vectors,
        _ => unreachable!(),
    }
}

// promise: `Ok` has the subcommand and the values that `clap` states for the words, and comes only without a fault
// contract: `read_line` (`job`, `faultless`: `Lines`)
// promise: `Help` comes only if `clap` states that the words ask for help or the version, `Usage` only with another fault that it states
// contract: `read_line` (`fault`)
// not said: that every fault is found
/// Reads the words of a command line; the first is the program's name (profile). `Help` if they ask for help or for the
/// version, `Usage` if they are no line of the program, `NoMemory` if memory is refused.
pub fn read_line<'a, S: AsStr>(alloc: Global, words: &'a [S]) -> Result<Job<'a>, LineFault>
    // The job is the subcommand that the words name, with their values.
    ensures job { IfOk result (λ job. IsJob (subcommand_of program (map S.text words.entry.now)) job) }
    // A line for which `clap` has an error has no job.
    ensures faultless { OnOk result (fault_of program (map S.text words.entry.now) ≡ []) }
    // Help and the version are shown only if the words ask for them, and a usage fault is one that the words have.
    ensures fault { IfErr result (λ e. IsCause (fault_of program (map S.text words.entry.now)) e) }
{
    match program(alloc)?.try_get_matches_from(words) {
        Ok(matches) => Ok(job_in(&matches)),
        Err(error) => Err(fault_in(error)),
    }
}
