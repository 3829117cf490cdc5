//! The texts of the program's help.

/// The program's version.
pub const VERSION: &str = "0.3.0";

/// What the program does.
pub const ABOUT: &str = "Reads and answers LACPDUs and Marker PDUs (IEEE 802.1AX)";

/// The options before the subcommand, and the exit statuses of the program.
pub const STATUSES: &str = "\
Before the subcommand, as in lagtool --explain replay SCRIPT:
  --explain   A second line on standard error says more of a file that cannot be read, or is no script
  --progress  Standard error shows how far check or replay is
  --all       A line of capture has every field
  --no-frames capture prints no line for a frame
  --json      capture prints a record as JSON in each line

Status 0: the payload is accepted, the frame is answered, no line of the file is a fault, the capture
          or the script was read to its end, or no vector failed.
Status 1: the payload is refused, the frame is not answered, a line of the file is a fault, or a vector
          failed.
Status 2: standard error says why: a wrong command line, a word that is not hexadecimal, a file that
          cannot be read or is no script, output that cannot be written, or no memory.";

/// What `decode` does.
pub const DECODE: &str = "Prints the LACPDU or Marker PDU in a payload";

/// The argument HEX of `decode`.
pub const DECODE_HEX: &str =
    "What follows EtherType 8809: 110 octets or more in hexadecimal, digits only (no blanks, no 0x)";

/// An example of `decode`.
pub const DECODE_EXAMPLE: &str = "\
Example, the first LACPDU of an active port that knows no partner yet:
  lagtool decode 010101148000020000000001000100800001c700000002140000000000000000000000000000020\
000000310000000000000000000000000000000000000000000000000000000000000000000000000000000000000000\
000000000000000000000000000000000000000000000";

/// What `respond` does.
pub const RESPOND: &str = "Prints the frame that answers a marker frame";

/// The argument MAC of `respond`.
pub const RESPOND_MAC: &str = "\
Source address of the answer: twelve digits, no separators; a group address is no source, though it \
is taken";

/// The argument HEX of `respond`.
pub const RESPOND_HEX: &str = "The marker frame from its destination address on, digits only";

/// An example of `respond`.
pub const RESPOND_EXAMPLE: &str = "\
Example, port 1 of the system 02-00-00-00-00-01 sends marker 1:
  lagtool respond 020000000002 0180c200000202000000000188090201011000010200000000010000000100000\
000000000000000000000000000000000000000000000000000000000000000000000000000000000000000000000000\
000000000000000000000000000000000000000000000000000000000000000000000000000000000000000";

/// What `check` does.
pub const CHECK: &str = "Says of each line of a file what frame it is";

/// The argument FILE of `check`.
pub const CHECK_FILE: &str = "\
A file, or - for standard input; a line is a frame from its destination address on, digits only";

/// What `check` prints, and an example.
pub const CHECK_EXAMPLE: &str = "\
Prints a line for each line of the file: its number, and lacpdu, marker, marker-response, data, or the
fault: runt, refused and why, not hex, too long. Last comes a line with the counts.

Example: lagtool check frames.txt";

/// What `capture` does.
pub const CAPTURE: &str = "Explains the LACPDUs and Marker PDUs of a capture";

/// The argument FILE of `capture`.
pub const CAPTURE_FILE: &str =
    "A file of tcpdump or Wireshark, pcap or pcapng, or - for standard input";

/// What `capture` prints, and an example.
pub const CAPTURE_EXAMPLE: &str = "\
Prints a line for each frame of the slow protocols, with what differs from the last LACPDU of its sender;
then a line for each end of a link, one for each finding, and the counts. With --all before the subcommand a line has every
field, with --no-frames there is no line for a frame, with --json each line is a record as JSON.

Example: lagtool capture lacp.pcap";

/// What `replay` does.
pub const REPLAY: &str = "Runs a script of two systems and their cables, and prints its report";

/// The argument SCRIPT of `replay`.
pub const REPLAY_SCRIPT: &str =
    "A file in TOML, or - for standard input; docs/COMMAND.md has its keys and entries";

/// What `replay` prints, and an example.
pub const REPLAY_EXAMPLE: &str = "\
Prints a line for each entry, with its reply; how the ends of each cable agree in the end; and for
each conversation that sent frames their count, and the serials that arrived.

Example: lagtool replay examples/two-switches-come-up.toml";

/// What `vectors` does.
pub const VECTORS: &str = "Runs known inputs and says whether each comes to what it is to come to";

/// What `vectors` prints.
pub const VECTORS_LINES: &str =
    "Prints a line for each of V1 to V10, ok or failed, and then the counts.";
