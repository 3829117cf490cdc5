mod limits;
mod reading;

use crate::comparing::same;
use lagscript::read_script;
use std::alloc::{AllocError, Global};
use std::process::Abort;

/// The text around the rows of a test: what is before and after each, and how the texts of their faults begin.
#[derive(Clone, Copy)]
pub(crate) struct Frame<'a> {
    pub before: &'a str,
    pub behind: &'a str,
    pub fault: &'a str,
}

const TOP: Frame = Frame {
    before: "",
    behind: "",
    fault: "",
};

pub(crate) const SYSTEM_1: Frame = Frame {
    before: "system = [{",
    behind: "}, {mac = \"02-00-00-00-00-02\", aggregators = [1], port = [{number = 1, key = 1}]}]",
    fault: "system 1",
};

const SYSTEM_2: Frame = Frame {
    before: "system = [{mac = \"02-00-00-00-00-01\", aggregators = [1], max_links = 1, conversations = 4096, port = [{number = 1, key = 1}]}, {",
    behind: "}]",
    fault: "system 2",
};

const PORT_1_OF_1: Frame = Frame {
    before: "system = [{mac = \"02-00-00-00-00-01\", aggregators = [1], port = [{",
    behind: "}]}, {mac = \"02-00-00-00-00-02\", aggregators = [1], port = [{number = 1, key = 1}]}]",
    fault: "system 1 port 1",
};

const PORT_2_OF_1: Frame = Frame {
    before: "system = [{mac = \"02-00-00-00-00-01\", aggregators = [1], port = [{number = 1, key = 1}, {",
    behind: "}]}, {mac = \"02-00-00-00-00-02\", aggregators = [1], port = [{number = 1, key = 1}]}]",
    fault: "system 1 port 2",
};

const PORT_1_OF_2: Frame = Frame {
    before: "system = [{mac = \"02-00-00-00-00-01\", aggregators = [1], port = [{number = 1, key = 1}]}, {mac = \"02-00-00-00-00-02\", aggregators = [1], port = [{",
    behind: "}]}]",
    fault: "system 2 port 1",
};

const CABLE_1: Frame = Frame {
    before: "cable = [{",
    behind: "}]\nsystem = [{mac = \"02-00-00-00-00-01\", aggregators = [1], port = [{number = 1, key = 1}]}, {mac = \"02-00-00-00-00-02\", aggregators = [1], port = [{number = 65535, key = 1}]}]",
    fault: "cable 1",
};

const CABLE_2: Frame = Frame {
    before: "cable = [{ends = [1, 65535]}, {",
    behind: "}]\nsystem = [{mac = \"02-00-00-00-00-01\", aggregators = [1], port = [{number = 1, key = 1}, {number = 2, key = 1}]}, {mac = \"02-00-00-00-00-02\", aggregators = [1], port = [{number = 1, key = 1}, {number = 65535, key = 1}]}]",
    fault: "cable 2",
};

pub(crate) const ENTRY_1: Frame = Frame {
    before: "events = [\"",
    behind: "\", \"tick 1 1\"]\ncable = [{ends = [1, 1]}]\nsystem = [{mac = \"02-00-00-00-00-01\", aggregators = [1], port = [{number = 1, key = 1}]}, {mac = \"02-00-00-00-00-02\", aggregators = [1], port = [{number = 1, key = 1}]}]",
    fault: "event 1",
};

const ENTRY_2: Frame = Frame {
    before: "events = [\"cut 1\", \"",
    behind: "\"]\ncable = [{ends = [1, 1]}]\nsystem = [{mac = \"02-00-00-00-00-01\", aggregators = [1], port = [{number = 1, key = 1}]}, {mac = \"02-00-00-00-00-02\", aggregators = [1], port = [{number = 1, key = 1}]}]",
    fault: "event 2",
};

/// Two systems without a fault, after the text of a row.
pub(crate) const SYSTEMS: Frame = Frame {
    before: "",
    behind: "\nsystem = [{mac = \"02-00-00-00-00-01\", aggregators = [1], port = [{number = 1, key = 1}]}, {mac = \"02-00-00-00-00-02\", aggregators = [1], port = [{number = 1, key = 1}]}]",
    fault: "",
};

/// Two systems with the same identifier, after the text of a row.
const EQUAL_SYSTEMS: Frame = Frame {
    before: "",
    behind: "\nsystem = [{mac = \"02-00-00-00-00-01\", aggregators = [1], port = [{number = 1, key = 1}]}, {mac = \"02-00-00-00-00-01\", aggregators = [1], port = [{number = 2, key = 2}]}]",
    fault: "",
};

/// The first keys of a system, before those of a row.
pub(crate) const MAC: &str = "mac = \"02-00-00-00-00-0f\", ";

/// The first keys of a system, and its aggregators.
const AGGREGATORS: &str = "mac = \"02-00-00-00-00-0f\", aggregators = [1], ";

/// The same, and its ports.
const WITH_PORT: &str =
    "mac = \"02-00-00-00-00-0f\", aggregators = [1], port = [{number = 1, key = 1}], ";

/// The outcome of reading a text: `read`, or the text of the fault.
pub(crate) fn outcome(alloc: Global, text: &str) -> Result<String, AllocError> {
    match read_script(alloc, text) {
        Ok(_) => format!(in alloc; "read"),
        Err(fault) => format!(in alloc; "{fault}"),
    }
}

/// The text of a row between the others of its frame; `;` stands for the end of a line.
fn framed(alloc: Global, frame: &Frame, given: &str, text: &str) -> Result<String, AllocError> {
    let (before, behind) = (frame.before, frame.behind);
    let mut all = format!(in alloc; "{before}{given}")?;
    for octet in text.chars() {
        all.push(if octet == ';' { '\n' } else { octet })?;
    }
    all.push_str(behind)?;
    Ok(all)
}

/// A text in a frame has this outcome.
fn has_outcome(
    rt: &impl Abort,
    alloc: Global,
    frame: &Frame,
    given: &str,
    (text, fault): (&str, &str),
) -> Result<(), AllocError> {
    let came = outcome(alloc, framed(alloc, frame, given, text)?.as_str())?;
    let start = if fault == "read" { "" } else { frame.fault };
    let wanted = format!(in alloc; "{start}{fault}")?;
    same(rt, text, &came.as_str(), &wanted.as_str());
    Ok(())
}

/// The parts of a line before and behind its first arrow.
pub(crate) fn parts(line: &str) -> (&str, &str) {
    line.split_once(" => ").unwrap_or((line, ""))
}

/// Each line, a text and its outcome with an arrow between them, is so.
fn have_outcomes(
    rt: &impl Abort,
    alloc: Global,
    frame: &Frame,
    given: &str,
    lines: &str,
) -> Result<(), AllocError> {
    for line in lines.lines() {
        has_outcome(rt, alloc, frame, given, parts(line))?;
    }
    Ok(())
}

/// Texts of whole scripts.
const TOPS: &str = r#"x = => not toml
system = [{}, {} => not toml
x = 1 => extra key
System = [] => extra key
system = 1;end = 1 => extra key
 => system
system = 1 => system
[system] => system
system = [] => system
system = [{}] => system
system = [{}, {}, {}] => system
system = [{}, 1] => system
system = [1, {}] => system
cable = 1;events = 1 => system
cable = 1;system = [{}, {}] => system 1: mac
system = [{a = 1}, {a = 1}] => system 1: extra key"#;

/// The first keys of a system.
const FIRST_KEYS: &str = r#" => : mac
a = 1 => : extra key
limit = 1, priority = -1 => : extra key
ports = 3 => : extra key
priority = -1 => : priority
priority = 65536 => : priority
priority = 1.0 => : priority
priority = "1" => : priority
priority = 0, mac = 1 => : mac
mac = "" => : mac
mac = "020000000001" => : mac
mac = "02-00-00-00-00-0" => : mac
mac = "02-00-00-00-00-001" => : mac
mac = "02:00-00-00-00-01" => : mac
mac = "02-00x00-00-00-01" => : mac
mac = "02-00-00x00-00-01" => : mac
mac = "02-00-00-00x00-01" => : mac
mac = "02-00-00-00-00:01" => : mac
mac = "02-0000--00-00-01" => : mac
mac = "02-00-00-00-00-0g" => : mac
mac = "02-00-00-00-00-+1" => : mac
mac = " 02-00-00-00-00-01" => : mac
max_delay = 65536 => : mac"#;

/// The keys after the MAC address of a system.
const LATER_KEYS: &str = r#"max_delay = -1 => : max_delay
max_delay = 65536 => : max_delay
max_delay = true, first_marker = true => : max_delay
first_marker = -1 => : first_marker
first_marker = 4294967296 => : first_marker
first_marker = [1], aggregators = 1 => : first_marker
port = [] => : aggregators
aggregators = 1 => : aggregators
aggregators = {} => : aggregators
aggregators = [-1] => : aggregators
aggregators = [0, 65536] => : aggregators
aggregators = [1, "1"] => : aggregators
aggregators = [[1]], port = 1 => : aggregators
aggregators = [1] => : port
aggregators = [1], port = 1 => : port
aggregators = [1], port = {number = 1, key = 1} => : port
aggregators = [1], port = [{number = 1, key = 1}, 1] => : port
aggregators = [1], port = [{}, 1] => : port
aggregators = [1], port = [{}] =>  port 1: number
aggregators = [], port = [{}] =>  port 1: number
aggregators = [], port = [] => : ports
aggregators = [1], port = [] => : ports
aggregators = [], port = [{number = 0, key = 1}] => : aggregator count
aggregators = [1], port = [{number = 0, key = 1}] => : port number 1
aggregators = [1], port = [{number = 7, key = 1}, {number = 7, key = 1}] => : port number 2
aggregators = [1], port = [{number = 7, key = 1}, {number = 8, key = 1}, {number = 1, key = 1}] => : port number 3"#;

/// Limits of links and counts of conversations whose kind is wrong.
const LINKS_AND_COUNTS: &str = r#"max_links = -1 => : max_links
max_links = 65536 => : max_links
max_links = "1" => : max_links
max_links = 1.0 => : max_links
conversations = true, max_links = true => : max_links
max_links = [1], conversations = [1] => : max_links
conversations = -1 => : conversations
conversations = 65536 => : conversations
conversations = "256", port = 1 => : conversations
max_links = 0, conversations = 256.0 => : conversations
conversations = false => : conversations
conversations = [256] => : conversations
max_links = 0, conversations = 257 => : port
max_link = 1, conversations = true => : extra key
Max_links = 1 => : extra key
max-links = 1 => : extra key
conversation = 256 => : extra key
Conversations = 256 => : extra key"#;

/// Limits of links and counts of conversations that are numbers.
const OTHER_LINKS_AND_COUNTS: &str = r#"max_links = 0 => : max links
max_links = 65 => : max links
max_links = 0, conversations = 0 => : max links
max_links = 65535, conversations = 0 => : max links
conversations = 0 => : conversation count
conversations = 1 => : conversation count
conversations = 255 => : conversation count
conversations = 257 => : conversation count
conversations = 4095 => : conversation count
max_links = 64, conversations = 4097 => : conversation count
conversations = 65535 => : conversation count
max_links = 1, conversations = 4096 => read
conversations = 256, max_links = 64 => read"#;

/// The keys of a port.
const PORTS: &str = r#"a = 1 => : extra key
 => : number
number = -1 => : number
number = 65536 => : number
number = "2", priority = -1 => : number
number = 2 => : key
number = 2, priority = -1 => : priority
number = 2, priority = 65536 => : priority
number = 2, priority = false, mac = false => : priority
number = 2, mac = 1 => : mac
number = 2, mac = "02-00-00-00-00", key = true => : mac
number = 2, key = -1 => : key
number = 2, key = 65536 => : key
number = 2, key = {}, aggregatable = 1 => : key
number = 2, key = 1, aggregatable = 1, active = 1 => : aggregatable
number = 2, key = 1, active = "true", short = 1 => : active
number = 2, key = 1, short = 0 => : short"#;

/// The keys of a cable.
const CABLES: &str = r#"a = 1 => : extra key
ends = [1, 1], a = 1 => : extra key
 => : ends
ends = 1 => : ends
ends = [] => : ends
ends = [1] => : ends
ends = [1, 1, 1] => : ends
ends = [1, -1] => : ends
ends = [65536, 1] => : ends
ends = [1, "1"] => : ends
ends = [0, 65535] => : end
ends = [1, 0] => : end
ends = [65535, 1] => : end"#;

/// Ends of a second cable.
const TAKEN: &str = r#"ends = [2, 1] => read
ends = [1, 1] => : end
ends = [2, 65535] => : end
ends = [1, 65535] => : end"#;

/// Entries that are no event, ticks, and what is sent.
const ENTRIES: &str = r#" => : word
Tick 1 1 => : word
 tick 1 1 => : word
ticks 1 1 => : word
offers 1 1 00 => : word
link 1 1 => : word
tick => : count
tick 1 => : count
tick  1 1 => : count
tick 1 1  => : count
tick 1 1 1 => : count
tick 3 1 => : system
tick 3 0 => : system
tick 0 x => : system
tick 65535 1 => : system
tick 65536 1 => : number
tick x 1 => : number
tick 1 0 => : number
tick 1 65536 => : number
tick 1  => : number
tick 1 +1 => : number
tick 1 -1 => : number
tick 1 1_0 => : number
tick 1 0x1 => : number
tick 1 18446744073709551617 => : number
emit 1 => : count
emit 1 1 1 => : count
emit 3 x => : system
emit 2 65536 => : number"#;

/// Entries that name a cable.
const ENTRIES_OF_CABLES: &str = r#"deliver 1 => : count
deliver 2 3 => : cable
deliver 0 1 => : cable
deliver 1 3 => : system
deliver 65536 3 => : number
lose 2 1 => : cable
lose 2 3 => : cable
repeat 2 3 => : cable
sense 2 3 => : cable
lose 1 0 => : system
lose 1 1 1 => : count
repeat 1 x => : number
repeat 0 1 => : cable
repeat 1 3 => : system
cut => : count
cut 0 => : cable
cut 2 => : cable
cut 65535 => : cable
cut 65536 => : number
cut +1 => : number
cut  => : number
cut 1 1 => : count
join 0 => : cable
join 2 => : cable
join => : count
sense 2 1 => : cable
sense 2 3 => : cable
sense 1 3 => : system
sense 1 => : count"#;

/// Entries that name a system.
const ENTRIES_OF_SYSTEMS: &str = r#"restart => : count
restart 3 => : system
restart 1 1 => : count
configure 1 1 1 128 => : count
configure 1 1 1 128 both => : kind
configure 1 1 1 128  => : kind
configure 1 1 1 128 Individual => : kind
configure 1 1 1 128 INDIVIDUAL => : kind
configure 1 1 1 128 aggregatables => : kind
configure 1 1 1 128 aggregatable extra => : count
configure 1 1 1 65536 both => : number
configure 1 1 65536 128 both => : number
configure 1 65536 1 128 both => : number
configure 0 65536 1 128 both => : system
offer 1 1 => : count
offer 1 1 0200000000200200000000100800 00 => : count
offer 1 1 0g => : hex
offer 1 1 0 => : hex
offer 1 1 0x00 => : hex
offer 1 65536 0g => : number
offer 3 65536 0g => : system
move 1 1 1 => : count
move 1 1 48 2 2 => : count
move 3 1 1 1 => : system
move 3 65536 1 1 => : system
move 1 65536 1 1 => : number
move 1 1 65536 1 => : number
move 1 1 1 65536 => : number
force 1 1 => : count
force 1 1 48 1 => : count
force 3 1 1 => : system
force 3 65536 1 => : system
force 1 65536 1 => : number
force 1 1 65536 => : number"#;

/// Smallest and greatest values of a system.
const SYSTEM_EDGES: &str =
    r#"priority = 0, max_delay = 0, first_marker = 0, port = [{number = 1, key = 1}] => read
priority = 65535, max_delay = 65535, first_marker = 4294967295, port = [{number = 1, key = 1}] => read"#;

/// Smallest and greatest keys.
const KEY_EDGES: &str = r#"aggregators = [0, 65535], port = [{number = 1, key = 0}] => read
aggregators = [1], port = [{number = 65535, key = 65535}] => read"#;

/// Smallest and greatest values of a port.
const PORT_EDGES: &str = r#"number = 2, priority = 0, key = 0 => read
number = 65535, priority = 65535, key = 65535 => read"#;

/// Smallest and greatest numbers of an entry.
const ENTRY_EDGES: &str = r#"tick 1 1 => read
tick 2 65535 => read
tick 00001 000065535 => read
emit 1 0 => read
emit 2 65535 => read
configure 1 0 0 0 individual => read
configure 2 65535 65535 65535 aggregatable => read
offer 1 65535  => read
move 1 65535 65535 65535 => read
force 1 65535 65535 => read"#;

/// Limits of a cable.
const LIMITS: &str = r#"limit = 1 => : ends
limit = 0 => : ends
ends = [2], limit = 0 => : ends
ends = [2, 1], limit = 0, a = 1 => : extra key
ends = [2, 1], limit = 1, limits = 1 => : extra key
ends = [2, 1], Limit = 1 => : extra key
ends = [2, 1], limit = 0 => : limit
ends = [2, 1], limit = -1 => : limit
ends = [2, 1], limit = 65536 => : limit
ends = [2, 1], limit = 4294967297 => : limit
ends = [2, 1], limit = "8" => : limit
ends = [2, 1], limit = 8.0 => : limit
ends = [2, 1], limit = true => : limit
ends = [2, 1], limit = [8, 8] => : limit
ends = [0, 1], limit = 0 => : limit
ends = [0, 1], limit = 8 => : end"#;

/// Limits that are read.
const LIMITS_READ: &str = r#"ends = [2, 1], limit = 1 => read
ends = [2, 1], limit = 65535 => read
limit = 8, ends = [2, 1] => read"#;

/// Cables and events of two systems.
const ORDER: &str = r#" => read
cable = [];events = [] => read
cable = 1;events = 1 => cable
cable = {ends = [1, 1]} => cable
cable = [{}, 1] => cable
cable = [{}];events = 1 => cable 1: ends
events = 1 => events
events = "tick 1 1" => events
events = ["", 1] => events
events = [["tick 1 1"]] => events
events = ["cut 1"] => event 1: cable
cable = [{ends = [7, 7]}];events = ["cut 1", ""] => event 2: word
cable = [{ends = [7, 7]}];events = ["cut 1"] => cable 1: end
cable = [{ends = [1, 1]}, {ends = [1, 1]}] => cable 2: end"#;

/// Cables and events of two systems with the same identifier.
const ORDER_OF_EQUAL: &str = r#" => two systems with one identifier
cable = [{ends = [7, 7]}] => two systems with one identifier
events = [""] => event 1: word"#;

/// The texts around lines, what is before each, and lines of texts and their outcomes.
type Texts = (&'static Frame<'static>, &'static str, &'static str);

const TEXTS: [Texts; 32] = [
    (&TOP, "", TOPS),
    (&SYSTEM_1, "", FIRST_KEYS),
    (&SYSTEM_1, MAC, LATER_KEYS),
    (&SYSTEM_1, AGGREGATORS, LINKS_AND_COUNTS),
    (&SYSTEM_1, WITH_PORT, OTHER_LINKS_AND_COUNTS),
    (&SYSTEM_1, AGGREGATORS, SYSTEM_EDGES),
    (&SYSTEM_2, "", FIRST_KEYS),
    (&SYSTEM_2, MAC, LATER_KEYS),
    (&SYSTEM_2, AGGREGATORS, LINKS_AND_COUNTS),
    (&SYSTEM_2, WITH_PORT, OTHER_LINKS_AND_COUNTS),
    (&SYSTEM_2, AGGREGATORS, SYSTEM_EDGES),
    (&SYSTEM_1, MAC, KEY_EDGES),
    (&PORT_1_OF_1, "", PORTS),
    (&PORT_2_OF_1, "", PORTS),
    (&PORT_1_OF_2, "", PORTS),
    (&PORT_2_OF_1, "", PORT_EDGES),
    (&CABLE_1, "", CABLES),
    (&CABLE_1, "", LIMITS),
    (&CABLE_2, "", CABLES),
    (&CABLE_2, "", LIMITS),
    (&CABLE_2, "", TAKEN),
    (&CABLE_2, "", LIMITS_READ),
    (&ENTRY_1, "", ENTRIES),
    (&ENTRY_1, "", ENTRIES_OF_CABLES),
    (&ENTRY_1, "", ENTRIES_OF_SYSTEMS),
    (&ENTRY_1, "", ENTRY_EDGES),
    (&ENTRY_2, "", ENTRIES),
    (&ENTRY_2, "", ENTRIES_OF_CABLES),
    (&ENTRY_2, "", ENTRIES_OF_SYSTEMS),
    (&ENTRY_2, "", ENTRY_EDGES),
    (&SYSTEMS, "", ORDER),
    (&EQUAL_SYSTEMS, "", ORDER_OF_EQUAL),
];

#[test]
fn texts_are_read_or_refused(rt: HostRuntime) -> Result<(), AllocError> {
    for (frame, given, lines) in TEXTS {
        have_outcomes(&rt, rt.alloc(), frame, given, lines)?;
    }
    Ok(())
}
