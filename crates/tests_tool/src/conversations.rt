use crate::replays::{BOTH_UP, MOVE, TWO_CABLES, plays};
use std::alloc::{AllocError, Global};
use std::process::Abort;
use std::test::Fail;

/// Two frames that are of one conversation among 256 and of two among 4,096.
const FAR_APART: &str = "offer 1 1 0200000001200200000000100800 -> port 1 serial 0 sent
offer 1 1 0200000000200200000000100800 -> port 1 serial 0 sent
move 1 1 304 2 -> moved
offer 1 1 0200000001200200000000100800 -> refused 5 held
offer 1 1 0200000000200200000000100800 -> port 1 serial 1 sent
move 1 1 4096 2 -> refused 9 not-assigned
cable 1 agreement same
cable 2 agreement same
flow 1/1/48 sent 2 collected none
flow 1/1/304 sent 1 collected none
";

/// The last of 4,096 conversations.
const LAST: &str = "offer 1 1 020000000fff0200000000000800 -> port 2 serial 0 sent
deliver 2 2 -> up 1
move 1 1 4095 1 -> moved
force 1 1 4095 -> forced
cable 1 agreement same
cable 2 agreement same
flow 1/1/4095 sent 1 collected 0 forced
";

/// The same frame from both systems.
const BY_SENDER: &str = "offer 1 1 0200000001200200000000100800 -> port 1 serial 0 sent
offer 2 1 0200000001200200000000100800 -> port 1 serial 0 sent
deliver 1 2 -> up 1
deliver 1 1 -> up 1
cable 1 agreement same
cable 2 agreement same
flow 1/1/48 sent 1 collected 0
flow 2/1/304 sent 1 collected 0
";

const MANY: &str = "conversations = 4096, ";

/// Two ports with Long Timeout.
const PORTS: &str =
    "port = [{ number = 1, key = 1, short = false }, { number = 2, key = 1, short = false }]";

/// Two systems with two ports each; each with more keys.
fn systems_with(alloc: Global, one: &str, two: &str) -> Result<String, AllocError> {
    let (mac, keys) = ("{ mac = \"02-00-00-00-00-0", "aggregators = [1], ");
    format!(in alloc;
        "system = [\n{mac}1\", {keys}{one}{PORTS} }},\n{mac}2\", {keys}{two}{PORTS} }},\n]\n"
    )
}

/// The report of a script with these keys of the two systems ends in this text.
fn ends_in(
    rt: &(impl Abort + AllocGlobal),
    (one, two): (&str, &str),
    text: &str,
) -> Result<(), Fail> {
    let systems = systems_with(rt.alloc(), one, two)?;
    plays(rt, &[BOTH_UP, text], &[systems.as_str(), TWO_CABLES])
}

/// The keys of both systems, and the end of the report.
const REPORTS: [(&str, &str, &str); 6] = [
    (MANY, "", FAR_APART),
    (MANY, MANY, FAR_APART),
    (MANY, "conversations = 256, ", LAST),
    ("", MANY, BY_SENDER),
    // a limit that no port exceeds
    ("max_links = 2, ", "max_links = 2, ", MOVE),
    ("max_links = 64, ", "max_links = 64, ", MOVE),
];

#[test]
fn flows_have_the_numbers_of_their_sender(rt: HostRuntime) -> Result<(), Fail> {
    for (one, two, text) in REPORTS {
        ends_in(&rt, (one, two), text)?;
    }
    Ok(())
}
