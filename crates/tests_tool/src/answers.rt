use crate::comparing::{same, same_at, same_octets, same_text};
use crate::pieces::{Words, joined};
use crate::slow::sink_of;
use lagstreams::Sink;
use lagtool_jobs::{ToolFault, reply, show};
use std::alloc::Global;
use std::process::Abort;
use std::test::Fail;

/// A payload, whether it is accepted, and the text that is printed.
type Row = (Words, bool, &'static str);

const ACTIVE_SHORT: &str = "lacpdu
actor 32768/02-00-00-00-00-01 key 1 port 128/1 state c7 active,short,aggregatable,defaulted,expired
partner 0/00-00-00-00-00-00 key 0 port 0/0 state 02 short
max-delay 0
";

const LACPDU: Words = "HEAD 00*66";

/// No two fields are equal.
const EACH_FIELD: Words =
    "01010114101112131415161718191a1b1c1d1e000000 0214202122232425262728292a2b2c2d2e0000000310 3031 00*64";

const EACH_FIELD_TEXT: &str = "lacpdu
actor 4113/12-13-14-15-16-17 key 6169 port 6683/7197 state 1e short,aggregatable,synchronized,collecting
partner 8225/22-23-24-25-26-27 key 10281 port 10795/11309 state 2e short,aggregatable,synchronized,distributing
max-delay 12337
";

/// Other TLV types, and reserved octets that are not zero.
const VERSION_2: Words =
    "010209148000020000000001000100800001c7ffffff 0914 00*14 02ffffff 09100000 ff*64";

/// The fault names the lower offset.
const TWO_WRONG_LENGTHS: Words =
    "010101148000020000000001000100800001c7000000 0213 00*14 02000000 030f 00*66";

const PAYLOADS: [Row; 12] = [
    (LACPDU, true, ACTIVE_SHORT),
    (EACH_FIELD, true, EACH_FIELD_TEXT),
    (VERSION_2, true, ACTIVE_SHORT),
    ("HEAD 00*65", false, "refused 1 short have 109\n"),
    ("HEAD 00*66 aa*40", true, ACTIVE_SHORT),
    ("", false, "refused 1 short have 0\n"),
    (
        TWO_WRONG_LENGTHS,
        false,
        "refused 3 length at 23 found 19\n",
    ),
    ("03 00*109", false, "refused 2 subtype 3\n"),
    (
        "MARKER 00*92",
        true,
        "marker\nport 1 system 02-00-00-00-00-01 id 4294967295\n",
    ),
    (
        "RESPONSE 00*94",
        true,
        "marker-response\nport 1 system 02-00-00-00-00-01 id 4294967295\n",
    ),
    (
        "020103100001020000000001ffffffffbeef 00*92",
        false,
        "refused 4 marker-tlv 3\n",
    ),
    (
        "0201010f0001020000000001ffffffffbeef 00*92",
        false,
        "refused 3 length at 3 found 15\n",
    ),
];

/// Frames that get no response, and the text that is printed.
const FRAMES: [(Words, &str); 7] = [
    (
        "TO_ALL FROM_2 SLOW RESPONSE 00*94",
        "no answer marker-response\n",
    ),
    ("DATA", "no answer data\n"),
    ("02000000002002000000001088", "no answer runt\n"),
    ("", "no answer runt\n"),
    ("TO_ALL FROM_1 SLOW HEAD 00*66", "no answer lacpdu\n"),
    ("TO_ALL FROM_1 SLOW", "refused 1 short have 0\n"),
    ("TO_ALL FROM_1 SLOW 03 00*109", "refused 2 subtype 3\n"),
];

fn shown(alloc: Global, hex: &str) -> Result<(bool, String), ToolFault> {
    let mut sink = Sink::new(Vec::new(alloc));
    let accepted = show(alloc, hex, &mut sink)?;
    let written = String::from_utf8_lossy(alloc, sink.into_inner().as_slice())?;
    Ok((accepted, written))
}

fn replied(alloc: Global, mac: &str, hex: &str) -> Result<(bool, String), ToolFault> {
    let mut sink = Sink::new(Vec::new(alloc));
    let answered = reply(alloc, mac, hex, &mut sink)?;
    let written = String::from_utf8_lossy(alloc, sink.into_inner().as_slice())?;
    Ok((answered, written))
}

/// `decode` prints this text for these digits, and answers whether the payload is accepted.
fn shows_as(
    rt: &(impl Abort + AllocGlobal),
    hex: &str,
    accepted: bool,
    text: &str,
) -> Result<(), Fail> {
    let (verdict, written) = shown(rt.alloc(), hex)?;
    same_text(rt, hex, written.as_str(), text);
    same(rt, hex, &verdict, &accepted);
    Ok(())
}

/// Compares what is shown for the payload in lower and in upper case.
fn shows_both(rt: &(impl Abort + AllocGlobal), (words, accepted, text): Row) -> Result<(), Fail> {
    let mut hex = joined(rt.alloc(), words)?;
    shows_as(rt, hex.as_str(), accepted, text)?;
    hex.make_ascii_uppercase();
    shows_as(rt, hex.as_str(), accepted, text)
}

#[test]
fn payloads_in_both_cases(rt: HostRuntime) -> Result<(), Fail> {
    for row in PAYLOADS {
        shows_both(&rt, row)?;
    }
    Ok(())
}

/// `respond` with this MAC address prints this text for a frame, and answers whether it gets a response.
fn replies_with(
    rt: &(impl Abort + AllocGlobal),
    (mac, frame): (&str, &str),
    answered: bool,
    text: &str,
) -> Result<(), Fail> {
    let (verdict, written) = replied(rt.alloc(), mac, frame)?;
    same_text(rt, frame, written.as_str(), text);
    same(rt, frame, &verdict, &answered);
    Ok(())
}

/// A marker is answered from this MAC address, which is `source` in lower case. The destination address does not matter.
fn marker_answered(rt: &(impl Abort + AllocGlobal), mac: &str, source: &str) -> Result<(), Fail> {
    let frame = joined(rt.alloc(), "020000000009 FROM_1 SLOW MARKER 00*92")?;
    let answer = format!(in rt.alloc(); "TO_ALL {source} SLOW RESPONSE 00*94 \n")?;
    let text = joined(rt.alloc(), answer.as_str())?;
    replies_with(rt, (mac, frame.as_str()), true, text.as_str())
}

#[test]
fn markers_are_answered_and_other_frames_are_not(rt: HostRuntime) -> Result<(), Fail> {
    marker_answered(&rt, "020000000002", "020000000002")?;
    marker_answered(&rt, "02ABCDEF0002", "02abcdef0002")?;
    for (words, text) in FRAMES {
        let frame = joined(rt.alloc(), words)?;
        replies_with(&rt, ("020000000002", frame.as_str()), false, text)?;
    }
    Ok(())
}

/// A frame that is not hexadecimal either is looked at behind the address.
#[test]
fn words_that_are_not_hexadecimal_or_no_address(rt: HostRuntime) {
    for hex in ["0", "010", "zz", "0g", "01 1", "0x01", "é1"] {
        let wanted = Err(ToolFault::NotHex);
        same(&rt, hex, &shown(rt.alloc(), hex), &wanted);
        let said = replied(rt.alloc(), "020000000002", hex);
        same(&rt, hex, &said, &wanted);
    }
    for mac in [
        "",
        "02000000000",
        "0200000000021",
        "02000000000002",
        "02000000000g",
    ] {
        let said = replied(rt.alloc(), mac, "zz");
        same(&rt, mac, &said, &Err(ToolFault::NotMac));
    }
}

/// A payload is shown into a sink with room for so many octets.
fn shown_into(rt: &(impl Abort + AllocGlobal), hex: &str, room: usize, errs: bool) {
    let text = ACTIVE_SHORT.as_bytes();
    let fits = room >= text.len();
    let expected = if fits {
        Ok(true)
    } else {
        Err(ToolFault::Write)
    };
    let mut sink = sink_of(rt.alloc(), room, errs);
    let answer = show(rt.alloc(), hex, &mut sink);
    same_at(rt, "octets of room", room, &answer, &expected);
    same_at(
        rt,
        "a failure at octets of room",
        room,
        &sink.failed(),
        &!fits,
    );
    let taken = sink.into_inner().taken;
    let wanted = &text[..room.min(text.len())];
    same_octets(rt, "octets of room", room, taken.as_slice(), wanted);
}

#[test]
fn a_text_and_an_answer_into_a_sink_that_fails(rt: HostRuntime) -> Result<(), Fail> {
    let hex = joined(rt.alloc(), LACPDU)?;
    for room in 0..=ACTIVE_SHORT.len() {
        shown_into(&rt, hex.as_str(), room, false);
        shown_into(&rt, hex.as_str(), room, true);
    }
    let text = b"no answer runt\n";
    for (room, expected) in [(14, Err(ToolFault::Write)), (15, Ok(false))] {
        let mut sink = sink_of(rt.alloc(), room, false);
        let answer = reply(rt.alloc(), "020000000002", "00", &mut sink);
        same_at(&rt, "octets of room", room, &answer, &expected);
        let taken = sink.into_inner().taken;
        same_octets(&rt, "octets of room", room, taken.as_slice(), &text[..room]);
    }
    Ok(())
}
