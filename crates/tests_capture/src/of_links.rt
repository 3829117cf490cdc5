use crate::given::{end, lacpdu, mac, said};
use captures::{LinkType, Order, Unit, put_file_header, put_packet};
use slowpdu::Info;
use std::alloc::{AllocError, Global};
use std::process::Abort;
use std::test::Fail;

/// Active, with short timeouts, aggregatable; then synchronized; then collecting and distributing.
const FAST: u8 = 0x07;

const ATTACHED: u8 = 0x0f;

const UP: u8 = 0x3f;

/// One end of a link: its system, key, port and state. A system has the MAC address of the one that is 128 lower, and is another
/// machine; 64 in it is another system priority.
#[derive(Clone, Copy)]
struct End(u8, u16, u16, u8);

/// The partner of an end on defaults.
const NOBODY: End = End(0, 0, 0, 0);

/// An LACPDU of one end to another, at this second.
#[derive(Clone, Copy)]
struct Sent(u32, End, End);

fn info(side: End) -> Info {
    let End(system, key, port, state) = side;
    let mut info = end(system & 63, key, port, state);
    if system & 64 != 0 {
        info.system.priority = 4096;
    }
    info
}

/// What is said of these LACPDUs.
fn told(alloc: Global, all: &[Sent]) -> Result<String, AllocError> {
    let mut file = Vec::new(alloc);
    put_file_header(&mut file, Order::Big, Unit::Micro, LinkType::Ethernet)?;
    for Sent(second, actor, partner) in all {
        let octets = lacpdu(mac(actor.0), info(*actor), info(*partner));
        let second = second.wrapping_add(100);
        put_packet(&mut file, Order::Big, second, 0, 124, &octets)?;
    }
    let (_, text) = said(alloc, &file)?;
    Ok(text)
}

/// That it begins with these lines, and the legend follows.
fn begins(rt: &impl Abort, alloc: Global, all: &[Sent], lines: &str) -> Result<(), Fail> {
    let text = told(alloc, all)?;
    let behind = text.as_str().strip_prefix(lines).unwrap_or("");
    assert!(rt; behind.starts_with("P1 = "), "{lines}{text}");
    Ok(())
}

/// That one link, both ends of which send at second 0, is said to be so.
fn one_link(rt: &impl Abort, alloc: Global, one: End, other: End, is: &str) -> Result<(), Fail> {
    let text = told(alloc, &[Sent(0, one, other), Sent(0, other, one)])?;
    let line = text.as_str().lines().nth(1).unwrap_or("");
    assert_eq!(rt; line.split_once(": ").map_or("", |(_, state)| state), is);
    Ok(())
}

/// Two links in use, with these keys of system 1 and of system 2.
fn two_links(one: [u16; 2], other: [u16; 2]) -> [Sent; 4] {
    let (first, second) = (End(1, one[0], 1, UP), End(1, one[1], 2, UP));
    let (third, fourth) = (End(2, other[0], 7, UP), End(2, other[1], 8, UP));
    [
        Sent(0, first, third),
        Sent(0, second, fourth),
        Sent(1, third, first),
        Sent(1, fourth, second),
    ]
}

#[test]
fn links_that_carry_and_keys_of_their_own(rt: HostRuntime) -> Result<(), Fail> {
    // Of one bundle, and of two bundles between two systems, whose keys are no keys apart.
    let lines = "\
links 2 carrying 2
link 02-00-00-00-00-01 port 1 - 02-00-00-00-00-02 port 7: carries, both ways
link 02-00-00-00-00-01 port 2 - 02-00-00-00-00-02 port 8: carries, both ways
";
    begins(&rt, rt.alloc(), &two_links([15, 15], [143, 143]), lines)?;
    begins(&rt, rt.alloc(), &two_links([1, 2], [8, 9]), lines)?;
    // As of two channel groups at a switch: bonding beside ports with keys 143 and 79 (6.3.6).
    let all = [
        Sent(0, End(1, 15, 1, FAST), End(2, 79, 7, ATTACHED)),
        Sent(0, End(1, 15, 2, UP), End(2, 143, 8, UP)),
        Sent(1, End(2, 79, 7, ATTACHED), End(1, 15, 1, FAST)),
        Sent(1, End(2, 143, 8, UP), End(1, 15, 2, UP)),
    ];
    let lines = "\
links 2 carrying 1
link 02-00-00-00-00-01 port 1 - 02-00-00-00-00-02 port 7: does not carry: 02-00-00-00-00-02 has key 79 here, and 143 on a link in use
link 02-00-00-00-00-01 port 2 - 02-00-00-00-00-02 port 8: carries, both ways
";
    begins(&rt, rt.alloc(), &all, lines)?;
    let lines = "\
links 2 carrying 2
link 02-00-00-00-00-01 port 1 - 02-00-00-00-00-02 port 7: carries, both ways, apart: 02-00-00-00-00-01 has key 1 here, and 2 on a link in use
link 02-00-00-00-00-01 port 2 - 02-00-00-00-00-02 port 8: carries, both ways, apart: 02-00-00-00-00-01 has key 2 here, and 1 on a link in use
";
    begins(&rt, rt.alloc(), &two_links([1, 2], [9, 9]), lines)?;
    Ok(())
}

// 6.4.4: whoever asks for short timeouts waits 3 seconds, else 90.
#[test]
fn an_end_that_sends_nothing_more_is_told(rt: HostRuntime) -> Result<(), Fail> {
    let told = |second| {
        [
            Sent(0, End(1, 1, 1, UP), End(2, 1, 1, UP)),
            Sent(second, End(2, 1, 1, UP), End(1, 1, 1, UP)),
        ]
    };
    let up = "\
links 1 carrying 1
link 02-00-00-00-00-01 port 1 - 02-00-00-00-00-02 port 1: carries, both ways
";
    let dead = "\
links 1 carrying 0
link 02-00-00-00-00-01 port 1 - 02-00-00-00-00-02 port 1: does not carry: 02-00-00-00-00-01 sends nothing after 0.000000
";
    begins(&rt, rt.alloc(), &told(3), up)?;
    begins(&rt, rt.alloc(), &told(4), dead)?;
    let slow = |second| {
        [
            Sent(0, End(1, 1, 1, UP), End(2, 1, 1, 0x3d)),
            Sent(second, End(2, 1, 1, 0x3d), End(1, 1, 1, UP)),
        ]
    };
    begins(&rt, rt.alloc(), &slow(90), up)?;
    begins(&rt, rt.alloc(), &slow(91), dead)
}

#[test]
fn a_state_says_why_a_link_does_not_carry(rt: HostRuntime) -> Result<(), Fail> {
    let (near, far) = (|state| End(1, 1, 1, state), |state| End(2, 1, 1, state));
    for one in [UP, 0x3e] {
        one_link(&rt, rt.alloc(), near(one), far(UP), "carries, both ways")?;
    }
    let unattached =
        "02-00-00-00-00-02 has not attached it: it uses another aggregator, or has links enough";
    let rows = [
        // not Active at either end
        (0x3e, far(0x3e), "both ends are passive"),
        // Defaulted, Expired
        (0x47, far(UP), "02-00-00-00-00-01 hears nobody"),
        (UP, far(0xbf), "02-00-00-00-00-02 hears nobody"),
        // not Aggregation at one end
        (0x03, far(FAST), "02-00-00-00-00-01 is individual"),
        (ATTACHED, far(FAST), unattached),
        // Collecting at one end
        (
            ATTACHED,
            far(0x1f),
            "its ends do not collect and distribute",
        ),
        (FAST, far(FAST), "its ends do not collect and distribute"),
        (
            UP,
            End(1, 1, 2, UP),
            "both ends have one system address, a loop or a copied identifier",
        ),
    ];
    for (one, other, why) in rows {
        let is = format!(in rt.alloc(); "does not carry: {why}")?;
        one_link(&rt, rt.alloc(), near(one), other, is.as_str())?;
    }
    Ok(())
}

#[test]
fn links_do_not_carry_to_another_partner_or_none(rt: HostRuntime) -> Result<(), Fail> {
    let all = [
        Sent(0, End(1, 1, 1, UP), End(2, 1, 1, UP)),
        Sent(0, End(2, 1, 1, UP), End(1, 1, 1, UP)),
        Sent(9, End(1, 1, 2, UP), End(2, 1, 2, UP)),
        Sent(9, End(2, 1, 2, UP), End(1, 1, 2, UP)),
    ];
    let lines = "\
links 2 carrying 1
link 02-00-00-00-00-01 port 1 - 02-00-00-00-00-02 port 1: does not carry: neither end sends any more
link 02-00-00-00-00-01 port 2 - 02-00-00-00-00-02 port 2: carries, both ways
";
    begins(&rt, rt.alloc(), &all, lines)?;
    // Three systems on a hub: each hears the last speaker (6.4.2.3, 6.4.9).
    let (one, two, three) = (End(1, 1, 1, UP), End(2, 1, 1, UP), End(3, 1, 1, UP));
    let all = [Sent(0, one, three), Sent(0, two, one)];
    let lines = "\
links 1 carrying 0
link 02-00-00-00-00-01 port 1 - 02-00-00-00-00-02 port 1: does not carry: 02-00-00-00-00-01 has another partner
";
    begins(&rt, rt.alloc(), &all, lines)?;
    let alone = [Sent(0, End(1, 1, 1, UP), End(2, 1, 1, UP))];
    let lines = "\
links 1 carrying 0
link 02-00-00-00-00-01 port 1: not seen: its other end is not in the capture
";
    begins(&rt, rt.alloc(), &alone, lines)?;
    let looped = [Sent(0, End(1, 1, 1, UP), End(1, 1, 1, UP))];
    let lines = "\
links 1 carrying 0
link 02-00-00-00-00-01 port 1: does not carry: both ends have one system address, a loop or a copied identifier
";
    begins(&rt, rt.alloc(), &looped, lines)?;
    Ok(())
}

#[test]
fn a_link_that_nobody_answers_waits_or_is_used_alone(rt: HostRuntime) -> Result<(), Fail> {
    // As of bonding beside a static channel: it uses port 1 alone, which its LACPDUs do not say.
    let all = [
        Sent(0, End(1, 15, 1, 0x4f), NOBODY),
        Sent(0, End(1, 15, 2, 0x47), NOBODY),
        Sent(4, End(1, 15, 1, 0x4f), NOBODY),
        Sent(4, End(1, 15, 2, 0x47), NOBODY),
    ];
    let lines = "\
links 2 carrying 0
link 02-00-00-00-00-01 port 1: not seen: nobody answers, and its end may use it alone
link 02-00-00-00-00-01 port 2: not seen: nobody answers, and its end may use it alone
";
    begins(&rt, rt.alloc(), &all, lines)?;
    // 6.4.13: without an active partner it sends nothing, however long the capture goes on.
    let all = [
        Sent(0, End(1, 15, 1, 0xc6), NOBODY),
        Sent(0, End(1, 15, 2, UP), End(2, 7, 2, UP)),
        Sent(99, End(1, 15, 2, UP), End(2, 7, 2, UP)),
    ];
    let lines = "\
links 2 carrying 0
link 02-00-00-00-00-01 port 1: not seen: nobody answers, and its end is passive: one end has to be active
link 02-00-00-00-00-01 port 2: not seen: its other end is not in the capture
";
    begins(&rt, rt.alloc(), &all, lines)?;
    Ok(())
}

// As of bonding, which drops LACPDUs of its own system, and stays Defaulted and Expired then (6.4.12): two machines, a cable
// between two ports of one machine, and a machine beside one with another priority that hears it.
#[test]
fn ends_of_one_system_make_a_link(rt: HostRuntime) -> Result<(), Fail> {
    let drops = |system, port| {
        [
            Sent(0, End(system, 15, port, 0xc7), NOBODY),
            Sent(4, End(system, 15, port, 0xcf), NOBODY),
        ]
    };
    let ([one, later], [copy, copy_later]) = (drops(1, 1), drops(0x81, 1));
    let ([port, port_later], hears) = (drops(1, 2), End(0xc1, 1, 1, 0x37));
    let is = ": does not carry: both ends have one system address, a loop or a copied identifier\n";
    for (all, ends) in [
        ([one, copy, later, copy_later], "81 port 1"),
        ([one, port, later, port_later], "01 port 2"),
        (
            [one, Sent(1, hears, one.1), later, Sent(4, hears, later.1)],
            "c1 port 1",
        ),
    ] {
        let text = told(rt.alloc(), &all)?;
        let behind = text.as_str().strip_prefix(
            "links 1 carrying 0\nlink 02-00-00-00-00-01 port 1 - 02-00-00-00-00-",
        );
        let state = behind.unwrap_or("").strip_prefix(ends).unwrap_or("");
        assert!(rt; state.starts_with(is), "{text}");
    }
    Ok(())
}

// 6.4.12: without LACPDUs an end is Expired for 3 seconds, and on defaults then; two ports of one machine that nobody answers, as
// one interface.
#[test]
fn an_end_that_starts_anew_on_defaults_is_no_loop(rt: HostRuntime) -> Result<(), Fail> {
    let port = |number, state| End(1, 15, number, state);
    let alone = "\
links 2 carrying 0
link 02-00-00-00-00-01 port 1: not seen: nobody answers, and its end may use it alone
link 02-00-00-00-00-01 port 2: not seen: nobody answers, and its end may use it alone
";
    let looped = "\
links 1 carrying 0
link 02-00-00-00-00-01 port 1 - 02-00-00-00-00-01 port 2: does not carry: both ends have one system address, a loop or a copied identifier
";
    for (state, since, second, lines) in [
        (0xc7, 0, 3, alone),
        (0xc7, 0, 4, looped),
        (0x47, 9, 12, alone),
        (0x47, 9, 13, looped),
        (0x87, 9, 12, alone),
    ] {
        let all = [
            Sent(0, port(1, state), NOBODY),
            Sent(0, port(2, 0x47), NOBODY),
            Sent(since, port(1, 0xc7), NOBODY),
            Sent(second, port(1, 0xc7), NOBODY),
            Sent(second, port(2, 0x47), NOBODY),
        ];
        begins(&rt, rt.alloc(), &all, lines)?;
    }
    Ok(())
}

/// Two ends that carry, of which the second loses its partner at second 3, and the first at this one.
fn lost(second: u32) -> [Sent; 6] {
    let (one, two) = (End(1, 1, 1, UP), End(2, 1, 1, UP));
    let (deaf, other) = (End(1, 1, 1, 0x87), End(2, 1, 1, 0x87));
    [
        Sent(0, one, two),
        Sent(0, two, one),
        Sent(3, other, one),
        Sent(second, deaf, other),
        Sent(9, End(1, 1, 1, 0x47), NOBODY),
        Sent(9, End(2, 1, 1, 0x47), NOBODY),
    ]
}

// A receiver that is dead: its end sends each 30 s on defaults, so the other one loses it, too (6.4.13).
#[test]
fn ends_that_lost_each_other_make_a_link(rt: HostRuntime) -> Result<(), Fail> {
    let (one, two) = (|state| End(1, 1, 1, state), |state| End(2, 1, 1, state));
    let never_heard = [
        Sent(0, two(0xc7), NOBODY),
        Sent(1, one(FAST), two(0xc7)),
        Sent(4, two(0x47), NOBODY),
        Sent(7, one(0x8f), two(0x47)),
        Sent(10, one(0x47), NOBODY),
    ];
    let lines = "\
links 1 carrying 0
link 02-00-00-00-00-02 port 1 - 02-00-00-00-00-01 port 1: does not carry: 02-00-00-00-00-02 hears nobody
";
    begins(&rt, rt.alloc(), &never_heard, lines)?;
    let lines = "\
links 1 carrying 0
link 02-00-00-00-00-01 port 1 - 02-00-00-00-00-02 port 1: does not carry: 02-00-00-00-00-02 hears nobody
";
    begins(&rt, rt.alloc(), &lost(6), lines)?;
    let lines = "\
links 1 carrying 0
link 02-00-00-00-00-01 port 1 - 02-00-00-00-00-02 port 1: does not carry: neither end hears the other
";
    begins(&rt, rt.alloc(), &lost(5), lines)
}

#[test]
fn ends_that_start_anew_and_third_ends_hide_no_link(rt: HostRuntime) -> Result<(), Fail> {
    // As of Open vSwitch whose bridge is made anew: its ports have other numbers then.
    let (one, before, since) = (End(1, 1, 1, UP), End(2, 1, 1, UP), End(2, 1, 3, UP));
    let all = [
        Sent(0, before, one),
        Sent(0, one, before),
        Sent(8, before, one),
        Sent(12, End(1, 1, 1, 0x8f), before),
        Sent(18, since, one),
        Sent(18, one, since),
        Sent(19, since, one),
    ];
    let lines = "\
links 1 carrying 1
link 02-00-00-00-00-01 port 1 - 02-00-00-00-00-02 port 3: carries, both ways
";
    begins(&rt, rt.alloc(), &all, lines)?;
    // Of three on one interface the link of two that have each other is told, whoever spoke first.
    let (one, two, three) = (End(1, 1, 1, UP), End(2, 1, 1, UP), End(3, 1, 1, UP));
    let all = [Sent(0, three, one), Sent(0, one, two), Sent(0, two, one)];
    let lines = "\
links 2 carrying 1
link 02-00-00-00-00-03 port 1 - 02-00-00-00-00-01 port 1: does not carry: 02-00-00-00-00-01 has another partner
link 02-00-00-00-00-01 port 1 - 02-00-00-00-00-02 port 1: carries, both ways
";
    begins(&rt, rt.alloc(), &all, lines)?;
    Ok(())
}

// As of a hub, where the two ends that name the first one change places: it has a fourth as its partner.
#[test]
fn of_two_ends_the_one_that_spoke_last_is_the_other_end(rt: HostRuntime) -> Result<(), Fail> {
    let (one, hidden) = (End(1, 1, 1, UP), End(4, 1, 1, UP));
    let (two, three) = (End(2, 1, 1, UP), End(3, 1, 1, UP));
    let all = |before, last| {
        [
            Sent(0, one, hidden),
            Sent(1, two, one),
            Sent(1, three, one),
            Sent(2, before, one),
            Sent(3, last, one),
            Sent(3, one, hidden),
        ]
    };
    let lines = "\
links 2 carrying 0
link 02-00-00-00-00-01 port 1 - 02-00-00-00-00-03 port 1: does not carry: 02-00-00-00-00-01 has another partner
link 02-00-00-00-00-02 port 1 - 02-00-00-00-00-01 port 1: does not carry: 02-00-00-00-00-01 has another partner
";
    begins(&rt, rt.alloc(), &all(two, three), lines)?;
    let lines = "\
links 2 carrying 0
link 02-00-00-00-00-01 port 1 - 02-00-00-00-00-02 port 1: does not carry: 02-00-00-00-00-01 has another partner
link 02-00-00-00-00-03 port 1 - 02-00-00-00-00-01 port 1: does not carry: 02-00-00-00-00-01 has another partner
";
    begins(&rt, rt.alloc(), &all(three, two), lines)
}

// As of Open vSwitch: one bond leads to two switches, each with one port that is individual (6.3.5).
#[test]
fn an_individual_end_is_told_beside_a_link_in_use(rt: HostRuntime) -> Result<(), Fail> {
    let (single, waits) = (0x3b, 0x0b);
    let all = [
        Sent(0, End(1, 1, 1, UP), End(2, 1, 1, single)),
        Sent(0, End(2, 1, 1, single), End(1, 1, 1, UP)),
        Sent(0, End(1, 1, 2, FAST), End(3, 1, 1, waits)),
        Sent(0, End(3, 1, 1, waits), End(1, 1, 2, FAST)),
    ];
    let lines = "\
links 2 carrying 1
link 02-00-00-00-00-01 port 1 - 02-00-00-00-00-02 port 1: carries, both ways
link 02-00-00-00-00-01 port 2 - 02-00-00-00-00-03 port 1: does not carry: 02-00-00-00-00-01 has not attached it: it uses another aggregator, or has links enough
";
    begins(&rt, rt.alloc(), &all, lines)?;
    let beside = |near, far| {
        [
            Sent(0, End(1, 1, 1, UP), End(2, 7, 7, UP)),
            Sent(0, End(2, 7, 7, UP), End(1, 1, 1, UP)),
            Sent(0, End(1, 1, 2, near), End(2, 7, 8, far)),
            Sent(0, End(2, 7, 8, far), End(1, 1, 2, near)),
        ]
    };
    let lines = "\
links 2 carrying 2
link 02-00-00-00-00-01 port 1 - 02-00-00-00-00-02 port 7: carries, both ways
link 02-00-00-00-00-01 port 2 - 02-00-00-00-00-02 port 8: carries, both ways, apart: 02-00-00-00-00-02 is individual
";
    begins(&rt, rt.alloc(), &beside(UP, single), lines)?;
    let lines = "\
links 2 carrying 1
link 02-00-00-00-00-01 port 1 - 02-00-00-00-00-02 port 7: carries, both ways
link 02-00-00-00-00-01 port 2 - 02-00-00-00-00-02 port 8: does not carry: 02-00-00-00-00-02 is individual
";
    begins(&rt, rt.alloc(), &beside(FAST, waits), lines)
}
