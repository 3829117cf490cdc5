use crate::comparing::{same, same_in_row};
use crate::systems::{Row, config, end, lacpdu, mac, modulo, no_partner, plays};
use lagsystem::{
    BadConfig, Choice, Config, Key, NoMemory, Party, PortChange, PortConfig, Received, System,
    SystemFault,
};
use slowpdu::{Lacpdu, frame};
use std::alloc::{AllocError, Global};
use std::process::Abort;

/// Writes the numbers from 1 on.
fn number_all(numbers: &mut [u16]) {
    for (number, place) in (1..).zip(numbers.iter_mut()) {
        *place = number;
    }
}

/// The numbers of as many ports as a system may have.
pub(crate) fn most_numbers() -> [u16; 64] {
    let mut numbers = [0; 64];
    number_all(&mut numbers);
    numbers
}

#[test]
fn the_most_ports_and_aggregators(rt: HostRuntime) -> Result<(), SystemFault> {
    let most = most_numbers();
    let given = config(rt.alloc(), &most, 64)?;
    let rows = [Row::Chosen(64, Choice::Unselected), Row::Has(&most, 64)];
    assert_eq!(rt; given.refusal(), None);
    plays(&rt, rt.alloc(), given, "the most", &rows)
}

/// A configuration is refused for this reason, by `refusal` and by `new`.
fn is_refused(rt: &impl Abort, alloc: Global, given: Config, reason: BadConfig) {
    same(rt, "refusal", &given.refusal(), &Some(reason));
    let refused = plays(rt, alloc, given, "refused", &[]).err();
    same(rt, "new", &refused, &Some(SystemFault::BadConfig(reason)));
}

/// Ports with these numbers and this many aggregators are refused for this reason.
fn refuses(
    rt: &impl Abort,
    alloc: Global,
    numbers: &[u16],
    keys: usize,
    reason: BadConfig,
) -> Result<(), SystemFault> {
    let given = config(alloc, numbers, keys)?;
    is_refused(rt, alloc, given, reason);
    Ok(())
}

#[test]
fn configurations_are_refused_in_order(rt: HostRuntime) -> Result<(), SystemFault> {
    let mut many = [0; 65];
    number_all(&mut many);
    let rows: [(&[u16], usize, BadConfig); 8] = [
        (&[], 0, BadConfig::Ports),
        (&many, 65, BadConfig::Ports),
        (&[0], 0, BadConfig::Aggregators),
        (&[0], 65, BadConfig::Aggregators),
        (&[0, 0], 1, BadConfig::PortNumber(1)),
        (&[1, 1, 0], 1, BadConfig::PortNumber(2)),
        (&[1, 3, 2], 64, BadConfig::PortNumber(3)),
        (&[65535, 1], 1, BadConfig::PortNumber(2)),
    ];
    for (numbers, keys, reason) in &rows {
        refuses(&rt, rt.alloc(), *numbers, *keys, *reason)?;
    }
    Ok(())
}

/// Ports with these numbers and two aggregators, with this limit of links and this many conversations.
fn counted(
    alloc: Global,
    numbers: &[u16],
    limit: Option<u16>,
    conversations: u16,
) -> Result<Config, NoMemory> {
    let mut given = config(alloc, numbers, 2)?;
    given.max_links = limit;
    given.conversations = conversations;
    Ok(given)
}

/// A configuration in which the limit and the count are refused too is refused for the first reason.
#[test]
fn other_limits_and_counts_are_refused_last(rt: HostRuntime) -> Result<(), SystemFault> {
    for conversations in &[0, 2, 255, 257, 4095, 4097, 65535] {
        let given = counted(rt.alloc(), &[1, 2], None, *conversations)?;
        is_refused(&rt, rt.alloc(), given, BadConfig::Conversations);
    }
    for limit in &[0, 65, 65535] {
        let given = counted(rt.alloc(), &[1, 2], Some(*limit), 256)?;
        is_refused(&rt, rt.alloc(), given, BadConfig::MaxLinks);
    }
    let rows: [(&[u16], u16, u16, Option<BadConfig>); 7] = [
        (&[1, 1], 0, 0, Some(BadConfig::PortNumber(2))),
        (&[1, 2], 65, 257, Some(BadConfig::MaxLinks)),
        (&[1, 2], 3, 257, Some(BadConfig::Conversations)),
        (&[1, 2], 3, 4096, None),
        (&[1, 2], 3, 1, None),
        (&[1, 2], 1, 256, None),
        (&[1, 2], 64, 256, None),
    ];
    for (place, (numbers, limit, conversations, reason)) in rows.iter().enumerate() {
        let given = counted(rt.alloc(), *numbers, Some(*limit), *conversations)?;
        same_in_row(&rt, place, &given.refusal(), reason);
    }
    Ok(())
}

/// The reasons to refuse a configuration, in the order of their numbers, from 1 on.
const REASONS: [BadConfig; 5] = [
    BadConfig::Ports,
    BadConfig::Aggregators,
    BadConfig::PortNumber(7),
    BadConfig::MaxLinks,
    BadConfig::Conversations,
];

/// Their texts.
const REASON_TEXTS: &str = "the configuration has not 1 to 64 ports
the configuration has not 1 to 64 aggregators
the port at place 7 has the number 0 or one that is not above the number before it
the limit of links of an aggregator is not 1 to 64
the configuration has not 1, 256 or 4096 conversations";

/// A reason has this number; and it, and the fault that it is the reason of, print this text.
fn tells_reason(
    rt: &impl Abort,
    alloc: Global,
    reason: BadConfig,
    number: u8,
    text: &str,
) -> Result<(), AllocError> {
    let fault = SystemFault::BadConfig(reason);
    same(rt, text, &(reason.number(), fault.number()), &(number, 11));
    let printed = format!(in alloc; "{reason} {fault}")?;
    let wanted = format!(in alloc; "{text} {text}")?;
    same(rt, "the texts", &printed, &wanted);
    Ok(())
}

#[test]
fn reasons_have_numbers_and_texts(rt: HostRuntime) -> Result<(), AllocError> {
    let mut number = 0u8;
    for (reason, text) in REASONS.iter().zip(REASON_TEXTS.lines()) {
        number = number.saturating_add(1);
        tells_reason(&rt, rt.alloc(), *reason, number, text)?;
    }
    Ok(())
}

/// A passive, Individual port with Long Timeout, another priority and another address, in a system with a
/// CollectorMaxDelay.
fn odd(alloc: Global) -> Result<Config, NoMemory> {
    let mut given = config(alloc, &[5], 1)?;
    given.max_delay = 7;
    for key in given.aggregators.iter_mut() {
        *key = Key(3);
    }
    for port in given.ports.iter_mut() {
        *port = PortConfig {
            number: 5,
            priority: 9,
            mac: mac(4),
            key: Key(3),
            aggregatable: false,
            active: false,
            short: false,
        };
    }
    Ok(given)
}

/// The port after its values are changed.
fn odd_party_after() -> Party {
    let mut own = end(1, 5, 12, 0x04);
    own.port.priority = 10;
    own.party()
}

#[test]
fn a_port_is_as_it_is_configured(rt: HostRuntime) -> Result<(), SystemFault> {
    let theirs = end(2, 6, 8, 0x07);
    let mut own = end(1, 5, 3, 0x00);
    own.port.priority = 9;
    let mut system = System::new(rt.alloc(), odd(rt.alloc())?, modulo)?;
    same(&rt, "party", &system.party(5), &Some(own.party()));
    same(&rt, "set_link", &system.set_link(5, true), &Ok(()));
    let heard = frame(mac(9), &lacpdu(theirs, no_partner(0)));
    let came = system.receive(5, &heard);
    same(&rt, "receive", &came, &Ok(Received::TookLacpdu));
    let due = Lacpdu {
        actor: own,
        partner: theirs,
        max_delay: 7,
    };
    let sent = frame(mac(4), &due.encode());
    same(&rt, "transmit", &system.transmit(5), &Ok(Some(sent)));
    let change = PortChange {
        key: Key(12),
        priority: 10,
        aggregatable: true,
    };
    same(&rt, "configure", &system.configure(5, change), &Ok(true));
    same(&rt, "party", &system.party(5), &Some(odd_party_after()));
    Ok(())
}
