use crate::comparing::{holds, prints, same, same_in_row};
use bitflags::Flags;
use lagtypes::{
    AggId, Choice, Group, Key, OctetText, Party, PortId, State, StateBits, SystemId, decimal_u16,
    decimal_u32, words_of,
};
use std::alloc::{AllocError, Global};
use std::cmp::Ordering;
use std::process::Abort;

fn system(last: u8) -> SystemId {
    SystemId {
        priority: 32768,
        mac: [2, 0, 0, 0, 0, last],
    }
}

fn party(last: u8, aggregatable: bool) -> Party {
    Party {
        system: system(last),
        key: Key(1),
        port: PortId {
            priority: 128,
            number: 1,
        },
        aggregatable,
    }
}

/// A `Party` in which no two parameters are equal.
fn distinct() -> Party {
    Party {
        system: SystemId {
            priority: 4660,
            mac: [0x12, 0x34, 0x56, 0x78, 0x9a, 0xbc],
        },
        key: Key(3),
        port: PortId {
            priority: 200,
            number: 7,
        },
        aggregatable: true,
    }
}

/// The same party with another key.
fn next_key() -> Party {
    Party {
        key: Key(4),
        ..distinct()
    }
}

/// The same party with another port, which is Individual.
fn next_port() -> Party {
    Party {
        port: PortId {
            priority: 201,
            number: 6,
        },
        aggregatable: false,
        ..distinct()
    }
}

/// Texts of groups.
const ALONE: &str =
    "0/00-00-00-00-00-00 key 0 port 0/0 <> 32768/02-00-00-00-00-01 key 1 port 128/1";

const SHARED: &str = "32768/02-00-00-00-00-01 key 1 <> 32768/02-00-00-00-00-02 key 1";

const APART: &str =
    "4660/12-34-56-78-9a-bc key 3 port 200/7 <> 32768/02-00-00-00-00-02 key 1 port 128/1";

const BY_KEY: &str = "4660/12-34-56-78-9a-bc key 3 <> 4660/12-34-56-78-9a-bc key 4";

const BY_PORT: &str =
    "4660/12-34-56-78-9a-bc key 3 port 200/7 <> 4660/12-34-56-78-9a-bc key 3 port 201/6";

#[test]
fn groups_print_the_lower_end_first(rt: HostRuntime) -> Result<(), AllocError> {
    let rows = [
        (party(2, false), distinct(), APART),
        (next_key(), distinct(), BY_KEY),
        (next_port(), distinct(), BY_PORT),
        (party(1, true), Party::default(), ALONE),
        (Party::default(), party(1, true), ALONE),
        (party(1, true), party(2, true), SHARED),
        (party(2, true), party(1, true), SHARED),
    ];
    for (one, other, text) in &rows {
        prints(&rt, rt.alloc(), &Group::of(one, other), *text)?;
    }
    Ok(())
}

#[test]
fn groups_are_unordered_pairs(rt: HostRuntime) {
    let group = Group::of(&party(1, true), &party(2, true));
    let turned = Group::of(&party(2, true), &party(1, true));
    let alone = Group::of(&party(1, true), &party(2, false));
    holds(&rt, "the order does not count", group == turned);
    holds(&rt, "Aggregation counts", group != alone);
    let below = group.lower().is_below(&group.upper());
    holds(&rt, "the lower end is below the upper one", below);
}

#[test]
fn parties_match_by_all_six_parameters(rt: HostRuntime) {
    let party = distinct();
    holds(&rt, "matches itself", party.matches(&distinct()));
    let mut others = [party; 6];
    others[0].system.priority = 4661;
    others[1].system.mac[3] = 0;
    others[2].key = Key(4);
    others[3].port.priority = 201;
    others[4].port.number = 8;
    others[5].aggregatable = false;
    for (place, other) in others.iter().enumerate() {
        same_in_row(&rt, place, &party.matches(other), &false);
    }
}

/// The first port identifier is below the second one.
fn is_below(rt: &impl Abort, (a, m): (u16, u16), (b, n): (u16, u16)) {
    let below = PortId {
        priority: a,
        number: m,
    };
    let above = PortId {
        priority: b,
        number: n,
    };
    holds(rt, "below", below.is_below(&above));
    holds(rt, "above", above.cmp(&below) == Ordering::Greater);
}

#[test]
fn identifiers_compare_by_priority_first(rt: HostRuntime) {
    let low = SystemId {
        priority: 1,
        mac: [255, 0, 0, 0, 0, 0],
    };
    holds(&rt, "by priority", low.is_below(&system(1)));
    holds(&rt, "by address", system(1).is_below(&system(2)));
    is_below(&rt, (1, 9), (128, 1));
    is_below(&rt, (128, 1), (128, 2));
}

/// Octets, and what a state with these bits prints.
const STATES: [(u8, &str); 11] = [
    (0xc7, "c7 active,short,aggregatable,defaulted,expired"),
    (0x02, "02 short"),
    (0x00, "00 none"),
    (0x38, "38 synchronized,collecting,distributing"),
    (0x01, "01 active"),
    (0x04, "04 aggregatable"),
    (0x08, "08 synchronized"),
    (0x10, "10 collecting"),
    (0x20, "20 distributing"),
    (0x40, "40 defaulted"),
    (0x80, "80 expired"),
];

/// A state with these bits prints this text, and its names written again give the bits.
fn prints_state(rt: &impl Abort, alloc: Global, octet: u8, text: &str) -> Result<(), AllocError> {
    let state = State::from_bits_retain(octet);
    let again = State::from(state.named());
    same(rt, text, &again.bits(), &octet);
    prints(rt, alloc, &state, text)
}

#[test]
fn states_print_the_names_of_their_bits(rt: HostRuntime) -> Result<(), AllocError> {
    for (octet, text) in &STATES {
        prints_state(&rt, rt.alloc(), *octet, *text)?;
    }
    Ok(())
}

/// The results of the eight readers, from bit 0 on.
fn read(state: State) -> [bool; 8] {
    [
        state.is_active(),
        state.is_short(),
        state.is_aggregatable(),
        state.is_synchronized(),
        state.is_collecting(),
        state.is_distributing(),
        state.is_defaulted(),
        state.is_expired(),
    ]
}

#[test]
fn each_reader_has_its_bit(rt: HostRuntime) {
    let bits = [0x01, 0x02, 0x04, 0x08, 0x10, 0x20, 0x40, 0x80];
    for (place, octet) in bits.iter().enumerate() {
        let mut wanted = [false; 8];
        if let Some(bit) = wanted.get_mut(place) {
            *bit = true;
        }
        let state = State::from_bits_retain(*octet);
        same_in_row(&rt, place, &read(state), &wanted);
    }
}

/// Active, aggregatable and expired.
fn three_bits() -> State {
    State::from(StateBits {
        activity: true,
        aggregation: true,
        expired: true,
        ..StateBits::default()
    })
}

#[test]
fn states_are_read_and_written_by_name(rt: HostRuntime) {
    let state = three_bits();
    let wanted = [true, false, true, false, false, false, false, true];
    same(&rt, "readers", &read(state), &wanted);
    let rows = [
        (state, 0x85),
        (state.with_synchronization(true), 0x8d),
        (state.with_timeout(true).with_timeout(false), 0x85),
    ];
    for (place, (state, bits)) in rows.iter().enumerate() {
        same_in_row(&rt, place, &state.bits(), bits);
    }
}

#[test]
fn words_numbers_and_octets_are_read_and_printed(rt: HostRuntime) -> Result<(), AllocError> {
    let words = words_of(rt.alloc(), "tick  1\t2 ")?;
    same(&rt, "count", &words.len(), &4);
    for (place, wanted) in ["tick", "", "1\t2", ""].iter().enumerate() {
        same_in_row(&rt, place, &words.get(place), &Some(wanted));
    }
    prints(&rt, rt.alloc(), &Key(65535), "65535")?;
    prints(&rt, rt.alloc(), &AggId(1), "1")?;
    prints(&rt, rt.alloc(), &OctetText(0x0b), "0b")?;
    let first = Choice::Selected(AggId(1));
    holds(&rt, "not SELECTED at first", Choice::default() != first);
    Ok(())
}

#[test]
fn numbers_are_decimal_digits(rt: HostRuntime) {
    let rows = [
        ("0", Some(0)),
        ("007", Some(7)),
        ("65535", Some(65535)),
        ("65536", None),
        ("+1", None),
        ("-1", None),
        ("", None),
        ("1x", None),
        (" 1", None),
    ];
    for (row, (word, wanted)) in rows.iter().enumerate() {
        same_in_row(&rt, row, &decimal_u16(*word), wanted);
    }
    let greatest = decimal_u32("4294967295");
    same(&rt, "greatest", &greatest, &Some(4294967295));
    let past = decimal_u32("4294967296");
    same(&rt, "past the greatest", &past, &None);
    same(&rt, "plus sign", &decimal_u32("+1"), &None);
}
