use crate::comparing::same_in_row;
use dataplane::{Churn, ChurnMachine, ChurnState, Counters};
use lagsystem::{AggId, Received, WireFault};

/// What a churn detection machine is: its state, for how many ticks it has waited, and how often the end churned and was in sync.
type Machine = (ChurnState, u16, u64, u64);

/// Ticks that find the same: whether the port is enabled, and whether the actor and the partner are in sync. And what the machines of
/// both are then.
type Row = (u16, [bool; 3], [Machine; 2]);

const MONITOR: ChurnState = ChurnState::Monitor;

const CALM: ChurnState = ChurnState::NoChurn;

const CHURN: ChurnState = ChurnState::Churn;

/// A partner that is out of sync for 60 s, then in sync while the actor is not; and a link that goes down.
const CHURNING: [Row; 8] = [
    (
        700,
        [false, true, false],
        [(MONITOR, 0, 0, 0), (MONITOR, 0, 0, 0)],
    ),
    (
        599,
        [true, true, false],
        [(CALM, 0, 0, 1), (MONITOR, 599, 0, 0)],
    ),
    (1, [true, true, false], [(CALM, 0, 0, 1), (CHURN, 0, 1, 0)]),
    (
        600,
        [true, true, false],
        [(CALM, 0, 0, 1), (CHURN, 0, 1, 0)],
    ),
    (
        599,
        [true, false, true],
        [(MONITOR, 599, 0, 1), (CALM, 0, 1, 1)],
    ),
    (
        1,
        [false, false, true],
        [(MONITOR, 0, 0, 1), (MONITOR, 0, 1, 1)],
    ),
    (
        600,
        [true, false, false],
        [(CHURN, 0, 1, 1), (CHURN, 0, 2, 1)],
    ),
    (1, [true, true, true], [(CALM, 0, 1, 2), (CALM, 0, 2, 2)]),
];

fn told(machine: &ChurnMachine) -> Machine {
    let churns = machine.churns;
    (
        machine.state,
        machine.waited,
        churns,
        machine.synchronizations,
    )
}

#[test]
fn an_end_that_is_out_of_sync_for_60_s_churns(rt: HostRuntime) {
    let mut churn = Churn::at_begin();
    for (at, (ticks, [enabled, actor, partner], then)) in CHURNING.iter().enumerate() {
        for _ in 0..*ticks {
            churn.tick(*enabled, *actor, *partner);
        }
        same_in_row(&rt, at, &[told(&churn.actor), told(&churn.partner)], then);
    }
}

/// A frame to 01-80-C2-00-00-02 of this EtherType, subtype and TLV type.
fn frame(ether_type: [u8; 2], subtype: u8, tlv_type: u8) -> [u8; 17] {
    let [high, low] = ether_type;
    [
        1, 0x80, 0xc2, 0, 0, 2, 2, 0, 0, 0, 0, 9, high, low, subtype, 1, tlv_type,
    ]
}

fn other_subtype(subtype: u8) -> Received {
    Received::Ignored(WireFault::OtherSubtype(subtype))
}

/// What came, and what became of it. The last two do not count.
fn arrivals() -> [([u8; 17], Received); 17] {
    let (slow, other) = ([0x88, 0x09], [0x08, 0x00]);
    let short = Received::Ignored(WireFault::Short { have: 3 });
    let mut elsewhere = frame(other, 3, 0);
    elsewhere[5] = 0x03;
    [
        (frame(slow, 1, 1), Received::TookLacpdu),
        (frame(slow, 2, 1), Received::Respond([0; 124])),
        (frame(slow, 2, 1), Received::Respond([0; 124])),
        (frame(slow, 2, 2), Received::Released(0)),
        (frame(slow, 2, 2), Received::Released(7)),
        (frame(slow, 2, 2), Received::Released(7)),
        (frame(slow, 3, 0), short),
        (frame(slow, 10, 0), other_subtype(10)),
        (frame(other, 1, 0), Received::Up(AggId(1))),
        (frame(other, 1, 0), Received::Dropped),
        (frame(slow, 1, 1), short),
        (
            frame(slow, 2, 3),
            Received::Ignored(WireFault::MarkerTlv(3)),
        ),
        (frame(slow, 0, 0), short),
        (frame(slow, 11, 0), other_subtype(11)),
        (frame(slow, 255, 0), other_subtype(255)),
        (frame(slow, 1, 1), Received::Disabled),
        (elsewhere, Received::Up(AggId(1))),
    ]
}

#[test]
fn each_frame_counts_once(rt: HostRuntime) {
    let (slow, other) = ([0x88, 0x09], [0x08, 0x00]);
    let mut counters = Counters::none();
    for (octets, answer) in &arrivals() {
        counters.count_received(octets, answer);
    }
    counters.count_received(&frame(other, 1, 0)[..13], &Received::Dropped);
    counters.count_received(&frame(other, 1, 0)[..14], &Received::Dropped);
    counters.count_received(
        &frame(slow, 3, 0)[..14],
        &Received::Ignored(WireFault::Short { have: 0 }),
    );
    for (octets, times) in &[
        (frame(slow, 1, 1), 3u8),
        (frame(slow, 1, 2), 1),
        (frame(slow, 2, 1), 7),
        (frame(slow, 2, 2), 8),
        // these do not count
        (frame(slow, 2, 3), 1),
        (frame(slow, 3, 1), 1),
        (frame([0x88, 0x00], 1, 1), 1),
        (frame([0x08, 0x09], 2, 1), 1),
    ] {
        for _ in 0..*times {
            counters.count_sent(octets);
        }
    }
    let wanted = Counters {
        lacpdus_received: 1,
        markers_received: 2,
        marker_responses_received: 3,
        unknown_received: 5,
        illegal_received: 6,
        lacpdus_sent: 4,
        markers_sent: 7,
        marker_responses_sent: 8,
    };
    same_in_row(&rt, 0, &counters, &wanted);
}
