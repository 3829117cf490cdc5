use crate::links::frames::{A, B, FAST, UP, a_to_b, at, b_to_a, on, shows};
use findings::{SlowFrame, What};
use slowpdu::{Marker, MarkerKind};

/// A frame of a system with a marker of port 1 of system A, or the response to it.
fn marker(milliseconds: u64, kind: MarkerKind, from: u8, id: u32) -> SlowFrame {
    let mut frame = at(milliseconds, a_to_b(FAST, FAST));
    let source = [2, 0, 0, 0, 0, from];
    let system = [2, 0, 0, 0, 0, A];
    frame.source = source;
    frame.what = What::Marker(Marker {
        kind,
        port: 1,
        system,
        id,
    });
    frame
}

fn asked(milliseconds: u64, id: u32) -> SlowFrame {
    marker(milliseconds, MarkerKind::Information, A, id)
}

fn answered(milliseconds: u64, id: u32) -> SlowFrame {
    marker(milliseconds, MarkerKind::Response, B, id)
}

/// An LACPDU of B, behind which it responds.
fn b_says() -> SlowFrame {
    at(0, b_to_a(UP, UP))
}

// 6.5.4: a response goes to the sender of a marker, one for each.
#[test]
fn a_response_that_nobody_asked_for_is_found(rt: HostRuntime) {
    let says = b_says();
    let (first, second) = (asked(100, 7), asked(110, 8));
    let (to_first, to_second) = (answered(200, 7), answered(210, 8));
    shows(&rt, &[says, first, second, to_first, to_second], 1000, &[]);
    shows(&rt, &[says, to_first], 1000, &[(20, 2)]);
    shows(&rt, &[says, to_first, to_second], 1000, &[(20, 2)]);
    shows(&rt, &[says, first, to_first, to_second], 1000, &[(20, 4)]);
    let other_port = of_port_2(to_first);
    shows(&rt, &[says, first, other_port], 1000, &[(20, 3)]);
    let mut other_system = to_first;
    other_system.what = What::Marker(Marker {
        kind: MarkerKind::Response,
        port: 1,
        system: [2, 0, 0, 0, 0, B],
        id: 7,
    });
    shows(&rt, &[says, first, other_system], 1000, &[(20, 3)]);
    // A marker on another interface asks nobody here.
    let elsewhere = on(1, first);
    shows(&rt, &[says, elsewhere, to_first], 1000, &[(20, 3)]);
    // Nor does a marker of B itself, to which A may respond.
    let own = marker(100, MarkerKind::Information, B, 7);
    shows(&rt, &[says, own, to_first], 1000, &[(20, 3)]);
}

/// The same frame of port 2 of system A, or for it.
fn of_port_2(mut frame: SlowFrame) -> SlowFrame {
    if let What::Marker(marker) = frame.what {
        frame.what = What::Marker(Marker { port: 2, ..marker });
    }
    frame
}

/// What B says, and then markers 1, 2 and so on.
fn says_and_waits<const N: usize>() -> [SlowFrame; N] {
    let mut frames = [b_says(); N];
    for (id, frame) in (1u32..).zip(frames.iter_mut().skip(1)) {
        *frame = asked(u64::from(id).wrapping_mul(10), id);
    }
    frames
}

#[test]
fn markers_of_two_links_and_more_than_eight(rt: HostRuntime) {
    // 6.5.4: markers of two links are under way at once on one interface, as at a mirror of both.
    let says = b_says();
    let (first, second) = (asked(100, 7), of_port_2(asked(110, 3)));
    let (to_first, to_second) = (answered(200, 7), of_port_2(answered(210, 3)));
    shows(&rt, &[says, first, second, to_first, to_second], 1000, &[]);
    shows(&rt, &[says, first, second, to_second, to_first], 1000, &[]);
    // Each frame is captured twice.
    let twice = [
        says, first, first, second, second, to_first, to_first, to_second, to_second,
    ];
    shows(&rt, &twice, 1000, &[]);
    let frames = [says, first, second, to_first, to_first];
    shows(&rt, &frames, 1000, &[(20, 5)]);
    // The first port's number in a response to the second one.
    let frames = [says, first, second, answered(200, 3)];
    shows(&rt, &frames, 1000, &[(20, 4)]);
    // A marker beyond eight that wait finds no place: no response is judged from then on.
    let (answer, other) = (answered(200, 1), answered(210, 99));
    let mut frames = says_and_waits::<11>();
    frames[9] = answer;
    frames[10] = other;
    shows(&rt, &frames, 1000, &[(20, 11)]);
    let mut frames = says_and_waits::<12>();
    frames[10] = answer;
    frames[11] = other;
    shows(&rt, &frames, 1000, &[]);
}

#[test]
fn markers_wait_for_their_response(rt: HostRuntime) {
    // 6.5.4: a response has the port, the system and the transaction of the marker.
    shows(&rt, &[asked(0, 7), answered(100, 7)], 10_000, &[]);
    shows(&rt, &[asked(0, 7), answered(3000, 7)], 10_000, &[]);
    shows(&rt, &[asked(0, 7), answered(3001, 7)], 10_000, &[(19, 1)]);
    shows(&rt, &[asked(0, 7)], 3000, &[]);
    shows(&rt, &[asked(0, 7)], 3001, &[(19, 1)]);
    shows(&rt, &[asked(0, 7), answered(100, 8)], 10_000, &[(19, 1)]);
    let elsewhere = on(1, answered(100, 7));
    shows(&rt, &[asked(0, 7), elsewhere], 10_000, &[(19, 1)]);
    let frames = [
        asked(0, 1),
        answered(1, 1),
        asked(1000, 2),
        asked(5000, 3),
        answered(5001, 3),
    ];
    shows(&rt, &frames, 20_000, &[(19, 3)]);
    let frames = [asked(0, 1), asked(4000, 2), asked(8000, 3)];
    shows(&rt, &frames, 20_000, &[(19, 1)]);
    let says = b_says();
    shows(&rt, &[says, asked(100, 7), answered(3100, 7)], 4000, &[]);
    // The marker has waited for too long, and its response is late.
    let frames = [says, asked(100, 7), answered(3101, 7)];
    shows(&rt, &frames, 4000, &[(21, 3), (19, 2)]);
    let frames = [says, asked(100, 7), asked(200, 8), answered(3150, 8)];
    shows(&rt, &frames, 3150, &[]);
}
