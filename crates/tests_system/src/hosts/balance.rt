use dataplane::{Carried, Move, next_move};
use std::process::Abort;

fn on(port: u16, load: u32) -> Carried {
    Carried { port, load }
}

fn moves(rt: &impl Abort, ports: &[u16], carried: &[Carried], wanted: Option<(u16, u16)>) {
    if carried.len() <= 65_536 {
        let wanted = wanted.map(|(conversation, port)| Move { conversation, port });
        assert_eq!(rt; next_move(ports, carried), wanted, "{ports:?} {carried:?}");
    }
}

#[test]
fn loads_move_where_they_are_less_than_the_difference(rt: HostRuntime) {
    let rows: [(&[u16], &[Carried], Option<(u16, u16)>); 15] = [
        // three, one and none: 3 1 0, then 2 1 1
        (
            &[1, 2, 3],
            &[on(1, 1), on(1, 1), on(1, 1), on(2, 1), on(0, 1)],
            Some((0, 3)),
        ),
        (
            &[1, 2, 3],
            &[on(3, 1), on(1, 1), on(1, 1), on(2, 1), on(0, 1)],
            None,
        ),
        // two and none: one moves; one and none: none does
        (&[4, 9], &[on(9, 1), on(9, 1)], Some((0, 4))),
        (&[4, 9], &[on(4, 1), on(9, 1)], None),
        (&[4, 9], &[on(0, 1), on(9, 1)], None),
        // 11 and 2: 8 moves; then 3 and 10: 2 goes back, since 8 is more than 7; then 5 and 8: neither moves
        (&[1, 2], &[on(1, 8), on(1, 3), on(2, 2)], Some((0, 2))),
        (&[1, 2], &[on(2, 8), on(1, 3), on(2, 2)], Some((2, 1))),
        (&[1, 2], &[on(2, 8), on(1, 3), on(1, 2)], None),
        // a load of 0 does not move, nor does one that is the whole difference
        (&[1, 2], &[on(1, 0), on(1, 5)], None),
        (&[1, 2], &[on(1, 0), on(1, 5), on(1, 1)], Some((1, 2))),
        // of two ports with 6 each, the second has a conversation that can move
        (&[1, 2, 3], &[on(1, 6), on(2, 3), on(2, 3)], Some((1, 3))),
        // other ports are let alone
        (&[], &[on(1, 1), on(1, 1)], None),
        (&[2], &[on(2, 1), on(2, 1)], None),
        (&[2, 3], &[on(1, 1), on(1, 1), on(2, 1)], None),
        (&[2, 3], &[], None),
    ];
    for (ports, carried, wanted) in rows {
        moves(&rt, ports, carried, wanted);
    }
}
