use crate::comparing::{same, same_at, same_in_row};
use dataplane::{Holding, Refusal, Released};
use std::process::Abort;
use std::test::Fail;

/// A call with its answer.
#[derive(Clone, Copy)]
enum Row {
    /// A handle is put into a conversation, and waits or is handed back.
    Put(u16, u32, Option<Refusal>),
    /// The oldest handle of a conversation is told, and then taken out, to be sent.
    Next(u16, Option<u32>),
    /// The oldest handle of a conversation is dropped.
    DropOldest(u16, Option<u32>),
    /// So many handles of a conversation are dropped.
    Clear(u16, usize),
}

/// Fails unless a handle is put into a conversation, or is handed back for this reason, which is told before.
fn puts(
    rt: &impl Abort,
    held: &mut Holding<u32>,
    place: usize,
    (conversation, handle): (u16, u32),
    refusal: Option<Refusal>,
) {
    let wanted = match refusal {
        Some(reason) => Err((reason, handle)),
        None => Ok(()),
    };
    same_at(
        rt,
        "the reason",
        place,
        &held.refusal(conversation),
        &refusal,
    );
    same_in_row(rt, place, &held.put(conversation, handle), &wanted);
}

/// Plays one row.
fn play(rt: &impl Abort, held: &mut Holding<u32>, place: usize, row: Row) {
    match row {
        Row::Put(conversation, handle, refusal) => {
            puts(rt, held, place, (conversation, handle), refusal);
        }
        Row::Next(conversation, wanted) => {
            let came = held.oldest(conversation).copied();
            same_at(rt, "the oldest", place, &came, &wanted);
            same_at(rt, "the next", place, &held.next(conversation), &wanted);
        }
        Row::DropOldest(conversation, wanted) => {
            same_in_row(rt, place, &held.drop_oldest(conversation), &wanted);
        }
        Row::Clear(conversation, wanted) => {
            same_in_row(rt, place, &held.clear(conversation), &wanted);
        }
    }
}

/// How many wait in conversations 0 and 1 and in all, how many were dropped, and how many were handed back.
type Counts = (usize, usize, usize, u64, u64);

/// Plays rows, and then compares what is counted.
fn plays(rt: &impl Abort, held: &mut Holding<u32>, rows: &[Row], wanted: Counts) {
    for (place, row) in rows.iter().enumerate() {
        play(rt, held, place, *row);
    }
    let (first, second, all, dropped, refused) = wanted;
    same(rt, "waiting in 0", &held.waiting(0), &first);
    same(rt, "waiting in 1", &held.waiting(1), &second);
    same(rt, "waiting in all", &held.waiting_in_all(), &all);
    same(rt, "dropped", &held.dropped(), &dropped);
    same(rt, "refused", &held.refused(), &refused);
}

#[test]
fn two_conversations_with_three_places_each_and_four_in_all(rt: HostRuntime) -> Result<(), Fail> {
    const FILLED: [Row; 8] = [
        Row::Next(0, None),
        Row::Put(0, 10, None),
        Row::Put(1, 20, None),
        Row::Put(0, 11, None),
        Row::Put(0, 12, None),
        Row::Put(0, 13, Some(Refusal::ConversationFull)),
        Row::Put(1, 21, Some(Refusal::AllFull)),
        Row::Put(2, 30, Some(Refusal::NoConversation)),
    ];
    const TURNED: [Row; 10] = [
        Row::Next(0, Some(10)),
        Row::Put(1, 21, None),
        Row::DropOldest(0, Some(11)),
        Row::Next(1, Some(20)),
        Row::Put(0, 14, None),
        Row::Put(0, 15, None),
        Row::Next(0, Some(12)),
        Row::Next(2, None),
        Row::DropOldest(2, None),
        Row::Clear(2, 0),
    ];
    const EMPTIED: [Row; 6] = [
        Row::Clear(0, 2),
        Row::Next(0, None),
        Row::DropOldest(1, Some(21)),
        Row::DropOldest(1, None),
        Row::Put(0, 16, None),
        Row::Next(0, Some(16)),
    ];
    let mut held = Holding::new(rt.alloc(), 2, 4, 3)?;
    plays(&rt, &mut held, &FILLED, (3, 1, 4, 0, 3));
    plays(&rt, &mut held, &TURNED, (2, 1, 3, 1, 3));
    plays(&rt, &mut held, &EMPTIED, (0, 0, 0, 4, 3));
    Ok(())
}

/// Fails unless the next handle of a conversation on these ports is this one: its conversation, its port and itself.
fn releases(
    rt: &impl Abort,
    held: &mut Holding<u32>,
    ports: &[u16],
    wanted: Option<(u16, u16, u32)>,
) {
    if ports.len() <= 65_536 {
        let wanted = wanted.map(|(conversation, port, handle)| Released {
            conversation,
            port,
            handle,
        });
        same(rt, "next_released", &held.next_released(ports), &wanted);
    }
}

#[test]
fn what_is_on_a_port_leaves_in_order_and_what_is_not_stays(rt: HostRuntime) -> Result<(), Fail> {
    const ROWS: [Row; 5] = [
        Row::Put(3, 30, None),
        Row::Put(1, 10, None),
        Row::Put(0, 1, None),
        Row::Put(1, 11, None),
        Row::Put(3, 31, None),
    ];
    let mut held = Holding::new(rt.alloc(), 4, 8, 8)?;
    plays(&rt, &mut held, &ROWS, (1, 2, 5, 0, 0));
    let ports = [0, 7, 7, 5];
    for wanted in &[
        Some((1, 7, 10)),
        Some((1, 7, 11)),
        Some((3, 5, 30)),
        Some((3, 5, 31)),
        None,
    ] {
        releases(&rt, &mut held, &ports, *wanted);
    }
    releases(&rt, &mut held, &[], None);
    plays(&rt, &mut held, &[], (1, 0, 1, 0, 0));
    plays(&rt, &mut held, &[Row::Next(0, Some(1))], (0, 0, 0, 0, 0));
    Ok(())
}

/// A queue of three places is full: a handle comes back, and the first of those in it leaves.
fn turns(rt: &impl Abort, held: &mut Holding<u32>, handle: u32) {
    let place = handle as usize;
    puts(rt, held, place, (0, handle), None);
    puts(
        rt,
        held,
        place,
        (0, handle),
        Some(Refusal::ConversationFull),
    );
    same_in_row(rt, place, &held.next(0), &Some(handle.wrapping_sub(2)));
}

#[test]
fn a_queue_serves_long_after_it_first_was_full(rt: HostRuntime) -> Result<(), Fail> {
    let mut held = Holding::new(rt.alloc(), 1, 3, 3)?;
    puts(&rt, &mut held, 0, (0, 0), None);
    puts(&rt, &mut held, 1, (0, 1), None);
    for handle in 2..40 {
        turns(&rt, &mut held, handle);
    }
    same(&rt, "refused", &held.refused(), &38);
    Ok(())
}

#[test]
fn all_memory_is_taken_at_the_start(rt: HostRuntime) -> Result<(), Fail> {
    let mut held = Holding::new(rt.alloc(), 16, 64, 8)?;
    for handle in 0..64u16 {
        let given = (handle % 16, u32::from(handle));
        puts(&rt, &mut held, usize::from(handle), given, None);
    }
    same(&rt, "next", &held.next(5), &Some(5));
    Ok(())
}

#[test]
fn a_conversation_has_no_more_places_than_may_wait_in_all(rt: HostRuntime) -> Result<(), Fail> {
    const FULL: Option<Refusal> = Some(Refusal::AllFull);
    const ROWS: [Row; 7] = [
        Row::Put(299, 70, None),
        Row::Put(299, 71, None),
        Row::Put(299, 72, None),
        Row::Put(299, 73, FULL),
        Row::Put(5, 74, FULL),
        Row::Next(299, Some(70)),
        Row::Put(5, 75, None),
    ];
    let mut held = Holding::new(rt.alloc(), 300, 3, usize::MAX)?;
    plays(&rt, &mut held, &ROWS, (0, 0, 3, 0, 2));
    let mut none: Holding<u32> = Holding::new(rt.alloc(), 300, 0, usize::MAX)?;
    puts(&rt, &mut none, 0, (299, 1), FULL);
    let mut none: Holding<u32> = Holding::new(rt.alloc(), 1, 1, 0)?;
    puts(&rt, &mut none, 1, (0, 1), Some(Refusal::ConversationFull));
    Ok(())
}
