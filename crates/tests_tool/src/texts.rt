use crate::comparing::told;
use lagsystem::PortChange;
use lagtypes::{AggId, Key};
use lagworld::Event;
use std::alloc::{AllocError, Global};
use std::test::Fail;

/// An event of each kind, in which no two numbers are equal, and its entry.
fn entries(alloc: Global) -> Result<[(Event, &'static str); 14], AllocError> {
    let (key, priority) = (Key(10), 11);
    let change = |aggregatable| PortChange {
        key,
        priority,
        aggregatable,
    };
    let frame = Vec::from_slice(alloc, &[0x0a, 0xbc])?;
    Ok([
        (Event::Tick(2, 65535), "tick 2 65535"),
        (Event::Emit(1, 7), "emit 1 7"),
        (Event::Deliver(3, 2), "deliver 3 2"),
        (Event::Lose(4, 1), "lose 4 1"),
        (Event::Repeat(5, 2), "repeat 5 2"),
        (Event::Cut(6), "cut 6"),
        (Event::Join(7), "join 7"),
        (Event::Sense(8, 1), "sense 8 1"),
        (Event::Restart(2), "restart 2"),
        (
            Event::Configure(1, 9, change(true)),
            "configure 1 9 10 11 aggregatable",
        ),
        (
            Event::Configure(1, 9, change(false)),
            "configure 1 9 10 11 individual",
        ),
        (Event::Offer(2, AggId(12), frame), "offer 2 12 0abc"),
        (Event::Move(1, AggId(13), 48, 14), "move 1 13 48 14"),
        (Event::Force(2, AggId(15), 49), "force 2 15 49"),
    ])
}

#[test]
fn each_event_has_its_entry(rt: HostRuntime) -> Result<(), Fail> {
    let rows = entries(rt.alloc())?;
    for (event, text) in rows.iter() {
        told(&rt, event, *text)?;
    }
    Ok(())
}
