use crate::comparing::same;
use crate::worlds::given::{TWO_LONG, script};
use crate::worlds::joined::joined;
use lagscript::read_script;
use lagtypes::AggId;
use lagworld::Event;
use std::alloc::{AllocError, Global};

const ENTRIES: &str = "sense 2 1 => Sensed(true)
tick 1 10 => Ticked
offer 1 1 02ff => Nothing
move 1 1 48 2 => Moved
deliver 1 2 => Up(AggId(1))
";

/// The events of `ENTRIES` as values.
fn events(alloc: Global) -> Result<Vec<Event>, AllocError> {
    let mut events = Vec::new(alloc);
    let offered = Vec::from_slice(alloc, &[2, 0xff])?;
    events.push(Event::Sense(2, 1))?;
    events.push(Event::Tick(1, 10))?;
    events.push(Event::Offer(1, AggId(1), offered))?;
    events.push(Event::Move(1, AggId(1), 48, 2))?;
    events.push(Event::Deliver(1, 2))?;
    Ok(events)
}

/// The text of what is read from the script, and the text of the expected configuration and events.
fn readings(alloc: Global) -> Result<(String, String), AllocError> {
    let text = script(alloc, TWO_LONG, &ENTRIES)?;
    let came = match read_script(alloc, text.as_str()) {
        Ok((config, events)) => format!(in alloc; "{config:?} {events:?}")?,
        Err(fault) => format!(in alloc; "{fault}")?,
    };
    let config = joined(alloc, 2, &[1, 2], &[1, 2], &[(1, 1), (2, 2)])?;
    let events = events(alloc)?;
    Ok((came, format!(in alloc; "{config:?} {events:?}")?))
}

#[test]
fn memory_for_reading_is_granted(rt: HostRuntime) {
    match readings(rt.alloc()) {
        Ok((came, wanted)) => same(&rt, "what is read", &came, &wanted),
        Err(_) => same(&rt, "out of memory", &true, &false),
    }
}

/// Passes whichever allocation is refused.
#[test]
fn refused_memory_is_told_as_no_other_fault(rt: HostRuntime) {
    if let Ok((came, wanted)) = readings(rt.alloc()) {
        if came.as_str() != "out of memory" {
            same(&rt, "what is read", &came, &wanted);
        }
    }
}
