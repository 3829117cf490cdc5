use crate::hosts::playing::{config, told};
use crate::hosts::resuming::saved;
use crate::systems::{Row, modulo, play};
use dataplane::resume;
use lagsystem::{Assignment, SystemFault};
use std::test::Fail;

#[test]
fn conversations_go_back_to_the_ports_of_the_chip(rt: HostRuntime) -> Result<(), Fail> {
    const ROWS: [Row<'static>; 15] = [
        // the algorithm picks 3 for 14, and 7 for 15 and 17
        Row::Adopts(1, 14, 7, Ok(())),
        Row::Adopts(1, 15, 3, Ok(())),
        Row::Adopts(1, 17, 7, Ok(())),
        Row::Conversing(1, 14, Some(Assignment::On(7))),
        Row::Conversing(1, 15, Some(Assignment::On(3))),
        Row::Conversing(1, 17, Some(Assignment::On(7))),
        Row::Free(1, 16, None),
        Row::Free(2, 14, None),
        // nothing is sent, and no identifier is used up
        Row::Due(3, false),
        Row::Due(7, false),
        Row::Next(Some(70)),
        Row::Adopts(1, 14, 7, Ok(())),
        Row::OffersConversation(1, 14, Ok(7)),
        Row::Adopts(1, 14, 3, Err(SystemFault::Held)),
        Row::Conversing(1, 14, Some(Assignment::On(7))),
    ];
    let alloc = rt.alloc();
    let ports = [saved(3, 300), saved(7, 300)];
    let mut system = resume(alloc, config(alloc, 70)?, modulo, &ports)?;
    play(&rt, alloc, &mut system, "told", &[told(3), told(7)])?;
    play(&rt, alloc, &mut system, "adopted", &ROWS)?;
    Ok(())
}
