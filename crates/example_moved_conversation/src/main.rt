//! Two systems come up, a frame goes from one to the other, and its conversation moves to another port behind a marker.
//!
//! Two systems are joined by two cables: port 1 to port 1, and port 2 to port 2. Nothing here is real but the systems: a
//! cable is a call, and the clock is a loop.
#![tactic(auto)]

ghost use Rattle.std.specs.Prelude.{◌≡◌, ◌<◌, ◌↔◌, None, IfOk, IfSome, IsTrue};
ghost use Rattle.distributor.specs.Calls.{PicksIndexes};
ghost use Rattle.example_moved_conversation.specs.Ends.{AreUp};
ghost use Rattle.lagsystem.specs.First.{config_refusal};

use lagsystem::{AggId, Config, Key, PortConfig, Received, System, SystemFault, SystemId};
use std::alloc::Global;
use std::process::ExitCode;

/// The number of the conversation that moves: octet 5 exclusive-or octet 11 of its frame.
const CONVERSATION: u16 = 48;

/// A frame of the conversation.
const FRAME: [u8; 14] = [2, 0, 0, 0, 0, 0x20, 2, 0, 0, 0, 0, 0x10, 8, 0];

/// The distribution algorithm: which of `count` ports a conversation goes on, counted from 0.
fn by_number(conversation: u16, count: usize) -> usize
    ensures { 0 < count → result < count }
{
    if count == 0 {
        0
    } else {
        usize::from(conversation) % count
    }
}

/// Port `number` of a system: active, with short timeouts and key 1.
fn port(system: u8, number: u8) -> PortConfig
    ensures { result.number ≡ number }
{
    PortConfig {
        number: u16::from(number),
        priority: 128,
        mac: [2, 0, 0, 0, system, number],
        key: Key(1),
        aggregatable: true,
        active: true,
        short: true,
    }
}

/// System `number`: ports 1 and 2, and one aggregator.
fn config(alloc: Global, number: u8) -> Result<Config, SystemFault>
    ensures accepted { IfOk result (λ made. config_refusal made ≡ None) }
{
    let mut ports = Vec::new(alloc);
    ports
        .push(port(number, 1))
        .map_err(|_| SystemFault::NoMemory)?;
    ports
        .push(port(number, 2))
        .map_err(|_| SystemFault::NoMemory)?;
    let mut aggregators = Vec::new(alloc);
    aggregators.push(Key(1)).map_err(|_| SystemFault::NoMemory)?;
    Ok(Config {
        system: SystemId {
            priority: 32768,
            mac: [2, 0, 0, 0, number, 0],
        },
        max_delay: 0,
        first_marker: 1,
        conversations: 256,
        aggregators,
        max_links: None,
        ports,
    })
}

/// Carries the frame that is due on a port of one system to the other, and the answer to a marker back.
fn carry<F: Fn(u16, usize) -> usize + Drop>(
    port: u16,
    from: &mut System<F>,
    to: &mut System<F>,
) -> Result<(), SystemFault>
    ensures from { from.new.algorithm ≡ from.old.algorithm }
    ensures to { to.new.algorithm ≡ to.old.algorithm }
{
    if let Some(frame) = from.transmit(port)? {
        if let Received::Respond(response) = to.receive(port, &frame)? {
            from.receive(port, &response)?;
        }
    }
    Ok(())
}

/// 100 ms pass for both systems. Then each sends what is due on its two ports.
fn tick<F: Fn(u16, usize) -> usize + Drop>(
    one: &mut System<F>,
    two: &mut System<F>,
) -> Result<(), SystemFault>
    ensures one { one.new.algorithm ≡ one.old.algorithm }
    ensures two { two.new.algorithm ≡ two.old.algorithm }
{
    one.tick(); // 100 ms
    two.tick();
    carry(1, one, two)?;
    carry(1, two, one)?;
    carry(2, one, two)?;
    carry(2, two, one)
}

/// Both links of a system come up.
fn link_up<F: Fn(u16, usize) -> usize + Drop>(system: &mut System<F>) -> Result<(), SystemFault>
    ensures algorithm { system.new.algorithm ≡ system.old.algorithm }
{
    system.set_link(1, true)?;
    system.set_link(2, true)
}

/// Whether ports 1 and 2 of a system distribute in aggregator 1.
fn are_up<F: Fn(u16, usize) -> usize + Drop>(system: &System<F>) -> bool
    ensures { IsTrue result ↔ AreUp system.now.state }
{
    system.distributing(AggId(1)).as_slice() == [1, 2].as_slice()
}

/// Waits until both ports at both ends distribute. Answers how many ticks that took; None if it is more than 100.
fn come_up<F: Fn(u16, usize) -> usize + Drop>(
    one: &mut System<F>,
    two: &mut System<F>,
) -> Result<Option<u16>, SystemFault>
    ensures one { one.new.algorithm ≡ one.old.algorithm }
    ensures two { two.new.algorithm ≡ two.old.algorithm }
    ensures up { IfOk result (λ ticks. IfSome ticks (λ count. AreUp one.new.state × AreUp two.new.state)) }
{
    for ticks in 1..101 {
        tick(one, two)?;
        if are_up(one) && are_up(two) {
            return Ok(Some(ticks));
        }
    }
    Ok(None)
}

/// Asks for the move to another port. Answers whether the frames of the conversation are held from then on.
fn hold<F: Fn(u16, usize) -> usize + Drop>(
    system: &mut System<F>,
    to: u16,
) -> Result<bool, SystemFault>
    requires usable { PicksIndexes (F.pre system.old.algorithm) (F.post system.old.algorithm) }
    ensures algorithm { system.new.algorithm ≡ system.old.algorithm }
{
    system.move_conversation(AggId(1), CONVERSATION, to)?;
    Ok(system.offer(AggId(1), &FRAME) == Err(SystemFault::Held))
}

/// What the example shows: the port of a frame before the move, what became of the frame, whether frames are held during the move, and the
/// port after it.
#[derive(Clone, Copy)]
struct Story {
    before: u16,
    received: Received,
    held: bool,
    after: u16,
}

/// Moves the conversation from the port that it is on to the other one.
fn move_over<F: Fn(u16, usize) -> usize + Drop>(
    one: &mut System<F>,
    two: &mut System<F>,
) -> Result<Story, SystemFault>
    requires usable { PicksIndexes (F.pre one.old.algorithm) (F.post one.old.algorithm) }
{
    let before = one.offer(AggId(1), &FRAME)?; // the port to send the frame on
    let received = two.receive(before, &FRAME)?; // Received::Up(AggId(1)): it is for the client
    let held = hold(one, if before == 1 { 2 } else { 1 })?;
    carry(before, one, two)?; // an LACPDU is due first
    carry(before, one, two)?; // the marker, and the response to it
    let after = one.offer(AggId(1), &FRAME)?;
    Ok(Story {
        before,
        received,
        held,
        after,
    })
}

/// Makes two systems, lets them come up, and moves the conversation.
fn play(alloc: Global) -> Result<Option<(u16, Story)>, SystemFault> {
    let mut one = System::new(alloc, config(alloc, 1)?, by_number)?; // all links are down
    let mut two = System::new(alloc, config(alloc, 2)?, by_number)?;
    link_up(&mut one)?;
    link_up(&mut two)?;
    let Some(ticks) = come_up(&mut one, &mut two)? else {
        return Ok(None);
    };
    let story = move_over(&mut one, &mut two)?;
    Ok(Some((ticks, story)))
}

/// Plays the story and prints it; the status is 1 where a step answers otherwise than the story has it.
pub fn main(rt: HostRuntime) -> ExitCode {
    let Ok(Some((ticks, story))) = play(rt.alloc()) else {
        return ExitCode::FAILURE;
    };
    let Received::Up(agg) = story.received else {
        return ExitCode::FAILURE;
    };
    if !story.held {
        return ExitCode::FAILURE;
    }
    let before = story.before;
    let after = story.after;
    let _ = println!(rt; "tick {ticks}: ports 1 and 2 of both systems distribute in aggregator 1");
    let _ = println!(rt;
        "a frame of conversation 48 goes on port {before}, and up to the client of aggregator {agg}"
    );
    let _ = println!(rt; "the conversation is to move: its frames are held");
    let _ = println!(rt; "the response to the marker is here: a frame goes on port {after}");
    ExitCode::SUCCESS
}
