ghost use Rattle.distributor.specs.Calls.{PicksIndexes};

use crate::comparing::same;
use crate::systems::plan::{Plan, plan_of_all};
use crate::systems::{
    DATA, PortFacts, Response, Row, Side, config, joined, look, mac, modulo, play,
};
use lagsystem::{AggId, Call, HostCall, HostReply, Received, Reply, System, SystemFault};
use slowpdu::frame;
use std::alloc::Global;
use std::process::Abort;

fn looks<F: Fn(u16, usize) -> usize + Drop>(system: &System<F>) -> [PortFacts; 2] {
    [look(system, 1), look(system, 2)]
}

/// Makes the calls of a plan at once; returns whether the replies are the expected ones. If memory for the replies is
/// refused, the system must not have changed.
fn follows<F: Fn(u16, usize) -> usize + Drop>(
    rt: &impl Abort,
    alloc: Global,
    driven: &mut System<F>,
    plan: &Plan,
) -> Result<bool, SystemFault>
    requires { PicksIndexes (F.pre driven.old.algorithm) (F.post driven.old.algorithm) }
{
    let before = looks(driven);
    match driven.drive(alloc, &plan.calls) {
        Ok(replies) => Ok(replies.as_slice() == plan.replies.as_slice()),
        Err(refused) => {
            same(rt, "the readers", &looks(driven), &before);
            Err(SystemFault::from(refused))
        }
    }
}

/// Whether `drive` of the calls of all rows gives their replies on a new system.
pub(crate) fn drives(
    rt: &impl Abort,
    alloc: Global,
    rows: &[Row<'_>],
) -> Result<bool, SystemFault> {
    let mut driven = System::new(alloc, config(alloc, &[1, 2], 2)?, modulo)?;
    let plan = plan_of_all(alloc, rows)?;
    follows(rt, alloc, &mut driven, &plan)
}

/// Drives a new system with the calls of lists of rows, which must give the expected replies.
fn is_driven(rt: &impl Abort, alloc: Global, lists: &[&[Row<'_>]]) -> Result<(), SystemFault> {
    let rows = joined(alloc, lists)?;
    same(
        rt,
        "the replies are the expected ones",
        &drives(rt, alloc, &rows)?,
        &true,
    );
    Ok(())
}

#[test]
fn every_kind_of_call_and_a_thousand(rt: HostRuntime) -> Result<(), SystemFault> {
    const ROWS: [Row<'static>; 16] = [
        Row::Links(&[1, 2]),
        Row::Takes(1, Side::Of(2, 1, 1, 0x0d), Side::Of(1, 1, 1, 0x07)),
        Row::Takes(2, Side::Of(2, 2, 1, 0x0d), Side::Of(1, 2, 1, 0x07)),
        Row::Ticks(20),
        Row::Hears(1, &DATA, Received::Up(AggId(1))),
        Row::Offers(1, &DATA, Ok(1)),
        Row::Moves(1, 48, 2, Ok(())),
        Row::Sends(1, Side::Of(1, 1, 1, 0x3f), Side::Of(2, 1, 1, 0x0d)),
        Row::Marks(1, 1),
        Row::Offers(1, &DATA, Err(SystemFault::Held)),
        Row::Releases(1, Response(1, 1, 1), 1),
        Row::Offers(1, &DATA, Ok(2)),
        Row::Forces(1, 48, Ok(())),
        Row::Configures(2, 2, true),
        Row::Restart,
        Row::Silent(1),
    ];
    const THOUSAND: [Row<'static>; 3] = [Row::Link(1, true), Row::Ticks(1000), Row::Silent(2)];
    is_driven(&rt, rt.alloc(), &[&ROWS])?;
    is_driven(&rt, rt.alloc(), &[])?;
    is_driven(&rt, rt.alloc(), &[&THOUSAND])
}

/// Ports 1 and 2 come to distribute in aggregator 1. What is Wanted on port 1 goes behind the marker of a probe.
const PROBED: [Row<'static>; 11] = [
    Row::Links(&[1, 2]),
    Row::Joins(2, &[1, 2]),
    Row::Ticks(20),
    Row::OffersConversation(1, 48, Ok(1)),
    Row::OffersConversation(1, 49, Ok(2)),
    Row::OffersConversation(1, 256, Err(SystemFault::NotAssigned)),
    Row::Leaves(1, 48, Ok(())),
    Row::Leaves(1, 48, Err(SystemFault::Held)),
    Row::OffersConversation(1, 48, Err(SystemFault::Held)),
    Row::Rests(1, 48, Err(SystemFault::Held)),
    Row::Probes(1, Ok(Some(1))),
];

/// After the response to that marker.
const FREE: [Row<'static>; 10] = [
    Row::OffersConversation(1, 48, Ok(1)),
    Row::Probes(3, Err(SystemFault::NoPort)),
    Row::Rests(1, 48, Ok(())),
    Row::Rests(1, 48, Err(SystemFault::NotAssigned)),
    Row::Leaves(1, 49, Ok(())),
    Row::ForcesPort(1, Ok(0)),
    Row::ForcesPort(2, Ok(1)),
    Row::ForcesPort(2, Ok(0)),
    Row::ForcesPort(3, Err(SystemFault::NoPort)),
    Row::OffersConversation(1, 49, Ok(2)),
];

#[test]
fn each_kind_of_host_call(rt: HostRuntime) -> Result<(), SystemFault> {
    let alloc = rt.alloc();
    let mut system = System::new(alloc, config(alloc, &[1, 2], 2)?, modulo)?;
    play(&rt, alloc, &mut system, "probed", &PROBED)?;
    let response = frame(mac(9), &Response(1, 1, 1).marker().encode());
    let call = HostCall::Call(Call::Receive(1, Vec::from_slice(alloc, &response)?));
    let reply = HostReply::Call(Reply::Receive(Ok(Received::Released(1))));
    same(&rt, "the response", &system.host_call(&call), &reply);
    play(&rt, alloc, &mut system, "free", &FREE)
}
