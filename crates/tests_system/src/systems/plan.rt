use crate::systems::{DATA, Row, Side, lacpdu, mac, marker};
use lagsystem::{
    AggId, Call, HostCall, HostReply, Key, NoMemory, PortChange, Received, Reply, SystemFault,
};
use slowpdu::{Lacpdu, MarkerKind, frame};
use std::alloc::Global;

/// Calls, and their expected replies.
#[derive(Drop)]
pub(crate) struct Plan {
    pub(crate) calls: Vec<Call>,
    pub(crate) replies: Vec<Reply>,
}

impl Plan {
    fn new(alloc: Global) -> Plan {
        Plan {
            calls: Vec::new(alloc),
            replies: Vec::new(alloc),
        }
    }

    fn push(&mut self, call: Call, reply: Reply) -> Result<(), NoMemory> {
        self.calls.push(call)?;
        self.replies.push(reply)?;
        Ok(())
    }

    fn push_ticks(&mut self, ticks: u16) -> Result<(), NoMemory> {
        for _ in 0..ticks {
            self.push(Call::Tick, Reply::Tick)?;
        }
        Ok(())
    }

    fn push_quiet_ticks(&mut self, port: u16, ticks: u16) -> Result<(), NoMemory> {
        for _ in 0..ticks {
            self.push(Call::Tick, Reply::Tick)?;
            self.push(Call::Transmit(port), Reply::Transmit(Ok(None)))?;
        }
        Ok(())
    }

    /// Adds the calls for a port that does not exist.
    fn push_unknown(&mut self, alloc: Global, port: u16) -> Result<(), NoMemory> {
        let none = SystemFault::NoPort;
        let heard = Call::Receive(port, Vec::from_slice(alloc, &DATA)?);
        self.push(heard, Reply::Receive(Err(none)))?;
        self.push(Call::SetLink(port, true), Reply::SetLink(Err(none)))?;
        self.push(
            Call::Configure(port, change(2)),
            Reply::Configure(Err(none)),
        )?;
        self.push(Call::Transmit(port), Reply::Transmit(Err(none)))
    }

    fn push_links(&mut self, ports: &[u16]) -> Result<(), NoMemory> {
        for port in ports {
            self.push(Call::SetLink(*port, true), Reply::SetLink(Ok(())))?;
        }
        Ok(())
    }

    /// Adds the LACPDUs of a system, which name ports with the priorities of their ranks or with that of the tests' ports.
    fn push_joins(
        &mut self,
        alloc: Global,
        system: u8,
        ports: &[u16],
        ranked: bool,
    ) -> Result<(), NoMemory> {
        for port in ports {
            let ours = if ranked {
                Side::Ranked(*port, 0x07)
            } else {
                Side::Of(1, *port, 1, 0x07)
            };
            let call = told(alloc, *port, Side::Of(system, *port, 1, 0x0d), ours)?;
            self.push(call, Reply::Receive(Ok(Received::TookLacpdu)))?;
        }
        Ok(())
    }

    /// Adds the calls of a row, if it makes any.
    fn push_row(&mut self, alloc: Global, row: Row<'_>) -> Result<(), NoMemory> {
        match row {
            Row::Ticks(ticks) => self.push_ticks(ticks),
            Row::Quiet(port, ticks) => self.push_quiet_ticks(port, ticks),
            Row::Unknown(port) => self.push_unknown(alloc, port),
            Row::Links(ports) => self.push_links(ports),
            Row::Joins(system, ports) => self.push_joins(alloc, system, ports, false),
            Row::RankedJoins(system, ports) => self.push_joins(alloc, system, ports, true),
            _ => match call_of(alloc, row)? {
                Some(call) => self.push(call, reply_of(row)),
                None => Ok(()),
            },
        }
    }
}

/// The calls of a row, with their expected replies.
pub(crate) fn plan_of(alloc: Global, row: Row<'_>) -> Result<Plan, NoMemory> {
    let mut plan = Plan::new(alloc);
    plan.push_row(alloc, row)?;
    Ok(plan)
}

/// The calls of rows, one after another, with their expected replies.
pub(crate) fn plan_of_all(alloc: Global, rows: &[Row<'_>]) -> Result<Plan, NoMemory> {
    let mut plan = Plan::new(alloc);
    for row in rows {
        plan.push_row(alloc, *row)?;
    }
    Ok(plan)
}

/// A change to this key; the other values are those of the tests' ports.
fn change(key: u16) -> PortChange {
    PortChange {
        key: Key(key),
        priority: 128,
        aggregatable: true,
    }
}

/// `receive` of a control frame with this payload, from the peer.
fn heard(alloc: Global, port: u16, payload: &[u8; 110]) -> Result<Call, NoMemory> {
    let octets = Vec::from_slice(alloc, &frame(mac(9), payload))?;
    Ok(Call::Receive(port, octets))
}

/// `receive` of an LACPDU that says this, from the peer.
fn told(alloc: Global, port: u16, actor: Side, partner: Side) -> Result<Call, NoMemory> {
    heard(alloc, port, &lacpdu(actor.info(), partner.info()))
}

/// The call that a row makes; None if it makes none.
fn call_of(alloc: Global, row: Row<'_>) -> Result<Option<Call>, NoMemory> {
    let call = match row {
        Row::Link(port, up) => Call::SetLink(port, up),
        Row::Restart => Call::Restart,
        Row::Takes(port, actor, partner) => told(alloc, port, actor, partner)?,
        Row::Releases(port, response, _) => heard(alloc, port, &response.marker().encode())?,
        Row::Hears(port, octets, _) | Row::Keeps(port, octets, _) => {
            Call::Receive(port, Vec::from_slice(alloc, octets)?)
        }
        Row::Configures(port, key, _) => Call::Configure(port, change(key)),
        Row::Silent(port)
        | Row::Sends(port, _, _)
        | Row::SendsWith(port, _, _, _)
        | Row::Marks(port, _) => Call::Transmit(port),
        Row::Offers(agg, octets, _) => Call::Offer(AggId(agg), Vec::from_slice(alloc, octets)?),
        Row::Moves(agg, conv, port, _) => Call::MoveConversation(AggId(agg), conv, port),
        Row::Forces(agg, conv, _) => Call::Force(AggId(agg), conv),
        _ => return Ok(None),
    };
    Ok(Some(call))
}

/// The expected reply of `transmit` on a port: a frame with this payload.
fn sent(port: u16, payload: &[u8; 110]) -> Reply {
    Reply::Transmit(Ok(Some(frame(mac(port), payload))))
}

/// The expected reply to the call of a row.
fn reply_of(row: Row<'_>) -> Reply {
    match row {
        Row::Link(_, _) => Reply::SetLink(Ok(())),
        Row::Takes(_, _, _) => Reply::Receive(Ok(Received::TookLacpdu)),
        Row::Releases(_, _, count) => Reply::Receive(Ok(Received::Released(count))),
        Row::Hears(_, _, answer) | Row::Keeps(_, _, answer) => Reply::Receive(Ok(answer)),
        Row::Configures(_, _, answer) => Reply::Configure(Ok(answer)),
        Row::Silent(_) => Reply::Transmit(Ok(None)),
        Row::Sends(port, actor, partner) => sent(port, &lacpdu(actor.info(), partner.info())),
        Row::SendsWith(port, actor, partner, max_delay) => {
            let pdu = Lacpdu {
                actor: actor.info(),
                partner: partner.info(),
                max_delay,
            };
            sent(port, &pdu.encode())
        }
        Row::Marks(port, id) => sent(port, &marker(MarkerKind::Information, port, 1, id).encode()),
        Row::Offers(_, _, answer) => Reply::Offer(answer),
        Row::Moves(_, _, _, answer) => Reply::MoveConversation(answer),
        Row::Forces(_, _, answer) => Reply::Force(answer),
        Row::Restart => Reply::Restart,
        _ => Reply::Tick,
    }
}

/// The expected answer to a probe of a port: a marker with this identifier, or None.
fn probed(
    port: u16,
    answer: Result<Option<u32>, SystemFault>,
) -> Result<Option<[u8; 124]>, SystemFault> {
    match answer? {
        Some(id) => {
            let payload = marker(MarkerKind::Information, port, 1, id).encode();
            Ok(Some(frame(mac(port), &payload)))
        }
        None => Ok(None),
    }
}

/// The call of a host that a row makes, with its expected reply; None if it makes none.
pub(crate) fn host_call_of(row: Row<'_>) -> Option<(HostCall, HostReply)> {
    let made = match row {
        Row::OffersConversation(agg, conv, answer) => (
            HostCall::OfferConversation(AggId(agg), conv),
            HostReply::OfferConversation(answer),
        ),
        Row::Leaves(agg, conv, answer) => (
            HostCall::LeaveConversation(AggId(agg), conv),
            HostReply::LeaveConversation(answer),
        ),
        Row::Rests(agg, conv, answer) => {
            (HostCall::Rest(AggId(agg), conv), HostReply::Rest(answer))
        }
        Row::ForcesPort(port, answer) => (HostCall::ForcePort(port), HostReply::ForcePort(answer)),
        Row::Probes(port, answer) => (
            HostCall::Probe(port),
            HostReply::Probe(probed(port, answer)),
        ),
        _ => return None,
    };
    Some(made)
}
