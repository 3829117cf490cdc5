use crate::comparing::{same, same_in_row};
use crate::systems::configurations::most_numbers;
use crate::systems::{config, end, lacpdu, mac, modulo};
use lagsystem::{AggId, Choice, Config, Info, NoMemory, PortId, Received, System, SystemFault};
use slowpdu::frame;
use std::alloc::Global;
use std::process::Abort;

/// The priority of a port: the higher its number, the lower its port identifier.
fn priority(port: u16) -> u16 {
    1000u16.saturating_sub(port)
}

/// 64 ports, of which one at a time may be a link of the only aggregator.
fn one_of_64(alloc: Global) -> Result<Config, NoMemory> {
    let mut given = config(alloc, &most_numbers(), 1)?;
    for port in given.ports.iter_mut() {
        port.priority = priority(port.number);
    }
    given.max_links = Some(1);
    Ok(given)
}

/// The link of a port comes up, and an LACPDU of system 2, which is in its aggregator, comes on it.
fn comes_up<F: Fn(u16, usize) -> usize + Drop>(rt: &impl Abort, system: &mut System<F>, port: u16) {
    let ours = Info {
        port: PortId {
            priority: priority(port),
            number: port,
        },
        ..end(1, port, 1, 0x07)
    };
    let told = frame(mac(9), &lacpdu(end(2, port, 1, 0x0d), ours));
    same(rt, "set_link", &system.set_link(port, true), &Ok(()));
    let came = system.receive(port, &told);
    same(rt, "receive", &came, &Ok(Received::TookLacpdu));
}

/// This port is the only member, the ports from 2 on below the other number are STANDBY, and the rest are UNSELECTED.
fn has_one_member<F: Fn(u16, usize) -> usize + Drop>(
    rt: &impl Abort,
    system: &System<F>,
    member: u16,
    above: u16,
) {
    for port in 1..=64 {
        let wanted = if port == member {
            Choice::Selected(AggId(1))
        } else if port > 1 && port < above {
            Choice::Standby(AggId(1))
        } else {
            Choice::Unselected
        };
        same_in_row(rt, usize::from(port), &system.choice(port), &Some(wanted));
    }
    let ports = system.distributing(AggId(1));
    let wanted: &[u16] = &[member];
    same(rt, "distributing", &ports.as_slice(), &wanted);
}

/// The link of the member goes down, and this port is the next one.
fn goes_down<F: Fn(u16, usize) -> usize + Drop>(
    rt: &impl Abort,
    system: &mut System<F>,
    member: u16,
    next: u16,
) {
    same(rt, "set_link", &system.set_link(member, false), &Ok(()));
    has_one_member(rt, system, next, next);
}

/// Ports 64, 63 and so on to 2 take the place of port 1, one after another.
#[test]
fn of_64_ports_one_at_a_time_is_a_link(rt: HostRuntime) -> Result<(), SystemFault> {
    let alloc = rt.alloc();
    let mut system = System::new(alloc, one_of_64(alloc)?, modulo)?;
    for port in 1..=64 {
        comes_up(&rt, &mut system, port);
    }
    for _ in 0..20 {
        system.tick();
    }
    has_one_member(&rt, &system, 1, 65);
    let mut member = 1;
    for below in 1..64u16 {
        let next = 65u16.saturating_sub(below);
        goes_down(&rt, &mut system, member, next);
        member = next;
    }
    same(&rt, "set_link", &system.set_link(2, false), &Ok(()));
    same(&rt, "none", &system.distributing(AggId(1)).len(), &0);
    Ok(())
}
