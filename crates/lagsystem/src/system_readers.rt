ghost use Rattle.std.specs.Prelude.{◌≡◌, ◌≤◌, [], length};
ghost use Rattle.std.specs.Bool.{OnFalse};
ghost use Rattle.std.specs.List.Sorted.{IsStrictlyIncreasing};
ghost use Rattle.lagsystem.specs.Offers.{has_aggregator};
ghost use Rattle.lagsystem.specs.State.{port_numbers};
ghost use Rattle.lagsystem.specs.Readers.{distributing};

use crate::calls::System;
use crate::distributing_ports::distributing;
use crate::system_ports::SystemPort;
use arrayvec::ArrayVec;
use lagtypes::AggId;

/// The numbers of all ports.
fn port_numbers(system_ports: &[SystemPort]) -> ArrayVec<u16, 64>
    requires { length system_ports.now ≤ 64 }
    ensures { result.items ≡ port_numbers system_ports.now }
{
    let mut found = ArrayVec::new();
    for system_port in system_ports {
        found.push(system_port.number);
    }
    found
}

impl<F: Fn(u16, usize) -> usize + Drop> System<F> {
    // promise: and so is each of a system
    // contract: `ports` (`all`, `ascending`), `aggregators`, `distributing` (`all`, `ascending`, `unknown`), `next_marker`
    /// The numbers of the ports, 1 to 64 of them, ascending (profile).
    pub fn ports(&self) -> ArrayVec<u16, 64>
        ensures all { result.items ≡ port_numbers self.now.state.system_ports }
        ensures ascending { IsStrictlyIncreasing result.items }
    {
        port_numbers(&self.inner.system_ports)
    }

    /// How many aggregators there are, 1 to 64. They are numbered from 1 (6.4.6).
    pub fn aggregators(&self) -> usize
        ensures { result ≡ length self.now.state.keys }
    {
        self.inner.aggregators.count()
    }

    /// The numbers of the ports that distribute in an aggregator (6.2.4), ascending, at most 64; empty if there is no
    /// such aggregator.
    pub fn distributing(&self, agg: AggId) -> ArrayVec<u16, 64>
        ensures all { result.items ≡ distributing agg self.now.state.system_ports }
        ensures ascending { IsStrictlyIncreasing result.items }
        ensures unknown { OnFalse (has_aggregator self.now.state agg) (result.items ≡ []) }
    {
        distributing(&self.inner.system_ports, agg)
    }
}
