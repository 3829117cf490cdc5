ghost use Rattle.std.specs.Prelude.{◌≡◌, None, Some, MatchOption, option_map};
ghost use Rattle.portmachines.specs.Mux.{same_mux_state};
ghost use Rattle.portmachines.specs.Transmit.{actor_state};
ghost use Rattle.lagsystem.specs.Hosts.{would_transmit_at};
ghost use Rattle.lagsystem.specs.Inner.{inner_state};
ghost use Rattle.lagsystem.specs.Sound.{IsSound};
ghost use Rattle.lagsystem.specs.State.{port_index, machines_of, system_port_at};
ghost use Rattle.lagsystem.specs.Readers.{group_at};

use crate::calls::System;
use crate::inner::Inner;
use crate::system_ports::SystemPort;
use lagtypes::{Choice, Group, Party, State};
use portmachines::{MuxState, Port, ReceiveState};
use slowpdu::Info;

impl<F: Fn(u16, usize) -> usize + Drop> Inner<F> {
    /// The port with this number.
    pub(crate) fn system_port(&self, number: u16) -> Option<&SystemPort>
        requires { IsSound (inner_state self.now) }
        ensures { MatchOption result (system_port_at (port_index number self.now.system_ports.items) self.now.system_ports.items ≡ None)
            (λ system_port. system_port_at (port_index number self.now.system_ports.items) self.now.system_ports.items
            ≡ Some system_port.now) }
    {
        match self.port_index(number) {
            Ok(place) => Some(&self.system_ports[place]),
            Err(_) => None,
        }
    }
}

impl<F: Fn(u16, usize) -> usize + Drop> System<F> {
    /// The machines of a port, to be read: all that the readers of a port tell; None if there is no such port (profile).
    pub fn machines(&self, port: u16) -> Option<&Port>
        ensures { MatchOption result (machines_of port self.now.state ≡ None) (λ p. machines_of port self.now.state ≡ Some p.now) }
    {
        match self.inner.system_port(port) {
            Some(system_port) => Some(&system_port.port),
            None => None,
        }
    }

    /// port_enabled: whether the link of a port is up (6.4.7); None if there is no such port.
    pub fn is_up(&self, port: u16) -> Option<bool>
        ensures { result ≡ option_map (λ p. p.enabled) (machines_of port self.now.state) }
    {
        match self.inner.system_port(port) {
            Some(system_port) => Some(system_port.port.is_enabled()),
            None => None,
        }
    }

    /// The state octet of a port's own side, as its LACPDUs carry it (6.4.2.3, Actor_State); None if there is no such
    /// port.
    pub fn state(&self, port: u16) -> Option<State>
        ensures { result ≡ option_map actor_state (machines_of port self.now.state) }
    {
        match self.inner.system_port(port) {
            Some(system_port) => Some(system_port.port.state()),
            None => None,
        }
    }

    /// The state of the receive machine of a port (6.4.12); None if there is no such port.
    pub fn receive_state(&self, port: u16) -> Option<ReceiveState>
        ensures { result ≡ option_map (λ p. p.receive) (machines_of port self.now.state) }
    {
        match self.inner.system_port(port) {
            Some(system_port) => Some(system_port.port.receive_state()),
            None => None,
        }
    }

    /// Whether `transmit` would return a frame now. The link of the port is up, and either NTT is set and fewer than
    /// three LACPDUs were sent in the last eleven ticks, or a conversation is Wanted on the port and an identifier is
    /// left (6.4.16, 6.5.3.3; profile). None if there is no such port.
    pub fn is_due(&self, port: u16) -> Option<bool>
        ensures { result ≡ would_transmit_at port self.now.state }
    {
        match self.inner.system_port(port) {
            Some(system_port) => Some(self.inner.would_transmit(system_port)),
            None => None,
        }
    }

    /// The operational parameters of a port's own side, the Actor (6.4.7); None if there is no such port.
    pub fn party(&self, port: u16) -> Option<Party>
        ensures { result ≡ option_map (λ p. p.party) (machines_of port self.now.state) }
    {
        match self.inner.system_port(port) {
            Some(system_port) => Some(system_port.port.party()),
            None => None,
        }
    }

    /// The operational parameters of a port's Partner, as recorded (6.4.7); None if there is no such port.
    pub fn partner(&self, port: u16) -> Option<Info>
        ensures { result ≡ option_map (λ p. p.partner) (machines_of port self.now.state) }
    {
        match self.inner.system_port(port) {
            Some(system_port) => Some(system_port.port.partner()),
            None => None,
        }
    }

    /// The Link Aggregation Group of a port, its LAG ID: from its own and its recorded partner's parameters (6.3.6);
    /// None if there is no such port.
    pub fn group(&self, port: u16) -> Option<Group>
        ensures { result ≡ option_map group_at (machines_of port self.now.state) }
    {
        match self.inner.system_port(port) {
            Some(system_port) => Some(Group::of(
                &system_port.port.party(),
                &system_port.port.partner().party(),
            )),
            None => None,
        }
    }

    /// Actor_State.Defaulted: true if the recorded partner was set by recordDefault and not since by an LACPDU
    /// (6.4.2.3); None if there is no such port.
    pub fn defaulted(&self, port: u16) -> Option<bool>
        ensures { result ≡ option_map (λ p. p.defaulted) (machines_of port self.now.state) }
    {
        match self.inner.system_port(port) {
            Some(system_port) => Some(system_port.port.is_defaulted()),
            None => None,
        }
    }

    /// Whether a port distributes: its mux machine is in COLLECTING_DISTRIBUTING (6.4.15); None if there is no such
    /// port.
    pub fn distributes(&self, port: u16) -> Option<bool>
        ensures { result ≡ option_map (λ p. same_mux_state MuxState.CollectingDistributing p.mux) (machines_of port self.now.state) }
    {
        match self.inner.system_port(port) {
            Some(system_port) => Some(system_port.port.distributes()),
            None => None,
        }
    }

    /// Selected, with the aggregator that the Selection Logic gave the port (6.4.8); None if there is no such port.
    pub fn choice(&self, port: u16) -> Option<Choice>
        ensures { result ≡ option_map (λ p. p.choice) (machines_of port self.now.state) }
    {
        match self.inner.system_port(port) {
            Some(system_port) => Some(system_port.port.choice()),
            None => None,
        }
    }

    /// The state of the mux machine of a port (6.4.15); None if there is no such port.
    pub fn mux_state(&self, port: u16) -> Option<MuxState>
        ensures { result ≡ option_map (λ p. p.mux) (machines_of port self.now.state) }
    {
        match self.inner.system_port(port) {
            Some(system_port) => Some(system_port.port.mux_state()),
            None => None,
        }
    }

    /// How many ticks current_while of a port has left, 0 to 900 (6.4.10); None if there is no such port.
    pub fn current_while(&self, port: u16) -> Option<u16>
        ensures { result ≡ option_map (λ p. p.current_while) (machines_of port self.now.state) }
    {
        match self.inner.system_port(port) {
            Some(system_port) => Some(system_port.port.current_while()),
            None => None,
        }
    }

    /// How many ticks wait_while of a port has left, 0 to 20 (6.4.10); None if there is no such port.
    pub fn wait_while(&self, port: u16) -> Option<u8>
        ensures { result ≡ option_map (λ p. p.wait_while) (machines_of port self.now.state) }
    {
        match self.inner.system_port(port) {
            Some(system_port) => Some(system_port.port.wait_while()),
            None => None,
        }
    }

    /// NTT: whether an LACPDU is to be sent on a port (6.4.7); None if there is no such port.
    pub fn ntt(&self, port: u16) -> Option<bool>
        ensures { result ≡ option_map (λ p. p.ntt) (machines_of port self.now.state) }
    {
        match self.inner.system_port(port) {
            Some(system_port) => Some(system_port.port.ntt()),
            None => None,
        }
    }
}
