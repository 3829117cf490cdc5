ghost use Rattle.std.specs.Prelude.{◌≡◌, ◌<◌, IfSome, MatchOption, Ok, Err};
ghost use Rattle.distributor.specs.Conversations.{next_identifier, count_conversations};
ghost use Rattle.lagsystem.specs.Forcing.{count_held_on};
ghost use Rattle.lagsystem.specs.Hosts.{conversation_at};
ghost use Rattle.lagsystem.specs.State.{port_index};
ghost use Rattle.lagsystem.specs.Readers.{conversation_in, conversation_count};
ghost use Rattle.distributor.specs.Chains.{names_port};
ghost use Rattle.lagsystem.specs.declared.fault.SystemFault.{SystemFault};

use crate::calls::System;
use crate::fault::SystemFault;
use distributor::Assignment;
use lagtypes::AggId;

impl<F: Fn(u16, usize) -> usize + Drop> System<F> {
    // promise: the number of a frame's conversation is the low 0, 8 or 12 bits of the exclusive-or, by the count
    // contract: `conversation` (`is`, `within`), `conversation_state`
    /// The conversation of a frame, in whichever aggregator: the low bits of octets 4 and 5 exclusive-or octets 10 and
    /// 11, 8 bits for 256 conversations, 12 for 4096, and none for 1. None if the frame has fewer than 14 octets (profile).
    pub fn conversation(&self, frame: &[u8]) -> Option<u16>
        ensures is { result ≡ conversation_in self.now.state frame.now }
        ensures within { IfSome result (λ conv. conv < conversation_count self.now.state) }
    {
        if frame.len() < 14 {
            return None;
        }
        Some(self.inner.number_of_conversation(frame))
    }

    /// The state of a conversation of an aggregator; None if there is no such aggregator or no such conversation
    /// (profile).
    pub fn conversation_state(&self, agg: AggId, conv: u16) -> Option<Assignment>
        ensures { result ≡ conversation_at self.now.state agg conv }
    {
        self.inner.conversation_state(agg, conv)
    }

    // promise: each reader of a port is exact, and None without it; `load` is `NoPort`
    // contract: `load`, `party`, `partner`, `group`, `defaulted`, `distributes`, `choice`, `mux_state`, `receive_state`, `state`, `is_up`,
    //    `is_due`, `current_while`, `wait_while`, `ntt`, `machines`
    /// How many conversations, of all aggregators together, are On, Wanted or Flushing on a port. `NoPort` if there is
    /// no such port (profile).
    pub fn load(&self, port: u16) -> Result<u32, SystemFault>
        ensures { MatchOption (port_index port self.now.state.system_ports) (result ≡ Err SystemFault.NoPort)
            (λ place. result ≡ Ok (count_conversations (names_port port) self.now.state.table)) }
    {
        self.inner.port_index(port)?;
        Ok(self.inner.distributor.load(port))
    }

    // promise: `held` counts what is Wanted or Flushing on a port
    // contract: `held` (`count_held_on`)
    /// How many conversations, of all aggregators together, are held on a port: Wanted or Flushing there. `load` counts those
    /// that are On it, too. `NoPort` if there is no such port (profile).
    pub fn held(&self, port: u16) -> Result<u32, SystemFault>
        ensures { MatchOption (port_index port self.now.state.system_ports) (result ≡ Err SystemFault.NoPort)
            (λ place. result ≡ Ok (count_held_on port self.now.state)) }
    {
        self.inner.port_index(port)?;
        Ok(self.inner.distributor.held(port))
    }

    /// The Requester_Transaction_ID of the next marker, 0 to 4294967295; None if all are used up (6.5.3.3;
    /// profile).
    pub fn next_marker(&self) -> Option<u32>
        ensures { result ≡ next_identifier self.now.state.table }
    {
        self.inner.distributor.next_marker()
    }
}
