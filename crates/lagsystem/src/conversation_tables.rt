ghost use Rattle.std.specs.Prelude.{true, false, ◌≡◌, ◌≤◌, ℕ, Bool, length, min, IfOk, IfErr, OnErr};
ghost use Rattle.distributor.specs.Conversations.{assignment_of};
ghost use Rattle.lagsystem.specs.ConversationTables.{TellsFreed, TellsPorts, TellsRows, has_changed, has_freed, is_busy, port_on, told_rows};
ghost use Rattle.lagsystem.specs.Offers.{has_aggregator};
ghost use Rattle.lagsystem.specs.declared.fault.SystemFault.{SystemFault};

use crate::calls::System;
use crate::fault::SystemFault;
use distributor::{Assignment, Distributor};
use lagtypes::AggId;

/// The port that a conversation in this state is On; 0 if it is free or held.
fn port_on(state: Assignment) -> u16
    ensures { result ≡ port_on state }
{
    match state {
        Assignment::On(port) => port,
        Assignment::Free { .. } | Assignment::Wanted { .. } | Assignment::Flushing { .. } => 0,
    }
}

/// Whether a conversation in this state is On a port, Wanted or Flushing.
fn is_busy(state: Assignment) -> bool
    ensures { result ≡ is_busy state }
{
    match state {
        Assignment::Free { .. } => false,
        Assignment::On(_) | Assignment::Wanted { .. } | Assignment::Flushing { .. } => true,
    }
}

/// Whether a conversation that was busy, or not, and now is, or is not, became free.
fn has_freed(was: bool, is: bool) -> bool
    ensures { result ≡ has_freed was is }
{
    was && !is
}

/// How many rows are told: one for each conversation, or fewer if a list is shorter.
fn told_rows(conversations: u16, one: usize, other: usize) -> u16
    ensures { result ≡ told_rows conversations one other }
{
    let shorter = one.min(other);
    if shorter < usize::from(conversations) {
        shorter as u16
    } else {
        conversations
    }
}

/// Writes the ports of the first conversations of an aggregator, and which of them changed; returns how many.
fn tell_ports<F: Fn(u16, usize) -> usize + Drop>(
    distributor: &Distributor<F>,
    agg: AggId,
    rows: u16,
    ports: &mut [u16],
    changed: &mut [bool],
) -> u16
    requires ports { rows ≤ length ports.old }
    requires changed { rows ≤ length changed.old }
    ensures tells { TellsRows ℕ 0 (λ conv. port_on (assignment_of distributor.now.table agg.0 conv)) has_changed rows ports.old ports.new
        changed.old changed.new result }
{
    let mut count = 0;
    for conv in 0..rows {
        let row = usize::from(conv);
        let port = port_on(distributor.state(agg, conv));
        let differs = ports[row] != port;
        changed[row] = differs;
        ports[row] = port;
        count += u16::from(differs);
    }
    count
}

/// Writes which of the first conversations of an aggregator are busy, and which of them were and are not; returns how many.
fn tell_freed<F: Fn(u16, usize) -> usize + Drop>(
    distributor: &Distributor<F>,
    agg: AggId,
    rows: u16,
    busy: &mut [bool],
    freed: &mut [bool],
) -> u16
    requires busy { rows ≤ length busy.old }
    requires freed { rows ≤ length freed.old }
    ensures tells { TellsRows Bool false (λ conv. is_busy (assignment_of distributor.now.table agg.0 conv)) has_freed rows busy.old busy.new
        freed.old freed.new result }
{
    let mut count = 0;
    for conv in 0..rows {
        let row = usize::from(conv);
        let is = is_busy(distributor.state(agg, conv));
        let left = has_freed(busy[row], is);
        freed[row] = left;
        busy[row] = is;
        count += u16::from(left);
    }
    count
}

impl<F: Fn(u16, usize) -> usize + Drop> System<F> {
    // promise: `conversation_ports` writes the port that each conversation is On, or 0, which rows are new, and how many; no more rows than
    //    both lists have
    // contract: `conversation_ports` (`tells`: `TellsPorts`)
    /// Writes for each conversation of an aggregator, by its number, the port that it is On, or 0 if it is free or held.
    /// `changed` gets whether `ports` had another number there; the answer is how many changed. A row names a port only while
    /// `offer` answers that port for a frame of the conversation. Rows are written as far as both lists go, at most one for
    /// each conversation; what is behind them stays. `NoAggregator` if there is no such aggregator; then nothing is written
    /// (profile).
    pub fn conversation_ports(
        &self,
        agg: AggId,
        ports: &mut [u16],
        changed: &mut [bool],
    ) -> Result<u16, SystemFault>
        ensures tells { IfOk result (λ count. TellsPorts self.now.state agg ports.old ports.new changed.old changed.new count) }
        ensures there { IfOk result (λ count. has_aggregator self.now.state agg ≡ true) }
        ensures none { IfErr result (λ fault. has_aggregator self.now.state agg ≡ false) }
        ensures named { IfErr result (λ fault. fault ≡ SystemFault.NoAggregator) }
        ensures ports { OnErr result (ports.new ≡ ports.old) }
        ensures changed { OnErr result (changed.new ≡ changed.old) }
    {
        if !self.inner.has_aggregator(agg) {
            return Err(SystemFault::NoAggregator);
        }
        let rows = told_rows(
            self.inner.distributor.conversations(),
            ports.len(),
            changed.len(),
        );
        Ok(tell_ports(&self.inner.distributor, agg, rows, ports, changed))
    }

    // promise: `released` writes which conversations are On, Wanted or Flushing, which were and are not, and how many
    // contract: `released` (`tells`: `TellsFreed`)
    // not said: one that became busy and free, or free and busy, between two questions
    /// Writes which conversations of an aggregator became free since `busy` was written. `busy` is the host's own list, by the
    /// number of the conversation: whether it was On, Wanted or Flushing when the host asked last, at first all false. It gets
    /// which are so now; `freed` gets which were so and are free now; the answer is how many. Asked after each `receive`,
    /// `set_link`, `tick`, `rest`, `force` and `force_port` it is what that call set free of the list. Rows are written as far as
    /// both lists go, at most one for each conversation; what is behind them stays. `NoAggregator` if there is no such aggregator;
    /// then nothing is written (profile).
    ///
    /// It looks at the list and not at the calls between: a host sets its row at each `offer` that is answered with a port. A
    /// conversation that became On and free again since, and whose row was not set, is not told.
    pub fn released(
        &self,
        agg: AggId,
        busy: &mut [bool],
        freed: &mut [bool],
    ) -> Result<u16, SystemFault>
        ensures tells { IfOk result (λ count. TellsFreed self.now.state agg busy.old busy.new freed.old freed.new count) }
        ensures there { IfOk result (λ count. has_aggregator self.now.state agg ≡ true) }
        ensures none { IfErr result (λ fault. has_aggregator self.now.state agg ≡ false) }
        ensures named { IfErr result (λ fault. fault ≡ SystemFault.NoAggregator) }
        ensures busy { OnErr result (busy.new ≡ busy.old) }
        ensures freed { OnErr result (freed.new ≡ freed.old) }
    {
        if !self.inner.has_aggregator(agg) {
            return Err(SystemFault::NoAggregator);
        }
        let rows = told_rows(
            self.inner.distributor.conversations(),
            busy.len(),
            freed.len(),
        );
        Ok(tell_freed(&self.inner.distributor, agg, rows, busy, freed))
    }
}
