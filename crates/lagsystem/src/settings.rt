ghost use Rattle.std.specs.Prelude.{◌≡◌, ◌<◌, ◌&&◌, Ok, filter, if◌then◌else◌, length};
ghost use Rattle.std.specs.Bool.{OnFalse, OnTrue};
ghost use Rattle.std.specs.List.{list_any};
ghost use Rattle.lagtypes.specs.declared.party.Choice.{Choice};
ghost use Rattle.selection.specs.Views.{has_chosen};
ghost use Rattle.lagsystem.specs.Calls.{choice_with_link};
ghost use Rattle.lagsystem.specs.Inner.{inner_state};
ghost use Rattle.lagsystem.specs.Settings.{IsAlready, PortBecomes, Setting, SettingPromise, SettingStep, in_mode, is_crowded};
ghost use Rattle.lagsystem.specs.Settings.{held_at, is_held_so, is_in_mode, is_over, limit_refusal, members_up, with_held};
ghost use Rattle.lagsystem.specs.Settling.{PortsChangeBy};
ghost use Rattle.lagsystem.specs.Sound.{IsSound};

use crate::calls::System;
use crate::fault::{BadConfig, SystemFault};
use crate::holding::list_aggregators_in_use;
use crate::inner::Inner;
use crate::set_link::choice_with_link;
use crate::start::is_limit;
use crate::system_ports::SystemPort;
use arrayvec::ArrayVec;
use lagtypes::{AggId, Choice};
use portmachines::Port;

/// Selected of a port that is held or let go: UNSELECTED if it is held; else it stays.
fn choice_if_held(held: bool, choice: Choice) -> Choice
    ensures { result ≡ (if held then Choice.Unselected else choice) }
{
    if held { Choice::Unselected } else { choice }
}

/// Holds a port, or lets it go.
fn hold(system_port: &mut SystemPort, held: bool)
    ensures { system_port.new ≡ with_held held system_port.old }
{
    let choice = choice_if_held(held, system_port.port.choice());
    system_port.port.select(choice);
    system_port.held = held;
}

/// Holds the port at this index, or lets it go; false, and nothing changes, if it is so already.
fn hold_at(system_ports: &mut [SystemPort], place: usize, held: bool) -> bool
    requires { place < length system_ports.old }
    ensures acted { OnTrue result (PortBecomes (is_held_so held) (with_held held) place system_ports.old system_ports.new) }
    ensures stays { OnFalse result (IsAlready (is_held_so held) place system_ports.old) }
    ensures unchanged { OnFalse result (system_ports.new ≡ system_ports.old) }
{
    if system_ports[place].held == held {
        return false;
    }
    let system_port = &mut system_ports[place];
    hold(system_port, held);
    true
}

/// Whether a port has this LACP_Activity and LACP_Timeout.
fn is_in_mode(system_port: &SystemPort, active: bool, short: bool) -> bool
    ensures { result ≡ is_in_mode active short system_port.now }
{
    system_port.port.is_active() == active && system_port.port.is_short() == short
}

/// Gives the port at this index this LACP_Activity and LACP_Timeout; false, and nothing changes, if it has them already.
fn set_mode_at(system_ports: &mut [SystemPort], place: usize, active: bool, short: bool) -> bool
    requires { place < length system_ports.old }
    ensures acted { OnTrue result (PortBecomes (is_in_mode active short) (in_mode active short) place system_ports.old system_ports.new) }
    ensures stays { OnFalse result (IsAlready (is_in_mode active short) place system_ports.old) }
    ensures unchanged { OnFalse result (system_ports.new ≡ system_ports.old) }
{
    if is_in_mode(&system_ports[place], active, short) {
        return false;
    }
    let system_port = &mut system_ports[place];
    system_port.port.set_mode(active, short);
    true
}

/// Whether a port is a member of an aggregator, and its link is up.
fn is_member_up(system_port: &SystemPort, agg: AggId) -> bool
    ensures { result ≡ (system_port.now.port.enabled && has_chosen agg system_port.now.port.choice) }
{
    match system_port.port.choice() {
        Choice::Selected(given) => system_port.port.is_enabled() && given == agg,
        Choice::Unselected | Choice::Standby(_) => false,
    }
}

/// How many members of an aggregator have a link that is up.
fn member_up_count(system_ports: &[SystemPort], agg: AggId) -> usize
    ensures { result ≡ length (members_up agg system_ports.now) }
{
    system_ports
        .iter()
        .filter(|system_port| is_member_up(system_port, agg))
        .count()
}

/// Whether a port with this choice is a member of an aggregator that has more members whose links are up than this many.
fn is_crowded(system_ports: &[SystemPort], most: u16, choice: Choice) -> bool
    ensures { result ≡ is_crowded most system_ports.now choice }
{
    match choice {
        Choice::Selected(agg) => member_up_count(system_ports, agg) > usize::from(most),
        Choice::Unselected | Choice::Standby(_) => false,
    }
}

/// Whether some aggregator has more members whose links are up than this many.
fn any_crowded(system_ports: &[SystemPort], most: u16) -> bool
    ensures { result ≡ list_any (λ x. is_crowded most system_ports.now x.port.choice) system_ports.now }
{
    system_ports.iter().any(|system_port| is_crowded(system_ports, most, system_port.port.choice()))
}

/// Whether some aggregator has more members whose links are up than the limit.
fn is_over(system_ports: &[SystemPort], max_links: Option<u16>) -> bool
    ensures { result ≡ is_over max_links system_ports.now }
{
    match max_links {
        Some(most) => any_crowded(system_ports, most),
        None => false,
    }
}

/// The first reason to refuse a limit of links.
fn limit_refusal(system_ports: &[SystemPort], max_links: Option<u16>) -> Option<SystemFault>
    ensures { result ≡ limit_refusal max_links system_ports.now }
{
    if !is_limit(max_links) {
        return Some(SystemFault::BadConfig(BadConfig::MaxLinks));
    }
    if is_over(system_ports, max_links) {
        return Some(SystemFault::OverLimit);
    }
    None
}

/// With a limit, makes a port UNSELECTED if its link is down.
fn unselect_if_down(port: &mut Port, max_links: Option<u16>)
    ensures { port.new ≡ record port.old { choice = choice_with_link max_links port.old.enabled port.old.choice } }
{
    let choice = choice_with_link(max_links, port.is_enabled(), port.choice());
    port.select(choice);
}

/// With a limit, makes each port whose link is down UNSELECTED.
fn unselect_down(system_ports: &mut [SystemPort], max_links: Option<u16>)
    ensures { PortsChangeBy (λ p q. q ≡ record p { choice = choice_with_link max_links p.enabled p.choice })
        system_ports.old system_ports.new }
{
    for system_port in system_ports.iter_mut() {
        unselect_if_down(&mut system_port.port, max_links);
    }
}

impl<F: Fn(u16, usize) -> usize + Drop> Inner<F> {
    /// As `System::hold_port`.
    fn hold_port(&mut self, number: u16, held: bool) -> Result<(), SystemFault>
        requires { IsSound (inner_state self.old) }
        ensures step { SettingStep (inner_state self.old) (Setting.Hold_port number held) result (inner_state self.new) }
        ensures algorithm { self.new.distributor.algorithm ≡ self.old.distributor.algorithm }
    {
        let place = self.port_index(number)?;
        let mut before = ArrayVec::new();
        list_aggregators_in_use(&self.system_ports, &mut before);
        if !hold_at(&mut self.system_ports, place, held) {
            return Ok(());
        }
        self.settle(before.as_slice(), false);
        Ok(())
    }

    /// As `System::set_mode`.
    fn set_mode(&mut self, number: u16, active: bool, short: bool) -> Result<(), SystemFault>
        requires { IsSound (inner_state self.old) }
        ensures step { SettingStep (inner_state self.old) (Setting.Set_mode number active short) result (inner_state self.new) }
        ensures algorithm { self.new.distributor.algorithm ≡ self.old.distributor.algorithm }
    {
        let place = self.port_index(number)?;
        let mut before = ArrayVec::new();
        list_aggregators_in_use(&self.system_ports, &mut before);
        if !set_mode_at(&mut self.system_ports, place, active, short) {
            return Ok(());
        }
        self.settle(before.as_slice(), false);
        Ok(())
    }

    /// As `System::set_max_links`.
    fn set_max_links(&mut self, max_links: Option<u16>) -> Result<(), SystemFault>
        requires { IsSound (inner_state self.old) }
        ensures step { SettingStep (inner_state self.old) (Setting.Set_max_links max_links) result (inner_state self.new) }
        ensures algorithm { self.new.distributor.algorithm ≡ self.old.distributor.algorithm }
    {
        match limit_refusal(&self.system_ports, max_links) {
            Some(fault) => return Err(fault),
            None => {}
        }
        let mut before = ArrayVec::new();
        list_aggregators_in_use(&self.system_ports, &mut before);
        self.aggregators.set_max_links(max_links);
        unselect_down(&mut self.system_ports, max_links);
        self.settle(before.as_slice(), true);
        Ok(())
    }
}

impl<F: Fn(u16, usize) -> usize + Drop> System<F> {
    // promise: `hold_port`, `set_mode`, `set_max_delay`, `set_max_links` keep the law, agreement and the window; a held port is UNSELECTED
    // contract: `promise` (`SettingPromise`); `IsSound` (`held`)
    /// Holds a port, or lets it go. A port that is held is UNSELECTED and chooses no aggregator: it leaves its aggregator, what is
    /// On it becomes Wanted there, and its LACPDUs say that it is not in sync, so that the peer's port leaves too. It goes on
    /// sending and processing LACPDUs, and answers markers. Once it is let go, it may choose again. One settling follows.
    /// Nothing changes if the port is held, or not held, already. A `restart` lets each port go. `NoPort` if there is no such
    /// port (6.4.8; profile).
    pub fn hold_port(&mut self, port: u16, held: bool) -> Result<(), SystemFault>
        ensures promise { SettingPromise self.old.state (Setting.Hold_port port held) result self.new.state }
        ensures algorithm { self.new.algorithm ≡ self.old.algorithm }
    {
        self.inner.hold_port(port, held)
    }

    /// Whether the host holds a port; None if there is no such port (profile).
    pub fn is_held(&self, port: u16) -> Option<bool>
        ensures { result ≡ held_at port self.now.state }
    {
        match self.inner.system_port(port) {
            Some(system_port) => Some(system_port.held),
            None => None,
        }
    }

    /// Sets LACP_Activity, false for a passive port, and LACP_Timeout, true for Short Timeout, of a port. NTT is set, and one
    /// settling follows. current_while goes on: it starts with the new time at the next LACPDU. Nothing changes if the port has
    /// these values already. A `restart` goes back to the configured ones. `NoPort` if there is no such port (6.4.2.3, 6.4.7;
    /// profile).
    pub fn set_mode(&mut self, port: u16, active: bool, short: bool) -> Result<(), SystemFault>
        ensures promise { SettingPromise self.old.state (Setting.Set_mode port active short) result self.new.state }
        ensures algorithm { self.new.algorithm ≡ self.old.algorithm }
    {
        self.inner.set_mode(port, active, short)
    }

    /// Sets CollectorMaxDelay, in tens of microseconds, of the LACPDUs from now on. Nothing else changes: none is sent for it.
    /// After a `restart` it stays as it was set (6.2.3.1.1; profile).
    pub fn set_max_delay(&mut self, max_delay: u16)
        ensures promise { SettingPromise self.old.state (Setting.Set_max_delay max_delay) (Ok tt) self.new.state }
        ensures algorithm { self.new.algorithm ≡ self.old.algorithm }
    {
        self.inner.max_delay = max_delay;
    }

    /// Sets the limit of links of each aggregator, 1 to 64, or None for any number. With a limit, a port whose link is down is
    /// UNSELECTED, as `set_link` leaves it. One settling follows: STANDBY ports become SELECTED where there is room now. After a
    /// `restart` the limit stays as it was set. Refused in this order, and nothing changes: `BadConfig(MaxLinks)` if the limit
    /// is not 1 to 64; `OverLimit` if some aggregator has more members whose links are up: the host holds ports first (6.4.8;
    /// profile).
    pub fn set_max_links(&mut self, max_links: Option<u16>) -> Result<(), SystemFault>
        ensures promise { SettingPromise self.old.state (Setting.Set_max_links max_links) result self.new.state }
        ensures algorithm { self.new.algorithm ≡ self.old.algorithm }
    {
        self.inner.set_max_links(max_links)
    }
}
