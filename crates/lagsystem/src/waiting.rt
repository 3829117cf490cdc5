ghost use Rattle.std.specs.Prelude.{◌≡◌, map};
ghost use Rattle.distributor.specs.Waiting.{sooner, ticks_until_next_wanted};
ghost use Rattle.lagsystem.specs.Inner.{inner_state};
ghost use Rattle.lagsystem.specs.Waiting.{soonest, ticks_in_window, ticks_until_due, ticks_until_due_on, ticks_until_expired};
ghost use Rattle.lagsystem.specs.Waiting.{ticks_until_frame, ticks_until_room};

use crate::calls::System;
use crate::inner::Inner;
use crate::system_ports::SystemPort;
use portmachines::Port;

/// An LACPDU leaves the transmit window when its age becomes 11 ticks (6.4.16).
const WINDOW_TICKS: u8 = 11;

/// The sooner of two numbers of ticks; None is never.
fn sooner(one: Option<u16>, other: Option<u16>) -> Option<u16>
    ensures { result ≡ sooner one other }
{
    match (one, other) {
        (Some(ticks), Some(others)) => Some(ticks.min(others)),
        (Some(ticks), None) | (None, Some(ticks)) => Some(ticks),
        (None, None) => None,
    }
}

/// The soonest of all these; None is never.
fn soonest(waits: &[Option<u16>]) -> Option<u16>
    ensures { result ≡ soonest waits.now }
{
    let mut first = None;
    for wait in waits {
        first = sooner(first, *wait);
    }
    first
}

/// In how many ticks a timer expires that has so many left; None if it has expired.
fn ticks_until_expired(left: u16) -> Option<u16>
    ensures { result ≡ ticks_until_expired left }
{
    if left > 0 { Some(left) } else { None }
}

/// In how many ticks the first of LACPDUs of these ages leaves the transmit window; None if there is none.
fn first_to_leave(ages: &[u8]) -> Option<u16>
    ensures { result ≡ soonest (map ticks_in_window ages.now) }
{
    let mut first = None;
    for age in ages {
        let left = u16::from(WINDOW_TICKS.saturating_sub(*age));
        first = sooner(first, Some(left));
    }
    first
}

/// In how many ticks the first LACPDU leaves the transmit window of a port; None if none is to be sent there.
fn ticks_until_room(port: &Port) -> Option<u16>
    ensures { result ≡ ticks_until_room port.now }
{
    if port.is_enabled() && port.ntt() {
        first_to_leave(port.ages().as_slice())
    } else {
        None
    }
}

impl<F: Fn(u16, usize) -> usize + Drop> Inner<F> {
    /// 0 if a frame is due on a port; else None.
    fn ticks_until_frame(&self, system_port: &SystemPort) -> Option<u16>
        ensures { result ≡ ticks_until_frame (inner_state self.now) system_port.now }
    {
        if self.would_transmit(system_port) {
            Some(0)
        } else {
            None
        }
    }

    /// In how many ticks something happens on a port by itself; None for never.
    fn ticks_until_due_on(&self, system_port: &SystemPort) -> Option<u16>
        ensures { result ≡ ticks_until_due_on (inner_state self.now) system_port.now }
    {
        let port = &system_port.port;
        soonest(&[
            self.ticks_until_frame(system_port),
            ticks_until_expired(port.current_while()),
            ticks_until_expired(port.periodic_timer()),
            ticks_until_expired(u16::from(port.wait_while())),
            ticks_until_room(port),
        ])
    }

    /// In how many ticks a conversation that waits for a response is Wanted again; None for never.
    fn ticks_until_next_wanted(&self) -> Option<u16>
        ensures { result ≡ ticks_until_next_wanted self.now.distributor.table }
    {
        match self.distributor.ticks_until_next_wanted() {
            Some(ticks) => Some(u16::from(ticks)),
            None => None,
        }
    }

    /// In how many ticks something happens by itself; None for never.
    fn ticks_until_due(&self) -> Option<u16>
        ensures { result ≡ ticks_until_due (inner_state self.now) }
    {
        let mut first = self.ticks_until_next_wanted();
        for system_port in &self.system_ports {
            first = sooner(first, self.ticks_until_due_on(system_port));
        }
        first
    }
}

impl<F: Fn(u16, usize) -> usize + Drop> System<F> {
    // promise: `ticks_until_due` is the least of the ticks that [PROFILE](../PROFILE.md#ticks_until_due-profile) lists, None without any
    // contract: `ticks_until_due` (`Waiting`)
    // not said: that a frame is due then
    /// In how many ticks, 0 to 900 as `lagprogress` bounds the timers, something happens by itself: a host may let so
    /// many pass at once. 0 if a frame is due on some port, as `is_due` tells; else the least of: the ticks that
    /// current_while, periodic_timer or wait_while of a port has left, where it has not expired; where an LACPDU is to
    /// be sent, but three were sent in the last eleven ticks, those until the first of them leaves the window; and those
    /// until a conversation whose marker got no response is Wanted again. None if there is nothing of all this: then
    /// nothing happens without another call (6.4.10, 6.4.16; profile).
    pub fn ticks_until_due(&self) -> Option<u16>
        ensures { result ≡ ticks_until_due self.now.state }
    {
        self.inner.ticks_until_due()
    }
}
