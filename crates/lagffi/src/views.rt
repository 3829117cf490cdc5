ghost use Rattle.std.specs.Prelude.{◌≡◌, ◌≤◌, IsTrue, length, nat_le};
ghost use Rattle.std.specs.Bool.{IsFalse};
ghost use Rattle.lagsystem.specs.PortStatus.{status_number};
ghost use Rattle.lagsystem.specs.State.{port_numbers};
ghost use Rattle.lagffi.specs.Asking.{ReadsHeldSystem};
ghost use Rattle.lagffi.specs.Holding.{held_value};
ghost use Rattle.lagffi.specs.Lists.{port_list_length, put_first};
ghost use Rattle.lagffi.specs.Masks.{mask};
ghost use Rattle.lagffi.specs.Numbers.{no_system, number, number_refused, wrong_buffer_length};
ghost use Rattle.lagffi.specs.PortViews.{changed, no_view, same_view, view_at, view_of_machines, views_of};

use crate::handle::Lag;
use crate::masks::mask;
use crate::reader_values::{choice_number, is_standby, mux_state_number, receive_state_number};
use crate::stored::by_number;
use crate::values::{LagNumber, NO_SYSTEM, PORT_LIST_LENGTH, WRONG_BUFFER_LENGTH};
use arrayvec::ArrayVec;
use bitflags::Flags;
use lagsystem::{PortStatus, System};
use portmachines::Port;
use std::alloc::Global;

/// What there is to show of a port: no timer, and nothing that changes from tick to tick.
#[repr(C)]
#[derive(Clone, Copy, Default, PartialEq, Eq)]
pub struct LagView {
    /// The port number.
    pub port: u16,
    /// The aggregator that the port is SELECTED or STANDBY with, or 0.
    pub aggregator: u16,
    /// Whether the link of the port is up.
    pub up: bool,
    /// Whether the port is STANDBY.
    pub standby: bool,
    /// Actor_State.Defaulted, as `lagffi_defaulted` tells it.
    pub defaulted: bool,
    /// The state octet of the port's own side.
    pub state: u8,
    /// The state of the receive machine, as `lagffi_receive_state` tells it.
    pub receive_state: u8,
    /// The state of the mux machine, as `lagffi_mux_state` tells it.
    pub mux_state: u8,
    /// Whether the port distributes, and else why not, as `lagffi_port_status` tells it.
    pub port_status: u8,
    /// The state octet of the recorded partner.
    pub partner_state: u8,
    /// The MAC address of the partner's system.
    pub partner_mac: [u8; 6],
    /// The priority of the partner's system.
    pub partner_priority: u16,
    /// The partner's key.
    pub partner_key: u16,
    /// The priority of the partner's port.
    pub partner_port_priority: u16,
    /// The number of the partner's port.
    pub partner_port: u16,
}

impl LagView {
    /// The view of a port that does not exist: its number, and 0 in all other fields.
    fn none(port: u16) -> LagView
        ensures { result ≡ no_view port }
    {
        LagView {
            port,
            aggregator: 0,
            up: false,
            standby: false,
            defaulted: false,
            state: 0,
            receive_state: 0,
            mux_state: 0,
            port_status: 0,
            partner_state: 0,
            partner_mac: [0; 6],
            partner_priority: 0,
            partner_key: 0,
            partner_port_priority: 0,
            partner_port: 0,
        }
    }

    /// The view of a port, from its number, its machines and its status.
    fn of(number: u16, port: &Port, status: PortStatus) -> LagView
        ensures { result ≡ record (view_of_machines number port.now) { port_status = status_number status } }
    {
        let partner = port.partner();
        LagView {
            port: number,
            aggregator: choice_number(port.choice()),
            up: port.is_enabled(),
            standby: is_standby(port.choice()),
            defaulted: port.is_defaulted(),
            state: port.state().bits(),
            receive_state: receive_state_number(port.receive_state()),
            mux_state: mux_state_number(port.mux_state()),
            port_status: status.number(),
            partner_state: partner.state.bits(),
            partner_mac: partner.system.mac,
            partner_priority: partner.system.priority,
            partner_key: partner.key.0,
            partner_port_priority: partner.port.priority,
            partner_port: partner.port.number,
        }
    }

    /// Whether each field is equal.
    fn is_same(&self, other: &LagView) -> bool
        ensures { result ≡ same_view self.now other.now }
    {
        *self == *other
    }
}

/// What there is to show of the port with this number.
fn view_of<F: Fn(u16, usize) -> usize + Drop>(system: &System<F>, number: u16) -> LagView
    ensures { result ≡ view_at system.now.state number }
{
    let Some(port) = system.machines(number) else {
        return LagView::none(number);
    };
    match system.port_status(number) {
        Some(status) => LagView::of(number, port, status),
        None => unreachable!(),
    }
}

/// What there is to show of each of these ports.
fn views_of<F: Fn(u16, usize) -> usize + Drop>(
    system: &System<F>,
    numbers: &[u16],
) -> ArrayVec<LagView, 64>
    requires { length numbers.now ≤ 64 }
    ensures { result.items ≡ views_of system.now.state numbers.now }
{
    let mut views = ArrayVec::new();
    for number in numbers {
        views.push(view_of(system, *number));
    }
    views
}

/// Where the new views differ from what stood in their places.
fn changed(old: &[LagView], new: &[LagView]) -> ArrayVec<bool, 64>
    requires few { length new.now ≤ 64 }
    requires room { length new.now ≤ length old.now }
    ensures { result.items ≡ changed old.now new.now }
{
    let mut found = ArrayVec::new();
    for place in 0..new.len() {
        found.push(!old[place].is_same(&new[place]));
    }
    found
}

/// Writes these views at the front of a buffer; answers the mask of those that differ from what stood in their places.
fn renew(views: &mut [LagView], now: &[LagView]) -> u64
    requires few { length now.now ≤ 64 }
    requires room { length now.now ≤ length views.old }
    ensures mask { result ≡ mask (changed views.old now.now) }
    ensures written { views.new ≡ put_first now.now views.old }
{
    let differ = changed(views, now);
    views[..now.len()].copy_from_slice(now);
    mask(&differ)
}

/// What changed: writes what there is to show of each port into `views`, which has room for NIW_MOST_PORTS views or more, in the order
/// of port numbers, and returns a mask of those that differ from what stood there. Bit 0, of the value 1, tells of the first port. The
/// first time, `views` may hold zeros.
/// Refuses: NIW_BUFFER, NIW_NO_SYSTEM.
#[unsafe(no_mangle)]
pub extern "C" fn lagffi_views(alloc: Global, lag: &mut Lag, views: &mut [LagView]) -> LagNumber
    ensures room { IsFalse (nat_le port_list_length (length views.old)) → (result ≡ number_refused wrong_buffer_length)
        × (held_value lag.new.held.kept ≡ held_value lag.old.held.kept) × (views.new ≡ views.old) }
    ensures answers { IsTrue (nat_le port_list_length (length views.old))
        → ReadsHeldSystem (held_value lag.old.held.kept) (held_value lag.new.held.kept)
        (λ s. (result ≡ number (mask (changed views.old (views_of s (port_numbers s.system_ports)))))
        × (views.new ≡ put_first (views_of s (port_numbers s.system_ports)) views.old))
        ((result ≡ number_refused no_system) × (views.new ≡ views.old)) }
{
    if views.len() < PORT_LIST_LENGTH {
        return LagNumber::refused(WRONG_BUFFER_LENGTH);
    }
    let Some((system, block)) = lag.take(alloc, by_number) else {
        return LagNumber::refused(NO_SYSTEM);
    };
    let now = views_of(&system, &system.ports());
    lag.put(system, block);
    LagNumber::answered(renew(views, &now))
}
