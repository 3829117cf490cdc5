ghost use Rattle.std.specs.Prelude.{◌≡◌, Option};
ghost use Rattle.lagffi.specs.ReaderValues.{lag_assignment_on, assignment_or_refused, lag_assignment, choice_or_no_port, lag_end};
ghost use Rattle.lagffi.specs.ReaderValues.{group_or_no_port, lag_group, info_or_no_port, lag_info, lag_marker, mux_state_or_no_port};
ghost use Rattle.lagffi.specs.ReaderValues.{assignment_refused, no_end, group_refused, info_refused, marker_refused, party_refused};
ghost use Rattle.lagffi.specs.ReaderValues.{lag_wait, wait_refused};
ghost use Rattle.lagtypes.specs.Choices.{is_standby};
ghost use Rattle.lagffi.specs.ReaderValues.{choice_number, mux_state_number, receive_state_number};
ghost use Rattle.lagffi.specs.ReaderValues.{port_status_or_no_port};
ghost use Rattle.lagffi.specs.ReaderValues.{state_or_no_port, party_or_no_port, lag_party, receive_state_or_no_port, standby_or_no_port};

use crate::values::{LagNumber, LagTruth, NO_CONVERSATION, NO_PORT, OK};
use bitflags::Flags;
use lagsystem::{
    AggId, Assignment, Choice, Group, Info, MuxState, Party, PortStatus, ReceiveState, State,
};
use lagtypes::End;

/// The state octet of a port.
pub(crate) fn state_or_no_port(answer: Option<State>) -> LagNumber
    ensures { result ≡ state_or_no_port answer }
{
    match answer {
        Some(state) => LagNumber::answered(u64::from(state.bits())),
        None => LagNumber::refused(NO_PORT),
    }
}

/// The number of a state of the receive machine.
pub(crate) fn receive_state_number(state: ReceiveState) -> u8
    ensures { result ≡ receive_state_number state }
{
    match state {
        ReceiveState::Initialize => 0,
        ReceiveState::PortDisabled => 1,
        ReceiveState::Expired => 2,
        ReceiveState::Defaulted => 3,
        ReceiveState::Current => 4,
    }
}

/// The state of a receive machine.
pub(crate) fn receive_state_or_no_port(answer: Option<ReceiveState>) -> LagNumber
    ensures { result ≡ receive_state_or_no_port answer }
{
    match answer {
        Some(state) => LagNumber::answered(u64::from(receive_state_number(state))),
        None => LagNumber::refused(NO_PORT),
    }
}

/// The number of a state of the mux machine.
pub(crate) fn mux_state_number(state: MuxState) -> u8
    ensures { result ≡ mux_state_number state }
{
    match state {
        MuxState::Detached => 0,
        MuxState::Waiting => 1,
        MuxState::Attached => 2,
        MuxState::CollectingDistributing => 3,
    }
}

/// The state of a mux machine.
pub(crate) fn mux_state_or_no_port(answer: Option<MuxState>) -> LagNumber
    ensures { result ≡ mux_state_or_no_port answer }
{
    match answer {
        Some(state) => LagNumber::answered(u64::from(mux_state_number(state))),
        None => LagNumber::refused(NO_PORT),
    }
}

/// Whether a port distributes, and else the first reason why not.
pub(crate) fn port_status_or_no_port(answer: Option<PortStatus>) -> LagNumber
    ensures { result ≡ port_status_or_no_port answer }
{
    match answer {
        Some(status) => LagNumber::answered(u64::from(status.number())),
        None => LagNumber::refused(NO_PORT),
    }
}

/// The aggregator that a port is SELECTED or STANDBY with, or 0.
pub(crate) fn choice_number(choice: Choice) -> u16
    ensures { result ≡ choice_number choice }
{
    match choice {
        Choice::Unselected => 0,
        Choice::Selected(AggId(agg)) | Choice::Standby(AggId(agg)) => agg,
    }
}

/// The number of the aggregator of a choice, or that there is no such port.
pub(crate) fn choice_or_no_port(answer: Option<Choice>) -> LagNumber
    ensures { result ≡ choice_or_no_port answer }
{
    match answer {
        Some(choice) => LagNumber::answered(u64::from(choice_number(choice))),
        None => LagNumber::refused(NO_PORT),
    }
}

/// Whether a port is STANDBY.
pub(crate) fn is_standby(choice: Choice) -> bool
    ensures { result ≡ is_standby choice }
{
    match choice {
        Choice::Standby(_) => true,
        Choice::Unselected | Choice::Selected(_) => false,
    }
}

/// Whether a choice is STANDBY, or that there is no such port.
pub(crate) fn standby_or_no_port(answer: Option<Choice>) -> LagTruth
    ensures { result ≡ standby_or_no_port answer }
{
    match answer {
        Some(choice) => LagTruth::answered(is_standby(choice)),
        None => LagTruth::refused(NO_PORT),
    }
}

/// The own parameters of a port, or why they are not told.
#[repr(C)]
#[derive(Clone, Copy)]
pub struct LagParty {
    /// 0, or the number of the refusal.
    pub status: u32,
    /// The system priority.
    pub system_priority: u16,
    /// The MAC address of the system.
    pub system_mac: [u8; 6],
    /// The key.
    pub key: u16,
    /// The port priority.
    pub port_priority: u16,
    /// The port number.
    pub port: u16,
    /// The Aggregation bit.
    pub aggregatable: bool,
}

impl LagParty {
    /// Refused with this number.
    pub(crate) fn refused(why: u32) -> LagParty
        ensures { result ≡ party_refused why }
    {
        LagParty {
            status: why,
            system_priority: 0,
            system_mac: [0; 6],
            key: 0,
            port_priority: 0,
            port: 0,
            aggregatable: false,
        }
    }

    /// The own parameters of a port.
    fn of_party(party: &Party) -> LagParty
        ensures { result ≡ lag_party party.now }
    {
        LagParty {
            status: OK,
            system_priority: party.system.priority,
            system_mac: party.system.mac,
            key: party.key.0,
            port_priority: party.port.priority,
            port: party.port.number,
            aggregatable: party.aggregatable,
        }
    }

    /// The answer of a reader of ports; refused if there is no such port.
    pub(crate) fn of(answer: Option<Party>) -> LagParty
        ensures { result ≡ party_or_no_port answer }
    {
        match answer {
            Some(party) => LagParty::of_party(&party),
            None => LagParty::refused(NO_PORT),
        }
    }
}

/// The recorded partner of a port, or why it is not told.
#[repr(C)]
#[derive(Clone, Copy)]
pub struct LagInfo {
    /// 0, or the number of the refusal.
    pub status: u32,
    /// The system priority.
    pub system_priority: u16,
    /// The MAC address of the system.
    pub system_mac: [u8; 6],
    /// The key.
    pub key: u16,
    /// The port priority.
    pub port_priority: u16,
    /// The port number.
    pub port: u16,
    /// The state octet.
    pub state: u8,
}

impl LagInfo {
    /// Refused with this number.
    pub(crate) fn refused(why: u32) -> LagInfo
        ensures { result ≡ info_refused why }
    {
        LagInfo {
            status: why,
            system_priority: 0,
            system_mac: [0; 6],
            key: 0,
            port_priority: 0,
            port: 0,
            state: 0,
        }
    }

    /// The recorded partner of a port.
    fn of_info(info: &Info) -> LagInfo
        ensures { result ≡ lag_info info.now }
    {
        LagInfo {
            status: OK,
            system_priority: info.system.priority,
            system_mac: info.system.mac,
            key: info.key.0,
            port_priority: info.port.priority,
            port: info.port.number,
            state: info.state.bits(),
        }
    }

    /// The answer of a reader of ports; refused if there is no such port.
    pub(crate) fn of(answer: Option<Info>) -> LagInfo
        ensures { result ≡ info_or_no_port answer }
    {
        match answer {
            Some(info) => LagInfo::of_info(&info),
            None => LagInfo::refused(NO_PORT),
        }
    }
}

/// One end of a group.
#[repr(C)]
#[derive(Clone, Copy)]
pub struct LagEnd {
    /// The system priority.
    pub system_priority: u16,
    /// The MAC address of the system.
    pub system_mac: [u8; 6],
    /// The key.
    pub key: u16,
    /// Whether the link is individual, and the port named.
    pub individual: bool,
    /// The port priority, or 0.
    pub port_priority: u16,
    /// The port number, or 0.
    pub port: u16,
}

impl LagEnd {
    /// An end of a LAG ID as C reads it.
    fn of(end: &End) -> LagEnd
        ensures { result ≡ lag_end end.now }
    {
        let (individual, port_priority, port) = match end.port {
            Some(port) => (true, port.priority, port.number),
            None => (false, 0, 0),
        };
        LagEnd {
            system_priority: end.system.priority,
            system_mac: end.system.mac,
            key: end.key.0,
            individual,
            port_priority,
            port,
        }
    }

    /// No end.
    fn none() -> LagEnd
        ensures { result ≡ no_end }
    {
        LagEnd {
            system_priority: 0,
            system_mac: [0; 6],
            key: 0,
            individual: false,
            port_priority: 0,
            port: 0,
        }
    }
}

/// The group of a port, or why it is not told.
#[repr(C)]
#[derive(Clone, Copy)]
pub struct LagGroup {
    /// 0, or the number of the refusal.
    pub status: u32,
    /// The lower end.
    pub lower: LagEnd,
    /// The upper end.
    pub upper: LagEnd,
}

impl LagGroup {
    /// Refused with this number.
    pub(crate) fn refused(why: u32) -> LagGroup
        ensures { result ≡ group_refused why }
    {
        LagGroup {
            status: why,
            lower: LagEnd::none(),
            upper: LagEnd::none(),
        }
    }

    /// The group of a port.
    fn of_group(group: &Group) -> LagGroup
        ensures { result ≡ lag_group group.now }
    {
        LagGroup {
            status: OK,
            lower: LagEnd::of(&group.lower()),
            upper: LagEnd::of(&group.upper()),
        }
    }

    /// The answer of a reader of ports; refused if there is no such port.
    pub(crate) fn of(answer: Option<Group>) -> LagGroup
        ensures { result ≡ group_or_no_port answer }
    {
        match answer {
            Some(group) => LagGroup::of_group(&group),
            None => LagGroup::refused(NO_PORT),
        }
    }
}

/// The state of a conversation, or why it is not told.
#[repr(C)]
#[derive(Clone, Copy)]
pub struct LagAssignment {
    /// 0, or the number of the refusal.
    pub status: u32,
    /// 0 Free, 1 On, 2 Wanted, 3 Flushing.
    pub what: u32,
    /// The port, if `what` is 1, 2 or 3; else 0.
    pub port: u16,
    /// Whether there is a preferred port.
    pub prefers: bool,
    /// The preferred port, or 0.
    pub preferred: u16,
    /// The identifier of its marker, if `what` is 3; else 0.
    pub id: u32,
    /// How many ticks have passed since its marker, if `what` is 3; else 0.
    pub age: u8,
}

impl LagAssignment {
    /// Refused with this number.
    pub(crate) fn refused(why: u32) -> LagAssignment
        ensures { result ≡ assignment_refused why }
    {
        LagAssignment {
            status: why,
            what: 0,
            port: 0,
            prefers: false,
            preferred: 0,
            id: 0,
            age: 0,
        }
    }

    /// The state with this number, the port of the conversation or 0, and its preferred port, if it has one.
    fn on(what: u32, port: u16, preferred: Option<u16>) -> LagAssignment
        ensures { result ≡ lag_assignment_on what port preferred }
    {
        let (prefers, preferred) = match preferred {
            Some(port) => (true, port),
            None => (false, 0),
        };
        LagAssignment {
            status: OK,
            what,
            port,
            prefers,
            preferred,
            id: 0,
            age: 0,
        }
    }

    /// The state of a conversation.
    fn of_assignment(assignment: &Assignment) -> LagAssignment
        ensures { result ≡ lag_assignment assignment.now }
    {
        match *assignment {
            Assignment::Free { preferred } => LagAssignment::on(0, 0, preferred),
            Assignment::On(port) => LagAssignment::on(1, port, None),
            Assignment::Wanted { port, preferred } => LagAssignment::on(2, port, preferred),
            Assignment::Flushing {
                port,
                id,
                preferred,
                age,
            } => {
                let mut answered = LagAssignment::on(3, port, preferred);
                answered.id = id;
                answered.age = age;
                answered
            }
        }
    }

    /// The state of the conversation; refused if there is no such aggregator or conversation.
    pub(crate) fn of(answer: Option<Assignment>) -> LagAssignment
        ensures { result ≡ assignment_or_refused answer }
    {
        match answer {
            Some(assignment) => LagAssignment::of_assignment(&assignment),
            None => LagAssignment::refused(NO_CONVERSATION),
        }
    }
}

/// The identifier of the next marker, or why it is not told.
#[repr(C)]
#[derive(Clone, Copy)]
pub struct LagMarker {
    /// 0, or the number of the refusal.
    pub status: u32,
    /// Whether one is left.
    pub left: bool,
    /// The identifier, or 0.
    pub id: u32,
}

impl LagMarker {
    /// Refused with this number.
    pub(crate) fn refused(why: u32) -> LagMarker
        ensures { result ≡ marker_refused why }
    {
        LagMarker {
            status: why,
            left: false,
            id: 0,
        }
    }

    /// The identifier, if one is left.
    pub(crate) fn of(next: Option<u32>) -> LagMarker
        ensures { result ≡ lag_marker next }
    {
        match next {
            Some(id) => LagMarker {
                status: OK,
                left: true,
                id,
            },
            None => LagMarker {
                status: OK,
                left: false,
                id: 0,
            },
        }
    }
}

/// In how many ticks something happens by itself, or why it is not told.
#[repr(C)]
#[derive(Clone, Copy)]
pub struct LagWait {
    /// 0, or the number of the refusal.
    pub status: u32,
    /// Whether something ever happens by itself.
    pub ever: bool,
    /// The number of ticks, or 0.
    pub ticks: u16,
}

impl LagWait {
    /// Refused with this number.
    pub(crate) fn refused(why: u32) -> LagWait
        ensures { result ≡ wait_refused why }
    {
        LagWait {
            status: why,
            ever: false,
            ticks: 0,
        }
    }

    /// A number of ticks as C reads it; None for never.
    pub(crate) fn of(wait: Option<u16>) -> LagWait
        ensures { result ≡ lag_wait wait }
    {
        match wait {
            Some(ticks) => LagWait {
                status: OK,
                ever: true,
                ticks,
            },
            None => LagWait {
                status: OK,
                ever: false,
                ticks: 0,
            },
        }
    }
}
