mod configurations;
mod conversations;
mod driven;
mod forced;
mod frames;
mod hostile;
mod memory;
mod most_links;
mod plan;
mod settings;
mod standby;
mod statuses;
mod truncated;
mod waiting;

ghost use Rattle.std.specs.Prelude.{◌≡◌, ◌<◌};
ghost use Rattle.distributor.specs.Calls.{PicksIndexes};

use crate::comparing::{Place, same_in_case};
use crate::systems::plan::{host_call_of, plan_of};
use bitflags::Flags;
use dataplane::{adopt, offer_conversation_in_active_aggregator};
use lagsystem::{
    AggId, Assignment, Choice, Config, Group, Info, Key, MuxState, NoMemory, Party, PortConfig,
    PortId, PortStatus, ReceiveState, Received, State, System, SystemFault, SystemId,
};
use slowpdu::{Lacpdu, Marker, MarkerKind};
use std::alloc::Global;
use std::process::Abort;

/// A data frame of conversation 48.
const DATA: [u8; 14] = [2, 0, 0, 0, 0, 0x20, 2, 0, 0, 0, 0, 0x10, 8, 0];

/// A data frame of conversation 49.
const NEXT: [u8; 14] = [2, 0, 0, 0, 0, 0x21, 2, 0, 0, 0, 0, 0x10, 8, 0];

/// A data frame of conversation 50.
const THIRD: [u8; 14] = [2, 0, 0, 0, 0, 0x22, 2, 0, 0, 0, 0, 0x10, 8, 0];

/// A data frame of conversation 255.
const LAST: [u8; 14] = [2, 0, 0, 0, 0, 0xa5, 2, 0, 0, 0, 0, 0x5a, 8, 0];

/// A call, or several, with the expected result; or what the readers are expected to return.
#[derive(Clone, Copy)]
pub(crate) enum Row<'a> {
    Link(u16, bool),
    /// The links of these ports come up.
    Links(&'a [u16]),
    Ticks(u16),
    Restart,
    /// An LACPDU with this Actor and Partner information is received on a port.
    Takes(u16, Side, Side),
    /// The LACPDU of a system's port with the same number is received on each port: it is in its aggregator, and knows the port.
    Joins(u8, &'a [u16]),
    /// The same on ports with the priorities of their ranks.
    RankedJoins(u8, &'a [u16]),
    /// `receive` of this frame on a port returns this.
    Hears(u16, &'a [u8], Received),
    /// `receive` of this frame on a port returns this, and the readers return for the port what they returned before.
    Keeps(u16, &'a [u8], Received),
    /// `configure` of a port to this key, and else its present values, returns this.
    Configures(u16, u16, bool),
    /// `transmit` on this port returns None.
    Silent(u16),
    /// A tick, this many times, and each time `transmit` returns None.
    Quiet(u16, u16),
    /// `transmit` returns an LACPDU with this Actor and Partner information.
    Sends(u16, Side, Side),
    /// The calls and readers return `NoPort` or None for this port.
    Unknown(u16),
    /// `offer` of a frame in an aggregator returns this.
    Offers(u16, &'a [u8], Result<u16, SystemFault>),
    /// `offer_conversation` returns this.
    OffersConversation(u16, u16, Result<u16, SystemFault>),
    /// `offer_conversation_in_active_aggregator` returns this.
    OffersInActiveAggregator(u16, u16, Result<u16, SystemFault>),
    Leaves(u16, u16, Result<(), SystemFault>),
    Rests(u16, u16, Result<(), SystemFault>),
    /// `adopt` on a port returns this.
    Adopts(u16, u16, u16, Result<(), SystemFault>),
    /// `probe` returns a marker with this identifier, or None.
    Probes(u16, Result<Option<u32>, SystemFault>),
    /// `move_conversation` to a port returns this.
    Moves(u16, u16, u16, Result<(), SystemFault>),
    Forces(u16, u16, Result<(), SystemFault>),
    /// `force_port` of a port returns this.
    ForcesPort(u16, Result<u32, SystemFault>),
    /// `hold_port` of a port returns this; then `is_held` tells it, if there is this port.
    Holds(u16, bool, Result<(), SystemFault>),
    /// `set_mode` of a port to active and short returns this.
    Mode(u16, bool, bool, Result<(), SystemFault>),
    /// `set_max_links` returns this.
    Limit(Option<u16>, Result<(), SystemFault>),
    /// `set_in_use` of an aggregator returns this; then `is_in_use` tells it, if there is this aggregator.
    Uses(u16, bool, Result<(), SystemFault>),
    /// `set_max_delay`.
    Delay(u16),
    /// `transmit` returns an LACPDU with this Actor and Partner information and this CollectorMaxDelay.
    SendsWith(u16, Side, Side, u16),
    /// `transmit` returns the marker with this identifier.
    Marks(u16, u32),
    /// This Marker Response comes on a port and frees this many conversations.
    Releases(u16, Response, u32),
    /// The readers return this for a port.
    Shows(u16, PortFacts),
    Chosen(u16, Choice),
    /// `port_status` of a port returns this.
    Status(u16, PortStatus),
    /// `current_while`, `wait_while` and `ntt` of a port return these.
    Timers(u16, u16, u8, bool),
    Mux(u16, MuxState),
    Defaulted(u16, bool),
    Due(u16, bool),
    Distributing(u16, &'a [u16]),
    /// `conversation` of a frame returns this.
    Conversation(&'a [u8], Option<u16>),
    /// `conversation_state` of a conversation of an aggregator returns this.
    Conversing(u16, u16, Option<Assignment>),
    /// The same for a conversation that is Wanted on a port and prefers this one.
    Wanted(u16, u16, u16, Option<u16>),
    /// The same for a conversation that is free and prefers this port.
    Free(u16, u16, Option<u16>),
    /// `next_marker` returns this.
    Next(Option<u32>),
    /// `ticks_until_due` returns this.
    Waits(Option<u16>),
    /// `held` of a port returns this.
    Held(u16, Result<u32, SystemFault>),
    /// `load` of a port returns this.
    Load(u16, Result<u32, SystemFault>),
    /// `ports` returns these, and `aggregators` this number.
    Has(&'a [u16], usize),
}

/// What an LACPDU says of one side of a link. Rows name it by numbers, so that they are constants, which cost the prover little.
#[derive(Clone, Copy)]
pub(crate) enum Side {
    /// The port of a system: the last octet of the system's MAC address, the port's number, its key and its state.
    Of(u8, u16, u16, u8),
    /// The port of system 1 with this number and state, and with the priority of its rank.
    Ranked(u16, u8),
    /// No port, with this state.
    Nobody(u8),
    /// Any other.
    Exactly(Info),
}

impl Side {
    pub(crate) fn info(self) -> Info {
        match self {
            Side::Of(system, port, key, state) => end(system, port, key, state),
            Side::Ranked(port, state) => Info {
                port: PortId {
                    priority: rank(port),
                    number: port,
                },
                ..end(1, port, 1, state)
            },
            Side::Nobody(state) => no_partner(state),
            Side::Exactly(info) => info,
        }
    }
}

/// The priority of a port in a system whose ports have ranks: the later the port, the lower its port identifier.
fn rank(port: u16) -> u16 {
    match port {
        1 => 400,
        2 => 300,
        3 => 200,
        4 => 150,
        _ => 100,
    }
}

/// A Marker Response: the port and the last octet of the system's MAC address that it names, and its identifier.
#[derive(Clone, Copy)]
pub(crate) struct Response(pub(crate) u16, pub(crate) u8, pub(crate) u32);

impl Response {
    pub(crate) fn marker(self) -> Marker {
        let Response(port, system, id) = self;
        marker(MarkerKind::Response, port, system, id)
    }
}

/// What the readers return for a port.
#[derive(Clone, Copy, Debug, Default, PartialEq)]
pub(crate) struct PortFacts {
    party: Option<Party>,
    partner: Option<Info>,
    group: Option<Group>,
    defaulted: Option<bool>,
    distributes: Option<bool>,
    choice: Option<Choice>,
    mux: Option<MuxState>,
    receive: Option<ReceiveState>,
    state: Option<State>,
    up: Option<bool>,
    due: Option<bool>,
    status: Option<PortStatus>,
    current_while: Option<u16>,
    wait_while: Option<u8>,
    ntt: Option<bool>,
}

/// The distribution algorithm of the tests.
pub(crate) fn modulo(conv: u16, count: usize) -> usize
    ensures { 0 < count → result < count }
{
    if count == 0 {
        0
    } else {
        usize::from(conv) % count
    }
}

pub(crate) fn look<F: Fn(u16, usize) -> usize + Drop>(system: &System<F>, port: u16) -> PortFacts {
    PortFacts {
        party: system.party(port),
        partner: system.partner(port),
        group: system.group(port),
        defaulted: system.defaulted(port),
        distributes: system.distributes(port),
        choice: system.choice(port),
        mux: system.mux_state(port),
        receive: system.receive_state(port),
        state: system.state(port),
        up: system.is_up(port),
        due: system.is_due(port),
        status: system.port_status(port),
        current_while: system.current_while(port),
        wait_while: system.wait_while(port),
        ntt: system.ntt(port),
    }
}

/// The information about a port of a system; this is the last octet of the system's MAC address.
fn end(system: u8, port: u16, key: u16, state: u8) -> Info {
    Info {
        system: SystemId {
            priority: 32768,
            mac: [2, 0, 0, 0, 0, system],
        },
        key: Key(key),
        port: PortId {
            priority: 128,
            number: port,
        },
        state: State::from_bits_retain(state),
    }
}

fn no_partner(state: u8) -> Info {
    Info {
        state: State::from_bits_retain(state),
        ..Info::default()
    }
}

/// A marker or a response that names the system with this number.
fn marker(kind: MarkerKind, port: u16, system: u8, id: u32) -> Marker {
    Marker {
        kind,
        port,
        system: [2, 0, 0, 0, 0, system],
        id,
    }
}

pub(crate) fn lacpdu(actor: Info, partner: Info) -> [u8; 110] {
    Lacpdu {
        actor,
        partner,
        max_delay: 0,
    }
    .encode()
}

/// The MAC address of the port with this number, and of the system with this number.
pub(crate) fn mac(number: u16) -> [u8; 6] {
    let [_, low] = number.to_be_bytes();
    [2, 0, 0, 0, 0, low]
}

/// What the readers return for port 1 of system 1, with this key, while its link is down and it was never SELECTED.
fn port_without_partner(key: u16) -> PortFacts {
    let party = end(1, 1, key, 0x04).party();
    PortFacts {
        party: Some(party),
        partner: Some(no_partner(0)),
        group: Some(Group::of(&no_partner(0).party(), &party)),
        defaulted: Some(true),
        distributes: Some(false),
        choice: Some(Choice::Unselected),
        mux: Some(MuxState::Detached),
        receive: Some(ReceiveState::PortDisabled),
        state: Some(State::from_bits_retain(0x47)),
        up: Some(false),
        due: Some(false),
        status: Some(PortStatus::LinkDown),
        current_while: Some(0),
        wait_while: Some(0),
        ntt: Some(false),
    }
}

/// This many aggregators of key 1.
fn aggregators(alloc: Global, count: usize) -> Result<Vec<Key>, NoMemory> {
    let mut keys = Vec::with_capacity(alloc, count)?;
    for _ in 0..count {
        keys.push(Key(1))?;
    }
    Ok(keys)
}

/// Ports of key 1 with these numbers, active and with Short Timeout.
fn ports(alloc: Global, numbers: &[u16]) -> Result<Vec<PortConfig>, NoMemory> {
    let mut ports = Vec::with_capacity(alloc, numbers.len())?;
    for number in numbers {
        ports.push(PortConfig {
            number: *number,
            priority: 128,
            mac: mac(*number),
            key: Key(1),
            aggregatable: true,
            active: true,
            short: true,
        })?;
    }
    Ok(ports)
}

/// System 1 with these ports, and this many aggregators of key 1.
pub(crate) fn config(alloc: Global, numbers: &[u16], count: usize) -> Result<Config, NoMemory> {
    Ok(Config {
        system: end(1, 1, 1, 0).system,
        max_delay: 0,
        first_marker: 1,
        conversations: 256,
        aggregators: aggregators(alloc, count)?,
        max_links: None,
        ports: ports(alloc, numbers)?,
    })
}

/// What a system of a case is configured with.
#[derive(Clone, Copy)]
struct Given<'a> {
    ports: &'a [u16],
    aggregators: usize,
    first_marker: u32,
    conversations: u16,
    max_links: Option<u16>,
    active: bool,
    short: bool,
    /// The ports have the priorities of their ranks.
    ranked: bool,
}

const ONE: Given<'static> = Given {
    ports: &[1],
    aggregators: 1,
    first_marker: 1,
    conversations: 256,
    max_links: None,
    active: true,
    short: true,
    ranked: false,
};

const TWO: Given<'static> = Given {
    ports: &[1, 2],
    aggregators: 2,
    ..ONE
};

/// A name, a configuration, and lists of rows.
type Case<'a> = (&'a str, Given<'a>, &'a [&'a [Row<'a>]]);

/// System 1 as it is given.
fn configured(alloc: Global, given: &Given<'_>) -> Result<Config, NoMemory> {
    let mut made = config(alloc, given.ports, given.aggregators)?;
    made.first_marker = given.first_marker;
    made.conversations = given.conversations;
    made.max_links = given.max_links;
    for port in made.ports.iter_mut() {
        port.active = given.active;
        port.short = given.short;
        if given.ranked {
            port.priority = rank(port.number);
        }
    }
    Ok(made)
}

/// Compares the choice, the timers or the status of a port with what a row expects.
fn tells_port<F: Fn(u16, usize) -> usize + Drop>(
    rt: &impl Abort,
    system: &System<F>,
    place: Place<'_>,
    row: Row<'_>,
) {
    match row {
        Row::Shows(port, seen) => same_in_case(rt, place, &look(system, port), &seen),
        Row::Chosen(port, choice) => same_in_case(rt, place, &system.choice(port), &Some(choice)),
        Row::Status(port, status) => {
            same_in_case(rt, place, &system.port_status(port), &Some(status));
        }
        Row::Timers(port, current_while, wait_while, ntt) => {
            same_in_case(rt, place, &system.current_while(port), &Some(current_while));
            same_in_case(rt, place, &system.wait_while(port), &Some(wait_while));
            same_in_case(rt, place, &system.ntt(port), &Some(ntt));
        }
        Row::Mux(port, state) => same_in_case(rt, place, &system.mux_state(port), &Some(state)),
        Row::Defaulted(port, is) => same_in_case(rt, place, &system.defaulted(port), &Some(is)),
        Row::Due(port, is) => same_in_case(rt, place, &system.is_due(port), &Some(is)),
        Row::Held(port, held) => same_in_case(rt, place, &system.held(port), &held),
        Row::Load(port, load) => same_in_case(rt, place, &system.load(port), &load),
        _ => {}
    }
}

/// Compares the state of a conversation with what a row expects.
fn tells_conversation<F: Fn(u16, usize) -> usize + Drop>(
    rt: &impl Abort,
    system: &System<F>,
    place: Place<'_>,
    row: Row<'_>,
) {
    let (agg, conv, state) = match row {
        Row::Conversing(agg, conv, state) => (agg, conv, state),
        Row::Wanted(agg, conv, port, preferred) => {
            (agg, conv, Some(Assignment::Wanted { port, preferred }))
        }
        Row::Free(agg, conv, preferred) => (agg, conv, Some(Assignment::Free { preferred })),
        _ => return,
    };
    let found = system.conversation_state(AggId(agg), conv);
    same_in_case(rt, place, &found, &state);
}

/// Compares what the readers of a system return with what a row expects.
fn tells<F: Fn(u16, usize) -> usize + Drop>(
    rt: &impl Abort,
    system: &System<F>,
    place: Place<'_>,
    row: Row<'_>,
) {
    match row {
        Row::Distributing(agg, ports) => {
            let came = system.distributing(AggId(agg));
            same_in_case(rt, place, &came.as_slice(), &ports);
        }
        Row::Conversation(octets, conv) => {
            same_in_case(rt, place, &system.conversation(octets), &conv);
        }
        Row::Conversing(..) | Row::Wanted(..) | Row::Free(..) => {
            tells_conversation(rt, system, place, row);
        }
        Row::Next(id) => same_in_case(rt, place, &system.next_marker(), &id),
        Row::Waits(ticks) => same_in_case(rt, place, &system.ticks_until_due(), &ticks),
        Row::Has(ports, aggregators) => {
            same_in_case(rt, place, &system.ports().as_slice(), &ports);
            same_in_case(rt, place, &system.aggregators(), &aggregators);
        }
        _ => tells_port(rt, system, place, row),
    }
}

/// Makes a setting, where a row says so.
fn sets<F: Fn(u16, usize) -> usize + Drop>(
    rt: &impl Abort,
    system: &mut System<F>,
    place: Place<'_>,
    row: Row<'_>,
)
    ensures { system.new.algorithm ≡ system.old.algorithm }
{
    match row {
        Row::Holds(port, held, answer) => {
            let came = system.hold_port(port, held);
            same_in_case(rt, place, &came, &answer);
            same_in_case(rt, place, &system.is_held(port).is_some(), &answer.is_ok());
            same_in_case(rt, place, &system.is_held(port).unwrap_or(held), &held);
        }
        Row::Mode(port, active, short, answer) => {
            same_in_case(rt, place, &system.set_mode(port, active, short), &answer);
        }
        Row::Limit(max_links, answer) => {
            same_in_case(rt, place, &system.set_max_links(max_links), &answer);
        }
        Row::Uses(agg, in_use, answer) => {
            let came = system.set_in_use(AggId(agg), in_use);
            same_in_case(rt, place, &came, &answer);
            let told = system.is_in_use(AggId(agg));
            same_in_case(rt, place, &told.is_some(), &answer.is_ok());
            same_in_case(rt, place, &told.unwrap_or(in_use), &in_use);
        }
        Row::Delay(max_delay) => system.set_max_delay(max_delay),
        _ => {}
    }
}

/// The port for which the readers are expected to return what they returned before; 0, which no port has, if there is
/// none.
fn kept_port(row: Row<'_>) -> u16 {
    match row {
        Row::Keeps(port, _, _) => port,
        _ => 0,
    }
}

/// Makes the calls of a row, and compares the replies with the expected ones.
fn calls<F: Fn(u16, usize) -> usize + Drop>(
    rt: &impl Abort,
    alloc: Global,
    system: &mut System<F>,
    place: Place<'_>,
    row: Row<'_>,
) -> Result<(), SystemFault>
    requires usable { PicksIndexes (F.pre system.old.algorithm) (F.post system.old.algorithm) }
    ensures { system.new.algorithm ≡ system.old.algorithm }
{
    match host_call_of(row) {
        Some((call, reply)) => {
            same_in_case(rt, place, &system.host_call(&call), &reply);
            Ok(())
        }
        None => {
            let plan = plan_of(alloc, row)?;
            let replies = system.drive(alloc, &plan.calls)?;
            same_in_case(rt, place, &replies.as_slice(), &plan.replies.as_slice());
            Ok(())
        }
    }
}

/// Makes a call of a data plane, or else those of a system.
fn carries<F: Fn(u16, usize) -> usize + Drop>(
    rt: &impl Abort,
    alloc: Global,
    system: &mut System<F>,
    place: Place<'_>,
    row: Row<'_>,
) -> Result<(), SystemFault>
    requires usable { PicksIndexes (F.pre system.old.algorithm) (F.post system.old.algorithm) }
    ensures { system.new.algorithm ≡ system.old.algorithm }
{
    match row {
        Row::OffersInActiveAggregator(agg, conv, answer) => {
            let came = offer_conversation_in_active_aggregator(system, AggId(agg), conv);
            same_in_case(rt, place, &came, &answer);
            Ok(())
        }
        Row::Adopts(agg, conv, port, answer) => {
            let came = adopt(system, AggId(agg), conv, port);
            same_in_case(rt, place, &came, &answer);
            Ok(())
        }
        _ => calls(rt, alloc, system, place, row),
    }
}

/// Plays a row on a system.
fn step<F: Fn(u16, usize) -> usize + Drop>(
    rt: &impl Abort,
    alloc: Global,
    system: &mut System<F>,
    place: Place<'_>,
    row: Row<'_>,
) -> Result<(), SystemFault>
    requires usable { PicksIndexes (F.pre system.old.algorithm) (F.post system.old.algorithm) }
    ensures { system.new.algorithm ≡ system.old.algorithm }
{
    let before = look(system, kept_port(row));
    carries(rt, alloc, system, place, row)?;
    sets(rt, system, place, row);
    same_in_case(rt, place, &look(system, kept_port(row)), &before);
    tells(rt, system, place, row);
    Ok(())
}

/// Plays the rows of a case on a system, one after another.
pub(crate) fn play<F: Fn(u16, usize) -> usize + Drop>(
    rt: &impl Abort,
    alloc: Global,
    system: &mut System<F>,
    case: &str,
    rows: &[Row<'_>],
) -> Result<(), SystemFault>
    requires usable { PicksIndexes (F.pre system.old.algorithm) (F.post system.old.algorithm) }
    ensures { system.new.algorithm ≡ system.old.algorithm }
{
    for (place, row) in rows.iter().enumerate() {
        step(rt, alloc, system, (case, place), *row)?;
    }
    Ok(())
}

/// Plays the rows of a case on a new system.
pub(crate) fn plays(
    rt: &impl Abort,
    alloc: Global,
    given: Config,
    case: &str,
    rows: &[Row<'_>],
) -> Result<(), SystemFault> {
    let mut system = System::new(alloc, given, modulo)?;
    play(rt, alloc, &mut system, case, rows)
}

/// Plays the lists of each case on a new system, one after another.
fn plays_cases(rt: &impl Abort, alloc: Global, cases: &[Case<'_>]) -> Result<(), SystemFault> {
    for (case, given, lists) in cases {
        let rows = joined(alloc, *lists)?;
        plays(rt, alloc, configured(alloc, given)?, *case, &rows)?;
    }
    Ok(())
}

/// Lists of rows, one after another.
fn joined<'a>(alloc: Global, lists: &[&[Row<'a>]]) -> Result<Vec<Row<'a>>, NoMemory> {
    let mut all = Vec::new(alloc);
    for rows in lists {
        all.extend_from_slice(rows)?;
    }
    Ok(all)
}
