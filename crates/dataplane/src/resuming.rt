//! A warm start: the control plane of a host starts again while its data plane goes on. Of each port the last LACPDU was saved; the new
//! system takes these as if they came now, and sends nothing before its ports distribute. So its peers notice nothing.
//! The standard knows no such start; all of this is profile.

ghost use Rattle.std.specs.Prelude.{◌≡◌, ◌≤◌, ◌↔◌, IfErr, length, IfOk, IfSome, IsTrue, MatchOption, Some, drop, false};
ghost use Rattle.std.specs.List.{AllByRecursion};
ghost use Rattle.distributor.specs.Calls.{PicksIndexes};
ghost use Rattle.slowpdu.specs.Pdus.{ReadsPdu};
ghost use Rattle.dataplane.specs.declared.resuming.ResumeFault.{ResumeFault};
ghost use Rattle.lagsystem.specs.ModelView.{configured_party};
ghost use Rattle.lagsystem.specs.State.{machines_of};
ghost use Rattle.dataplane.specs.Warming.{warm_calls};
ghost use Rattle.dataplane.specs.Resuming.{IsBack, IsFirstWithout, IsNotWarmed, IsResumed, IsWarmed, MayRefuse, first_touched, has_rest, is_as_saved};
ghost use Rattle.dataplane.specs.Resuming.{is_at_start, is_in, is_in_service, is_left_at, is_left_with, is_stale};
ghost use Rattle.lagtypes.specs.Choices.{is_unselected};
ghost use Rattle.lagtypes.specs.States.{bits_of};
ghost use Rattle.dataplane.specs.Resuming.{know_each_other, same_modes, timeout};

use crate::warming::{is_saved, warm_up};
use lagsystem::{Choice, Config, Key, MuxState, PortConfig, ReceiveState, System, SystemFault};
use lagtypes::{Party, PortId, State, StateBits, SystemId};
use portmachines::Port;
use slowpdu::{Lacpdu, Pdu, decode};
use std::alloc::Global;

/// The octets of a frame before its payload.
const HEADER_LENGTH: usize = 14;
/// What a host saves of a port that distributes, so that its next start is a warm one (profile).
#[repr(C)]
#[derive(Clone, Copy, Debug, PartialEq, Eq)]
pub struct SavedPort {
    /// The port number.
    pub port: u16,
    /// The number of the aggregator that the port was in, from 1; 0: the port may come into any.
    pub aggregator: u16,
    /// How many ticks ago the LACPDU came, of 100 ms.
    pub age: u32,
    /// The frame of the last LACPDU that came on the port: its first 124 octets.
    pub frame: [u8; 124],
}

/// Why there is no warm start, in the order of checking (profile).
#[derive(Clone, Copy, Debug, PartialEq, Eq)]
pub enum ResumeFault {
    /// The LACPDU of this port is as old as the port's timeout, 3 s or 90 s, or older.
    Stale(u16),
    /// `System::new` refuses.
    New(SystemFault),
    /// This port does not come to distribute in its aggregator with the Actor of its LACPDU, or that knows it by other parameters, Activity
    /// or Timeout; or it was not saved, and is not as its start leaves it.
    NotDistributing(u16),
}

impl From<SystemFault> for ResumeFault {
    ghost from_gives = { λ refused fault. fault ≡ ResumeFault.New refused };

    fn from(refused: SystemFault) -> ResumeFault {
        ResumeFault::New(refused)
    }
}

/// current_while after an LACPDU in ticks: Short Timeout or Long Timeout (6.4.4).
fn timeout(short: bool) -> u32
    ensures { result ≡ timeout short }
{
    if short { 30 } else { 900 }
}

/// Whether this is one of the ports, and its LACPDU is as old as the port's timeout or older.
fn is_stale(ports: &[PortConfig], saved: &SavedPort) -> bool
    ensures { result ≡ is_stale ports.now saved.now }
{
    ports.iter().any(|config| config.number == saved.port && timeout(config.short) <= saved.age)
}

/// The first port whose LACPDU is stale.
fn first_stale(ports: &[PortConfig], saved: &[SavedPort]) -> Option<u16>
    ensures { MatchOption result (AllByRecursion (λ x. is_stale ports.now x ≡ false) saved.now)
        (λ port. IsFirstWithout (λ x. is_stale ports.now x ≡ false) saved.now port) }
{
    for one in saved {
        if is_stale(ports, one) {
            return Some(one.port);
        }
    }
    None
}

/// The LACPDU of a payload; None if it has none.
fn lacpdu_in(payload: &[u8]) -> Option<Lacpdu>
    ensures found { IfSome result (λ heard. ReadsPdu payload.now (Pdu.Lacpdu heard)) }
    ensures only { (heard : Lacpdu) → ReadsPdu payload.now (Pdu.Lacpdu heard) → result ≡ Some heard }
{
    match decode(payload) {
        Ok(Pdu::Lacpdu(heard)) => Some(heard),
        Ok(Pdu::Marker(_)) => None,
        Err(_) => None,
    }
}

/// The saved LACPDU; None if the frame carries none.
fn lacpdu_of(saved: &SavedPort) -> Option<Lacpdu>
    ensures found { IfSome result (λ heard. ReadsPdu (drop 14 saved.now.frame) (Pdu.Lacpdu heard)) }
    ensures only { (heard : Lacpdu) → ReadsPdu (drop 14 saved.now.frame) (Pdu.Lacpdu heard) → result ≡ Some heard }
{
    let frame = saved.frame;
    let (_header, payload) = frame.split_at(HEADER_LENGTH);
    lacpdu_in(payload)
}

/// Whether a state tells that its port carries: Synchronization, Collecting and Distributing, neither Defaulted nor Expired.
fn is_in_service(bits: StateBits) -> bool
    ensures { result ≡ is_in_service bits }
{
    if bits.defaulted || bits.expired {
        return false;
    }
    bits.synchronization && bits.collecting && bits.distributing
}

/// Whether both have one Activity and one Timeout.
fn same_modes(one: State, other: State) -> bool
    ensures { result ≡ same_modes (bits_of one) (bits_of other) }
{
    one.is_active() == other.is_active() && one.is_short() == other.is_short()
}

/// Whether the port distributes, and it and the peer that sent this LACPDU know each other.
fn know_each_other(port: &Port, heard: &Lacpdu) -> bool
    ensures { result ≡ know_each_other port.now heard.now }
{
    let partner = port.partner();
    if !port.distributes() || !is_in_service(port.state().named()) {
        return false;
    }
    if !heard.partner.party().matches(&port.party()) {
        return false;
    }
    if !same_modes(heard.partner.state, port.state()) {
        return false;
    }
    partner.party().matches(&heard.actor.party()) && partner.state == heard.actor.state
}

/// Whether the port is in the aggregator that it was saved in.
fn is_in(port: &Port, aggregator: u16) -> bool
    ensures { result ≡ is_in aggregator port.now }
{
    if aggregator == 0 {
        return true;
    }
    match port.choice() {
        Choice::Selected(given) => given.0 == aggregator,
        Choice::Unselected | Choice::Standby(_) => false,
    }
}

/// Whether the port has what is left of its timeout, so long after the LACPDU came.
fn has_rest(port: &Port, age: u32) -> bool
    ensures { result ≡ has_rest age port.now }
{
    u64::from(port.current_while()) + u64::from(age) == u64::from(timeout(port.is_short()))
}

/// Whether the port is as it was saved with this LACPDU.
fn is_as_saved(saved: &SavedPort, heard: &Lacpdu, port: &Port) -> bool
    ensures { result ≡ is_as_saved saved.now heard.now port.now }
{
    know_each_other(port, heard) && is_in(port, saved.aggregator) && has_rest(port, saved.age)
}

/// Whether the port is back.
fn is_back<F: Fn(u16, usize) -> usize + Drop>(system: &System<F>, saved: &SavedPort) -> bool
    ensures { IsTrue result ↔ IsBack system.now.state saved.now }
{
    match (system.machines(saved.port), lacpdu_of(saved)) {
        (Some(port), Some(heard)) => is_as_saved(saved, &heard, port),
        _ => false,
    }
}

/// The first port that is not back.
fn first_not_back<F: Fn(u16, usize) -> usize + Drop>(
    system: &System<F>,
    saved: &[SavedPort],
) -> Option<u16>
    ensures { MatchOption result (AllByRecursion (IsBack system.now.state) saved.now)
        (λ port. IsFirstWithout (IsBack system.now.state) saved.now port) }
{
    for one in saved {
        if !is_back(system, one) {
            return Some(one.port);
        }
    }
    None
}

/// Whether a port has no aggregator.
fn is_unselected(port: &Port) -> bool
    ensures { result ≡ is_unselected port.now.choice }
{
    match port.choice() {
        Choice::Unselected => true,
        Choice::Selected(_) | Choice::Standby(_) => false,
    }
}

/// Whether a port is as its start leaves it: its link is down, it knows no partner, and has no aggregator and nothing to send.
fn is_at_start(port: &Port) -> bool
    ensures { result ≡ is_at_start port.now }
{
    if port.is_enabled() || port.receive_state() != ReceiveState::PortDisabled {
        return false;
    }
    if !port.is_defaulted() || port.mux_state() != MuxState::Detached || !is_unselected(port) {
        return false;
    }
    port.current_while() == 0 && port.wait_while() == 0 && !port.ntt()
}

/// The parameters of a port of a system, as it was configured.
fn configured_party(system: SystemId, config: &PortConfig) -> Party
    ensures { result ≡ configured_party system config.now }
{
    Party {
        system,
        key: config.key,
        port: PortId {
            priority: config.priority,
            number: config.number,
        },
        aggregatable: config.aggregatable,
    }
}

/// Whether a port has the parameters that it was given, and was saved, or is as its start leaves it.
fn is_left(port: &Port, is_saved: bool, own: &Party) -> bool
    ensures { result ≡ is_left_with is_saved own.now port.now }
{
    port.party().matches(own) && (is_saved || is_at_start(port))
}

/// So is a configured port.
fn is_left_at<F: Fn(u16, usize) -> usize + Drop>(
    system: &System<F>,
    identifier: SystemId,
    saved: &[SavedPort],
    config: &PortConfig,
) -> bool
    ensures { result ≡ is_left_at saved.now identifier config.now (machines_of config.now.number system.now.state) }
{
    match system.machines(config.number) {
        Some(port) => {
            let own = configured_party(identifier, config);
            is_left(port, is_saved(saved, config.number), &own)
        }
        None => false,
    }
}

/// The first configured port that is not so.
fn first_touched<F: Fn(u16, usize) -> usize + Drop>(
    system: &System<F>,
    identifier: SystemId,
    saved: &[SavedPort],
    ports: &[PortConfig],
) -> Option<u16>
    ensures { result ≡ first_touched system.now.state identifier saved.now ports.now }
{
    for config in ports {
        if !is_left_at(system, identifier, saved, config) {
            return Some(config.number);
        }
    }
    None
}

/// Plays the calls of a warm start on a system that has just been made, and looks at each port.
fn warmed<F: Fn(u16, usize) -> usize + Drop>(
    mut system: System<F>,
    identifier: SystemId,
    saved: &[SavedPort],
    keys: &[Key],
    ports: &[PortConfig],
) -> Result<System<F>, ResumeFault>
    requires few { length keys.now ≤ 64 }
    ensures warmed { IfOk result (λ s. IsWarmed (F.post system.algorithm) system.state (warm_calls keys.now ports.now saved.now) identifier
        ports.now saved.now s.state) }
    ensures algorithm { IfOk result (λ s. s.algorithm ≡ system.algorithm) }
    ensures refused { IfErr result (IsNotWarmed (F.post system.algorithm) system.state (warm_calls keys.now ports.now saved.now) identifier
        ports.now saved.now) }
{
    warm_up(&mut system, saved, keys, ports);
    if let Some(port) = first_not_back(&system, saved) {
        return Err(ResumeFault::NotDistributing(port));
    }
    if let Some(port) = first_touched(&system, identifier, saved, ports) {
        return Err(ResumeFault::NotDistributing(port));
    }
    Ok(system)
}

// promise: **a warm start**: the state is one that listed calls lead to from the first, none of which sends; each saved port is back, in its
//    aggregator and with what is left of its timeout, every other one is as its start leaves it, and no conversation is assigned. Else: the
//    first port that is stale or not so, or the reason of `new`
// contract: `resume` (`resumed`: `IsResumed`; `refused`: `MayRefuse`)
/// Makes a system that looks to its peers as the one before it did. `config` has the next marker of that one, or a higher one, as its
/// first marker. The links of the saved ports are up; these ports distribute, each in its aggregator, and each and its peer know each other:
/// the peer has its parameters, Activity and Timeout, and it has the peer's. Each has what is left of its timeout, and every conversation is
/// free. Nothing is to be sent before. Refused in this order: `Stale`; `New`; `NotDistributing` (6.4; profile).
pub fn resume<F: Fn(u16, usize) -> usize + Drop>(
    alloc: Global,
    config: Config,
    algorithm: F,
    saved: &[SavedPort],
) -> Result<System<F>, ResumeFault>
    requires usable { PicksIndexes (F.pre algorithm) (F.post algorithm) }
    ensures resumed { IfOk result (λ system. IsResumed (F.post algorithm) config saved.now system.state) }
    ensures algorithm { IfOk result (λ system. system.algorithm ≡ algorithm) }
    ensures refused { IfErr result (MayRefuse (F.post algorithm) config saved.now) }
{
    if let Some(port) = first_stale(&config.ports, saved) {
        return Err(ResumeFault::Stale(port));
    }
    if let Some(reason) = config.refusal() {
        return Err(ResumeFault::New(SystemFault::BadConfig(reason)));
    }
    let Ok(keys) = Vec::from_slice(alloc, &config.aggregators) else {
        return Err(ResumeFault::New(SystemFault::NoMemory));
    };
    let Ok(ports) = Vec::from_slice(alloc, &config.ports) else {
        return Err(ResumeFault::New(SystemFault::NoMemory));
    };
    let identifier = config.system;
    let system = System::new(alloc, config, algorithm)?;
    warmed(system, identifier, saved, &keys, &ports)
}
