ghost use Rattle.std.specs.Prelude.{◌≡◌, IfErr, IfOk, IsTrue, MatchOption, None, is_some, map};
ghost use Rattle.lagsystem.specs.declared.fault.SystemFault.{SystemFault};
ghost use Rattle.lagffi.specs.Holding.{held_value};
ghost use Rattle.lagffi.specs.Numbers.{no_system};
ghost use Rattle.lagffi.specs.Made.{IsConfigOf, IsMadeOfLagConfig, holds_system_already, lag_key, made_refused, made_with_status, lag_port_config};
ghost use Rattle.lagffi.specs.Algorithms.{is_algorithm};
ghost use Rattle.dataplane.specs.Notes.{nobody_asked};
ghost use Rattle.lagffi.specs.Made.{lag_limit, no_algorithm, refusal_of, why_refused};

use crate::handle::{Block, Lag};
use crate::refusal::refusal;
use crate::stored::{Stored, by_number};
use crate::values::{NO_SYSTEM, OK};
use lagsystem::{BadConfig, Config, Key, NoMemory, PortConfig, System, SystemFault, SystemId};
use std::alloc::Global;

/// The last of the distribution algorithms, which are numbered from 0.
pub(crate) const LAST_ALGORITHM: u16 = 2;
/// The configuration is refused, for a reason.
const BAD_CONFIGURATION: u32 = 11;
/// The reason: a port number is 0 or not above the one before it.
const BAD_PORT_NUMBER: u32 = 3;
/// The reason: there is no algorithm of this number.
const BAD_ALGORITHM: u32 = 6;
/// The handle holds a system already.
pub(crate) const HOLDS_SYSTEM_ALREADY: u32 = 14;

/// What a program in C gives of a configuration, beside its keys and ports.
#[repr(C)]
#[derive(Clone, Copy)]
pub struct LagConfig {
    /// The system priority.
    pub priority: u16,
    /// The MAC address of the system.
    pub mac: [u8; 6],
    /// CollectorMaxDelay in tens of microseconds.
    pub max_delay: u16,
    /// The identifier of the first marker.
    pub first_marker: u32,
    /// How many conversations each aggregator has, 256 or 4096.
    pub conversations: u16,
    /// How many links each aggregator may have as its members, 1 to 64; 0: any number.
    pub max_links: u16,
    /// How conversations pick their ports: 0 by number, 1 by sum, 2 the first port.
    pub algorithm: u16,
}

/// One port of a configuration.
#[repr(C)]
#[derive(Clone, Copy)]
pub struct LagPort {
    /// The port number, 1 to 65535.
    pub number: u16,
    /// The port priority.
    pub priority: u16,
    /// The MAC address of the port.
    pub mac: [u8; 6],
    /// The key of the port.
    pub key: u16,
    /// Aggregation: false for a port whose link is individual.
    pub aggregatable: bool,
    /// LACP_Activity: false for a passive port.
    pub active: bool,
    /// LACP_Timeout: whether the port asks for short timeouts.
    pub short_timeout: bool,
}

impl LagPort {
    /// The port as the system takes it.
    fn config(&self) -> PortConfig
        ensures { result ≡ lag_port_config self.now }
    {
        PortConfig {
            number: self.number,
            priority: self.priority,
            mac: self.mac,
            key: Key(self.key),
            aggregatable: self.aggregatable,
            active: self.active,
            short: self.short_timeout,
        }
    }
}

/// What `lagffi_new` answers.
#[repr(C)]
#[derive(Clone, Copy)]
pub struct LagMade {
    /// 0, or the number of the refusal.
    pub status: u32,
    /// Of a configuration that is refused, the number of the reason, 1 to 6; else 0.
    pub reason: u32,
    /// Of a port number that is refused, its place from 1; of a warm start that is refused, the number of the port; else 0.
    pub place: usize,
}

impl LagMade {
    /// A status alone, without a reason.
    pub(crate) fn with_status(status: u32) -> LagMade
        ensures { result ≡ made_with_status status }
    {
        LagMade {
            status,
            reason: 0,
            place: 0,
        }
    }

    /// Refused, since there is no algorithm of this number.
    pub(crate) fn no_algorithm() -> LagMade
        ensures { result ≡ no_algorithm }
    {
        LagMade {
            status: BAD_CONFIGURATION,
            reason: BAD_ALGORITHM,
            place: 0,
        }
    }

    /// Refused, with the reason if the configuration is refused.
    pub(crate) fn refused(fault: &SystemFault) -> LagMade
        ensures { result ≡ made_refused fault.now }
    {
        let status = u32::from(fault.number());
        match fault {
            SystemFault::BadConfig(BadConfig::PortNumber(place)) => LagMade {
                status,
                reason: BAD_PORT_NUMBER,
                place: *place,
            },
            SystemFault::BadConfig(reason) => LagMade {
                status,
                reason: u32::from(reason.number()),
                place: 0,
            },
            _ => LagMade::with_status(status),
        }
    }
}

/// The keys of the aggregators, as the system takes them.
fn keys_of(alloc: Global, keys: &[u16]) -> Result<Vec<Key>, NoMemory>
    ensures { IfOk result (λ found. found.items ≡ map lag_key keys.now) }
{
    let mut found = Vec::with_capacity(alloc, keys.len())?;
    for key in keys {
        found.push_reserved(Key(*key));
    }
    Ok(found)
}

/// The ports of the configuration, as the system takes them.
fn ports_of(alloc: Global, ports: &[LagPort]) -> Result<Vec<PortConfig>, NoMemory>
    ensures { IfOk result (λ found. found.items ≡ map lag_port_config ports.now) }
{
    let mut found = Vec::with_capacity(alloc, ports.len())?;
    for port in ports {
        found.push_reserved(port.config());
    }
    Ok(found)
}

/// A limit of links as the system takes it: 0 is no limit.
pub(crate) fn limit(max_links: u16) -> Option<u16>
    ensures { result ≡ lag_limit max_links }
{
    if max_links == 0 {
        return None;
    }
    Some(max_links)
}

/// The configuration, as the system takes it.
pub(crate) fn config_of(
    alloc: Global,
    config: &LagConfig,
    keys: &[u16],
    ports: &[LagPort],
) -> Result<Config, NoMemory>
    ensures { IfOk result (IsConfigOf config.now keys.now ports.now) }
{
    Ok(Config {
        system: SystemId {
            priority: config.priority,
            mac: config.mac,
        },
        max_delay: config.max_delay,
        first_marker: config.first_marker,
        conversations: config.conversations,
        aggregators: keys_of(alloc, keys)?,
        max_links: limit(config.max_links),
        ports: ports_of(alloc, ports)?,
    })
}

/// Makes the system of this configuration, which is accepted, with no algorithm; refused if memory is.
fn system_of(
    alloc: Global,
    config: &LagConfig,
    keys: &[u16],
    ports: &[LagPort],
) -> Result<System<()>, SystemFault>
    requires accepted { refusal_of config.now keys.now ports.now ≡ None }
    ensures made { IfOk result (λ system. IsMadeOfLagConfig config.now keys.now ports.now system.state) }
    ensures refused { IfErr result (λ fault. fault ≡ SystemFault.NoMemory) }
{
    let config = config_of(alloc, config, keys, ports)?;
    let system = System::new(alloc, config, by_number)?;
    Ok(system.with_algorithm(()))
}

// promise: `lagffi_new` puts a configured system in its first state into an empty handle; a limit of 0 is none. Else the handle stays as it
//    was, with the first reason (an algorithm that is not 0 to 2 is the last), refused memory, or 14 if it holds one
// contract: `lagffi_new` (`made`: `IsMadeOfLagConfig`, `why_refused`; `accepted`, `shows`, `live`)
// promise: an empty handle is refused with 13, less room with 15 first
// contract: each export but `lagffi_new`
/// Makes a system with all links down and puts it into an empty handle. The keys are those of aggregators 1, 2 and on; the
/// port numbers rise.
/// Refuses: NIW_HAS_SYSTEM, NIW_BAD_CONFIG, NIW_NO_MEMORY.
#[unsafe(no_mangle)]
pub extern "C" fn lagffi_new(
    alloc: Global,
    lag: &mut Lag,
    config: &LagConfig,
    keys: &[u16],
    ports: &[LagPort],
) -> LagMade
    ensures live { IsTrue (is_some (held_value lag.old.held.kept)) → (result ≡ made_with_status holds_system_already)
        × (held_value lag.new.held.kept ≡ held_value lag.old.held.kept) }
    ensures made { held_value lag.old.held.kept ≡ None → MatchOption (held_value lag.new.held.kept)
        (result ≡ why_refused config.now keys.now ports.now)
        (λ h. IsMadeOfLagConfig config.now keys.now ports.now h.state × IsTrue (is_algorithm config.now.algorithm)
        × (h.algorithm ≡ config.now.algorithm) × (h.answering ≡ nobody_asked) × (result ≡ made_with_status 0)) }
{
    if let Some((system, block)) = lag.take(alloc, ()) {
        lag.put(system, block);
        return LagMade::with_status(HOLDS_SYSTEM_ALREADY);
    }
    if let Some(reason) = refusal(config, keys, ports) {
        return LagMade::refused(&SystemFault::BadConfig(reason));
    }
    if config.algorithm > LAST_ALGORITHM {
        return LagMade::no_algorithm();
    }
    let Ok(room) = Block::new(alloc, Stored::under(config.algorithm)) else {
        return LagMade::refused(&SystemFault::NoMemory);
    };
    match system_of(alloc, config, keys, ports) {
        Ok(system) => {
            lag.put(system, room);
            LagMade::with_status(OK)
        }
        Err(fault) => {
            drop(room.free());
            LagMade::refused(&fault)
        }
    }
}

// promise: after `lagffi_free` the handle is empty; 0 if it held a system
// contract: `lagffi_free` (`left`, `status`)
/// Frees the system of a handle, which is empty then.
/// Refuses: NIW_NO_SYSTEM.
#[unsafe(no_mangle)]
pub extern "C" fn lagffi_free(alloc: Global, lag: &mut Lag) -> u32
    ensures left { held_value lag.new.held.kept ≡ None }
    ensures status { MatchOption (held_value lag.old.held.kept) (result ≡ no_system) (λ s. result ≡ 0) }
{
    match lag.take(alloc, ()) {
        Some((_, block)) => {
            drop(block.free());
            OK
        }
        None => NO_SYSTEM,
    }
}
