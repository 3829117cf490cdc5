ghost use Rattle.std.specs.Prelude.{◌≡◌, ◌≤◌, length, vec_len, IfOk};
ghost use Rattle.std.specs.List.{AllZip};
ghost use Rattle.lagsystem.specs.First.{HasJustStarted, first_bad_port_number, configured_numbers, refusal, config_refusal};
ghost use Rattle.lagsystem.specs.First.{is_limit};

use crate::config::{Config, PortConfig};
use crate::fault::BadConfig;
use crate::system_ports::SystemPort;
use lagtypes::{Key, NoMemory, SystemId};
use std::alloc::Global;

/// The ports of a new system, with their machines started.
pub(crate) fn new_system_ports(
    alloc: Global,
    system: SystemId,
    ports: &[PortConfig],
) -> Result<Vec<SystemPort>, NoMemory>
    ensures new { IfOk result (λ system_ports. AllZip (HasJustStarted system) ports.now system_ports.items) }
    ensures count { IfOk result (λ system_ports. vec_len system_ports ≡ length ports.now) }
{
    let mut system_ports = Vec::with_capacity(alloc, ports.len())?;
    for port in ports {
        system_ports.push(SystemPort::new(system, port))?;
    }
    Ok(system_ports)
}

/// Starts every port again from its configuration, in the same `Vec`, so without taking memory. Values that `configure`
/// set are lost.
pub(crate) fn restart_each(system: SystemId, ports: &[PortConfig], system_ports: &mut [SystemPort])
    requires { length system_ports.old ≡ length ports.now }
    ensures { AllZip (HasJustStarted system) ports.now system_ports.new }
{
    for place in 0..ports.len() {
        let config = ports[place];
        let system_port = &mut system_ports[place];
        system_port.restart(system, &config);
    }
}

/// The place, counted from 1, of the first port whose number is not above the one before it, or is 0.
fn first_bad_port_number(ports: &[PortConfig]) -> Option<usize>
    ensures { result ≡ first_bad_port_number 1 0 (configured_numbers ports.now) }
{
    let mut place = 0;
    let mut low = 0;
    for port in ports {
        place += 1;
        if port.number <= low {
            return Some(place);
        }
        low = port.number;
    }
    None
}

/// Whether this is a limit of links: 1 to 64, or none.
pub(crate) fn is_limit(max_links: Option<u16>) -> bool
    ensures { result ≡ is_limit max_links }
{
    match max_links {
        Some(most) => most >= 1 && most <= 64,
        None => true,
    }
}

/// The first reason to refuse a configuration; None if it is accepted.
fn refusal(
    keys: &[Key],
    ports: &[PortConfig],
    max_links: Option<u16>,
    conversations: u16,
) -> Option<BadConfig>
    ensures { result ≡ refusal keys.now ports.now max_links conversations }
{
    if ports.is_empty() || ports.len() > 64 {
        return Some(BadConfig::Ports);
    }
    if keys.is_empty() || keys.len() > 64 {
        return Some(BadConfig::Aggregators);
    }
    if let Some(place) = first_bad_port_number(ports) {
        return Some(BadConfig::PortNumber(place));
    }
    if !is_limit(max_links) {
        return Some(BadConfig::MaxLinks);
    }
    if conversations != 1 && conversations != 256 && conversations != 4096 {
        return Some(BadConfig::Conversations);
    }
    None
}

impl Config {
    /// The first reason for which `System::new` refuses this configuration: not 1 to 64 ports, not 1 to 64 aggregators,
    /// a port whose number is 0 or not above the one before it, a limit of links that is not 1 to 64, or not
    /// 1, 256 or 4096 conversations. None if it is accepted (profile).
    pub fn refusal(&self) -> Option<BadConfig>
        ensures { result ≡ config_refusal self.now }
    {
        refusal(
            &self.aggregators,
            &self.ports,
            self.max_links,
            self.conversations,
        )
    }
}

/// The number of aggregators, 1 to 64, of a configuration that is accepted.
pub(crate) fn aggregator_count(keys: &[Key]) -> u16
    requires { length keys.now ≤ 64 }
    ensures { result ≡ length keys.now }
{
    keys.len() as u16
}
