ghost use Rattle.std.specs.Prelude.{◌≡◌, ◌<◌, length};
ghost use Rattle.lagscript.specs.Configs.{bad_end, has_bad_end, has_port, refusal_of_either, world_refusal, shares_end};
ghost use Rattle.lagsystem.specs.First.{config_value};

use lagsystem::{BadConfig, Config, PortConfig};

/// The configuration of two systems and their cables (profile).
#[derive(Debug, Drop)]
pub struct WorldConfig {
    /// System 1 and system 2.
    pub systems: [Config; 2],
    /// The cables, numbered from 1: each joins this port of system 1 and this port of system 2.
    pub cables: Vec<(u16, u16)>,
}

/// Why two systems and their cables are refused, in the order of checking (profile).
#[derive(Clone, Copy, Debug, PartialEq, Eq)]
pub enum BadWorld {
    /// The configuration of a system is refused: first that of system 1, then that of system 2.
    System {
        /// The system, 1 or 2.
        side: u8,
        /// Why its configuration is refused.
        reason: BadConfig,
    },
    /// Both systems have the same identifier.
    SameSystem,
    /// The cable at this place, counted from 1, has an end that is no port of its system, or that has a cable already.
    CableEnd(usize),
    /// There are not as many lines as cables, or a line is not empty. A line is the two directions of a cable. Only
    /// `World::new` gives this reason.
    Lines,
}

/// Whether one of these ports has this number.
fn has_port(ports: &[PortConfig], number: u16) -> bool
    ensures { result ≡ has_port ports.now number }
{
    ports.iter().any(|port| port.number == number)
}

/// Whether one of these cables ends at a port at which this cable ends.
fn shares_end(cables: &[(u16, u16)], cable: (u16, u16)) -> bool
    ensures { result ≡ shares_end cables.now cable }
{
    cables.iter().any(|c| c.0 == cable.0 || c.1 == cable.1)
}

/// Whether the cable at this index has an end that is no port of its system, or that an earlier cable has.
fn has_bad_end(
    first: &[PortConfig],
    second: &[PortConfig],
    cables: &[(u16, u16)],
    index: usize,
) -> bool
    requires { index < length cables.now }
    ensures { result ≡ has_bad_end first.now second.now cables.now index }
{
    let cable = cables[index];
    let are_ports = has_port(first, cable.0) && has_port(second, cable.1);
    !are_ports || shares_end(&cables[..index], cable)
}

/// The place, counted from 1, of the first cable with a bad end.
fn bad_end(first: &[PortConfig], second: &[PortConfig], cables: &[(u16, u16)]) -> Option<usize>
    ensures { result ≡ bad_end first.now second.now cables.now }
{
    for index in 0..cables.len() {
        if has_bad_end(first, second, cables, index) {
            return Some(index + 1);
        }
    }
    None
}

/// The first reason to refuse the configuration of a system of two: that of `Config::refusal`, or one conversation in each
/// aggregator, where something else would pick the ports of frames.
fn refusal_of_either(config: &Config) -> Option<BadConfig>
    ensures { result ≡ refusal_of_either (config_value config.now) }
{
    match config.refusal() {
        Some(reason) => Some(reason),
        None if config.conversations == 1 => Some(BadConfig::Conversations),
        None => None,
    }
}

impl WorldConfig {
    // promise: two systems and their cables are refused for the first reason: system 1, system 2, equal identifiers, the first bad end of a
    //    cable
    // contract: `WorldConfig::refusal` (`world_refusal`)
    /// The first reason to refuse the systems and their cables (profile): a fault of system 1, then of system 2, then
    /// equal identifiers, then the first cable with an end that is no port of its system or that an earlier cable has.
    /// Each system has 256 or 4096 conversations in each aggregator. Never `Lines`.
    pub fn refusal(&self) -> Option<BadWorld>
        ensures { result ≡ world_refusal self.now }
    {
        let [first, second] = &self.systems;
        if let Some(reason) = refusal_of_either(first) {
            return Some(BadWorld::System { side: 1, reason });
        }
        if let Some(reason) = refusal_of_either(second) {
            return Some(BadWorld::System { side: 2, reason });
        }
        if first.system == second.system {
            return Some(BadWorld::SameSystem);
        }
        bad_end(&first.ports, &second.ports, &self.cables).map(BadWorld::CableEnd)
    }
}
