ghost use Rattle.std.specs.Prelude.{◌≡◌, map};
ghost use Rattle.lagsystem.specs.First.{configured_numbers, first_bad_port_number};
ghost use Rattle.lagffi.specs.Made.{lag_port_config, refusal_of};

use crate::made::{LagConfig, LagPort};
use lagsystem::BadConfig;

/// The place, counted from 1, of the first port whose number is not above the one before it, or is 0.
fn first_bad_port_number(ports: &[LagPort]) -> Option<usize>
    ensures { result ≡ first_bad_port_number 1 0 (configured_numbers (map lag_port_config ports.now)) }
{
    let mut place = 0;
    let mut low = 0;
    for port in ports {
        place += 1;
        if port.number <= low {
            return Some(place);
        }
        low = port.number;
    }
    None
}

/// The first reason to refuse this configuration, found before memory is taken; None if it is accepted.
pub(crate) fn refusal(config: &LagConfig, keys: &[u16], ports: &[LagPort]) -> Option<BadConfig>
    ensures { result ≡ refusal_of config.now keys.now ports.now }
{
    if ports.is_empty() || ports.len() > 64 {
        return Some(BadConfig::Ports);
    }
    if keys.is_empty() || keys.len() > 64 {
        return Some(BadConfig::Aggregators);
    }
    if let Some(place) = first_bad_port_number(ports) {
        return Some(BadConfig::PortNumber(place));
    }
    if config.max_links > 64 {
        return Some(BadConfig::MaxLinks);
    }
    if config.conversations != 1 && config.conversations != 256 && config.conversations != 4096 {
        return Some(BadConfig::Conversations);
    }
    None
}
