//! Configurations as values: what no script has, and what a script is compared with.
use lagscript::WorldConfig;
use lagsystem::{Config, PortConfig};
use lagtypes::{Key, NoMemory, SystemId};
use std::alloc::Global;

fn mac(system: u8) -> [u8; 6] {
    [2, 0, 0, 0, 0, system]
}

/// A port of key 1 with Long Timeout.
fn port(system: u8, number: u16) -> PortConfig {
    PortConfig {
        number,
        priority: 128,
        mac: mac(system),
        key: Key(1),
        aggregatable: true,
        active: true,
        short: false,
    }
}

/// A system with one aggregator and these ports.
fn config(alloc: Global, system: u8, numbers: &[u16]) -> Result<Config, NoMemory> {
    let mut ports = Vec::new(alloc);
    for number in numbers {
        ports.push(port(system, *number))?;
    }
    Ok(Config {
        system: SystemId {
            priority: 32768,
            mac: mac(system),
        },
        max_delay: 0,
        first_marker: 1,
        conversations: 256,
        aggregators: Vec::from_slice(alloc, &[Key(1)])?,
        max_links: None,
        ports,
    })
}

/// System 1, the system with this number, and cables between these ports of theirs.
pub(crate) fn joined(
    alloc: Global,
    number: u8,
    first: &[u16],
    second: &[u16],
    cables: &[(u16, u16)],
) -> Result<WorldConfig, NoMemory> {
    let cables = Vec::from_slice(alloc, cables)?;
    let one = config(alloc, 1, first)?;
    let two = config(alloc, number, second)?;
    Ok(WorldConfig {
        systems: [one, two],
        cables,
    })
}
