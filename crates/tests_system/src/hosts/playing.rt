use crate::systems::{Row, Side, lacpdu, mac, modulo, play};
use lagsystem::{Config, Key, NoMemory, System, SystemFault};
use slowpdu::frame;
use std::alloc::Global;
use std::process::Abort;

/// System 1 with ports 3, 7 and 9 of Long Timeout, two aggregators of key 5, and this first marker.
pub(crate) fn config(alloc: Global, first_marker: u32) -> Result<Config, NoMemory> {
    let mut given = crate::systems::config(alloc, &[3, 7, 9], 2)?;
    given.first_marker = first_marker;
    for key in given.aggregators.iter_mut() {
        *key = Key(5);
    }
    for port in given.ports.iter_mut() {
        port.key = Key(5);
        port.short = false;
    }
    Ok(given)
}

/// What the LACPDU of the partner's port says: it is synchronized.
pub(crate) fn theirs(port: u16) -> Side {
    Side::Of(0x42, port, 5, 0x0d)
}

/// The LACPDU of port `port` of system 0x42, which names the port of the same number of system 1.
pub(crate) fn heard(port: u16) -> [u8; 124] {
    let ours = Side::Of(1, port, 5, 0x05);
    frame(mac(0x43), &lacpdu(theirs(port).info(), ours.info()))
}

/// A port that distributes sends its LACPDU.
pub(crate) fn told(port: u16) -> Row<'static> {
    Row::Sends(port, Side::Of(1, port, 5, 0x3d), theirs(port))
}

/// Ports 3 and 7 come to distribute in aggregator 1; the link of port 9 stays down. Each sends its LACPDU.
pub(crate) fn come_up() -> [Row<'static>; 6] {
    [
        Row::Links(&[3, 7]),
        Row::Takes(3, theirs(3), Side::Of(1, 3, 5, 0x05)),
        Row::Takes(7, theirs(7), Side::Of(1, 7, 5, 0x05)),
        Row::Ticks(20),
        told(3),
        told(7),
    ]
}

/// A name, the first marker, and rows.
pub(crate) type Case<'a> = (&'a str, u32, &'a [Row<'a>]);

/// Plays the rows of each case on a new system whose ports 3 and 7 distribute in aggregator 1.
pub(crate) fn plays_cases(
    rt: &impl Abort,
    alloc: Global,
    cases: &[Case<'_>],
) -> Result<(), SystemFault> {
    for (case, first_marker, rows) in cases {
        let mut system = System::new(alloc, config(alloc, *first_marker)?, modulo)?;
        play(rt, alloc, &mut system, *case, &come_up())?;
        play(rt, alloc, &mut system, *case, *rows)?;
    }
    Ok(())
}
