ghost use Rattle.std.specs.Prelude.{◌≡◌, ◌≤◌, ◌+◌, length, IfOk, IfErr};
ghost use Rattle.captures.specs.Descriptions.{entry_at, units_at, timing_from, timing_in, interface_in};
ghost use Rattle.captures.specs.Wanted.{WantsMore};

use crate::fault::{Cause, Stop, refused};
use crate::interface::{Interface, Timing};
use crate::link::link_at;
use crate::number::{Order, number16, number32, number64};
use crate::packet::MOST_CAPTURED;
use crate::pcapng::length_in;
use crate::time::{Shift, shift_of, units_of_resolution};

/// The offset of the first option of an interface description block.
const OPTIONS: usize = 16;

/// The code of the option that ends the options.
const END: u16 = 0;

/// The code of the option if_tsresol.
const RESOLUTION: u16 = 9;

/// The code of the option if_tsoffset.
const OFFSET: u16 = 14;

/// How many units of time a second has where no option tells it.
const MICROSECONDS: u64 = 1_000_000;

/// What stands at an offset among the options.
#[derive(Clone, Copy)]
enum Entry {
    /// No option.
    End,
    /// The option if_tsresol: how many units of time a second has; the next option stands at this offset.
    Units(u64, usize),
    /// The option if_tsoffset: how far each time is moved; the next option stands at this offset.
    Moved(Shift, usize),
    /// Another option; the next one stands at this offset.
    Other(usize),
}

/// The units that the octet of an if_tsresol at this offset tells.
fn units_at(octets: &[u8], at: usize) -> Result<Entry, Stop>
    requires { at + 4 ≤ length octets.now }
    ensures units { result ≡ units_at octets.now at }
    ensures wants { IfErr result (λ e. WantsMore octets.now e) }
{
    let resolution = octets[at];
    match units_of_resolution(resolution) {
        Some(units) => Ok(Entry::Units(units, at + 4)),
        None => Err(refused(at, Cause::Resolution(resolution))),
    }
}

/// What stands at an offset among the options before the offset `end`. Refused: an option that does not end there, an
/// if_tsresol that has not one octet, and an if_tsoffset that has not eight.
fn entry_at(order: Order, octets: &[u8], end: usize, at: usize) -> Result<Entry, Stop>
    requires { end + 4 ≤ length octets.now }
    ensures entry { result ≡ entry_at order octets.now end at }
    ensures wants { IfErr result (λ e. WantsMore octets.now e) }
{
    if end < 4 || at > end - 4 {
        return Ok(Entry::End);
    }
    let code = number16(order, octets, at);
    let size = number16(order, octets, at + 2);
    if code == END {
        return Ok(Entry::End);
    }
    if usize::from(size) > end - 4 - at
        || (code == RESOLUTION && size != 1)
        || (code == OFFSET && size != 8)
    {
        return Err(refused(at + 2, Cause::Length(u32::from(size))));
    }
    if code == RESOLUTION {
        return units_at(octets, at + 4);
    }
    if code == OFFSET {
        let shift = shift_of(number64(order, octets, at + 4));
        return Ok(Entry::Moved(shift, at + 12));
    }
    Ok(Entry::Other(at + 4 + usize::from(size).div_ceil(4) * 4))
}

/// How packets are timed, as the options before the offset `end` say. Refused as by `entry_at`.
#[tactic(auto, using(crate::proofs::EntryLemmas::next_entry))]
fn timing_in(order: Order, octets: &[u8], end: usize) -> Result<Timing, Stop>
    requires { end + 4 ≤ length octets.now }
    ensures timing { result ≡ timing_in order octets.now end }
    ensures wants { IfErr result (λ e. WantsMore octets.now e) }
{
    let mut timing = Timing {
        units: MICROSECONDS,
        shift: Shift::default(),
    };
    let mut at = OPTIONS;
    for _ in 0..end {
        match entry_at(order, octets, end, at)? {
            Entry::End => return Ok(timing),
            Entry::Units(units, next) => {
                timing.units = units;
                at = next;
            }
            Entry::Moved(shift, next) => {
                timing.shift = shift;
                at = next;
            }
            Entry::Other(next) => at = next,
        }
    }
    Ok(timing)
}

/// The interface that an interface description block describes, and the block's length.
pub(crate) fn interface_in(order: Order, octets: &[u8]) -> Result<(Interface, u32), Stop>
    requires { 8 ≤ length octets.now }
    ensures interface { result ≡ interface_in order octets.now }
    ensures least { IfOk result (λ x. 12 ≤ x.1) }
    ensures wants { IfErr result (λ e. WantsMore octets.now e) }
{
    let length = length_in(order, octets, 20)?;
    if length > MOST_CAPTURED {
        return Err(refused(4, Cause::Description(length)));
    }
    if octets.len() < length as usize {
        return Err(Stop::Wants(length as usize));
    }
    let link = link_at(8, u32::from(number16(order, octets, 8)))?;
    let timing = timing_in(order, octets, length as usize - 4)?;
    let interface = Interface {
        link,
        snapshot: number32(order, octets, 12),
        timing,
    };
    Ok((interface, length))
}
