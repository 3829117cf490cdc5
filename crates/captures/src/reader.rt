ghost use Rattle.std.specs.Prelude.{◌≡◌, ◌<◌, [], Ok, Err, IfOk, IfErr, IfSome, OnErr, slice_range};
ghost use Rattle.captures.specs.Steps.{head_step, block_step, second_length, step, end_of};
ghost use Rattle.captures.specs.declared.format.Format.TheVariants.{Start};
ghost use Rattle.captures.specs.Wanted.{IsWithin, WantsMore};

use crate::block::{Block, block_in};
use crate::fault::{Cause, Fault, Stop, refused};
use crate::format::{Format, format_in};
use crate::interface::{Interface, MOST_INTERFACES};
use crate::number::{Order, number32};
use crate::packet::Packet;
use crate::pcap::packet_in;
use arrayvec::ArrayVec;
use std::marker::Model;

/// What stood at the beginning of the octets.
#[derive(Clone, Copy, Debug, PartialEq, Eq)]
pub struct Step {
    /// How many octets it takes, from the first of those that were given; there may be more than were given.
    pub taken: usize,
    /// The packet, if it is one.
    pub packet: Option<Packet>,
    /// Whether it is a record that holds no packet, and that Wireshark numbers as it does packets.
    pub is_record: bool,
}

/// Whether a block's second length is the first one.
fn second_length(order: Order, length: u32, octets: &[u8]) -> Result<(), Stop>
    ensures second { result ≡ second_length order length octets.now }
    ensures wants { IfErr result (λ e. WantsMore octets.now e) }
{
    if octets.len() < 4 {
        return Err(Stop::Wants(4));
    }
    let found = number32(order, octets, 0);
    if found != length {
        return Err(refused(0, Cause::SecondLength(found)));
    }
    Ok(())
}

/// A reader of one capture: what comes next, and the interfaces of the section.
#[derive(Drop)]
pub struct Reader {
    format: Format,
    interfaces: ArrayVec<Interface, MOST_INTERFACES>,
}

impl Model for Reader {
    ghost use Rattle.captures.specs.Steps.{ReaderState};

    ghost Value = { ReaderState };

    ghost view = { λ r. record { format = r.format; interfaces = r.interfaces.items } };
}

impl Reader {
    // promise: the next header, block or packet is read as the descriptions of pcap and pcapng have it; the first fault has its offset, and
    //    leaves the reader as it was
    // contract: `Reader::new`, `read` (`ok`, `err`: `step`; `unchanged`)
    /// A reader before the beginning of a file.
    pub fn new() -> Reader
        ensures { result ≡ record { format = Start; interfaces = [] } }
    {
        Reader {
            format: Format::Start,
            interfaces: ArrayVec::new(),
        }
    }

    /// Reads the head of a file.
    fn read_head(&mut self, octets: &[u8]) -> Result<Step, Stop>
        ensures ok { IfOk result (λ s. head_step self.old octets.now ≡ Ok (s, self.new)) }
        ensures taken { IfOk result (λ s. 0 < s.taken) }
        ensures within { IfOk result (λ s. IfSome s.packet (λ p. IsWithin octets.now p)) }
        ensures err { IfErr result (λ e. head_step self.old octets.now ≡ Err e) }
        ensures wants { IfErr result (λ e. WantsMore octets.now e) }
        ensures unchanged { OnErr result (self.new ≡ self.old) }
    {
        let (format, taken) = format_in(octets)?;
        self.format = format;
        Ok(Step {
            taken,
            packet: None,
            is_record: false,
        })
    }

    /// Reads a block of pcapng, up to its second length.
    fn read_block(&mut self, order: Order, octets: &[u8]) -> Result<Step, Stop>
        ensures ok { IfOk result (λ s. block_step order self.old octets.now ≡ Ok (s, self.new)) }
        ensures taken { IfOk result (λ s. 0 < s.taken) }
        ensures within { IfOk result (λ s. IfSome s.packet (λ p. IsWithin octets.now p)) }
        ensures err { IfErr result (λ e. block_step order self.old octets.now ≡ Err e) }
        ensures wants { IfErr result (λ e. WantsMore octets.now e) }
        ensures unchanged { OnErr result (self.new ≡ self.old) }
    {
        let (block, length) = block_in(order, &self.interfaces, octets)?;
        let mut next = order;
        let mut packet = None;
        let mut is_record = false;
        match block {
            Block::Section(order) => {
                next = order;
                self.interfaces.clear();
            }
            Block::Interface(interface) => {
                if self.interfaces.try_push(interface).is_err() {
                    return Err(refused(0, Cause::Interfaces));
                }
            }
            Block::Packet(found) => packet = Some(found),
            Block::Record => is_record = true,
            Block::Other => {}
        }
        self.format = Format::SecondLength {
            order: next,
            length,
        };
        Ok(Step {
            taken: length as usize - 4,
            packet,
            is_record,
        })
    }

    // promise: a step takes an octet or more; `read` asks for more only if it wants more, at most 262,172 at once
    // contract: `read` (`taken`, `wants`)
    // promise: a packet's octets are among the given ones
    // contract: `read` (`within`), `Packet::octets`
    /// Reads what stands at the beginning of these octets, which follow those that were taken before. `Wants` if it does
    /// not end among them: the same octets and those behind them are to be given again, as many as wanted, which is at
    /// most `MOST_WANTED`. Refused: the first fault. An `Err` changes nothing.
    pub fn read(&mut self, octets: &[u8]) -> Result<Step, Stop>
        ensures ok { IfOk result (λ s. step self.old octets.now ≡ Ok (s, self.new)) }
        ensures taken { IfOk result (λ s. 0 < s.taken) }
        ensures within { IfOk result (λ s. IfSome s.packet (λ p. IsWithin octets.now p)) }
        ensures err { IfErr result (λ e. step self.old octets.now ≡ Err e) }
        ensures wants { IfErr result (λ e. WantsMore octets.now e) }
        ensures unchanged { OnErr result (self.new ≡ self.old) }
    {
        match self.format {
            Format::Start => self.read_head(octets),
            Format::Packet { order, unit, link } => {
                let packet = packet_in(order, unit, link, octets)?;
                Ok(Step {
                    taken: packet.end,
                    packet: Some(packet),
                    is_record: false,
                })
            }
            Format::Block { order } => self.read_block(order, octets),
            Format::SecondLength { order, length } => {
                second_length(order, length, octets)?;
                self.format = Format::Block { order };
                Ok(Step {
                    taken: 4,
                    packet: None,
                    is_record: false,
                })
            }
        }
    }

    // promise: a capture ends behind the header of pcap, a packet or a block alone
    // contract: `Reader::end` (`end_of`)
    /// Whether the capture may end here, so many octets behind those that were taken. `CutShort` if octets are left, or
    /// if it ends at its beginning or before a block's second length.
    pub fn end(&self, left: usize) -> Result<(), Fault>
        ensures { result ≡ end_of self.now.format left }
    {
        match self.format {
            Format::Packet { .. } | Format::Block { .. } if left == 0 => Ok(()),
            _ => Err(Fault {
                at: left,
                cause: Cause::CutShort,
            }),
        }
    }
}

impl Packet {
    /// The captured octets among those that were given.
    pub fn octets<'a>(&self, given: &'a [u8]) -> &'a [u8]
        requires { IsWithin given.now self.now }
        ensures { result.now ≡ slice_range given.now self.now.start self.now.end }
    {
        &given[self.start..self.end]
    }
}
