ghost use Rattle.std.specs.Prelude.{◌≡◌, Some};
ghost use Rattle.lagscript.specs.EntryTexts.{change_text, entry_text, frame_text};
ghost use Rattle.lagscript.specs.EventValues.{cable_named, event_value, system_named};

use lagsystem::PortChange;
use lagtypes::{AggId, OctetText};
use std::fmt;

/// An event of two systems and their cables. The values have the order of the words in a script. A system is 1 or 2,
/// cables are numbered from 1, and a tick is 100 ms (profile).
#[derive(Debug, Drop)]
pub enum Event {
    /// System, ticks: this many ticks of the system pass, 0 to 65535.
    Tick(u8, u16),
    /// System, port: the port sends what is due, an LACPDU or a marker (6.4.16, 6.5).
    Emit(u8, u16),
    /// Cable, system: the first frame on the cable towards the system is received there, and leaves the cable.
    Deliver(u16, u8),
    /// Cable, system: the first frame on the cable towards the system is lost.
    Lose(u16, u8),
    /// Cable, system: the first frame on the cable towards the system is received there, but also stays on the cable,
    /// if it is a control frame.
    Repeat(u16, u8),
    /// Cable: the cable is cut, and what is on it is lost.
    Cut(u16),
    /// Cable: the cable is whole again.
    Join(u16),
    /// Cable, system: the port of the system at this cable learns whether the cable is whole (6.4.7, port_enabled).
    Sense(u16, u8),
    /// System: the system starts again as it was configured, and what is on its cables is lost.
    Restart(u8),
    /// System, port, change: the port gets another key, priority or Aggregation bit.
    Configure(u8, u16, PortChange),
    /// System, aggregator, frame: the frame is offered to the aggregator (6.2.4).
    Offer(u8, AggId, Vec<u8>),
    /// System, aggregator, conversation, port: the conversation is to move to the port, behind a marker (6.2.5).
    Move(u8, AggId, u16, u16),
    /// System, aggregator, conversation: the conversation is freed at once; from then on its frames may be reordered.
    Force(u8, AggId, u16),
}

impl Event {
    /// The number of the cable that the event names, from 1; None if it names none (profile).
    pub fn cable(&self) -> Option<u16>
        ensures { result ≡ cable_named self.now }
    {
        match self {
            Event::Deliver(cable, _) => Some(*cable),
            Event::Lose(cable, _) => Some(*cable),
            Event::Repeat(cable, _) => Some(*cable),
            Event::Cut(cable) => Some(*cable),
            Event::Join(cable) => Some(*cable),
            Event::Sense(cable, _) => Some(*cable),
            Event::Tick(_, _) => None,
            Event::Emit(_, _) => None,
            Event::Restart(_) => None,
            Event::Configure(_, _, _) => None,
            Event::Offer(_, _, _) => None,
            Event::Move(_, _, _, _) => None,
            Event::Force(_, _, _) => None,
        }
    }

    /// The number of the system that the event names, as it was given; None if it names none (profile).
    pub fn system(&self) -> Option<u8>
        ensures { result ≡ system_named self.now }
    {
        match self {
            Event::Tick(system, _) => Some(*system),
            Event::Emit(system, _) => Some(*system),
            Event::Deliver(_, system) => Some(*system),
            Event::Lose(_, system) => Some(*system),
            Event::Repeat(_, system) => Some(*system),
            Event::Cut(_) => None,
            Event::Join(_) => None,
            Event::Sense(_, system) => Some(*system),
            Event::Restart(system) => Some(*system),
            Event::Configure(system, _, _) => Some(*system),
            Event::Offer(system, _, _) => Some(*system),
            Event::Move(system, _, _, _) => Some(*system),
            Event::Force(system, _, _) => Some(*system),
        }
    }
}

/// The octets of a frame in lower-case hexadecimal.
#[derive(Clone, Copy)]
struct FrameText<'a>(&'a [u8]);

impl fmt::Display for FrameText<'_> {
    ghost output = { λ t. Some (frame_text t.0.now) };

    fn fmt<W: fmt::Write>(&self, f: &mut fmt::Formatter<W>) -> fmt::Result {
        for octet in self.0 {
            write!(f, "{}", OctetText(*octet))?;
        }
        Ok(())
    }
}

/// The new values of a port in `configure`: KEY PRIORITY KIND.
#[derive(Clone, Copy)]
struct ChangeText(PortChange);

impl fmt::Display for ChangeText {
    ghost output = { λ t. Some (change_text t.0) };

    fn fmt<W: fmt::Write>(&self, f: &mut fmt::Formatter<W>) -> fmt::Result {
        let PortChange {
            key,
            priority,
            aggregatable,
        } = self.0;
        if aggregatable {
            write!(f, "{key} {priority} aggregatable")
        } else {
            write!(f, "{key} {priority} individual")
        }
    }
}

/// Writes the event as the entry of a script: numbers without leading zeros, octets in lower case (profile).
impl fmt::Display for Event {
    ghost output = { λ e. Some (entry_text (event_value e)) };

    fn fmt<W: fmt::Write>(&self, f: &mut fmt::Formatter<W>) -> fmt::Result {
        match self {
            Event::Tick(system, count) => write!(f, "tick {system} {count}"),
            Event::Emit(system, port) => write!(f, "emit {system} {port}"),
            Event::Deliver(cable, system) => write!(f, "deliver {cable} {system}"),
            Event::Lose(cable, system) => write!(f, "lose {cable} {system}"),
            Event::Repeat(cable, system) => write!(f, "repeat {cable} {system}"),
            Event::Cut(cable) => write!(f, "cut {cable}"),
            Event::Join(cable) => write!(f, "join {cable}"),
            Event::Sense(cable, system) => write!(f, "sense {cable} {system}"),
            Event::Restart(system) => write!(f, "restart {system}"),
            Event::Configure(system, port, change) => {
                write!(f, "configure {system} {port} {}", ChangeText(*change))
            }
            Event::Offer(system, agg, frame) => {
                write!(f, "offer {system} {agg} {}", FrameText(frame))
            }
            Event::Move(system, agg, conv, port) => {
                write!(f, "move {system} {agg} {conv} {port}")
            }
            Event::Force(system, agg, conv) => write!(f, "force {system} {agg} {conv}"),
        }
    }
}
