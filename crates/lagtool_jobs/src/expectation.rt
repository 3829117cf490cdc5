//! What a vector expects of the jobs and of a system, and whether it is met.

use crate::algorithm::by_number;
use crate::fault::ToolFault;
use crate::known_texts::{HEADER, ONE_CABLE, Pieces};
use crate::replaying::replay;
use crate::replying::reply;
use crate::showing::{octets_of, show};
use lagstreams::Sink;
use lagsystem::{
    Choice, Config, MuxState, PortConfig, ReceiveState, Received, System, SystemFault,
};
use lagtypes::{Key, SystemId};
use slowpdu::{Info, Pdu, WireFault, decode};
use std::alloc::{AllocError, Global};

/// What a vector expects (profile).
#[derive(Clone, Copy)]
pub enum Expectation<'a> {
    /// `show` prints this text for this payload, and answers whether it is accepted.
    Shows {
        payload: Pieces,
        accepted: bool,
        text: &'a str,
    },
    /// This payload is an LACPDU that is encoded as the same octets.
    Encodes(Pieces),
    /// `reply` from 02-00-00-00-00-02 prints this text for this frame, and answers whether it gets a response.
    Replies {
        frame: Pieces,
        answered: bool,
        text: Pieces,
    },
    /// A system with one port, whose link is up, receives control frames with these payloads in turn. It ignores the last one for
    /// this cause, and the port is as it was before the first one.
    Ignores {
        payloads: &'a [Pieces],
        cause: WireFault,
    },
    /// `replay` prints this text for these events of the systems of `ONE_CABLE`.
    Replays {
        events: &'a str,
        text: &'a str,
    },
}

/// The text that the pieces make.
fn joined(alloc: Global, pieces: Pieces) -> Result<String, AllocError> {
    let mut text = String::new(alloc);
    for (piece, count) in pieces {
        for _ in 0..*count {
            text.push_str(*piece)?;
        }
    }
    Ok(text)
}

/// The octets of the pieces; none if they are not hexadecimal.
fn octets_in(alloc: Global, pieces: Pieces) -> Result<Vec<u8>, AllocError> {
    let hex = joined(alloc, pieces)?;
    match octets_of(alloc, hex.as_str()) {
        Ok(octets) => Ok(octets),
        Err(ToolFault::NoMemory) => Err(AllocError),
        Err(_) => Ok(Vec::new(alloc)),
    }
}

/// Whether a job answered so and wrote this text. A sink in memory fails only if memory is refused.
fn wrote(
    ended: Result<bool, ToolFault>,
    sink: Sink<Vec<u8>>,
    accepted: bool,
    text: &str,
) -> Result<bool, AllocError> {
    match ended {
        Ok(verdict) => {
            Ok(verdict == accepted && sink.into_inner().as_slice() == text.as_bytes())
        }
        Err(ToolFault::NoMemory | ToolFault::Write) => Err(AllocError),
        Err(_) => Ok(false),
    }
}

/// Whether `show` answers so and prints this text for a payload.
fn shows(alloc: Global, payload: Pieces, accepted: bool, text: &str) -> Result<bool, AllocError> {
    let hex = joined(alloc, payload)?;
    let mut sink = Sink::new(Vec::new(alloc));
    let ended = show(alloc, hex.as_str(), &mut sink);
    wrote(ended, sink, accepted, text)
}

/// Whether an LACPDU that was decoded is encoded as the same octets.
fn encodes(alloc: Global, payload: Pieces) -> Result<bool, AllocError> {
    let octets = octets_in(alloc, payload)?;
    match decode(octets.as_slice()) {
        Ok(Pdu::Lacpdu(lacpdu)) => Ok(lacpdu.encode().as_slice() == octets.as_slice()),
        _ => Ok(false),
    }
}

/// Whether `reply` answers so and prints this text for a frame.
fn replies(alloc: Global, frame: Pieces, answered: bool, text: Pieces) -> Result<bool, AllocError> {
    let hex = joined(alloc, frame)?;
    let wanted = joined(alloc, text)?;
    let mut sink = Sink::new(Vec::new(alloc));
    let ended = reply(alloc, "020000000002", hex.as_str(), &mut sink);
    wrote(ended, sink, answered, wanted.as_str())
}

/// Whether `replay` prints this text for a script of two systems with one cable.
fn replays(alloc: Global, events: &str, text: &str) -> Result<bool, AllocError> {
    let mut script = String::from_str(alloc, events)?;
    script.push_str(ONE_CABLE)?;
    let mut sink = Sink::new(Vec::new(alloc));
    let ended = match replay(alloc, script.as_str(), by_number, by_number, &mut sink) {
        Ok(()) => Ok(true),
        Err(fault) => Err(fault),
    };
    wrote(ended, sink, true, text)
}

/// A system with one port and one aggregator.
fn small_config(alloc: Global) -> Result<Config, AllocError> {
    let mac = [2, 0, 0, 0, 0, 1];
    let key = Key(1);
    let port = PortConfig {
        number: 1,
        priority: 128,
        mac,
        key,
        aggregatable: true,
        active: true,
        short: true,
    };
    Ok(Config {
        system: SystemId {
            priority: 32768,
            mac,
        },
        max_delay: 0,
        first_marker: 1,
        conversations: 256,
        aggregators: Vec::from_slice(alloc, &[key])?,
        max_links: None,
        ports: Vec::from_slice(alloc, &[port])?,
    })
}

/// What is seen of a port.
#[derive(Clone, Copy, PartialEq, Eq)]
struct Seen {
    receive_state: Option<ReceiveState>,
    current_while: Option<u16>,
    partner: Option<Info>,
    choice: Option<Choice>,
    mux_state: Option<MuxState>,
    is_due: Option<bool>,
}

/// What is seen of port 1 of a system.
fn look_at<F: Fn(u16, usize) -> usize + Drop>(system: &System<F>) -> Seen {
    Seen {
        receive_state: system.receive_state(1),
        current_while: system.current_while(1),
        partner: system.partner(1),
        choice: system.choice(1),
        mux_state: system.mux_state(1),
        is_due: system.is_due(1),
    }
}

/// What a system answers to a control frame with this payload on port 1.
fn answer_to<F: Fn(u16, usize) -> usize + Drop>(
    alloc: Global,
    system: &mut System<F>,
    payload: Pieces,
) -> Result<Result<Received, SystemFault>, AllocError> {
    let mut frame = octets_in(alloc, HEADER)?;
    frame.extend_from_slice(octets_in(alloc, payload)?.as_slice())?;
    Ok(system.receive(1, frame.as_slice()))
}

/// Whether a system ignores the last of these payloads for this cause, and its port is then as it was before the first.
fn ignores(alloc: Global, payloads: &[Pieces], cause: WireFault) -> Result<bool, AllocError> {
    let Ok(mut system) = System::new(alloc, small_config(alloc)?, by_number) else {
        return Err(AllocError);
    };
    if system.set_link(1, true).is_err() {
        return Ok(false);
    }
    let before = look_at(&system);
    let mut answer = Ok(Received::Dropped);
    for payload in payloads {
        answer = answer_to(alloc, &mut system, *payload)?;
    }
    Ok(answer == Ok(Received::Ignored(cause)) && look_at(&system) == before)
}

/// Whether an expectation is met.
fn is_met(alloc: Global, expectation: &Expectation<'_>) -> Result<bool, AllocError> {
    match *expectation {
        Expectation::Shows {
            payload,
            accepted,
            text,
        } => shows(alloc, payload, accepted, text),
        Expectation::Encodes(payload) => encodes(alloc, payload),
        Expectation::Replies {
            frame,
            answered,
            text,
        } => replies(alloc, frame, answered, text),
        Expectation::Ignores { payloads, cause } => ignores(alloc, payloads, cause),
        Expectation::Replays { events, text } => replays(alloc, events, text),
    }
}

/// Whether each expectation of a vector is met.
pub(crate) fn all_met(alloc: Global, vector: &[Expectation<'_>]) -> Result<bool, AllocError> {
    for expectation in vector {
        if !is_met(alloc, expectation)? {
            return Ok(false);
        }
    }
    Ok(true)
}
