//! What several of these tests share: ends of links, frames of LACPDUs, and what is said of a capture.
use bitflags::Flags;
use lagstreams::{Sink, Source};
use lagtool_capture::{CaptureFault, CaptureSummary, Settings, report_capture};
use lagtypes::{Key, PortId, State, SystemId};
use slowpdu::{Info, Lacpdu, frame};
use std::alloc::{AllocError, Global};

/// The MAC address of the system with this number.
pub(crate) fn mac(system: u8) -> [u8; 6] {
    [0x02, 0, 0, 0, 0, system]
}

/// A port of the system with this number.
pub(crate) fn end(system: u8, key: u16, port: u16, state: u8) -> Info {
    Info {
        system: SystemId {
            priority: 32768,
            mac: mac(system),
        },
        key: Key(key),
        port: PortId {
            priority: 128,
            number: port,
        },
        state: State::from_bits_retain(state),
    }
}

/// The frame of an LACPDU with this source.
pub(crate) fn lacpdu(source: [u8; 6], actor: Info, partner: Info) -> [u8; 124] {
    let sent = Lacpdu {
        actor,
        partner,
        max_delay: 0,
    };
    frame(source, &sent.encode())
}

/// What is returned for a capture, and what is said of it, without a line for each frame.
pub(crate) fn said(
    alloc: Global,
    octets: &[u8],
) -> Result<(Result<CaptureSummary, CaptureFault>, String), AllocError> {
    let settings = Settings {
        all: false,
        frames: false,
        json: false,
    };
    let mut source = Source::new(octets);
    let mut sink = Sink::new(Vec::new(alloc));
    let answer = report_capture(alloc, settings, &mut source, &mut sink);
    let text = String::from_utf8_lossy(alloc, sink.into_inner().as_slice())?;
    Ok((answer, text))
}
