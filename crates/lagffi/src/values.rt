ghost use Rattle.std.specs.Prelude.{◌≡◌, ◌≤◌, length, option_map};
ghost use Rattle.dataplane.specs.Notes.{answers_number};
ghost use Rattle.lagffi.specs.Lists.{port_list_length, put_first};
ghost use Rattle.lagffi.specs.Frames.{received_of, sent_as, sent_of, sent_refused};
ghost use Rattle.lagffi.specs.Numbers.{change_of, number_refused, received_refused, truth_refused, number, number_or_refused, number_of};
ghost use Rattle.lagffi.specs.Numbers.{status_of, truth, truth_or_no_port, truth_of};
ghost use Rattle.lagsystem.specs.declared.fault.SystemFault.{SystemFault};

use arrayvec::ArrayVec;
use dataplane::MarkerNote;
use lagsystem::{AggId, Key, PortChange, Received, SystemFault};

/// What a function answers when it refuses nothing.
pub(crate) const OK: u32 = 0;
/// The system has no port of this number.
pub(crate) const NO_PORT: u32 = 1;
/// The handle holds no system.
pub(crate) const NO_SYSTEM: u32 = 13;
/// A buffer has less room than the function asks.
pub(crate) const WRONG_BUFFER_LENGTH: u32 = 15;
/// The length of a frame is refused: an offered one has not 14 to 1518 octets, one asked about has fewer than 14.
pub(crate) const FRAME_LENGTH_REFUSED: u32 = 3;
/// A reader finds no such aggregator or conversation. Of a free conversation it tells the state, and refuses nothing.
pub(crate) const NO_CONVERSATION: u32 = 9;
/// Memory is refused.
pub(crate) const NO_MEMORY: u32 = 12;
/// The most ports and the most aggregators of a system.
pub(crate) const PORT_LIST_LENGTH: usize = 64;
/// The octets of a frame that a system makes: 14 of header, 110 of payload.
pub(crate) const CONTROL_FRAME_LENGTH: usize = 124;

/// The number of an answer: 0, or that of its refusal.
pub(crate) fn status<T>(answer: &Result<T, SystemFault>) -> u32
    ensures { result ≡ status_of answer.now }
{
    match answer {
        Ok(_) => OK,
        Err(fault) => u32::from(fault.number()),
    }
}

/// What a running system may change of a port.
#[repr(C)]
#[derive(Clone, Copy)]
pub struct LagChange {
    /// The key of the port.
    pub key: u16,
    /// The port priority.
    pub priority: u16,
    /// Aggregation: false for a port whose link is individual.
    pub aggregatable: bool,
}

impl LagChange {
    /// The change as the system takes it.
    pub(crate) fn change(&self) -> PortChange
        ensures { result ≡ change_of self.now }
    {
        PortChange {
            key: Key(self.key),
            priority: self.priority,
            aggregatable: self.aggregatable,
        }
    }
}

/// Whether something is so, or why that is not told.
#[repr(C)]
#[derive(Clone, Copy)]
pub struct LagTruth {
    /// 0, or the number of the refusal.
    pub status: u32,
    /// The answer; false where it is refused.
    pub is: bool,
}

impl LagTruth {
    /// Status 0 with this answer.
    pub(crate) fn answered(is: bool) -> LagTruth
        ensures { result ≡ truth is }
    {
        LagTruth { status: OK, is }
    }

    /// Refused with this number.
    pub(crate) fn refused(why: u32) -> LagTruth
        ensures { result ≡ truth_refused why }
    {
        LagTruth {
            status: why,
            is: false,
        }
    }

    /// The answer of a call.
    pub(crate) fn of(answer: &Result<bool, SystemFault>) -> LagTruth
        ensures { result ≡ truth_of answer.now }
    {
        match answer {
            Ok(is) => LagTruth::answered(*is),
            Err(fault) => LagTruth::refused(u32::from(fault.number())),
        }
    }

    /// What a reader tells of a port.
    pub(crate) fn of_port(answer: Option<bool>) -> LagTruth
        ensures { result ≡ truth_or_no_port answer }
    {
        match answer {
            Some(is) => LagTruth::answered(is),
            None => LagTruth::refused(NO_PORT),
        }
    }
}

/// A number, or why it is not told.
#[repr(C)]
#[derive(Clone, Copy)]
pub struct LagNumber {
    /// 0, or the number of the refusal.
    pub status: u32,
    /// The answer; 0 where it is refused.
    pub number: u64,
}

impl LagNumber {
    /// Status 0 with this number.
    pub(crate) fn answered(answer: u64) -> LagNumber
        ensures { result ≡ number answer }
    {
        LagNumber {
            status: OK,
            number: answer,
        }
    }

    /// Refused with this number.
    pub(crate) fn refused(why: u32) -> LagNumber
        ensures { result ≡ number_refused why }
    {
        LagNumber {
            status: why,
            number: 0,
        }
    }

    /// The answer of `offer`.
    pub(crate) fn of(answer: &Result<u16, SystemFault>) -> LagNumber
        ensures { result ≡ number_of answer.now }
    {
        match answer {
            Ok(answer) => LagNumber::answered(u64::from(*answer)),
            Err(fault) => LagNumber::refused(u32::from(fault.number())),
        }
    }

    /// A count of conversations, the answer of `load` and of `force_port`.
    pub(crate) fn of_count(answer: &Result<u32, SystemFault>) -> LagNumber
        ensures { result ≡ number_of answer.now }
    {
        match answer {
            Ok(answer) => LagNumber::answered(u64::from(*answer)),
            Err(fault) => LagNumber::refused(u32::from(fault.number())),
        }
    }

    /// The note on the peer of a port; or that there is no such port.
    pub(crate) fn note_or_no_port(answer: Option<MarkerNote>) -> LagNumber
        ensures { result ≡ number_or_refused 1 (option_map answers_number answer) }
    {
        let number = match answer {
            Some(answers) => Some(answers.number()),
            None => None,
        };
        LagNumber::octet_or_no_port(number)
    }

    /// A number of one octet that a reader tells of a port; or that there is no such port.
    pub(crate) fn octet_or_no_port(answer: Option<u8>) -> LagNumber
        ensures { result ≡ number_or_refused 1 answer }
    {
        match answer {
            Some(ticks) => LagNumber::answered(u64::from(ticks)),
            None => LagNumber::refused(NO_PORT),
        }
    }

    /// What a reader tells, or else this refusal.
    pub(crate) fn or(answer: Option<u16>, why: u32) -> LagNumber
        ensures { result ≡ number_or_refused why answer }
    {
        match answer {
            Some(answer) => LagNumber::answered(u64::from(answer)),
            None => LagNumber::refused(why),
        }
    }
}

/// What became of a frame that came, or why that is not told.
#[repr(C)]
#[derive(Clone, Copy)]
pub struct LagReceived {
    /// 0, or the number of the refusal.
    pub status: u32,
    /// 0 Disabled, 1 Dropped, 2 Ignored, 3 TookLacpdu, 4 Respond, 5 Released, 6 Up.
    pub what: u32,
    /// Of 2 the number of the fault, 1 to 4; of 4 the octets of the response; of 5 how many conversations were released; of 6
    /// the aggregator; else 0.
    pub number: u32,
}

impl LagReceived {
    /// Refused with this number.
    pub(crate) fn refused(why: u32) -> LagReceived
        ensures { result ≡ received_refused why }
    {
        LagReceived {
            status: why,
            what: 0,
            number: 0,
        }
    }

    /// The answer of a call.
    pub(crate) fn of(answer: &Result<Received, SystemFault>) -> LagReceived
        ensures { result ≡ received_of answer.now }
    {
        let (what, number) = match answer {
            Err(fault) => return LagReceived::refused(u32::from(fault.number())),
            Ok(Received::Disabled) => (0, 0),
            Ok(Received::Dropped) => (1, 0),
            Ok(Received::Ignored(fault)) => (2, u32::from(fault.number())),
            Ok(Received::TookLacpdu) => (3, 0),
            Ok(Received::Respond(_)) => (4, CONTROL_FRAME_LENGTH as u32),
            Ok(Received::Released(count)) => (5, *count),
            Ok(Received::Up(AggId(agg))) => (6, u32::from(*agg)),
        };
        LagReceived {
            status: OK,
            what,
            number,
        }
    }
}

/// Whether a frame is due, and which, or why that is not told.
#[repr(C)]
#[derive(Clone, Copy)]
pub struct LagSent {
    /// 0, or the number of the refusal.
    pub status: u32,
    /// Whether a frame is due, which stands in the buffer then.
    pub is: bool,
    /// The subtype of its PDU: 1 for an LACPDU (6.4.2.3), 2 for a Marker PDU (6.5.3.3); else 0.
    pub what: u8,
    /// How many octets of the buffer it has; else 0.
    pub octets: u32,
}

impl LagSent {
    /// Whether a frame is due, the subtype of its PDU and its octets.
    fn answered(is: bool, what: u8, octets: u32) -> LagSent
        ensures { result ≡ sent_as is what octets }
    {
        LagSent {
            status: OK,
            is,
            what,
            octets,
        }
    }

    /// Refused with this number.
    pub(crate) fn refused(why: u32) -> LagSent
        ensures { result ≡ sent_refused why }
    {
        LagSent {
            status: why,
            is: false,
            what: 0,
            octets: 0,
        }
    }

    /// The answer of a call.
    pub(crate) fn of(answer: &Result<Option<[u8; 124]>, SystemFault>) -> LagSent
        ensures { result ≡ sent_of answer.now }
    {
        match answer {
            Ok(Some(frame)) => LagSent::answered(true, frame[14], CONTROL_FRAME_LENGTH as u32),
            Ok(None) => LagSent::answered(false, 0, 0),
            Err(fault) => LagSent::refused(u32::from(fault.number())),
        }
    }
}

/// Writes numbers at the front of a buffer, and answers how many.
pub(crate) fn put_first(numbers: &ArrayVec<u16, 64>, buffer: &mut [u16]) -> u64
    requires { port_list_length ≤ length buffer.old }
    ensures count { result ≡ length numbers.now.items }
    ensures written { buffer.new ≡ put_first numbers.now.items buffer.old }
{
    let count = numbers.len();
    buffer[..count].copy_from_slice(numbers);
    count as u64
}
