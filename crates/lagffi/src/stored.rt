ghost use Rattle.std.specs.Prelude.{◌≡◌};
ghost use Rattle.dataplane.specs.Notes.{nobody_asked};
ghost use Rattle.distributor.specs.Calls.{index_by_number};
ghost use Rattle.lagffi.specs.Algorithms.{index_by_sum};

use dataplane::{Answering, Holding};
use lagsystem::System;

/// What the block of a handle keeps: a system with no algorithm, so that its type names none, or the queues of frames that wait. They are
/// taken out while a call goes on.
#[derive(Drop)]
pub struct Stored {
    pub(crate) system: Option<System<()>>,
    /// The number of its distribution algorithm.
    pub(crate) algorithm: u16,
    /// Whether the peers of its ports answer markers.
    pub(crate) answering: Answering,
    /// The queues of frames that wait, by the numbers that the program has for them.
    pub(crate) queue: Option<Holding<u64>>,
}

impl Stored {
    /// Neither a system nor queues; no peer was asked.
    pub(crate) fn under(algorithm: u16) -> Stored
        ensures algorithm { result.algorithm ≡ algorithm }
        ensures answering { result.answering ≡ nobody_asked }
    {
        Stored {
            system: None,
            algorithm,
            answering: Answering::nobody_asked(),
            queue: None,
        }
    }
}

/// The distribution algorithm: the number of the conversation modulo the count of ports, and 0 if there are none.
pub(crate) fn by_number(conversation: u16, count: usize) -> usize
    ensures { result ≡ index_by_number conversation count }
{
    distributor::by_number(conversation, count)
}

/// The distribution algorithm that adds to the number its 16th and its 256th part.
pub(crate) fn by_sum(conversation: u16, count: usize) -> usize
    ensures { result ≡ index_by_sum conversation count }
{
    if count == 0 {
        return 0;
    }
    let number = usize::from(conversation);
    (number + number / 16 + number / 256) % count
}

/// The distribution algorithm that picks the first port for each conversation, so that the others stand in reserve.
pub(crate) fn by_first(_conversation: u16, _count: usize) -> usize
    ensures { result ≡ 0 }
{
    0
}
