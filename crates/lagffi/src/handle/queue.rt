ghost use Rattle.std.specs.Prelude.{◌≡◌, MatchOption, None, Some, is_some};
ghost use Rattle.lagffi.specs.Queues.{queue_value};

use super::{Block, Held};
use crate::stored::Stored;
use dataplane::Holding;
use std::alloc::Global;
use std::mem::replace;

/// The handle of a program in C for frames that wait: it holds queues, or none. It may not be dropped, so that no block is lost with it.
#[repr(C)]
pub struct LagQueue {
    live: bool,
    pub(crate) held: Held,
    ghost tells: { live ≡ is_some held.kept },
    ghost full: { is_some (queue_value held.kept) ≡ is_some held.kept },
}

impl LagQueue {
    /// Takes the queues out, beside their block; None if the handle holds none.
    pub(crate) fn take(&mut self, alloc: Global) -> Option<(Holding<u64>, Block<Stored>)>
        ensures taken { MatchOption result (queue_value self.old.held.kept ≡ None) (λ taken. queue_value self.old.held.kept ≡ Some taken.0) }
        ensures left { self.new.held.kept ≡ None }
    {
        let empty = LagQueue {
            live: false,
            held: Held::none(alloc),
        };
        let LagQueue { live, held } = replace(self, empty);
        if !live {
            return None;
        }
        let mut block = held.into_block();
        let stored = block.kept_mut();
        match stored.queue.take() {
            Some(queue) => Some((queue, block)),
            None => unreachable!(),
        }
    }

    /// Puts queues into the empty handle, with a block for them.
    pub(crate) fn put(&mut self, queue: Holding<u64>, mut block: Block<Stored>)
        requires { self.old.held.kept ≡ None }
        ensures { queue_value self.new.held.kept ≡ Some queue }
    {
        let stored = block.kept_mut();
        stored.queue = Some(queue);
        let full = LagQueue {
            live: true,
            held: Held::of_block(block),
        };
        let LagQueue {
            live: _,
            held: none,
        } = replace(self, full);
        drop(none);
    }
}
