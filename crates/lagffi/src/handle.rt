ghost use Rattle.std.specs.Prelude.{◌≡◌, IfSome, MatchOption, None, Some, is_some};
ghost use Rattle.lagffi.specs.Holding.{held_value};

mod held;
mod queue;

use crate::stored::Stored;
pub(crate) use held::Block;
use held::Held;
use lagsystem::System;
pub use queue::LagQueue;
use std::alloc::Global;
use std::mem::replace;

/// The handle of a program in C: it holds a system, or none. It may not be dropped, so that no block is lost with it.
#[repr(C)]
pub struct Lag {
    live: bool,
    pub(crate) held: Held,
    ghost tells: { live ≡ is_some held.kept },
    ghost full: { is_some (held_value held.kept) ≡ is_some held.kept },
}

impl Lag {
    // promise: a system under another algorithm is the same system
    // contract: `System::with_algorithm`, `Distributor::with_algorithm`
    /// Takes the system out under this algorithm, beside its block; None if the handle holds none. What else the block keeps stays where
    /// it is, since a call would pay for each octet that is moved. Not inlined: each of the exports would have a copy.
    #[inline(never)]
    pub(crate) fn take<F: Drop>(
        &mut self,
        alloc: Global,
        algorithm: F,
    ) -> Option<(System<F>, Block<Stored>)>
        ensures taken { MatchOption result (held_value self.old.held.kept ≡ None) (λ taken. held_value self.old.held.kept
            ≡ Some (record { state = taken.0.state; algorithm = taken.1.stored.value.algorithm; answering = taken.1.stored.value.answering })) }
        ensures algorithm { IfSome result (λ taken. taken.0.algorithm ≡ algorithm) }
        ensures left { self.new.held.kept ≡ None }
    {
        let empty = Lag {
            live: false,
            held: Held::none(alloc),
        };
        let Lag { live, held } = replace(self, empty);
        if !live {
            return None;
        }
        let mut block = held.into_block();
        let stored = block.kept_mut();
        match stored.system.take() {
            Some(system) => Some((system.with_algorithm(algorithm), block)),
            None => unreachable!(),
        }
    }

    /// Puts a system into the empty handle, with a block for it.
    pub(crate) fn put<F: Drop>(&mut self, system: System<F>, mut block: Block<Stored>)
        requires { self.old.held.kept ≡ None }
        ensures { held_value self.new.held.kept
            ≡ Some (record { state = system.state; algorithm = block.stored.value.algorithm; answering = block.stored.value.answering }) }
    {
        let stored = block.kept_mut();
        stored.system = Some(system.with_algorithm(()));
        let full = Lag {
            live: true,
            held: Held::of_block(block),
        };
        let Lag {
            live: _,
            held: none,
        } = replace(self, full);
        drop(none);
    }
}
