ghost use Rattle.std.specs.Prelude.{◌≡◌, MatchOption, None, Some, is_some};

mod held;

use crate::pieces::Pieces;
pub(crate) use held::Held;
use std::alloc::Global;
use std::mem::replace;

/// The handle of a capture that the host gives in pieces: it holds one, or none, as where all its octets are 0. It may not be dropped, so
/// that no block is lost with it.
#[repr(C)]
pub struct LagpageCapture {
    live: bool,
    pub(crate) held: Held,
    ghost tells: { live ≡ is_some held.kept },
}

impl LagpageCapture {
    /// Takes the capture out; None if the handle holds none.
    pub(crate) fn take(&mut self, alloc: Global) -> Option<Box<Pieces, Global>>
        ensures taken { MatchOption result (self.old.held.kept ≡ None) (λ taken. self.old.held.kept ≡ Some taken.value) }
        ensures left { self.new.held.kept ≡ None }
    {
        let empty = LagpageCapture {
            live: false,
            held: Held::none(alloc),
        };
        let LagpageCapture { live, held } = replace(self, empty);
        if !live {
            drop(held);
            return None;
        }
        Some(held.into_box())
    }

    /// Puts a capture into the empty handle.
    pub(crate) fn put(&mut self, pieces: Box<Pieces, Global>)
        requires { self.old.held.kept ≡ None }
        ensures { self.new.held.kept ≡ Some pieces.value }
    {
        let full = LagpageCapture {
            live: true,
            held: Held::of_box(pieces),
        };
        let LagpageCapture {
            live: _,
            held: none,
        } = replace(self, full);
        drop(none);
    }
}
