ghost use Rattle.std.specs.Prelude.{◌≡◌, IsTrue, None, Option, Some, is_some};
ghost use Rattle.lagpage.specs.Owned.{held_owns, kept_coded};
ghost use Rattle.lagpage.specs.declared.pieces.Pieces.{Pieces};

use crate::pieces::Pieces;
use boxparts::Parts;
use std::alloc::Global;
use std::marker::Model;
use std::ptr::null_mut;

/// The block of a capture in pieces, or none. Its type names no reading, as the host has to see it. Only an empty one may be dropped.
#[repr(C)]
pub struct Held {
    ptr: *mut u8,
    alloc: Global,
    pub ghost kept: { Option Pieces } by { kept_coded },
}

impl Model for Held {
    ghost also_owns = { λ h. held_owns h.alloc h.ptr h.kept };
}

impl Drop for Held {
    fn drop(self)
        requires { self.kept ≡ None }
    {
        let Held { ptr: _, alloc: _ } = self;
    }
}

impl Held {
    /// No block.
    pub(super) fn none(alloc: Global) -> Held
        ensures { result.kept ≡ None }
    {
        Held {
            ptr: null_mut(),
            alloc,
        }
    }

    /// Holds what is kept.
    fn of_parts(parts: Parts<Pieces, Global>) -> Held
        ensures { result.kept ≡ Some parts.value }
    {
        let Parts { ptr, alloc } = parts;
        Held {
            ptr: ptr as *mut u8,
            alloc,
        }
    }

    /// Hands out what it keeps.
    fn into_parts(self) -> Parts<Pieces, Global>
        requires { IsTrue (is_some self.kept) }
        ensures { self.kept ≡ Some result.value }
    {
        let Held { ptr, alloc } = self;
        Parts {
            ptr: ptr as *mut Pieces,
            alloc,
        }
    }

    /// Holds a box.
    pub(super) fn of_box(pieces: Box<Pieces, Global>) -> Held
        ensures { result.kept ≡ Some pieces.value }
    {
        Held::of_parts(Parts::of(pieces))
    }

    /// Hands out the box that it holds.
    pub(super) fn into_box(self) -> Box<Pieces, Global>
        requires { IsTrue (is_some self.kept) }
        ensures { self.kept ≡ Some result.value }
    {
        self.into_parts().into_box()
    }
}
