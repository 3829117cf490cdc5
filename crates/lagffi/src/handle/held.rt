ghost use Rattle.std.specs.Prelude.{◌≡◌, Option, None, Some, IsTrue, is_some};
ghost use Rattle.lagffi.specs.Owned.{held_owns, kept_coded};
ghost use Rattle.lagffi.specs.declared.stored.Stored.{Stored};

mod block;

use crate::stored::Stored;
pub(crate) use block::Block;
use boxparts::Parts;
use std::alloc::Global;
use std::marker::Model;
use std::ptr::null_mut;

/// The block of what a handle keeps, or none. Its type names neither a system nor a queue, as C has to see it. Only an empty one may
/// be dropped: a block goes by `Block::free`.
#[repr(C)]
pub struct Held {
    ptr: *mut u8,
    alloc: Global,
    pub ghost kept: { Option Stored } by { kept_coded },
}

impl Model for Held {
    ghost also_owns = { λ h. held_owns h.alloc h.ptr h.kept };
}

/// A thread may hand what it holds to another one: the block is memory of the one allocator of the program.
unsafe impl Send for Held {}

impl Drop for Held {
    // promise: each block is freed or kept in a handle, whose flag tells whether it keeps one
    // contract: `drop` of `Held`; `Block`, which has no `drop`; `tells`, `full` of `Lag`
    // not said: that `Box::into_inner`, in `Block::free`, frees: std's `Box` is trusted
    fn drop(self)
        requires { self.kept ≡ None }
    {
        let Held { ptr: _, alloc: _ } = self;
    }
}

impl Held {
    /// No block.
    pub(super) fn none(alloc: Global) -> Held
        ensures { result.kept ≡ None }
    {
        Held {
            ptr: null_mut(),
            alloc,
        }
    }

    /// Holds what is kept.
    fn of_parts(parts: Parts<Stored, Global>) -> Held
        ensures { result.kept ≡ Some parts.value }
    {
        let Parts { ptr, alloc } = parts;
        Held {
            ptr: ptr as *mut u8,
            alloc,
        }
    }

    /// Hands out what it keeps.
    fn into_parts(self) -> Parts<Stored, Global>
        requires { IsTrue (is_some self.kept) }
        ensures { self.kept ≡ Some result.value }
    {
        let Held { ptr, alloc } = self;
        Parts {
            ptr: ptr as *mut Stored,
            alloc,
        }
    }

    /// Holds a block.
    pub(super) fn of_block(block: Block<Stored>) -> Held
        ensures { result.kept ≡ Some block.stored.value }
    {
        Held::of_parts(Parts::of(block.into_box()))
    }

    /// Hands out the block that it holds.
    pub(super) fn into_block(self) -> Block<Stored>
        requires { IsTrue (is_some self.kept) }
        ensures { self.kept ≡ Some result.stored.value }
    {
        Block::of_box(self.into_parts().into_box())
    }
}
