ghost use Rattle.std.specs.Prelude.{◌≡◌, IfOk};
ghost use Rattle.std.specs.Borrow.{sem};
ghost use Rattle.lagffi.specs.Lending.{LendsKept};

use std::alloc::Global;

/// A block of memory and what it keeps. It has no `drop`, so that it is freed or kept in a handle. Its box is private, and `T` need not be
/// `Drop`, so that no body lets go of the box with what it keeps in it.
pub(crate) struct Block<T> {
    stored: Box<T, Global>,
}

impl<T> Block<T> {
    /// A block that keeps this, which is handed back if memory is refused.
    pub(crate) fn new(alloc: Global, kept: T) -> Result<Block<T>, T>
        ensures { IfOk result (λ block. block.stored.value ≡ kept) }
    {
        match Box::new(alloc, kept) {
            Ok(stored) => Ok(Block { stored }),
            Err(refused) => Err(refused.value),
        }
    }

    /// Frees the block, and hands out what it keeps.
    pub(crate) fn free(self) -> T
        ensures { result ≡ self.stored.value }
    {
        let Block { stored } = self;
        Box::into_inner(stored)
    }

    /// What it keeps.
    pub(crate) fn kept(&self) -> &T
        ensures { result.now ≡ self.now.stored.value }
    {
        self.stored.as_ref()
    }

    /// What it keeps, to be changed.
    pub(crate) fn kept_mut(&mut self) -> &mut T
        ensures* writes_back { sem 𝓛 (LendsKept T.row self.entry result) }
        ensures value { result.now ≡ self.old.stored.value }
    {
        self.stored.as_mut()
    }

    /// A block that was in a handle.
    pub(super) fn of_box(stored: Box<T, Global>) -> Block<T>
        ensures { result.stored ≡ stored }
    {
        Block { stored }
    }

    /// Its box, for a handle.
    pub(super) fn into_box(self) -> Box<T, Global>
        ensures { result ≡ self.stored }
    {
        let Block { stored } = self;
        stored
    }
}
