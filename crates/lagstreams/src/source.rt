ghost use Rattle.std.specs.Prelude.{◌≡◌, ◌≤◌, ◌<◌, ◌^◌, ◌-◌, length, take, false, IfOk, OnErr};
ghost use Rattle.std.specs.Io.KnownBytes.{IsAtEnd};
ghost use Rattle.lagstreams.specs.Sources.{Fails, Gives};

use std::io::Read;
use std::marker::Model;

/// The most octets that a source gives in all.
const MOST_OCTETS: u64 = u64::MAX - 1;

/// A reader that remembers whether it failed, and gives at most 2^64 - 2 octets (profile).
#[derive(Drop)]
pub struct Source<R: Read> {
    inner: R,
    failed: bool,
    /// How many octets it may still give.
    left: u64,
}

impl<R: Read> Model for Source<R> {
    ghost use Rattle.std.specs.Prelude.{◌<◌, ◌^◌, ◌-◌};
    ghost use Rattle.lagstreams.specs.Sources.{SourceState};

    ghost Value = { SourceState R };

    ghost view = { λ s. record { reader = s.inner; failed = s.failed; left = s.left } };

    ghost invariant = { λ s. s.left < 2 ^ 64 - 1 };
}

/// The source failed.
#[derive(Clone, Copy, Debug, PartialEq, Eq)]
pub struct ReadFailed;

impl<R: Read> Source<R> {
    // promise: a source gives just what its reader gives, at most 2^64 - 2 octets, and remembers whether it failed: its reader then gave
    //    nothing, or too much
    // contract: `Source::new` (`left`), `read` (`ok`: `Gives`, `Fails`), `failed`
    // not said: that it fails only then: tests
    /// A source that has not failed.
    pub fn new(inner: R) -> Self
        ensures reader { result.reader ≡ inner }
        ensures failed { result.failed ≡ false }
        ensures left { result.left ≡ 2 ^ 64 - 2 }
    {
        Source {
            inner,
            failed: false,
            left: MOST_OCTETS,
        }
    }

    /// Whether a call of the reader failed, or the reader gave more octets than allowed.
    pub fn failed(&self) -> bool
        ensures { result ≡ self.now.failed }
    {
        self.failed
    }

    /// The number of octets that the source may still give is below 2^64 - 1: a fact for proofs. Does nothing when it
    /// runs.
    pub fn is_bounded(&self)
        ensures { self.now.left < 2 ^ 64 - 1 }
    {
        let _left = self.left;
    }

    /// Reads octets to the beginning of `piece`, which has room for at least one, and returns how many; 0 only at the
    /// end. `ReadFailed` if the reader failed, or gave more octets than the source may still give.
    pub fn read(&mut self, piece: &mut [u8]) -> Result<usize, ReadFailed>
        requires { 0 < length piece.old }
        ensures bound { IfOk result (λ n. n ≤ length piece.new) }
        ensures ok { IfOk result (λ n. Gives R.remaining self.old self.new (take n piece.new)) }
        ensures end { IfOk result (λ n. n ≡ 0 → IsAtEnd (R.remaining self.new.reader)) }
        ensures err { OnErr result (Fails R.remaining self.old self.new) }
    {
        match self.inner.read(piece) {
            Ok(n) if n as u64 <= self.left => {
                self.left -= n as u64;
                Ok(n)
            }
            _ => {
                self.failed = true;
                Err(ReadFailed)
            }
        }
    }
}
