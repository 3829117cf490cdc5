ghost use Rattle.std.specs.Prelude.{◌≡◌, ◌≤◌, ◌<◌, length, take, true, false, IfOk, OnOk, OnErr};
ghost use Rattle.std.specs.Io.KnownBytes.{Keeps};
ghost use Rattle.lagstreams.specs.Sinks.{WritesPart, Flushes, WritesAndFlushes, WritesWhole};

use std::io::Write;
use std::marker::Model;

/// A writer that remembers whether it failed, and whether its octets were flushed (profile).
#[derive(Drop)]
pub struct Sink<W: Write> {
    inner: W,
    failed: bool,
    /// Whether it accepted octets since it was last flushed.
    unflushed: bool,
}

impl<W: Write> Model for Sink<W> {
    ghost use Rattle.lagstreams.specs.Sinks.{SinkState};

    ghost Value = { SinkState W };

    ghost view = { λ s. record { writer = s.inner; failed = s.failed; unflushed = s.unflushed } };
}

/// The sink did not accept all octets, or could not be flushed.
#[derive(Clone, Copy, Debug, PartialEq, Eq)]
pub struct WriteFailed;

impl<W: Write> Sink<W> {
    // promise: a sink appends all octets or a beginning of them, and remembers whether it failed and whether octets wait for a flush
    // contract: `Sink::new`, `put`, `send`, `flush`, `failed`, `into_inner` (`WritesWhole`, `WritesPart`, `WritesAndFlushes`, `Flushes`)
    // not said: that it fails only if the writer failed or took nothing: tests
    /// A sink that has not failed.
    pub fn new(inner: W) -> Self
        ensures { result ≡ record { writer = inner; failed = false; unflushed = false } }
    {
        Sink {
            inner,
            failed: false,
            unflushed: false,
        }
    }

    /// Whether a call of the writer failed, or the writer accepted none of the octets of a write.
    pub fn failed(&self) -> bool
        ensures { result ≡ self.now.failed }
    {
        self.failed
    }

    /// Returns the writer.
    pub fn into_inner(self) -> W
        ensures { result ≡ self.writer }
    {
        let Sink {
            inner,
            failed: _,
            unflushed: _,
        } = self;
        inner
    }

    /// Writes some of the octets, and returns how many.
    fn put_some(&mut self, octets: &[u8]) -> Result<usize, WriteFailed>
        requires { 0 < length octets.now }
        ensures some { IfOk result (λ n. (0 < n) × (n ≤ length octets.now)) }
        ensures ok { IfOk result (λ n. WritesWhole W.contents self.old self.new (take n octets.now)) }
        ensures unflushed { OnOk result (self.new.unflushed ≡ true) }
        ensures err { OnErr result (Keeps (W.contents self.old.writer) (W.contents self.new.writer) × (self.new.failed ≡ true)) }
    {
        match self.inner.write(octets) {
            Ok(n) if n > 0 => {
                self.unflushed = true;
                Ok(n)
            }
            _ => {
                self.failed = true;
                Err(WriteFailed)
            }
        }
    }

    /// Writes all of the octets. `WriteFailed` if a call of the writer failed, or it accepted none of the octets of a write;
    /// then a beginning of them is written.
    pub fn put(&mut self, octets: &[u8]) -> Result<(), WriteFailed>
        ensures ok { OnOk result (WritesWhole W.contents self.old self.new octets.now) }
        ensures err { OnErr result (WritesPart W.contents self.old self.new octets.now) }
    {
        let mut rest = octets;
        while !rest.is_empty() {
            let n = self.put_some(rest)?;
            rest = &rest[n..];
        }
        Ok(())
    }

    /// Flushes the writer. `WriteFailed` if that failed.
    pub fn flush(&mut self) -> Result<(), WriteFailed>
        ensures ok { OnOk result (Flushes W.contents self.old self.new) }
        ensures err { OnErr result (Keeps (W.contents self.old.writer) (W.contents self.new.writer) × (self.new.failed ≡ true)) }
    {
        if self.inner.flush().is_err() {
            self.failed = true;
            return Err(WriteFailed);
        }
        self.unflushed = false;
        Ok(())
    }

    /// Writes and flushes all of the octets. `WriteFailed` as for `put` and `flush`; then a beginning of them is written.
    pub fn send(&mut self, octets: &[u8]) -> Result<(), WriteFailed>
        ensures ok { OnOk result (WritesAndFlushes W.contents self.old self.new octets.now) }
        ensures flushed { OnOk result (self.new.unflushed ≡ false) }
        ensures err { OnErr result (WritesPart W.contents self.old self.new octets.now) }
    {
        self.put(octets)?;
        self.flush()?;
        Ok(())
    }
}
