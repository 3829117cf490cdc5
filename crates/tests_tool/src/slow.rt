ghost use Rattle.std.specs.Prelude.{◌≡◌, false};

use lagstreams::Sink;
use std::alloc::Global;
use std::io;
use std::io::Write;

/// A writer that accepts one octet at a time while it has room, and then none, or returns an error.
#[derive(Drop)]
pub(crate) struct Slow {
    pub taken: Vec<u8>,
    room: usize,
    errs: bool,
}

impl Write for Slow {
    fn write(&mut self, buf: &[u8]) -> io::Result<usize> {
        if self.taken.len() < self.room && !buf.is_empty() {
            self.taken.push(buf[0])?;
            Ok(1)
        } else if self.errs {
            Err(io::Error::from(io::ErrorKind::BrokenPipe))
        } else {
            Ok(0)
        }
    }

    fn flush(&mut self) -> io::Result<()> {
        Ok(())
    }
}

/// A sink with room for this many octets.
pub(crate) fn sink_of(alloc: Global, room: usize, errs: bool) -> Sink<Slow>
    ensures { result.failed ≡ false }
{
    let taken = Vec::new(alloc);
    Sink::new(Slow { taken, room, errs })
}
