ghost use Rattle.std.specs.Prelude.{IfOk};
ghost use Rattle.lagpage.specs.Answers.{Answers};
ghost use Rattle.lagpage.specs.Words.{TellsVectors};

use crate::answer::{Answer, answered};
use crate::told::{Told, make_told};
use lagstreams::Sink;
use lagtool_jobs::vectors;
use std::alloc::{AllocError, Global};

/// What `lagtool vectors` tells. `AllocError` if memory is refused: nothing else fails in memory.
fn told_of_vectors(alloc: Global) -> Result<Told, AllocError>
    ensures { IfOk result (λ t. TellsVectors t) }
{
    let mut sink = Sink::new(Vec::new(alloc));
    match vectors(alloc, &mut sink) {
        Ok(summary) => make_told(
            sink.into_inner(),
            b"",
            if summary.faults == 0 { 0 } else { 1 },
        ),
        Err(_) => Err(AllocError),
    }
}

/// Runs the ten known vectors as `lagtool vectors` does. It writes what is printed at the front of `out`.
#[unsafe(no_mangle)]
pub extern "C" fn lagpage_vectors(alloc: Global, out: &mut [u8], answer: &mut Answer)
    ensures { Answers (λ t. TellsVectors t) out.old out.new answer.new }
{
    let told = told_of_vectors(alloc);
    *answer = answered(&told, out);
}
