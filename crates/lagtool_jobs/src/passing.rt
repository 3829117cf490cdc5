ghost use Rattle.std.specs.Prelude.{◌≡◌, ◌++◌, false, IfOk, OnOk, length, string_bytes};
ghost use Rattle.lagtool_jobs.specs.Vectors.{RunsVectors, failures, vector_line, vector_lines_from, vectors_text};

use crate::expectation::{Expectation, all_met};
use crate::fault::ToolFault;
use crate::known_texts::VECTORS;
use crate::summary::Summary;
use lagstreams::Sink;
use std::alloc::{AllocError, Global};
use std::io::Write;

/// Which of the vectors pass, in order.
fn passed(alloc: Global, vectors: &[&[Expectation<'_>]]) -> Result<Vec<bool>, AllocError>
    ensures { IfOk result (λ passed. length passed.items ≡ length vectors.now) }
{
    let mut passed = Vec::new(alloc);
    for vector in vectors {
        let pass = all_met(alloc, *vector)?;
        passed.push(pass)?;
    }
    Ok(passed)
}

/// How many fail.
fn failures(passed: &[bool]) -> usize
    ensures { result ≡ failures passed.now }
{
    passed.iter().filter(|pass| !**pass).count()
}

/// The line of a vector.
fn push_vector_line(text: &mut String, number: usize, pass: bool) -> Result<(), AllocError>
    ensures { OnOk result (string_bytes text.new ≡ string_bytes text.old ++ vector_line number pass) }
{
    if pass {
        write!(text, "V{number} ok\n")
    } else {
        write!(text, "V{number} failed\n")
    }
}

/// Adds a line for each vector.
fn push_vector_lines(text: &mut String, passed: &[bool]) -> Result<(), AllocError>
    ensures { OnOk result (string_bytes text.new ≡ string_bytes text.old ++ vector_lines_from 1 passed.now) }
{
    for (index, pass) in passed.iter().enumerate() {
        push_vector_line(text, index + 1, *pass)?;
    }
    Ok(())
}

/// A line for each vector, and then the counts.
fn vectors_text(alloc: Global, passed: &[bool], failed: usize) -> Result<String, AllocError>
    requires { failed ≡ failures passed.now }
    ensures { IfOk result (λ text. string_bytes text ≡ vectors_text passed.now) }
{
    let mut text = String::new(alloc);
    push_vector_lines(&mut text, passed)?;
    let count = passed.len();
    write!(text, "vectors {count} failed {failed}\n")?;
    Ok(text)
}

/// Runs these vectors, a list of expectations each. Writes for each whether all of them are met, and then how many there are and
/// how many failed.
///
/// `NoMemory` if memory is refused; then nothing is written. `Write` if the sink failed in this call; then nothing or a
/// beginning of the text is written (profile).
pub fn run_vectors<W: Write>(
    alloc: Global,
    vectors: &[&[Expectation<'_>]],
    sink: &mut Sink<W>,
) -> Result<Summary, ToolFault>
    requires { sink.old.failed ≡ false }
    ensures { RunsVectors W.contents (length vectors.now) sink.old sink.new result }
{
    let passed = passed(alloc, vectors)?;
    let failed = failures(&passed);
    let text = vectors_text(alloc, &passed, failed)?;
    sink.put(text.as_bytes())?;
    Ok(Summary {
        checked: vectors.len() as u64,
        faults: failed as u64,
    })
}

// promise: `vectors` writes a line for each of ten answers, and their counts
// contract: `vectors`, `run_vectors` (`RunsVectors`)
// not said: that the answers come from the vectors: tests
/// Runs the ten known vectors, V1 to V10 (profile), as `run_vectors` does.
///
/// `NoMemory` if memory is refused; then nothing is written. `Write` if the sink failed in this call; then nothing or a
/// beginning of the text is written.
pub fn vectors<W: Write>(alloc: Global, sink: &mut Sink<W>) -> Result<Summary, ToolFault>
    requires { sink.old.failed ≡ false }
    ensures { RunsVectors W.contents 10 sink.old sink.new result }
{
    run_vectors(alloc, &VECTORS, sink)
}
