ghost use Rattle.std.specs.Prelude.{IfOk};
ghost use Rattle.lagpage.specs.Answers.{Tells};

use std::alloc::AllocError;

/// What `lagtool` prints for a job, what it says on standard error, and its exit status.
#[derive(Drop)]
pub(crate) struct Told {
    /// What is printed, and behind it what is said.
    pub(crate) octets: Vec<u8>,
    /// How many of the octets are printed.
    pub(crate) printed: usize,
    /// The exit status.
    pub(crate) status: u32,
}

/// Puts what is said behind what is printed. `AllocError` if memory is refused.
pub(crate) fn make_told(printed: Vec<u8>, said: &[u8], status: u32) -> Result<Told, AllocError>
    ensures { IfOk result (λ t. Tells status printed.items said.now t) }
{
    let mut octets = printed;
    let count = octets.len();
    octets.extend_from_slice(said)?;
    Ok(Told {
        octets,
        printed: count,
        status,
    })
}
