ghost use Rattle.std.specs.Prelude.{◌≡◌};
ghost use Rattle.lagtool_jobs.specs.Engines.{status_of};

use crate::fault::ToolFault;

// promise: the status is 0 for accepted input, 1 for input that is not, 2 for a fault
// contract: `status_of`
/// The exit status for the result of a job: 0 accepted, 1 not accepted, 2 it could not be done (profile).
pub fn status_of(accepted: &Result<bool, ToolFault>) -> u8
    ensures { result ≡ status_of accepted.now }
{
    match accepted {
        Ok(true) => 0,
        Ok(false) => 1,
        Err(_) => 2,
    }
}
