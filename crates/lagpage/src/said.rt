ghost use Rattle.std.specs.Prelude.{◌≡◌, IfOk, IfSome, List, codes, string_bytes, ℕ};
ghost use Rattle.lagtool_jobs.specs.Texts.{fault_with_file_text};
ghost use Rattle.lagpage.specs.Scripts.{script_name, two_lines};

use lagtool_jobs::{FaultText, ToolFault};
use std::alloc::{AllocError, Global};

/// What a script is called in what is said of it.
pub(crate) const SCRIPT: &str = "script";

/// What is said of a fault: its line, and a second line that says more. `AllocError` if memory is refused.
pub(crate) fn said_of_fault(
    alloc: Global,
    fault: ToolFault,
    more: &str,
) -> Result<String, AllocError>
    ensures lines { IfOk result (λ said. (first : List ℕ) × (string_bytes said ≡ two_lines first more.now)) }
    ensures known { IfSome (fault_with_file_text fault script_name) (λ first. IfOk result (λ said. string_bytes said ≡ two_lines first more.now)) }
{
    let mut said = format!(in alloc;
        "{}",
        FaultText {
            fault,
            file: SCRIPT
        }
    )?;
    said.push_str("\n")?;
    said.push_str(more)?;
    Ok(said)
}
