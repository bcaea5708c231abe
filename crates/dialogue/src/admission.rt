// Bytes that are to be a map, looked at before the first line.
ghost use Rattle.std.specs.Prelude.{◌≡◌, IfOk, string_bytes};
ghost use Rattle.maps.specs.Checks.{map_fault};
ghost use Rattle.dialogue.specs.Admissions.{checked, at_line_0, Admitted};

use crate::fault::{Cause, ConsoleFault, print_fault};
use maps::map::Map;
use std::alloc::AllocError;

// Are the bytes a map? The map's fault as a cause.
fn check_bytes(bytes: &[u8]) -> Result<(), Cause>
    ensures { result ≡ checked (map_fault bytes.now) }
{
    Map::check(bytes)?;
    Ok(())
}

// Are the bytes a map? Their fault belongs to line 0.
pub fn check_map(bytes: &[u8]) -> Result<(), ConsoleFault>
    ensures { result ≡ at_line_0 (map_fault bytes.now) }
{
    check_bytes(bytes).map_err(|cause| ConsoleFault { line: 0, cause })
}

// Answers whether the bytes are a map, and adds the refusal where they are none.
// Stays a bool: the refusal has been printed, and the error is want of memory alone.
pub fn admit_map(bytes: &[u8], out: &mut String) -> Result<bool, AllocError>
    ensures { IfOk result (λ b. Admitted (map_fault bytes.now) b (string_bytes out.old) (string_bytes out.new)) }
{
    match check_map(bytes) {
        Ok(()) => Ok(true),
        Err(fault) => {
            print_fault(out, fault)?;
            Ok(false)
        }
    }
}
