// The report of a text.
ghost use Rattle.std.specs.Prelude.{IfOk, string_bytes};
ghost use Rattle.casetext.specs.Case.{reading};
ghost use Rattle.summary.specs.Reports.{Reports};

use crate::lines::fault_lines;
use crate::studied::case_lines;
use casetext::{ReadError, read};
use std::alloc::{AllocError, Global};

/// The report of a case text: how the search ended and the figures of each level, or the text's fault.
pub fn report(heap: Global, text: &[u8]) -> Result<String, AllocError>
    ensures { IfOk result (λ s. Reports (reading text.now) (string_bytes s)) }
{
    match read(heap, text) {
        Ok(case) => case_lines(heap, &case),
        Err(ReadError::Fault(fault)) => fault_lines(heap, fault),
        Err(ReadError::Memory(error)) => Err(error),
    }
}
