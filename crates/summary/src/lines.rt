// The lines of a report.
ghost use Rattle.std.specs.Prelude.{◌≡◌, IfOk, string_bytes};
ghost use Rattle.structure.specs.Refusals.{number_of};
ghost use Rattle.study.specs.Model.{word_of, figures_in};
ghost use Rattle.summary.specs.Lines.{fault_lines, search_line, level_lines};

use casetext::Fault;
use share::Share;
use std::alloc::{AllocError, Global};
use study::Word;

/// What is wrong with a text, and the line where reading stopped.
pub(crate) fn fault_lines(heap: Global, fault: Fault) -> Result<String, AllocError>
    ensures { IfOk result (λ s. string_bytes s ≡ fault_lines (number_of fault.refusal) fault.line) }
{
    let number = fault.refusal.number();
    let line = fault.line;
    format!(in heap; "fault={number}\nline={line}\n")
}

/// How the search ended.
pub(crate) fn search_line(heap: Global, word: Word) -> Result<String, AllocError>
    ensures { IfOk result (λ s. string_bytes s ≡ search_line (word_of word)) }
{
    format!(in heap; "search={word}\n")
}

/// The figures of a level, with its path and cut records counted.
pub(crate) fn level_lines(
    heap: Global,
    level: u8,
    figures: (Share, Share, usize, usize),
) -> Result<String, AllocError>
    ensures { IfOk result (λ s. string_bytes s ≡ level_lines level (figures_in figures)) }
{
    let (low, high, paths, cuts) = figures;
    let (low, high) = (low.billionths(), high.billionths());
    format!(in heap; "level={level}\nlow={low}\nhigh={high}\npaths={paths}\ncuts={cuts}\n")
}
