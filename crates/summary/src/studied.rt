// A case's study: opened, the shares entered, searched, and asked for every level.
ghost use Rattle.std.specs.Prelude.{◌≡◌, ℕ, ◌≤◌, ◌++◌, map, IfOk, string_bytes, OnOk};
ghost use Rattle.promise.specs.Use.{Use};
ghost use Rattle.promise.specs.Held.{figures_from, levels_to};
ghost use Rattle.promise.specs.Rules.{Lived};
ghost use Rattle.study.specs.Model.{word_of};
ghost use Rattle.casetext.specs.Contents.{rows_of, content_of};
ghost use Rattle.summary.specs.Lines.{search_line, level_lines, all_lines};
ghost use Rattle.summary.specs.Uses.{Enterable, Sound, then_entered, searched_use, use_of};
ghost use Rattle.summary.specs.Reports.{Reported};

use crate::lines::{level_lines, search_line};
use casetext::{Case, Shares};
use std::alloc::{AllocError, Global};
use structure::{MOST_VECTORS, Structure};
use study::{Study, Word};
use table::Table;

// Enters the shares of each component.
fn enter_rows<S: Structure + Drop>(study: &mut Study<S>, rows: &[Shares])
    requires { Enterable study.old.ledger.tops (map rows_of rows.now) }
    ensures lived { (u : Use) → Lived u study.old.ledger → Lived (then_entered u 1 (map rows_of rows.now)) study.new.ledger }
    ensures same { study.new.structure ≡ study.old.structure }
{
    for (i, shares) in rows.iter().enumerate() {
        study.enter(i + 1, &shares.up, &shares.down).unwrap();
    }
}

// A study of the structure with these shares entered, searched to the end, and how its search ended.
fn searched<S: Structure + Drop>(
    heap: Global,
    structure: S,
    rows: &[Shares],
) -> Result<(Study<S>, Word), AllocError>
    requires { Enterable (S.Structure.shape structure).tops (map rows_of rows.now) }
    ensures { IfOk result (λ p. (number : ℕ) × Lived (searched_use (S.Structure.shape structure) (S.Structure.tags structure) (map rows_of rows.now) number (word_of p.1)) p.0.ledger) }
{
    let mut study = Study::open(heap, structure)?;
    enter_rows(&mut study, rows);
    let (_, word) = study.step(MOST_VECTORS);
    Ok((study, word))
}

// The study of a case, searched to the end, and how its search ended.
fn case_study(heap: Global, case: &Case) -> Result<(Study<Table<'_>>, Word), AllocError>
    requires { Sound (content_of case.now) }
    ensures { IfOk result (λ p. (number : ℕ) × Lived (use_of (content_of case.now) number (word_of p.1)) p.0.ledger) }
{
    let table = Table::new(&case.tops, case.best, &case.tags, &case.levels);
    searched(heap, table, &case.rows)
}

// Adds the lines of a level.
fn add_level<S: Structure + Drop>(
    heap: Global,
    out: &mut String,
    study: &Study<S>,
    level: u8,
) -> Result<(), AllocError>
    requires { (1 ≤ level) × (level ≤ study.now.ledger.best) }
    ensures { OnOk result (string_bytes out.new ≡ string_bytes out.old ++ level_lines level (figures_from study.now.ledger level)) }
{
    let figures = study.figures(level).unwrap();
    let lines = level_lines(heap, level, figures)?;
    out.push_str(lines.as_str())
}

// How the search ended, and the figures of the levels from 1 to `best`.
fn study_lines<S: Structure + Drop>(
    heap: Global,
    study: &Study<S>,
    best: u8,
    word: Word,
) -> Result<String, AllocError>
    requires { best ≤ study.now.ledger.best }
    ensures { IfOk result (λ s. string_bytes s ≡ search_line (word_of word) ++ all_lines (figures_from study.now.ledger) (levels_to best)) }
{
    let mut out = search_line(heap, word)?;
    for level in 1..=best {
        add_level(heap, &mut out, study, level)?;
    }
    Ok(out)
}

/// The report of a case.
pub(crate) fn case_lines(heap: Global, case: &Case) -> Result<String, AllocError>
    requires { Sound (content_of case.now) }
    ensures { IfOk result (λ s. Reported (content_of case.now) (string_bytes s)) }
{
    let (study, word) = case_study(heap, case)?;
    study_lines(heap, &study, case.best, word)
}
