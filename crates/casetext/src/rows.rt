// The rows of the components, two lines for each.
ghost use Rattle.std.specs.Prelude.{◌≡◌, ℕ, ◌≤◌, List, map, length, IfOk, vec_items};
ghost use Rattle.fields.specs.Results.{Reads, with_rest};
ghost use Rattle.casetext.specs.Case.{row_line, rows_lines, all_rows};
ghost use Rattle.casetext.specs.Contents.{rows_of};

use crate::case::Shares;
use fields::{ReadError, keyed};
use std::alloc::{AllocError, Global};
use tally::check_rows;

// The same numbers in 64 bits.
fn wide(heap: Global, numbers: &[u32]) -> Result<Vec<u64>, AllocError>
    ensures { IfOk result (λ v. v.items ≡ numbers.now) }
{
    numbers.iter().map(|n| u64::from(*n)).collect(heap)
}

// The numbers of the line that begins with `key`.
fn row<'a>(
    heap: Global,
    text: &'a [u8],
    key: &[u8],
    line: usize,
) -> Result<(Vec<u64>, &'a [u8]), ReadError>
    ensures { Reads (with_rest vec_items) result (row_line line key.now text.now) }
{
    let (value, rest) = keyed(text, key, line)?;
    let numbers = value.list(heap)?;
    let row = wide(heap, &numbers)?;
    Ok((row, rest))
}

// The shares of a component with this top, on two lines.
fn shares(heap: Global, text: &[u8], line: usize, top: u8) -> Result<(Shares, &[u8]), ReadError>
    requires { line ≤ 30 }
    ensures { Reads (with_rest rows_of) result (rows_lines line top text.now) }
{
    let (up, rest) = row(heap, text, b"up=", line)?;
    let line = line + 1;
    let (down, rest) = row(heap, rest, b"down=", line)?;
    check_rows(top, &up, &down).map_err(|refusal| ReadError::at(line, refusal))?;
    Ok((Shares { up, down }, rest))
}

/// The shares of the components with these tops, from line 6 on.
pub fn rows<'a>(
    heap: Global,
    text: &'a [u8],
    tops: &[u8],
) -> Result<(Vec<Shares>, &'a [u8]), ReadError>
    requires { length tops.now ≤ 12 }
    ensures { Reads (with_rest (λ all. map rows_of all.items)) result (all_rows 6 tops.now text.now) }
{
    let mut all = Vec::new(heap);
    let mut left = text;
    for (i, top) in tops.iter().enumerate() {
        let (shares, rest) = shares(heap, left, 6 + 2 * i, *top)?;
        all.push(shares)?;
        left = rest;
    }
    Ok((all, left))
}
