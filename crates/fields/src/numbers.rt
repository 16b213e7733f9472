// The values of lines: a number, numbers split by commas, and a table's digits.
// Bytes are taken by slice patterns, the first and the rest: a fixed form of this project, so a loop walks what is left.
ghost use Rattle.std.specs.Prelude.{◌≡◌, ℕ, ◌-◌, ◌&&◌, nat_le, IfOk, if◌then◌else◌, Some, None, vec_items};
ghost use Rattle.fields.specs.Numbers.{digits_in, number_in, numbers_in, levels_in};
ghost use Rattle.std.specs.Option.{option_map};

use crate::cut::cut;
use std::alloc::{AllocError, Global};

/// The digit that a byte from `0` to `last` writes; none where it is another byte.
fn digit(byte: u8, last: u8) -> Option<u8>
    ensures { result ≡ (if nat_le 48 byte && nat_le byte last then Some (byte - 48) else None) }
{
    if byte < b'0' || byte > last {
        None
    } else {
        Some(byte - b'0')
    }
}

/// The number that digits write; none where another byte stands among them or it has more than 32 bits.
#[tactic(auto, using(crate::proofs::Digits::digits_after_least))]
fn digits(text: &[u8]) -> Option<u32>
    ensures { result ≡ digits_in 0 text.now }
{
    let mut left = text;
    let mut value: u32 = 0;
    while let [first, rest @ ..] = left {
        let digit = digit(*first, b'9')?;
        value = value.checked_mul(10)?.checked_add(u32::from(digit))?;
        left = rest;
    }
    Some(value)
}

/// A number of 1 to 10 digits without leading zeros; none where the text is no such number.
pub fn number(text: &[u8]) -> Option<u32>
    ensures { result ≡ number_in text.now }
{
    match text {
        [] | [b'0', _, ..] => None,
        _ if text.len() > 10 => None,
        _ => digits(text),
    }
}

/// Numbers split by commas; none where a piece between commas is no number.
#[tactic(auto, using(crate::proofs::Pieces::pieces_cut))]
pub fn numbers(heap: Global, text: &[u8]) -> Result<Option<Vec<u32>>, AllocError>
    ensures { IfOk result (λ o. option_map vec_items o ≡ numbers_in text.now) }
{
    let mut all = Vec::new(heap);
    let mut left = text;
    while let Some((piece, rest)) = cut(left, b',') {
        let Some(n) = number(piece) else {
            return Ok(None);
        };
        all.push(n)?;
        left = rest;
    }
    let Some(last) = number(left) else {
        return Ok(None);
    };
    all.push(last)?;
    Ok(Some(all))
}

/// The levels that digits from 0 to 7 write; none where another byte stands among them.
pub fn levels(heap: Global, text: &[u8]) -> Result<Option<Vec<u8>>, AllocError>
    ensures { IfOk result (λ o. option_map vec_items o ≡ levels_in text.now) }
{
    let mut all = Vec::new(heap);
    let mut left = text;
    while let [first, rest @ ..] = left {
        let Some(level) = digit(*first, b'7') else {
            return Ok(None);
        };
        all.push(level)?;
        left = rest;
    }
    Ok(Some(all))
}
