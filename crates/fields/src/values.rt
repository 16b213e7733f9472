// The steps of a line: its value by its key, and what the value is.
ghost use Rattle.std.specs.Prelude.{◌≡◌, ℕ, List, IfOk, vec_items};
ghost use Rattle.fields.specs.Numbers.{number_in, numbers_in, levels_in};
ghost use Rattle.fields.specs.Lines.{line_with};
ghost use Rattle.fields.specs.Readings.{at_line, or_refuse};
ghost use Rattle.fields.specs.Results.{Reads, with_rest};

use crate::fault::ReadError;
use crate::line::line as value_and_rest;
use crate::numbers;
use std::alloc::Global;
use structure::Refusal;

/// What follows the key on a line, and the number of the line.
#[derive(Clone, Copy, Debug)]
pub struct Value<'a> {
    pub text: &'a [u8],
    pub line: usize,
}

/// The value of the line that begins with `key`, and the text after it.
// A pair: a reader that changes in place would have to say in each contract what it is after a fault.
pub fn keyed<'a>(
    text: &'a [u8],
    key: &[u8],
    line: usize,
) -> Result<(Value<'a>, &'a [u8]), ReadError>
    ensures reads { Reads (with_rest (λ value. value.text.now)) result (at_line line (or_refuse 40 (line_with key.now text.now))) }
    ensures line { IfOk result (λ p. p.0.line ≡ line) }
{
    let (value, rest) = value_and_rest(text, key).ok_or(ReadError::at(line, Refusal::Line))?;
    Ok((Value { text: value, line }, rest))
}

impl<'a> Value<'a> {
    /// The number that the value is.
    pub fn number(&self) -> Result<u32, ReadError>
        ensures { Reads (λ n. n) result (at_line self.now.line (or_refuse 41 (number_in self.now.text.now))) }
    {
        numbers::number(self.text).ok_or(self.refused(Refusal::Value))
    }

    // `list` and `levels` differ in what they read alone: one function over both would be handed the reading.
    /// The list of numbers that the value is.
    pub fn list(&self, heap: Global) -> Result<Vec<u32>, ReadError>
        ensures { Reads vec_items result (at_line self.now.line (or_refuse 41 (numbers_in self.now.text.now))) }
    {
        numbers::numbers(heap, self.text)?.ok_or(self.refused(Refusal::Value))
    }

    /// The levels that the value is.
    pub fn levels(&self, heap: Global) -> Result<Vec<u8>, ReadError>
        ensures { Reads vec_items result (at_line self.now.line (or_refuse 41 (levels_in self.now.text.now))) }
    {
        numbers::levels(heap, self.text)?.ok_or(self.refused(Refusal::Value))
    }

    /// The fault of its line.
    pub fn refused(&self, refusal: Refusal) -> ReadError
        ensures { result ≡ ReadError.Fault (record { refusal = refusal; line = self.now.line }) }
    {
        ReadError::at(self.line, refusal)
    }
}
