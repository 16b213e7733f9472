// How a step ended.
ghost use Rattle.std.specs.Prelude.{Some};
ghost use Rattle.study.specs.Model.{word_of};
ghost use Rattle.study.specs.Words.{word_text};

use std::fmt;

/// The word that a step answers: no vector is left, it stopped before a vector that needs a record in a full list, or
/// neither.
#[derive(Clone, Copy, Debug, PartialEq, Eq)]
pub enum Word {
    Finished,
    Full,
    Open,
}

impl fmt::Display for Word {
    ghost output = { λ word. Some (word_text (word_of word)) };

    fn fmt<W: fmt::Write>(&self, f: &mut fmt::Formatter<W>) -> fmt::Result {
        f.write_str(match self {
            Word::Finished => "finished",
            Word::Full => "full",
            Word::Open => "open",
        })
    }
}
