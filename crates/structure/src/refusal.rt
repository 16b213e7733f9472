// Why a call refuses, and the number of each refusal.
ghost use Rattle.std.specs.Prelude.{◌≡◌};

/// Every condition under which a call of the engine refuses, in the order of their numbers.
#[derive(Clone, Copy, Debug, PartialEq, Eq)]
pub enum Refusal {
    /// The number of components is outside 1 to 12.
    Components = 10,
    /// Tags, tops or weights are not one for each component.
    Lengths = 11,
    /// A top is outside 1 to 7.
    Tops = 12,
    /// The best level is outside 1 to 7, or two best levels are unequal.
    Best = 13,
    /// There are over 65,536 vectors.
    Vectors = 14,
    /// The table's length is not the number of vectors.
    TableLength = 15,
    /// A level of the table is over the best level, or a weight over 1,000.
    Values = 16,
    /// The all-zero vector has not level 0, or the all-top vector not the best level; of thresholds, the first is 0, or
    /// the last above the all-top sum.
    Ends = 17,
    /// Raising a rank lowers the level, or the thresholds fall.
    Falls = 18,
    /// There is no such component.
    Component = 20,
    /// A row's length, or a module's best level, is not the component's top.
    RowLength = 21,
    /// A share is over the whole.
    OverWhole = 22,
    /// The up row rises, or the down row falls, with rank.
    RowOrder = 23,
    /// An up share and the down share of its rank are over the whole together.
    Excess = 24,
    /// The level is outside 1 to the best level.
    Level = 30,
    /// There is no such record.
    Record = 31,
    /// The lent row is not one rank for each component.
    Room = 32,
    /// The text is over 65,536 bytes.
    TextLength = 39,
    /// The line is absent, or has another key.
    Line = 40,
    /// The value is malformed.
    Value = 41,
    /// There are bytes after the last line.
    Trailing = 42,
}

impl Refusal {
    ghost use Rattle.structure.specs.Refusals.{number_of};

    /// The number by which reports name the refusal.
    pub fn number(&self) -> u8
        ensures { result ≡ number_of self.now }
    {
        *self as u8
    }
}
