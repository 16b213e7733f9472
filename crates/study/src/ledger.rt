// The plain inner table of a study.
use std::marker::Model;
use tally::{Record, Row};

/// How many records a list may hold.
pub(crate) const MOST_RECORDS: usize = 256;

// What a study holds beside its structure. The tops, the best level and the number of vectors are the structure's, kept
// from the open on, so that only a step asks the structure again. Both lists have room for 256 records from the open on.
// The tops and the rows are two lists, since the tops are lent as one slice, for the order of the vectors, and the rows one by one.
#[derive(Drop)]
pub struct Ledger {
    pub(crate) tops: Vec<u8>,
    pub(crate) best: u8,
    pub(crate) vectors: usize,
    pub(crate) rows: Vec<Row>,
    pub(crate) examined: usize,
    pub(crate) finished: bool,
    pub(crate) paths: Vec<Record>,
    pub(crate) cuts: Vec<Record>,
}

impl Model for Ledger {
    ghost use Rattle.std.specs.Prelude.{◌≡◌, ℕ, ◌<◌, ◌≤◌, vec_len, vec_capacity, slice_index};
    ghost use Rattle.structure.specs.Shape.{vector_count};
    ghost use Rattle.promise.specs.Held.{Held};

    ghost Value = { Held };

    ghost use Rattle.study.specs.Holding.{held};

    ghost view = { held };

    ghost invariant = { λ t. record {
      few : vec_len t.tops ≤ 12;
      low : (k : ℕ) → k < vec_len t.tops → slice_index t.tops.items k ≤ 7;
      counted : t.vectors ≡ vector_count t.tops.items;
      countable : t.vectors ≤ 65536;
      sized : vec_len t.rows ≡ vec_len t.tops;
      seen : t.examined ≤ t.vectors;
      room : (256 ≤ vec_capacity t.paths) × (256 ≤ vec_capacity t.cuts);
      listed : (vec_len t.paths ≤ 256) × (vec_len t.cuts ≤ 256);
    } };
}
