// A component's two rows of shares.
use share::Share;
use std::marker::Model;

/// The shares of a component for the ranks from 1 to its top: up, that it stays at the rank or higher; down, that it
/// stays below it.
// Fixed arrays, since no call of a study after its open asks for memory; one top for both, so that no fact ties two lengths.
#[derive(Clone, Copy)]
pub struct Row {
    pub(crate) top: usize,
    pub(crate) up: [Share; 7],
    pub(crate) down: [Share; 7],
}

// A model of all fields and no ghost field: a plain struct of shares, which have a model, gets no proof at `?` and `push`.
impl Model for Row {
    ghost use Rattle.std.specs.Prelude.{◌≤◌};
    ghost use Rattle.tally.specs.Places.{Places};

    ghost Value = { Places };

    ghost use Rattle.tally.specs.Kept.{kept};

    ghost view = { kept };

    ghost invariant = { λ r. r.top ≤ 7 };

    ghost inverse = { λ p. record { top = p.top; up = p.up; down = p.down } };
}
