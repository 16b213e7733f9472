// Frames that several tests study.
use share::Share;
use std::alloc::{AllocError, Global};
use std::process::Abort;
use std::test::Fail;
use structure::{Refusal, Structure};
use study::{Study, Word};
use table::Table;

/// The whole, in billionths.
pub(crate) const D: u64 = 1_000_000_000;

pub(crate) const FOUR: [u8; 16] = [0, 0, 0, 0, 0, 1, 1, 2, 0, 1, 1, 2, 0, 2, 2, 3];

/// The number of the refusal that a call meets; none where it is accepted.
pub(crate) fn number(res: Result<(), Refusal>) -> Option<u8> {
    res.err().map(|refusal| refusal.number())
}

/// Enters this up and this down share for each of the first n components, of two ranks each.
pub(crate) fn enter_all<S: Structure + Drop>(
    rt: &impl Abort,
    study: &mut Study<S>,
    n: usize,
    up: u64,
    down: u64,
) {
    for component in 1..=n {
        assert_eq!(rt; number(study.enter(component, &[up], &[down])), None);
    }
}

/// Enters up 900,000,000 and down 100,000,000 for each of the first n components.
pub(crate) fn enter_usual<S: Structure + Drop>(rt: &impl Abort, study: &mut Study<S>, n: usize) {
    enter_all(rt, study, n, 900_000_000, 100_000_000);
}

/// Checks what a step examines and how it ends.
pub(crate) fn steps<S: Structure + Drop>(
    rt: &impl Abort,
    study: &mut Study<S>,
    budget: usize,
    examined: usize,
    word: Word,
) {
    let (count, ended) = study.step(budget);
    assert_eq!(rt; count, examined);
    assert_eq!(rt; ended, word);
}

/// Checks a level's figures and record counts.
pub(crate) fn gives<S: Structure + Drop>(
    rt: &impl Abort,
    study: &Study<S>,
    level: u8,
    low: u64,
    high: u64,
    paths: usize,
    cuts: usize,
) -> Result<(), Fail> {
    let figures = study.figures(level)?;
    let (l, h, p, c) = figures;
    assert_eq!(rt; l.billionths(), low);
    assert_eq!(rt; h.billionths(), high);
    assert_eq!(rt; p, paths);
    assert_eq!(rt; c, cuts);
    Ok(())
}
