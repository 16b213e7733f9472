// What steps examine, and how they end.
use crate::support::*;
use std::test::Fail;
use study::{Study, Word};
use table::Table;

#[test]
fn words_of_steps(rt: HostRuntime) -> Result<(), Fail> {
    let mut study = Study::open(rt.alloc(), Table::new(&[1; 4], 3, &[1, 2, 3, 4], &FOUR))?;
    steps(&rt, &mut study, 0, 0, Word::Open);
    steps(&rt, &mut study, 15, 15, Word::Open);
    steps(&rt, &mut study, 0, 0, Word::Open);
    steps(&rt, &mut study, 1, 1, Word::Finished);
    steps(&rt, &mut study, 0, 0, Word::Finished);
    steps(&rt, &mut study, 7, 0, Word::Finished);
    Ok(())
}

#[test]
fn eleven_end_full(rt: HostRuntime) -> Result<(), Fail> {
    let levels: Vec<u8> = (0..2048u32)
        .map(|v| u8::from(v.count_ones() >= 6))
        .collect(rt.alloc())?;
    let mut study = Study::open(rt.alloc(), Table::new(&[1; 11], 1, &[0; 11], &levels))?;
    let (first, word) = study.step(100_000);
    assert_eq!(rt; word, Word::Full);
    assert!(rt; first < 2048);
    steps(&rt, &mut study, 0, 0, Word::Open);
    steps(&rt, &mut study, 1, 0, Word::Full);
    Ok(())
}
