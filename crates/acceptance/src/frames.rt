// Frames with known figures.
use crate::support::*;
use std::test::Fail;
use study::{Study, Word};
use table::Table;

#[test]
fn two_in_parallel(rt: HostRuntime) -> Result<(), Fail> {
    let mut study = Study::open(rt.alloc(), Table::new(&[1, 1], 1, &[1, 2], &[0, 1, 1, 1]))?;
    enter_usual(&rt, &mut study, 2);
    steps(&rt, &mut study, 4, 4, Word::Finished);
    gives(&rt, &study, 1, 990_000_000, 990_000_000, 2, 1)
}

#[test]
fn four_components(rt: HostRuntime) -> Result<(), Fail> {
    let mut study = Study::open(rt.alloc(), Table::new(&[1; 4], 3, &[1, 2, 3, 4], &FOUR))?;
    enter_usual(&rt, &mut study, 4);
    gives(&rt, &study, 2, 0, 1_000_000_000, 0, 0)?;
    steps(&rt, &mut study, 6, 6, Word::Open);
    gives(&rt, &study, 1, 810_000_000, 990_000_000, 1, 1)?;
    gives(&rt, &study, 3, 0, 1_000_000_000, 0, 0)?;
    steps(&rt, &mut study, 100, 10, Word::Finished);
    gives(&rt, &study, 1, 980_100_000, 990_000_000, 4, 2)?;
    gives(&rt, &study, 2, 941_480_148, 990_000_000, 4, 6)?;
    gives(&rt, &study, 3, 656_100_000, 656_100_000, 1, 4)
}

#[test]
fn three_in_series(rt: HostRuntime) -> Result<(), Fail> {
    let mut study = Study::open(
        rt.alloc(),
        Table::new(&[1; 3], 1, &[1, 2, 3], &[0, 0, 0, 0, 0, 0, 0, 1]),
    )?;
    for component in 1..=3usize {
        assert_eq!(rt; number(study.enter(component, &[333_333_333], &[0])), None);
    }
    steps(&rt, &mut study, 8, 8, Word::Finished);
    gives(&rt, &study, 1, 37_037_036, 1_000_000_000, 1, 3)
}

#[test]
fn three_ranks(rt: HostRuntime) -> Result<(), Fail> {
    let mut study = Study::open(rt.alloc(), Table::new(&[2], 2, &[1], &[0, 1, 2]))?;
    assert_eq!(rt;
        number(study.enter(1, &[900_000_000, 500_000_000], &[50_000_000, 300_000_000])),
        None
    );
    steps(&rt, &mut study, 3, 3, Word::Finished);
    gives(&rt, &study, 1, 900_000_000, 950_000_000, 1, 1)?;
    gives(&rt, &study, 2, 500_000_000, 700_000_000, 1, 1)
}
