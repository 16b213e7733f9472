// Every refusal of a study, on both sides of its edge; a refusal leaves the study as it was.
use crate::support::*;
use std::process::Abort;
use std::test::Fail;
use structure::Structure;
use study::{Study, Word};
use table::Table;

fn enters<S: Structure + Drop>(
    rt: &impl Abort,
    study: &mut Study<S>,
    refusal: Option<u8>,
    component: usize,
    up: &[u64],
    down: &[u64],
) {
    assert_eq!(rt; number(study.enter(component, up, down)), refusal);
}

#[test]
fn refuses_components_and_lengths(rt: HostRuntime) -> Result<(), Fail> {
    let mut study = Study::open(rt.alloc(), Table::new(&[2], 2, &[1], &[0, 1, 2]))?;
    enters(&rt, &mut study, Some(20), 0, &[0, 0], &[0, 0]);
    enters(&rt, &mut study, Some(20), 2, &[], &[D + 1]);
    enters(&rt, &mut study, None, 1, &[0, 0], &[0, 0]);
    enters(&rt, &mut study, Some(21), 1, &[0], &[0, 0]);
    enters(&rt, &mut study, Some(21), 1, &[0, 0], &[0, 0, D + 1]);
    Ok(())
}

#[test]
fn refuses_shares(rt: HostRuntime) -> Result<(), Fail> {
    let mut study = Study::open(rt.alloc(), Table::new(&[2], 2, &[1], &[0, 1, 2]))?;
    enters(&rt, &mut study, None, 1, &[D, 0], &[0, D]);
    enters(&rt, &mut study, Some(22), 1, &[D + 1, 0], &[0, 0]);
    enters(&rt, &mut study, Some(22), 1, &[0, 1], &[0, D + 1]);
    enters(&rt, &mut study, None, 1, &[5, 5], &[7, 7]);
    enters(&rt, &mut study, Some(23), 1, &[5, 6], &[0, D]);
    enters(&rt, &mut study, Some(23), 1, &[5, 5], &[7, 6]);
    enters(
        &rt,
        &mut study,
        None,
        1,
        &[600_000_000, 0],
        &[400_000_000, D],
    );
    enters(
        &rt,
        &mut study,
        Some(24),
        1,
        &[600_000_000, 0],
        &[400_000_001, D],
    );
    enters(
        &rt,
        &mut study,
        Some(24),
        1,
        &[600_000_000, 1],
        &[400_000_000, D],
    );
    Ok(())
}

#[test]
fn a_refusal_leaves_the_rows(rt: HostRuntime) -> Result<(), Fail> {
    let mut study = Study::open(rt.alloc(), Table::new(&[1, 1], 1, &[1, 2], &[0, 1, 1, 1]))?;
    enter_usual(&rt, &mut study, 2);
    steps(&rt, &mut study, 9, 4, Word::Finished);
    enters(&rt, &mut study, Some(24), 1, &[D], &[1]);
    gives(&rt, &study, 1, 990_000_000, 990_000_000, 2, 1)
}

#[test]
fn refuses_levels(rt: HostRuntime) -> Result<(), Fail> {
    let study = Study::open(rt.alloc(), Table::new(&[2], 2, &[1], &[0, 1, 2]))?;
    assert!(rt; study.figures(0).is_err());
    assert!(rt; study.figures(1).is_ok());
    assert!(rt; study.figures(2).is_ok());
    assert!(rt; study.figures(3).is_err());
    Ok(())
}
