// Modules carried into components, and every refusal of a carry.
use crate::support::*;
use radio::Radio;
use std::alloc::{AllocError, Global};
use std::process::Abort;
use std::test::Fail;
use structure::Structure;
use study::{Study, Word};
use table::Table;

const SERIES: [u8; 4] = [0, 0, 0, 1];

const PARALLEL: [u8; 4] = [0, 1, 1, 1];

// A study of two components.
fn two<'a>(
    heap: Global,
    tags: &'a [u32],
    levels: &'a [u8],
) -> Result<Study<Table<'a>>, AllocError> {
    Study::open(heap, Table::new(&[1, 1], 1, tags, levels))
}

// Two components in parallel with the usual shares, finished: low and high are 990,000,000.
fn module<'a>(rt: &impl Abort, heap: Global, tags: &'a [u32]) -> Result<Study<Table<'a>>, Fail> {
    let mut study = two(heap, tags, &PARALLEL)?;
    enter_usual(rt, &mut study, 2);
    steps(rt, &mut study, 4, 4, Word::Finished);
    Ok(study)
}

// Checks the number of the refusal that a carry meets, none where it is accepted.
fn carries<S: Structure + Drop, N: Structure + Drop>(
    rt: &impl Abort,
    study: &mut Study<S>,
    refusal: Option<u8>,
    component: usize,
    part: &Study<N>,
) {
    assert_eq!(rt; number(study.carry(component, part)), refusal);
}

#[test]
fn two_modules_in_series(rt: HostRuntime) -> Result<(), Fail> {
    let first = module(&rt, rt.alloc(), &[1, 2])?;
    let second = module(&rt, rt.alloc(), &[3, 4])?;
    let mut study = two(rt.alloc(), &[5, 6], &SERIES)?;
    carries(&rt, &mut study, None, 1, &first);
    carries(&rt, &mut study, None, 2, &second);
    steps(&rt, &mut study, 4, 4, Word::Finished);
    gives(&rt, &study, 1, 980_100_000, 980_100_000, 1, 2)
}

// Both components are one module, so the true share stays 990,000,000 and low is over it: a carry counts what it is
// given as independent. So the promise is made only where no tag lies twice below the study.
#[test]
fn one_module_seen_twice(rt: HostRuntime) -> Result<(), Fail> {
    let part = module(&rt, rt.alloc(), &[1, 2])?;
    let mut study = two(rt.alloc(), &[5, 6], &PARALLEL)?;
    carries(&rt, &mut study, None, 1, &part);
    carries(&rt, &mut study, None, 2, &part);
    steps(&rt, &mut study, 4, 4, Word::Finished);
    gives(&rt, &study, 1, 999_900_000, 999_900_000, 2, 1)
}

#[test]
fn refuses_components_and_bests(rt: HostRuntime) -> Result<(), Fail> {
    let part = Study::open(rt.alloc(), Table::new(&[2], 2, &[9], &[0, 1, 2]))?;
    let other = module(&rt, rt.alloc(), &[3, 4])?;
    let mut study = module(&rt, rt.alloc(), &[1, 2])?;
    carries(&rt, &mut study, Some(20), 0, &other);
    carries(&rt, &mut study, Some(20), 3, &other);
    carries(&rt, &mut study, Some(20), 3, &part);
    carries(&rt, &mut study, Some(21), 1, &part);
    carries(&rt, &mut study, Some(21), 2, &part);
    gives(&rt, &study, 1, 990_000_000, 990_000_000, 2, 1)?;
    carries(&rt, &mut study, None, 2, &other);
    gives(&rt, &study, 1, 999_000_000, 999_000_000, 2, 1)
}

// The radio's low is 669,921,875 for level 1 and 750,000,000 for level 2: the up row would rise.
#[test]
fn refuses_an_up_row_that_rises(rt: HostRuntime) -> Result<(), Fail> {
    let mut radio = Study::open(rt.alloc(), Radio::new([1, 2, 3, 4, 5]))?;
    enter_all(&rt, &mut radio, 5, 500_000_000, 0);
    steps(&rt, &mut radio, 32, 32, Word::Finished);
    let mut study = Study::open(rt.alloc(), Table::new(&[2], 2, &[6], &[0, 1, 2]))?;
    assert_eq!(rt; number(study.enter(1, &[7, 5], &[11, 13])), None);
    steps(&rt, &mut study, 3, 3, Word::Finished);
    carries(&rt, &mut study, Some(20), 2, &radio);
    carries(&rt, &mut study, Some(23), 1, &radio);
    gives(&rt, &study, 1, 7, D - 11, 1, 1)?;
    gives(&rt, &study, 2, 5, D - 13, 1, 1)?;
    let mut narrow = two(rt.alloc(), &[7, 8], &SERIES)?;
    carries(&rt, &mut narrow, Some(21), 1, &radio);
    Ok(())
}

// After one vector the module has a cut record of level 1 and none of level 2: the down row would fall.
#[test]
fn refuses_a_down_row_that_falls(rt: HostRuntime) -> Result<(), Fail> {
    let mut part = Study::open(rt.alloc(), Table::new(&[2], 2, &[1], &[0, 1, 2]))?;
    assert_eq!(rt; number(part.enter(1, &[7, 5], &[11, 13])), None);
    let mut study = Study::open(rt.alloc(), Table::new(&[2], 2, &[2], &[0, 1, 2]))?;
    steps(&rt, &mut study, 3, 3, Word::Finished);
    steps(&rt, &mut part, 1, 1, Word::Open);
    carries(&rt, &mut study, Some(23), 1, &part);
    gives(&rt, &study, 1, 0, D, 1, 1)?;
    steps(&rt, &mut part, 1, 1, Word::Open);
    carries(&rt, &mut study, None, 1, &part);
    gives(&rt, &study, 1, 7, D - 11, 1, 1)?;
    gives(&rt, &study, 2, 0, D - 13, 1, 1)
}

// A carry takes the figures of that moment; an enter or a later carry replaces them.
#[test]
fn a_module_before_its_end(rt: HostRuntime) -> Result<(), Fail> {
    let mut part = two(rt.alloc(), &[1, 2], &PARALLEL)?;
    enter_usual(&rt, &mut part, 2);
    let mut study = Study::open(rt.alloc(), Table::new(&[1], 1, &[3], &[0, 1]))?;
    enter_usual(&rt, &mut study, 1);
    steps(&rt, &mut study, 2, 2, Word::Finished);
    gives(&rt, &study, 1, 900_000_000, 900_000_000, 1, 1)?;
    carries(&rt, &mut study, None, 1, &part);
    gives(&rt, &study, 1, 0, D, 1, 1)?;
    steps(&rt, &mut part, 2, 2, Word::Open);
    gives(&rt, &study, 1, 0, D, 1, 1)?;
    carries(&rt, &mut study, None, 1, &part);
    gives(&rt, &study, 1, 900_000_000, 990_000_000, 1, 1)?;
    assert_eq!(rt; number(study.enter(1, &[3], &[4])), None);
    gives(&rt, &study, 1, 3, D - 4, 1, 1)
}
