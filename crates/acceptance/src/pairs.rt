// Structures joined in series and in parallel.
use crate::support::*;
use feed::Feed;
use pair::{Join, Pair};
use std::alloc::{AllocError, Global};
use std::process::Abort;
use std::test::Fail;
use structure::Structure;
use study::{Study, Word};
use table::Table;

// The smaller and the larger level of the two parts of `joined`, for each vector in number order.
const SMALLER: [u8; 12] = [0, 0, 0, 0, 0, 1, 1, 1, 0, 1, 1, 2];

const LARGER: [u8; 12] = [0, 1, 1, 2, 1, 1, 1, 2, 2, 2, 2, 2];

// One component of three ranks, joined with two of two ranks, of which each that is up adds a level.
fn joined(join: Join) -> Pair<Table<'static>, Table<'static>> {
    let first = Table::new(&[2], 2, &[7], &[0, 1, 2]);
    let second = Table::new(&[1, 1], 2, &[8, 9], &[0, 1, 1, 2]);
    Pair::new(join, first, second)
}

// One component of two ranks.
fn one(tags: &[u32]) -> Table<'_> {
    Table::new(&[1], 1, tags, &[0, 1])
}

// Checks the number of the refusal that a pair meets, none where it is accepted.
fn meets<A: Structure, B: Structure>(rt: &impl Abort, refusal: Option<u8>, first: &A, second: &B) {
    assert_eq!(rt; number(Pair::check(first, second)), refusal);
}

// Checks the levels of three components, of which the last two have two ranks, in number order.
fn has_levels<S: Structure>(rt: &impl Abort, structure: &S, levels: &[u8]) {
    for (number, level) in (0..12u8).zip(levels) {
        let vector = [number / 4, number / 2 % 2, number % 2];
        assert_eq!(rt; structure.level(&vector), Some(*level));
    }
}

// The study of three components like those of `joined`, finished.
fn finished<S: Structure + Drop>(
    rt: &impl Abort,
    heap: Global,
    structure: S,
) -> Result<Study<S>, Fail> {
    let mut study = Study::open(heap, structure)?;
    let up = [900_000_000, 500_000_000];
    let down = [50_000_000, 300_000_000];
    assert_eq!(rt; number(study.enter(1, &up, &down)), None);
    assert_eq!(rt;
        number(study.enter(2, &[900_000_000], &[100_000_000])),
        None
    );
    assert_eq!(rt;
        number(study.enter(3, &[900_000_000], &[100_000_000])),
        None
    );
    steps(rt, &mut study, 12, 12, Word::Finished);
    Ok(study)
}

#[test]
fn answers_from_both_parts(rt: HostRuntime) {
    let pair = joined(Join::Series);
    assert_eq!(rt; pair.components(), 3);
    assert_eq!(rt; pair.best(), 2);
    assert_eq!(rt; pair.vectors(), 12);
    assert_eq!(rt; pair.top(0), None);
    assert_eq!(rt; pair.top(1), Some(2));
    assert_eq!(rt; pair.top(2), Some(1));
    assert_eq!(rt; pair.top(4), None);
    assert_eq!(rt; pair.tag(0), None);
    assert_eq!(rt; pair.tag(1), Some(7));
    assert_eq!(rt; pair.tag(2), Some(8));
    assert_eq!(rt; pair.tag(3), Some(9));
    assert_eq!(rt; pair.tag(4), None);
}

#[test]
fn levels_in_series_and_in_parallel(rt: HostRuntime) {
    has_levels(&rt, &joined(Join::Series), &SMALLER);
    has_levels(&rt, &joined(Join::Parallel), &LARGER);
    assert_eq!(rt; joined(Join::Parallel).level(&[2]), None);
    assert_eq!(rt; joined(Join::Parallel).level(&[2, 1]), None);
    assert_eq!(rt; joined(Join::Parallel).level(&[2, 1, 2]), None);
    assert_eq!(rt; joined(Join::Parallel).level(&[2, 1, 1, 0]), None);
}

#[test]
fn refuses_parts(rt: HostRuntime) {
    let six = Feed::new(&[1; 6], &[0; 6], &[1; 6], &[1]);
    meets(&rt, None, &six, &six);
    meets(
        &rt,
        Some(10),
        &six,
        &Feed::new(&[1; 7], &[0; 7], &[1; 7], &[1]),
    );
    meets(
        &rt,
        Some(10),
        &six,
        &Feed::new(&[1; 7], &[0; 7], &[1; 7], &[1, 2]),
    );
    let three_ranks = Table::new(&[2], 2, &[0], &[0, 1, 2]);
    meets(&rt, Some(13), &six, &three_ranks);
    let large = Feed::new(&[7; 5], &[0; 5], &[1; 5], &[1]);
    meets(&rt, None, &large, &one(&[0]));
    meets(&rt, Some(14), &large, &Feed::new(&[2], &[0], &[1], &[1]));
    meets(&rt, Some(13), &large, &three_ranks);
    meets(
        &rt,
        Some(10),
        &large,
        &Feed::new(&[1; 8], &[0; 8], &[1; 8], &[1]),
    );
}

#[test]
fn a_refused_pair_is_its_first(rt: HostRuntime) {
    let pair = Pair::new(
        Join::Series,
        Table::new(&[2], 2, &[7], &[0, 1, 2]),
        one(&[8]),
    );
    assert_eq!(rt; pair.components(), 1);
    assert_eq!(rt; pair.best(), 2);
    assert_eq!(rt; pair.vectors(), 3);
    assert_eq!(rt; pair.top(1), Some(2));
    assert_eq!(rt; pair.top(2), None);
    assert_eq!(rt; pair.tag(1), Some(7));
    assert_eq!(rt; pair.tag(2), None);
    assert_eq!(rt; pair.level(&[2]), Some(2));
    assert_eq!(rt; pair.level(&[2, 1]), None);
}

#[test]
fn a_pair_is_a_part(rt: HostRuntime) {
    let before = Pair::new(
        Join::Series,
        Pair::new(Join::Parallel, one(&[1]), one(&[2])),
        one(&[3]),
    );
    has_levels(&rt, &before, &[0, 0, 0, 1, 0, 1, 0, 1]);
    assert_eq!(rt; before.tag(2), Some(2));
    assert_eq!(rt; before.tag(3), Some(3));
    let after = Pair::new(
        Join::Series,
        one(&[1]),
        Pair::new(Join::Parallel, one(&[2]), one(&[3])),
    );
    has_levels(&rt, &after, &[0, 0, 0, 0, 0, 1, 1, 1]);
    assert_eq!(rt; after.tag(2), Some(2));
    assert_eq!(rt; after.tag(3), Some(3));
}

#[test]
fn a_series_is_studied_as_its_table(rt: HostRuntime) -> Result<(), Fail> {
    let study = finished(&rt, rt.alloc(), joined(Join::Series))?;
    gives(&rt, &study, 1, 891_000_000, 950_000_000, 2, 2)?;
    gives(&rt, &study, 2, 405_000_000, 567_000_000, 1, 3)?;
    let study = finished(
        &rt,
        rt.alloc(),
        Table::new(&[2, 1, 1], 2, &[7, 8, 9], &SMALLER),
    )?;
    gives(&rt, &study, 1, 891_000_000, 950_000_000, 2, 2)?;
    gives(&rt, &study, 2, 405_000_000, 567_000_000, 1, 3)
}

#[test]
fn a_parallel_is_studied_as_its_table(rt: HostRuntime) -> Result<(), Fail> {
    let study = finished(&rt, rt.alloc(), joined(Join::Parallel))?;
    gives(&rt, &study, 1, 999_000_000, 999_500_000, 3, 1)?;
    gives(&rt, &study, 2, 902_500_000, 943_000_000, 2, 2)?;
    let study = finished(
        &rt,
        rt.alloc(),
        Table::new(&[2, 1, 1], 2, &[7, 8, 9], &LARGER),
    )?;
    gives(&rt, &study, 1, 999_000_000, 999_500_000, 3, 1)?;
    gives(&rt, &study, 2, 902_500_000, 943_000_000, 2, 2)
}
