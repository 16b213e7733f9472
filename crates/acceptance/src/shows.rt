// Records shown, and every refusal of a show.
use crate::support::*;
use std::alloc::{AllocError, Global};
use std::process::Abort;
use std::test::Fail;
use structure::Structure;
use study::{Side, Study, Word};
use table::Table;

// The frame of four components, with no vector examined.
fn four(heap: Global) -> Result<Study<Table<'static>>, AllocError> {
    Study::open(heap, Table::new(&[1; 4], 3, &[1, 2, 3, 4], &FOUR))
}

// Checks a record's vector and its first and last level.
fn shows<S: Structure + Drop>(
    rt: &impl Abort,
    study: &Study<S>,
    side: Side,
    number: usize,
    vector: [u8; 4],
    levels: (u8, u8),
) {
    let mut row = [9; 4];
    let shown = study.show(side, number, &mut row).ok();
    assert_eq!(rt; shown, Some(levels));
    assert_eq!(rt; row, vector);
}

// Checks the number of the refusal that a show meets, and that it leaves a row of nines.
fn refuses<S: Structure + Drop>(
    rt: &impl Abort,
    study: &Study<S>,
    refusal: u8,
    side: Side,
    number: usize,
    row: &mut [u8],
) {
    let met = study.show(side, number, row).err();
    assert_eq!(rt; met.map(|met| met.number()), Some(refusal));
    for rank in row.iter() {
        assert_eq!(rt; *rank, 9);
    }
}

#[test]
fn the_ends_of_both_lists(rt: HostRuntime) -> Result<(), Fail> {
    let mut study = four(rt.alloc())?;
    steps(&rt, &mut study, 16, 16, Word::Finished);
    shows(&rt, &study, Side::Paths, 1, [0, 1, 0, 1], (1, 1));
    shows(&rt, &study, Side::Paths, 9, [1, 1, 1, 1], (3, 3));
    shows(&rt, &study, Side::Cuts, 1, [0, 0, 1, 1], (1, 2));
    shows(&rt, &study, Side::Cuts, 10, [1, 1, 1, 0], (3, 3));
    Ok(())
}

// The cut record (1, 1, 0, 0) is the eighth, for the levels 1 to 2.
#[test]
fn finds_a_cut_record(rt: HostRuntime) -> Result<(), Fail> {
    let mut study = four(rt.alloc())?;
    steps(&rt, &mut study, 16, 16, Word::Finished);
    let mut found = None;
    for number in 1..=10usize {
        let mut row = [9; 4];
        let levels = study.show(Side::Cuts, number, &mut row).ok();
        if row == [1, 1, 0, 0] {
            found = Some((number, levels));
        }
    }
    assert_eq!(rt; found, Some((8, Some((1, 2)))));
    Ok(())
}

#[test]
fn refuses_numbers_and_rows(rt: HostRuntime) -> Result<(), Fail> {
    let mut study = four(rt.alloc())?;
    steps(&rt, &mut study, 16, 16, Word::Finished);
    refuses(&rt, &study, 31, Side::Paths, 0, &mut [9; 4]);
    refuses(&rt, &study, 31, Side::Paths, 10, &mut [9; 4]);
    refuses(&rt, &study, 31, Side::Cuts, 0, &mut [9; 4]);
    refuses(&rt, &study, 31, Side::Cuts, 11, &mut [9; 4]);
    refuses(&rt, &study, 31, Side::Cuts, 11, &mut [9; 3]);
    refuses(&rt, &study, 32, Side::Cuts, 10, &mut [9; 3]);
    refuses(&rt, &study, 32, Side::Cuts, 10, &mut [9; 5]);
    refuses(&rt, &study, 32, Side::Paths, 1, &mut []);
    Ok(())
}

#[test]
fn records_of_the_vectors_examined(rt: HostRuntime) -> Result<(), Fail> {
    let mut study = four(rt.alloc())?;
    refuses(&rt, &study, 31, Side::Paths, 1, &mut [9; 4]);
    refuses(&rt, &study, 31, Side::Cuts, 1, &mut [9; 4]);
    steps(&rt, &mut study, 4, 4, Word::Open);
    shows(&rt, &study, Side::Cuts, 1, [0, 0, 1, 1], (1, 2));
    refuses(&rt, &study, 31, Side::Cuts, 2, &mut [9; 4]);
    refuses(&rt, &study, 31, Side::Paths, 1, &mut [9; 4]);
    Ok(())
}
