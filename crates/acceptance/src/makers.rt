// A maker's own structure, studied and carried.
use crate::support::*;
use radio::Radio;
use std::test::Fail;
use study::{Study, Word};
use table::Table;

// Level 1 may have the lower low: its cut figure takes the cut records as independent, which share components.
#[test]
fn a_radio_is_studied(rt: HostRuntime) -> Result<(), Fail> {
    let mut radio = Study::open(rt.alloc(), Radio::new([1, 2, 3, 4, 5]))?;
    enter_all(&rt, &mut radio, 5, 500_000_000, 0);
    steps(&rt, &mut radio, 100, 32, Word::Finished);
    gives(&rt, &radio, 1, 669_921_875, D, 3, 3)?;
    gives(&rt, &radio, 2, 750_000_000, D, 2, 1)
}

#[test]
fn a_radio_is_carried(rt: HostRuntime) -> Result<(), Fail> {
    let mut radio = Study::open(rt.alloc(), Radio::new([1, 2, 3, 4, 5]))?;
    enter_all(&rt, &mut radio, 5, 900_000_000, 0);
    steps(&rt, &mut radio, 100, 32, Word::Finished);
    gives(&rt, &radio, 1, 997_002_999, D, 3, 3)?;
    gives(&rt, &radio, 2, 990_000_000, D, 2, 1)?;
    let mut study = Study::open(rt.alloc(), Table::new(&[2], 2, &[6], &[0, 1, 2]))?;
    assert_eq!(rt; number(study.carry(1, &radio)), None);
    steps(&rt, &mut study, 3, 3, Word::Finished);
    gives(&rt, &study, 1, 997_002_999, D, 1, 1)?;
    gives(&rt, &study, 2, 990_000_000, D, 1, 1)
}
