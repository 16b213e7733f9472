// Tables on both sides of each refusal's edge, and tables that answer.
use crate::support::number;
use std::process::Abort;
use structure::Structure;
use table::Table;

// Checks the number of the refusal that a table meets, none where it is accepted.
fn meets(rt: &impl Abort, refusal: Option<u8>, tops: &[u8], best: u8, tags: &[u32], levels: &[u8]) {
    assert_eq!(rt; number(Table::check(tops, best, tags, levels)), refusal);
}

#[test]
fn refuses_components_and_tops(rt: HostRuntime) {
    meets(&rt, Some(10), &[], 1, &[], &[]);
    meets(&rt, Some(15), &[1; 12], 1, &[0; 12], &[]);
    meets(&rt, Some(10), &[1; 13], 1, &[0; 13], &[]);
    meets(&rt, Some(11), &[1], 1, &[], &[0, 1]);
    meets(&rt, Some(11), &[1], 1, &[0, 0], &[0, 1]);
    meets(&rt, Some(12), &[0], 1, &[0], &[0]);
    meets(&rt, None, &[7], 7, &[0], &[0, 1, 2, 3, 4, 5, 6, 7]);
    meets(&rt, Some(12), &[8], 7, &[0], &[0]);
    meets(&rt, Some(13), &[1], 0, &[0], &[0, 0]);
    meets(&rt, Some(13), &[1], 8, &[0], &[0, 8]);
}

#[test]
fn refuses_levels(rt: HostRuntime) {
    meets(&rt, Some(15), &[7, 7, 7, 7, 7, 1], 1, &[0; 6], &[]);
    meets(&rt, Some(14), &[7, 7, 7, 7, 7, 2], 1, &[0; 6], &[]);
    meets(&rt, Some(15), &[1], 1, &[0], &[0]);
    meets(&rt, None, &[1], 1, &[0], &[0, 1]);
    meets(&rt, Some(15), &[1], 1, &[0], &[0, 1, 1]);
    meets(&rt, Some(16), &[1], 1, &[0], &[0, 2]);
    meets(&rt, Some(17), &[1], 1, &[0], &[1, 1]);
    meets(&rt, Some(17), &[1], 1, &[0], &[0, 0]);
    meets(&rt, Some(18), &[3], 2, &[0], &[0, 2, 1, 2]);
    meets(&rt, None, &[3], 2, &[0], &[0, 1, 1, 2]);
}

#[test]
fn answers_from_its_levels(rt: HostRuntime) {
    let levels = [0, 0, 0, 0, 0, 1, 1, 2, 0, 1, 1, 2, 0, 2, 2, 3];
    let table = Table::new(&[1; 4], 3, &[4, 5, 6, 7], &levels);
    assert_eq!(rt; table.components(), 4);
    assert_eq!(rt; table.best(), 3);
    assert_eq!(rt; table.top(4), Some(1));
    assert_eq!(rt; table.tag(4), Some(7));
    assert_eq!(rt; table.tag(5), None);
    assert_eq!(rt; table.level(&[1, 1, 0, 0]), Some(0));
    assert_eq!(rt; table.level(&[0, 1, 1, 1]), Some(2));
    assert_eq!(rt; table.level(&[1, 1, 1, 2]), None);
}

#[test]
fn a_refused_table_is_one_component(rt: HostRuntime) {
    let table = Table::new(&[3], 2, &[9], &[0, 2, 1, 2]);
    assert_eq!(rt; table.components(), 1);
    assert_eq!(rt; table.best(), 1);
    assert_eq!(rt; table.tag(1), Some(0));
    assert_eq!(rt; table.level(&[1]), Some(1));
    assert_eq!(rt; table.level(&[2]), None);
}
