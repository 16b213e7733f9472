// Feeds on both sides of each refusal's edge, feeds that answer, and feeds studied.
use crate::support::*;
use feed::Feed;
use std::process::Abort;
use std::test::Fail;
use structure::Structure;
use study::{Study, Word};

// Checks the number of the refusal that a feed meets, none where it is accepted.
fn meets(
    rt: &impl Abort,
    refusal: Option<u8>,
    tops: &[u8],
    tags: &[u32],
    weights: &[u16],
    thresholds: &[u32],
) {
    assert_eq!(rt;
        number(Feed::check(tops, tags, weights, thresholds)),
        refusal
    );
}

#[test]
fn refuses_components_and_tops(rt: HostRuntime) {
    meets(&rt, Some(10), &[], &[], &[], &[1]);
    meets(&rt, None, &[1; 12], &[0; 12], &[1; 12], &[1]);
    meets(&rt, Some(10), &[1; 13], &[0; 13], &[1; 13], &[1]);
    meets(&rt, Some(11), &[1], &[], &[1], &[1]);
    meets(&rt, Some(11), &[1], &[0; 2], &[1], &[1]);
    meets(&rt, Some(11), &[1], &[0], &[], &[1]);
    meets(&rt, Some(11), &[1], &[0], &[1; 2], &[1]);
    meets(&rt, Some(12), &[0], &[0], &[1], &[1]);
    meets(&rt, None, &[7], &[0], &[1], &[1]);
    meets(&rt, Some(12), &[8], &[0], &[1], &[1]);
    meets(&rt, Some(13), &[1], &[0], &[1], &[]);
    meets(&rt, None, &[7], &[0], &[1], &[1, 2, 3, 4, 5, 6, 7]);
    meets(&rt, Some(13), &[7], &[0], &[1], &[1; 8]);
}

#[test]
fn refuses_weights_and_thresholds(rt: HostRuntime) {
    meets(&rt, Some(14), &[7, 7, 7, 7, 7, 2], &[0; 6], &[1; 6], &[1]);
    meets(&rt, None, &[7, 7, 7, 7, 7, 1], &[0; 6], &[1; 6], &[1]);
    meets(&rt, Some(16), &[1, 1], &[0; 2], &[0, 1_001], &[1]);
    meets(&rt, None, &[1, 1], &[0; 2], &[0, 1_000], &[1]);
    meets(&rt, Some(17), &[1, 1], &[0; 2], &[3, 2], &[0, 5]);
    meets(&rt, None, &[1, 1], &[0; 2], &[3, 2], &[1, 5]);
    meets(&rt, Some(17), &[1, 1], &[0; 2], &[3, 2], &[1, 6]);
    meets(&rt, Some(18), &[1, 1], &[0; 2], &[3, 2], &[3, 2]);
    meets(&rt, None, &[1, 1], &[0; 2], &[3, 2], &[2, 2]);
}

#[test]
fn refuses_the_smallest_first(rt: HostRuntime) {
    meets(&rt, Some(10), &[], &[0], &[], &[]);
    meets(&rt, Some(11), &[0], &[], &[1], &[]);
    meets(&rt, Some(12), &[0], &[0], &[1], &[]);
    meets(&rt, Some(13), &[7; 6], &[0; 6], &[1; 6], &[]);
    meets(&rt, Some(14), &[7; 6], &[0; 6], &[1_001; 6], &[0]);
    meets(&rt, Some(16), &[1], &[0], &[1_001], &[0]);
    meets(&rt, Some(17), &[1], &[0], &[5], &[9, 8]);
}

#[test]
fn answers_from_its_weights(rt: HostRuntime) {
    assert_eq!(rt;
        number(Feed::check(&[1, 1], &[4, 5], &[3, 2], &[2, 5])),
        None
    );
    let feed = Feed::new(&[1, 1], &[4, 5], &[3, 2], &[2, 5]);
    assert_eq!(rt; feed.components(), 2);
    assert_eq!(rt; feed.best(), 2);
    assert_eq!(rt; feed.top(2), Some(1));
    assert_eq!(rt; feed.top(3), None);
    assert_eq!(rt; feed.tag(0), None);
    assert_eq!(rt; feed.tag(1), Some(4));
    assert_eq!(rt; feed.level(&[0, 0]), Some(0));
    assert_eq!(rt; feed.level(&[0, 1]), Some(1));
    assert_eq!(rt; feed.level(&[1, 0]), Some(1));
    assert_eq!(rt; feed.level(&[1, 1]), Some(2));
    assert_eq!(rt; feed.level(&[1, 2]), None);
}

#[test]
fn a_refused_feed_is_one_component(rt: HostRuntime) {
    let feed = Feed::new(&[1, 1], &[4, 5], &[3, 2], &[2, 6]);
    assert_eq!(rt; feed.components(), 1);
    assert_eq!(rt; feed.best(), 1);
    assert_eq!(rt; feed.top(1), Some(1));
    assert_eq!(rt; feed.tag(1), Some(0));
    assert_eq!(rt; feed.level(&[0]), Some(0));
    assert_eq!(rt; feed.level(&[1]), Some(1));
    assert_eq!(rt; feed.level(&[1, 1]), None);
}

#[test]
fn five_of_ten_end_finished(rt: HostRuntime) -> Result<(), Fail> {
    let feed = Feed::new(&[1; 10], &[0; 10], &[1; 10], &[5]);
    let mut study = Study::open(rt.alloc(), feed)?;
    steps(&rt, &mut study, 65_536, 1_024, Word::Finished);
    gives(&rt, &study, 1, 0, D, 252, 210)
}

// The vector with the number 1,054 is the 257th that has five ranks up, each a cut record.
#[test]
fn six_of_eleven_end_full(rt: HostRuntime) -> Result<(), Fail> {
    let feed = Feed::new(&[1; 11], &[0; 11], &[1; 11], &[6]);
    let mut study = Study::open(rt.alloc(), feed)?;
    steps(&rt, &mut study, 65_536, 1_054, Word::Full);
    gives(&rt, &study, 1, 0, D, 210, 256)
}
