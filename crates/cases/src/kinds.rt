// Drafting each kind of office, and the layers.
use answers::Refusal;
use layers::{HouseDraft, WithheldDraft};
use list_office::ListDraft;
use matrix_office::MatrixDraft;
use offices::Office;
use tree_office::TreeDraft;

#[test]
fn a_list_refuses_by_its_first_check(rt: HostRuntime) {
    let mut draft = ListDraft::new(4);
    assert_eq!(rt; draft.pair(1, 3), Ok(()));
    assert_eq!(rt; draft.pair(0, 1), Ok(()));
    assert_eq!(rt; draft.pair(0, 3), Ok(()));
    assert_eq!(rt; draft.pair(4, 4), Err(Refusal::NoSuchRole));
    assert_eq!(rt; draft.pair(2, 2), Err(Refusal::Circular));
    assert_eq!(rt; draft.pair(3, 0), Err(Refusal::Circular));
    let office = draft.seal();
    assert!(rt;
        office.is_over(0, 3)
            && office.is_over(1, 1)
            && !office.is_over(3, 1)
            && !office.is_over(0, 2)
    );
}

#[test]
fn a_list_keeps_128_pairs(rt: HostRuntime) {
    let mut draft = ListDraft::new(64);
    // 64 pairs from each of two seniors: 0 and 1 over 2 to 33, and 2 to 33 over 34 and 35
    for junior in 2..34u8 {
        assert_eq!(rt; draft.pair(0, junior), Ok(()));
        assert_eq!(rt; draft.pair(1, junior), Ok(()));
        assert_eq!(rt; draft.pair(junior, 34), Ok(()));
        assert_eq!(rt; draft.pair(junior, 35), Ok(()));
    }
    assert_eq!(rt; draft.pair(36, 37), Err(Refusal::PairsFull));
    assert_eq!(rt; draft.pair(0, 34), Ok(()));
    assert_eq!(rt; draft.pair(34, 0), Err(Refusal::Circular));
}

#[test]
fn a_tree_has_one_direct_senior(rt: HostRuntime) {
    let mut draft = TreeDraft::new(5);
    assert_eq!(rt; draft.pair(0, 1), Ok(()));
    assert_eq!(rt; draft.pair(1, 2), Ok(()));
    assert_eq!(rt; draft.pair(0, 2), Ok(()));
    assert_eq!(rt; draft.pair(3, 2), Err(Refusal::SeniorTaken));
    assert_eq!(rt; draft.pair(2, 0), Err(Refusal::Circular));
    let office = draft.seal();
    assert!(rt;
        office.is_over(0, 2)
            && !office.is_over(2, 0)
            && !office.is_over(3, 2)
            && office.is_over(4, 4)
    );
}

#[test]
fn a_matrix_closes_at_once(rt: HostRuntime) {
    let mut draft = MatrixDraft::new(4);
    assert_eq!(rt; draft.pair(2, 3), Ok(()));
    assert_eq!(rt; draft.pair(0, 1), Ok(()));
    assert_eq!(rt; draft.pair(1, 2), Ok(()));
    assert_eq!(rt; draft.pair(3, 0), Err(Refusal::Circular));
    let office = draft.seal();
    assert!(rt; office.is_over(0, 3) && office.is_over(1, 3) && !office.is_over(3, 2));
}

#[test]
fn sets_and_marks(rt: HostRuntime) {
    let mut draft = MatrixDraft::new(3);
    assert_eq!(rt; draft.share(3), Err(Refusal::NoSuchRole));
    assert_eq!(rt; draft.share(2), Ok(()));
    assert_eq!(rt; draft.exclude(&[0], 2), Err(Refusal::BadSet));
    assert_eq!(rt; draft.exclude(&[0, 0], 2), Err(Refusal::BadSet));
    assert_eq!(rt; draft.exclude(&[0, 1], 1), Err(Refusal::BadSet));
    assert_eq!(rt; draft.exclude(&[0, 3], 2), Err(Refusal::NoSuchRole));
    for _turn in 0..8u8 {
        assert_eq!(rt; draft.exclude(&[2, 0], 2), Ok(()));
    }
    assert_eq!(rt; draft.exclude(&[0], 2), Err(Refusal::SetsFull));
    let office = draft.seal();
    assert!(rt; office.is_shared(2) && !office.is_shared(0));
    assert_eq!(rt; office.set_count(), 8);
    assert_eq!(rt; office.set_member(7, 0), Some(2));
    assert_eq!(rt; office.set_member(7, 2), None);
}

#[test]
fn a_layer_over_a_layer(rt: HostRuntime) {
    let mut draft = TreeDraft::new(3);
    assert_eq!(rt; draft.share(0), Ok(()));
    assert_eq!(rt; draft.share(1), Ok(()));
    assert_eq!(rt; draft.exclude(&[0, 1], 2), Ok(()));
    let mut withheld = WithheldDraft::new(draft.seal());
    assert_eq!(rt; withheld.withhold(3), Err(Refusal::NoSuchRole));
    assert_eq!(rt; withheld.withhold(0), Ok(()));
    let mut house = HouseDraft::new(withheld.seal());
    assert_eq!(rt; house.exclude(&[1, 2], 2), Ok(()));
    assert_eq!(rt; house.exclude(&[1, 3], 2), Err(Refusal::NoSuchRole));
    let office = house.seal();
    assert!(rt; !office.is_shared(0) && office.is_shared(1));
    assert_eq!(rt; office.set_count(), 2);
    assert_eq!(rt; office.set_member(0, 0), Some(0));
    assert_eq!(rt; office.set_member(1, 0), Some(1));
}
