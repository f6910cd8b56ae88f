use crate::notes::{SHARED, note};
use layers::{HouseDraft, HouseRules, Withheld, WithheldDraft};
use list_office::{ListDraft, ListOffice};
use matrix_office::{MatrixDraft, MatrixOffice};
use std::io;
use tree_office::{TreeDraft, TreeOffice};

// What withholding a role does.
const OFF: &str = "its shared mark is off";

// A parish, by a tree: each role has at most one direct senior.
pub fn parish(rt: &HostRuntime) -> io::Result<TreeOffice> {
    println!(rt; "  the parish, a tree office with 4 roles")?;
    let mut draft = TreeDraft::new(4);
    let senior = "it is the direct senior now";
    note(rt, "0 over 1", draft.pair(0, 1), senior)?;
    note(rt, "1 over 2", draft.pair(1, 2), senior)?;
    note(rt, "0 over 2", draft.pair(0, 2), "it follows already, by 1")?;
    note(rt, "3 over 2", draft.pair(3, 2), senior)?;
    note(rt, "2 over 0", draft.pair(2, 0), senior)?;
    note(rt, "share 0", draft.share(0), SHARED)?;
    Ok(draft.seal())
}

// An estate, by a matrix, under a layer that withholds a role.
pub fn estate(rt: &HostRuntime) -> io::Result<Withheld<MatrixOffice>> {
    println!(rt; "  the estate, a matrix office with 3 roles")?;
    let mut draft = MatrixDraft::new(3);
    note(rt, "1 over 2", draft.pair(1, 2), "the row of 1 has 2")?;
    note(rt, "0 over 1", draft.pair(0, 1), "the row of 0 has 1 and 2")?;
    note(rt, "share 0", draft.share(0), SHARED)?;
    note(rt, "share 1", draft.share(1), SHARED)?;
    let mut layer = WithheldDraft::new(draft.seal());
    note(rt, "over it, withhold 0", layer.withhold(0), OFF)?;
    note(rt, "over it, withhold 3", layer.withhold(3), OFF)?;
    Ok(layer.seal())
}

// An abbey: a list office under house rules, under a layer that withholds a role.
pub fn abbey(rt: &HostRuntime) -> io::Result<Withheld<HouseRules<ListOffice>>> {
    println!(rt; "  the abbey, a list office with 3 roles")?;
    let mut draft = ListDraft::new(3);
    note(
        rt,
        "exclude 0, 1; bound 2",
        draft.exclude(&[0, 1], 2),
        "it is set 0",
    )?;
    note(rt, "share 2", draft.share(2), SHARED)?;
    let mut rules = HouseDraft::new(draft.seal());
    let after = "it comes after set 0";
    note(
        rt,
        "over it, exclude 1, 2; bound 2",
        rules.exclude(&[1, 2], 2),
        after,
    )?;
    note(
        rt,
        "over it, exclude 1, 3; bound 2",
        rules.exclude(&[1, 3], 2),
        after,
    )?;
    let mut layer = WithheldDraft::new(rules.seal());
    note(rt, "over that, withhold 2", layer.withhold(2), OFF)?;
    Ok(layer.seal())
}

// A chapel that has no roles yet.
pub fn chapel(rt: &HostRuntime) -> io::Result<MatrixOffice> {
    println!(rt; "  the chapel, a matrix office with no roles")?;
    let mut draft = MatrixDraft::new(0);
    note(rt, "share 0", draft.share(0), SHARED)?;
    Ok(draft.seal())
}
