use crate::notes::{SHARED, note};
use list_office::{ListDraft, ListOffice};
use std::io;

// `rt` and the draft go to three functions, each called once: a struct for the two would be longer.
fn seniority(rt: &HostRuntime, draft: &mut ListDraft) -> io::Result<()> {
    let stored = "the pair is stored";
    note(rt, "archivist over release", draft.pair(0, 3), stored)?;
    note(rt, "key over read", draft.pair(1, 4), stored)?;
    note(rt, "check over read", draft.pair(2, 4), stored)?;
    note(rt, "release over read", draft.pair(3, 4), stored)?;
    let follows = "it follows already, so nothing is stored";
    note(rt, "archivist over read", draft.pair(0, 4), follows)?;
    note(rt, "read over archivist", draft.pair(4, 0), stored)?;
    note(rt, "check over check", draft.pair(2, 2), stored)?;
    note(rt, "archivist over role 9", draft.pair(0, 9), stored)
}

fn sharing(rt: &HostRuntime, draft: &mut ListDraft) -> io::Result<()> {
    note(rt, "share key", draft.share(1), SHARED)?;
    note(rt, "share read", draft.share(4), SHARED)?;
    note(rt, "share role 5", draft.share(5), SHARED)
}

fn exclusion(rt: &HostRuntime, draft: &mut ListDraft) -> io::Result<()> {
    let kept = "nobody may reach that many of them";
    note(
        rt,
        "exclude key, check; bound 2",
        draft.exclude(&[1, 2], 2),
        kept,
    )?;
    note(
        rt,
        "exclude check, release, key; bound 3",
        draft.exclude(&[2, 3, 1], 3),
        kept,
    )?;
    note(
        rt,
        "exclude key, key; bound 2",
        draft.exclude(&[1, 1], 2),
        kept,
    )?;
    note(
        rt,
        "exclude key, check; bound 3",
        draft.exclude(&[1, 2], 3),
        kept,
    )?;
    note(
        rt,
        "exclude key, role 6; bound 2",
        draft.exclude(&[1, 6], 2),
        kept,
    )
}

// Drafts the office of a records house, and seals it.
pub fn records_house(rt: &HostRuntime) -> io::Result<ListOffice> {
    println!(rt; "  a draft with 5 roles: archivist, key, check, release, read")?;
    let mut draft = ListDraft::new(5);
    seniority(rt, &mut draft)?;
    sharing(rt, &mut draft)?;
    exclusion(rt, &mut draft)?;
    println!(rt; "  the draft is sealed: it takes no pair, mark or set any more")?;
    Ok(draft.seal())
}
