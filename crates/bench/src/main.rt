// Sixteen full offices, asked every question: time `out/bench` after `rt run`. What it prints is how many
// of the answers were yes, so that no answer can be left out.
#![tactic(auto)]

use banks::{Bank, Join, OfficeAt, One};
use list_office::{ListDraft, ListOffice};
use offices::Office;
use std::{array, io};

// 64 roles in one line, the longest chains that there are, all shared, with 8 sets of 8.
fn full() -> ListOffice {
    let mut draft = ListDraft::new(64);
    for role in 0..63u8 {
        let _ = draft.pair(role, role + 1);
    }
    for role in 0..64u8 {
        let _ = draft.share(role);
    }
    for set in 0..8u8 {
        let members: [u8; 8] = array::from_fn(|place| set * 8 + place as u8);
        let _ = draft.exclude(&members, 8);
    }
    draft.seal()
}

// How many of the 64 questions `is this role over each` are answered yes.
fn juniors<O: Office>(office: &O, senior: u8) -> usize {
    (0..64u8)
        .filter(|junior| office.is_over(senior, *junior))
        .count()
}

// Adds up by `saturating_add`, which owes no bound, as `sum` would. (So does `members`, over sets: a function for both would
// take the range and a closure besides.)
fn seniority<O: Office>(office: &O) -> usize {
    (0..64u8)
        .map(|senior| juniors(office, senior))
        .fold(0, usize::saturating_add)
}

fn places<O: Office>(office: &O, set: u8) -> usize {
    (0..8u8)
        .filter(|place| office.set_member(set, *place).is_some())
        .count()
}

fn members<O: Office>(office: &O) -> usize {
    (0..8u8)
        .map(|set| places(office, set))
        .fold(0, usize::saturating_add)
}

fn asked<B: Bank>(rt: &HostRuntime, bank: &B) -> io::Result<()> {
    let over = (0..16u8)
        .map(|office| seniority(&OfficeAt::new(bank, office)))
        .fold(0, usize::saturating_add);
    let stand = (0..16u8)
        .map(|office| members(&OfficeAt::new(bank, office)))
        .fold(0, usize::saturating_add);
    println!(rt; "of 65536 questions on seniority, {over} were answered yes")?;
    println!(rt; "of 1024 questions on places of sets, {stand} found a role")
}

type ThreeMore<B> = Join<Join<Join<B, ListOffice>, ListOffice>, ListOffice>;

fn three_more<B: Bank>(bank: B) -> ThreeMore<B> {
    Join::new(Join::new(Join::new(bank, full()), full()), full())
}

// The runtime and the bank go on to one function more each: a struct for both would be made anew at each step.
// A long bank is joined a few offices at a time, so that each step is proved for whatever bank comes before.
// One function that called itself at a longer bank would need a type for every length, without end.
fn with_three_more<B: Bank + Drop>(rt: &HostRuntime, bank: B) -> io::Result<()> {
    asked(rt, &three_more(bank))
}

fn with_six_more<B: Bank + Drop>(rt: &HostRuntime, bank: B) -> io::Result<()> {
    with_three_more(rt, three_more(bank))
}

fn with_nine_more<B: Bank + Drop>(rt: &HostRuntime, bank: B) -> io::Result<()> {
    with_six_more(rt, three_more(bank))
}

fn with_twelve_more<B: Bank + Drop>(rt: &HostRuntime, bank: B) -> io::Result<()> {
    with_nine_more(rt, three_more(bank))
}

fn main(rt: HostRuntime) -> io::Result<()> {
    with_twelve_more(&rt, three_more(One::new(full())))
}
