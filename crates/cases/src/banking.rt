// Banks of any mix of offices, a foreign one among them.
use crate::columns::Columns;
use banks::{Bank, Join, One, RoleAt, code_of, role_at};
use list_office::ListDraft;
use offices::Office;
use std::process::Abort;

// Roles 0, 8 and 16 are one column of the foreign office, which is office 1.
#[test]
fn a_foreign_office_beside_ours(rt: HostRuntime) {
    let bank = Join::new(One::new(ListDraft::new(2).seal()), Columns::new(20));
    assert_eq!(rt; bank.office_count(), 2);
    assert_eq!(rt; bank.role_count(1), 20);
    assert!(rt;
        bank.is_over(1, 16, 8)
            && !bank.is_over(1, 8, 16)
            && !bank.is_over(1, 16, 9)
            && !bank.is_over(1, 24, 16)
    );
    assert!(rt; bank.is_shared(1, 18) && !bank.is_shared(1, 7) && !bank.is_shared(1, 20));
    assert_eq!(rt; bank.role_count(2), 0);
    assert!(rt; !bank.is_over(2, 0, 0));
    assert_eq!(rt; code_of(&bank, 1, 16), Some(80));
    assert_eq!(rt;
        role_at(&bank, 80),
        Some(RoleAt {
            office: 1,
            role: 16,
        })
    );
    assert_eq!(rt; role_at(&bank, 84), None);
    assert_eq!(rt; role_at(&bank, 999999), None);
}

fn heard<B: Bank + Drop>(rt: &impl Abort, bank: B) {
    assert_eq!(rt; bank.office_count(), 16);
    let bank = Join::new(bank, Columns::new(17));
    assert_eq!(rt; bank.office_count(), 16);
    assert_eq!(rt; bank.role_count(15), 16);
    assert_eq!(rt; bank.role_count(16), 0);
    assert!(rt; bank.is_over(15, 8, 0) && !bank.is_over(16, 8, 0));
}

type ThreeMore<B> = Join<Join<Join<B, Columns>, Columns>, Columns>;

// A bank with three offices more, of these numbers of roles.
fn three_more<B: Bank>(bank: B, roles: [u8; 3]) -> ThreeMore<B> {
    let [first, second, third] = roles;
    let bank = Join::new(bank, Columns::new(first));
    Join::new(Join::new(bank, Columns::new(second)), Columns::new(third))
}

// The handle and the bank go on to one function more each: a struct for both would be made anew at each step.
// A long bank is joined a few offices at a time, so that each step is proved for whatever bank comes before.
// One function that called itself at a longer bank would need a type for every length, without end.
fn from_thirteen<B: Bank + Drop>(rt: &impl Abort, bank: B) {
    heard(rt, three_more(bank, [14, 15, 16]));
}

fn from_ten<B: Bank + Drop>(rt: &impl Abort, bank: B) {
    from_thirteen(rt, three_more(bank, [11, 12, 13]));
}

fn from_seven<B: Bank + Drop>(rt: &impl Abort, bank: B) {
    from_ten(rt, three_more(bank, [8, 9, 10]));
}

fn from_four<B: Bank + Drop>(rt: &impl Abort, bank: B) {
    from_seven(rt, three_more(bank, [5, 6, 7]));
}

// The sixteenth office, 15, is heard, and the seventeenth is not.
#[test]
fn sixteen_are_heard(rt: HostRuntime) {
    from_four(&rt, three_more(One::new(Columns::new(1)), [2, 3, 4]));
}
