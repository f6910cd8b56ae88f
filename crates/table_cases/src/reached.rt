// What is reached, and by which chain: role 2 of office 0 is over 3, a link leads from 3 to role 0 of office 1, which
// has the code 64, and 64 is over 65.
use offices::RoleSet;
use reach::{ReachTable, Row, StepTable};
use search::{Outcome, best_chain};
use std::alloc::AllocError;

fn juniors(office: u8, first: u8, second: u8) -> Row {
    Row::of(office, RoleSet::empty().with(first).with(second))
}

#[test]
fn one_link_more(rt: HostRuntime) -> Result<(), AllocError> {
    let mut table = ReachTable::new(rt.alloc())?;
    table.codes.set(2, juniors(0, 2, 3));
    table.codes.set(64, juniors(1, 0, 1));
    table.cards.set(7, juniors(0, 3, 3));
    table.owners.set(1, juniors(0, 1, 1));
    assert!(rt; !table.codes.contains(2, 65) && !table.cards.contains(7, 65));
    table.enter(3, 64);
    assert!(rt; table.codes.contains(2, 65) && table.cards.contains(7, 65));
    assert!(rt; !table.codes.contains(64, 3) && !table.owners.contains(1, 65));
    Ok(())
}

#[test]
fn a_chain_over_offices(rt: HostRuntime) -> Result<(), AllocError> {
    let mut table = StepTable::new(rt.alloc())?;
    table.set(2, Row::empty().with(3));
    table.mark(3, 64);
    table.mark(64, 65);
    let heap = rt.alloc();
    let mut starts = vec![in heap; false; 1024]?;
    if let Some(start) = starts.get_mut(2) {
        *start = true;
    }
    let mut near = vec![in heap; None; 1024]?;
    let mut home = vec![in heap; None; 1024]?;
    let mut strip = vec![in heap; 0; 1024]?;
    let found = best_chain(&table, &starts, 65, &mut near, &mut home, &mut strip);
    let outcome = Outcome {
        len: Some(4),
        looked: 3,
    };
    assert_eq!(rt; found, Ok(outcome));
    assert!(rt; strip.starts_with(&[2, 3, 64, 65]));
    Ok(())
}
