// Best chains in small graphs, worked out by hand.
use crate::table::Table;
use search::{Outcome, Unfit};

const BLANK: u16 = 77;

fn best(
    table: &Table,
    starts: &[bool],
    target: usize,
    strip: &mut [u16],
) -> Result<Outcome, Unfit> {
    let mut near = [Some(5); 8];
    let mut home = [Some(6); 8];
    search::best_chain(table, starts, target, &mut near, &mut home, strip)
}

fn outcome(len: Option<usize>, looked: usize) -> Result<Outcome, Unfit> {
    Ok(Outcome { len, looked })
}

// The steps 0 to 4, 3 to 2, 4 to 1 and 2 to 1.
fn fork() -> Table {
    Table::new(5).with(0, 4).with(3, 2).with(4, 1).with(2, 1)
}

// Two chains of three nodes: 0 4 1 comes before 3 2 1. Nearer than 1 are 0, 3, 4 and 2.
#[test]
fn smaller_of_two(rt: HostRuntime) {
    let mut strip = [BLANK; 6];
    let out = best(&fork(), &[true, false, false, true, false], 1, &mut strip);
    assert_eq!(rt; out, outcome(Some(3), 4));
    assert_eq!(rt; strip, [0, 4, 1, BLANK, BLANK, BLANK]);
}

// A target that is a start is a chain alone, whatever else leads to it.
#[test]
fn target_is_start(rt: HostRuntime) {
    let mut strip = [BLANK; 5];
    let out = best(&fork(), &[true, true, false, false, false], 1, &mut strip);
    assert_eq!(rt; out, outcome(Some(1), 0));
    assert_eq!(rt; strip, [1, BLANK, BLANK, BLANK, BLANK]);
}

// From 0 the nodes 0, 4 and 1 are reached, and 2 is not.
#[test]
fn no_chain(rt: HostRuntime) {
    let mut strip = [BLANK; 5];
    let out = best(&fork(), &[true, false, false, false, false], 2, &mut strip);
    assert_eq!(rt; out, outcome(None, 3));
    assert_eq!(rt; strip, [BLANK; 5]);
}

#[test]
fn no_starts(rt: HostRuntime) {
    let mut strip = [BLANK; 5];
    let out = best(&fork(), &[false; 5], 1, &mut strip);
    assert_eq!(rt; out, outcome(None, 0));
    assert_eq!(rt; strip, [BLANK; 5]);
}

// There is no node 5, also where the slices would have a place for it.
#[test]
fn target_is_no_node(rt: HostRuntime) {
    let mut strip = [BLANK; 6];
    let out = best(&fork(), &[true; 6], 5, &mut strip);
    assert_eq!(rt; out, Err(Unfit));
    assert_eq!(rt; strip, [BLANK; 6]);
}

#[test]
fn short_strip(rt: HostRuntime) {
    let mut strip = [BLANK; 4];
    let out = best(&fork(), &[true; 5], 1, &mut strip);
    assert_eq!(rt; out, Err(Unfit));
    assert_eq!(rt; strip, [BLANK; 4]);
}

#[test]
fn one_node(rt: HostRuntime) {
    let mut strip = [BLANK; 1];
    let out = best(&Table::new(1), &[true], 0, &mut strip);
    assert_eq!(rt; out, outcome(Some(1), 0));
    assert_eq!(rt; strip, [0]);
}

// A line with a step back and a step to itself, which no best chain takes.
#[test]
fn long_line(rt: HostRuntime) {
    let line = Table::new(6).with(5, 4).with(4, 3).with(3, 2).with(2, 1);
    let table = line.with(1, 0).with(1, 4).with(2, 2);
    let mut strip = [BLANK; 7];
    let out = best(
        &table,
        &[false, false, false, false, false, true],
        0,
        &mut strip,
    );
    assert_eq!(rt; out, outcome(Some(6), 5));
    assert_eq!(rt; strip, [5, 4, 3, 2, 1, 0, BLANK]);
}
