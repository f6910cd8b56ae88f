// Four numbers in columns.
use crate::shared::unwritten;
use sheets::columns;
use std::test::Fail;

#[test]
fn four_numbers(rt: HostRuntime) -> Result<(), Fail> {
    let mut line = [b'?'; 24];
    columns([0, 9, 10, 999_999], &mut line)?;
    assert_eq!(rt; line, *b"     0     9    10999999");
    columns([1, 33, 15, 100_000], &mut line)?;
    assert_eq!(rt; line, *b"     1    33    15100000");
    Ok(())
}

#[test]
fn refused(rt: HostRuntime) -> Result<(), Fail> {
    let mut line = [b'?'; 24];
    let answer = columns([0, 0, 0, 1_000_000], &mut line);
    unwritten(&rt, answer, &line, 33)
}

#[test]
fn wrong_length(rt: HostRuntime) -> Result<(), Fail> {
    let mut line = [b'?'; 25];
    let answer = columns([0, 0, 0, 1_000_000], &mut line);
    unwritten(&rt, answer, &line, 31)
}
