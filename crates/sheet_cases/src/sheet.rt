// The lines of small sheets.
use sheets::Lines;
use std::process::Abort;
use std::test::Fail;

// The next line is this one.
fn given(rt: &impl Abort, lines: &mut Lines<'_>, line: &[u8]) -> Result<(), Fail> {
    // no `ok_or`: it drops what it is given, and a `Fail` can't be dropped
    let Some(next) = lines.next() else {
        return Err(Fail::new("no line"));
    };
    assert_eq!(rt; next, line);
    Ok(())
}

// No line is left, however often it is asked for.
fn ended(rt: &impl Abort, mut lines: Lines<'_>) {
    assert!(rt; lines.next().is_none());
    assert!(rt; lines.next().is_none());
}

#[test]
fn empty_sheet(rt: HostRuntime) {
    ended(&rt, Lines::new(b""));
}

#[test]
fn line_feeds(rt: HostRuntime) -> Result<(), Fail> {
    let mut lines = Lines::new(b"\n");
    given(&rt, &mut lines, b"")?;
    ended(&rt, lines);
    let mut more = Lines::new(b"\n\nA\n");
    given(&rt, &mut more, b"")?;
    given(&rt, &mut more, b"")?;
    given(&rt, &mut more, b"A")?;
    ended(&rt, more);
    Ok(())
}

// The last line lacks its line feed; a carriage return and a zero byte are bytes like others.
#[test]
fn other_bytes(rt: HostRuntime) -> Result<(), Fail> {
    let mut lines = Lines::new(b"A\r\n\x00\n\xFFB");
    given(&rt, &mut lines, b"A\r")?;
    given(&rt, &mut lines, b"\x00")?;
    given(&rt, &mut lines, b"\xFFB")?;
    ended(&rt, lines);
    Ok(())
}
