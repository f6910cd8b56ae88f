// Numbers, shelf marks and unused fields, good and bad.
use crate::shared::{faulty, reads};
use sheets::Token;
use std::test::Fail;

#[test]
fn numbers(rt: HostRuntime) -> Result<(), Fail> {
    reads(&rt, b"LINK         0     9", Token::Link { from: 0, to: 9 })?;
    reads(
        &rt,
        b"LINK        10 99999",
        Token::Link {
            from: 10,
            to: 99_999,
        },
    )?;
    reads(
        &rt,
        b"LINK    100000999999",
        Token::Link {
            from: 100_000,
            to: 999_999,
        },
    )?;
    reads(
        &rt,
        b"LINK       102   102",
        Token::Link { from: 102, to: 102 },
    )?;
    reads(
        &rt,
        b"HANDBACK999999      ",
        Token::Handback { card: 999_999 },
    )
}

#[test]
fn bad_first(rt: HostRuntime) -> Result<(), Fail> {
    faulty(&rt, b"LINK    000001     1", 33, 9)?;
    faulty(&rt, b"LINK        00     1", 33, 9)?;
    faulty(&rt, b"LINK        +1     1", 33, 9)?;
    faulty(&rt, b"LINK               1", 33, 9)?;
    faulty(&rt, b"LINK    1          1", 33, 9)?;
    faulty(&rt, b"LINK        1      1", 33, 9)?;
    faulty(&rt, b"LINK       1 1     1", 33, 9)?;
    faulty(&rt, b"LINK         \xB1     1", 33, 9)
}

#[test]
fn bad_second(rt: HostRuntime) -> Result<(), Fail> {
    faulty(&rt, b"LINK         1000001", 33, 15)?;
    faulty(&rt, b"LINK         1    00", 33, 15)?;
    faulty(&rt, b"LINK         1    +1", 33, 15)?;
    faulty(&rt, b"LINK         1      ", 33, 15)?;
    faulty(&rt, b"LINK         11     ", 33, 15)?;
    faulty(&rt, b"LINK         1    1 ", 33, 15)?;
    faulty(&rt, b"LINK         1     \x00", 33, 15)
}

// The left field is judged first.
#[test]
fn both_bad(rt: HostRuntime) -> Result<(), Fail> {
    faulty(&rt, b"LINK    000001000001", 33, 9)?;
    faulty(&rt, b"HANDBACK     +     1", 33, 9)?;
    faulty(&rt, b"SEND         1     1", 33, 9)
}

#[test]
fn unused(rt: HostRuntime) -> Result<(), Fail> {
    faulty(&rt, b"HANDBACK     7     0", 33, 15)?;
    faulty(&rt, b"HANDBACK           7", 33, 9)?;
    faulty(&rt, b"HANDBACK     7.     ", 33, 15)?;
    faulty(&rt, b"SEND         0      ", 33, 9)?;
    faulty(&rt, b"SEND               0", 33, 15)
}

#[test]
fn marks(rt: HostRuntime) -> Result<(), Fail> {
    reads(
        &rt,
        b"BOX     \x20\x20\x20\x20\x20\x20\x20\x20\x20\x20\x20\x20",
        Token::Box {
            mark: b"\x20\x20\x20\x20\x20\x20\x20\x20\x20\x20\x20\x20",
        },
    )?;
    reads(
        &rt,
        b"BOX     \x7E\x7E\x7E\x7E\x7E\x7E\x7E\x7E\x7E\x7E\x7E\x7E",
        Token::Box {
            mark: b"\x7E\x7E\x7E\x7E\x7E\x7E\x7E\x7E\x7E\x7E\x7E\x7E",
        },
    )?;
    faulty(&rt, b"BOX     \x1Faaaaaaaaaaa", 33, 9)?;
    faulty(&rt, b"BOX     \x7Faaaaaaaaaaa", 33, 9)?;
    faulty(&rt, b"BOX     aaaaaaaaaaa\x1F", 33, 9)?;
    faulty(&rt, b"BOX     aaaaaaaaaaa\x7F", 33, 9)?;
    faulty(&rt, b"BOX     aaaaaa\x80aaaaa", 33, 9)
}
