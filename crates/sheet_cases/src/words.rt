// Every request's word, and bytes that are none.
use crate::shared::{faulty, reads};
use sheets::Token;
use std::test::Fail;

#[test]
fn two_numbers(rt: HostRuntime) -> Result<(), Fail> {
    reads(
        &rt,
        b"ISSUE        7     1",
        Token::Issue { card: 7, office: 1 },
    )?;
    reads(
        &rt,
        b"ASSIGN       7    65",
        Token::Assign { card: 7, code: 65 },
    )?;
    reads(
        &rt,
        b"RELIEVE      7    65",
        Token::Relieve { card: 7, code: 65 },
    )?;
    reads(
        &rt,
        b"TRUST        1     2",
        Token::Trust {
            truster: 1,
            trusted: 2,
        },
    )?;
    reads(
        &rt,
        b"DISTRUST     1     2",
        Token::Distrust {
            truster: 1,
            trusted: 2,
        },
    )?;
    reads(
        &rt,
        b"LINK        65     1",
        Token::Link { from: 65, to: 1 },
    )
}

#[test]
fn two_numbers_more(rt: HostRuntime) -> Result<(), Fail> {
    reads(&rt, b"TRY         65     1", Token::Try { from: 65, to: 1 })?;
    reads(
        &rt,
        b"SUSPEND     65     1",
        Token::Suspend { from: 65, to: 1 },
    )?;
    reads(
        &rt,
        b"RESUME      65     1",
        Token::Resume { from: 65, to: 1 },
    )?;
    reads(
        &rt,
        b"WITHDRAW    65     1",
        Token::Withdraw { from: 65, to: 1 },
    )?;
    reads(
        &rt,
        b"MAY          7    65",
        Token::May { card: 7, code: 65 },
    )
}

#[test]
fn fewer_numbers(rt: HostRuntime) -> Result<(), Fail> {
    reads(&rt, b"HANDBACK     7      ", Token::Handback { card: 7 })?;
    reads(
        &rt,
        b"BOX     SHELF MARK 1",
        Token::Box {
            mark: b"SHELF MARK 1",
        },
    )?;
    reads(&rt, b"SEND                ", Token::Send)
}

#[test]
fn no_words(rt: HostRuntime) -> Result<(), Fail> {
    faulty(&rt, b"link        65     1", 32, 1)?;
    faulty(&rt, b" LINK       65     1", 32, 1)?;
    faulty(&rt, b"LINKS       65     1", 32, 1)?;
    faulty(&rt, b"                    ", 32, 1)?;
    faulty(&rt, b"LINK\x00       65     1", 32, 1)?;
    faulty(&rt, b"\xCCINK        65     1", 32, 1)
}

#[test]
fn lengths(rt: HostRuntime) -> Result<(), Fail> {
    faulty(&rt, b"", 31, 0)?;
    faulty(&rt, b"LINK        65     ", 31, 0)?;
    faulty(&rt, b"LINK        65     12", 31, 0)?;
    faulty(&rt, b"SEND", 31, 0)
}
