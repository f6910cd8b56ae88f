// Tokens that are refused, with nothing written.
use crate::shared::unwritten;
use sheets::{Token, write_line};
use std::process::Abort;
use std::test::Fail;

// The token is refused by this number, with nothing written.
fn refused(rt: &impl Abort, token: Token<'_>, line: &mut [u8], number: u8) -> Result<(), Fail> {
    let answer = write_line(token, line);
    unwritten(rt, answer, line, number)
}

#[test]
fn too_large(rt: HostRuntime) -> Result<(), Fail> {
    let mut line = [b'?'; 20];
    let card = 1_000_000;
    refused(&rt, Token::Issue { card, office: 1 }, &mut line, 33)?;
    let office = 1_000_000;
    refused(&rt, Token::Issue { card: 1, office }, &mut line, 33)?;
    let card = u32::MAX;
    refused(&rt, Token::Handback { card }, &mut line, 33)?;
    let mark = b"elevenbytes";
    refused(&rt, Token::Box { mark }, &mut line, 33)?;
    let mark = b"thirteen bytes";
    refused(&rt, Token::Box { mark }, &mut line, 33)?;
    let mark = b"aaaaaaaaaaa\x7F";
    refused(&rt, Token::Box { mark }, &mut line, 33)
}

// The length comes first.
#[test]
fn wrong_length(rt: HostRuntime) -> Result<(), Fail> {
    let mut line = [b'?'; 19];
    refused(&rt, Token::Send, &mut line, 31)?;
    let card = 1_000_000;
    refused(&rt, Token::Handback { card }, &mut line, 31)?;
    refused(&rt, Token::Box { mark: b"" }, &mut line, 31)
}

// A box's shelf mark is the line's own twelve bytes.
#[test]
fn mark_of_line(rt: HostRuntime) -> Result<(), Fail> {
    let line = b"BOX     SHELF MARK 1";
    match sheets::read_line(line) {
        Ok(Token::Box { mark }) => {
            assert_eq!(rt; mark, &line[8..20]);
            Ok(())
        },
        _ => Err(Fail::new("no box")),
    }
}
