// From a token to its line, and numbers in columns.
ghost use Rattle.std.specs.Prelude.{◌≡◌, ◌++◌, length};
ghost use Rattle.sheet_words.specs.Words.{word_of};
ghost use Rattle.sheets.specs.Slips.{meaning, pair_slip, handback_slip, box_slip};
ghost use Rattle.sheets.specs.Writing.{LineOf, Writes, PutFour};

use crate::numbers::field_of;
use crate::reading::is_mark;
use crate::token::Token;
use answers::Refusal;
use sheet_words::{PairWord, Word, write_word};

// A word and the twelve bytes that follow it.
fn joined(word: Word, rest: &[u8]) -> [u8; 20]
    requires { length rest.now ≡ 12 }
    ensures { result ≡ word_of word ++ rest.now }
{
    let mut line = [b' '; 20];
    line[..8].copy_from_slice(&write_word(word));
    line[8..].copy_from_slice(rest);
    line
}

fn pair_line(word: PairWord, first: u32, second: u32) -> Result<[u8; 20], Refusal>
    ensures { LineOf (pair_slip word first second) result }
{
    let fields = [field_of(first)?, field_of(second)?];
    Ok(joined(Word::Pair(word), fields.as_flattened()))
}

fn handback_line(card: u32) -> Result<[u8; 20], Refusal>
    ensures { LineOf (handback_slip card) result }
{
    let fields = [field_of(card)?, *b"      "];
    Ok(joined(Word::Handback, fields.as_flattened()))
}

fn box_line(mark: &[u8]) -> Result<[u8; 20], Refusal>
    ensures { LineOf (box_slip mark.now) result }
{
    if !is_mark(mark) {
        return Err(Refusal::BadField);
    }
    Ok(joined(Word::Box, mark))
}

// The token's line.
fn line_of(token: Token<'_>) -> Result<[u8; 20], Refusal>
    ensures { LineOf (meaning token.entry) result }
{
    match token {
        Token::Issue { card, office } => pair_line(PairWord::Issue, card, office),
        Token::Assign { card, code } => pair_line(PairWord::Assign, card, code),
        Token::Relieve { card, code } => pair_line(PairWord::Relieve, card, code),
        Token::Handback { card } => handback_line(card),
        Token::Trust { truster, trusted } => pair_line(PairWord::Trust, truster, trusted),
        Token::Distrust { truster, trusted } => pair_line(PairWord::Distrust, truster, trusted),
        Token::Link { from, to } => pair_line(PairWord::Link, from, to),
        Token::Try { from, to } => pair_line(PairWord::Try, from, to),
        Token::Suspend { from, to } => pair_line(PairWord::Suspend, from, to),
        Token::Resume { from, to } => pair_line(PairWord::Resume, from, to),
        Token::Withdraw { from, to } => pair_line(PairWord::Withdraw, from, to),
        Token::May { card, code } => pair_line(PairWord::May, card, code),
        Token::Box { mark } => box_line(mark),
        Token::Send => Ok(joined(Word::Send, b"            ")),
    }
}

// Fills the twenty bytes of `line` with the token's line, or refuses and leaves them as they are. The bytes are the
// caller's, here and in `columns`, as docs/RULES.md has it.
pub fn write_line(token: Token<'_>, line: &mut [u8]) -> Result<(), Refusal>
    ensures { Writes token.entry line.old result line.new }
{
    if line.len() != 20 {
        return Err(Refusal::WrongLength);
    }
    line.copy_from_slice(&line_of(token)?);
    Ok(())
}

// Fills the 24 bytes of `line` with four numbers of six columns each, or refuses and leaves them as they are.
pub fn columns(numbers: [u32; 4], line: &mut [u8]) -> Result<(), Refusal>
    ensures { PutFour numbers line.old result line.new }
{
    if line.len() != 24 {
        return Err(Refusal::WrongLength);
    }
    let [a, b, c, d] = numbers;
    let fields = [field_of(a)?, field_of(b)?, field_of(c)?, field_of(d)?];
    line.copy_from_slice(fields.as_flattened());
    Ok(())
}
