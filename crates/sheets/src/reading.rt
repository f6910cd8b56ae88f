// From a line to its token. The word begins at column 1, and the two fields at columns 9 and 15.
ghost use Rattle.std.specs.Prelude.{◌≡◌, ◌≢◌, Decides, MatchOption};
ghost use Rattle.sheets.specs.Slips.{blank, meaning, pair_slip, Mark};
ghost use Rattle.sheets.specs.Reading.{BothRead, Reads, ReadsBack, BoxLent};

use crate::fault::Fault;
use crate::numbers::read_number;
use crate::token::Token;
use sheet_words::{PairWord, Word, read_word};

// An unused field.
fn read_blank(field: &[u8]) -> Option<()>
    ensures { MatchOption result (field.now ≢ blank) (λ _. field.now ≡ blank) }
{
    (field == b"      ".as_slice()).then_some(())
}

// Twelve bytes from the space to the tilde.
pub fn is_mark(mark: &[u8]) -> bool
    ensures { Decides result (Mark mark.now) }
{
    mark.len() == 12 && mark.iter().all(|byte| matches!(*byte, 0x20..=0x7E))
}

// What was read of the two fields of a line, or the first of them that is bad.
fn both<A: Drop, B: Drop>(first: Option<A>, second: Option<B>) -> Result<(A, B), Fault>
    ensures { BothRead first second result }
{
    let first = first.ok_or(Fault::BadField { column: 9 })?;
    let second = second.ok_or(Fault::BadField { column: 15 })?;
    Ok((first, second))
}

// The request of a word that two numbers follow.
fn pair_token<'a>(word: PairWord, first: u32, second: u32) -> Token<'a>
    ensures { meaning result ≡ pair_slip word first second }
{
    match (word, first, second) {
        (PairWord::Issue, card, office) => Token::Issue { card, office },
        (PairWord::Assign, card, code) => Token::Assign { card, code },
        (PairWord::Relieve, card, code) => Token::Relieve { card, code },
        (PairWord::Trust, truster, trusted) => Token::Trust { truster, trusted },
        (PairWord::Distrust, truster, trusted) => Token::Distrust { truster, trusted },
        (PairWord::Link, from, to) => Token::Link { from, to },
        (PairWord::Try, from, to) => Token::Try { from, to },
        (PairWord::Suspend, from, to) => Token::Suspend { from, to },
        (PairWord::Resume, from, to) => Token::Resume { from, to },
        (PairWord::Withdraw, from, to) => Token::Withdraw { from, to },
        (PairWord::May, card, code) => Token::May { card, code },
    }
}

// What a line holds, or its first fault: its length, then its word, then its fields from the left.
pub fn read_line<'a>(line: &'a [u8]) -> Result<Token<'a>, Fault>
    ensures reads { Reads line.now result }
    ensures back { ReadsBack line.now result }
    ensures lent { BoxLent line.entry result }
{
    if line.len() != 20 {
        return Err(Fault::WrongLength);
    }
    let word = read_word(&line[..8]).ok_or(Fault::UnknownWord)?;
    let first = &line[8..14];
    let second = &line[14..20];
    match word {
        Word::Pair(word) => {
            let (first, second) = both(read_number(first), read_number(second))?;
            Ok(pair_token(word, first, second))
        }
        Word::Handback => {
            let (card, ()) = both(read_number(first), read_blank(second))?;
            Ok(Token::Handback { card })
        }
        Word::Box => {
            // no copy: the line's own bytes
            let mark = &line[8..20];
            if is_mark(mark) {
                Ok(Token::Box { mark })
            } else {
                Err(Fault::BadField { column: 9 })
            }
        }
        Word::Send => {
            both(read_blank(first), read_blank(second))?;
            Ok(Token::Send)
        }
    }
}
