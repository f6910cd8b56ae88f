// The words of the requests, as they stand in the first eight columns of a line.
#![tactic(auto)]

ghost use Rattle.std.specs.Prelude.{◌≡◌};
ghost use Rattle.sheet_words.specs.Words.{word_of, Spells};

// The words that two numbers follow.
#[derive(Clone, Copy, PartialEq, Eq, Debug)]
pub enum PairWord {
    Issue,
    Assign,
    Relieve,
    Trust,
    Distrust,
    Link,
    Try,
    Suspend,
    Resume,
    Withdraw,
    May,
}

// Every request's word, by what follows it: two numbers, one number, a shelf mark or nothing.
#[derive(Clone, Copy, PartialEq, Eq, Debug)]
pub enum Word {
    Pair(PairWord),
    Handback,
    Box,
    Send,
}

// One case for each request, by its literal word, here and in `read_word`: so a rule of the project has it.
pub fn write_word(word: Word) -> [u8; 8]
    ensures { result ≡ word_of word }
{
    match word {
        Word::Pair(PairWord::Issue) => *b"ISSUE   ",
        Word::Pair(PairWord::Assign) => *b"ASSIGN  ",
        Word::Pair(PairWord::Relieve) => *b"RELIEVE ",
        Word::Pair(PairWord::Trust) => *b"TRUST   ",
        Word::Pair(PairWord::Distrust) => *b"DISTRUST",
        Word::Pair(PairWord::Link) => *b"LINK    ",
        Word::Pair(PairWord::Try) => *b"TRY     ",
        Word::Pair(PairWord::Suspend) => *b"SUSPEND ",
        Word::Pair(PairWord::Resume) => *b"RESUME  ",
        Word::Pair(PairWord::Withdraw) => *b"WITHDRAW",
        Word::Pair(PairWord::May) => *b"MAY     ",
        Word::Handback => *b"HANDBACK",
        Word::Box => *b"BOX     ",
        Word::Send => *b"SEND    ",
    }
}

// The word that the bytes spell, if they spell one.
#[tactic(auto, using(crate::proofs::Eight::from_eight))]
pub fn read_word(bytes: &[u8]) -> Option<Word>
    ensures { Spells bytes.now result }
{
    match bytes {
        b"ISSUE   " => Some(Word::Pair(PairWord::Issue)),
        b"ASSIGN  " => Some(Word::Pair(PairWord::Assign)),
        b"RELIEVE " => Some(Word::Pair(PairWord::Relieve)),
        b"TRUST   " => Some(Word::Pair(PairWord::Trust)),
        b"DISTRUST" => Some(Word::Pair(PairWord::Distrust)),
        b"LINK    " => Some(Word::Pair(PairWord::Link)),
        b"TRY     " => Some(Word::Pair(PairWord::Try)),
        b"SUSPEND " => Some(Word::Pair(PairWord::Suspend)),
        b"RESUME  " => Some(Word::Pair(PairWord::Resume)),
        b"WITHDRAW" => Some(Word::Pair(PairWord::Withdraw)),
        b"MAY     " => Some(Word::Pair(PairWord::May)),
        b"HANDBACK" => Some(Word::Handback),
        b"BOX     " => Some(Word::Box),
        b"SEND    " => Some(Word::Send),
        _ => None,
    }
}
