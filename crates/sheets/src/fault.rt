// What is wrong with a line.
ghost use Rattle.std.specs.Prelude.{◌≡◌};
ghost use Rattle.sheets.specs.Faults.{refusal_of, column_of};

use answers::Refusal;
use std::error::Error;
use std::fmt;

// The first fault of a line. A bad field goes by its first column; columns count from 1.
#[derive(Clone, Copy, PartialEq, Eq, Debug)]
pub enum Fault {
    WrongLength,
    UnknownWord,
    BadField { column: u8 },
}

impl Fault {
    // The first column of what is bad. It is 0, and no `None`, where that is the whole line: so the rules of sheets number it.
    pub fn column(self) -> u8
        ensures { result ≡ column_of self }
    {
        match self {
            Fault::WrongLength => 0,
            Fault::UnknownWord => 1,
            Fault::BadField { column } => column,
        }
    }
}

impl From<Fault> for Refusal {
    ghost from_gives = { λ fault refusal. refusal ≡ refusal_of fault };

    fn from(fault: Fault) -> Refusal {
        match fault {
            Fault::WrongLength => Refusal::WrongLength,
            Fault::UnknownWord => Refusal::UnknownWord,
            Fault::BadField { .. } => Refusal::BadField,
        }
    }
}

impl fmt::Display for Fault {
    fn fmt<W: fmt::Write>(&self, f: &mut fmt::Formatter<W>) -> fmt::Result {
        let refusal = Refusal::from(*self);
        match self {
            Fault::BadField { column } => write!(f, "{refusal}, at column {column}"),
            _ => write!(f, "{refusal}"),
        }
    }
}

impl Error for Fault {}
