// Request sheets. A sheet is a list of bytes, one request to a line.
// A line is read into a token, the request with its numbers or its shelf mark, and a token is written as its line.
#![tactic(auto)]

ghost use Rattle.sheets.specs.Lines.{LinesMakeTheSheet};
ghost use Rattle.sheets.specs.Promise.{LinesAndTokensMatch};

mod fault;
mod lines;
mod numbers;
mod reading;
mod token;
mod writing;

pub use fault::Fault;
pub use lines::Lines;
pub use reading::read_line;
pub use token::Token;
pub use writing::{columns, write_line};

// Carries the proof that lines and tokens match: a line reads as a token exactly if it is the line that is written for it.
pub fn lines_and_tokens_match()
    ensures { LinesAndTokensMatch }
{}

// Carries the proof that the lines of a sheet hold no line feed and make the sheet again.
pub fn lines_make_the_sheet()
    ensures { LinesMakeTheSheet }
{}
