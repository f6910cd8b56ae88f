// A line of a sheet, read.
use std::fmt;

// A token is a request with its numbers. A box has a shelf mark in place of numbers: the twelve bytes of the line itself,
// and no copy of them. Both are rules of the project.
#[derive(Clone, Copy, PartialEq, Eq, Debug)]
pub enum Token<'a> {
    Issue { card: u32, office: u32 },
    Assign { card: u32, code: u32 },
    Relieve { card: u32, code: u32 },
    Handback { card: u32 },
    Trust { truster: u32, trusted: u32 },
    Distrust { truster: u32, trusted: u32 },
    Link { from: u32, to: u32 },
    Try { from: u32, to: u32 },
    Suspend { from: u32, to: u32 },
    Resume { from: u32, to: u32 },
    Withdraw { from: u32, to: u32 },
    May { card: u32, code: u32 },
    Box { mark: &'a [u8] },
    Send,
}

// What a request says.
impl<'a> fmt::Display for Token<'a> {
    fn fmt<W: fmt::Write>(&self, f: &mut fmt::Formatter<W>) -> fmt::Result {
        match self {
            Token::Issue { card, office } => write!(f, "issue card {card} to office {office}"),
            Token::Assign { card, code } => write!(f, "assign role {code} to card {card}"),
            Token::Relieve { card, code } => write!(f, "relieve card {card} of role {code}"),
            Token::Handback { card } => write!(f, "card {card} is handed back"),
            Token::Trust { truster, trusted } => write!(
                f,
                "office {truster} trusts office {trusted}"
            ),
            Token::Distrust { truster, trusted } => write!(
                f,
                "office {truster} trusts office {trusted} no more"
            ),
            Token::Link { from, to } => write!(f, "link {from} to {to}"),
            Token::Try { from, to } => write!(f, "try a link of {from} to {to}"),
            Token::Suspend { from, to } => write!(f, "suspend the link of {from} to {to}"),
            Token::Resume { from, to } => write!(f, "resume the link of {from} to {to}"),
            Token::Withdraw { from, to } => write!(f, "withdraw the link of {from} to {to}"),
            Token::May { card, code } => write!(f, "may card {card} act as {code}?"),
            Token::Box { mark } => {
                let size = mark.len();
                write!(f, "open a box with a shelf mark of {size} bytes")
            }
            Token::Send => write!(f, "send the box"),
        }
    }
}
