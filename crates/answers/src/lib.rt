// Why a request is refused, and the number by which each refusal is known.
#![tactic(auto)]

ghost use Rattle.std.specs.Prelude.{◌≡◌};
ghost use Rattle.answers.specs.Numbers.{number_of};

use std::error::Error;
use std::fmt;

#[derive(Clone, Copy, PartialEq, Eq, Debug)]
pub enum Refusal {
    // a slip: no such office
    NoSuchOffice,
    // a slip: no role has this code
    NoSuchCode,
    // a slip: a card above 255
    NoSuchCard,
    // a slip: the strip has fewer than 1,024 places
    ShortStrip,
    // the asking office: both codes are of one office
    SameOffice,
    // the asking office: the link stands already
    AlreadyLinked,
    // the asking office: the link does not stand
    NotLinked,
    // the asking office: the link is suspended already
    AlreadySuspended,
    // the asking office: the link is in force already
    AlreadyInForce,
    // the owning office: the role linked to is not shared
    NotShared,
    // the owning office: an office cannot distrust itself
    OwnTrust,
    // the card room: the card is issued already
    AlreadyIssued,
    // the card room: the card is not issued
    NotIssued,
    // the card room: the role is of another office than the card's
    ForeignRole,
    // the card room: the card holds the role already
    AlreadyHeld,
    // the card room: the card does not hold the role
    NotHeld,
    // the register: 256 links stand already
    LinksFull,
    // the register: the result would be unsound
    Unsound,
    // drafting: no such role
    NoSuchRole,
    // drafting: senior equals junior, or the junior is over the senior already
    Circular,
    // drafting: the list office keeps 128 pairs already
    PairsFull,
    // drafting: the junior has a direct senior already
    SeniorTaken,
    // drafting: a set of a bad size, with a repeated role or with a bad bound
    BadSet,
    // drafting: the office has 8 sets already
    SetsFull,
    // sheet: the line has another length
    WrongLength,
    // sheet: the line begins with no request's word
    UnknownWord,
    // sheet: a number, a shelf mark or an unused field is not written as it should be
    BadField,
}

impl Refusal {
    // The numbers stand in one definition, `number_of`, and here alone in code: a rule of the project.
    // no `From<Refusal> for u8`: at a caller `refusal.number()` says what the byte is, and `u8::from(refusal)` does not
    pub fn number(self) -> u8
        ensures { result ≡ number_of self }
    {
        match self {
            Refusal::NoSuchOffice => 1,
            Refusal::NoSuchCode => 2,
            Refusal::NoSuchCard => 3,
            Refusal::ShortStrip => 4,
            Refusal::SameOffice => 5,
            Refusal::AlreadyLinked => 6,
            Refusal::NotLinked => 7,
            Refusal::AlreadySuspended => 8,
            Refusal::AlreadyInForce => 8,
            Refusal::NotShared => 9,
            Refusal::OwnTrust => 10,
            Refusal::AlreadyIssued => 11,
            Refusal::NotIssued => 12,
            Refusal::ForeignRole => 13,
            Refusal::AlreadyHeld => 14,
            Refusal::NotHeld => 14,
            Refusal::LinksFull => 15,
            Refusal::Unsound => 16,
            Refusal::NoSuchRole => 21,
            Refusal::Circular => 22,
            Refusal::PairsFull => 23,
            Refusal::SeniorTaken => 24,
            Refusal::BadSet => 25,
            Refusal::SetsFull => 26,
            Refusal::WrongLength => 31,
            Refusal::UnknownWord => 32,
            Refusal::BadField => 33,
        }
    }
}

// Why, as a sentence without its full stop.
impl fmt::Display for Refusal {
    fn fmt<W: fmt::Write>(&self, f: &mut fmt::Formatter<W>) -> fmt::Result {
        f.write_str(match self {
            Refusal::NoSuchOffice => "there is no such office",
            Refusal::NoSuchCode => "no role has this code",
            Refusal::NoSuchCard => "there is no card above 255",
            Refusal::ShortStrip => "the strip has fewer than 1,024 places",
            Refusal::SameOffice => "both codes are of one office",
            Refusal::AlreadyLinked => "the link stands already",
            Refusal::NotLinked => "the link does not stand",
            Refusal::AlreadySuspended => "the link is suspended already",
            Refusal::AlreadyInForce => "the link is in force already",
            Refusal::NotShared => "the role linked to is not shared",
            Refusal::OwnTrust => "an office cannot distrust itself",
            Refusal::AlreadyIssued => "the card is issued already",
            Refusal::NotIssued => "the card is not issued",
            Refusal::ForeignRole => "the role is of another office than the card's",
            Refusal::AlreadyHeld => "the card holds the role already",
            Refusal::NotHeld => "the card does not hold the role",
            Refusal::LinksFull => "there are 256 links already",
            Refusal::Unsound => "the result would be unsound",
            Refusal::NoSuchRole => "there is no such role",
            Refusal::Circular => "the two are one role, or the junior is over the senior already",
            Refusal::PairsFull => "there are 128 pairs already",
            Refusal::SeniorTaken => "the junior has a direct senior already",
            Refusal::BadSet => "a set has 2 to 8 different roles and a bound from 2 to its size",
            Refusal::SetsFull => "there are 8 sets already",
            Refusal::WrongLength => "the line has another length",
            Refusal::UnknownWord => "the line begins with no request's word",
            Refusal::BadField =>
                "a number, a shelf mark or an unused field is not written as it should be",
        })
    }
}

impl Error for Refusal {}
