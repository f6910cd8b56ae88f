ghost use Rattle.std.specs.Prelude.{◌≡◌, if◌then◌else◌};
ghost use Rattle.banks.specs.Banks.{office_at, with_office};
ghost use Rattle.banks.specs.Joined.{length_heard, lawful_with};

use crate::bank::Bank;
use offices::Office;

// A bank and one office more.
#[derive(Drop)]
pub struct Join<B: Bank, O: Office> {
    bank: B,
    last: O,
}

impl<B: Bank, O: Office> Join<B, O> {
    // A seventeenth office joins too, and is not heard.
    pub fn new(bank: B, last: O) -> Join<B, O>
        ensures { (result.bank ≡ bank) × (result.last ≡ last) }
    {
        Join { bank, last }
    }

    // Whether the last office has this number. For each other number the bank before it answers: also for one that no
    // office has. (One function for the six questions would take both answers as closures, and be longer than an `if`.)
    fn is_last(&self, office: u8) -> bool
        ensures { office_at (with_office (B.offices self.now.bank) (O.model self.now.last)) office ≡ (if result then O.model self.now.last else office_at (B.offices self.now.bank) office) }
    {
        office < 16 && office == self.bank.office_count()
    }
}

impl<B: Bank, O: Office> Bank for Join<B, O> {
    ghost offices = { λ x. with_office (B.offices x.bank) (O.model x.last) };

    ghost heard = { λ x. length_heard (B.offices x.bank) (O.model x.last) };

    ghost lawful = { λ x k. lawful_with (B.offices x.bank) (O.model x.last) (B.heard x.bank) (B.lawful x.bank) (O.lawful x.last) k };

    fn office_count(&self) -> u8 {
        (self.bank.office_count() + 1).min(16)
    }

    fn role_count(&self, office: u8) -> u8 {
        if self.is_last(office) {
            self.last.role_count()
        } else {
            self.bank.role_count(office)
        }
    }

    fn is_over(&self, office: u8, senior: u8, junior: u8) -> bool {
        if self.is_last(office) {
            self.last.is_over(senior, junior)
        } else {
            self.bank.is_over(office, senior, junior)
        }
    }

    fn is_shared(&self, office: u8, role: u8) -> bool {
        if self.is_last(office) {
            self.last.is_shared(role)
        } else {
            self.bank.is_shared(office, role)
        }
    }

    fn set_count(&self, office: u8) -> u8 {
        if self.is_last(office) {
            self.last.set_count()
        } else {
            self.bank.set_count(office)
        }
    }

    fn set_bound(&self, office: u8, set: u8) -> u8 {
        if self.is_last(office) {
            self.last.set_bound(set)
        } else {
            self.bank.set_bound(office, set)
        }
    }

    fn set_member(&self, office: u8, set: u8, place: u8) -> Option<u8> {
        if self.is_last(office) {
            self.last.set_member(set, place)
        } else {
            self.bank.set_member(office, set, place)
        }
    }
}
