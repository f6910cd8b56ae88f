ghost use Rattle.std.specs.Prelude.{◌≡◌};
ghost use Rattle.banks.specs.Banks.{office_at};

use crate::bank::Bank;
use offices::Office;

// One office of a bank, as an office of its own: the one with this number. Where there is none it has no roles and
// no sets. (Each answer is the bank's own to the same question, so that there is no shorter form.)
#[derive(Drop)]
pub struct OfficeAt<'a, B: Bank> {
    bank: &'a B,
    number: u8,
}

impl<'a, B: Bank> OfficeAt<'a, B> {
    pub fn new(bank: &'a B, number: u8) -> OfficeAt<'a, B>
        ensures bank { result.bank.now ≡ bank.now }
        ensures number { result.number ≡ number }
    {
        OfficeAt { bank, number }
    }
}

impl<'a, B: Bank> Office for OfficeAt<'a, B> {
    ghost model = { λ x. office_at (B.offices x.bank.now) x.number };

    ghost lawful = { λ x. B.lawful x.bank.now x.number };

    fn role_count(&self) -> u8 {
        self.bank.role_count(self.number)
    }

    fn is_over(&self, senior: u8, junior: u8) -> bool {
        self.bank.is_over(self.number, senior, junior)
    }

    fn is_shared(&self, role: u8) -> bool {
        self.bank.is_shared(self.number, role)
    }

    fn set_count(&self) -> u8 {
        self.bank.set_count(self.number)
    }

    fn set_bound(&self, set: u8) -> u8 {
        self.bank.set_bound(self.number, set)
    }

    fn set_member(&self, set: u8, place: u8) -> Option<u8> {
        self.bank.set_member(self.number, set, place)
    }
}
