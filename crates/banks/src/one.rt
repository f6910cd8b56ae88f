ghost use Rattle.std.specs.Prelude.{◌≡◌, [], ◌∷◌, MatchOption};
ghost use Rattle.banks.specs.Banks.{no_office, office_at};
ghost use Rattle.banks.specs.Joined.{lawful_one};
ghost use Rattle.std.proofs.Common.{rules};

use crate::bank::Bank;
use offices::Office;

// A bank of one office.
#[derive(Drop)]
pub struct One<O: Office> {
    office: O,
}

impl<O: Office> One<O> {
    pub fn new(office: O) -> One<O>
        ensures { result.office ≡ office }
    {
        One { office }
    }

    // The office with this number, where there is one. (Each question hands its own numbers on: there is no shorter form.)
    fn at(&self, office: u8) -> Option<&O>
        ensures { MatchOption result (office_at (O.model self.now.office ∷ []) office ≡ no_office) (λ o. office_at (O.model self.now.office ∷ []) office ≡ O.model o.now) }
    {
        (office == 0).then_some(&self.office)
    }
}

impl<O: Office> Bank for One<O> {
    ghost offices = { λ x. O.model x.office ∷ [] };

    ghost heard = { Prim.search rules };

    ghost lawful = { λ x k. lawful_one (O.model x.office) (O.lawful x.office) k };

    fn office_count(&self) -> u8 {
        1
    }

    fn role_count(&self, office: u8) -> u8 {
        self.at(office).map_or(0, |one| one.role_count())
    }

    fn is_over(&self, office: u8, senior: u8, junior: u8) -> bool {
        self.at(office)
            .is_some_and(|one| one.is_over(senior, junior))
    }

    fn is_shared(&self, office: u8, role: u8) -> bool {
        self.at(office).is_some_and(|one| one.is_shared(role))
    }

    fn set_count(&self, office: u8) -> u8 {
        self.at(office).map_or(0, |one| one.set_count())
    }

    fn set_bound(&self, office: u8, set: u8) -> u8 {
        self.at(office).map_or(0, |one| one.set_bound(set))
    }

    fn set_member(&self, office: u8, set: u8, place: u8) -> Option<u8> {
        self.at(office)?.set_member(set, place)
    }
}
