ghost use Rattle.drafting.specs.Models.{sealed_as};
ghost use Rattle.offices.specs.Bases.{base_roles};
ghost use Rattle.offices.specs.Order.{within};
ghost use Rattle.offices.proofs.Lawfulness.{office_lawful};
ghost use Rattle.drafting.specs.Within.{within_order};
ghost use Rattle.std.proofs.Common.{rules};

use crate::sealed::Sealed;
use crate::seniority::Seniority;
use offices::Office;
use search::Graph;

impl<S: Seniority> Office for Sealed<S> {
    ghost model = { sealed_as S.over };

    ghost lawful = { λ x.
        let n = base_roles x.base in
        let over = S.over x.seniority in
        office_lawful x.base (within n over) (within_order n over x.base.table.few (S.order x.seniority)) };

    fn role_count(&self) -> u8 {
        self.base.role_count()
    }

    fn is_over(&self, senior: u8, junior: u8) -> bool {
        let roles = self.role_count();
        senior < roles && junior < roles && self.seniority.is_over(senior, junior)
    }

    fn is_shared(&self, role: u8) -> bool {
        self.base.is_shared(role)
    }

    fn set_count(&self) -> u8 {
        self.base.set_count()
    }

    fn set_bound(&self, set: u8) -> u8 {
        self.base.set_bound(set)
    }

    fn set_member(&self, set: u8, place: u8) -> Option<u8> {
        self.base.set_member(set, place)
    }
}

// Where seniority is kept as steps, the office is a graph: for whoever asks by which chain one role is over another.
// (`step` tests its numbers as `is_over` does: of another type and trait, so that one function for both would be longer.)
impl<S: Seniority + Graph> Graph for Sealed<S> {
    ghost size = { λ x. base_roles x.base };

    ghost leads = { λ x. within (base_roles x.base) (S.leads x.seniority) };

    ghost few = { Prim.search rules };

    ghost inside = { Prim.search rules };

    fn nodes(&self) -> usize {
        self.role_count() as usize
    }

    fn step(&self, from: usize, to: usize) -> bool {
        let roles = self.nodes();
        from < roles && to < roles && self.seniority.step(from, to)
    }
}
