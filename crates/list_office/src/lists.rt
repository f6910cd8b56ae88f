ghost use Rattle.std.specs.Prelude.{◌≡◌, []};
ghost use Rattle.list_office.specs.Listed.{pairs_in, list_over, room_answer, with_pair};
ghost use Rattle.offices.specs.Members.{row_holds};
ghost use Rattle.std.proofs.Common.{arith};
ghost use Rattle.list_office.specs.PairProps.{steps_inside, acyclic_from};

use crate::list::PairList;
use crate::pair::Pair;
use answers::Refusal;
use arrayvec::ArrayVec;
use drafting::{Seniority, storable};
use offices::RoleSet;
use search::{Graph, best_chain};

// A step leads from senior to junior by each pair.
impl Graph for PairList {
    ghost size = { λ _. 64 };

    ghost leads = { λ l. row_holds l.juniors };

    ghost few = { λ x. omega arith };

    ghost inside = { λ x a b h. steps_inside x a b h };

    fn nodes(&self) -> usize {
        self.juniors.len()
    }

    fn step(&self, from: usize, to: usize) -> bool {
        if from >= 64 || to >= 64 {
            return false;
        }
        self.juniors[from].contains(to as u8)
    }
}

impl Seniority for PairList {
    ghost over = { list_over };

    ghost own = { λ l _ _. room_answer (pairs_in l) };

    ghost stored = { λ x s j r y. pairs_in y ≡ with_pair r (pairs_in x) (record { senior = s; junior = j }) };

    ghost blank = { λ l. pairs_in l ≡ [] };

    ghost order = { λ x. (acyclic_from 64 (pairs_in x) x.order).order };

    fn alone() -> PairList {
        PairList {
            pairs: ArrayVec::new(),
            juniors: [RoleSet::empty(); 64],
        }
    }

    // A role is over another where a chain of pairs leads from the one to the other.
    fn is_over(&self, senior: u8, junior: u8) -> bool {
        if senior >= 64 {
            return false;
        }
        let mut starts = [false; 64];
        starts[senior as usize] = true;
        let mut near = [None; 64];
        let mut home = [None; 64];
        let mut strip = [0; 64];
        best_chain(
            self,
            &starts,
            junior as usize,
            &mut near,
            &mut home,
            &mut strip,
        )
        .is_ok_and(|found| found.len.is_some())
    }

    fn keep(&mut self, senior: u8, junior: u8) -> Result<(), Refusal> {
        storable(senior, junior, self.is_over(junior, senior))?;
        if self.pairs.is_full() {
            return Err(Refusal::PairsFull);
        }
        let below = self.juniors[senior as usize].with(junior);
        self.juniors[senior as usize] = below;
        self.pairs.push(Pair { senior, junior });
        Ok(())
    }
}
