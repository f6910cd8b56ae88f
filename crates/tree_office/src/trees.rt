ghost use Rattle.std.specs.Prelude.{◌≡◌, ℕ, None};
ghost use Rattle.tree_office.specs.Climb.{TreeLaw};
ghost use Rattle.tree_office.specs.Seniors.{senior_in, climbed, free_answer, with_senior};
ghost use Rattle.tree_office.specs.Climbing.{grows_from};

use crate::tree::Tree;
use answers::Refusal;
use drafting::{Seniority, storable};

impl Tree {
    // The direct senior of a role.
    pub fn senior(&self, role: u8) -> Option<u8>
        ensures value { result ≡ senior_in self.now role }
        ensures tree { TreeLaw 64 (senior_in self.now) (climbed self.now) }
    {
        *self.seniors.get(role as usize)?
    }
}

impl Seniority for Tree {
    ghost over = { climbed };

    ghost own = { λ t _ j. free_answer (senior_in t j) };

    ghost stored = { λ x s j r y. ((b : ℕ) → senior_in y b ≡ with_senior r (senior_in x) s j b) };

    ghost blank = { λ t. ((b : ℕ) → senior_in t b ≡ None) };

    ghost order = { λ x. (grows_from 64 (senior_in x) x.grows).0 };

    fn alone() -> Tree {
        Tree {
            seniors: [None; 64],
        }
    }

    // Climbs from the junior by direct seniors; no role is 64 or more steps below another.
    fn is_over(&self, senior: u8, junior: u8) -> bool {
        if junior >= 64 {
            return false;
        }
        let mut at = junior;
        for turn in 0..64u8 {
            if at == senior {
                return true;
            }
            let Some(next) = self.senior(at) else {
                return false;
            };
            at = next;
        }
        false
    }

    fn keep(&mut self, senior: u8, junior: u8) -> Result<(), Refusal> {
        storable(senior, junior, self.is_over(junior, senior))?;
        if self.senior(junior).is_some() {
            return Err(Refusal::SeniorTaken);
        }
        self.seniors[junior as usize] = Some(senior);
        Ok(())
    }
}
