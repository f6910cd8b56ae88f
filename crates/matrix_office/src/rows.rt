ghost use Rattle.std.specs.Prelude.{◌≡◌, ℕ, Ok};
ghost use Rattle.matrix_office.specs.Rows.{joined, matrix_over};
ghost use Rattle.offices.specs.Members.{holds, row_holds};
ghost use Rattle.offices.specs.Order.{itself_alone};
ghost use Rattle.offices.proofs.Props.{order_from};

use crate::matrix::Matrix;
use answers::Refusal;
use drafting::{Seniority, storable};
use offices::RoleSet;
use std::array;

// Each role that is over `senior` is now over the roles of `below` too.
fn absorb(rows: &mut [RoleSet], senior: u8, below: RoleSet)
    ensures { (a b : ℕ) → row_holds rows.new a b ≡ joined (row_holds rows.old) senior (holds below) a b }
{
    for row in rows.iter_mut() {
        if row.contains(senior) {
            *row = row.union(below);
        }
    }
}

// Each role in its own row alone.
fn diagonal() -> [RoleSet; 64]
    ensures { (a b : ℕ) → row_holds result a b ≡ itself_alone 64 a b }
{
    array::from_fn(|role| RoleSet::empty().with(role as u8))
}

impl Seniority for Matrix {
    ghost over = { matrix_over };

    ghost own = { λ _ _ _. Ok tt };

    ghost stored = { λ _ _ _ _ _. Unit {0} };

    ghost blank = { λ _. Unit {0} };

    ghost order = { λ x. order_from 64 (row_holds x.rows) x.order };

    fn alone() -> Matrix {
        Matrix { rows: diagonal() }
    }

    fn is_over(&self, senior: u8, junior: u8) -> bool {
        senior < 64 && self.rows[senior as usize].contains(junior)
    }

    fn keep(&mut self, senior: u8, junior: u8) -> Result<(), Refusal> {
        storable(senior, junior, self.is_over(junior, senior))?;
        let below = self.rows[junior as usize];
        absorb(&mut self.rows, senior, below);
        Ok(())
    }
}
