ghost use Rattle.std.specs.Prelude.{◌≡◌, ℕ, IfOk};
ghost use Rattle.reach.specs.Rows.{has, replaced};
ghost use Rattle.reach.specs.Steps.{has_step, NoStep, WithStep};
ghost use Rattle.std.proofs.Common.{arith};
ghost use Rattle.reach.specs.Within.{rows_inside};

use crate::row::Row;
use crate::rows::Rows;
use search::Graph;
use std::alloc::{AllocError, Global};

// The single steps between codes, which a search goes by: the row of a code has the codes that a step leads to from it.
#[derive(Drop)]
pub struct StepTable {
    rows: Rows<1024>,
}

impl StepTable {
    pub fn new(heap: Global) -> Result<StepTable, AllocError>
        ensures { IfOk result NoStep }
    {
        Ok(StepTable {
            rows: Rows::new(heap)?,
        })
    }

    // The steps from a code are written; from 1,024 on there is no code.
    pub fn set(&mut self, code: u16, row: Row)
        ensures { (a b : ℕ) → has_step self.new a b ≡ replaced 1024 (has_step self.old) code (has row) a b }
    {
        self.rows.set(usize::from(code), row);
    }

    // One step more.
    pub fn mark(&mut self, from: u16, to: u16)
        ensures { WithStep self.old from to self.new }
    {
        let row = self.rows.row(usize::from(from));
        self.set(from, row.with(to));
    }
}

impl Graph for StepTable {
    ghost size = { λ _. 1024 };

    ghost leads = { has_step };

    ghost few = { λ x. omega arith };

    ghost inside = { λ x. rows_inside x.rows };

    fn nodes(&self) -> usize {
        1024
    }

    fn step(&self, from: usize, to: usize) -> bool {
        u16::try_from(to).is_ok_and(|to| self.rows.contains(from, to))
    }
}
