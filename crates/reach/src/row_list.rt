// Rows by their places.
ghost use Rattle.std.specs.Prelude.{◌≡◌, ℕ, length, IfOk};
ghost use Rattle.reach.specs.Rows.{has, rows_have, Blank, replaced, joined};

use crate::row::Row;
use crate::rows::Rows;
use std::alloc::{AllocError, Global};

impl<const N: usize> Rows<N> {
    // Rows with no code.
    pub fn new(heap: Global) -> Result<Rows<N>, AllocError>
        ensures { IfOk result Blank }
    {
        let rows = vec![in heap; Row::empty(); N]?;
        Ok(Rows { rows })
    }

    // The row at this place, or an empty one.
    pub fn row(&self, at: usize) -> Row
        ensures { (b : ℕ) → has result b ≡ rows_have self.now at b }
    {
        self.rows.get(at).copied().unwrap_or(Row::empty())
    }

    // Whether the row at this place has a code.
    pub fn contains(&self, at: usize, code: u16) -> bool
        ensures { result ≡ rows_have self.now at code }
    {
        self.rows.get(at).is_some_and(|row| row.contains(code))
    }

    // Writes the row at this place; from N on there is none.
    pub fn set(&mut self, at: usize, row: Row)
        ensures { (a b : ℕ) → rows_have self.new a b ≡ replaced N (rows_have self.old) at (has row) a b }
    {
        if let Some(place) = self.rows.get_mut(at) {
            *place = row;
        }
    }

    // Each row that has the code `from` also has what `beyond` has. (A matrix office does so to sets of roles: a trait for
    // both, with its laws and two impls, would be longer than the two loops.)
    pub(crate) fn extend(&mut self, from: u16, beyond: &Row)
        ensures { (a b : ℕ) → rows_have self.new a b ≡ joined (rows_have self.old a) from (has beyond.now) b }
    {
        for row in self.rows.iter_mut() {
            if row.contains(from) {
                *row = row.join(beyond);
            }
        }
    }
}
