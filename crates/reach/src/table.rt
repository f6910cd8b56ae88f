ghost use Rattle.std.specs.Prelude.{IfOk};
ghost use Rattle.reach.specs.Tables.{NothingReached, Entered};

use crate::rows::Rows;
use std::alloc::{AllocError, Global};

// What each code reaches, what the roles of each card reach, and for each office what the roles of all the offices
// that it does not trust reach together. Made once; nothing in it grows.
#[derive(Drop)]
pub struct ReachTable {
    pub codes: Rows<1024>,
    pub cards: Rows<256>,
    pub owners: Rows<16>,
}

impl ReachTable {
    pub fn new(heap: Global) -> Result<ReachTable, AllocError>
        ensures { IfOk result NothingReached }
    {
        Ok(ReachTable {
            codes: Rows::new(heap)?,
            cards: Rows::new(heap)?,
            owners: Rows::new(heap)?,
        })
    }

    // One link more: whatever reaches `from` now reaches what `to` reaches.
    pub fn enter(&mut self, from: u16, to: u16)
        ensures { Entered self.old from to self.new }
    {
        let beyond = self.codes.row(usize::from(to));
        self.codes.extend(from, &beyond);
        self.cards.extend(from, &beyond);
        self.owners.extend(from, &beyond);
    }
}
