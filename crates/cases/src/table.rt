// A small graph in a table: a row of eight cells for each node.
ghost use Rattle.std.specs.Prelude.{◌≡◌, ◌<◌, ◌≤◌, true, false, [], replicate, slice_set, slice_index_or};
ghost use Rattle.cases.specs.Tables.{cell};
ghost use Rattle.std.proofs.Common.{rules};

use search::Graph;

#[derive(Drop)]
pub(crate) struct Table {
    nodes: usize,
    rows: [[bool; 8]; 8],
    ghost few: { nodes ≤ 8 },
}

impl Table {
    // No steps yet.
    pub(crate) fn new(nodes: usize) -> Table
        requires { nodes ≤ 8 }
        ensures { (result.nodes ≡ nodes) × (result.rows ≡ replicate 8 (replicate 8 false)) }
    {
        Table {
            nodes,
            rows: [[false; 8]; 8],
        }
    }

    // One step more.
    pub(crate) fn with(mut self, from: usize, to: usize) -> Table
        requires { (from < 8) × (to < 8) }
        ensures { (result.nodes ≡ self.nodes) × (result.rows ≡ slice_set self.rows from (slice_set (slice_index_or self.rows from []) to true)) }
    {
        self.rows[from][to] = true;
        self
    }
}

impl Graph for Table {
    ghost size = { λ x. x.nodes };

    ghost leads = { λ x a b. cell x.nodes x.rows a b };

    ghost few = { Prim.search rules };

    ghost inside = { Prim.search rules };

    fn nodes(&self) -> usize {
        self.nodes
    }

    fn step(&self, from: usize, to: usize) -> bool {
        from < self.nodes && to < self.nodes && self.rows[from][to]
    }
}
