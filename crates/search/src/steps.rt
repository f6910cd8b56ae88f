// The steps that a part of a search looks at: those from nearer nodes alone, or each turned round.
ghost use Rattle.search.specs.Layers.{masked, turned};
ghost use Rattle.search.specs.Inside.{masked_inside, turned_inside};

use crate::graph::Graph;

// The steps from nodes at a distance below `limit`. No other node is asked for its steps.
#[derive(Drop)]
pub struct NearerSteps<'a, 'b, G> {
    pub graph: &'a G,
    pub near: &'b [Option<u16>],
    pub limit: u16,
}

impl<G: Graph> Graph for NearerSteps<'_, '_, G> {
    ghost size = { λ x. G.size x.graph.now };

    ghost leads = { λ x. masked x.near.now x.limit (G.leads x.graph.now) };

    ghost few = { λ x. G.few x.graph.now };

    ghost inside = { λ x. masked_inside x.near.now x.limit (G.inside x.graph.now) };

    fn nodes(&self) -> usize {
        self.graph.nodes()
    }

    fn step(&self, from: usize, to: usize) -> bool {
        matches!(self.near.get(from), Some(Some(k)) if *k < self.limit) && self.graph.step(from, to)
    }
}

// Each step turned round.
#[derive(Drop)]
pub struct TurnedSteps<'a, G> {
    pub graph: &'a G,
}

impl<G: Graph> Graph for TurnedSteps<'_, G> {
    ghost size = { λ x. G.size x.graph.now };

    ghost leads = { λ x. turned (G.leads x.graph.now) };

    ghost few = { λ x. G.few x.graph.now };

    ghost inside = { λ x. turned_inside (G.inside x.graph.now) };

    fn nodes(&self) -> usize {
        self.graph.nodes()
    }

    fn step(&self, from: usize, to: usize) -> bool {
        self.graph.step(to, from)
    }
}
