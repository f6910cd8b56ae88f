// Best chains in any graph.
#![tactic(auto)]

ghost use Rattle.search.specs.Laws.{OneBest, OneNearer, OneReached, NearerFew, OneOutcome};

use std::error::Error;
use std::fmt;

mod best;
mod graph;
mod layers;
mod steps;

pub use best::best_chain;
pub use graph::Graph;

// What a search finds: how many nodes the best chain has, where one leads to the target; and how
// many nodes' steps were looked at.
#[derive(Clone, Copy, PartialEq, Eq, Debug)]
pub struct Outcome {
    pub len: Option<usize>,
    pub looked: usize,
}

// The target is no node, or a slice is too short.
#[derive(Clone, Copy, PartialEq, Eq, Debug)]
pub struct Unfit;

impl fmt::Display for Unfit {
    fn fmt<W: fmt::Write>(&self, f: &mut fmt::Formatter<W>) -> fmt::Result {
        write!(f, "the target is no node, or a slice is too short")
    }
}

impl Error for Unfit {}

// The laws that make each outcome the only one.
pub fn outcome_is_single()
    ensures best { OneBest }
    ensures nearer { OneNearer }
    ensures reached { OneReached }
    ensures few { NearerFew }
    ensures outcome { OneOutcome }
{}
