// The walk from the best start to the target, and the whole search.
ghost use Rattle.std.specs.Prelude.{◌≡◌, ◌+◌, ◌-◌, ◌<◌, ◌≤◌, length};
ghost use Rattle.search.specs.Asked.{Steps, Marked};
ghost use Rattle.search.specs.Arrivals.{Shortest};
ghost use Rattle.search.specs.Chains.{Best};
ghost use Rattle.search.specs.Layers.{Layered, marked};
ghost use Rattle.search.specs.Outcomes.{Searched};
ghost use Rattle.search.specs.Walks.{SomeBelow, Least, Passing, goes_on, Descends, Walked};

use crate::graph::Graph;
use crate::layers::{homing, reach};
use crate::steps::NearerSteps;
use crate::{Outcome, Unfit};

// The smallest node at distance k that is a start, or, after a node u, to which a step leads from u. (A closure in place
// of `before` would stand in the clauses by what it returns for each node, where `goes_on` now names it.)
fn next_node<G: Graph>(
    graph: &G,
    starts: &[bool],
    before: Option<usize>,
    home: &[Option<u16>],
    k: u16,
) -> usize
    requires room { length home.now ≤ length starts.now }
    requires some { SomeBelow (length home.now) (Passing (goes_on (G.leads graph.now) (marked starts.now) before) home.now k) }
    ensures { Least (length home.now) (Passing (goes_on (G.leads graph.now) (marked starts.now) before) home.now k) result }
{
    let found = home.iter().enumerate().position(|(v, label)| {
        *label == Some(k)
            && match before {
                None => starts[v],
                Some(u) => graph.step(u, v),
            }
    });
    found.unwrap()
}

// Writes the walk: the smallest start, and at each later place the smallest node that is one step nearer.
fn walk<G: Graph>(graph: &G, starts: &[bool], home: &[Option<u16>], steps: u16, strip: &mut [u16])
    requires room { (length home.now ≤ 1024) × (length home.now ≤ length starts.now) }
    requires fills { length strip.old ≡ steps + 1 }
    requires start { SomeBelow (length home.now) (Passing (marked starts.now) home.now steps) }
    requires down { Descends (length home.now) (G.leads graph.now) home.now }
    ensures { Walked (length home.now) (G.leads graph.now) (marked starts.now) steps home.now (steps + 1) strip.new }
{
    let mut before = None;
    for (i, place) in strip.iter_mut().enumerate() {
        let v = next_node(graph, starts, before, home, steps - i as u16);
        *place = v as u16;
        before = Some(v);
    }
}

// Writes the best chain, which fills the strip. Only nodes nearer than the target are asked for
// their steps. (Graph, starts and target stay three parameters, and that `starts` has a mark for each node a fact of each
// function: in a struct, each clause would read all of them by a field more.)
fn trace<G: Graph>(
    graph: &G,
    starts: &[bool],
    target: usize,
    near: &[Option<u16>],
    home: &mut [Option<u16>],
    strip: &mut [u16],
)
    requires all { (target < G.size graph.now) × ((0 < length strip.old) × (length strip.old ≤ G.size graph.now)) }
    requires room { (G.size graph.now ≤ length starts.now) × ((length near.now ≡ G.size graph.now) × (length home.old ≡ G.size graph.now)) }
    requires short { Shortest (Steps (G.leads graph.now)) (Marked (G.size graph.now) starts.now) target (length strip.old) }
    requires labels { Layered (G.size graph.now) (G.leads graph.now) (marked starts.now) (length strip.old - 1) near.now }
    ensures { Best (Steps (G.leads graph.now)) (Marked (G.size graph.now) starts.now) target strip.new }
{
    let steps = (strip.len() - 1) as u16;
    let nearer = NearerSteps {
        graph,
        near,
        limit: steps,
    };
    homing(&nearer, target, steps, home);
    walk(&nearer, starts, home, steps, strip);
}

// Writes the best chain from the starts to the target into the first places of the strip. The
// slices `near` and `home` are lent to work in, and a place for each node is enough in each. (They are two lists, since
// one counts from the starts and the other to the target.)
pub fn best_chain<G: Graph>(
    graph: &G,
    starts: &[bool],
    target: usize,
    near: &mut [Option<u16>],
    home: &mut [Option<u16>],
    strip: &mut [u16],
) -> Result<Outcome, Unfit>
    ensures { Searched (G.size graph.now) (G.leads graph.now) starts.now target (length near.old) (length home.old) strip.old strip.new result }
{
    let n = graph.nodes();
    if target >= n || starts.len() < n || near.len() < n || home.len() < n || strip.len() < n {
        return Err(Unfit);
    }
    let near = &mut near[..n];
    let home = &mut home[..n];
    let found = reach(graph, starts, target, near);
    if let Some(len) = found.len {
        trace(graph, starts, target, near, home, &mut strip[..len]);
    }
    Ok(found)
}
