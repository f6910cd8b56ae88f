// Distances, layer by layer: from the starts, and back from the target.
ghost use Rattle.std.specs.Prelude.{◌≡◌, ℕ, ◌+◌, ◌<◌, ◌≤◌, Bool, length};
ghost use Rattle.search.specs.Layers.{Spread, Layered, Grown, at_layer, marked, only, turned, Begun};
ghost use Rattle.search.specs.Arrivals.{Arriving};

use crate::Outcome;
use crate::graph::Graph;
use crate::steps::TurnedSteps;

// Gives each node without a distance to which a step leads from u the distance k + 1.
fn expand<G: Graph>(graph: &G, u: usize, k: u16, d: &mut [Option<u16>])
    requires { k < u16.MAX }
    ensures { Spread (G.leads graph.now) u k (length d.old) d.old d.new }
{
    for (v, label) in d.iter_mut().enumerate() {
        if label.is_none() && graph.step(u, v) {
            *label = Some(k + 1);
        }
    }
}

// Expands the nodes at distance k, and says how many there are.
fn layer<G: Graph>(graph: &G, k: u16, d: &mut [Option<u16>]) -> usize
    requires { k < u16.MAX }
    ensures next { (st : ℕ → Bool) → Layered (length d.old) (G.leads graph.now) st k d.old → Layered (length d.old) (G.leads graph.now) st (k + 1) d.new }
    ensures grown { Grown k d.old d.new }
    ensures many { result ≡ at_layer k d.old (length d.old) }
{
    let mut count = 0;
    // By index, since the expansion of a node writes to the others.
    for u in 0..d.len() {
        if d[u] == Some(k) {
            expand(graph, u, k, d);
            count += 1;
        }
    }
    count
}

// The distances to begin with: 0 at the starts. (No `zip`: after one a proof knows nothing of what `iter_mut` wrote.)
fn seed(starts: &[bool], d: &mut [Option<u16>])
    requires { length d.old ≤ length starts.now }
    ensures { Begun (marked starts.now) (length d.old) d.new }
{
    for (v, label) in d.iter_mut().enumerate() {
        *label = if starts[v] { Some(0) } else { None };
    }
}

// Goes from the starts, layer by layer, until the target has a distance or a layer is empty.
pub fn reach<G: Graph>(
    graph: &G,
    starts: &[bool],
    target: usize,
    near: &mut [Option<u16>],
) -> Outcome
    requires all { target < G.size graph.now }
    requires room { (G.size graph.now ≤ length starts.now) × (length near.old ≡ G.size graph.now) }
    ensures { Arriving (G.size graph.now) (G.leads graph.now) starts.now target near.new result }
{
    seed(starts, near);
    // A `while`: a `for` over the layers would need an end that no search comes to.
    let mut k: u16 = 0;
    let mut looked: usize = 0;
    while near[target].is_none() {
        let count = layer(graph, k, near);
        if count == 0 {
            return Outcome { len: None, looked };
        }
        looked += count;
        k += 1;
    }
    Outcome {
        len: Some(k as usize + 1),
        looked,
    }
}

// Distances to the target, up to `steps`.
pub fn homing<G: Graph>(graph: &G, target: usize, steps: u16, home: &mut [Option<u16>])
    requires { target < length home.old }
    ensures { Layered (length home.old) (turned (G.leads graph.now)) (only target) steps home.new }
{
    home.fill(None);
    home[target] = Some(0);
    let back = TurnedSteps { graph };
    for k in 0..steps {
        layer(&back, k, home);
    }
}
