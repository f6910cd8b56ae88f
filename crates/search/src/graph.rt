// What a search asks of a graph.
ghost use Rattle.std.specs.Prelude.{◌≡◌, ℕ, ◌<◌, ◌≤◌, Bool, true};

// A graph of at most 1,024 nodes, which go by the numbers from 0.
pub trait Graph {
    // how many nodes there are
    ghost size: { Self → ℕ };

    // whether a step leads from the first node to the second
    ghost leads: { Self → ℕ → ℕ → Bool };

    fn nodes(&self) -> usize
        ensures { result ≡ size self.now };

    fn step(&self, from: usize, to: usize) -> bool
        ensures { result ≡ leads self.now from to };

    ghost few: { (x : Self) → size x ≤ 1024 };

    ghost inside: { (x : Self) (a b : ℕ) → leads x a b ≡ true → (a < size x) × (b < size x) };
}
