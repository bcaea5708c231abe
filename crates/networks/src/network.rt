// What a network answers.
ghost use Rattle.std.specs.Prelude.{◌≡◌, length};
ghost use Rattle.definitions.specs.Networks.{Net, Limits, place};

use definitions::Link;

// A directed network: nodes and places, both numbered from 0, each place empty or holding one link.
pub trait Network {
    // What the network means: its node count and the list of its places.
    ghost meaning: { Self → Net };

    // Whoever offers a network shows that it keeps the limits.
    ghost limits: { (n : Self) → Limits (meaning n) };

    // How many nodes there are.
    fn node_count(&self) -> usize
        ensures { result ≡ (meaning self.now).nodes };

    // How many places there are.
    fn place_count(&self) -> usize
        ensures { result ≡ length (meaning self.now).places };

    // What place k holds; nothing beyond the last.
    fn place(&self, k: usize) -> Option<Link>
        ensures { result ≡ place (meaning self.now).places k };
}

// A lent network is a network.
impl<'a, N: Network> Network for &'a N {
    ghost meaning = { λ s. N.Network.meaning s.now };

    ghost limits = { λ s. N.Network.limits s.now };

    fn node_count(&self) -> usize {
        N::node_count(*self)
    }

    fn place_count(&self) -> usize {
        N::place_count(*self)
    }

    fn place(&self, k: usize) -> Option<Link> {
        N::place(*self, k)
    }
}
