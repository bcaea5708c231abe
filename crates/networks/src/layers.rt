// Layers: networks over a network, with the same places and numbers, in which some places are empty.
ghost use Rattle.std.specs.Prelude.{◌≡◌};
ghost use Rattle.definitions.specs.Networks.{at_risk, withdrawn, share_group};
ghost use Rattle.networks.specs.Layers.{at_risk_limits, withdrawn_limits};

use crate::network::Network;
use definitions::Link;

// A network without its marked places.
#[derive(Clone, Copy)]
pub struct Withdrawn<'a, N: Network> {
    pub network: &'a N,
    pub marks: &'a [bool],
}

impl<'a, N: Network> Network for Withdrawn<'a, N> {
    ghost meaning = { λ s. withdrawn s.marks.now (N.Network.meaning s.network.now) };

    ghost limits = { λ s. withdrawn_limits s.marks.now (N.Network.meaning s.network.now) (N.Network.limits s.network.now) };

    fn node_count(&self) -> usize {
        self.network.node_count()
    }

    fn place_count(&self) -> usize {
        self.network.place_count()
    }

    fn place(&self, k: usize) -> Option<Link> {
        if self.marks.get(k).copied().unwrap_or(false) {
            return None;
        }
        self.network.place(k)
    }
}

// A network without place `link` and without every link that shares a risk group with it.
#[derive(Drop)]
pub struct AtRisk<N: Network> {
    pub network: N,
    pub link: usize,
}

impl<N: Network> Network for AtRisk<N> {
    ghost meaning = { λ s. at_risk s.link (N.Network.meaning s.network) };

    ghost limits = { λ s. at_risk_limits s.link (N.Network.meaning s.network) (N.Network.limits s.network) };

    fn node_count(&self) -> usize {
        self.network.node_count()
    }

    fn place_count(&self) -> usize {
        self.network.place_count()
    }

    fn place(&self, k: usize) -> Option<Link> {
        if k == self.link {
            return None;
        }
        let there = self.network.place(k);
        if shares_group(there, self.network.place(self.link)) {
            return None;
        }
        there
    }
}

// Do both places hold links with a common risk group?
fn shares_group(a: Option<Link>, b: Option<Link>) -> bool
    ensures { result ≡ share_group a b }
{
    match (a, b) {
        (Some(a), Some(b)) => a.groups & b.groups != 0,
        _ => false,
    }
}
