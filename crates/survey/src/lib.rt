// Surveys of a network: how many of its links are of a kind.
#![tactic(auto)]

ghost use Rattle.std.specs.Prelude.{◌≡◌};
ghost use Rattle.survey.specs.Surveys.{is_selected, selects, selected};

use definitions::Link;
use networks::network::Network;

// The links that a survey counts: all, those of a risk group, those that leave a node, or those that enter it.
// Stays an enum: a closure in its place would have to be required to be callable, and no public call requires anything.
#[derive(Clone, Copy, PartialEq, Eq, Debug)]
pub enum Selection {
    All,
    InGroup(u16),
    From(u16),
    Into(u16),
}

impl Selection {
    // Is the link one of the selection?
    fn contains(self, link: Link) -> bool
        ensures { result ≡ is_selected self link }
    {
        match self {
            Selection::All => true,
            Selection::InGroup(group) => link.in_group(group),
            Selection::From(node) => link.tail == node,
            Selection::Into(node) => link.head == node,
        }
    }

    // Does the place hold a link of the selection?
    fn holds(self, place: Option<Link>) -> bool
        ensures { result ≡ selects self place }
    {
        place.is_some_and(|link| self.contains(link))
    }
}

// How many links of a network are in the selection.
pub fn count_links<N: Network>(network: &N, selection: Selection) -> usize
    ensures { result ≡ selected selection (N.Network.meaning network.now) }
{
    // Stays a loop: over a book two adapters take 24 times as long, and one makes a run of `inspect` take about twice the
    // instructions.
    let mut count = 0;
    for k in 0..network.place_count() {
        if selection.holds(network.place(k)) {
            count += 1;
        }
    }
    count
}
