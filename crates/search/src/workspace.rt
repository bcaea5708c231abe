// The memory of the searches.
ghost use Rattle.std.specs.Prelude.{◌≡◌, replicate, None};

use frontier::entries::{Candidate, Hop};
use frontier::index::Index;

// The memory that the searches work in. No answer depends on what it holds.
// Stays arrays of fixed sizes: no search allocates.
#[derive(Drop)]
pub struct Workspace {
    pub(crate) index: Index,
    pub(crate) starts: [Option<u64>; 1024],
    pub(crate) candidates: [Candidate; 1024],
    pub(crate) hops: [Hop; 1024],
}

impl Workspace {
    // A workspace in which no link is indexed and no recovery value set.
    pub fn new() -> Self
        ensures first { result.index.first ≡ replicate 256 None }
        ensures next { result.index.next ≡ replicate 1024 None }
        ensures starts { result.starts ≡ replicate 1024 None }
    {
        Workspace {
            index: Index::new(),
            starts: [None; 1024],
            candidates: [Candidate { value: 0, node: 0 }; 1024],
            hops: [Hop { steps: 0, link: 0 }; 1024],
        }
    }
}
