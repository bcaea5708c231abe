// The network of the incident.
use definitions::Link;
use networks::draft::{Book, DraftFault};
use std::alloc::Global;

// Five nodes and nine links, each with its tail, head, delay and groups. Links 1 and 3 lie in one duct, risk group 0. Link 6 is
// the only way on from node 1 when that duct is cut.
pub(crate) fn lay_out(heap: Global) -> Result<Book, DraftFault> {
    Book::from_links(
        heap,
        5,
        &[
            Link::new(0, 1, 2, 0),
            Link::new(1, 4, 2, 1),
            Link::new(0, 2, 3, 0),
            Link::new(2, 4, 3, 1),
            Link::new(0, 3, 4, 0),
            Link::new(3, 4, 6, 0),
            Link::new(1, 3, 1, 0),
            Link::new(2, 3, 1, 0),
            Link::new(3, 2, 2, 0),
        ],
    )
}
