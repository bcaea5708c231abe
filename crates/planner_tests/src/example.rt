// The example network of four nodes, and helpers that the tests share.
use definitions::{FaultCode, Link};
use histories::fault::PlannerFault;
use measures::Measure;
use networks::draft::{Book, DraftFault};
use networks::network::Network;
use planner::planner::Planner;
use std::alloc::Global;
use std::test::Fail;

// Four nodes and six links; `duct` is the groups of links 1 and 3.
// Stays in both test crates that use it: shared, it would be a public call of a library, for tests alone.
pub(crate) fn example(heap: Global, duct: u32) -> Result<Book, DraftFault> {
    Book::from_links(
        heap,
        4,
        &[
            Link::new(0, 1, 2, 0),
            Link::new(1, 3, 3, duct),
            Link::new(1, 2, 9, 0),
            Link::new(2, 3, 4, duct),
            Link::new(0, 2, 5, 0),
            Link::new(2, 1, 2, 0),
        ],
    )
}

// A planner over a network. Stays a planner that each test closes: a closure's bound cannot name a planner's type.
pub(crate) fn opened<N: Network + Drop, M: Measure>(
    heap: Global,
    network: N,
) -> Result<Planner<N, M>, Fail> {
    Planner::open(heap, network).map_err(|_| Fail::new("no memory"))
}

// A refusal of the planner.
pub(crate) fn refusal(number: u8, place: usize) -> Option<FaultCode> {
    Some(FaultCode {
        layer: 3,
        number,
        place,
    })
}

// The code of a refusal; none for an answer.
pub(crate) fn code<T: Drop>(answer: Result<T, PlannerFault>) -> Option<FaultCode> {
    answer.err().map(FaultCode::from)
}
