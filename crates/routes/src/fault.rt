// Refusals of the searches that fill the records of the nodes.
ghost use Rattle.std.specs.Prelude.{◌≡◌};
ghost use Rattle.routes.specs.declared.fault.SearchFault.TheVariants.{NoDestination};

use search::fault;

// Why a search is refused: the records are not as many as a network may have nodes, or the destination is no node.
#[derive(Clone, Copy, PartialEq, Eq, Debug)]
pub enum SearchFault {
    RecordCount,
    NoDestination,
}

impl From<fault::NoDestination> for SearchFault {
    ghost from_gives = { λ _ f. f ≡ NoDestination };

    fn from(_: fault::NoDestination) -> SearchFault {
        SearchFault::NoDestination
    }
}
