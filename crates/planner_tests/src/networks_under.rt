// Planners over an opened map, over a lent network and over layers in a pile.
use crate::example::{example, opened};
use maps::map::Map;
use maps::writing::write;
use measures::Delay;
use networks::draft::Book;
use networks::layers::AtRisk;
use networks::network::Network;
use planner::planner::Planner;
use std::alloc::Global;
use std::test::Fail;

// Opens a planner over any network, plans to node 3, and answers how many nodes have a guarantee.
fn guaranteed<N: Network + Drop>(heap: Global, network: N) -> Result<usize, Fail> {
    let mut planner: Planner<N, Delay> = opened(heap, network)?;
    let count = planner.plan(3);
    drop(planner.close());
    Ok(count?)
}

#[test]
fn over_a_map(rt: HostRuntime) -> Result<(), Fail> {
    let network = example(rt.alloc(), 0)?;
    let mut bytes = [0; 76];
    assert_eq!(rt; write(&network, &mut bytes)?, 76);
    assert_eq!(rt; guaranteed(rt.alloc(), Map::open(&bytes))?, 4);
    Ok(())
}

#[test]
fn over_layers(rt: HostRuntime) -> Result<(), Fail> {
    let network = example(rt.alloc(), 0)?;
    assert_eq!(rt; guaranteed(rt.alloc(), &network)?, 4);
    let inner = AtRisk { network, link: 4 };
    let pile = AtRisk {
        network: inner,
        link: 5,
    };
    assert_eq!(rt; guaranteed(rt.alloc(), pile)?, 2);
    Ok(())
}
