// The heap entries of the two searches, and their orders.
ghost use Rattle.frontier.specs.Orders.{ValueFits, ValueBefore, StepsBefore};
ghost use Rattle.frontier.specs.OrdersLemmas.{value_total, value_chain, value_same, steps_total, steps_chain, steps_same};

use heap::Order;
use measures::Measure;
use std::marker::PhantomData;

// A node with a value at which it can be reached.
#[derive(Clone, Copy, PartialEq, Eq, Debug)]
pub struct Candidate {
    pub value: u64,
    pub node: u16,
}

// A link with the steps that its tail has by it: the fewest steps first, and then by number.
#[derive(Clone, Copy, PartialEq, Eq, PartialOrd, Ord, Debug)]
pub struct Hop {
    pub steps: u16,
    pub link: u16,
}

// A node with its steps: the fewest tight links that lead from it to the destination.
#[derive(Clone, Copy, PartialEq, Eq, Debug)]
pub struct Settled {
    pub node: u16,
    pub steps: u16,
}

// Candidates by value under the measure M, the best first, and then by node.
pub struct ByValue<M: Measure> {
    measure: PhantomData<M>,
}

impl<M: Measure> Order<Candidate> for ByValue<M> {
    ghost fits = { ValueFits };

    ghost before = { ValueBefore M.Measure.scale };

    ghost total = { value_total _ M.Measure.lawful };

    ghost chain = { value_chain _ M.Measure.lawful };

    ghost same = { value_same _ M.Measure.lawful };

    // Stays written out: the measure orders the values, so no derive can.
    fn no_later(a: &Candidate, b: &Candidate) -> bool {
        if a.value == b.value {
            a.node <= b.node
        } else {
            M::no_worse(a.value, b.value)
        }
    }
}

// Links by steps, the fewest first, and then by number.
pub struct BySteps;

impl Order<Hop> for BySteps {
    ghost fits = { λ _. Unit {0} };

    ghost before = { StepsBefore };

    ghost total = { steps_total };

    ghost chain = { steps_chain };

    ghost same = { steps_same };

    fn no_later(a: &Hop, b: &Hop) -> bool {
        a <= b
    }
}
