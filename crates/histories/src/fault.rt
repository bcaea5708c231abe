// Refusals of a planner.
ghost use Rattle.std.specs.Prelude.{◌≡◌};
ghost use Rattle.histories.specs.declared.fault.PlannerFault.TheVariants.{NoRoom as Full};
ghost use Rattle.histories.specs.Faults.{planner_code};

use definitions::FaultCode;
use routes::walk::NoRoom;

// Why a planner refuses a call. Each case but `NoPlan` holds the number in question: a place, a node, a group, or how many
// places there are to write.
#[derive(Clone, Copy, PartialEq, Eq, Debug)]
pub enum PlannerFault {
    NoLink(usize),
    Withdrawn(usize),
    InService(usize),
    NoDestination(usize),
    NoPlan,
    NoNode(usize),
    NoGuarantee(usize),
    AtDestination(usize),
    NoRoom(usize),
    NoGroup(usize),
}

// A buffer that does not hold a route refuses the call.
impl From<NoRoom> for PlannerFault {
    ghost from_gives = { λ e r. r ≡ Full e.needed };

    fn from(fault: NoRoom) -> PlannerFault {
        PlannerFault::NoRoom(fault.needed)
    }
}

// Layer, number and place of the fault.
impl From<PlannerFault> for FaultCode {
    ghost from_gives = { λ e r. r ≡ planner_code e };

    fn from(fault: PlannerFault) -> FaultCode {
        let (number, place) = match fault {
            PlannerFault::NoLink(k) => (8, k),
            PlannerFault::Withdrawn(k) => (9, k),
            PlannerFault::InService(k) => (10, k),
            PlannerFault::NoDestination(t) => (11, t),
            PlannerFault::NoPlan => (12, 0),
            PlannerFault::NoNode(u) => (13, u),
            PlannerFault::NoGuarantee(u) => (14, u),
            PlannerFault::AtDestination(u) => (15, u),
            PlannerFault::NoRoom(count) => (16, count),
            PlannerFault::NoGroup(b) => (17, b),
        };
        FaultCode {
            layer: 3,
            number,
            place,
        }
    }
}
