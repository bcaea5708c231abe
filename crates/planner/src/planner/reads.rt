// The calls that read the plan.
ghost use Rattle.std.specs.Prelude.{◌≡◌, ◌≤◌, length, is_ok, vec_items, Some, IfOk, IsSome, ◌≢◌};
ghost use Rattle.histories.specs.declared.call.Call.TheVariants.{Guarantee, Next, Route, Backup, Trace};
ghost use Rattle.histories.specs.State.{in_service};
ghost use Rattle.histories.specs.Answers.{GuaranteeAnswer, NextAnswer, RouteAnswer, BackupAnswer, TraceAnswer};
ghost use Rattle.histories.specs.Histories.{Follows};
ghost use Rattle.histories.specs.Parts.{read_answer, FailureAnswer, DetourAnswer};
ghost use Rattle.histories.specs.Promise.{GuaranteeHistory, RouteHistory, TraceHistory};
ghost use Rattle.planner.specs.Planners.{state};
ghost use Rattle.routes.specs.Records.{value_of};

use crate::planner::Planner;
use definitions::{Failure, GROUP_COUNT};
use histories::call::Reading;
use histories::fault::PlannerFault;
use measures::Measure;
use networks::layers::AtRisk;
use networks::network::Network;
use routes::record::NodeRecord;
use routes::searches::plain_records;
use routes::walk::{Walk, plain_value};

// The buffer of route, backup and trace stays a slice that the caller lends, and what trace answers a pair of the value and
// the count: the project's rules want both (CONTRIBUTING.md).
impl<N: Network, M: Measure> Planner<N, M> {
    // The guarantee of a node: the worst value of its held route, whatever one failure takes away.
    pub fn guarantee(&self, node: usize) -> Result<u64, PlannerFault>
        ensures answer { GuaranteeAnswer M.Measure.scale (state N.Network.meaning self.now) node result }
        ensures follows { Follows M.Measure.scale (state N.Network.meaning self.now) (Guarantee node) (is_ok result) (state N.Network.meaning self.now) }
        ensures history { GuaranteeHistory M.Measure.scale (state N.Network.meaning self.now) node result }
    {
        Ok(self.read(node)?.guarantee)
    }

    // The place of the next link of a node.
    pub fn next(&self, node: usize) -> Result<usize, PlannerFault>
        ensures answer { NextAnswer M.Measure.scale (state N.Network.meaning self.now) node result }
        ensures follows { Follows M.Measure.scale (state N.Network.meaning self.now) (Next node) (is_ok result) (state N.Network.meaning self.now) }
    {
        let destination = self.read(node)?.destination;
        if node == destination {
            return Err(PlannerFault::AtDestination(node));
        }
        Ok(usize::from(self.walk().next_place(node).unwrap()))
    }

    // Writes the places of a node's held route and answers how many.
    pub fn route(&self, node: usize, places: &mut [u16]) -> Result<usize, PlannerFault>
        ensures answer { RouteAnswer M.Measure.scale (state N.Network.meaning self.now) node places.old result places.new }
        ensures follows { Follows M.Measure.scale (state N.Network.meaning self.now) (Route node (length places.old)) (is_ok result) (state N.Network.meaning self.now) }
        ensures history { RouteHistory M.Measure.scale (state N.Network.meaning self.now) node result places.old places.new }
    {
        self.read(node)?;
        Ok(self.walk().write_route(node, places)?)
    }

    // Writes the places of the backup of a node's next link and answers how many.
    pub fn backup(&self, node: usize, places: &mut [u16]) -> Result<usize, PlannerFault>
        ensures answer { BackupAnswer M.Measure.scale (state N.Network.meaning self.now) node places.old result places.new }
        ensures follows { Follows M.Measure.scale (state N.Network.meaning self.now) (Backup node (length places.old)) (is_ok result) (state N.Network.meaning self.now) }
    {
        let destination = self.read(node)?.destination;
        if node == destination {
            return Err(PlannerFault::AtDestination(node));
        }
        self.write_backup(node, destination, 0, places)
    }

    // Writes the places that traffic from a node takes under a failure; answers their plain value and how many they are.
    pub fn trace(
        &self,
        node: usize,
        failure: Failure,
        places: &mut [u16],
    ) -> Result<(u64, usize), PlannerFault>
        ensures answer { TraceAnswer M.Measure.scale (state N.Network.meaning self.now) node failure places.old result places.new }
        ensures follows { Follows M.Measure.scale (state N.Network.meaning self.now) (Trace node failure (length places.old)) (is_ok result) (state N.Network.meaning self.now) }
        ensures history { TraceHistory M.Measure.scale (state N.Network.meaning self.now) node failure result places.old places.new }
    {
        let destination = self.read(node)?.destination;
        self.check_failure(failure)?;
        let walk = self.walk();
        let turn = walk.turning_point(destination, node, failure);
        let count = if turn.node == destination {
            if places.len() < turn.passed {
                return Err(PlannerFault::NoRoom(turn.passed));
            }
            turn.passed
        } else {
            self.write_backup(turn.node, destination, turn.passed, places)?
        };
        walk.write_places(node, &mut places[..turn.passed]);
        Ok((plain_value::<_, M>(&walk.network, &places[..count]), count))
    }

    // The questions before each call that reads the plan, and what it finds of the node.
    fn read(&self, node: usize) -> Result<Reading, PlannerFault>
        ensures { result ≡ read_answer (state N.Network.meaning self.now) node }
    {
        let destination = self.destination.ok_or(PlannerFault::NoPlan)?;
        if node >= self.network.node_count() {
            return Err(PlannerFault::NoNode(node));
        }
        let guarantee = self.records[node]
            .value
            .ok_or(PlannerFault::NoGuarantee(node))?;
        Ok(Reading {
            destination,
            guarantee,
        })
    }

    // Is there what a failure names?
    fn check_failure(&self, failure: Failure) -> Result<(), PlannerFault>
        ensures { FailureAnswer (N.Network.meaning self.now.network) failure result }
    {
        match failure {
            Failure::Nothing => Ok(()),
            Failure::OneLink(k) => {
                let place = usize::from(k);
                self.network
                    .place(place)
                    .ok_or(PlannerFault::NoLink(place))?;
                Ok(())
            }
            Failure::OneGroup(b) if b < GROUP_COUNT => Ok(()),
            Failure::OneGroup(b) => Err(PlannerFault::NoGroup(usize::from(b))),
        }
    }

    // Writes the backup of a node's next link after the first `passed` entries, and answers where it ends.
    // Stays beside write_route: what is refused counts the entries passed, and the node is known to be reached.
    fn write_backup(
        &self,
        node: usize,
        destination: usize,
        passed: usize,
        places: &mut [u16],
    ) -> Result<usize, PlannerFault>
        requires passed { passed ≤ 256 }
        requires plan { self.now.destination ≡ Some destination }
        requires away { node ≢ destination }
        requires guaranteed { IsSome (value_of (vec_items self.now.records) node) }
        ensures answer { DetourAnswer M.Measure.scale (in_service (state N.Network.meaning self.now)) destination node passed places.old result places.new }
        ensures room { IfOk result (λ c. (passed ≤ c) × (c ≤ length places.old)) }
    {
        let link = self.walk().next_place(node).unwrap();
        let layer = AtRisk {
            network: self.in_service(),
            link: usize::from(link),
        };
        let mut records = [NodeRecord::default(); 256];
        let _ = plain_records::<_, M>(&layer, destination, &mut records);
        let walk = Walk {
            network: layer,
            records: &records,
        };
        let count = passed + usize::from(walk.route_length(node).unwrap());
        if places.len() < count {
            return Err(PlannerFault::NoRoom(count));
        }
        walk.write_places(node, &mut places[passed..count]);
        Ok(count)
    }
}
