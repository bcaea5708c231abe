// The calls that change a planner.
ghost use Rattle.std.specs.Prelude.{◌≡◌, ◌<◌, is_ok};
ghost use Rattle.histories.specs.declared.call.Call.TheVariants.{Withdraw, Restore, Plan};
ghost use Rattle.histories.specs.Answers.{WithdrawAnswer, RestoreAnswer, PlanAnswer, Replanned};
ghost use Rattle.histories.specs.Histories.{Follows};
ghost use Rattle.histories.specs.Parts.{MarkAnswer};
ghost use Rattle.planner.specs.Planners.{state, OpenAnswer, Unchanged};
ghost use Rattle.planner.specs.Tally.{tallied};

use crate::planner::Planner;
use histories::fault::PlannerFault;
use measures::Measure;
use networks::layers::Withdrawn;
use networks::network::Network;
use routes::record::NodeRecord;
use routes::searches::worst_records;
use std::alloc::Global;
use std::marker::PhantomData;

// `keeps` and `unchanged` stay clauses of each call: they tie the planner before it to the planner after it, and a type speaks
// of one. The error of `open` stays the network alone, which comes back: nothing else is to be said where there is no memory.
impl<N: Network, M: Measure> Planner<N, M> {
    // A planner over a network with every link in service and no plan, or the network again where there is no memory.
    pub fn open(heap: Global, network: N) -> Result<Self, N>
        ensures { OpenAnswer {M = M} N.Network.meaning M.Measure.scale network result }
    {
        let Ok(withdrawn) = Vec::from_elem(heap, false, 1024) else {
            return Err(network);
        };
        let Ok(records) = Vec::from_elem(heap, NodeRecord::default(), 256) else {
            return Err(network);
        };
        Ok(Planner {
            network,
            withdrawn,
            destination: None,
            records,
            measure: PhantomData,
        })
    }

    // Ends the planner and gives its network back.
    pub fn close(self) -> N
        ensures { result ≡ self.network }
    {
        let Planner {
            network,
            withdrawn: _,
            destination: _,
            records: _,
            measure: _,
        } = self;
        network
    }

    // Takes a link out of service and ends the plan, or refuses and changes nothing.
    pub fn withdraw(&mut self, place: usize) -> Result<(), PlannerFault>
        ensures answer { WithdrawAnswer (state N.Network.meaning self.old) place result (state N.Network.meaning self.new) }
        ensures keeps { self.new.network ≡ self.old.network }
        ensures unchanged { Unchanged result self.old self.new }
        ensures follows { Follows M.Measure.scale (state N.Network.meaning self.old) (Withdraw place) (is_ok result) (state N.Network.meaning self.new) }
    {
        self.set_mark(place, true, PlannerFault::Withdrawn(place))
    }

    // Puts a link back into service and ends the plan, or refuses and changes nothing.
    pub fn restore(&mut self, place: usize) -> Result<(), PlannerFault>
        ensures answer { RestoreAnswer (state N.Network.meaning self.old) place result (state N.Network.meaning self.new) }
        ensures keeps { self.new.network ≡ self.old.network }
        ensures unchanged { Unchanged result self.old self.new }
        ensures follows { Follows M.Measure.scale (state N.Network.meaning self.old) (Restore place) (is_ok result) (state N.Network.meaning self.new) }
    {
        self.set_mark(place, false, PlannerFault::InService(place))
    }

    // Plans for a destination and answers how many nodes have a guarantee, or refuses and changes nothing.
    pub fn plan(&mut self, destination: usize) -> Result<usize, PlannerFault>
        ensures answer { PlanAnswer M.Measure.scale (state N.Network.meaning self.old) destination result (state N.Network.meaning self.new) }
        ensures keeps { self.new.network ≡ self.old.network }
        ensures unchanged { Unchanged result self.old self.new }
        ensures follows { Follows M.Measure.scale (state N.Network.meaning self.old) (Plan destination) (is_ok result) (state N.Network.meaning self.new) }
    {
        if destination >= self.network.node_count() {
            return Err(PlannerFault::NoDestination(destination));
        }
        Ok(self.replan(destination))
    }

    // Searches for the plan to a destination, keeps its records, and counts the nodes that have a guarantee.
    fn replan(&mut self, destination: usize) -> usize
        requires { destination < (N.Network.meaning self.old.network).nodes }
        ensures after { Replanned M.Measure.scale (state N.Network.meaning self.old) (state N.Network.meaning self.new) destination result }
        ensures keeps { self.new.network ≡ self.old.network }
    {
        // The layer is made of its fields here, since the records beside them are lent for writing.
        let service = Withdrawn {
            network: &self.network,
            marks: &self.withdrawn,
        };
        let _ = worst_records::<_, M>(&service, destination, &mut self.records);
        self.destination = Some(destination);
        guaranteed_nodes(&self.records[..self.network.node_count()])
    }

    // Sets the mark of a link's place and ends the plan; where the mark is that one already, `already` is the refusal.
    // Stays a bool, which is what is stored, with the refusal that each of the two calls names.
    fn set_mark(
        &mut self,
        place: usize,
        withdrawn: bool,
        already: PlannerFault,
    ) -> Result<(), PlannerFault>
        ensures answer { MarkAnswer (state N.Network.meaning self.old) place withdrawn already result (state N.Network.meaning self.new) }
        ensures keeps { self.new.network ≡ self.old.network }
        ensures unchanged { Unchanged result self.old self.new }
    {
        self.network
            .place(place)
            .ok_or(PlannerFault::NoLink(place))?;
        if self.withdrawn[place] == withdrawn {
            return Err(already);
        }
        self.destination = None;
        self.withdrawn[place] = withdrawn;
        Ok(())
    }
}

// How many nodes have a guarantee.
fn guaranteed_nodes(records: &[NodeRecord]) -> usize
    ensures { result ≡ tallied records.now }
{
    // Stays a loop: CONTRIBUTING.md wants the count of a plan in this form.
    let mut count = 0;
    for record in records {
        if record.value.is_some() {
            count += 1;
        }
    }
    count
}
