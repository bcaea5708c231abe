// The example network worked out: values, routes, backups and traces, and a list of calls on a planner over it, in one table.
#![tactic(auto)]

ghost use Rattle.example_table.specs.Table.{AllLines, lines};

// Every line of the table is true. The contract is the theorem; the function does nothing.
pub fn example_table_holds()
    ensures { AllLines lines }
{}
