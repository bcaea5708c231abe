// What is proved of the definitions. Each function's contract is one theorem; it does nothing.
// Stays a function for each: a theorem is named by its own contract, and a parameter has nothing to choose.
ghost use Rattle.definitions.specs.Example.{AllCases, table};
ghost use Rattle.definitions.specs.Theorems.{LabelsAreBest, NextsAreRight, BestValueExists, RecoveryExists, GuaranteeExists, HeldRouteExists, BackupExists, TraceIsGuaranteed};

// What a search for values ends with are the best values, absent exactly where no route has one.
pub fn labels_are_best()
    ensures { LabelsAreBest }
{}

// What a search for steps ends with are the steps and the next links.
pub fn nexts_are_right()
    ensures { NextsAreRight }
{}

// A node has a best plain value exactly where it has a route.
pub fn best_value_exists()
    ensures { BestValueExists }
{}

// A link has a recovery value exactly where a route from its tail avoids all that is at risk with it.
pub fn recovery_exists()
    ensures { RecoveryExists }
{}

// A node has a guarantee exactly where it has a route whose links are all backed up.
pub fn guarantee_exists()
    ensures { GuaranteeExists }
{}

// A node with a guarantee has steps and one held route, which has that guarantee for its worst value.
pub fn held_route_exists()
    ensures { HeldRouteExists }
{}

// A link that is backed up has one backup, which has the recovery value for its plain value.
pub fn backup_exists()
    ensures { BackupExists }
{}

// From a node with a guarantee there is one trace for each failure; it keeps clear of what has failed and is
// never worse than the guarantee, and for some failure of nothing or of one link it equals the guarantee.
pub fn trace_is_guaranteed()
    ensures { TraceIsGuaranteed }
{}

// All that the table says of the example network is true.
pub fn example_holds()
    ensures { AllCases 3 table }
{}
