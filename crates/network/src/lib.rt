// What follows from the definitions of flows, gates and runs: each theorem on the contract of a function.
#![tactic(auto)]

ghost use Rattle.network.specs.Theorems.{NoWait, OverlapWaits, RunsExist, OneGateList, WaitsExactlyWhereFlowsOverlap};

// Flows that do not overlap keep their plan in every run.
pub fn no_wait()
    ensures { NoWait }
{}

// Well-formed flows have a run, whether they overlap or not and whatever the gates.
pub fn runs_exist()
    ensures { RunsExist }
{}

// Where two flows overlap, some scheduled frame waits in every run.
pub fn overlap_waits()
    ensures { OverlapWaits }
{}

// Under gates with the defined states, frames wait exactly where flows overlap.
pub fn waits_exactly()
    ensures { WaitsExactlyWhereFlowsOverlap }
{}

// Each port has exactly one gate list.
pub fn one_gate_list()
    ensures { OneGateList }
{}
