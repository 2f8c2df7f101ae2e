// Calls that have ended as their promises say. The functions compute nothing: their promises are the theorems.
#![tactic(auto)]

pub mod promises; // each call once more, under its promise

ghost use Rattle.calls.specs.Settled.{Settled};
ghost use Rattle.calls.specs.inner.Leaves.{LeavesSettled};
ghost use Rattle.calls.specs.Alike.{BothCallsAlike};

// Of each call that a user can make two outcomes that its promise allows are equal.
#[tactic(auto, using(crate::proofs::Settled::settled))]
pub fn one_outcome()
    ensures { Settled }
{}

// And of each call that the product's own crates make of each other.
#[tactic(auto, using(crate::proofs::Settled::leaves_settled))]
pub fn one_outcome_of_leaves()
    ensures { LeavesSettled }
{}

// Where a table was filled from the plan and not touched since, both job calls give the same answers, output and marks.
#[tactic(auto, using(crate::proofs::Alike::both_calls_alike))]
pub fn both_calls_alike()
    ensures { BothCallsAlike }
{}
