// The meaning of clause 5.4 on numbers stands in specs/. These functions carry the worked examples, so that the gate
// names them.
#![tactic(auto)]

ghost use Rattle.standard.specs.Examples.{WorkedExamples, WorkedLastPieces, WorkedResiduals};
ghost use Rattle.standard.specs.MmrExamples.{WorkedMmr};

pub fn worked_examples()
    ensures { WorkedExamples }
{}

pub fn worked_last_pieces()
    ensures { WorkedLastPieces }
{}

pub fn worked_residuals()
    ensures { WorkedResiduals }
{}

pub fn worked_mmr()
    ensures { WorkedMmr }
{}
