// Theorems on the calls of a night. Each function computes nothing: its promise is the theorem.
#![tactic(auto)]

ghost use Rattle.night.specs.Night.{StandbyNight, PlainNight};
ghost use Rattle.night.specs.InTime.{NightInTime};
ghost use Rattle.night.specs.EitherOrder.{EitherOrder};
ghost use Rattle.night.specs.Chain.{AnyChainOfCalls};
ghost use Rattle.night.specs.TwoPictures.{TwoPictures};
ghost use Rattle.night.specs.FourRows.{FourRows};

// Demand 3, of every plan, picture, memory and sequence of jobs of both kinds after an accepted opening.
#[tactic(auto, using(crate::proofs::Night::standby_night))]
pub fn the_standby_night()
    ensures { StandbyNight }
{}

// Of plain jobs alone, without a word on tables.
#[tactic(auto, using(crate::proofs::Night::plain_night))]
pub fn plain_jobs_alone()
    ensures { PlainNight }
{}

// What it said before the enhancement could come late: with every accepted job, or with none.
#[tactic(auto, using(crate::proofs::InTime::night_in_time))]
pub fn enhancement_in_time()
    ensures { NightInTime }
{}

// A job without the enhancement and one with it may come in either order.
pub fn either_order()
    ensures { EitherOrder }
{}

// Of two pictures that share a table, each by itself.
#[tactic(auto, using(crate::proofs::TwoPictures::two_pictures))]
pub fn two_pictures()
    ensures { TwoPictures }
{}

// The same of the calls themselves: whatever calls keep the promises of opening and job.
#[tactic(auto, using(crate::proofs::Chain::any_chain_of_calls))]
pub fn any_chain_of_calls()
    ensures { AnyChainOfCalls }
{}

// The house rules' case of a picture with H = 4.
#[tactic(auto, using(crate::proofs::FourRows::four_rows))]
pub fn four_rows()
    ensures { FourRows }
{}
