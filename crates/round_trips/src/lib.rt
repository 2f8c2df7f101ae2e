// Reading and writing undo each other. The functions compute nothing: their promises are the theorems.
#![tactic(auto)]

ghost use Rattle.round_trips.specs.RoundTrips.{WrittenIsRead, ReadIsWritten, RaisedIsRead};

// A plan that was written is what reading gives back.
pub fn written_is_read()
    ensures { WrittenIsRead }
{}

// A block that was read is what writing its plan in the same version gives back, byte for byte from its header on.
pub fn read_is_written()
    ensures { ReadIsWritten }
{}

// A block of any version that was read can be written as version 2, and reads back to the same plan.
pub fn raised_is_read()
    ensures { RaisedIsRead }
{}
