// What requests left as it was. The functions compute nothing: their promises are the theorems.
#![tactic(auto)]

ghost use Rattle.as_before.specs.VersionOne.{VersionOneAsBefore};
ghost use Rattle.as_before.specs.Polynomials.{PolynomialsAsBefore};

// R-2: a block of version 1 is read, and every sample is mapped, as before there was a version 2.
pub fn version_one_as_before()
    ensures { VersionOneAsBefore }
{}

// R-3: a section that was not refused for a mapping_idc 1 is read or refused as before there was MMR.
pub fn polynomials_as_before()
    ensures { PolynomialsAsBefore }
{}
