// A section of the composing block, read to a component.
#![tactic(auto)]

mod filling; // the same read several times
mod fraction; // numbers with a fraction
mod pieces; // the pieces: mapping_idc, the order, the coefficients
mod section; // the whole: pivots, pieces, the residual's numbers

pub use section::read_section;
