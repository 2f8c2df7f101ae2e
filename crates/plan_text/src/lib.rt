// A plan as text, one field of the block after the other (docs/TEXT.md). One walk over the fields serves the three: a
// text made to a block's bytes, a block shown as its text, and the line on which a byte's field stands.
//
// No range is tested here: reading the block does that, so that no range stands twice.
#![tactic(auto)]

mod fault; // why a text is refused
mod kind; // what there is to know of each field
mod lines; // the line on which a byte's field stands
mod making; // the bytes of a block, from its text
mod number; // a number of a text
mod showing; // the text of a block
mod walk; // the walk over the fields

pub use fault::Refused;
pub use lines::line_of;
pub use making::make;
pub use showing::show;
pub use walk::version_of;
