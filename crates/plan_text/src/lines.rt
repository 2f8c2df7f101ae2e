// The line on which a byte's field stands.
use crate::walk::{Turn, Walk};

// The line of the field whose first byte is at a place of the block; where there is none, line 1, which has the
// trailer's version. A block has fewer fields than bytes.
pub fn line_of(block: &[u8], place: usize) -> usize {
    let mut walk = Walk::start();
    for _ in block {
        let Turn::Field(kind) = walk.turn else {
            break;
        };
        if walk.at == place && 0 < kind.span() {
            return walk.line;
        }
        walk.advance(kind, walk.value_in(block, kind));
    }
    1
}
