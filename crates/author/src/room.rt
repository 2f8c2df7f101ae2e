// How long texts and blocks are.
use plan::limits::{PIECES, PIVOTS, ROW};

// The longest text of a block has less than 25,000 bytes.
pub(crate) const TEXT_ROOM: usize = 32768;

// The longest section, one of chroma: n, the pivots, the pieces, all MMR of the highest order, and what inverse
// quantization takes (docs/RULES.md, "Section").
const SECTION_ROOM: usize = 1 + 2 * PIVOTS + PIECES * (2 + 8 * ROW) + 17;

// Header, sections, trailer. That of luma is shorter, so the longest block does not fill it.
pub(crate) const BLOCK_ROOM: usize = 24 + 3 * SECTION_ROOM + 12;
