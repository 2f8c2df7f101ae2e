// The walk over the fields: which field has its turn, and which comes next once its number is known.
use crate::kind::Kind;
use fields::numbers::{four, one, two};
use plan::limits::MOST_N;
use plan::methods::{MMR, coefficients_used, most_idc, most_order};
use plan::versions::{is_known, pieces_carried};

const POLYNOMIAL: u8 = 0; // mapping_idc

// Whose turn it is.
#[derive(Clone, Copy, Debug, PartialEq, Eq)]
pub(crate) enum Turn {
    Field(Kind),
    End, // no field is left
    Cut, // nobody can say which field comes next
}

#[derive(Clone, Copy)]
pub(crate) struct Walk {
    pub(crate) turn: Turn,
    pub(crate) line: usize, // its line of the text, counted from 1
    pub(crate) at: usize, // its first byte, counted from the header's
    pub(crate) component: u8,
    pub(crate) version: u16,
    pub(crate) starts: [u16; 4], // where the header and the sections begin; the last begun is the last
    piece: u8,
    left: usize, // how many pivots, or coefficients, come after it
    pieces: usize, // how many the section carries
}

impl Walk {
    pub(crate) fn start() -> Walk {
        Walk {
            turn: Turn::Field(Kind::Version),
            line: 1,
            at: 0,
            component: 0,
            version: 0,
            starts: [0; 4],
            piece: 0,
            left: 0,
            pieces: 0,
        }
    }

    // A section begins here. A place of a block has 16 bits.
    pub(crate) fn begin(&mut self) {
        let [_, a, b, c] = self.starts;
        self.starts = [a, b, c, (self.at % 65536) as u16];
    }

    // The version, the counts and the method: after one that no block may have the walk ends, as nobody can say what
    // follows it.
    //
    // After such a version a header of 24 bytes stands for all that follows, and one byte for each section.
    fn take_version(&mut self, version: u16) {
        self.version = version;
        if !is_known(version) {
            self.at = 24;
            self.begin();
            self.at = 25;
            self.turn = Turn::Cut;
        }
    }

    // n + 1 pivots come after the first.
    fn take_count(&mut self, n: u8) {
        self.pieces = pieces_carried(self.version, n);
        self.left = usize::from(n);
        self.piece = 0;
        if MOST_N < n {
            self.turn = Turn::Cut;
        }
    }

    fn take_method(&mut self, idc: u8) {
        if most_idc(usize::from(self.component)) < idc {
            self.turn = Turn::Cut;
        } else if idc == MMR {
            self.turn = Turn::Field(Kind::MmrOrder);
        }
    }

    // After the first coefficient come all others that the method and the order have.
    fn take_order(&mut self, idc: u8, order: u8) {
        self.left = coefficients_used(idc, order).saturating_sub(1);
        if most_order(idc) < order {
            self.turn = Turn::Cut;
        }
    }

    fn after_pivot(&mut self) {
        if 0 < self.left {
            self.left -= 1;
            self.turn = Turn::Field(Kind::MorePivots);
        }
    }

    // After a coefficient comes the next one, which begins with this field, or the next piece, or what follows the
    // pieces.
    fn after_coefficient(&mut self, coefficient: Kind) {
        let piece = self.piece.wrapping_add(1);
        if 0 < self.left {
            self.left -= 1;
            self.turn = Turn::Field(coefficient);
        } else if usize::from(piece) < self.pieces {
            self.piece = piece;
            self.turn = Turn::Field(Kind::Piece);
        } else {
            self.turn = Turn::Field(Kind::NlqOffset);
        }
    }

    fn after_section(&mut self) {
        if self.component < 2 {
            self.component += 1;
            self.turn = Turn::Field(Kind::Component);
        }
    }

    // What the field of this kind, which holds this number, changes of the walk.
    fn take(&mut self, kind: Kind, value: u32) {
        let byte = (value % 256) as u8;
        match kind {
            Kind::Version => self.take_version((value % 65536) as u16),
            Kind::Component => self.begin(),
            Kind::NumPivots => self.take_count(byte),
            Kind::MorePivots => self.after_pivot(),
            Kind::MappingIdc => self.take_method(byte),
            Kind::PolyOrder => self.take_order(POLYNOMIAL, byte),
            Kind::PolyCoef => self.after_coefficient(Kind::PolyCoefInt),
            Kind::MmrOrder => self.take_order(MMR, byte),
            Kind::MmrConstant | Kind::MmrCoef => self.after_coefficient(Kind::MmrCoefInt),
            Kind::Threshold => self.after_section(),
            _ => {}
        }
    }

    // The step after the field of this kind, which holds this number. No count comes near to where it wraps.
    pub(crate) fn advance(&mut self, kind: Kind, value: u32) {
        self.at = self.at.wrapping_add(kind.span());
        self.turn = kind.following().map_or(Turn::End, Turn::Field);
        self.take(kind, value);
        let begins_line = match self.turn {
            Turn::Field(next) => next.begins_line(),
            Turn::End => true,
            Turn::Cut => false,
        };
        if begins_line {
            self.line = self.line.wrapping_add(1);
        }
    }

    // The number of the component or the piece.
    pub(crate) fn count(&self, kind: Kind) -> u8 {
        match kind {
            Kind::Piece => self.piece,
            _ => self.component,
        }
    }

    // What the field of this kind holds in a block.
    pub(crate) fn value_in(&self, block: &[u8], kind: Kind) -> u32 {
        if kind == Kind::Version {
            return u32::from(version_of(block));
        }
        match kind.width() {
            0 => u32::from(self.count(kind)),
            1 => u32::from(one(block, self.at)),
            2 => u32::from(two(block, self.at)),
            _ => four(block, self.at),
        }
    }
}

// The trailer's version of a block.
pub fn version_of(block: &[u8]) -> u16 {
    two(block, block.len().wrapping_sub(4))
}
