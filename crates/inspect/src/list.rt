// Every field of a block, one a line, under its name in the standard.
use crate::counts::{Pivots, Preds, coefficients_of, component_of, pieces_of, preds_of};
use crate::numbers::{Line, Number};
use files::Word;
use plan::methods::MMR;
use plan::{Component, Header, Nlq, Piece, Plan};
use saying::{Fixed, LastBytes, Part, Plane, say, say_word};

// Where the fields are said, by the version of the block and coefficient_log2_denom.
#[derive(Clone, Copy)]
struct List<'a> {
    rt: &'a HostRuntime,
    version: u16,
    d: u8,
}

impl List<'_> {
    fn header(self, h: &Header) {
        let rt = self.rt;
        say!(rt; "  ccm_profile {}\n", h.profile);
        say!(rt; "  ccm_level {}\n", h.level);
        say!(rt; "  coefficient_log2_denom {}\n", h.d);
        say!(rt; "  BL_bit_depth_minus8 {}\n", h.bl);
        say!(rt; "  EL_bit_depth_minus8 {}\n", h.el);
        say!(rt; "  hdr_bit_depth_minus8 {}\n", h.hdr);
        say!(rt; "  disable_residual_flag {}\n", h.disabled);
        say!(rt; "  W/2 {}\n", h.columns);
        say!(rt; "  H/2 {}\n", h.pairs);
        say!(rt; "  max_display_mastering_luminance {} cd/m2\n", h.brightest);
        say!(rt; "  min_display_mastering_luminance {} x 0.0001 cd/m2\n", h.darkest);
    }

    // A number with a fraction, in the units of the block.
    fn line(self, number: Number, value: i64) -> Line {
        Line {
            number,
            is: Fixed {
                value,
                bits: self.d,
            },
        }
    }

    fn piece(self, p: usize, piece: &Piece) {
        let method = if piece.idc == MMR { "mmr" } else { "poly" };
        say!(self.rt; "  piece {p}\n");
        say!(self.rt; "    mapping_idc {}\n", piece.idc);
        say!(self.rt; "    {method}_order_minus1 {}\n", piece.order);
        for (place, value) in coefficients_of(piece).iter().enumerate() {
            let number = Number::at(piece.idc, place);
            say!(self.rt; "    {}\n", self.line(number, *value));
        }
    }

    // Reading has seen to it that the number is far below 2^63.
    fn residual_number(self, number: Number, value: u64) {
        let value = i64::try_from(value).unwrap_or(0);
        say!(self.rt; "  {}\n", self.line(number, value));
    }

    fn nlq(self, nlq: &Nlq) {
        say!(self.rt; "  nlq_offset {}\n", nlq.offset);
        self.residual_number(Number::HdrInMax, nlq.maximum);
        self.residual_number(Number::Slope, nlq.slope);
        self.residual_number(Number::Threshold, nlq.threshold);
    }

    // Of the pieces those that the block carries.
    fn component(self, c: &Component) {
        let preds = preds_of(c);
        say!(self.rt; "  num_pivots_minus2 {}\n", c.n);
        say!(self.rt; "  pred_pivot_value{}\n", Preds(preds));
        say!(self.rt; "  pivot_value{}\n", Pivots(preds));
        for (p, piece) in pieces_of(c, self.version).iter().enumerate() {
            self.piece(p, piece);
        }
        self.nlq(&c.nlq);
    }

    fn trailer(self, last: LastBytes) {
        let x = last.trailer();
        say!(self.rt; "  A {}\n  D0 {}\n  D1 {}\n  D2 {}\n", x.a, x.d0, x.d1, x.d2);
        say!(self.rt; "  version {}\n", x.version);
    }
}

// The file's name and length, and every part with the byte where it begins in the file.
pub(crate) fn list_block(word: Word, last: LastBytes, plan: &Plan) {
    let list = List {
        rt: word.rt,
        version: last.trailer().version,
        d: plan.header.d,
    };
    say_word(word);
    say!(word.rt; ", {} bytes\n", word.file_length());
    last.say_part(word.rt, Part::Header);
    list.header(&plan.header);
    for plane in Plane::ALL {
        last.say_part(word.rt, Part::Section(plane));
        list.component(component_of(plan, plane));
    }
    last.say_part(word.rt, Part::Trailer);
    list.trailer(last);
}
