// The polynomial of a piece at a clamped sample (5.4.2.3.2).
ghost use Rattle.std.specs.Prelude.{◌≡◌, ◌*◌, ◌≤◌, ◌^◌, pos};
ghost use Rattle.standard.specs.Mapping.{poly_sum, cut};
ghost use Rattle.mapping.specs.inner.Copies.{coef};
ghost use Rattle.mapping.specs.inner.Steps.{growth, bend, RowRanges};

use steps::cut_at;

// What a component is mapped with: BL_bit_depth and coefficient_log2_denom.
#[derive(Clone, Copy)]
pub(crate) struct Scale {
    pub(crate) depth: u32,
    pub(crate) d: u8,
    ghost shallow: { depth ≤ 10 },
    ghost denominator: { d ≤ 32 },
}

// A number times a power of two.
fn shifted(x: u64, shift: u32) -> i64
    requires { (shift ≤ 20) × (x * 2 ^ shift ≤ 2 ^ 22) }
    ensures { result ≡ pos (x * 2 ^ shift) }
{
    (x << shift) as i64
}

// What is asked here, and below, is of a depth, a sample and a row together: no one of them could carry it.

// The sum over the three coefficients of a row; one that the piece's order does not use is 0 and adds nothing.
fn sum_of(depth: u32, s: u16, row: [i64; 3]) -> i64
    requires { RowRanges depth s row }
    ensures { result ≡ poly_sum depth s (coef row) 2 }
{
    let wide = s as u64;
    let linear = shifted(wide, 20 - depth);
    let square = shifted(wide * wide, 20 - 2 * depth);
    row[0] * 1048576 + row[1] * linear + row[2] * square
}

// The sum at a sample, by how much it grows to the sample after it, and by how much that grows, which is always the
// same.
#[derive(Clone, Copy)]
pub(crate) struct Course {
    pub value: i64,
    pub growth: i64,
    pub bend: i64,
}

pub(crate) fn course_from(depth: u32, s: u16, row: [i64; 3]) -> Course
    requires { RowRanges depth s row }
    ensures { (result.value ≡ poly_sum depth s (coef row) 2) × (result.growth ≡ growth depth row s) × (result.bend ≡ bend depth row) }
{
    let unit = shifted(1, 20 - depth);
    let odd = shifted(2 * (s as u64) + 1, 20 - 2 * depth);
    let two = shifted(2, 20 - 2 * depth);
    Course {
        value: sum_of(depth, s, row),
        growth: row[1] * unit + row[2] * odd,
        bend: row[2] * two,
    }
}

// The mapping step: a clamped sample, and the row of its piece by value.
pub(crate) fn map_step(scale: Scale, s: u16, row: [i64; 3]) -> u16
    requires { RowRanges scale.depth s row }
    ensures { result ≡ cut scale.d (poly_sum scale.depth s (coef row) 2) }
{
    cut_at(scale.d, sum_of(scale.depth, s, row))
}
