// A picture in memory, by its columns and row pairs alone: how many samples it has, and where the row pairs of a plane
// lie.
#![tactic(auto)]

ghost use Rattle.std.specs.Prelude.{◌≡◌, ◌*◌, ◌≤◌, ◌^◌};
ghost use Rattle.picture.specs.Picture.{picture_size};
ghost use Rattle.picture.specs.inner.Planes.{planes, lies};

// The size of a picture: W is twice `columns`, and H twice `pairs`. Whatever they are, no product of them wraps.
#[derive(Clone, Copy)]
pub struct Extent {
    pub columns: u16, // W/2: the columns of a chroma plane
    pub pairs: u16, // H/2: the row pairs of the picture, and the rows of a chroma plane
}

// A plane of a picture: its first index in the run, and how many of its samples a row pair has.
#[derive(Clone, Copy)]
pub struct Plane {
    pub start: usize,
    pub row: usize,
}

#[derive(Clone, Copy)]
pub struct Planes {
    pub y: Plane,
    pub cb: Plane,
    pub cr: Plane,
}

// How many samples so many columns and rows of a chroma plane have.
pub fn chroma_size(columns: u16, pairs: u16) -> usize
    ensures { (result ≡ columns * pairs) × (result ≤ 2 ^ 32) }
{
    (columns as usize) * (pairs as usize)
}

impl Extent {
    // How many samples the run of a picture has, 3WH/2.
    pub fn picture_size(self) -> usize
        ensures { result ≡ picture_size self }
    {
        6 * chroma_size(self.columns, self.pairs)
    }

    pub fn planes(self) -> Planes
        ensures { result ≡ planes self }
    {
        let row = self.columns as usize;
        let n = chroma_size(self.columns, self.pairs);
        Planes {
            y: Plane {
                start: 0,
                row: 4 * row,
            },
            cb: Plane { start: 4 * n, row },
            cr: Plane { start: 5 * n, row },
        }
    }
}

impl Plane {
    // Whether row pairs from `first` up to `last` lie within a run of n samples. The sum of their samples could wrap,
    // so it is not made.
    pub fn lies(self, first: usize, last: usize, n: usize) -> bool
        ensures { result ≡ lies self first last n }
    {
        if self.row == 0 || last < first || n < self.start {
            return false;
        }
        last <= (n - self.start) / self.row
    }
}
