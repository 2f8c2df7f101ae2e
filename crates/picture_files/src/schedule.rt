// The jobs of a band, in their order. One for all its row pairs; or, with a standby in the middle, eight row pairs a
// job, those that were in flight at the standby again, and then the rest. Where the enhancement comes late, jobs
// without it compose the whole band before these.
ghost use Rattle.std.specs.Prelude.{◌≤◌};

// Row pairs that a job names, counted from the band's first.
#[derive(Clone, Copy, Debug, PartialEq, Eq)]
pub struct Named {
    pub first: u16,
    pub count: u16,
}

impl Named {
    // Job k of the n row pairs from `from` on, eight a job.
    fn batch(from: u16, n: u16, k: u16) -> Named {
        let before = k.saturating_mul(8);
        if n <= before {
            return Named {
                first: from,
                count: 0,
            };
        }
        Named {
            first: from.wrapping_add(before),
            count: (n - before).min(8),
        }
    }
}

// How many jobs of eight row pairs n row pairs take.
fn batches(n: u16) -> u16
    ensures { result ≤ 8192 }
{
    n.div_ceil(8)
}

// How many row pairs before the standby are sent again.
fn in_flight(half: u16) -> u16
    ensures { result ≤ half }
{
    half.min(16)
}

// How the bands of a group are sent.
#[derive(Clone, Copy, Debug, PartialEq, Eq)]
pub enum Way {
    Whole, // by one job
    Standby,
    Late,
}

impl Way {
    // The way that the words before a group ask for. A late group has its standby by itself.
    pub fn of(standby: bool, late: bool) -> Way {
        match (standby, late) {
            (_, true) => Way::Late,
            (true, false) => Way::Standby,
            (false, false) => Way::Whole,
        }
    }

    // Whether the jobs have eight row pairs; then each of them is said.
    pub fn is_said(self) -> bool {
        self != Way::Whole
    }

    // The number of the first job for which the enhancement is there.
    pub fn come_at(self, n: u16) -> u16
        ensures { result ≤ 8192 }
    {
        match self {
            Way::Late => batches(n),
            _ => 0,
        }
    }

    // The number of the first job after the standby.
    pub fn standby_at(self, n: u16) -> u16
        ensures { result ≤ 16384 }
    {
        self.come_at(n) + batches(n / 2)
    }

    // The number of the first job after those that are sent again.
    fn rest_at(self, n: u16) -> u16
        ensures { result ≤ 24576 }
    {
        self.standby_at(n) + batches(in_flight(n / 2))
    }

    // How many jobs a band of n row pairs has.
    pub fn jobs(self, n: u16) -> u16 {
        match self {
            Way::Whole => 1,
            _ => self.rest_at(n) + batches(n - n / 2),
        }
    }

    // Job k of a band of n row pairs.
    pub fn job(self, n: u16, k: u16) -> Named {
        if self == Way::Whole {
            return Named { first: 0, count: n };
        }
        let (come, standby, rest) = (self.come_at(n), self.standby_at(n), self.rest_at(n));
        let half = n / 2;
        if k < come {
            Named::batch(0, n, k)
        } else if k < standby {
            Named::batch(0, half, k - come)
        } else if k < rest {
            let again = in_flight(half);
            Named::batch(half - again, again, k - standby)
        } else {
            Named::batch(half, n - half, k - rest)
        }
    }

    // Whether job k goes without the enhancement. In a late group those that are sent again do so too: after the
    // standby the base is there first.
    pub fn is_bare(self, n: u16, k: u16) -> bool {
        self == Way::Late
            && (k < self.come_at(n) || (self.standby_at(n)..self.rest_at(n)).contains(&k))
    }
}
