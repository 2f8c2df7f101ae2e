// How many bytes the sections of a block have, and so the block.
ghost use Rattle.std.specs.Prelude.{◌≡◌, ◌+◌, ◌≤◌, true, false, MatchOption};
ghost use Rattle.plan.specs.Rule7.{fitting};
ghost use Rattle.writer.specs.Writing.{writable};
ghost use Rattle.writer.specs.inner.Lengths.{AreLengths};

use plan::Plan;
use section_writer::section_length;

#[derive(Clone, Copy)]
pub(crate) struct Lengths {
    pub(crate) y: usize,
    pub(crate) cb: usize,
    pub(crate) cr: usize,
    pub(crate) ghost few: { (y ≤ 3078) × ((cb ≤ 3078) × (cr ≤ 3078)) },
}

impl Lengths {
    // The header has 24, and the trailer 12.
    pub(crate) fn block(self) -> usize
        ensures { result ≡ 24 + self.y + self.cb + self.cr + 12 }
    {
        24 + self.y + self.cb + self.cr + 12
    }
}

// Of a plan that passes rule 7. There are none where it has no block of this version.
pub(crate) fn section_lengths(plan: &Plan, version: u16) -> Option<Lengths>
    requires { fitting plan.now ≡ true }
    ensures { MatchOption result (writable plan.now version ≡ false) (λ l. AreLengths plan.now version l.y l.cb l.cr) }
{
    Some(Lengths {
        y: section_length(version, &plan.y)?,
        cb: section_length(version, &plan.cb)?,
        cr: section_length(version, &plan.cr)?,
    })
}
