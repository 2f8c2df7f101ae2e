// Both chroma components made ready.
ghost use Rattle.mmr.specs.inner.Given.{BothGiven};

use crate::format::Format;
use crate::ready::Ready;

// All that the samples go by, made once a call.
#[derive(Clone, Copy)]
pub(crate) struct Both<'a> {
    pub format: Format,
    pub cb: Ready<'a>,
    pub cr: Ready<'a>,
    ghost given: { BothGiven format cb cr },
}
