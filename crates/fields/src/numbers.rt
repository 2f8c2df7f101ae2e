// Big-endian numbers: the first byte is the greatest.
ghost use Rattle.std.specs.Prelude.{◌≡◌, ◌+◌, ◌^◌, ◌<◌, ◌≤◌, length};
ghost use Rattle.fields.specs.Fields.{number, number_at};

pub(crate) fn number(bytes: &[u8]) -> u64
    requires { length bytes.now ≤ 4 }
    ensures { (result ≡ number bytes.now) × (result < 256 ^ length bytes.now) }
{
    let mut v = 0;
    for b in bytes {
        v = v * 256 + u64::from(*b);
    }
    v
}

// The number of w bytes that stands at a place; 0 where they are not all there. `one`, `two` and `four` are this, each
// as the type of its width.
fn number_at(s: &[u8], at: usize, w: usize) -> u64
    requires { w ≤ 4 }
    ensures { (result ≡ number_at s.now at w) × (result < 256 ^ w) }
{
    if s.len() < w || s.len() - w < at {
        return 0;
    }
    number(&s[at..at + w])
}

pub fn one(s: &[u8], at: usize) -> u8
    ensures { result ≡ number_at s.now at 1 }
{
    number_at(s, at, 1) as u8
}

pub fn two(s: &[u8], at: usize) -> u16
    ensures { result ≡ number_at s.now at 2 }
{
    number_at(s, at, 2) as u16
}

pub fn four(s: &[u8], at: usize) -> u32
    ensures { result ≡ number_at s.now at 4 }
{
    number_at(s, at, 4) as u32
}
