// The same read several times.
ghost use Rattle.std.specs.Prelude.{◌≡◌, ◌≤◌, ℕ, List};
ghost use Rattle.fields.specs.Fields.{Read};
ghost use Rattle.fields.specs.inner.Readers.{as_read, filled};

use fields::Failure;

// An array that is filled from place 0 on by n readings, for the indices from 0 on. The other places hold `none`.
pub(crate) fn filled<T: Copy, const M: usize, F: Fn(&mut &[u8], usize) -> Result<T, Failure>>(
    rest: &mut &[u8],
    none: T,
    n: usize,
    one: F,
) -> Result<[T; M], Failure>
    requires few { n ≤ M }
    requires calls { F.IsAlwaysCallable one }
    ensures { (reading : ℕ → List ℕ → Read T) → ((s : _) (i : _) (r : _) (after : _) → F.post one s i r after → as_read r after.now.now ≡ reading i s.now.now) → as_read result rest.new.now ≡ filled M none n reading rest.old.now }
{
    let mut all = [none; M];
    for i in 0..n {
        all[i] = one(rest, i)?;
    }
    Ok(all)
}
