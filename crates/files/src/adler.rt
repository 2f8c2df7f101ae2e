// The Adler-32 of a file (RFC 1950), which zlib and many tools give.
use crate::{PART, read_full};
use std::fs::File;

const MODULUS: u64 = 65521;

// The two sums, each below the modulus after every part of a file.
#[derive(Clone, Copy)]
struct Sums {
    a: u64,
    b: u64,
}

impl Sums {
    // Those of no bytes.
    const START: Sums = Sums { a: 1, b: 0 };

    // The sums after some bytes more. At most 65,536 bytes come at once, so no sum comes near 2^64 before it is taken
    // modulo 65,521.
    fn after(self, bytes: &[u8]) -> Sums {
        let mut a = self.a;
        let mut b = self.b;
        for byte in bytes {
            a = a.wrapping_add(u64::from(*byte));
            b = b.wrapping_add(a);
        }
        Sums {
            a: a % MODULUS,
            b: b % MODULUS,
        }
    }

    // Both in one number.
    fn joined(self) -> u32 {
        (65536 * (self.b % MODULUS) + self.a % MODULUS) as u32
    }
}

// The check sum of the bytes that come next in the file, as many as wanted, or of all where it has fewer.
pub(crate) fn adler32(file: &File, wanted: u64) -> u32 {
    let mut sums = Sums::START;
    let mut left = wanted;
    // No range counts the parts: only after a read is it known how many bytes it brought.
    while 0 < left {
        let mut bytes = [0u8; PART];
        let n = read_full(file, &mut bytes);
        if n == 0 {
            break;
        }
        sums = sums.after(&bytes[..n]);
        left = left.saturating_sub(n as u64);
    }
    sums.joined()
}
