// A number of a text.
use crate::fault::Fault;
use crate::kind::Kind;
use std::str::from_utf8;

// The number that the digits are; where no field can hold it, one that none can hold either.
fn value_of(digits: &[u8]) -> i64 {
    let mut value: i64 = 0;
    for digit in digits {
        value = value
            .saturating_mul(10)
            .saturating_add(i64::from(digit.wrapping_sub(b'0')));
    }
    value
}

// The digits at the begin of a text, and what comes after them.
fn split_digits(text: &[u8]) -> (&[u8], &[u8]) {
    match text.iter().position(|c| !c.is_ascii_digit()) {
        Some(end) => text.split_at(end),
        None => (text, &[]),
    }
}

// What the field's bytes hold for the number at the begin of the text, which has a minus where the field may be
// negative, and the text after it. The number of a component or of a piece is to be `count`.
pub(crate) fn read_number(text: &[u8], kind: Kind, count: u8) -> Result<(u32, &[u8]), Fault<'_>> {
    let unsigned = if kind.is_signed() {
        text.strip_prefix(b"-")
    } else {
        None
    };
    let (digits, after) = split_digits(unsigned.unwrap_or(text));
    let first = digits.first().ok_or(Fault::NumberExpected(kind))?;
    if *first == b'0' && (unsigned.is_some() || 1 < digits.len()) {
        return Err(Fault::BeginsWithZero(kind));
    }
    let size = value_of(digits);
    let number = if unsigned.is_some() {
        size.wrapping_neg()
    } else {
        size
    };
    if kind.width() == 0 && number != i64::from(count) {
        return Err(Fault::CountExpected { kind, count });
    }
    match kind.held(number) {
        Some(held) => Ok((held, after)),
        None => {
            let end = text.len().saturating_sub(after.len());
            let number = from_utf8(&text[..end]).unwrap_or("");
            Err(Fault::DoesNotFit { kind, number })
        }
    }
}
