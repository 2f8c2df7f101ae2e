// The places of a plan by their numbers (second/README.md has them as a table): first those of the header, then those
// of each component.
ghost use Rattle.std.specs.Prelude.{◌≡◌, ◌≤◌, ◌↔◌, IsNone};
ghost use Rattle.streams.specs.inner.Places.{held};

use plan::limits::{PIECES, PIVOTS, ROW};
use plan::{Component, Header, Nlq, Piece, Plan};
use std::fmt;

// How many places the header has, and so where the first component begins.
const HEADER: usize = 11;

// A piece begins with mapping_idc and its order.
const FIRST_COEFFICIENT: usize = 2;

const PIECE: usize = FIRST_COEFFICIENT + ROW;

// A component begins with num_pivots_minus2, and ends with four numbers of the residual.
const FIRST_PIVOT: usize = 1;

const FIRST_PIECE: usize = FIRST_PIVOT + PIVOTS;

const NLQ: usize = FIRST_PIECE + PIECES * PIECE;

const COMPONENT: usize = NLQ + 4;

pub const PLACES: usize = HEADER + 3 * COMPONENT;

// A place of a plan, lent.
#[derive(Drop)]
pub enum Place<'a> {
    Byte(&'a mut u8),
    Short(&'a mut u16),
    Word(&'a mut u32),
    Long(&'a mut u64),
    Signed(&'a mut i64),
}

impl<'a> Place<'a> {
    // Place `number` of a plan, where there is one.
    pub fn of(plan: &'a mut Plan, number: usize) -> Option<Place<'a>>
        ensures { IsNone result ↔ (PLACES ≤ number) }
    {
        let Some(rest) = number.checked_sub(HEADER) else {
            return Place::of_header(&mut plan.header, number);
        };
        let component = match rest / COMPONENT {
            0 => &mut plan.y,
            1 => &mut plan.cb,
            2 => &mut plan.cr,
            _ => return None,
        };
        Place::of_component(component, rest % COMPONENT)
    }

    fn of_header(h: &'a mut Header, number: usize) -> Option<Place<'a>>
        ensures { IsNone result ↔ (HEADER ≤ number) }
    {
        Some(match number {
            0 => Place::Byte(&mut h.profile),
            1 => Place::Byte(&mut h.level),
            2 => Place::Byte(&mut h.d),
            3 => Place::Byte(&mut h.bl),
            4 => Place::Byte(&mut h.el),
            5 => Place::Byte(&mut h.hdr),
            6 => Place::Byte(&mut h.disabled),
            7 => Place::Short(&mut h.columns),
            8 => Place::Short(&mut h.pairs),
            9 => Place::Short(&mut h.brightest),
            10 => Place::Word(&mut h.darkest),
            _ => return None,
        })
    }

    fn of_component(c: &'a mut Component, number: usize) -> Option<Place<'a>>
        ensures { IsNone result ↔ (COMPONENT ≤ number) }
    {
        if number < FIRST_PIVOT {
            Some(Place::Byte(&mut c.n))
        } else if number < FIRST_PIECE {
            Some(Place::Short(&mut c.preds[number - FIRST_PIVOT]))
        } else if number < NLQ {
            let number = number - FIRST_PIECE;
            Place::of_piece(&mut c.pieces[number / PIECE], number % PIECE)
        } else {
            Place::of_nlq(&mut c.nlq, number - NLQ)
        }
    }

    fn of_piece(q: &'a mut Piece, number: usize) -> Option<Place<'a>>
        ensures { IsNone result ↔ (PIECE ≤ number) }
    {
        match number {
            0 => Some(Place::Byte(&mut q.idc)),
            1 => Some(Place::Byte(&mut q.order)),
            _ => q.row.get_mut(number - FIRST_COEFFICIENT).map(Place::Signed),
        }
    }

    fn of_nlq(q: &'a mut Nlq, number: usize) -> Option<Place<'a>>
        ensures { IsNone result ↔ (4 ≤ number) }
    {
        Some(match number {
            0 => Place::Short(&mut q.offset),
            1 => Place::Long(&mut q.maximum),
            2 => Place::Long(&mut q.slope),
            3 => Place::Long(&mut q.threshold),
            _ => return None,
        })
    }

    // A value has 64 bits, of which a narrower field takes the lowest.
    pub fn put(self, v: u64) {
        match self {
            Place::Byte(place) => *place = (v & 0xff) as u8,
            Place::Short(place) => *place = (v & 0xffff) as u16,
            Place::Word(place) => *place = (v & 0xffff_ffff) as u32,
            Place::Long(place) => *place = v,
            Place::Signed(place) => *place = v.cast_signed(),
        }
    }

    pub fn value(&self) -> i128
        ensures { result ≡ held self.now }
    {
        match self {
            Place::Byte(place) => i128::from(**place),
            Place::Short(place) => i128::from(**place),
            Place::Word(place) => i128::from(**place),
            Place::Long(place) => i128::from(**place),
            Place::Signed(place) => i128::from(**place),
        }
    }
}

// The places of a plan that are not 0, each as ` NUMBER:VALUE`. They are walked part by part: to find each of the 1,301
// by its number took a third of the time of a case. Nothing is promised of what is printed; the stored outputs hold it.
#[derive(Clone, Copy)]
pub struct NotZero<'a>(pub &'a Plan);

fn say<V: fmt::Display + Copy, W: fmt::Write>(
    f: &mut fmt::Formatter<W>,
    number: usize,
    value: V,
    is_zero: bool,
) -> fmt::Result {
    if is_zero {
        return Ok(());
    }
    write!(f, " {number}:{value}")
}

fn say_number<W: fmt::Write>(f: &mut fmt::Formatter<W>, number: usize, value: u64) -> fmt::Result {
    say(f, number, value, value == 0)
}

fn say_header<W: fmt::Write>(f: &mut fmt::Formatter<W>, h: &Header) -> fmt::Result {
    let format = [h.profile, h.level, h.d, h.bl, h.el, h.hdr, h.disabled];
    for (i, value) in format.iter().enumerate() {
        say_number(f, i, u64::from(*value))?;
    }
    say_number(f, 7, u64::from(h.columns))?;
    say_number(f, 8, u64::from(h.pairs))?;
    say_number(f, 9, u64::from(h.brightest))?;
    say_number(f, 10, u64::from(h.darkest))
}

fn say_piece<W: fmt::Write>(f: &mut fmt::Formatter<W>, first: usize, q: &Piece) -> fmt::Result
    requires { first ≤ 2000 }
{
    say_number(f, first, u64::from(q.idc))?;
    say_number(f, first + 1, u64::from(q.order))?;
    for (i, value) in q.row.iter().enumerate() {
        say(f, first + FIRST_COEFFICIENT + i, *value, *value == 0)?;
    }
    Ok(())
}

fn say_component<W: fmt::Write>(
    f: &mut fmt::Formatter<W>,
    first: usize,
    c: &Component,
) -> fmt::Result
    requires { first ≤ 1000 }
{
    say_number(f, first, u64::from(c.n))?;
    for (i, value) in c.preds.iter().enumerate() {
        say_number(f, first + FIRST_PIVOT + i, u64::from(*value))?;
    }
    for (p, piece) in c.pieces.iter().enumerate() {
        say_piece(f, first + FIRST_PIECE + PIECE * p, piece)?;
    }
    say_number(f, first + NLQ, u64::from(c.nlq.offset))?;
    say_number(f, first + NLQ + 1, c.nlq.maximum)?;
    say_number(f, first + NLQ + 2, c.nlq.slope)?;
    say_number(f, first + NLQ + 3, c.nlq.threshold)
}

impl fmt::Display for NotZero<'_> {
    fn fmt<W: fmt::Write>(&self, f: &mut fmt::Formatter<W>) -> fmt::Result {
        let plan = self.0;
        say_header(f, &plan.header)?;
        say_component(f, HEADER, &plan.y)?;
        say_component(f, HEADER + COMPONENT, &plan.cb)?;
        say_component(f, HEADER + 2 * COMPONENT, &plan.cr)
    }
}
