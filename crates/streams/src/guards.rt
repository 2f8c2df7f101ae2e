// What is lent lies between guards, which nobody may touch: 16 places on each side, and whatever lies behind.
ghost use Rattle.std.specs.Prelude.{◌+◌, ◌<◌, ◌↔◌, IsNone};

const SIDE: usize = 16;

// How many places of a room are not lent at least.
pub const GUARDS: usize = 2 * SIDE;

// The guards of a room of samples.
pub const SAMPLE: u16 = 55555;

// The guards of a room of marks.
pub const MARK: u8 = 170;

// A room of which the places from SIDE up to `end` are lent.
#[derive(Clone, Copy)]
pub struct Guarded<T, const ROOM: usize> {
    guard: T,
    room: [T; ROOM],
    end: usize,
}

impl<T: Copy + PartialEq, const ROOM: usize> Guarded<T, ROOM> {
    // Lends so many places; none where the room has not so many between the guards.
    pub fn new(guard: T, count: usize) -> Option<Guarded<T, ROOM>>
        ensures { IsNone result ↔ (ROOM < count + GUARDS) }
    {
        let end = count.checked_add(SIDE)?;
        if ROOM.checked_sub(end)? < SIDE {
            return None;
        }
        Some(Guarded {
            guard,
            room: [guard; ROOM],
            end,
        })
    }

    pub fn lent(&self) -> &[T] {
        self.room.get(SIDE..self.end).unwrap_or_default()
    }

    pub fn lend(&mut self) -> &mut [T] {
        let end = self.end;
        let room = &mut self.room;
        room[..].get_mut(SIDE..end).unwrap_or_default()
    }

    // Whether all guards are as they were.
    pub fn is_kept(&self) -> bool {
        let before = self.room.get(..SIDE).unwrap_or_default();
        let behind = self.room.get(self.end..).unwrap_or_default();
        before
            .iter()
            .chain(behind)
            .all(|place| *place == self.guard)
    }
}
