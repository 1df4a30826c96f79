// A train of an area by value, and where one stands.
#![tactic(auto)]

ghost use Rattle.std.specs.Prelude.{◌≡◌};
ghost use Rattle.trains.specs.Train.{off, is_on, entered, with_speed, with_asking, answered, moved_to, train_at};
ghost use Rattle.trains.specs.Cycle.{wants};

use lists::entry;

// "A length of 1 to 20,000 decimetres".
pub const LONGEST_TRAIN: u16 = 20000;

// The steps of a cycle. The step due is one of these numbers.
#[derive(Clone, Copy, Debug, PartialEq, Eq)]
pub enum Step {
    Speed = 0,
    Request = 1,
    Grant = 2,
    Position = 3,
}

// Route and place are counted from 1; route 0 is a train off, which is all zero. Place and position are its front's. Count: the grant
// steps at which it asked and got nothing since it entered or was last granted a segment, 65,535 at the most. Position and length in
// decimetres, speed in decimetres per cycle. Asks: 1 where it does, 0 where it does not.
#[repr(C)]
#[derive(Clone, Copy, Debug, Default, PartialEq, Eq)]
pub struct Train {
    pub route: u8,
    pub place: u8,
    pub count: u16,
    pub position: u32,
    pub speed: u16,
    pub length: u16,
    pub asks: u8,
}

// The forms in which a train is written.
impl Train {
    // A train off.
    pub fn off() -> Train
        ensures { result ≡ off }
    {
        Train::default()
    }

    pub fn entered(route: u8, length: u16, speed: u16) -> Train
        ensures { result ≡ entered (record { route = route; length = length }) speed }
    {
        Train {
            route,
            place: 1,
            speed,
            length,
            ..Train::default()
        }
    }

    pub fn with_speed(self, speed: u16) -> Train
        ensures { result ≡ with_speed self speed }
    {
        Train { speed, ..self }
    }

    pub fn with_asking(self, asks: bool) -> Train
        ensures { result ≡ with_asking self asks }
    {
        Train {
            asks: u8::from(asks),
            ..self
        }
    }

    // It asks no more.
    pub fn answered(self, count: u16) -> Train
        ensures { result ≡ answered self count }
    {
        Train {
            asks: 0,
            count,
            ..self
        }
    }

    pub fn moved_to(self, place: u8, position: u32) -> Train
        ensures { result ≡ moved_to self place position }
    {
        Train {
            place,
            position,
            ..self
        }
    }

    pub fn is_on(self) -> bool
        ensures { result ≡ is_on self }
    {
        0 < self.route
    }
}

// The train of a number; a train off where there is none.
pub fn train_at(trains: &[Train; 24], n: u8) -> Train
    ensures { result ≡ train_at trains.now n }
{
    entry(trains, n as usize, Train::off())
}

// Where a train stands: its route's count; its own segment's length and limit; the place of its rear, and whether every segment under it
// is allocated to it; its next, the limit there, and whether that is allocated to it; near.
#[derive(Clone, Copy, Debug, Default, PartialEq, Eq)]
pub struct Spot {
    pub count: u8,
    pub length: u32,
    pub limit: u16,
    pub rear: u8,
    pub holdsall: bool,
    pub next: u8,
    pub nextlimit: u16,
    pub holds: bool,
    pub near: bool,
}

impl Spot {
    // Near, with a next that is not allocated to it.
    #[tactic(auto, unfolding(crate::specs::Cycle::wants))]
    pub fn wants_next(self) -> bool
        ensures { result ≡ wants self }
    {
        self.near & (0 < self.next) & !self.holds
    }
}
