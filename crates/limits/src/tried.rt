// What a machine is tried with, and the text that says what came of it.
ghost use Rattle.std.specs.Prelude.{◌≡◌, ◌≤◌};
ghost use Rattle.limits.specs.Counts.{activity_holding};
ghost use Rattle.limits.specs.Calls.{room_for_cells};

use crate::counts::Count;
use crate::{calls, counts};
use activity::Activity;
use registers::Ring;
use std::fmt;

// Room for the row of the longest ring that is tried, which is one cell too long.
const ROOM: usize = 10417;

// The shortest ring, with the head at its start.
const SHORTEST: Ring = Ring {
    length: 2048,
    position: 0,
};

// The ring and the activity of a machine to try, and the number in one of them for which it is to be `Refusal::Machine`.
#[derive(Clone, Copy)]
pub struct Tried {
    n: u16,
    ring: Ring,
    activity: Activity,
    ghost fits: { ring.length ≤ room_for_cells },
}

impl Tried {
    // An activity with such a count, on the shortest ring.
    pub fn counting(count: Count, n: u16) -> Tried
        ensures { result.activity ≡ activity_holding count n }
    {
        Tried {
            n,
            ring: SHORTEST,
            activity: counts::holding(count, n),
        }
    }

    // A position on the shortest ring.
    pub fn at_position(position: u16) -> Tried {
        Tried {
            n: position,
            ring: Ring {
                position,
                ..SHORTEST
            },
            activity: Activity::Idle,
        }
    }

    // A ring of this length.
    pub fn of_length(length: u16) -> Tried
        requires { length ≤ room_for_cells }
    {
        Tried {
            n: length,
            ring: Ring { length, ..SHORTEST },
            activity: Activity::Idle,
        }
    }
}

// The number, and what the calls give over a row as long as the ring, so that it is never `Refusal::Track`.
impl fmt::Display for Tried {
    fn fmt<W: fmt::Write>(&self, f: &mut fmt::Formatter<W>) -> fmt::Result {
        let mut room = [0x00FFu16; ROOM];
        let row = &mut room[..self.ring.length as usize];
        let [loaded, read, passed, ran] = calls::numbers(
            calls::machine(self.ring, self.activity),
            row,
        );
        write!(f, "{}: {loaded} {read} {passed} {ran}", self.n)
    }
}
