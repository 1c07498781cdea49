// Why a call is refused: the numbers of document 01, "Numbers handed back", as an enum.
#![tactic(auto)]

ghost use Rattle.std.specs.Prelude.{◌≡◌, Some};
ghost use Rattle.refusals.specs.Numbers.{number_of, refused_text, number_in};

use std::error::Error;
use std::fmt;

// What a call gives beside its values: done, or why it is refused.
pub type Outcome = Result<(), Refusal>;

// One for each number but 0, in their order.
#[derive(Clone, Copy, Debug, PartialEq, Eq)]
pub enum Refusal {
    // A length outside the range, at power-on or in the viewer.
    Length,
    // A position outside the ring, a ring out of range, or a count that no machine grown from power-on holds.
    Machine,
    // The lent track is not as long as the ring.
    Track,
    // A cell above 511, under the head or lent to the viewer.
    Cell,
    // A register number above 3.
    Register,
    // A load that waits until Busy is off.
    Busy,
    // The byte is no command.
    Command,
    // The byte is no picture's kind.
    Kind,
    // A picture that ends early, or an empty one.
    End,
    // A picture's side byte above 1, or a padding bit that is set.
    Side,
    // The viewer finds no such sector.
    Sector,
    // Less room for cells than the picture has.
    Room,
}

impl Refusal {
    // Its number.
    #[tactic(auto, unfolding(crate::specs::Numbers::number_of))]
    pub fn number(self) -> u8
        ensures { result ≡ number_of self }
    {
        match self {
            Refusal::Length => 1,
            Refusal::Machine => 2,
            Refusal::Track => 3,
            Refusal::Cell => 4,
            Refusal::Register => 5,
            Refusal::Busy => 6,
            Refusal::Command => 7,
            Refusal::Kind => 8,
            Refusal::End => 9,
            Refusal::Side => 10,
            Refusal::Sector => 11,
            Refusal::Room => 12,
        }
    }
}

impl fmt::Display for Refusal {
    ghost output = { λ refusal. Some (refused_text refusal) };

    #[tactic(auto, unfolding(crate::specs::Numbers::refused_text))]
    fn fmt<W: fmt::Write>(&self, f: &mut fmt::Formatter<W>) -> fmt::Result {
        write!(f, "refused {}", self.number())
    }
}

impl Error for Refusal {}

// The number that goes with a call's outcome.
#[tactic(auto, unfolding(crate::specs::Numbers::number_in))]
pub fn number(outcome: Outcome) -> u8
    ensures { result ≡ number_in outcome }
{
    match outcome {
        Ok(()) => 0,
        Err(refusal) => refusal.number(),
    }
}
