// Byte times over the lent row.
ghost use Rattle.std.specs.Prelude.{◌≡◌};
ghost use Rattle.wd.specs.Counts.{MayPass};
ghost use Rattle.wd.specs.Rows.{row_refusal, byte_time, byte_time_row};

use crate::{Machine, Passed};
use refusals::{Outcome, Refusal};
use registers::Lines;

impl Machine {
    // What a row is refused for: Machine, then Track.
    #[tactic(auto, unfolding(crate::specs::Rows::row_refusal))]
    pub(crate) fn row_refusal(self, length: usize) -> Outcome
        ensures { result ≡ row_refusal self length }
    {
        if !self.valid() {
            return Err(Refusal::Machine);
        }
        if length != self.ring.length as usize {
            return Err(Refusal::Track);
        }
        Ok(())
    }

    // The cell under the head passes. Whoever calls has looked at the row's refusals.
    #[tactic(auto, unfolding(crate::specs::Rows::byte_time, crate::specs::Rows::byte_time_row))]
    pub(crate) fn pass(self, lines: Lines, row: &mut [u16]) -> Passed
        requires { MayPass self row.old }
        ensures { (result ≡ byte_time self lines row.old) × (row.new ≡ byte_time_row self lines row.old) }
    {
        let position = self.ring.position as usize;
        let cell = row[position];
        if 511 < cell {
            return Passed::refused(Refusal::Cell, self);
        }
        let turn = self.turn(lines, cell);
        row[position] = turn.cell;
        Passed::done(turn)
    }

    // One byte time over the lent row.
    #[tactic(auto, unfolding(crate::specs::Rows::byte_time, crate::specs::Rows::byte_time_row))]
    pub fn byte_time(self, lines: Lines, row: &mut [u16]) -> Passed
        ensures { (result ≡ byte_time self lines row.old) × (row.new ≡ byte_time_row self lines row.old) }
    {
        match self.row_refusal(row.len()) {
            Ok(()) => self.pass(lines, row),
            Err(refusal) => Passed::refused(refusal, self),
        }
    }
}
