// Runs: byte times up to a limit, or to the first that ends with DRQ or INTRQ on.
ghost use Rattle.std.specs.Prelude.{◌≡◌};
ghost use Rattle.refusals.specs.Numbers.{done};
ghost use Rattle.wd.specs.Counts.{MayPass, HasRoom};
ghost use Rattle.wd.specs.Rows.{empty_run, run_of, run_row, further_of};

use crate::{Machine, Ran};
use registers::Lines;
use transfer::Transfer;

// A run goes on for so many byte times. After one that has not stopped it, those in which nothing happens are passed at once.
// No `for` says this, since the count goes down by one and by a stretch.
fn run_on(start: Ran, lines: Lines, limit: u16, row: &mut [u16]) -> Ran
    requires passes { MayPass start.machine row.old }
    requires room { HasRoom start.tally limit }
    ensures { (result ≡ (further_of start lines limit row.old).ran) × (row.new ≡ (further_of start lines limit row.old).row) }
{
    let mut ran = start;
    let mut left = limit;
    while 0 < left {
        let passed = ran.machine.pass(lines, row);
        let next = ran.with(passed);
        if passed.stops() {
            return next;
        }
        left -= 1;
        let stretch = next.machine.ahead(left, row);
        ran = next.stretched(stretch, lines.ready);
        left -= stretch;
    }
    ran
}

impl Machine {
    // A run where nothing is refused and no byte is transferred in its first byte time. It may begin with a stretch, and end
    // with it. The loop has two callers here, so the compiler keeps it apart, and a byte transferred does not pay for it.
    fn run_open(self, lines: Lines, limit: u16, row: &mut [u16]) -> Ran
        requires { MayPass self row.old }
        ensures { (result ≡ (further_of (empty_run done self) lines limit row.old).ran) × (row.new ≡ (further_of (empty_run done self) lines limit row.old).row) }
    {
        let stretch = self.first(lines.ready, limit, row);
        let start = Ran::none(Ok(()), self);
        if stretch == 0 {
            return run_on(start, lines, limit, row);
        }
        let after = start.stretched(stretch, lines.ready);
        if stretch == limit {
            return after;
        }
        run_on(after, lines, limit - stretch, row)
    }

    // Byte times up to a limit, to the first that ends with DRQ or INTRQ on. A byte time keeps a valid machine valid and
    // the row's length, so the row's refusals are looked at once. A byte transferred in the first one ends the run with it.
    pub fn run(self, lines: Lines, limit: u16, row: &mut [u16]) -> Ran
        ensures { (result ≡ run_of self lines limit row.old) × (row.new ≡ run_row self lines limit row.old) }
    {
        if let Err(refusal) = self.row_refusal(row.len()) {
            return Ran::none(Err(refusal), self);
        }
        if limit == 0 {
            return Ran::none(Ok(()), self);
        }
        let position = self.ring.position as usize;
        match self.transferred(lines, row[position]) {
            Some(Transfer { next, dr, cell }) => {
                row[position] = cell;
                Ran::one(self.after_transfer(lines.ready, dr, next))
            }
            None => self.run_open(lines, limit, row),
        }
    }
}
