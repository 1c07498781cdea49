// Two rows of cells, and the lines of a script that work them.
ghost use Rattle.std.specs.Prelude.{◌≡◌, ◌↔◌, ◌+◌, ◌-◌, ◌≤◌, ◌++◌, length, take, drop, replicate, false, IsTrue, IsOk, IfOk, OnOk, OnErr};
ghost use Rattle.scan.specs.Rows.{longest_row, length_within};
ghost use Rattle.bench.specs.Numbers.{gap_of};
ghost use Rattle.bench.specs.Rows.{row_with};

use scan::{LONGEST_ROW, SHORTEST_ROW};
use script::{BadLine, Line, Task};
use std::ops::Range;

// Room for the longest row. (A struct of its own, since no part of one that has a ghost field can be handed out to be written.)
#[derive(Drop)]
struct Cells {
    all: [u16; LONGEST_ROW],
}

impl Cells {
    // The first cells, for writing.
    fn first_mut(&mut self, count: usize) -> &mut [u16]
        requires { count ≤ longest_row }
    {
        &mut self.all[..count]
    }
}

// A row of cells: the first ones of its room. (With an ArrayVec, which grows a cell at a time and wipes each that it drops, line P
// takes ten times as long.)
#[derive(Drop)]
pub struct Row {
    cells: Cells,
    size: usize,
    ghost fits: { size ≤ longest_row },
}

impl Row {
    fn new() -> Row
        ensures { result.size ≡ 0 }
    {
        Row {
            cells: Cells {
                all: [0; LONGEST_ROW],
            },
            size: 0,
        }
    }

    fn as_slice(&self) -> &[u16]
        ensures cells { result.now ≡ take self.now.size self.now.cells.all }
        ensures fits { length result.now ≤ longest_row }
    {
        &self.cells.all[..self.size]
    }

    fn as_mut_slice(&mut self) -> &mut [u16] {
        let size = self.size;
        self.cells.first_mut(size)
    }

    // The row has so many cells from now on; those that it did not have become one and the same.
    fn resize(&mut self, size: usize, cell: u16)
        requires { size ≤ longest_row }
        ensures size { self.new.size ≡ size }
        ensures cells { self.new.cells.all
            ≡ row_with self.old.cells.all self.old.size (replicate (size - self.old.size) cell) }
    {
        if self.size < size {
            self.cells.all[self.size..size].fill(cell);
        }
        self.size = size;
    }

    // The row has so many cells, all of them one and the same.
    fn refill(&mut self, size: usize, cell: u16)
        requires { size ≤ longest_row }
        ensures size { self.new.size ≡ size }
        ensures cells { self.new.cells.all ≡ row_with self.old.cells.all 0 (replicate size cell) }
    {
        self.cells.all[0..size].fill(cell);
        self.size = size;
    }
}

// What a density's empty track holds. (`scan::lead` says why a number of each density is a function of its own.)
fn gap(mfm: bool) -> u16
    ensures { result ≡ gap_of mfm }
{
    if mfm { 0x004E } else { 0x00FF }
}

// The places of so many cells of a row from one on. One past its present length is an error of the script.
fn places(row: &Row, place: u16, count: usize) -> Result<Range<usize>, BadLine>
    requires { count ≤ 65535 }
    ensures fits { IsOk result ↔ (place + count ≤ row.now.size) }
    ensures places { IfOk result (λ r. (r.start ≡ place) × (r.end ≡ place + count)) }
{
    let from = place as usize;
    let to = from + count;
    if row.size < to {
        return Err(BadLine);
    }
    Ok(from..to)
}

// Line K.
fn set_count(row: &mut Row, count: u16) -> Result<(), BadLine>
    ensures fits { IsOk result ↔ (count ≤ longest_row) }
    ensures size { OnOk result (row.new.size ≡ count) }
    ensures ok { OnOk result (row.new.cells.all ≡ row_with row.old.cells.all row.old.size (replicate (count - row.old.size) 0)) }
    ensures err { OnErr result (row.new ≡ row.old) }
{
    let size = count as usize;
    if LONGEST_ROW < size {
        return Err(BadLine);
    }
    row.resize(size, 0);
    Ok(())
}

// Line F.
fn fill(row: &mut Row, place: u16, count: u16, cell: u16) -> Result<(), BadLine>
    ensures fits { IsOk result ↔ (place + count ≤ row.old.size) }
    ensures size { row.new.size ≡ row.old.size }
    ensures ok { OnOk result (row.new.cells.all ≡ row_with row.old.cells.all place (replicate count cell)) }
    ensures err { OnErr result (row.new ≡ row.old) }
{
    let places = places(row, place, count as usize)?;
    row.cells.all[places].fill(cell);
    Ok(())
}

// Line C.
fn set(row: &mut Row, place: u16, cells: &[u16]) -> Result<(), BadLine>
    requires { length cells.now ≤ 65535 }
    ensures fits { IsOk result ↔ (place + length cells.now ≤ row.old.size) }
    ensures size { row.new.size ≡ row.old.size }
    ensures ok { OnOk result (row.new.cells.all ≡ row_with row.old.cells.all place cells.now) }
    ensures err { OnErr result (row.new ≡ row.old) }
{
    let places = places(row, place, cells.len())?;
    row.cells.all[places].copy_from_slice(cells);
    Ok(())
}

// Line V.
fn shown(row: &Row, place: u16, count: u16) -> Result<&[u16], BadLine>
    ensures fits { IsOk result ↔ (place + count ≤ row.now.size) }
    ensures ok { IfOk result (λ shown. shown.now ≡ take count (drop place (take row.now.size row.now.cells.all))) }
{
    let places = places(row, place, count as usize)?;
    Ok(&row.as_slice()[places])
}

// The two rows. Which of them is the current one is told by a flag, so that line U moves no cell.
#[derive(Drop)]
pub struct Rows {
    first: Row,
    second: Row,
    swapped: bool,
}

impl Rows {
    // Before the first line: two shortest rows.
    pub fn start() -> Rows {
        let mut rows = Rows {
            first: Row::new(),
            second: Row::new(),
            swapped: false,
        };
        rows.blank(SHORTEST_ROW, false);
        rows
    }

    // The current row, side 0 of the viewer.
    pub fn current(&self) -> &[u16]
        ensures { length result.now ≤ longest_row }
    {
        if self.swapped {
            self.second.as_slice()
        } else {
            self.first.as_slice()
        }
    }

    // The current row, for a line that works it.
    fn current_row(&mut self) -> &mut Row {
        if self.swapped {
            &mut self.second
        } else {
            &mut self.first
        }
    }

    pub fn current_mut(&mut self) -> &mut [u16] {
        self.current_row().as_mut_slice()
    }

    // The other row, side 1 of the viewer.
    pub fn other(&self) -> &[u16]
        ensures { length result.now ≤ longest_row }
    {
        if self.swapped {
            self.first.as_slice()
        } else {
            self.second.as_slice()
        }
    }

    // Both rows become so many cells of an empty track, where power-on takes a track of so many.
    #[tactic(auto, using(scan::proofs::Rows::within_most))]
    pub fn blank(&mut self, size: usize, mfm: bool)
        ensures sizes { IsTrue (length_within size) → (self.new.first.size ≡ size) × (self.new.second.size ≡ size) }
        ensures taken { IsTrue (length_within size) → self.new.first.cells.all ≡ row_with self.old.first.cells.all 0 (replicate size (gap_of mfm)) }
        ensures other { IsTrue (length_within size) → self.new.second.cells.all ≡ row_with self.old.second.cells.all 0 (replicate size (gap_of mfm)) }
        ensures swapped { self.new.swapped ≡ self.old.swapped }
        ensures refused { (length_within size ≡ false) → self.new ≡ self.old }
    {
        if scan::length_within(size) {
            self.first.refill(size, gap(mfm));
            self.second.refill(size, gap(mfm));
        }
    }

    // A line that works the rows; what it shows of the current row.
    pub fn carry_out(&mut self, task: Task, line: &Line) -> Result<&[u16], BadLine> {
        match task {
            Task::SetCount { count } => set_count(self.current_row(), count)?,
            Task::Fill { place, count, cell } => fill(self.current_row(), place, count, cell)?,
            Task::SetCells { place } => {
                let cells = line.numbers.as_slice().get(1..).unwrap_or_default();
                set(self.current_row(), place, cells)?;
            }
            Task::Show { place, count } => return shown(self.current_row(), place, count),
            Task::Swap => self.swapped = !self.swapped,
        }
        Ok(&[])
    }
}
