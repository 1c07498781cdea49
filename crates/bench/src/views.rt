// Cells of a row, and what the viewer says of the two rows.
use crate::digits::byte;
use crate::output::Outgoing;
use crate::rows::Rows;
use std::io;
use std::io::Write;

// Puts cells as a line ends with them, four digits each. (By `{:04X}` a cell takes almost five times as long.)
pub fn put_cells(out: &mut Outgoing, cells: &[u16]) -> io::Result<()> {
    for cell in cells {
        let [a, b, c, d] = text::hex(*cell);
        out.write_all(&[b' ', a, b, c, d])?;
    }
    out.write_all(b"\n")
}

// What the viewer gives: its number, and the part of a side with the count of its cells.
#[derive(Clone, Copy)]
pub struct View<'a> {
    number: u8,
    count: u16,
    part: &'a [u16],
}

impl View<'_> {
    // Line Q: side 0 is the current row.
    pub fn of(rows: &Rows, mfm: bool, track: u8, sector: u8) -> View<'_> {
        let (side0, side1) = (rows.current(), rows.other());
        let part = viewer::view(side0, side1, mfm, track, sector);
        View {
            number: viewer::number(side0, side1, mfm, track, sector),
            count: part.len() as u16,
            part,
        }
    }

    // The number, how many cells the part has, and the cells.
    pub fn put(self, out: &mut Outgoing) -> io::Result<()> {
        let [n, m] = byte(self.number);
        let [a, b, c, d] = text::hex(self.count);
        out.write_all(&[b' ', n, m, b' ', a, b, c, d])?;
        put_cells(out, self.part)
    }
}
