// The fields that a lent row of cells holds, round the ring: its IDs one after another, and the data mark after an ID.
#![tactic(auto)]

ghost use Rattle.std.specs.Prelude.{◌≡◌};
ghost use Rattle.fields.specs.Rings.{cells_of};
ghost use Rattle.fields.specs.Ids.{next_id};
ghost use Rattle.fields.specs.DataMarks.{mark_behind};

use scan::{DataMark, Heard, Id, Scan, Sought};

// An ID that was found, and the place after its last cell.
#[derive(Clone, Copy)]
pub struct Found {
    pub id: Id,
    pub behind: u32,
}

// The data mark after an ID, and which cell of the window its byte is, counted from 1.
#[derive(Clone, Copy)]
pub struct Marked {
    pub mark: DataMark,
    pub cell: u8,
}

// The cell at a place. Places go on round the ring: after the last cell comes the first again. A row of no cells holds 0.
#[tactic(auto, unfolding(crate::specs::Rings::cells_of))]
pub fn cell(row: &[u16], place: usize) -> u16
    ensures { result ≡ cells_of row.now place }
{
    if row.is_empty() {
        return 0;
    }
    row[place % row.len()]
}

// The first ID that stands whole in the cells from one place up to another. To find the next one, go on from the place handed back.
#[tactic(auto, using(crate::proofs::Steps::hearing), unfolding(crate::specs::Ids::next_id))]
pub fn next_id(row: &[u16], mfm: bool, from: u32, to: u32) -> Option<Found>
    ensures { result ≡ next_id mfm row.now from to }
{
    let mut scan = Scan::Gap(0);
    for at in from..to {
        match scan::hear(mfm, cell(row, at as usize), scan) {
            Heard::On(next) => scan = next,
            Heard::Whole(id) => return Some(Found { id, behind: at + 1 }),
        }
    }
    None
}

// The first data mark in the window after an ID, whose last cell stands just before the place.
#[tactic(auto, using(crate::proofs::Steps::seeking), unfolding(crate::specs::DataMarks::mark_behind))]
pub fn mark_behind(row: &[u16], mfm: bool, place: u32) -> Option<Marked>
    ensures { result ≡ mark_behind mfm row.now place }
{
    let mut run = 0;
    for passed in 0..scan::window(mfm) {
        match scan::seek_data(mfm, cell(row, place as usize + passed as usize), run) {
            Sought::On(next) => run = next,
            Sought::Met(mark) => return Some(Marked {
                mark,
                cell: passed + 1,
            }),
        }
    }
    None
}
