// Fields on a stream of cells: marks, IDs and data marks, one cell a step, in both densities.
#![tactic(auto)]

ghost use Rattle.std.specs.Prelude.{◌≡◌, ◌<◌};
ghost use Rattle.scan.specs.Marks.{lead_of, carries_mark, sync_run, mark_step, mark_crc};
ghost use Rattle.scan.specs.Rows.{length_within};
ghost use Rattle.scan.specs.DataMarks.{data_mark_of, data_mark_in, data_mark_step, mark_byte, is_deleted, window_of};
ghost use Rattle.scan.specs.Ids.{last_id_cell, id_begun, pushed_of, whole_of, run_in, id_byte_step, id_cell_step, id_mark_step, id_step};

// No track has fewer cells.
pub const SHORTEST_ROW: usize = 2048;

// No track has more cells. The rows of `bench` and `list` follow from it.
pub const LONGEST_ROW: usize = 10416;

// A1 with missing clocks.
pub const SYNC: u16 = 0x1A1;

// How many of these cells stand before a mark's byte in MFM.
pub const SYNCS: u8 = 3;

// The cells of an ID after its mark.
pub const ID_CELLS: u8 = 6;

// The last cell of an ID, counted from 0 after its mark.
pub const LAST_ID_CELL: u8 = ID_CELLS - 1;

// The longer of the two windows for a data mark, MFM's.
pub const LONGEST_WINDOW: u8 = 43;

// What a cell is after those that passed. This enum, `Sought`, `Scan` and `Heard` are no Option and no Result: each of their cases
// says what happened, and none is an absence or an error. `Sought` and `Heard` are not one generic type: each names what it met, a
// data mark or a whole ID.
#[derive(Clone, Copy)]
pub enum Passed {
    // No mark ends here; so many flagged A1 cells, at most three, stand last in a row.
    Gap(u8),
    // A mark ends here, with this byte.
    Mark(u8),
}

// The data mark that was met, by its byte. F9 and FA are those of disks from FD1771 machines.
#[derive(Clone, Copy, Debug, PartialEq, Eq)]
pub enum DataMark {
    Fb,
    F8,
    F9,
    Fa,
}

// What a cell is to whoever waits for a data mark.
#[derive(Clone, Copy)]
pub enum Sought {
    // No data mark ends here; so many flagged A1 cells stand last in a row.
    On(u8),
    Met(DataMark),
}

#[derive(Clone, Copy)]
pub struct Id {
    pub track: u8,
    pub side: u8,
    pub sector: u8,
    pub length: u8,
    pub good: bool,
}

// What has passed of an ID after its mark: how many cells, the register, and the bytes among them.
#[derive(Clone, Copy)]
pub struct Part {
    pub passed: u8,
    pub crc: u16,
    pub track: u8,
    pub side: u8,
    pub sector: u8,
    pub length: u8,
}

// Where the scanner for IDs stands.
#[derive(Clone, Copy)]
pub enum Scan {
    // In no ID; so many flagged A1 cells stand last in a row.
    Gap(u8),
    Field(Part),
}

// What a cell is to whoever waits for an ID.
#[derive(Clone, Copy)]
pub enum Heard {
    On(Scan),
    // A whole ID ends here.
    Whole(Id),
}

// Whether a track may have so many cells.
#[tactic(auto, unfolding(crate::specs::Rows::length_within))]
pub fn length_within(length: usize) -> bool
    ensures { result ≡ length_within length }
{
    (SHORTEST_ROW <= length) & (length <= LONGEST_ROW)
}

// How many flagged A1 cells stand before a mark's byte. Each number that differs between the densities has a function like this one.
// A helper that picks one of two numbers by the density would say no more than its `if`.
#[tactic(auto, unfolding(crate::specs::Marks::lead_of))]
pub fn lead(mfm: bool) -> u8
    ensures { result ≡ lead_of mfm }
{
    if mfm { SYNCS } else { 0 }
}

#[tactic(auto, unfolding(crate::specs::Marks::carries_mark))]
fn carries_mark(mfm: bool, cell: u16) -> bool
    ensures { result ≡ carries_mark mfm cell }
{
    if mfm { cell < 256 } else { cell / 256 == 1 }
}

#[tactic(auto, unfolding(crate::specs::Marks::sync_run))]
fn run_on(cell: u16, run: u8) -> u8
    ensures { result ≡ sync_run cell run }
{
    if cell == SYNC {
        if run < SYNCS { run + 1 } else { SYNCS }
    } else {
        0
    }
}

// One cell more for whoever waits for a mark, with the flagged A1 cells in a row before it.
#[tactic(auto, unfolding(crate::specs::Marks::mark_step))]
pub fn pass(mfm: bool, cell: u16, run: u8) -> Passed
    ensures { result ≡ mark_step mfm cell run }
{
    if (lead(mfm) <= run) & carries_mark(mfm, cell) {
        Passed::Mark((cell % 256) as u8)
    } else {
        Passed::Gap(run_on(cell, run))
    }
}

// The register after the cells of a mark.
#[tactic(auto, using(crate::proofs::Preset::after_syncs), unfolding(crate::specs::Marks::mark_crc, crate::specs::Marks::mark_bytes, crc::specs::Crc::crc_over))]
pub fn mark_crc(mfm: bool, byte: u8) -> u16
    ensures { result ≡ mark_crc mfm byte }
{
    if mfm {
        crc::step(0xCDB4, byte)
    } else {
        crc::step(0xFFFF, byte)
    }
}

// What a mark is by its byte to whoever waits for a data mark: F9 and FA are data marks in FM only. (So it is no TryFrom: it asks
// the density too.)
#[tactic(auto, unfolding(crate::specs::DataMarks::data_mark_of, crate::specs::DataMarks::density_has))]
fn data_mark(mfm: bool, byte: u8) -> Sought
    ensures { result ≡ data_mark_of mfm byte }
{
    match byte {
        0xFB => Sought::Met(DataMark::Fb),
        0xF8 => Sought::Met(DataMark::F8),
        0xF9 if !mfm => Sought::Met(DataMark::F9),
        0xFA if !mfm => Sought::Met(DataMark::Fa),
        _ => Sought::On(0),
    }
}

#[tactic(auto, unfolding(crate::specs::DataMarks::data_mark_in))]
fn data_mark_in(mfm: bool, passed: Passed) -> Sought
    ensures { result ≡ data_mark_in mfm passed }
{
    match passed {
        Passed::Gap(run) => Sought::On(run),
        Passed::Mark(byte) => data_mark(mfm, byte),
    }
}

// One cell more for whoever waits for a data mark; other marks are passed over.
#[tactic(auto, unfolding(crate::specs::DataMarks::data_mark_step))]
pub fn seek_data(mfm: bool, cell: u16, run: u8) -> Sought
    ensures { result ≡ data_mark_step mfm cell run }
{
    data_mark_in(mfm, pass(mfm, cell, run))
}

impl DataMark {
    // Not the variants' own numbers: the edits of must-fail-long/ give two of them one byte.
    #[tactic(auto, unfolding(crate::specs::DataMarks::mark_byte))]
    pub fn byte(self) -> u8
        ensures { result ≡ mark_byte self }
    {
        match self {
            DataMark::Fb => 0xFB,
            DataMark::F8 => 0xF8,
            DataMark::F9 => 0xF9,
            DataMark::Fa => 0xFA,
        }
    }

    #[tactic(auto, unfolding(crate::specs::DataMarks::is_deleted))]
    pub fn is_deleted(self) -> bool
        ensures { result ≡ is_deleted self }
    {
        matches!(self, DataMark::F8 | DataMark::F9)
    }
}

// How many cells after an ID may hold its data mark. (A function of its own, as `lead` is.)
#[tactic(auto, unfolding(crate::specs::DataMarks::window_of))]
pub fn window(mfm: bool) -> u8
    ensures { result ≡ window_of mfm }
{
    if mfm { LONGEST_WINDOW } else { 30 }
}

#[tactic(auto, unfolding(crate::specs::Ids::id_begun))]
fn begin(mfm: bool, byte: u8) -> Scan
    ensures { result ≡ id_begun mfm byte }
{
    if byte == 0xFE {
        Scan::Field(Part {
            passed: 0,
            crc: mark_crc(mfm, 0xFE),
            track: 0,
            side: 0,
            sector: 0,
            length: 0,
        })
    } else {
        Scan::Gap(0)
    }
}

impl Part {
    // With one cell more.
    #[tactic(auto, unfolding(crate::specs::Ids::pushed_of))]
    fn with(self, byte: u8) -> Part
        requires { self.passed < last_id_cell }
        ensures { result ≡ pushed_of self byte }
    {
        let part = Part {
            passed: self.passed + 1,
            crc: crc::step(self.crc, byte),
            ..self
        };
        match self.passed {
            0 => Part {
                track: byte,
                ..part
            },
            1 => Part { side: byte, ..part },
            2 => Part {
                sector: byte,
                ..part
            },
            3 => Part {
                length: byte,
                ..part
            },
            _ => part,
        }
    }

    // The ID whose last cell this is.
    #[tactic(auto, unfolding(crate::specs::Ids::whole_of))]
    fn whole(self, byte: u8) -> Id
        ensures { result ≡ whole_of self byte }
    {
        Id {
            track: self.track,
            side: self.side,
            sector: self.sector,
            length: self.length,
            good: crc::step(self.crc, byte) == 0,
        }
    }
}

// An unflagged cell of an ID.
#[tactic(auto, unfolding(crate::specs::Ids::id_byte_step))]
fn add(part: Part, byte: u8) -> Heard
    ensures { result ≡ id_byte_step part byte }
{
    if part.passed < LAST_ID_CELL {
        Heard::On(Scan::Field(part.with(byte)))
    } else {
        Heard::Whole(part.whole(byte))
    }
}

#[tactic(auto, unfolding(crate::specs::Ids::run_in))]
fn run_in(scan: Scan) -> u8
    ensures { result ≡ run_in scan }
{
    match scan {
        Scan::Gap(run) => run,
        Scan::Field(_) => 0,
    }
}

// A cell that ends no mark: an ID's next if it may be, and else the gap's.
#[tactic(auto, unfolding(crate::specs::Ids::id_cell_step))]
fn grow(cell: u16, run: u8, scan: Scan) -> Heard
    ensures { result ≡ id_cell_step cell run scan }
{
    match scan {
        Scan::Gap(_) => Heard::On(Scan::Gap(run)),
        Scan::Field(part) => {
            if cell < 256 {
                add(part, (cell % 256) as u8)
            } else {
                Heard::On(Scan::Gap(run))
            }
        }
    }
}

// A mark begins anew, whatever the scanner was in.
#[tactic(auto, unfolding(crate::specs::Ids::id_mark_step))]
fn look(mfm: bool, cell: u16, scan: Scan, passed: Passed) -> Heard
    ensures { result ≡ id_mark_step mfm cell scan passed }
{
    match passed {
        Passed::Gap(run) => grow(cell, run, scan),
        Passed::Mark(byte) => Heard::On(begin(mfm, byte)),
    }
}

// One cell more for whoever waits for an ID.
#[tactic(auto, unfolding(crate::specs::Ids::id_step))]
pub fn hear(mfm: bool, cell: u16, scan: Scan) -> Heard
    ensures { result ≡ id_step mfm cell scan }
{
    look(mfm, cell, scan, pass(mfm, cell, run_in(scan)))
}
