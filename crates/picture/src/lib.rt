// Pictures of tracks, and their reader.
#![tactic(auto)]

ghost use Rattle.std.specs.Prelude.{◌≡◌, ◌+◌, ◌≤◌, ◌<◌, length, IfOk, IfErr};
ghost use Rattle.scan.specs.Rows.{shortest_row, longest_row};
ghost use Rattle.picture.specs.Kinds.{kind_of, shape_with, shape_of, length_of};
ghost use Rattle.picture.specs.Layout.{cell_place, body_length, longest_picture, cell_from, picture_cell, spare_clear, padding_clear};
ghost use Rattle.picture.specs.Reader.{sound_of, judged_for, judged_of, verdict_of, room_with_picture};
ghost use Rattle.picture.specs.Reader.{refused_by, taken_from, reader_answer, reader_room};

use refusals::{Outcome, Refusal};

// No picture has more bytes.
pub const LONGEST: usize = 3 + scan::LONGEST_ROW + (scan::LONGEST_ROW + 7) / 8;

// The kinds of pictures, each with a shape and a layout.
#[derive(Clone, Copy, Debug, PartialEq, Eq)]
pub enum Kind {
    Fm,
    Mfm,
    EightInchFm,
    EightInchMfm,
}

// What a picture is of: the letter that stands for it, the density, and the cells of the track.
#[derive(Clone, Copy)]
pub struct Shape {
    pub letter: u8,
    pub mfm: bool,
    pub length: usize,
}

// Where in a picture the byte of a cell stands, and the byte with its flag bit.
#[derive(Clone, Copy)]
struct CellPlace {
    byte: usize,
    flags: usize,
}

// The reader's answer. Its values stand beside the outcome and not in it: document 01 gives values for a refused picture too, "track
// and side 0", which `safe:picture_safe` holds. A refused picture is given as FM, and no byte of it is taken.
#[derive(Clone, Copy)]
pub struct Answer {
    pub outcome: Outcome,
    pub kind: Kind,
    pub track: u8,
    pub side: u8,
    pub taken: usize,
}

impl TryFrom<u8> for Kind {
    type Error = Refusal;

    ghost try_from_gives = { λ byte kind. kind ≡ kind_of byte };

    // The kind of a picture, by its first byte.
    #[tactic(auto, unfolding(crate::specs::Kinds::kind_of))]
    fn try_from(byte: u8) -> Result<Kind, Refusal> {
        match byte {
            0x46 => Ok(Kind::Fm),
            0x4D => Ok(Kind::Mfm),
            0x66 => Ok(Kind::EightInchFm),
            0x6D => Ok(Kind::EightInchMfm),
            _ => Err(Refusal::Kind),
        }
    }
}

fn shaped(letter: u8, mfm: bool, length: usize) -> Shape
    ensures { result ≡ shape_with letter mfm length }
{
    Shape {
        letter,
        mfm,
        length,
    }
}

impl Kind {
    #[tactic(auto, unfolding(crate::specs::Kinds::shape_of))]
    pub fn shape(self) -> Shape
        ensures value { result ≡ shape_of self }
        ensures length_bound { (shortest_row ≤ result.length) × (result.length ≤ longest_row) }
    {
        match self {
            Kind::Fm => shaped(b'F', false, 3125),
            Kind::Mfm => shaped(b'M', true, 6250),
            Kind::EightInchFm => shaped(b'f', false, 5208),
            Kind::EightInchMfm => shaped(b'm', true, 10416),
        }
    }

    // The cells of the track.
    pub fn length(self) -> usize
        ensures value { result ≡ length_of self }
        ensures lower_bound { (shortest_row ≤ result) × (result ≤ longest_row) }
    {
        self.shape().length
    }

    // The layout: the data bytes stand after kind, track and side, and the flag bytes after them.
    #[tactic(auto, unfolding(crate::specs::Layout::cell_place, crate::specs::Layout::body_length))]
    fn place(self, cell: usize) -> CellPlace
        requires { cell < length_of self }
        ensures value { result ≡ cell_place self cell }
        ensures byte_bound { (result.byte ≤ body_length self) × (result.flags ≤ body_length self) }
    {
        let cells = self.length();
        CellPlace {
            byte: 3 + cell,
            flags: 3 + cells + cell / 8,
        }
    }

    // The bytes after the kind's: track, side, data and flags.
    #[tactic(auto, unfolding(crate::specs::Layout::body_length))]
    fn body(self) -> usize
        ensures value { result ≡ body_length self }
        ensures bounds { (2 ≤ result) × (result < longest_picture) }
    {
        let cells = self.length();
        2 + cells + (cells + 7) / 8
    }
}

// The bits of the last flag byte after that of the last cell are 0. Where every bit is a cell's, there are none.
#[tactic(auto, unfolding(crate::specs::Layout::spare_clear))]
fn spare_clear(cells: usize, last: u8) -> bool
    ensures { result ≡ spare_clear cells last }
{
    (last as usize) % (1 << ((8 - cells % 8) % 8)) == 0
}

// A picture of a kind, with all its bytes; more may stand after them.
#[derive(Clone, Copy)]
struct Picture<'a> {
    kind: Kind,
    bytes: &'a [u8],
    ghost whole: { body_length kind < length bytes.now },
}

impl<'a> Picture<'a> {
    // The first picture of the bytes, if it is sound and fits a room of so many cells.
    #[tactic(auto, unfolding(crate::specs::Reader::verdict_of, crate::specs::Reader::judged_of, crate::specs::Reader::judged_for))]
    fn judge(bytes: &'a [u8], room: usize) -> Result<Picture<'a>, Refusal>
        ensures ok { IfOk result (λ picture. verdict_of bytes.now room ≡ Ok picture.kind) }
        ensures lent { IfOk result (λ picture. (picture.bytes.now ≡ bytes.now) × (length_of picture.kind ≤ room)) }
        ensures err { IfErr result (λ refusal. verdict_of bytes.now room ≡ Err refusal) }
    {
        let Some(&first) = bytes.first() else {
            return Err(Refusal::End);
        };
        let kind = Kind::try_from(first)?;
        if bytes.len() <= kind.body() {
            return Err(Refusal::End);
        }
        if room < kind.length() {
            return Err(Refusal::Room);
        }
        let picture = Picture { kind, bytes };
        if !picture.is_sound() {
            return Err(Refusal::Side);
        }
        Ok(picture)
    }

    fn padding_clear(&self) -> bool
        ensures { result ≡ padding_clear self.now.kind self.now.bytes.now }
    {
        spare_clear(self.kind.length(), self.bytes[self.kind.body()])
    }

    #[tactic(auto, unfolding(crate::specs::Layout::body_length, crate::specs::Reader::sound_of))]
    fn is_sound(&self) -> bool
        ensures { result ≡ sound_of self.now.kind self.now.bytes.now }
    {
        (self.bytes[2] <= 1) & self.padding_clear()
    }

    // A cell of the track.
    #[tactic(auto, unfolding(crate::specs::Layout::picture_cell))]
    fn cell(&self, i: usize) -> u16
        requires { i < length_of self.now.kind }
        ensures { result ≡ picture_cell self.now.kind self.now.bytes.now i }
    {
        let place = self.kind.place(i);
        cell(self.bytes[place.byte], self.bytes[place.flags], i)
    }

    // Its cells go to the room's first places.
    #[tactic(auto, unfolding(common::specs::Laid::laid_row, crate::specs::Reader::room_with_picture))]
    fn lay(&self, room: &mut [u16])
        requires { length_of self.now.kind ≤ length room.old }
        ensures { room.new ≡ room_with_picture self.now.kind self.now.bytes.now room.old }
    {
        for i in 0..self.kind.length() {
            room[i] = self.cell(i);
        }
    }

    #[tactic(auto, unfolding(crate::specs::Layout::body_length, crate::specs::Reader::taken_from))]
    fn taken(&self) -> Answer
        ensures { result ≡ taken_from self.now.bytes.now self.now.kind }
    {
        Answer {
            outcome: Ok(()),
            kind: self.kind,
            track: self.bytes[1],
            side: self.bytes[2],
            taken: self.kind.body() + 1,
        }
    }
}

// A cell: its byte, and 256 where its flag bit is 1. Eight cells share a flag byte, the first at bit 7.
#[tactic(auto, unfolding(crate::specs::Layout::cell_from, crate::specs::Layout::flag_in))]
fn cell(byte: u8, flags: u8, place: usize) -> u16
    ensures { result ≡ cell_from byte flags place }
{
    byte as u16 + ((flags >> (7 - place % 8)) % 2) as u16 * 256
}

#[tactic(auto, unfolding(crate::specs::Reader::refused_by))]
fn refused(refusal: Refusal) -> Answer
    ensures { result ≡ refused_by refusal }
{
    Answer {
        outcome: Err(refusal),
        kind: Kind::Fm,
        track: 0,
        side: 0,
        taken: 0,
    }
}

// Reads the first picture of the bytes into the room.
#[tactic(auto, unfolding(crate::specs::Reader::reader_answer, crate::specs::Reader::reader_room, crate::specs::Reader::answer_of, crate::specs::Reader::filled_of))]
pub fn read(bytes: &[u8], room: &mut [u16]) -> Answer
    ensures value { result ≡ reader_answer bytes.now (length room.old) }
    ensures room_after { room.new ≡ reader_room bytes.now room.old }
{
    match Picture::judge(bytes, room.len()) {
        Ok(picture) => {
            picture.lay(room);
            picture.taken()
        }
        Err(refusal) => refused(refusal),
    }
}
