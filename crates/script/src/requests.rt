// What a line asks for: its letter, as many numbers as the letter takes, each within its bounds.
ghost use Rattle.std.specs.Prelude.{◌≡◌};
ghost use Rattle.script.specs.Requests.{byte_of, flag_of, power_on_request, lines_request, load_request, read_request, view_request, of_none, of_one, of_two, of_three, asked_of, asked_by, request_of};

use crate::lines::{BadLine, Line};

// What is asked of the controller that is there.
#[derive(Clone, Copy)]
pub enum Call {
    Load { register: u8, byte: u8 },
    Read { register: u8 },
    ByteTime,
    Run { limit: u16 },
    SetPosition { position: u16 },
    SetLength { length: u16 },
}

// What is asked of the rows of cells.
#[derive(Clone, Copy)]
pub enum Task {
    SetCount { count: u16 },
    Fill { place: u16, count: u16, cell: u16 },
    // The cells are the line's numbers after its first.
    SetCells { place: u16 },
    Show { place: u16, count: u16 },
    Swap,
}

#[derive(Clone, Copy)]
pub enum Request {
    PowerOn {
        mfm: bool,
        length: u16,
        // A bool, since `script` stands on no crate that knows the chips.
        wd1797: bool,
    },
    SetLines {
        bits: u8,
    },
    Controller(Call),
    Rows(Task),
    // Of the viewer.
    View {
        mfm: bool,
        track: u8,
        sector: u8,
    },
}

#[tactic(auto, unfolding(crate::specs::Requests::byte_of))]
fn byte(number: u16) -> Result<u8, BadLine>
    ensures { result ≡ byte_of number }
{
    u8::try_from(number).map_err(|_| BadLine)
}

#[tactic(auto, unfolding(crate::specs::Requests::flag_of))]
fn flag(number: u16) -> Result<bool, BadLine>
    ensures { result ≡ flag_of number }
{
    match number {
        0 => Ok(false),
        1 => Ok(true),
        _ => Err(BadLine),
    }
}

// Chip 0 is the WD1793, chip 1 the WD1797.
#[tactic(auto, unfolding(crate::specs::Requests::power_on_request, crate::specs::Requests::flag_of))]
fn power_on(density: u16, length: u16, chip: u16) -> Result<Request, BadLine>
    ensures { result ≡ power_on_request density length chip }
{
    Ok(Request::PowerOn {
        mfm: flag(density)?,
        length,
        wd1797: flag(chip)?,
    })
}

#[tactic(auto, unfolding(crate::specs::Requests::lines_request))]
fn set_lines(bits: u16) -> Result<Request, BadLine>
    ensures { result ≡ lines_request bits }
{
    if 15 < bits {
        return Err(BadLine);
    }
    Ok(Request::SetLines { bits: bits as u8 })
}

#[tactic(auto, unfolding(crate::specs::Requests::load_request, crate::specs::Requests::byte_of))]
fn load(register: u16, value: u16) -> Result<Request, BadLine>
    ensures { result ≡ load_request register value }
{
    Ok(Request::Controller(Call::Load {
        register: byte(register)?,
        byte: byte(value)?,
    }))
}

#[tactic(auto, unfolding(crate::specs::Requests::read_request, crate::specs::Requests::byte_of))]
fn read(register: u16) -> Result<Request, BadLine>
    ensures { result ≡ read_request register }
{
    Ok(Request::Controller(Call::Read {
        register: byte(register)?,
    }))
}

#[tactic(auto, unfolding(crate::specs::Requests::view_request, crate::specs::Requests::byte_of, crate::specs::Requests::flag_of))]
fn view(density: u16, track: u16, sector: u16) -> Result<Request, BadLine>
    ensures { result ≡ view_request density track sector }
{
    Ok(Request::View {
        mfm: flag(density)?,
        track: byte(track)?,
        sector: byte(sector)?,
    })
}

#[tactic(auto, unfolding(crate::specs::Requests::of_none))]
fn of_none(letter: u8) -> Result<Request, BadLine>
    ensures { result ≡ of_none letter }
{
    match letter {
        b'B' => Ok(Request::Controller(Call::ByteTime)),
        b'U' => Ok(Request::Rows(Task::Swap)),
        _ => Err(BadLine),
    }
}

#[tactic(auto, unfolding(crate::specs::Requests::of_one))]
fn of_one(letter: u8, a: u16) -> Result<Request, BadLine>
    ensures { result ≡ of_one letter a }
{
    match letter {
        b'N' => set_lines(a),
        b'R' => read(a),
        b'G' => Ok(Request::Controller(Call::Run { limit: a })),
        b'X' => Ok(Request::Controller(Call::SetPosition { position: a })),
        b'Y' => Ok(Request::Controller(Call::SetLength { length: a })),
        b'K' => Ok(Request::Rows(Task::SetCount { count: a })),
        _ => Err(BadLine),
    }
}

#[tactic(auto, unfolding(crate::specs::Requests::of_two))]
fn of_two(letter: u8, a: u16, b: u16) -> Result<Request, BadLine>
    ensures { result ≡ of_two letter a b }
{
    match letter {
        b'P' => power_on(a, b, 0),
        b'W' => load(a, b),
        b'V' => Ok(Request::Rows(Task::Show { place: a, count: b })),
        _ => Err(BadLine),
    }
}

#[tactic(auto, unfolding(crate::specs::Requests::of_three))]
fn of_three(letter: u8, a: u16, b: u16, c: u16) -> Result<Request, BadLine>
    ensures { result ≡ of_three letter a b c }
{
    match letter {
        b'F' => Ok(Request::Rows(Task::Fill {
            place: a,
            count: b,
            cell: c,
        })),
        b'P' => power_on(a, b, c),
        b'Q' => view(a, b, c),
        _ => Err(BadLine),
    }
}

// Line C names at least one cell after its place; that it names no more than 64 the line has seen to.
#[tactic(auto, unfolding(crate::specs::Requests::asked_of, crate::specs::Requests::cells_request, crate::specs::Requests::of_none, crate::specs::Requests::of_one))]
fn asked(letter: u8, numbers: &[u16]) -> Result<Request, BadLine>
    ensures { result ≡ asked_of letter numbers.now }
{
    match numbers {
        [place, _, ..] if letter == b'C' => Ok(Request::Rows(Task::SetCells { place: *place })),
        [] => of_none(letter),
        [a] => of_one(letter, *a),
        [a, b] => of_two(letter, *a, *b),
        [a, b, c] => of_three(letter, *a, *b, *c),
        _ => Err(BadLine),
    }
}

// What a letter and its numbers ask for, however many these are. A line with nothing in it but a comment has neither, and asks
// for nothing.
pub fn asked_by(letter: Option<u8>, numbers: &[u16]) -> Result<Option<Request>, BadLine>
    ensures { result ≡ asked_by letter numbers.now }
{
    match letter {
        Some(letter) => asked(letter, numbers).map(Some),
        None if numbers.is_empty() => Ok(None),
        None => Err(BadLine),
    }
}

// What a line asks for.
#[tactic(auto, unfolding(crate::specs::Requests::request_of))]
pub fn request_of(line: &Line) -> Result<Option<Request>, BadLine>
    ensures { result ≡ request_of line.now }
{
    asked_by(line.letter, line.numbers.as_slice())
}
