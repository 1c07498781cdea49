// The viewer: the data cells of a sector, as a part of the side that they stand on.
#![tactic(auto)]

ghost use Rattle.std.specs.Prelude.{◌≡◌, true, ◌-◌, length, IfSome, IfOk, OnOk};
ghost use Rattle.scan.specs.Rows.{length_within};
ghost use Rattle.viewer.specs.Sectors.{register_over, SpanWithin, wanted_of, span_behind, span_on};
ghost use Rattle.viewer.specs.Views.{cells_within, view_refusal, PlaceWithin, place_of, part_cells, part_start, number_of};

use fields::Found;
use refusals::{Outcome, Refusal};
use scan::Id;

// Where a side has the data cells of a sector: from one cell up to another.
#[derive(Clone, Copy)]
pub struct Span {
    pub from: usize,
    pub to: usize,
}

// The side that a sector's data cells stand on, and where.
#[derive(Clone, Copy)]
pub enum Place {
    Zero(Span),
    One(Span),
}

// The sector that is looked for.
#[derive(Clone, Copy)]
struct Wanted {
    mfm: bool,
    track: u8,
    sector: u8,
}

// The register after the cells from one place up to another, flags ignored.
fn register(side: &[u16], crc: u16, from: usize, to: usize) -> u16
    ensures { result ≡ register_over side.now crc from (to - from) }
{
    (from..to).fold(
        crc,
        |register, at| crc::step(register, (fields::cell(side, at) % 256) as u8),
    )
}

impl Wanted {
    // Whether an ID is a good one of the track and sector.
    #[tactic(auto, unfolding(crate::specs::Sectors::wanted_of))]
    fn is_met_by(self, id: Id) -> bool
        ensures { result ≡ wanted_of id self.track self.sector }
    {
        id.good & (id.track == self.track) & (id.sector == self.sector)
    }

    // The data cells after an ID that was found, if it has a data mark and a good data field before the side's end.
    #[tactic(auto, unfolding(crate::specs::Sectors::span_behind, crate::specs::Sectors::span_marked, crate::specs::Sectors::span_from))]
    fn span_behind(self, side: &[u16], found: Found) -> Option<Span>
        ensures value { result ≡ span_behind self.mfm side.now found.id.length found.behind }
        ensures within { IfSome result (SpanWithin side.now) }
    {
        let marked = fields::mark_behind(side, self.mfm, found.behind)?;
        let from = found.behind as usize + marked.cell as usize;
        let to = from + command::sizes::size(found.id.length) as usize;
        if side.len() < to + 2 {
            return None;
        }
        let crc = scan::mark_crc(self.mfm, marked.mark.byte());
        if register(side, crc, from, to + 2) != 0 {
            return None;
        }
        Some(Span { from, to })
    }

    // The first sector of a side that qualifies.
    #[tactic(auto, using(crate::proofs::Search::searching), unfolding(crate::specs::Sectors::span_in))]
    fn span_on(self, side: &[u16]) -> Option<Span>
        requires { length_within (length side.now) ≡ true }
        ensures value { result ≡ span_on self.mfm side.now self.track self.sector }
        ensures within { IfSome result (SpanWithin side.now) }
    {
        let to = side.len() as u32;
        let mut from = 0;
        while let Some(found) = fields::next_id(side, self.mfm, from, to) {
            if self.is_met_by(found.id)
                && let Some(span) = self.span_behind(side, found)
            {
                return Some(span);
            }
            from = found.behind;
        }
        None
    }
}

#[tactic(auto, unfolding(crate::specs::Views::cells_within))]
fn cells_within(side: &[u16]) -> bool
    ensures { result ≡ cells_within side.now }
{
    side.iter().all(|&cell| cell <= 511)
}

// Why the sides may not be searched, if they may not: a length is asked before a cell.
#[tactic(auto, unfolding(crate::specs::Views::view_refusal))]
fn refusal(side0: &[u16], side1: &[u16]) -> Outcome
    ensures value { result ≡ view_refusal side0.now side1.now }
    ensures lengths { OnOk result ((length_within (length side0.now) ≡ true) × (length_within (length side1.now) ≡ true)) }
{
    if !(scan::length_within(side0.len()) & scan::length_within(side1.len())) {
        return Err(Refusal::Length);
    }
    if !(cells_within(side0) & cells_within(side1)) {
        return Err(Refusal::Cell);
    }
    Ok(())
}

// Where the sector's data cells stand. Density, track and sector are no struct here, nor below: README and PROMISES name the
// arguments of these calls.
#[tactic(auto, unfolding(crate::specs::Views::place_of, crate::specs::Views::first_place, crate::specs::Views::second_place))]
pub fn find(
    side0: &[u16],
    side1: &[u16],
    mfm: bool,
    track: u8,
    sector: u8,
) -> Result<Place, Refusal>
    ensures value { result ≡ place_of side0.now side1.now mfm track sector }
    ensures within { IfOk result (PlaceWithin side0.now side1.now) }
{
    refusal(side0, side1)?;
    let wanted = Wanted { mfm, track, sector };
    if let Some(span) = wanted.span_on(side0) {
        return Ok(Place::Zero(span));
    }
    if let Some(span) = wanted.span_on(side1) {
        return Ok(Place::One(span));
    }
    Err(Refusal::Sector)
}

// The sector's data cells as they stand there; an empty part of side 0 where the viewer refuses.
#[tactic(auto, unfolding(crate::specs::Views::part_cells, crate::specs::Views::part_start))]
pub fn view<'a>(side0: &'a [u16], side1: &'a [u16], mfm: bool, track: u8, sector: u8) -> &'a [u16]
    ensures cells { result.now ≡ part_cells (place_of side0.now side1.now mfm track sector) side0.now side1.now }
    ensures start { result.ref_ptr ≡ part_start (place_of side0.now side1.now mfm track sector) side0.entry.ref_ptr side1.entry.ref_ptr }
{
    match find(side0, side1, mfm, track, sector) {
        Ok(Place::Zero(span)) => &side0[span.from..span.to],
        Ok(Place::One(span)) => &side1[span.from..span.to],
        Err(_) => &side0[0..0],
    }
}

// The number that goes with the part: a u8 and a call of its own, as document 01 has it.
#[tactic(auto, unfolding(refusals::specs::Numbers::number_in))]
pub fn number(side0: &[u16], side1: &[u16], mfm: bool, track: u8, sector: u8) -> u8
    ensures { result ≡ number_of (place_of side0.now side1.now mfm track sector) }
{
    refusals::number(find(side0, side1, mfm, track, sector).map(|_| ()))
}
