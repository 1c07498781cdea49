// What the program prints of a picture.
ghost use Rattle.std.specs.Prelude.{◌≡◌, ◌+◌, ◌-◌, ◌*◌, ◌≤◌, ◌++◌, length, IfSome};
ghost use Rattle.scan.specs.Rows.{longest_row};
ghost use Rattle.scan.specs.Marks.{lead_of};
ghost use Rattle.picture.specs.Reader.{reader_room};
ghost use Rattle.list.specs.Listing.{listing_room, joined, id_lines, listing_text, picture_text, taken_of};

use crate::page::Page;
use fields::Found;
use picture::Shape;

// Where the round begins: the lead of a mark whose byte is cell 0 stands at the ring's end.
#[tactic(auto, using(scan::proofs::Marks::lead_most))]
fn round_start(mfm: bool, size: u32) -> u32
    requires { 3 ≤ size }
    ensures { result ≡ size - lead_of mfm }
{
    size - u32::from(scan::lead(mfm))
}

// Puts a line for each ID, by the cell of its FE, round the ring, and hands back how many they are.
#[tactic(auto, using(crate::proofs::Rounds::left_found, crate::proofs::Rounds::left_none, crate::proofs::Rounds::left_all))]
fn put_ids(page: &mut Page, mfm: bool, row: &[u16]) -> u16
    requires in_bounds { (3 ≤ length row.now) × (length row.now ≤ longest_row) }
    requires room { length page.old + (length row.now + 9) * 4 ≤ listing_room }
    ensures put { page.new ≡ page.old ++ joined (id_lines mfm row.now) }
    ensures ids_value { result ≡ length (id_lines mfm row.now) }
    ensures bound { length page.new ≤ length page.old + (length row.now + 9) * 4 }
{
    let size = row.len() as u32;
    let mut from = round_start(mfm, size);
    for ids in 0..size as u16 {
        match fields::next_id(row, mfm, from, size + size + 6) {
            None => {
                return ids;
            }
            Some(Found { id, behind }) => {
                let mark = fields::mark_behind(row, mfm, behind);
                page.put_id((behind - 7 - size) as u16, id, mark);
                from = behind;
            }
        }
    }
    size as u16
}

// Puts the whole listing of a picture in place of what is on the page: its head, a line for each ID, their count.
#[tactic(auto, unfolding(crate::specs::Listing::listing_text))]
pub fn put_listing(page: &mut Page, shape: Shape, track: u8, side: u8, row: &[u16])
    requires in_bounds { (3 ≤ length row.now) × (length row.now ≤ longest_row) }
    ensures put { page.new ≡ listing_text shape track side row.now }
    ensures bound { length page.new ≤ listing_room }
{
    page.clear();
    page.put_head(shape.letter, track, side);
    let ids = put_ids(page, shape.mfm, row);
    page.put_count(ids);
}

// Puts what is printed of the first picture of the bytes on the page, in place of what is there: its listing, or its refusal. Hands
// back how many bytes the picture has, and nothing where it is refused.
#[tactic(auto, using(picture::proofs::Laws::taken_within), unfolding(crate::specs::Listing::picture_text, crate::specs::Listing::is_refused, crate::specs::Listing::taken_of, refusals::specs::Numbers::number_in))]
pub fn put_picture(page: &mut Page, bytes: &[u8], room: &mut [u16]) -> Option<usize>
    requires { length room.old ≡ longest_row }
    ensures value { result ≡ taken_of bytes.now (length room.old) }
    ensures put { page.new ≡ picture_text bytes.now room.old }
    ensures room_after { room.new ≡ reader_room bytes.now room.old }
    ensures bound { IfSome result (λ taken. taken ≤ length bytes.now) }
    ensures fits { length page.new ≤ listing_room }
{
    let answer = picture::read(bytes, room);
    if let Err(refusal) = answer.outcome {
        page.clear();
        page.put_refused(refusal);
        return None;
    }
    let shape = answer.kind.shape();
    put_listing(
        page,
        shape,
        answer.track,
        answer.side,
        &room[..shape.length],
    );
    Some(answer.taken)
}
