// The page that a picture's listing is put on, piece after piece.
ghost use Rattle.std.specs.Prelude.{◌≡◌, ◌+◌, ◌≤◌, [], ◌++◌, length};
ghost use Rattle.list.specs.Listing.{listing_room};

use arrayvec::ArrayVec;
use std::marker::Model;

// Room for the longest listing.
pub const ROOM: usize = 7 + (scan::LONGEST_ROW + 9) * 4 + 10;

// A contract sees a page as the bytes on it.
#[derive(Drop)]
pub struct Page {
    bytes: ArrayVec<u8, ROOM>,
}

impl Model for Page {
    ghost use Rattle.std.specs.Prelude.{List, ℕ};

    ghost Value = { List ℕ };

    ghost view = { λ page. page.bytes.items };
}

impl Page {
    pub fn new() -> Page
        ensures { result ≡ [] }
    {
        Page {
            bytes: ArrayVec::new(),
        }
    }

    // Takes all text off.
    pub fn clear(&mut self)
        ensures { self.new ≡ [] }
    {
        self.bytes.clear();
    }

    pub fn text(&self) -> &[u8]
        ensures value { result.now ≡ self.now }
        ensures fits { length result.now ≤ listing_room }
    {
        self.bytes.as_slice()
    }

    // The bytes of a piece. There is room, so that none is refused.
    pub fn put(&mut self, piece: &[u8])
        requires { length self.old + length piece.now ≤ listing_room }
        ensures { self.new ≡ self.old ++ piece.now }
    {
        self.bytes.try_extend_from_slice(piece).unwrap();
    }
}
