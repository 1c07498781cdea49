// The lines that the program prints, put on a page. By the digits of `text`, whose contracts say which bytes they are: `write!` would
// be no plainer, since each contract here gives its bytes, and they would follow from a formatter's options (`{:02X}`) instead.
ghost use Rattle.std.specs.Prelude.{◌≡◌, ◌+◌, ◌≤◌, [], ◌∷◌, ◌++◌, length};
ghost use Rattle.refusals.specs.Numbers.{number_of};
ghost use Rattle.text.specs.Decimal.{decimal_of};
ghost use Rattle.list.specs.Listing.{listing_room};
ghost use Rattle.list.specs.Lines.{newline, head_text, byte_text, crc_text, mark_text, id_text, count_text, refusal_text};

use crate::page::Page;
use fields::Marked;
use refusals::Refusal;
use scan::Id;

impl Page {
    // A space and two hexadecimal digits.
    #[tactic(auto, unfolding(crate::specs::Lines::byte_text, text::specs::Hex::hex_of))]
    fn put_byte(&mut self, byte: u8)
        requires { length self.old + 3 ≤ listing_room }
        ensures put { self.new ≡ self.old ++ byte_text byte }
        ensures bound { length self.new ≤ length self.old + 3 }
    {
        let hex = text::hex(byte as u16);
        self.put(&[b' ', hex[2], hex[3]]);
    }

    // A number in decimal.
    #[tactic(auto, unfolding(text::specs::Decimal::decimal_of, text::specs::Decimal::figures_of))]
    fn put_decimal(&mut self, n: u16)
        requires { length self.old + 5 ≤ listing_room }
        ensures put { self.new ≡ self.old ++ decimal_of n }
        ensures bound { length self.new ≤ length self.old + 5 }
    {
        let figures = text::figures(n);
        self.put(&figures[5 - text::places(n)..]);
    }

    // A picture's first line: the letter of its shape, track and side.
    #[tactic(auto, unfolding(crate::specs::Lines::head_text, text::specs::Hex::hex_of))]
    pub fn put_head(&mut self, letter: u8, track: u8, side: u8)
        requires { length self.old + 7 ≤ listing_room }
        ensures put { self.new ≡ self.old ++ head_text letter track side }
        ensures bound { length self.new ≤ length self.old + 7 }
    {
        let hex = text::hex(track as u16);
        let digit = text::digit(side as u16);
        self.put(&[letter, b' ', hex[2], hex[3], b' ', digit, b'\n']);
    }

    #[tactic(auto, unfolding(crate::specs::Lines::crc_text))]
    fn put_verdict(&mut self, good: bool)
        requires { length self.old + 5 ≤ listing_room }
        ensures put { self.new ≡ self.old ++ crc_text good }
        ensures bound { length self.new ≤ length self.old + 5 }
    {
        self.put(if good { b" good" } else { b" bad" });
    }

    #[tactic(auto, unfolding(crate::specs::Lines::mark_text))]
    fn put_mark(&mut self, behind: Option<Marked>)
        requires { length self.old + 5 ≤ listing_room }
        ensures put { self.new ≡ self.old ++ mark_text behind }
        ensures bound { length self.new ≤ length self.old + 5 }
    {
        match behind {
            None => self.put(b" none"),
            Some(marked) => self.put_byte(marked.mark.byte()),
        }
    }

    // An ID's four bytes.
    fn put_id_bytes(&mut self, id: Id)
        requires { length self.old + 12 ≤ listing_room }
        ensures put { self.new ≡ self.old ++ byte_text id.track ++ byte_text id.side ++ byte_text id.sector ++ byte_text id.length }
        ensures bound { length self.new ≤ length self.old + 12 }
    {
        self.put_byte(id.track);
        self.put_byte(id.side);
        self.put_byte(id.sector);
        self.put_byte(id.length);
    }

    // An ID's line: the cell of its FE, its four bytes, its CRC and its data mark.
    #[tactic(auto, unfolding(crate::specs::Lines::id_text))]
    pub fn put_id(&mut self, cell: u16, id: Id, behind: Option<Marked>)
        requires { length self.old + 28 ≤ listing_room }
        ensures put { self.new ≡ self.old ++ id_text cell id behind }
        ensures bound { length self.new ≤ length self.old + 28 }
    {
        self.put_decimal(cell);
        self.put_id_bytes(id);
        self.put_verdict(id.good);
        self.put_mark(behind);
        self.put(b"\n");
    }

    // A line of a word and a number.
    fn put_numbered(&mut self, word: &[u8], n: u16)
        requires { length self.old + length word.now + 6 ≤ listing_room }
        ensures put { self.new ≡ self.old ++ word.now ++ decimal_of n ++ newline ∷ [] }
        ensures bound { length self.new ≤ length self.old + length word.now + 6 }
    {
        self.put(word);
        self.put_decimal(n);
        self.put(b"\n");
    }

    // A picture's last line: how many IDs it has.
    #[tactic(auto, unfolding(crate::specs::Lines::count_text))]
    pub fn put_count(&mut self, ids: u16)
        requires { length self.old + 10 ≤ listing_room }
        ensures put { self.new ≡ self.old ++ count_text ids }
        ensures bound { length self.new ≤ length self.old + 10 }
    {
        self.put_numbered(b"ids ", ids);
    }

    // The line of a refusal.
    #[tactic(auto, unfolding(crate::specs::Lines::refusal_text))]
    pub fn put_refused(&mut self, refusal: Refusal)
        requires { length self.old + 14 ≤ listing_room }
        ensures put { self.new ≡ self.old ++ refusal_text (number_of refusal) }
        ensures bound { length self.new ≤ length self.old + 14 }
    {
        self.put_numbered(b"refused ", refusal.number() as u16);
    }
}
