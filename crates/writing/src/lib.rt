// Write Sector after its ID.
#![tactic(auto)]

ghost use Rattle.std.specs.Prelude.{◌≡◌, ◌≤◌};
ghost use Rattle.writing.specs.Writing.{places_of, mark_cell, preamble_cell, preamble_next, preamble_deed, preamble_turn, put_cell};

use activity::{Act, Activity, Deed, Seen};
use search::again;

// Byte times after the ID's last cell, numbered from 1.
#[derive(Clone, Copy)]
struct Places {
    // Up to this one the cells are kept,
    kept: u16,
    // up to this one they become 00,
    zero: u16,
    // and this one becomes the mark.
    mark: u16,
}

const FM: Places = Places {
    kept: 11,
    zero: 17,
    mark: 18,
};

const MFM: Places = Places {
    kept: 22,
    zero: 34,
    mark: 38,
};

#[tactic(auto, unfolding(crate::specs::Writing::mark_place, crate::specs::Writing::last_zero, crate::specs::Writing::last_kept, scan::specs::Marks::lead_of))]
fn places_in(mfm: bool) -> Places
    ensures value { result ≡ places_of mfm }
    ensures upper_bound { result.mark ≤ 38 }
{
    if mfm { MFM } else { FM }
}

#[tactic(auto, unfolding(crate::specs::Writing::mark_cell))]
fn mark_cell(mfm: bool, byte: u8) -> u16
    ensures { result ≡ mark_cell mfm byte }
{
    if mfm { byte as u16 } else { byte as u16 + 256 }
}

// What the n-th cell after the ID becomes.
#[tactic(auto, unfolding(crate::specs::Writing::preamble_cell))]
fn preamble_cell(mfm: bool, n: u16, mark: u8, cell: u16) -> u16
    ensures { result ≡ preamble_cell mfm n mark cell }
{
    let places = places_in(mfm);
    if n <= places.kept {
        return cell;
    }
    if n <= places.zero {
        return 0x00;
    }
    if n < places.mark {
        return scan::SYNC;
    }
    mark_cell(mfm, mark)
}

#[tactic(auto, unfolding(crate::specs::Writing::preamble_next))]
fn preamble_next(mfm: bool, left: u16, n: u16, mark: u8) -> Activity
    ensures { result ≡ preamble_next mfm left n mark }
{
    if n < places_in(mfm).mark {
        Activity::Preamble(left, n as u8)
    } else {
        Activity::Put(left, scan::mark_crc(mfm, mark))
    }
}

#[tactic(auto, unfolding(crate::specs::Writing::preamble_deed))]
fn asks(n: u16) -> Deed
    ensures { result ≡ preamble_deed n }
{
    if n == 2 {
        Deed::Ask(true)
    } else {
        Deed::Nothing
    }
}

// A cell after the ID, up to the mark.
#[tactic(auto, unfolding(crate::specs::Writing::preamble_turn))]
pub fn preamble(s: Seen, mark: u8, left: u16, passed: u8) -> Act
    ensures { result ≡ preamble_turn s mark left passed }
{
    let n = passed as u16 + 1;
    if (n == 10) & s.drq {
        return s.pass(Activity::Idle, Deed::Late);
    }
    Act {
        next: preamble_next(s.mfm, left, n, mark),
        deed: asks(n),
        cell: preamble_cell(s.mfm, n, mark, s.cell),
    }
}

// A cell after the mark: data, the two CRC bytes, the FF.
#[tactic(auto, unfolding(crate::specs::Writing::put_cell))]
pub fn put(s: Seen, multiple: bool, left: u16, crc: u16) -> Act
    ensures { result ≡ put_cell s multiple left crc }
{
    if 4 <= left {
        let byte = s.taken();
        return Act {
            next: Activity::Put(left - 1, crc::step(crc, byte)),
            deed: Deed::Take(5 <= left),
            cell: byte as u16,
        };
    }
    if left == 3 {
        return Act {
            next: Activity::Put(2, crc),
            deed: Deed::Nothing,
            cell: crc / 256,
        };
    }
    if left == 2 {
        return Act {
            next: Activity::Put(1, crc),
            deed: Deed::Nothing,
            cell: crc % 256,
        };
    }
    Act {
        next: again(multiple),
        deed: Deed::Written(multiple),
        cell: 0xFF,
    }
}
