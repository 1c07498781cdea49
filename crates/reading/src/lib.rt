// Read Sector after its ID, and Read Address.
#![tactic(auto)]

ghost use Rattle.std.specs.Prelude.{◌≡◌};
ghost use Rattle.reading.specs.Reading.{window_missed, window_step, window_cell, record_follows, data_cell, address_begun, hunt_step, hunt_cell, address_track, address_cell};

use activity::{Act, Activity, Deed, Seen};
use scan::{Passed, Sought};
use search::{again, counted};

#[tactic(auto, unfolding(crate::specs::Reading::window_missed))]
fn missed(s: Seen, left: u16, passed: u8, run: u8) -> Act
    ensures { result ≡ window_missed s left passed run }
{
    if passed as u16 + 1 < scan::window(s.mfm) as u16 {
        return s.go_on(Activity::Window(left, passed + 1, run));
    }
    s.pass(Activity::Idle, Deed::NotFound) // and no search for another ID
}

#[tactic(auto, unfolding(crate::specs::Reading::window_step))]
fn met(s: Seen, left: u16, passed: u8, sought: Sought) -> Act
    ensures { result ≡ window_step s left passed sought }
{
    match sought {
        Sought::On(run) => missed(s, left, passed, run),
        Sought::Met(mark) => s.go_on(Activity::Data(
            left,
            scan::mark_crc(s.mfm, mark.byte()),
            mark.is_deleted(),
        )),
    }
}

// A cell after the ID of a Read Sector.
#[tactic(auto, unfolding(crate::specs::Reading::window_cell))]
pub fn window(s: Seen, left: u16, passed: u8, run: u8) -> Act
    ensures { result ≡ window_cell s left passed run }
{
    met(s, left, passed, scan::seek_data(s.mfm, s.cell, run))
}

// Whether another record follows one that closes with this register.
#[tactic(auto, unfolding(crate::specs::Reading::record_follows))]
fn follows(multiple: bool, crc: u16) -> bool
    ensures { result ≡ record_follows multiple crc }
{
    if crc == 0 { multiple } else { false }
}

// A cell of a data field.
#[tactic(auto, unfolding(crate::specs::Reading::data_cell, crate::specs::Reading::record_end))]
pub fn read(s: Seen, multiple: bool, left: u16, crc: u16, deleted: bool) -> Act
    ensures { result ≡ data_cell s multiple left crc deleted }
{
    let byte = s.byte();
    let next = crc::step(crc, byte);
    if 3 <= left {
        return s.pass(Activity::Data(left - 1, next, deleted), Deed::Deliver(byte));
    }
    if left == 2 {
        return s.go_on(Activity::Data(1, next, deleted));
    }
    let another = follows(multiple, next);
    s.pass(again(another), Deed::Record(deleted, next != 0, another))
}

#[tactic(auto, unfolding(crate::specs::Reading::address_begun))]
fn begin_address(mfm: bool, pulses: u8, byte: u8) -> Activity
    ensures { result ≡ address_begun mfm pulses byte }
{
    if byte == 0xFE {
        Activity::Address(0, scan::mark_crc(mfm, 0xFE), 0)
    } else {
        Activity::Hunt(pulses, 0)
    }
}

#[tactic(auto, unfolding(crate::specs::Reading::hunt_step))]
fn hunted(s: Seen, pulses: u8, passed: Passed) -> Act
    ensures { result ≡ hunt_step s pulses passed }
{
    match passed {
        Passed::Gap(run) => s.go_on(Activity::Hunt(pulses, run)),
        Passed::Mark(byte) => s.go_on(begin_address(s.mfm, pulses, byte)),
    }
}

// Read Address before its mark.
#[tactic(auto, unfolding(crate::specs::Reading::hunt_cell, search::specs::Search::counted_of))]
pub fn hunt(s: Seen, seen: u8, run: u8) -> Act
    ensures { result ≡ hunt_cell s seen run }
{
    let Some(count) = counted(seen, s.index) else {
        return s.pass(Activity::Idle, Deed::NotFound);
    };
    hunted(s, count, scan::pass(s.mfm, s.cell, run))
}

#[tactic(auto, unfolding(crate::specs::Reading::address_track))]
fn track_of(passed: u8, byte: u8, track: u8) -> u8
    ensures { result ≡ address_track passed byte track }
{
    if passed == 0 { byte } else { track }
}

// A cell after the mark of a Read Address.
#[tactic(auto, unfolding(crate::specs::Reading::address_cell))]
pub fn address(s: Seen, passed: u8, crc: u16, track: u8) -> Act
    ensures { result ≡ address_cell s passed crc track }
{
    let byte = s.byte();
    let next = crc::step(crc, byte);
    if 5 <= passed {
        return s.pass(Activity::Idle, Deed::Named(byte, track, next != 0));
    }
    s.pass(
        Activity::Address(passed + 1, next, track_of(passed, byte, track)),
        Deed::Deliver(byte),
    )
}
