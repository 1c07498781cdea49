// The search for an ID.
#![tactic(auto)]

ghost use Rattle.std.specs.Prelude.{◌≡◌};
ghost use Rattle.search.specs.Search.{pulses_seen, side_matches, sector_matches, matches_for, after_match, after_record, id_found, search_step, search_cell, counted_of};

use activity::{Act, Activity, Deed, Seen};
use command::{Job, Order};
use scan::{Heard, Id, Scan};

// Index pulses seen with this byte time; from the fifth on they need no longer be counted.
#[tactic(auto, unfolding(crate::specs::Search::pulses_seen))]
pub fn pulses(seen: u8, index: bool) -> u8
    ensures { result ≡ pulses_seen seen index }
{
    if index {
        if seen < 5 { seen + 1 } else { 5 }
    } else {
        seen
    }
}

// The same as long as the search goes on: its fifth pulse ends it.
#[tactic(auto, unfolding(crate::specs::Search::counted_of))]
pub fn counted(seen: u8, index: bool) -> Option<u8>
    ensures { result ≡ counted_of seen index }
{
    let count = pulses(seen, index);
    (count < 5).then_some(count)
}

#[tactic(auto, unfolding(crate::specs::Search::side_matches))]
fn side_matches(side: u8, asked: Option<u8>) -> bool
    ensures { result ≡ side_matches side asked }
{
    asked.is_none_or(|only| side == only)
}

#[tactic(auto, unfolding(crate::specs::Search::sector_matches))]
fn sector_matches(o: Order, s: Seen, id: Id) -> bool
    ensures { result ≡ sector_matches o s id }
{
    (id.track == s.tr) & (id.sector == s.sr) & side_matches(id.side, o.side)
}

#[tactic(auto, unfolding(crate::specs::Search::matches_for))]
fn matches(o: Order, s: Seen, id: Id, job: Job) -> bool
    ensures { result ≡ matches_for o s id job }
{
    match job {
        Job::Verify => id.track == s.tr,
        Job::ReadSector | Job::WriteSector => sector_matches(o, s, id),
        Job::Nothing | Job::ReadAddress | Job::WriteTrack => false,
    }
}

// What comes after a good match.
#[tactic(auto, unfolding(crate::specs::Search::after_match))]
fn served(job: Job, ibm: bool, length: u8) -> Activity
    ensures { result ≡ after_match ibm length job }
{
    match job {
        Job::ReadSector => Activity::Window(command::sizes::field_size(ibm, length) + 2, 0, 0),
        Job::WriteSector => Activity::Preamble(command::sizes::field_size(ibm, length) + 3, 0),
        _ => Activity::Idle,
    }
}

#[tactic(auto, unfolding(crate::specs::Search::id_found))]
fn found(o: Order, s: Seen, pulses: u8, id: Id) -> Act
    ensures { result ≡ id_found o s pulses id }
{
    let job = command::job_of(o.command);
    if matches(o, s, id, job) {
        if id.good {
            return s.pass(served(job, o.ibm, id.length), Deed::Matched(false));
        }
        return s.pass(Activity::Search(pulses, Scan::Gap(0)), Deed::Matched(true));
    }
    s.go_on(Activity::Search(pulses, Scan::Gap(0)))
}

#[tactic(auto, unfolding(crate::specs::Search::search_step))]
fn hears(o: Order, s: Seen, pulses: u8, heard: Heard) -> Act
    ensures { result ≡ search_step o s pulses heard }
{
    match heard {
        Heard::On(scan) => s.go_on(Activity::Search(pulses, scan)),
        Heard::Whole(id) => found(o, s, pulses, id),
    }
}

// After a record: the next search, or the end.
#[tactic(auto, unfolding(crate::specs::Search::after_record))]
pub fn again(follows: bool) -> Activity
    ensures { result ≡ after_record follows }
{
    if follows {
        Activity::Search(0, Scan::Gap(0))
    } else {
        Activity::Idle
    }
}

// One cell more.
#[tactic(auto, unfolding(crate::specs::Search::search_cell, crate::specs::Search::counted_of))]
pub fn search(o: Order, s: Seen, seen: u8, scan: Scan) -> Act
    ensures { result ≡ search_cell o s seen scan }
{
    let Some(count) = counted(seen, s.index) else {
        return s.pass(Activity::Idle, Deed::NotFound);
    };
    hears(o, s, count, scan::hear(s.mfm, s.cell, scan))
}
