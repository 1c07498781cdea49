// Stretches: byte times one after another in which nothing happens but that the ring turns and a wait grows shorter. A run
// passes them at once, for a handful of instructions a cell.
#![tactic(auto)]

ghost use Rattle.std.specs.Prelude.{◌≡◌, ◌+◌, ◌-◌, ◌≤◌, length, nat_le, position};
ghost use Rattle.stretch.specs.Stretches.{wait_reach, empty_gap, search_reach, reach_of, activity_after, clear_from, stretch_ahead};

use activity::Activity;
use registers::Ring;
use scan::Scan;

// At most so many byte times, over cells below a bound.
#[derive(Clone, Copy)]
pub struct Reach {
    pub most: u16,
    pub below: u16,
}

impl Reach {
    // No stretch.
    const NONE: Reach = Reach { most: 0, below: 0 };
}

// So many byte times of a wait are left in which nothing happens.
#[tactic(auto, unfolding(crate::specs::Stretches::wait_reach, crate::specs::Stretches::least_of))]
fn wait_reach(limit: u16, left: u16) -> Reach
    ensures { result ≡ wait_reach limit left }
{
    Reach {
        most: left.min(limit),
        below: 512,
    }
}

#[tactic(auto, unfolding(crate::specs::Stretches::empty_gap))]
fn empty_gap(scan: Scan) -> bool
    ensures { result ≡ empty_gap scan }
{
    matches!(scan, Scan::Gap(0))
}

#[tactic(auto, unfolding(crate::specs::Stretches::search_reach))]
fn search_reach(limit: u16, pulses: u8, scan: Scan) -> Reach
    ensures { result ≡ search_reach limit pulses scan }
{
    if (pulses < 5) & empty_gap(scan) {
        Reach {
            most: limit,
            below: 256,
        }
    } else {
        Reach::NONE
    }
}

// How far nothing happens, up to a limit, where no index pulse comes.
#[tactic(auto, unfolding(crate::specs::Stretches::reach_of))]
fn reaches(limit: u16, activity: Activity) -> Reach
    ensures { result ≡ reach_of limit activity }
{
    match activity {
        Activity::Idle | Activity::Await => Reach {
            most: limit,
            below: 512,
        },
        Activity::Seek(left) | Activity::Stop(left) => wait_reach(limit, left.saturating_sub(1)),
        Activity::Settle(left) => wait_reach(limit, left),
        Activity::Search(pulses, scan) => search_reach(limit, pulses, scan),
        Activity::Hunt(pulses, run) => search_reach(limit, pulses, Scan::Gap(run)),
        _ => Reach::NONE,
    }
}

// The activity after so many such byte times.
#[tactic(auto, unfolding(crate::specs::Stretches::activity_after))]
pub fn later(passed: u16, activity: Activity) -> Activity
    ensures { result ≡ activity_after passed activity }
{
    match activity {
        Activity::Seek(left) => Activity::Seek(left.saturating_sub(passed)),
        Activity::Stop(left) => Activity::Stop(left.saturating_sub(passed)),
        Activity::Settle(left) => Activity::Settle(left.saturating_sub(passed)),
        _ => activity,
    }
}

// Where the first cell stands that is not below the bound, if there is one.
fn first_from(cells: &[u16], below: u16) -> Option<usize>
    ensures { result ≡ position (λ cell. nat_le below cell) cells.now }
{
    cells.iter().position(|&cell| below <= cell)
}

// How many of so many cells from there on come before it.
#[tactic(auto, using(crate::proofs::Clearing::first_clear))]
fn clear(row: &[u16], from: usize, count: usize, below: u16) -> usize
    requires { from + count ≤ length row.now }
    ensures value { result ≡ clear_from row.now below count from - from }
    ensures upper_bound { result ≤ count }
{
    first_from(&row[from..from + count], below).unwrap_or(count)
}

// How many byte times of a stretch come next, at most so many. Cell 0, whose byte time is an index pulse, and the ring's last,
// after which the position goes to 0, are in none.
#[tactic(auto, using(crate::proofs::Reaching::reach_most), unfolding(crate::specs::Stretches::stretch_ahead, crate::specs::Stretches::reach_in, crate::specs::Stretches::least_of))]
pub fn ahead(ring: Ring, activity: Activity, limit: u16, row: &[u16]) -> u16
    ensures value { result ≡ stretch_ahead ring activity limit row.now }
    ensures upper_bound { result ≤ limit }
{
    if (ring.position == 0) | (ring.length <= ring.position) | (row.len() != ring.length as usize) {
        return 0;
    }
    let reach = reaches((ring.length - 1 - ring.position).min(limit), activity);
    clear(
        row,
        ring.position as usize,
        reach.most as usize,
        reach.below,
    ) as u16
}
