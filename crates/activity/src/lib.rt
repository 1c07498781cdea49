// What the controller can be doing, and what a byte time sees and does.
#![tactic(auto)]

ghost use Rattle.std.specs.Prelude.{◌≡◌};
ghost use Rattle.scan.specs.Marks.{byte_of};
ghost use Rattle.activity.specs.Acts.{taken_of, pass};
ghost use Rattle.activity.specs.Limits.{busy_in, scan_within, counts_within};

use command::sizes::LARGEST_SIZE;
use command::times::SETTLING_MFM;
use scan::{LAST_ID_CELL, LONGEST_WINDOW, SYNCS, Scan};

// The largest counts, by what gives them. A search goes on up to its fifth pulse.
const MOST_PULSES: u8 = 4;

// A data field's two CRC cells are counted with it, and a written one's FF.
const MOST_READ: u16 = LARGEST_SIZE + 2;

const MOST_WRITTEN: u16 = LARGEST_SIZE + 3;

const LAST_OF_WINDOW: u8 = LONGEST_WINDOW - 1;

// The mark of a written field is the 38th cell after the ID in MFM, the later density.
const LAST_PREAMBLE: u8 = 37;

// What a byte time sees: density, index pulse, the ring's last cell, lines, wires, registers and the cell that passes. The order
// stands beside it and not in it, since most byte times are made from what is seen alone. Density is a bool here and in all crates,
// since the public calls, the definitions and the demands take it so (`wd:power_on`).
#[derive(Clone, Copy)]
pub struct Seen {
    pub mfm: bool,
    pub index: bool,
    pub last: bool,
    pub hlt: bool,
    pub track0: bool,
    pub drq: bool,
    pub tr: u8,
    pub sr: u8,
    pub dr: u8,
    pub cell: u16,
}

// What the controller is doing. What its command's bits say stands in the order beside it.
#[derive(Clone, Copy)]
pub enum Activity {
    Idle,
    // Restore and Seek: in so many byte times comes the next decision.
    Seek(u16),
    // Step, Step-in, Step-out: the pulse is next.
    Pulse,
    // After it: in so many byte times comes the stop.
    Stop(u16),
    // So many byte times are left to settle; after them HLT is awaited.
    Settle(u16),
    // For an ID: index pulses seen, and where the scanner stands.
    Search(u8, Scan),
    // For a data mark: cells of its field, cells passed after the ID, flagged A1 cells last in a row.
    Window(u16, u8, u8),
    // Cells left of the data field, the register, and whether its mark counts as deleted.
    Data(u16, u16, bool),
    // For an ID mark: index pulses seen, flagged A1 cells last in a row.
    Hunt(u8, u8),
    // Cells passed after the ID mark, the register, the track.
    Address(u8, u16, u8),
    // Write Track: for the first index pulse.
    Await,
    // Cells to write from the data on, and cells passed after the ID.
    Preamble(u16, u8),
    // Cells left to write, and the register.
    Put(u16, u16),
    // The register.
    Format(u16),
    // The register whose low byte is to be written.
    FormatCrc(u16),
}

// What happens to registers, wires, flags and head. Where the activity becomes Idle the command has ended.
#[derive(Clone, Copy)]
pub enum Deed {
    Nothing,
    // A byte goes to DR.
    Deliver(u8),
    // An address's last byte goes to DR, its track to SR; is its CRC bad?
    Named(u8, u8, bool),
    // An ID matched; is its CRC bad?
    Matched(bool),
    // Seek Error, or Record Not Found.
    NotFound,
    // A record was read: is it deleted, is its CRC bad, does another follow?
    Record(bool, bool, bool),
    // A record was written: does another follow?
    Written(bool),
    // DRQ goes on or off.
    Ask(bool),
    // Nobody has served.
    Late,
    // DR is taken, and DRQ goes on or off.
    Take(bool),
    // A step pulse in or out, and TR after it.
    Step(bool, u8),
    // Type I stops: by the track 0 rule? Is the head loaded?
    Halt(bool, bool),
}

// What the activity is next, what happens, and the cell as it is left.
#[derive(Clone, Copy)]
pub struct Act {
    pub next: Activity,
    pub deed: Deed,
    pub cell: u16,
}

impl Seen {
    // The byte in the cell.
    #[tactic(auto, unfolding(scan::specs::Marks::byte_of))]
    pub fn byte(self) -> u8
        ensures { result ≡ byte_of self.cell }
    {
        (self.cell % 256) as u8
    }

    // The byte that a written cell takes.
    #[tactic(auto, unfolding(crate::specs::Acts::taken_of))]
    pub fn taken(self) -> u8
        ensures { result ≡ taken_of self }
    {
        if self.drq { 0x00 } else { self.dr }
    }

    // The act that leaves the cell as it is.
    pub fn pass(self, next: Activity, deed: Deed) -> Act
        ensures { result ≡ pass self next deed }
    {
        Act {
            next,
            deed,
            cell: self.cell,
        }
    }

    // The act that leaves the cell as it is and in which nothing happens besides.
    pub fn go_on(self, next: Activity) -> Act
        ensures { result ≡ pass self next Deed.Nothing }
    {
        self.pass(next, Deed::Nothing)
    }
}

// A command is under way.
#[tactic(auto, unfolding(crate::specs::Limits::busy_in))]
pub fn busy(activity: Activity) -> bool
    ensures { result ≡ busy_in activity }
{
    !matches!(activity, Activity::Idle)
}

#[tactic(auto, unfolding(crate::specs::Limits::scan_within))]
fn scan_within(scan: Scan) -> bool
    ensures { result ≡ scan_within scan }
{
    match scan {
        Scan::Gap(run) => run <= SYNCS,
        Scan::Field(part) => part.passed <= LAST_ID_CELL,
    }
}

// No count is above the largest that its activity holds.
#[tactic(auto, unfolding(crate::specs::Limits::counts_within))]
pub fn within(activity: Activity) -> bool
    ensures { result ≡ counts_within activity }
{
    match activity {
        // Not one arm with Stop: that costs four instructions of a byte delivered.
        Activity::Seek(left) => left <= SETTLING_MFM,
        Activity::Stop(left) => left <= SETTLING_MFM,
        Activity::Settle(left) => left <= SETTLING_MFM,
        Activity::Search(pulses, scan) => (pulses <= MOST_PULSES) & scan_within(scan),
        Activity::Window(left, passed, run) => (left <= MOST_READ)
            & (passed <= LAST_OF_WINDOW)
            & (run <= SYNCS),
        Activity::Data(left, _, _) => left <= MOST_READ,
        Activity::Hunt(pulses, run) => (pulses <= MOST_PULSES) & (run <= SYNCS),
        Activity::Address(passed, _, _) => passed <= LAST_ID_CELL,
        Activity::Preamble(left, passed) => (left <= MOST_WRITTEN) & (passed <= LAST_PREAMBLE),
        Activity::Put(left, _) => left <= MOST_WRITTEN,
        _ => true,
    }
}
