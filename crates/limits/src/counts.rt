// The counts that a machine is refused for (`Refusal::Machine`), each with an activity that holds it.
ghost use Rattle.std.specs.Prelude.{◌≡◌};
ghost use Rattle.limits.specs.Counts.{part_holding, activity_holding};

use activity::Activity;
use scan::{Part, Scan};

// A count of an activity, by the names of both.
#[derive(Clone, Copy)]
pub enum Count {
    SeekLeft,
    StopLeft,
    SettleLeft,
    SearchPulses,
    SearchRun,
    SearchPassed,
    WindowLeft,
    WindowPassed,
    WindowRun,
    DataLeft,
    HuntPulses,
    HuntRun,
    AddressPassed,
    PreambleLeft,
    PreamblePassed,
    PutLeft,
}

// An ID of which so many cells have passed after its mark.
fn part(passed: u8) -> Part
    ensures { result ≡ part_holding passed }
{
    Part {
        passed,
        crc: 0,
        track: 0,
        side: 0,
        sector: 0,
        length: 0,
    }
}

// The activity that holds n as this count, and 0 as its others. Of a count that is a byte n is the low byte.
pub fn holding(count: Count, n: u16) -> Activity
    ensures { result ≡ activity_holding count n }
{
    let low = (n % 256) as u8;
    match count {
        Count::SeekLeft => Activity::Seek(n),
        Count::StopLeft => Activity::Stop(n),
        Count::SettleLeft => Activity::Settle(n),
        Count::SearchPulses => Activity::Search(low, Scan::Gap(0)),
        Count::SearchRun => Activity::Search(0, Scan::Gap(low)),
        Count::SearchPassed => Activity::Search(0, Scan::Field(part(low))),
        Count::WindowLeft => Activity::Window(n, 0, 0),
        Count::WindowPassed => Activity::Window(0, low, 0),
        Count::WindowRun => Activity::Window(0, 0, low),
        Count::DataLeft => Activity::Data(n, 0, false),
        Count::HuntPulses => Activity::Hunt(low, 0),
        Count::HuntRun => Activity::Hunt(0, low),
        Count::AddressPassed => Activity::Address(low, 0, 0),
        Count::PreambleLeft => Activity::Preamble(n, 0),
        Count::PreamblePassed => Activity::Preamble(0, low),
        Count::PutLeft => Activity::Put(n, 0),
    }
}
