// What the controller does in a byte time, over one cell: its order, its activity and what it sees give an act.
#![tactic(auto)]

ghost use Rattle.std.specs.Prelude.{◌≡◌};
ghost use Rattle.act.specs.Turns.{format_begun, job_begun, begun_activity, settle_turn, await_turn, activity_act, act_of};

use activity::{Act, Activity, Deed, Seen};
use command::bits::{Flag, is_on, mark_written};
use command::{Job, Order};
use scan::Scan;

// A Write Track begins at the first index pulse, where its first byte was served.
#[tactic(auto, unfolding(crate::specs::Turns::format_begun))]
fn begin_format(s: Seen) -> Activity
    ensures { result ≡ format_begun s }
{
    if s.index & !s.drq {
        Activity::Format(0xFFFF)
    } else {
        Activity::Await
    }
}

// What a command begins with the first byte time that has HLT on.
#[tactic(auto, unfolding(crate::specs::Turns::job_begun))]
fn begin(s: Seen, job: Job) -> Activity
    ensures { result ≡ job_begun s job }
{
    match job {
        Job::Nothing => Activity::Idle,
        Job::Verify | Job::ReadSector | Job::WriteSector => Activity::Search(0, Scan::Gap(0)),
        Job::ReadAddress => Activity::Hunt(0, 0),
        Job::WriteTrack => begin_format(s),
    }
}

// What goes on in this byte time: what begins in it has begun before the cell is looked at.
#[tactic(auto, unfolding(crate::specs::Turns::begun_activity))]
fn entered(o: Order, s: Seen, activity: Activity) -> Activity
    ensures { result ≡ begun_activity o s activity }
{
    match activity {
        Activity::Settle(left) if (left == 0) & s.hlt => begin(s, command::job_of(o.command)),
        Activity::Await => begin_format(s),
        _ => activity,
    }
}

#[tactic(auto, unfolding(crate::specs::Turns::settle_turn))]
fn settling(s: Seen, left: u16) -> Act
    ensures { result ≡ settle_turn s left }
{
    s.go_on(Activity::Settle(left.saturating_sub(1)))
}

// A pulse that has begun nothing finds a Write Track that nobody has served.
#[tactic(auto, unfolding(crate::specs::Turns::await_turn))]
fn awaiting(s: Seen) -> Act
    ensures { result ≡ await_turn s }
{
    if s.index {
        s.pass(Activity::Idle, Deed::Late)
    } else {
        s.go_on(Activity::Await)
    }
}

#[tactic(auto, unfolding(crate::specs::Turns::activity_act))]
fn react(o: Order, s: Seen, activity: Activity) -> Act
    ensures { result ≡ activity_act o s activity }
{
    match activity {
        Activity::Idle => s.go_on(Activity::Idle),
        Activity::Seek(left) => stepping::seek(o, s, left),
        Activity::Pulse => stepping::pulse(o, s),
        Activity::Stop(left) => stepping::stop_in(o, s, left),
        Activity::Settle(left) => settling(s, left),
        Activity::Search(pulses, scan) => search::search(o, s, pulses, scan),
        Activity::Window(left, passed, run) => reading::window(s, left, passed, run),
        Activity::Data(left, crc, deleted) => reading::read(
            s,
            is_on(o.byte, Flag::Multiple),
            left,
            crc,
            deleted,
        ),
        Activity::Hunt(pulses, run) => reading::hunt(s, pulses, run),
        Activity::Address(passed, crc, track) => reading::address(s, passed, crc, track),
        Activity::Await => awaiting(s),
        Activity::Preamble(left, passed) => {
            writing::preamble(s, mark_written(o.byte).byte(), left, passed)
        }
        Activity::Put(left, crc) => writing::put(s, is_on(o.byte, Flag::Multiple), left, crc),
        Activity::Format(crc) => formatting::format(s, crc),
        Activity::FormatCrc(crc) => formatting::format_crc(s, crc),
    }
}

// One byte time. Each part has one place where it is called.
#[tactic(auto, unfolding(crate::specs::Turns::act_of))]
pub fn turn(o: Order, s: Seen, activity: Activity) -> Act
    ensures { result ≡ act_of o s activity }
{
    react(o, s, entered(o, s, activity))
}
