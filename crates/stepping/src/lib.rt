// Type I: stepping and its end.
#![tactic(auto)]

ghost use Rattle.std.specs.Prelude.{◌≡◌};
ghost use Rattle.stepping.specs.Stepping.{stop_act, track_after, step_act, seek_decision, seek_turn, pulse_turn, stop_turn};

use activity::{Act, Activity, Deed, Seen};
use command::Order;
use command::bits::{Flag, is_on};

// Stepping is over, by the track 0 rule or because the track is reached. With V a Restore that
// has not found track 0 is a Seek Error.
#[tactic(auto, unfolding(crate::specs::Stepping::stop_act))]
fn stop(o: Order, s: Seen, rule: bool) -> Act
    ensures { result ≡ stop_act o s rule }
{
    if is_on(o.byte, Flag::Verify) {
        if command::is_restore(o.command) & !s.track0 {
            return s.pass(Activity::Idle, Deed::NotFound);
        }
        let settling = Activity::Settle(command::times::settle_time(s.mfm));
        return s.pass(settling, Deed::Halt(rule, true));
    }
    s.pass(Activity::Idle, Deed::Halt(rule, false))
}

// TR after a step; it wraps.
#[tactic(auto, unfolding(crate::specs::Stepping::track_after))]
fn moved(moves: bool, inward: bool, track: u8) -> u8
    ensures { result ≡ track_after moves inward track }
{
    if moves {
        if inward {
            track.wrapping_add(1)
        } else {
            track.wrapping_sub(1)
        }
    } else {
        track
    }
}

#[tactic(auto, unfolding(crate::specs::Stepping::step_act))]
fn step(o: Order, s: Seen, inward: bool, moves: bool, next: Activity) -> Act
    ensures { result ≡ step_act o s inward moves next }
{
    if !inward & s.track0 {
        return stop(o, s, true);
    }
    s.pass(next, Deed::Step(inward, moved(moves, inward, s.tr)))
}

#[tactic(auto, unfolding(crate::specs::Stepping::seek_decision))]
fn decide(o: Order, s: Seen) -> Act
    ensures { result ≡ seek_decision o s }
{
    if s.tr == s.dr {
        return stop(o, s, false);
    }
    step(
        o,
        s,
        s.tr < s.dr,
        true,
        Activity::Seek(command::times::step_time(s.mfm, o.byte)),
    )
}

// Restore and Seek.
#[tactic(auto, unfolding(crate::specs::Stepping::seek_turn))]
pub fn seek(o: Order, s: Seen, left: u16) -> Act
    ensures { result ≡ seek_turn o s left }
{
    if left <= 1 {
        return decide(o, s);
    }
    s.go_on(Activity::Seek(left - 1))
}

// Step, Step-in and Step-out.
#[tactic(auto, unfolding(crate::specs::Stepping::pulse_turn))]
pub fn pulse(o: Order, s: Seen) -> Act
    ensures { result ≡ pulse_turn o s }
{
    let next = Activity::Stop(command::times::step_time(s.mfm, o.byte));
    step(o, s, o.inward, is_on(o.byte, Flag::Update), next)
}

// After the one pulse.
#[tactic(auto, unfolding(crate::specs::Stepping::stop_turn))]
pub fn stop_in(o: Order, s: Seen, left: u16) -> Act
    ensures { result ≡ stop_turn o s left }
{
    if left <= 1 {
        return stop(o, s, false);
    }
    s.go_on(Activity::Stop(left - 1))
}
