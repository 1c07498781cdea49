// The ring: its length, the head's position, and what a byte time sees there.
ghost use Rattle.std.specs.Prelude.{◌≡◌};
ghost use Rattle.registers.specs.Rings.{ring_within, ring_next, seen_of, condition_met};

use crate::{Conditions, Lines, Regs, Ring};
use activity::Seen;

#[tactic(auto, unfolding(crate::specs::Rings::ring_within))]
pub fn ring_within(ring: Ring) -> bool
    ensures { result ≡ ring_within ring }
{
    scan::length_within(ring.length as usize) & (ring.position < ring.length)
}

// The position goes up by one, and from the last cell to 0. One that is out of range stays where it is.
#[tactic(auto, unfolding(crate::specs::Rings::ring_next))]
pub fn next(ring: Ring) -> Ring
    ensures { result ≡ ring_next ring }
{
    if ring.length <= ring.position {
        return ring;
    }
    let after = ring.position + 1;
    Ring {
        position: if after == ring.length { 0 } else { after },
        ..ring
    }
}

// What a byte time sees.
#[tactic(auto, unfolding(crate::specs::Rings::seen_of))]
pub fn look(mfm: bool, ring: Ring, regs: Regs, drq: bool, lines: Lines, cell: u16) -> Seen
    ensures { result ≡ seen_of mfm ring regs drq lines cell }
{
    Seen {
        mfm,
        index: ring.position == 0,
        last: u32::from(ring.position) + 1 == u32::from(ring.length),
        hlt: lines.hlt,
        track0: lines.track0,
        drq,
        tr: regs.tr,
        sr: regs.sr,
        dr: regs.dr,
        cell,
    }
}

// A condition of a Force Interrupt is met.
#[tactic(auto, unfolding(crate::specs::Rings::condition_met))]
pub fn condition_met(conditions: Conditions, was: bool, ready: bool, index: bool) -> bool
    ensures { result ≡ condition_met conditions was ready index }
{
    if ready {
        (conditions.on & !was) | (conditions.index & index)
    } else {
        (conditions.off & was) | (conditions.index & index)
    }
}
