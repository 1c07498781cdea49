// What a line that worked the controller prints: what the call gave, and the state.
ghost use Rattle.std.specs.Prelude.{◌≡◌};
ghost use Rattle.bench.specs.States.{state_of};

use crate::digits::{bit, byte, put};
use command::Chip;
use refusals::Outcome;
use registers::{Lines, Regs, Wires};
use std::fmt;
use std::fmt::{Display, Formatter};
use wd::{Machine, Tally};

// What a call gave.
#[derive(Clone, Copy)]
pub enum Answer {
    Nothing,
    Done(Outcome),
    // An outcome and a byte.
    Byte(Outcome, u8),
    // An outcome and what passed.
    Run(Outcome, Tally),
}

// The status byte that a read would give, TR, SR and DR, DRQ and INTRQ, the head's position, and the chip with its side output.
#[derive(Clone, Copy)]
pub struct State {
    pub status: u8,
    pub regs: Regs,
    pub wires: Wires,
    pub position: u16,
    pub chip: Chip,
    pub sso: bool,
}

impl State {
    // The state of a machine under its drive lines. What the read of the status would change is dropped.
    #[tactic(auto, unfolding(crate::specs::States::state_of))]
    pub fn of(machine: Machine, lines: Lines) -> State
        ensures { result ≡ state_of machine lines }
    {
        State {
            status: machine.read_register(lines, 0).byte,
            regs: machine.regs,
            wires: machine.wires,
            position: machine.ring.position,
            chip: machine.chip,
            sso: machine.sso,
        }
    }
}

// Document 01's number of an outcome.
fn number(outcome: Outcome) -> [u8; 2] {
    byte(refusals::number(outcome))
}

impl Display for Answer {
    fn fmt<W: fmt::Write>(&self, f: &mut Formatter<W>) -> fmt::Result {
        match *self {
            Answer::Nothing => Ok(()),
            Answer::Done(outcome) => {
                let [n, m] = number(outcome);
                put(f, &[b' ', n, m])
            }
            Answer::Byte(outcome, value) => {
                let ([n, m], [a, b]) = (number(outcome), byte(value));
                put(f, &[b' ', n, m, b' ', a, b])
            }
            Answer::Run(outcome, tally) => {
                let [n, m] = number(outcome);
                let [a, b, c, d] = text::hex(tally.passed);
                put(f, &[b' ', n, m, b' ', a, b, c, d])?;
                let [a, b, c, d] = text::hex(tally.inward);
                let [p, q, r, s] = text::hex(tally.outward);
                put(f, &[b' ', a, b, c, d, b' ', p, q, r, s])
            }
        }
    }
}

impl Display for State {
    fn fmt<W: fmt::Write>(&self, f: &mut Formatter<W>) -> fmt::Result {
        let [s, t] = byte(self.status);
        let Regs { tr, sr, dr, .. } = self.regs;
        let ([a, b], [c, d], [g, h]) = (byte(tr), byte(sr), byte(dr));
        put(
            f,
            &[b' ', b'|', b' ', s, t, b' ', a, b, b' ', c, d, b' ', g, h],
        )?;
        let Wires { drq, intrq } = self.wires;
        let [w, x, y, z] = text::hex(self.position);
        put(f, &[b' ', bit(drq), b' ', bit(intrq), b' ', w, x, y, z])?;
        match self.chip {
            Chip::Wd1793 => Ok(()),
            // It has a side output.
            Chip::Wd1797 => put(f, &[b' ', bit(self.sso)]),
        }
    }
}
