// The controller: registers, wires, flags, head, ring and activity of a WD1793 or WD1797, and the calls that a host makes of it.
#![tactic(auto)]

mod answers;
mod loads;
mod power_on;
mod reads;
mod rows;
mod run;
mod stretched;
mod transfers;
mod turns;

use activity::Activity;
use command::{Chip, Order};
use refusals::Outcome;
use registers::{Flags, Head, Past, Pulse, Regs, Ring, Wires};

// The chip, the ring's length and the density are those of power-on. SSO is the side output, which a WD1793 leaves off.
#[derive(Clone, Copy)]
pub struct Machine {
    pub chip: Chip,
    pub sso: bool,
    pub ring: Ring,
    pub mfm: bool,
    pub regs: Regs,
    pub wires: Wires,
    pub flags: Flags,
    pub head: Head,
    pub past: Past,
    pub activity: Activity,
    pub order: Order,
}

// The answers: done or why the call was refused, and the machine after the call. Power-on and a load answer no more than that;
// the others give one thing more, each by a name of its own, which one generic answer would not have. It stands beside the
// outcome, not in it, since a refused call gives it too: document 01's "as given, byte 0", in the contract of
// `wd:read_register`.
#[derive(Clone, Copy)]
pub struct Called {
    pub outcome: Outcome,
    pub machine: Machine,
}

#[derive(Clone, Copy)]
pub struct Read {
    pub outcome: Outcome,
    pub byte: u8,
    pub machine: Machine,
}

#[derive(Clone, Copy)]
pub struct Passed {
    pub outcome: Outcome,
    pub pulse: Pulse,
    pub machine: Machine,
}

// Byte times that passed, and step pulses in and out.
#[derive(Clone, Copy)]
pub struct Tally {
    pub passed: u16,
    pub inward: u16,
    pub outward: u16,
}

#[derive(Clone, Copy)]
pub struct Ran {
    pub outcome: Outcome,
    pub tally: Tally,
    pub machine: Machine,
}

// What a byte time makes of the machine and the cell, before it is handed back.
#[derive(Clone, Copy)]
pub struct Turn {
    pub machine: Machine,
    pub cell: u16,
    pub pulse: Pulse,
}
