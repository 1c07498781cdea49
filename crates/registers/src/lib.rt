// The chip's parts: registers, wires, flags, head, ring and lines, and what looking at them, reading and loading do.
#![tactic(auto)]

pub mod bus;
pub mod rings;
pub mod status_byte;

// The lent row's length and the head's position on it.
#[derive(Clone, Copy)]
pub struct Ring {
    pub length: u16,
    pub position: u16,
}

// The track, sector and data registers.
#[derive(Clone, Copy)]
pub struct Regs {
    pub tr: u8,
    pub sr: u8,
    pub dr: u8,
}

#[derive(Clone, Copy)]
pub struct Wires {
    pub drq: bool,
    pub intrq: bool,
}

// What the status byte keeps: its type, and the bits that no line and no wire gives.
#[derive(Clone, Copy)]
pub struct Flags {
    pub type1: bool,
    pub protected: bool,
    pub deleted: bool,
    pub missing: bool,
    pub crc: bool,
    pub lost: bool,
}

impl Flags {
    // Type I, with nothing on.
    pub const CLEAR: Flags = Flags {
        type1: true,
        protected: false,
        deleted: false,
        missing: false,
        crc: false,
        lost: false,
    };
}

// Loaded, and the direction of the last step.
#[derive(Clone, Copy)]
pub struct Head {
    pub loaded: bool,
    pub inward: bool,
}

// What the last byte time saw.
#[derive(Clone, Copy)]
pub struct Past {
    pub ready: bool,
    pub index: bool,
}

// The conditions of a Force Interrupt: Ready coming on, Ready going off, index pulses.
#[derive(Clone, Copy)]
pub struct Conditions {
    pub on: bool,
    pub off: bool,
    pub index: bool,
}

// The drive lines, which come with every call.
#[derive(Clone, Copy)]
pub struct Lines {
    pub ready: bool,
    pub protect: bool,
    pub track0: bool,
    pub hlt: bool,
}

// The status byte; its bits bear the data sheet's names.
#[derive(Clone, Copy)]
pub struct Status {
    pub byte: u8,
}

// A step pulse that a byte time reports: the wire's own three states, by which the calls' answers and the theorems name it, and no
// direction that may be missing.
#[derive(Clone, Copy, Debug, PartialEq, Eq)]
pub enum Pulse {
    Off,
    In,
    Out,
}
