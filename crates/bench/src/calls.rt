// The controller and its drive lines, and the lines of a script that work them, each one call of the library.
ghost use Rattle.std.specs.Prelude.{◌≡◌};
ghost use Rattle.bench.specs.Numbers.{drive_lines, chip_of, pulse_byte};

use crate::answers::{Answer, State};
use command::Chip;
use registers::{Lines, Pulse};
use scan::SHORTEST_ROW;
use script::Call;
use wd::Machine;

// A controller, and the drive lines that it is under.
#[derive(Clone, Copy)]
pub struct Controller {
    machine: Machine,
    lines: Lines,
}

// Drive lines by the bits of a number: Ready, protect, track 0, HLT. (No From, here and below: neither type is this crate's.)
fn lines_of(bits: u8) -> Lines
    ensures { result ≡ drive_lines bits }
{
    Lines {
        ready: bits % 2 == 1,
        protect: bits / 2 % 2 == 1,
        track0: bits / 4 % 2 == 1,
        hlt: bits / 8 % 2 == 1,
    }
}

// The chip that a line names.
fn chip_of(wd1797: bool) -> Chip
    ensures { result ≡ chip_of wd1797 }
{
    if wd1797 { Chip::Wd1797 } else { Chip::Wd1793 }
}

// 00 for no step pulse, 01 for one in, 02 for one out.
fn pulse_byte(pulse: Pulse) -> u8
    ensures { result ≡ pulse_byte pulse }
{
    match pulse {
        Pulse::Off => 0,
        Pulse::In => 1,
        Pulse::Out => 2,
    }
}

impl Controller {
    // Before the first power-on: the FM machine of the shortest row, a WD1793; and all drive lines off.
    pub fn start() -> Controller {
        Controller {
            machine: Machine::power_on(SHORTEST_ROW as u16, false, Chip::Wd1793).machine,
            lines: lines_of(0),
        }
    }

    // Line P.
    pub fn power_on(&mut self, mfm: bool, length: u16, wd1797: bool) -> Answer {
        let started = Machine::power_on(length, mfm, chip_of(wd1797));
        self.machine = started.machine;
        Answer::Done(started.outcome)
    }

    // Line N.
    pub fn set_lines(&mut self, bits: u8) {
        self.lines = lines_of(bits);
    }

    // Line W.
    fn load(&mut self, register: u8, byte: u8) -> Answer {
        let loaded = self.machine.load_register(self.lines, register, byte);
        self.machine = loaded.machine;
        Answer::Done(loaded.outcome)
    }

    // Line R.
    fn read(&mut self, register: u8) -> Answer {
        let read = self.machine.read_register(self.lines, register);
        self.machine = read.machine;
        Answer::Byte(read.outcome, read.byte)
    }

    // Line B.
    fn byte_time(&mut self, row: &mut [u16]) -> Answer {
        let passed = self.machine.byte_time(self.lines, row);
        self.machine = passed.machine;
        Answer::Byte(passed.outcome, pulse_byte(passed.pulse))
    }

    // Line G.
    fn run(&mut self, limit: u16, row: &mut [u16]) -> Answer {
        let ran = self.machine.run(self.lines, limit, row);
        self.machine = ran.machine;
        Answer::Run(ran.outcome, ran.tally)
    }

    // What is asked of the controller that is there, over a row.
    pub fn carry_out(&mut self, call: Call, row: &mut [u16]) -> Answer {
        match call {
            Call::Load { register, byte } => self.load(register, byte),
            Call::Read { register } => self.read(register),
            Call::ByteTime => self.byte_time(row),
            Call::Run { limit } => self.run(limit, row),
            Call::SetPosition { position } => {
                self.machine.ring.position = position;
                Answer::Nothing
            }
            Call::SetLength { length } => {
                self.machine.ring.length = length;
                Answer::Nothing
            }
        }
    }

    // The state that a line prints.
    pub fn state(&self) -> State {
        State::of(self.machine, self.lines)
    }
}
