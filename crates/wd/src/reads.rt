// Reading a register.
ghost use Rattle.std.specs.Prelude.{◌≡◌};
ghost use Rattle.wd.specs.Reads.{status_of, with_bus, read_register};

use crate::{Machine, Read};
use registers::{Lines, Regs, Status, Wires, bus, status_byte};

impl Machine {
    // The status byte under these lines; looking at it changes nothing.
    #[tactic(auto, unfolding(crate::specs::Reads::status_of))]
    fn status(self, lines: Lines) -> Status
        ensures { result ≡ status_of self lines }
    {
        let busy = activity::busy(self.activity);
        if self.flags.type1 {
            let engaged = self.head.loaded & lines.hlt;
            return status_byte::of_type1(engaged, self.past.index, self.flags, busy, lines);
        }
        status_byte::of_type2(self.wires.drq, self.flags, busy, lines)
    }

    pub(crate) fn with_bus(self, regs: Regs, wires: Wires) -> Machine
        ensures { result ≡ with_bus self regs wires }
    {
        Machine {
            regs,
            wires,
            ..self
        }
    }

    // Reads a register.
    #[tactic(auto, unfolding(crate::specs::Reads::read_register))]
    pub fn read_register(self, lines: Lines, number: u8) -> Read
        ensures { result ≡ read_register self lines number }
    {
        if let Err(refusal) = bus::read_refusal(self.valid(), number) {
            return Read {
                outcome: Err(refusal),
                byte: 0,
                machine: self,
            };
        }
        Read {
            outcome: Ok(()),
            byte: bus::read_byte(self.regs, self.status(lines), number),
            machine: self.with_bus(self.regs, bus::read_wires(self.wires, number)),
        }
    }
}
