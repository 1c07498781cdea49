// Loading a register, and what an accepted command does at once. Of all calls the load alone asks the chip.
ghost use Rattle.std.specs.Prelude.{◌≡◌};
ghost use Rattle.wd.specs.Loads.{command_begun, command_answer, load_register};

use crate::{Called, Machine};
use accepting::Acceptance;
use command::Command;
use refusals::Refusal;
use registers::{Lines, bus};

impl Machine {
    // An accepted command. Types II and III look: not ready ends it at once, and next a write under protection.
    #[tactic(auto, unfolding(crate::specs::Loads::command_begun))]
    fn begin(self, lines: Lines, byte: u8, command: Command) -> Machine
        ensures { result ≡ command_begun self lines byte command }
    {
        let accepted = Acceptance::new(command, byte, lines);
        Machine {
            sso: accepted.side(self.sso, self.chip),
            regs: accepted.regs(self.regs),
            wires: accepted.wires(self.wires),
            flags: accepted.flags(self.flags, activity::busy(self.activity)),
            head: accepted.head(self.head),
            order: command::order_of(self.chip, command, byte, self.head.inward),
            activity: accepted.activity(self.mfm),
            ..self
        }
    }

    #[tactic(auto, unfolding(crate::specs::Loads::command_answer))]
    fn command(self, lines: Lines, byte: u8, decoded: Option<Command>) -> Called
        ensures { result ≡ command_answer self lines byte decoded }
    {
        match decoded {
            Some(command) => Called::done(self.begin(lines, byte, command)),
            None => Called::refused(Refusal::Command, self),
        }
    }

    // Loads a register.
    #[tactic(auto, unfolding(crate::specs::Loads::load_register))]
    pub fn load_register(self, lines: Lines, number: u8, byte: u8) -> Called
        ensures { result ≡ load_register self lines number byte }
    {
        let busy = activity::busy(self.activity);
        if let Err(refusal) = bus::load_refusal(self.valid(), busy, number, byte) {
            return Called::refused(refusal, self);
        }
        if number == 0 {
            return self.command(lines, byte, command::decode(self.chip, byte));
        }
        let regs = bus::load_regs(self.regs, number, byte);
        Called::done(self.with_bus(regs, bus::load_wires(self.wires, number)))
    }
}
