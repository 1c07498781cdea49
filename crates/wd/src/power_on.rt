// Power-on, and the machines that no call refuses (`Refusal::Machine`).
ghost use Rattle.std.specs.Prelude.{◌≡◌};
ghost use Rattle.wd.specs.Machines.{valid_of, fresh_machine, power_on};

use crate::{Called, Machine};
use activity::Activity;
use command::{Chip, Command, Order};
use refusals::Refusal;
use registers::{Flags, Head, Past, Regs, Ring, Wires, rings};

// The ring that a refused power-on gives.
const SHORTEST: u16 = scan::SHORTEST_ROW as u16;

impl Machine {
    #[tactic(auto, unfolding(crate::specs::Machines::fresh_machine))]
    fn fresh(length: u16, mfm: bool, chip: Chip) -> Machine
        ensures { result ≡ fresh_machine length mfm chip }
    {
        Machine {
            ring: Ring {
                length,
                position: 0,
            },
            chip,
            mfm,
            sso: false,
            regs: Regs {
                tr: 0,
                sr: 1,
                dr: 0,
            },
            wires: Wires {
                drq: false,
                intrq: false,
            },
            flags: Flags::CLEAR,
            head: Head {
                loaded: false,
                inward: false,
            },
            past: Past {
                ready: false,
                index: false,
            },
            order: Order {
                command: Command::ForceInterrupt,
                byte: 0,
                inward: false,
                side: None,
                ibm: true,
            },
            activity: Activity::Idle,
        }
    }

    // The machine at power-on, for a row of so many cells, a density and a chip.
    #[tactic(auto, unfolding(crate::specs::Machines::power_on))]
    pub fn power_on(length: u16, mfm: bool, chip: Chip) -> Called
        ensures { result ≡ power_on length mfm chip }
    {
        if scan::length_within(length as usize) {
            Called::done(Machine::fresh(length, mfm, chip))
        } else {
            Called::refused(Refusal::Length, Machine::fresh(SHORTEST, false, chip))
        }
    }

    // A machine that `Refusal::Machine` lets through.
    #[tactic(auto, unfolding(crate::specs::Machines::valid_of))]
    pub(crate) fn valid(self) -> bool
        ensures { result ≡ valid_of self }
    {
        rings::ring_within(self.ring) & activity::within(self.activity)
    }
}
