// A byte transferred in a run's first byte time, and the machine after it.
ghost use Rattle.std.specs.Prelude.{◌≡◌};
ghost use Rattle.wd.specs.Transfers.{transfer_now, after_transfer};

use crate::Machine;
use activity::Activity;
use registers::{Flags, Lines, Past, Regs, Wires, rings};
use transfer::Transfer;

impl Machine {
    // The byte transferred, where the cell is not refused and no condition of a Force Interrupt is asked. A command that
    // transfers bytes has dropped all conditions; a machine that no calls lead to may have one, and the loop handles it.
    #[tactic(auto, unfolding(crate::specs::Transfers::transfer_now))]
    pub(crate) fn transferred(self, lines: Lines, cell: u16) -> Option<Transfer>
        ensures { result ≡ transfer_now self lines cell }
    {
        if 511 < cell {
            return None;
        }
        let conditions = self.conditions();
        if conditions.on | conditions.off | conditions.index {
            return None;
        }
        transfer::transferred(self.sees(lines, cell), self.activity)
    }

    // The machine after the byte time in which it was transferred.
    #[tactic(auto, unfolding(crate::specs::Transfers::after_transfer))]
    pub(crate) fn after_transfer(self, ready: bool, dr: u8, next: Activity) -> Machine
        ensures { result ≡ after_transfer self ready dr next }
    {
        Machine {
            ring: rings::next(self.ring),
            regs: Regs { dr, ..self.regs },
            wires: Wires {
                drq: true,
                ..self.wires
            },
            flags: Flags {
                lost: self.flags.lost | self.wires.drq,
                ..self.flags
            },
            past: Past {
                ready,
                index: self.ring.position == 0,
            },
            activity: next,
            ..self
        }
    }
}
