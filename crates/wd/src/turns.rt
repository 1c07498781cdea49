// What a byte time makes of the machine and of the cell that passes.
ghost use Rattle.std.specs.Prelude.{◌≡◌};
ghost use Rattle.wd.specs.Turns.{conditions_of, parts_of, act_applied, sees_of, cell_turn};

use crate::{Machine, Turn};
use activity::{Act, Seen};
use effects::Parts;
use registers::{Conditions, Lines, Past, Pulse, Wires, rings};

impl Machine {
    // The conditions that the last command asks for: a later one has dropped those of a Force Interrupt.
    pub(crate) fn conditions(self) -> Conditions
        ensures { result ≡ conditions_of self }
    {
        accepting::conditions_for(self.order.byte, command::class_of(self.order.command))
    }

    // What a deed can change, with no pulse reported yet.
    fn parts(self) -> Parts
        ensures { result ≡ parts_of self }
    {
        Parts {
            regs: self.regs,
            drq: self.wires.drq,
            flags: self.flags,
            head: self.head,
            pulse: Pulse::Off,
        }
    }

    // The machine after an act, the cell as it is left, and the step pulse.
    #[tactic(auto, unfolding(crate::specs::Turns::act_applied))]
    fn applied(self, act: Act, ready: bool, index: bool) -> Turn
        ensures { result ≡ act_applied self act ready index }
    {
        let ended = activity::busy(self.activity) & !activity::busy(act.next);
        let met = rings::condition_met(self.conditions(), self.past.ready, ready, index);
        let after = self.parts().after(act.deed);
        Turn {
            machine: Machine {
                ring: rings::next(self.ring),
                regs: after.regs,
                wires: Wires {
                    drq: after.drq,
                    intrq: self.wires.intrq | met | ended,
                },
                flags: after.flags,
                head: after.head,
                past: Past { ready, index },
                activity: act.next,
                ..self
            },
            cell: act.cell,
            pulse: after.pulse,
        }
    }

    // What it sees of a byte time.
    pub(crate) fn sees(self, lines: Lines, cell: u16) -> Seen
        ensures { result ≡ sees_of self lines cell }
    {
        rings::look(self.mfm, self.ring, self.regs, self.wires.drq, lines, cell)
    }

    #[tactic(auto, unfolding(crate::specs::Turns::cell_turn))]
    pub(crate) fn turn(self, lines: Lines, cell: u16) -> Turn
        ensures { result ≡ cell_turn self lines cell }
    {
        let seen = self.sees(lines, cell);
        self.applied(
            act::turn(self.order, seen, self.activity),
            lines.ready,
            seen.index,
        )
    }
}
