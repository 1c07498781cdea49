// Stretches: byte times of a run in which nothing happens but that the ring turns.
ghost use Rattle.std.specs.Prelude.{◌≡◌, ◌+◌, ◌≤◌, ◌<◌};
ghost use Rattle.stretch.specs.Stretches.{stretch_ahead};
ghost use Rattle.wd.specs.Stretches.{after_stretch, first_stretch};

use crate::Machine;
use registers::{Past, Ring};

impl Machine {
    // The byte times of a stretch that come next.
    pub(crate) fn ahead(self, limit: u16, row: &[u16]) -> u16
        ensures value { result ≡ stretch_ahead self.ring self.activity limit row.now }
        ensures upper_bound { result ≤ limit }
    {
        stretch::ahead(self.ring, self.activity, limit, row)
    }

    // The machine after so many of them.
    #[tactic(auto, unfolding(crate::specs::Stretches::after_stretch))]
    pub(crate) fn stretched(self, passed: u16, ready: bool) -> Machine
        requires { self.ring.position + passed < 65536 }
        ensures { result ≡ after_stretch self passed ready }
    {
        Machine {
            ring: Ring {
                position: self.ring.position + passed,
                ..self.ring
            },
            past: Past {
                ready,
                index: false,
            },
            activity: stretch::later(passed, self.activity),
            ..self
        }
    }

    // The byte times of a stretch that a run begins with. None where a wire is on, since the run stops there; nor where Ready
    // has changed, since a condition may be met.
    #[tactic(auto, unfolding(crate::specs::Stretches::first_stretch))]
    pub(crate) fn first(self, ready: bool, limit: u16, row: &[u16]) -> u16
        ensures value { result ≡ first_stretch self ready limit row.now }
        ensures upper_bound { result ≤ limit }
    {
        let changed = self.past.ready != ready;
        if self.wires.drq | self.wires.intrq | changed {
            return 0;
        }
        self.ahead(limit, row)
    }
}
