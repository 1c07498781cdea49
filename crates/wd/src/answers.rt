// What byte times and runs answer, and what a run counts.
ghost use Rattle.std.specs.Prelude.{◌≡◌, ℕ, ◌+◌, ◌<◌};
ghost use Rattle.refusals.specs.Numbers.{done, refused};
ghost use Rattle.wd.specs.Counts.{HasRoom};
ghost use Rattle.wd.specs.Machines.{called};
ghost use Rattle.wd.specs.Rows.{refused_at, done_by, stops_at, counted_of, ran_to, empty_run};
ghost use Rattle.wd.specs.Stretches.{ran_on};
ghost use Rattle.wd.specs.Transfers.{one_byte_time};

use crate::{Called, Machine, Passed, Ran, Tally, Turn};
use refusals::{Outcome, Refusal};
use registers::Pulse;

impl Called {
    pub(crate) fn refused(refusal: Refusal, machine: Machine) -> Called
        ensures { result ≡ called (refused refusal) machine }
    {
        Called {
            outcome: Err(refusal),
            machine,
        }
    }

    pub(crate) fn done(machine: Machine) -> Called
        ensures { result ≡ called done machine }
    {
        Called {
            outcome: Ok(()),
            machine,
        }
    }
}

impl Passed {
    #[tactic(auto, unfolding(crate::specs::Rows::refused_at))]
    pub(crate) fn refused(refusal: Refusal, machine: Machine) -> Passed
        ensures { result ≡ refused_at (refused refusal) machine }
    {
        Passed {
            outcome: Err(refusal),
            pulse: Pulse::Off,
            machine,
        }
    }

    #[tactic(auto, unfolding(crate::specs::Rows::done_by))]
    pub(crate) fn done(turn: Turn) -> Passed
        ensures { result ≡ done_by turn }
    {
        Passed {
            outcome: Ok(()),
            pulse: turn.pulse,
            machine: turn.machine,
        }
    }

    // A run goes no further after this byte time.
    #[tactic(auto, unfolding(crate::specs::Rows::stops_at))]
    pub(crate) fn stops(self) -> bool
        ensures { result ≡ stops_at self }
    {
        self.outcome.is_err() | self.machine.wires.drq | self.machine.wires.intrq
    }
}

impl Tally {
    const NONE: Tally = Tally {
        passed: 0,
        inward: 0,
        outward: 0,
    };

    // One byte time more; a refused one counts nothing.
    #[tactic(auto, unfolding(crate::specs::Rows::counted_of, crate::specs::Rows::tallied))]
    fn with(self, outcome: Outcome, pulse: Pulse) -> Tally
        requires { HasRoom self 1 }
        ensures value { result ≡ counted_of self outcome pulse }
        ensures room { (left : ℕ) → HasRoom self (left + 1) → HasRoom result left }
    {
        if outcome.is_err() {
            return self;
        }
        let passed = self.passed + 1;
        match pulse {
            Pulse::Off => Tally { passed, ..self },
            Pulse::In => Tally {
                passed,
                inward: self.inward + 1,
                ..self
            },
            Pulse::Out => Tally {
                passed,
                outward: self.outward + 1,
                ..self
            },
        }
    }
}

impl Ran {
    // A run that comes to no byte time.
    #[tactic(auto, unfolding(crate::specs::Rows::empty_run))]
    pub(crate) fn none(outcome: Outcome, machine: Machine) -> Ran
        ensures { result ≡ empty_run outcome machine }
    {
        Ran {
            outcome,
            tally: Tally::NONE,
            machine,
        }
    }

    // A run of the one byte time after which the machine is this.
    #[tactic(auto, unfolding(crate::specs::Transfers::one_byte_time))]
    pub(crate) fn one(machine: Machine) -> Ran
        ensures { result ≡ one_byte_time machine }
    {
        Ran {
            outcome: Ok(()),
            tally: Tally {
                passed: 1,
                ..Tally::NONE
            },
            machine,
        }
    }

    // One byte time more.
    #[tactic(auto, unfolding(crate::specs::Rows::ran_to))]
    pub(crate) fn with(self, passed: Passed) -> Ran
        requires { HasRoom self.tally 1 }
        ensures value { result ≡ ran_to self.tally passed }
        ensures room { (left : ℕ) → HasRoom self.tally (left + 1) → HasRoom result.tally left }
    {
        Ran {
            outcome: passed.outcome,
            tally: self.tally.with(passed.outcome, passed.pulse),
            machine: passed.machine,
        }
    }

    // After a stretch.
    #[tactic(auto, unfolding(crate::specs::Stretches::ran_on))]
    pub(crate) fn stretched(self, passed: u16, ready: bool) -> Ran
        requires { (self.tally.passed + passed < 65536) × (self.machine.ring.position + passed < 65536) }
        ensures { result ≡ ran_on self passed ready }
    {
        if passed == 0 {
            return self;
        }
        Ran {
            tally: Tally {
                passed: self.tally.passed + passed,
                ..self.tally
            },
            machine: self.machine.stretched(passed, ready),
            ..self
        }
    }
}
