// The machines that are tried, and what the calls give for them.
ghost use Rattle.std.specs.Prelude.{◌≡◌};
ghost use Rattle.limits.specs.Calls.{machine_with, numbers_of};

use activity::Activity;
use command::Chip;
use registers::{Lines, Ring};
use wd::Machine;

// The machine of power-on, but for its ring and what it is doing. MFM, the density in which the largest counts are reached.
#[tactic(auto, unfolding(crate::specs::Calls::machine_with))]
pub fn machine(ring: Ring, activity: Activity) -> Machine
    ensures { result ≡ machine_with ring activity }
{
    Machine {
        ring,
        activity,
        ..Machine::power_on(2048, true, Chip::Wd1793).machine
    }
}

// What load, read, byte time and run give: the load and the read are of DR, which no other refusal guards.
#[tactic(auto, unfolding(crate::specs::Calls::numbers_of))]
pub fn numbers(machine: Machine, row: &mut [u16]) -> [u8; 4]
    ensures { result ≡ numbers_of machine row.old }
{
    let lines = Lines {
        ready: true,
        protect: false,
        track0: false,
        hlt: true,
    };
    let loaded = machine.load_register(lines, 3, 0);
    let read = machine.read_register(lines, 3);
    let passed = machine.byte_time(lines, row);
    let ran = machine.run(lines, 1, row);
    [
        refusals::number(loaded.outcome),
        refusals::number(read.outcome),
        refusals::number(passed.outcome),
        refusals::number(ran.outcome),
    ]
}
