// Reading and loading registers. They go by document 01's numbers here: each function answers every number, one above 3 too, and
// over an enum of the four registers it would promise less.
ghost use Rattle.std.specs.Prelude.{◌≡◌};
ghost use Rattle.registers.specs.Registers.{read_refusal, read_byte, read_wires, guarded, load_refusal, load_regs, load_wires};

use crate::{Regs, Status, Wires};
use refusals::{Outcome, Refusal};

// What a read is refused for: Machine, then Register.
#[tactic(auto, unfolding(crate::specs::Registers::read_refusal))]
pub fn read_refusal(valid: bool, number: u8) -> Outcome
    ensures { result ≡ read_refusal valid number }
{
    if !valid {
        return Err(Refusal::Machine);
    }
    if 3 < number {
        return Err(Refusal::Register);
    }
    Ok(())
}

#[tactic(auto, unfolding(crate::specs::Registers::read_byte))]
pub fn read_byte(regs: Regs, status: Status, number: u8) -> u8
    ensures { result ≡ read_byte regs status number }
{
    match number {
        0 => status.byte,
        1 => regs.tr,
        2 => regs.sr,
        _ => regs.dr,
    }
}

// Reading status turns INTRQ off, reading DR turns DRQ off.
#[tactic(auto, unfolding(crate::specs::Registers::read_wires, crate::specs::Registers::load_wires))]
pub fn read_wires(wires: Wires, number: u8) -> Wires
    ensures { result ≡ read_wires wires number }
{
    Wires {
        intrq: wires.intrq & (number != 0),
        ..load_wires(wires, number)
    }
}

// A load that must wait until Busy is off: TR, SR, or a command that is no Force Interrupt.
#[tactic(auto, unfolding(crate::specs::Registers::guarded))]
fn guarded_load(number: u8, byte: u8) -> bool
    ensures { result ≡ guarded number byte }
{
    match number {
        0 => !matches!(byte, 0xD0..=0xDF),
        1 | 2 => true,
        _ => false,
    }
}

// What a load is refused for: Machine, then Register, then Busy.
#[tactic(auto, unfolding(crate::specs::Registers::read_refusal, crate::specs::Registers::load_refusal))]
pub fn load_refusal(valid: bool, busy: bool, number: u8, byte: u8) -> Outcome
    ensures { result ≡ load_refusal valid busy number byte }
{
    read_refusal(valid, number)?;
    if busy & guarded_load(number, byte) {
        return Err(Refusal::Busy);
    }
    Ok(())
}

#[tactic(auto, unfolding(crate::specs::Registers::load_regs))]
pub fn load_regs(regs: Regs, number: u8, byte: u8) -> Regs
    ensures { result ≡ load_regs regs number byte }
{
    match number {
        1 => Regs { tr: byte, ..regs },
        2 => Regs { sr: byte, ..regs },
        _ => Regs { dr: byte, ..regs },
    }
}

// Loading DR turns DRQ off.
#[tactic(auto, unfolding(crate::specs::Registers::load_wires))]
pub fn load_wires(wires: Wires, number: u8) -> Wires
    ensures { result ≡ load_wires wires number }
{
    Wires {
        drq: wires.drq & (number != 3),
        ..wires
    }
}
