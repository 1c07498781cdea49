// Byte times of a step and of the head's settling.
ghost use Rattle.std.specs.Prelude.{◌≡◌};
ghost use Rattle.command.specs.Times.{step_time_of, settle_time_of};

// Byte times that the head settles, which are those of the slowest step: 30 ms.
const SETTLING_FM: u16 = 469;

pub const SETTLING_MFM: u16 = 938;

// Byte times of a step, for FM and MFM, by rate code.
const STEP_TIMES: [[u16; 4]; 2] = [[94, 188, 313, SETTLING_FM], [188, 375, 625, SETTLING_MFM]];

// The byte times of a step, by the density and the rate code of a Type I byte.
#[tactic(auto, unfolding(crate::specs::Times::step_time_of))]
pub fn step_time(mfm: bool, byte: u8) -> u16
    ensures { result ≡ step_time_of mfm byte }
{
    STEP_TIMES[mfm as usize][(byte % 4) as usize]
}

// The byte times that the head settles. (`scan::lead` says why a number of each density is a function of its own.)
#[tactic(auto, unfolding(crate::specs::Times::settle_time_of))]
pub fn settle_time(mfm: bool) -> u16
    ensures { result ≡ settle_time_of mfm }
{
    if mfm { SETTLING_MFM } else { SETTLING_FM }
}
