// What the bits of a command byte ask for: all but its decoding and its rate code. Nobody else looks at them.
ghost use Rattle.std.specs.Prelude.{◌≡◌, ◌<◌};
ghost use Rattle.common.specs.Bits.{bit_of};
ghost use Rattle.command.specs.Bits.{flag_of, selects_side, side_of, side_asked, ibm_lengths, mark_written};

use crate::Chip;
use scan::DataMark;

// The flags of a command byte.
#[derive(Clone, Copy, Debug, PartialEq, Eq)]
pub enum Flag {
    // Type I: TR moves with the step (the data sheet's u).
    Update,
    // The head is loaded at acceptance (h), or else unloaded.
    Head,
    // The track is verified once the stepping is over (V).
    Verify,
    // Type II: the records that follow are read or written too (m).
    Multiple,
    // The side that C asks for (S), on the WD1793.
    Side,
    // Types II and III: the head settles first (E).
    Settle,
    // The side is compared (C), on the WD1793.
    Compare,
    // Write Sector: the data mark is the deleted one.
    Mark,
    // The length codes are IBM's (L), on the WD1797.
    Lengths,
    // The side, of Type III too (U), on the WD1797.
    Select,
    // Force Interrupt raises INTRQ at once (I3).
    AtOnce,
    // It raises INTRQ at each index pulse (I2).
    AtIndex,
    // It raises INTRQ when Ready goes off (I1).
    AtNotReady,
    // It raises INTRQ when Ready comes on (I0).
    AtReady,
}

// The bit of a byte at a place.
#[tactic(auto, unfolding(common::specs::Bits::bit_of))]
fn bit(byte: u8, place: u8) -> bool
    requires { place < 8 }
    ensures { result ≡ bit_of byte place }
{
    (byte >> place) % 2 == 1
}

// Whether a flag of a byte is on.
#[tactic(auto, unfolding(crate::specs::Bits::updates_track, crate::specs::Bits::loads_head, crate::specs::Bits::verifies_track, crate::specs::Bits::is_multiple, crate::specs::Bits::settles_first))]
pub fn is_on(byte: u8, flag: Flag) -> bool
    ensures { result ≡ flag_of byte flag }
{
    let place = match flag {
        Flag::Update => 4,
        Flag::Head => 3,
        Flag::Verify => 2,
        Flag::Multiple => 4,
        Flag::Side => 3,
        Flag::Settle => 2,
        Flag::Compare => 1,
        Flag::Mark => 0,
        Flag::Lengths => 3,
        Flag::Select => 1,
        Flag::AtOnce => 3,
        Flag::AtIndex => 2,
        Flag::AtNotReady => 1,
        Flag::AtReady => 0,
    };
    bit(byte, place)
}

// What Types II and III put on the side output: on the WD1797 U. The WD1793 has no such output, and its flag stays off.
#[tactic(auto, unfolding(crate::specs::Bits::selects_side))]
pub fn selects_side(chip: Chip, byte: u8) -> bool
    ensures { result ≡ selects_side chip byte }
{
    match chip {
        Chip::Wd1793 => false,
        Chip::Wd1797 => is_on(byte, Flag::Select),
    }
}

// Type II: the side that an ID must have: on the WD1793 any, or with C the one that S names; on the WD1797 the one that U names.
#[tactic(auto, unfolding(crate::specs::Bits::side_asked, crate::specs::Bits::side_of))]
pub fn side_asked(chip: Chip, byte: u8) -> Option<u8>
    ensures { result ≡ side_asked chip byte }
{
    match chip {
        Chip::Wd1793 => is_on(byte, Flag::Compare).then(|| u8::from(is_on(byte, Flag::Side))),
        Chip::Wd1797 => Some(u8::from(is_on(byte, Flag::Select))),
    }
}

// Type II: the length codes of an ID are IBM's: on the WD1793 always, on the WD1797 with L.
#[tactic(auto, unfolding(crate::specs::Bits::ibm_lengths))]
pub fn ibm_lengths(chip: Chip, byte: u8) -> bool
    ensures { result ≡ ibm_lengths chip byte }
{
    match chip {
        Chip::Wd1793 => true,
        Chip::Wd1797 => is_on(byte, Flag::Lengths),
    }
}

// Write Sector: the data mark that it writes.
#[tactic(auto, unfolding(crate::specs::Bits::mark_written))]
pub fn mark_written(byte: u8) -> DataMark
    ensures { result ≡ mark_written byte }
{
    if is_on(byte, Flag::Mark) {
        DataMark::F8
    } else {
        DataMark::Fb
    }
}
