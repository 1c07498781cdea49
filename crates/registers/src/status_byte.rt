// The status byte.
ghost use Rattle.std.specs.Prelude.{◌≡◌, ◌≤◌};
ghost use Rattle.registers.specs.Status.{bit_for, type_bits, type1_of, type2_of, status_from};

use crate::{Flags, Lines, Status};

// A bit that means one thing for Type I and another for Types II and III has two names.
impl Status {
    pub const NOT_READY: u8 = 0x80;

    pub const PROTECTED: u8 = 0x40;

    pub const DELETED: u8 = 0x20;

    pub const HEAD_LOADED: u8 = Status::DELETED;

    pub const NOT_FOUND: u8 = 0x10;

    pub const SEEK_ERROR: u8 = Status::NOT_FOUND;

    pub const CRC: u8 = 0x08;

    pub const LOST_DATA: u8 = 0x04;

    pub const TRACK_0: u8 = Status::LOST_DATA;

    pub const DRQ: u8 = 0x02;

    pub const INDEX: u8 = Status::DRQ;

    pub const BUSY: u8 = 0x01;
}

// A mask or nothing. (One function over both values would be another word for `if`.)
#[tactic(auto, unfolding(crate::specs::Status::bit_for))]
fn bit(on: bool, mask: u8) -> u8
    ensures value { result ≡ bit_for on mask }
    ensures upper_bound { result ≤ mask }
{
    if on { mask } else { 0 }
}

// Bits 6, 5, 2 and 1, which each type of command gives in its own way.
#[tactic(auto, unfolding(crate::specs::Status::type_bits))]
fn type_bits(six: bool, five: bool, two: bool, one: bool) -> u8
    ensures value { result ≡ type_bits six five two one }
    ensures upper_bound { result ≤ 0x66 }
{
    let high = bit(six, Status::PROTECTED) + bit(five, Status::DELETED);
    let low = bit(two, Status::LOST_DATA) + bit(one, Status::DRQ);
    high + low
}

// The status byte, with these bits and those of every type.
#[tactic(auto, unfolding(crate::specs::Status::status_from))]
fn status_of(varying: u8, flags: Flags, busy: bool, ready: bool) -> Status
    requires { varying ≤ 0x66 }
    ensures { result ≡ status_from varying flags busy ready }
{
    let high = bit(!ready, Status::NOT_READY) + bit(flags.missing, Status::NOT_FOUND);
    let low = bit(flags.crc, Status::CRC) + bit(busy, Status::BUSY);
    Status {
        byte: high + varying + low,
    }
}

// The status byte of Type I follows the lines and the last byte time's pulse: whether the head is loaded with HLT on, and
// whether it was a pulse.
#[tactic(auto, unfolding(crate::specs::Status::status_from))]
pub fn of_type1(engaged: bool, index: bool, flags: Flags, busy: bool, lines: Lines) -> Status
    ensures { result ≡ status_from (type1_of engaged index lines) flags busy lines.ready }
{
    let varying = type_bits(lines.protect, engaged, lines.track0, index);
    status_of(varying, flags, busy, lines.ready)
}

// The status byte of Types II and III.
#[tactic(auto, unfolding(crate::specs::Status::status_from))]
pub fn of_type2(drq: bool, flags: Flags, busy: bool, lines: Lines) -> Status
    ensures { result ≡ status_from (type2_of flags drq) flags busy lines.ready }
{
    let varying = type_bits(flags.protected, flags.deleted, flags.lost, drq);
    status_of(varying, flags, busy, lines.ready)
}
