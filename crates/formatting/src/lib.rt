// Write Track after its first index pulse.
#![tactic(auto)]

ghost use Rattle.std.specs.Prelude.{◌≡◌};
ghost use Rattle.formatting.specs.Formatting.{until_last, presets, laid_cell, laid_crc, format_cell, format_crc_cell};

use activity::{Act, Activity, Deed, Seen};

#[tactic(auto, unfolding(crate::specs::Formatting::until_last))]
fn until_last(last: bool, next: Activity) -> Activity
    ensures { result ≡ until_last last next }
{
    if last { Activity::Idle } else { next }
}

// The FM marks that begin a CRC.
#[tactic(auto, unfolding(crate::specs::Formatting::presets))]
fn presets_crc(byte: u8) -> bool
    ensures { result ≡ presets byte }
{
    matches!(byte, 0xF8..=0xFB | 0xFE)
}

// The cell that a byte is laid as.
#[tactic(auto, unfolding(crate::specs::Formatting::laid_cell))]
pub fn laid_cell(mfm: bool, byte: u8) -> u16
    ensures { result ≡ laid_cell mfm byte }
{
    if mfm {
        return match byte {
            0xF5 => scan::SYNC,
            0xF6 => 0x1C2,
            _ => byte as u16,
        };
    }
    if presets_crc(byte) | (byte == 0xFC) {
        return byte as u16 + 256;
    }
    byte as u16
}

// The register after it.
#[tactic(auto, unfolding(crate::specs::Formatting::laid_crc))]
pub fn laid_crc(mfm: bool, crc: u16, byte: u8) -> u16
    ensures { result ≡ laid_crc mfm crc byte }
{
    if mfm {
        return match byte {
            0xF5 => 0xCDB4,
            0xF6 => crc::step(crc, 0xC2),
            _ => crc::step(crc, byte),
        };
    }
    if presets_crc(byte) {
        return crc::step(0xFFFF, byte);
    }
    crc::step(crc, byte)
}

// A cell of a Write Track.
#[tactic(auto, unfolding(crate::specs::Formatting::format_cell))]
pub fn format(s: Seen, crc: u16) -> Act
    ensures { result ≡ format_cell s crc }
{
    let byte = s.taken();
    if byte == 0xF7 {
        return Act {
            next: until_last(s.last, Activity::FormatCrc(crc)),
            deed: Deed::Take(false),
            cell: crc / 256,
        };
    }
    Act {
        next: until_last(s.last, Activity::Format(laid_crc(s.mfm, crc, byte))),
        deed: Deed::Take(!s.last),
        cell: laid_cell(s.mfm, byte),
    }
}

// The second cell of an F7.
#[tactic(auto, unfolding(crate::specs::Formatting::format_crc_cell))]
pub fn format_crc(s: Seen, crc: u16) -> Act
    ensures { result ≡ format_crc_cell s crc }
{
    Act {
        next: until_last(s.last, Activity::Format(0x0000)),
        deed: Deed::Ask(!s.last),
        cell: crc % 256,
    }
}
