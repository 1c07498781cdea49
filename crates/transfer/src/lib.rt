// A byte transferred between host and track. DRQ is on after such a byte time, so it ends a run: a run that begins with one has
// no other byte time, and costs a third of what the loop's byte time costs.
#![tactic(auto)]

ghost use Rattle.std.specs.Prelude.{◌≡◌};
ghost use Rattle.transfer.specs.Transfers.{read_transfer, write_transfer, format_transfer, transfer_in};

use activity::{Activity, Seen};

// The activity and DR after the byte time of a byte transferred, and the cell as it is left.
#[derive(Clone, Copy)]
pub struct Transfer {
    pub next: Activity,
    pub dr: u8,
    pub cell: u16,
}

// A data byte goes to DR; the two CRC cells do not.
#[tactic(auto, unfolding(crate::specs::Transfers::read_transfer))]
fn read(s: Seen, left: u16, crc: u16, deleted: bool) -> Option<Transfer>
    ensures { result ≡ read_transfer s left crc deleted }
{
    if left < 3 {
        return None;
    }
    let byte = s.byte();
    Some(Transfer {
        next: Activity::Data(left - 1, crc::step(crc, byte), deleted),
        dr: byte,
        cell: s.cell,
    })
}

// A data cell takes DR. After the last one DRQ is off.
#[tactic(auto, unfolding(crate::specs::Transfers::write_transfer))]
fn write(s: Seen, left: u16, crc: u16) -> Option<Transfer>
    ensures { result ≡ write_transfer s left crc }
{
    if left < 5 {
        return None;
    }
    let byte = s.taken();
    Some(Transfer {
        next: Activity::Put(left - 1, crc::step(crc, byte)),
        dr: s.dr,
        cell: byte as u16,
    })
}

// A cell of a Write Track takes DR. After the last one, and after the first of an F7, DRQ is off.
#[tactic(auto, unfolding(crate::specs::Transfers::format_transfer))]
fn format(s: Seen, crc: u16) -> Option<Transfer>
    ensures { result ≡ format_transfer s crc }
{
    let byte = s.taken();
    if (byte == 0xF7) | s.last {
        return None;
    }
    Some(Transfer {
        next: Activity::Format(formatting::laid_crc(s.mfm, crc, byte)),
        dr: s.dr,
        cell: formatting::laid_cell(s.mfm, byte),
    })
}

// What is transferred in this byte time.
#[tactic(auto, unfolding(crate::specs::Transfers::transfer_in))]
pub fn transferred(s: Seen, activity: Activity) -> Option<Transfer>
    ensures { result ≡ transfer_in s activity }
{
    match activity {
        Activity::Data(left, crc, deleted) => read(s, left, crc, deleted),
        Activity::Put(left, crc) => write(s, left, crc),
        Activity::Format(crc) => format(s, crc),
        _ => None,
    }
}
