// Command bytes of the WD1793 and the WD1797: the command that a byte is, and the order that it leaves for the byte times. What
// differs between the chips is settled here.
#![tactic(auto)]

ghost use Rattle.std.specs.Prelude.{◌≡◌};
ghost use Rattle.command.specs.Commands.{decoded_by_both, decoded_with_u, decoded_of, class_of, job_of, is_restore};
ghost use Rattle.command.specs.Orders.{inward_of, order_of};

pub mod bits;
pub mod sizes;
pub mod times;

// The chip whose part the controller plays. The WD1797 has a side output.
#[derive(Clone, Copy, Debug, PartialEq, Eq)]
pub enum Chip {
    Wd1793,
    Wd1797,
}

// The commands, by the data sheet's names.
#[derive(Clone, Copy, Debug, PartialEq, Eq)]
pub enum Command {
    Restore,
    Seek,
    Step,
    StepIn,
    StepOut,
    ReadSector,
    WriteSector,
    ReadAddress,
    WriteTrack,
    ForceInterrupt,
}

// How the controller takes a command up: it steps until a track is reached, steps once, loads the head and works there,
// or ends what is under way.
#[derive(Clone, Copy, Debug, PartialEq, Eq)]
pub enum Class {
    Seeks,
    Steps,
    Works,
    Forces,
}

// What begins once the head has settled.
#[derive(Clone, Copy, Debug, PartialEq, Eq)]
pub enum Job {
    Nothing,
    Verify,
    ReadSector,
    WriteSector,
    ReadAddress,
    WriteTrack,
}

// The command under way, its byte, whose bits `bits` reads, and the direction of its one step; and for Type II the side that an ID
// must have, where one is asked, and whether its length codes are IBM's. These two are the chip's reading of the byte, so that who
// has the order need not ask which chip it is.
#[derive(Clone, Copy)]
pub struct Order {
    pub command: Command,
    pub byte: u8,
    pub inward: bool,
    pub side: Option<u8>,
    pub ibm: bool,
}

// The commands of Type III with the flag U, which the WD1797 alone takes.
#[tactic(auto, unfolding(crate::specs::Commands::decoded_with_u))]
fn decode_with_u(chip: Chip, byte: u8) -> Option<Command>
    ensures { result ≡ decoded_with_u chip byte }
{
    match chip {
        Chip::Wd1793 => None,
        Chip::Wd1797 => match byte {
            0xC2 | 0xC6 => Some(Command::ReadAddress),
            0xF2 | 0xF6 => Some(Command::WriteTrack),
            _ => None,
        },
    }
}

// The commands that both chips take. Read Sector has no data mark to choose, so its bit 0 must be off.
#[tactic(auto, unfolding(crate::specs::Commands::decoded_by_both))]
fn decode_by_both(byte: u8) -> Option<Command>
    ensures { result ≡ decoded_by_both byte }
{
    match byte {
        0x00..=0x0F => Some(Command::Restore),
        0x10..=0x1F => Some(Command::Seek),
        0x20..=0x3F => Some(Command::Step),
        0x40..=0x5F => Some(Command::StepIn),
        0x60..=0x7F => Some(Command::StepOut),
        0x80..=0x9F if byte % 2 == 0 => Some(Command::ReadSector),
        0xA0..=0xBF => Some(Command::WriteSector),
        0xC0 | 0xC4 => Some(Command::ReadAddress),
        0xF0 | 0xF4 => Some(Command::WriteTrack),
        0xD0..=0xDF => Some(Command::ForceInterrupt),
        _ => None,
    }
}

// The command that a byte is on a chip, if it is one.
#[tactic(auto, unfolding(crate::specs::Commands::decoded_of))]
pub fn decode(chip: Chip, byte: u8) -> Option<Command>
    ensures { result ≡ decoded_of chip byte }
{
    decode_by_both(byte).or_else(|| decode_with_u(chip, byte))
}

// How a command is taken up.
#[tactic(auto, unfolding(crate::specs::Commands::class_of))]
pub fn class_of(command: Command) -> Class
    ensures { result ≡ class_of command }
{
    match command {
        Command::Restore | Command::Seek => Class::Seeks,
        Command::Step | Command::StepIn | Command::StepOut => Class::Steps,
        Command::ReadSector | Command::WriteSector => Class::Works,
        Command::ReadAddress | Command::WriteTrack => Class::Works,
        Command::ForceInterrupt => Class::Forces,
    }
}

// What a command begins once the head has settled.
#[tactic(auto, unfolding(crate::specs::Commands::job_of))]
pub fn job_of(command: Command) -> Job
    ensures { result ≡ job_of command }
{
    match command {
        Command::Restore | Command::Seek => Job::Verify,
        Command::Step | Command::StepIn | Command::StepOut => Job::Verify,
        Command::ReadSector => Job::ReadSector,
        Command::WriteSector => Job::WriteSector,
        Command::ReadAddress => Job::ReadAddress,
        Command::WriteTrack => Job::WriteTrack,
        Command::ForceInterrupt => Job::Nothing,
    }
}

// Restore is a Seek with a rule of its own where it begins and where it stops.
#[tactic(auto, unfolding(crate::specs::Commands::is_restore))]
pub fn is_restore(command: Command) -> bool
    ensures { result ≡ is_restore command }
{
    command == Command::Restore
}

// The direction of a command's step, from that of the last one.
#[tactic(auto, unfolding(crate::specs::Orders::inward_of))]
fn inward(command: Command, last: bool) -> bool
    ensures { result ≡ inward_of command last }
{
    match command {
        Command::StepIn => true,
        Command::StepOut => false,
        _ => last,
    }
}

// The order that a command and its byte give on a chip, from the direction of the last step.
#[tactic(auto, unfolding(crate::specs::Orders::order_of))]
pub fn order_of(chip: Chip, command: Command, byte: u8, last: bool) -> Order
    ensures { result ≡ order_of chip command byte last }
{
    Order {
        command,
        byte,
        inward: inward(command, last),
        side: bits::side_asked(chip, byte),
        ibm: bits::ibm_lengths(chip, byte),
    }
}
