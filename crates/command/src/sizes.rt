// The lengths of a data field.
ghost use Rattle.std.specs.Prelude.{◌≡◌, ◌≤◌};
ghost use Rattle.command.specs.Sizes.{size_of, field_size, largest_size};

// No data field is larger.
pub const LARGEST_SIZE: u16 = 1024;

// Bytes of a data field, by the two low bits of its ID's length, where these are IBM's codes, and where they are not.
const SIZES: [u16; 4] = [128, 256, 512, LARGEST_SIZE];

const OTHER_SIZES: [u16; 4] = [256, 512, LARGEST_SIZE, 128];

// The bytes of a data field by IBM's codes, and the bound of the counts of those who read and write one.
#[tactic(auto, unfolding(crate::specs::Sizes::size_of))]
pub fn size(length: u8) -> u16
    ensures value { result ≡ size_of length }
    ensures upper_bound { result ≤ largest_size }
{
    SIZES[(length % 4) as usize]
}

// The bytes of a data field by the codes that are asked for.
#[tactic(auto, unfolding(crate::specs::Sizes::field_size))]
pub fn field_size(ibm: bool, length: u8) -> u16
    ensures value { result ≡ field_size ibm length }
    ensures upper_bound { result ≤ largest_size }
{
    if ibm {
        return size(length);
    }
    OTHER_SIZES[(length % 4) as usize]
}
