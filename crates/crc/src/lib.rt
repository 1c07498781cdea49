// The CRC of every field: x^16+x^12+x^5+1, high bit first, one byte a step.
#![tactic(auto)]

ghost use Rattle.std.specs.Prelude.{◌≡◌, ◌<◌};
ghost use Rattle.crc.specs.Crc.{crc_byte};
ghost use Rattle.crc.specs.Table.{word};

mod table;

use table::WORDS;

// The table's word for a byte.
#[tactic(auto, using(crate::proofs::Words::table_word))]
fn word_of(byte: u16) -> u16
    requires { byte < 256 }
    ensures { result ≡ word byte }
{
    WORDS[byte as usize]
}

// The register after one byte more. The low half passes through the eight bits untouched, so it joins after the table.
#[tactic(auto, using(crate::proofs::Linear::by_word))]
pub fn step(crc: u16, byte: u8) -> u16
    ensures { result ≡ crc_byte crc byte }
{
    word_of(crc / 256 ^ byte as u16) ^ crc % 256 * 256
}
