// A word of a line: what stands between spaces.
ghost use Rattle.std.specs.Prelude.{◌≡◌};
ghost use Rattle.script.specs.Words.{no_word, value_with, word_with, is_letter, is_number, letter_of, number_of};

// A word so far. A letter has one byte and a number at most four, so a longer word is one of five.
#[derive(Clone, Copy)]
pub struct Word {
    pub size: u8,
    pub last: u8,
    // The number that its last four digits make, if every byte of it is a digit.
    pub value: Option<u16>,
}

// A value with a hexadecimal digit more, upper or lower case.
#[tactic(auto, unfolding(crate::specs::Words::value_with, crate::specs::Glyphs::value_of))]
fn grown(value: Option<u16>, byte: u8) -> Option<u16>
    ensures { result ≡ value_with value byte }
{
    let value = value?;
    let digit = char::from(byte).to_digit(16)?;
    Some(value % 4096 * 16 + digit as u16)
}

impl Word {
    #[tactic(auto, unfolding(crate::specs::Words::no_word))]
    pub fn none() -> Word
        ensures { result ≡ no_word }
    {
        Word {
            size: 0,
            last: 0,
            value: Some(0),
        }
    }

    // The word and one byte more.
    #[tactic(auto, unfolding(crate::specs::Words::word_with, crate::specs::Words::longer_by))]
    pub fn with(self, byte: u8) -> Word
        ensures { result ≡ word_with self byte }
    {
        Word {
            size: self.size.saturating_add(1).min(5),
            last: byte,
            value: grown(self.value, byte),
        }
    }

    #[tactic(auto, unfolding(crate::specs::Words::is_letter, crate::specs::Glyphs::is_capital))]
    pub fn is_letter(self) -> bool
        ensures { result ≡ is_letter self }
    {
        (self.size == 1) & self.last.is_ascii_uppercase()
    }

    #[tactic(auto, unfolding(crate::specs::Words::is_number))]
    pub fn is_number(self) -> bool
        ensures { result ≡ is_number self }
    {
        (0 < self.size) & (self.size < 5) & self.value.is_some()
    }

    // The letter that the word is.
    #[tactic(auto, unfolding(crate::specs::Words::letter_of))]
    pub(crate) fn letter(self) -> Option<u8>
        ensures { result ≡ letter_of self }
    {
        self.is_letter().then_some(self.last)
    }

    // The number that the word is.
    #[tactic(auto, unfolding(crate::specs::Words::number_of))]
    pub(crate) fn number(self) -> Option<u16>
        ensures { result ≡ number_of self }
    {
        self.value.filter(|_| self.is_number())
    }
}
