// A line of a script: its letter and its numbers.
ghost use Rattle.std.specs.Prelude.{◌≡◌, ◌≤◌, length, Ok, Err, OnOk, OnErr};
ghost use Rattle.script.specs.Lines.{bad_line, no_numbers, numbers_with, items_of, no_line, lettered_line, numbered_line, line_with, line_start, reader_with, line_and, word_end, word_grown, fed_reader, ended_line, outcome_of};

use crate::words::Word;

// The most numbers that a line has: a place and 64 cells.
const MOST: usize = 65;

// A line so far: its letter, and the numbers after it.
#[derive(Clone, Copy)]
pub struct Line {
    pub letter: Option<u8>,
    pub numbers: Numbers,
}

// The numbers of a line: the first ones of an array. (The toolchain's vectors of a fixed room are not Copy, as lines are.)
#[derive(Clone, Copy)]
pub struct Numbers {
    cells: [u16; MOST],
    count: usize,
}

// A line that is an error of the script.
#[derive(Clone, Copy, Debug)]
pub struct BadLine;

// A line while its bytes come in. A comment of any length is passed over, so no line is ever held whole.
#[derive(Clone, Copy)]
pub struct Reader {
    pub line: Line,
    // It is bad from a word on that is neither its letter nor a number that it has room for. (A flag beside the line: by a Result
    // the line is moved at each byte.)
    pub bad: bool,
    pub word: Word,
    // Two flags and no enum of three states: `fed` and `ended` also say what they give where both are on.
    pub comment: bool,
    // There is a carriage return outside a comment: only a newline may follow.
    pub cr: bool,
}

impl Numbers {
    #[tactic(auto, unfolding(crate::specs::Lines::no_numbers))]
    fn none() -> Numbers
        ensures { result ≡ no_numbers }
    {
        Numbers {
            cells: [0; MOST],
            count: 0,
        }
    }

    // One number more, where there is room.
    #[tactic(auto, unfolding(crate::specs::Lines::numbers_with))]
    fn push(&mut self, number: u16) -> Result<(), BadLine>
        ensures ok { OnOk result (numbers_with self.old number ≡ Ok self.new) }
        ensures err { OnErr result ((numbers_with self.old number ≡ Err bad_line) × (self.new ≡ self.old)) }
    {
        let count = self.count;
        if MOST <= count {
            return Err(BadLine);
        }
        self.cells[count] = number;
        self.count = count + 1;
        Ok(())
    }

    #[tactic(auto, unfolding(crate::specs::Lines::items_of))]
    pub fn as_slice(&self) -> &[u16]
        ensures value { result.now ≡ items_of self.now }
        ensures fits { length result.now ≤ 65 }
    {
        &self.cells[..self.count.min(MOST)]
    }
}

impl Line {
    #[tactic(auto, unfolding(crate::specs::Lines::no_line))]
    fn none() -> Line
        ensures { result ≡ no_line }
    {
        Line {
            letter: None,
            numbers: Numbers::none(),
        }
    }

    // The first word is the letter.
    #[tactic(auto, unfolding(crate::specs::Lines::lettered_line))]
    fn take_letter(&mut self, word: Word) -> Result<(), BadLine>
        ensures ok { OnOk result (lettered_line self.old word ≡ Ok self.new) }
        ensures err { OnErr result ((lettered_line self.old word ≡ Err bad_line) × (self.new ≡ self.old)) }
    {
        let letter = word.letter().ok_or(BadLine)?;
        self.letter = Some(letter);
        Ok(())
    }

    // Each later word is a number.
    #[tactic(auto, unfolding(crate::specs::Lines::numbered_line))]
    fn take_number(&mut self, word: Word) -> Result<(), BadLine>
        ensures ok { OnOk result (numbered_line self.old word ≡ Ok self.new) }
        ensures err { OnErr result ((numbered_line self.old word ≡ Err bad_line) × (self.new ≡ self.old)) }
    {
        let number = word.number().ok_or(BadLine)?;
        self.numbers.push(number)
    }

    // The word that ends; between two spaces there is none.
    #[tactic(auto, unfolding(crate::specs::Lines::line_with))]
    fn take(&mut self, word: Word) -> Result<(), BadLine>
        ensures ok { OnOk result (line_with self.old word ≡ Ok self.new) }
        ensures err { OnErr result ((line_with self.old word ≡ Err bad_line) × (self.new ≡ self.old)) }
    {
        if word.size == 0 {
            Ok(())
        } else if self.letter.is_none() {
            self.take_letter(word)
        } else {
            self.take_number(word)
        }
    }
}

impl Reader {
    // Before a line's first byte.
    #[tactic(auto, unfolding(crate::specs::Lines::line_start))]
    pub fn start() -> Reader
        ensures { result ≡ line_start }
    {
        Reader {
            line: Line::none(),
            bad: false,
            word: Word::none(),
            comment: false,
            cr: false,
        }
    }

    // The line takes the word that ends. A bad line stays bad.
    #[tactic(auto, unfolding(crate::specs::Lines::line_and))]
    fn take_word(&mut self)
        ensures { self.new ≡ reader_with self.old (line_and self.old) }
    {
        if !self.bad {
            self.bad = self.line.take(self.word).is_err();
        }
    }

    // After a word, and in a comment or not.
    #[tactic(auto, unfolding(crate::specs::Lines::word_end))]
    fn end_word(&mut self, comment: bool)
        ensures { self.new ≡ word_end self.old comment }
    {
        self.take_word();
        self.word = Word::none();
        self.comment = comment;
        self.cr = false;
    }

    // After one byte more of a word.
    #[tactic(auto, unfolding(crate::specs::Lines::word_grown))]
    fn grow_word(&mut self, byte: u8)
        ensures { self.new ≡ word_grown self.old byte }
    {
        self.word = self.word.with(byte);
        self.comment = false;
        self.cr = false;
    }

    // Takes one byte more, which is no newline. A comment passes over it. A carriage return belongs to the line's end if a newline
    // comes next; with any other byte after it the line is bad, whatever follows.
    #[tactic(auto, unfolding(crate::specs::Lines::fed_reader, crate::specs::Lines::cr_held, crate::specs::Lines::cr_stray))]
    pub fn feed(&mut self, byte: u8)
        ensures { self.new ≡ fed_reader self.old byte }
    {
        if self.comment {
            return;
        }
        if self.cr {
            self.bad = true;
            return;
        }
        match byte {
            b' ' => self.end_word(false),
            b'#' => self.end_word(true),
            b'\r' => self.cr = true,
            _ => self.grow_word(byte),
        }
    }

    // The reader after one byte more.
    pub fn fed(self, byte: u8) -> Reader
        ensures { result ≡ fed_reader self byte }
    {
        let mut reader = self;
        reader.feed(byte);
        reader
    }

    // Ends the line, at its newline or else at the end of the input, before which no carriage return may stand. It is `line` now.
    #[tactic(auto, unfolding(crate::specs::Lines::ended_line, crate::specs::Lines::line_and))]
    pub fn end(&mut self, newline: bool) -> Result<(), BadLine>
        ensures value { result ≡ outcome_of (ended_line self.old newline) }
        ensures reader { self.new ≡ reader_with self.old (ended_line self.old newline) }
    {
        if self.cr & !newline {
            self.bad = true;
        }
        self.take_word();
        if self.bad {
            return Err(BadLine);
        }
        Ok(())
    }

    // The whole line.
    pub fn ended(self, newline: bool) -> Result<Line, BadLine>
        ensures { result ≡ ended_line self newline }
    {
        let mut reader = self;
        reader.end(newline)?;
        Ok(reader.line)
    }
}
