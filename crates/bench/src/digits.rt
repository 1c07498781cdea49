// The pieces of an answer: numbers in hexadecimal, put by `text`'s digits and handed over as one text. By `{:04X}`, and a digit
// at a time, a script takes more than twice as long. And `./speed` tells what a call costs by how much two runs differ, so that no
// number may take longer to print than another one.
use std::fmt::Formatter;
use std::{fmt, str};

pub fn bit(number: bool) -> u8 {
    text::digit(u16::from(number))
}

pub fn byte(number: u8) -> [u8; 2] {
    let [_, _, high, low] = text::hex(u16::from(number));
    [high, low]
}

// Puts bytes that are ASCII: none is refused.
pub fn put<W: fmt::Write>(f: &mut Formatter<W>, ascii: &[u8]) -> fmt::Result {
    f.write_str(str::from_utf8(ascii).map_err(|_| fmt::Error)?)
}
