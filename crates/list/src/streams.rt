// Standard input and output.
ghost use Rattle.std.specs.Prelude.{◌≤◌, length};

use std::io;
use std::io::{Read, Stdin, Stdout};

// Both streams, and how the reads and writes have gone so far. The first that fails is kept for `main` to end with, and ends the
// input, so that the run comes to its end as it does at any other input's end. (The bench's input keeps a read's error too: a crate
// for that one function would be no plainer.)
#[derive(Drop)]
pub struct Streams {
    stdin: Stdin,
    stdout: Stdout,
    outcome: io::Result<()>,
}

impl Streams {
    pub fn new(stdin: Stdin, stdout: Stdout) -> Streams {
        Streams {
            stdin,
            stdout,
            outcome: Ok(()),
        }
    }

    // Reads once, and hands back how many bytes came: none at the input's end.
    pub fn read(&mut self, buffer: &mut [u8]) -> usize
        ensures { result ≤ length buffer.new }
    {
        if self.outcome.is_err() {
            return 0;
        }
        match self.stdin.read(buffer) {
            Ok(count) => count,
            Err(error) => {
                self.outcome = Err(error);
                0
            }
        }
    }

    // Writes the text, where no read or write has failed.
    pub fn write(&mut self, text: &[u8]) {
        if self.outcome.is_ok() {
            self.outcome = self.stdout.write_all(text);
        }
    }

    // The first error, where there was one.
    pub fn outcome(self) -> io::Result<()> {
        self.outcome
    }
}
