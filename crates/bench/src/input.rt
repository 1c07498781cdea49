// The lines of standard input, over a buffer of our own: a BufReader has its on the heap.
ghost use Rattle.std.specs.Prelude.{◌≤◌};

use crate::output::Outgoing;
use script::Reader;
use std::io;
use std::io::{Read, Stdin, Write};
use std::ops::Range;

// Standard input, the bytes that were read from it last, and the places of those that are still to be taken.
#[derive(Drop)]
pub struct Incoming {
    stdin: Stdin,
    bytes: [u8; 65536],
    left: Range<usize>,
    // A flag, since nothing is left before each read too.
    over: bool,
    // The first error of a read, kept for `main` to end with: what was read before it is carried out.
    outcome: io::Result<()>,
    ghost within: { left.end ≤ 65536 },
}

impl Incoming {
    pub fn start(stdin: Stdin) -> Incoming {
        Incoming {
            stdin,
            bytes: [0; 65536],
            left: 0..0,
            over: false,
            outcome: Ok(()),
        }
    }

    // Whether the input is over, which a failed read counts as.
    pub fn is_over(&self) -> bool {
        self.over
    }

    pub fn outcome(self) -> io::Result<()> {
        self.outcome
    }

    // Reads once: where no byte comes, the input is over.
    fn read(&mut self) {
        let count = match self.stdin.read(&mut self.bytes) {
            Ok(count) => count,
            Err(error) => {
                self.outcome = Err(error);
                0
            }
        };
        self.left = 0..count;
        self.over = count == 0;
    }

    // The next byte; none where the input is over. Where it is still to be read, the bytes of output that wait go out first: who
    // types a line may wait for its answer before typing the next one.
    fn next(&mut self, out: &mut Outgoing) -> io::Result<Option<u8>> {
        if self.left.is_empty() {
            out.flush()?;
            self.read();
        }
        Ok(self.left.next().map(|at| self.bytes[at]))
    }

    // Feeds a line to a reader, to its newline or to the end of the input, and says whether there was a newline. A proved loop has to
    // end: so it ends at a length that no line has.
    pub fn feed_line(&mut self, reader: &mut Reader, out: &mut Outgoing) -> io::Result<bool> {
        for _ in 0..u64::MAX {
            match self.next(out)? {
                Some(b'\n') => return Ok(true),
                Some(byte) => reader.feed(byte),
                None => break,
            }
        }
        Ok(false)
    }
}
