// Standard output, over a buffer that goes out whenever it is full.
ghost use Rattle.std.specs.Prelude.{◌≡◌, [], OnOk};

use arrayvec::ArrayVec;
use std::io;
use std::io::{Stdout, Write};

// Standard output, and the bytes that go there next.
#[derive(Drop)]
pub struct Outgoing {
    stdout: Stdout,
    waiting: ArrayVec<u8, 65536>,
}

impl Outgoing {
    pub fn start(stdout: Stdout) -> Outgoing {
        Outgoing {
            stdout,
            waiting: ArrayVec::new(),
        }
    }

    // Hands the bytes that wait over.
    fn hand_over(&mut self) -> io::Result<()>
        ensures { OnOk result (self.new.waiting.items ≡ []) }
    {
        self.stdout.write_all(self.waiting.as_slice())?;
        self.waiting.clear();
        Ok(())
    }

    // The bytes of a piece that does not fit.
    fn write_over(&mut self, bytes: &[u8]) -> io::Result<()> {
        for byte in bytes {
            if self.waiting.is_full() {
                self.hand_over()?;
            }
            self.waiting.push(*byte);
        }
        Ok(())
    }
}

impl Write for Outgoing {
    fn write(&mut self, bytes: &[u8]) -> io::Result<usize> {
        self.write_all(bytes)?;
        Ok(bytes.len())
    }

    fn write_all(&mut self, bytes: &[u8]) -> io::Result<()> {
        if self.waiting.remaining_capacity() < bytes.len() {
            return self.write_over(bytes);
        }
        self.waiting.try_extend_from_slice(bytes).unwrap();
        Ok(())
    }

    fn flush(&mut self) -> io::Result<()> {
        self.hand_over()
    }
}
