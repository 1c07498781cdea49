// Works one controller and two rows of cells from a script on standard input, and prints a line for each line carried out.
#![tactic(auto)]

mod answers;
mod calls;
mod digits;
mod failures;
mod input;
mod output;
mod rows;
mod sessions;
mod views;

use failures::Failure;
use input::Incoming;
use output::Outgoing;
use script::Reader;
use sessions::Session;
use std::io;
use std::io::Write;

// Reads a line and carries it out.
fn work_line(
    session: &mut Session,
    input: &mut Incoming,
    out: &mut Outgoing,
) -> Result<(), Failure> {
    let mut reader = Reader::start();
    let newline = input.feed_line(&mut reader, out)?;
    reader.end(newline)?;
    session.carry_out(&reader.line, out)
}

// Works the script up to its end, or to a line that is an error, and prints the number of that one. A proved loop has to end, and
// nothing says that the input does: so it ends at a line's number that no script reaches.
fn work(session: &mut Session, input: &mut Incoming, out: &mut Outgoing) -> io::Result<()> {
    for number in 1..=u64::MAX {
        match work_line(session, input, out) {
            Ok(()) if input.is_over() => break,
            Ok(()) => {}
            Err(Failure::Script(_)) => {
                writeln!(out, "error {number}")?;
                break;
            }
            Err(Failure::Write(error)) => return Err(error),
        }
    }
    out.flush()
}

fn main(rt: HostRuntime) -> io::Result<()> {
    let mut session = Session::start();
    let mut input = Incoming::start(rt.stdin());
    let mut out = Outgoing::start(rt.stdout());
    let worked = work(&mut session, &mut input, &mut out);
    input.outcome()?;
    worked
}
