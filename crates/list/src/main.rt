// Lists the IDs of the pictures on standard input, one picture after another.
#![tactic(auto)]

ghost use Rattle.std.specs.Prelude.{◌≡◌, ◌+◌, ◌^◌, ◌≤◌, ◌<◌, length, IfSome};
ghost use Rattle.picture.specs.Layout.{longest_picture};
ghost use Rattle.list.specs.Listing.{listing_room};
ghost use Rattle.list.specs.Steps.{Stepped};
ghost use Rattle.list.specs.Runs.{WholeRun};

mod buffers;
mod input;
mod lines;
mod listing;
mod page;
mod streams;

use buffers::Buffers;
use page::Page;
use std::io;
use streams::Streams;

// A proved loop has to end, and nothing says that the input does: so the pictures are counted, up to a number that no input
// uses up. What is printed of so many can still be counted.
const MOST_PICTURES: u64 = 0x1000000000000;

// How far the run has come: how many bytes of the input are held for the next picture, where the run goes on; whether a picture
// was listed; and how many bytes were handed to the C library to be written.
#[derive(Clone, Copy)]
struct Run {
    held: Option<usize>,
    listed: bool,
    written: u64,
}

// Hands the text of a page to the C library, and hands back how many bytes it has.
fn flush(streams: &mut Streams, page: &Page) -> usize
    ensures value { result ≡ length page.now }
    ensures bound { result ≤ listing_room }
{
    let text = page.text();
    streams.write(text);
    text.len()
}

// The next picture, where one begins, from the bytes held. Behind a picture no byte is no refusal, but the run's end: "only wholly
// empty input is 9 at a picture's start", which is `Refusal::End`.
fn step(streams: &mut Streams, run: Run, held: usize, buffers: &mut Buffers) -> Run
    requires held_in_bounds { held ≤ length buffers.old.input }
    requires listing_room_bound { run.written + listing_room < 2 ^ 64 }
    ensures stepped { Stepped run held buffers.old result buffers.new }
    ensures held_bound { IfSome result.held (λ left. left ≤ length buffers.new.input) }
    ensures written_bound { result.written ≤ run.written + listing_room }
{
    let held = input::fill(streams, &mut buffers.input, held);
    if (held == 0) & run.listed {
        buffers.page.clear();
        return Run { held: None, ..run };
    }
    let taken = listing::put_picture(
        &mut buffers.page,
        &buffers.input[..held],
        &mut buffers.cells,
    );
    let count = flush(streams, &buffers.page);
    Run {
        held: input::keep(&mut buffers.input, taken, held),
        listed: true,
        written: run.written + count as u64,
    }
}

// Lists all pictures, and hands back how many bytes it wrote. The buffer of the input holds a whole picture of every kind, so one that
// ends early there has ended with the input.
fn list(streams: &mut Streams, buffers: &mut Buffers) -> u64
    requires { longest_picture ≤ length buffers.old.input }
    ensures { WholeRun buffers.old result buffers.new }
{
    let mut run = Run {
        held: Some(0),
        listed: false,
        written: 0,
    };
    for _ in 0..MOST_PICTURES {
        let Some(held) = run.held else {
            break;
        };
        run = step(streams, run, held, buffers);
    }
    run.written
}

fn main(rt: HostRuntime) -> io::Result<()> {
    let mut streams = Streams::new(rt.stdin(), rt.stdout());
    let mut buffers = Buffers::new();
    list(&mut streams, &mut buffers);
    streams.outcome()
}
