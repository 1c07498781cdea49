// Prints where `Refusal::Machine` begins. For each count of each activity, and for the ring, a line has the last number that is taken
// and the first that is refused, each with what the four calls that take a machine give. The numbers are document 01's,
// written out here, so that one that is wrong in the code and in its definition alike shows.
#![tactic(auto)]

ghost use Rattle.std.specs.Prelude.{◌<◌};

mod calls;
mod counts;
mod tried;

use counts::Count;
use std::io;
use std::io::Stdout;
use tried::Tried;

// What is tried for a count: the largest number that is taken, and the next, which is refused.
fn up_to(count: Count, largest: u16) -> (Tried, Tried)
    requires { largest < 65535 }
{
    (
        Tried::counting(count, largest),
        Tried::counting(count, largest + 1),
    )
}

// Each count by its name, up to the largest number that is taken.
fn bounds() -> [(&'static str, (Tried, Tried)); 16] {
    [
        // "MFM (32 us) 188, 375, 625, 938"; "settle for 469 (FM) or 938 (MFM) byte times".
        ("seek left", up_to(Count::SeekLeft, 938)),
        ("stop left", up_to(Count::StopLeft, 938)),
        ("settle left", up_to(Count::SettleLeft, 938)),
        // "the fifth ends the command"; "three flagged A1 cells"; "mark FE and six unflagged cells".
        ("search pulses", up_to(Count::SearchPulses, 4)),
        ("search run", up_to(Count::SearchRun, 3)),
        ("search passed", up_to(Count::SearchPassed, 5)),
        ("hunt pulses", up_to(Count::HuntPulses, 4)),
        ("hunt run", up_to(Count::HuntRun, 3)),
        ("address passed", up_to(Count::AddressPassed, 5)),
        // "128, 256, 512, 1,024" and the two CRC cells; "among the first .. 43 (MFM) cells after the ID's last".
        ("window left", up_to(Count::WindowLeft, 1026)),
        ("window passed", up_to(Count::WindowPassed, 42)),
        ("window run", up_to(Count::WindowRun, 3)),
        ("data left", up_to(Count::DataLeft, 1026)),
        // "Then the data, two CRC bytes, one FF"; "MFM from 23: twelve 00, three flagged A1, mark", which is at 38.
        ("preamble left", up_to(Count::PreambleLeft, 1027)),
        ("preamble passed", up_to(Count::PreamblePassed, 37)),
        ("put left", up_to(Count::PutLeft, 1027)),
    ]
}

fn print_line(out: Stdout, name: &str, taken: Tried, refused: Tried) -> io::Result<()> {
    println!(out; "{name} {taken}, {refused}")
}

fn print_counts(out: Stdout) -> io::Result<()> {
    for (name, (taken, refused)) in bounds() {
        print_line(out, name, taken, refused)?;
    }
    Ok(())
}

// "position not below L, L out of range"; "outside 2,048..10,416".
fn print_rings(out: Stdout) -> io::Result<()> {
    print_line(
        out,
        "position",
        Tried::at_position(2047),
        Tried::at_position(2048),
    )?;
    print_line(
        out,
        "shortest length",
        Tried::of_length(2048),
        Tried::of_length(2047),
    )?;
    print_line(
        out,
        "longest length",
        Tried::of_length(10416),
        Tried::of_length(10417),
    )
}

fn main(rt: HostRuntime) -> io::Result<()> {
    let out = rt.stdout();
    println!(out;
        "count last-taken: load read byte-time run, first-refused: load read byte-time run"
    )?;
    print_counts(out)?;
    print_rings(out)
}
