// Prints the CRC register over the fields of docs/VECTORS.md, a line each.
#![tactic(auto)]

ghost use Rattle.std.specs.Prelude.{◌≡◌};
ghost use Rattle.crc.specs.Crc.{preset, crc_over};

use std::io;
use std::io::Stdout;

// No field has more bytes.
const LONGEST: usize = 1024;

// The register after a field, from FFFF.
fn register(field: &[u8]) -> u16
    ensures { result ≡ crc_over preset field.now }
{
    field.iter().fold(0xFFFF, |crc, &byte| crc::step(crc, byte))
}

// A field's length and register.
fn print(out: Stdout, field: &[u8]) -> io::Result<()> {
    println!(out; "{:04X} {:04X}", field.len(), register(field))
}

fn print_single_bytes(out: Stdout) -> io::Result<()> {
    for byte in 0..=255 {
        print(out, &[byte])?;
    }
    Ok(())
}

// Document 01, Cases, and the last of them with its own CRC.
fn print_cases(out: Stdout) -> io::Result<()> {
    let cases: [&[u8]; 7] = [
        &[0xFE],
        &[0xFB],
        &[0xF8],
        &[0xA1, 0xA1, 0xA1],
        &[0xA1, 0xA1, 0xA1, 0xFE],
        &[0xFE, 0x00, 0x00, 0x01, 0x00],
        &[0xFE, 0x00, 0x00, 0x01, 0x00, 0xD2, 0xC3],
    ];
    for field in cases {
        print(out, field)?;
    }
    Ok(())
}

// All 00, all FF, and the bytes 00 to FF over and over.
fn print_longest(out: Stdout) -> io::Result<()> {
    print(out, &[0x00; LONGEST])?;
    print(out, &[0xFF; LONGEST])?;
    let mut field = [0; LONGEST];
    for (i, byte) in field.iter_mut().enumerate() {
        *byte = (i % 256) as u8;
    }
    print(out, &field)
}

// The number of the rule that makes fields.
#[derive(Drop)]
struct Rule {
    number: u16,
}

impl Rule {
    // The high byte of the next number.
    fn draw(&mut self) -> u8 {
        self.number = self.number.wrapping_mul(25173).wrapping_add(13849);
        (self.number / 256) as u8
    }

    // Draws a field's length, and then its bytes.
    fn print_field(&mut self, out: Stdout) -> io::Result<()> {
        let length = u16::from_be_bytes([self.draw(), self.draw()]) as usize % (LONGEST + 1);
        let mut room = [0; LONGEST];
        let field = &mut room[..length];
        for byte in field.iter_mut() {
            *byte = self.draw();
        }
        print(out, field)
    }
}

fn print_drawn(out: Stdout) -> io::Result<()> {
    let mut rule = Rule { number: 1 };
    for _ in 0..128 {
        rule.print_field(out)?;
    }
    Ok(())
}

fn main(rt: HostRuntime) -> io::Result<()> {
    let out = rt.stdout();
    print(out, &[])?;
    print_single_bytes(out)?;
    print_cases(out)?;
    print_longest(out)?;
    print_drawn(out)
}
