// Numbers as text.
#![tactic(auto)]

ghost use Rattle.std.specs.Prelude.{◌≡◌, ◌<◌, ◌≤◌};
ghost use Rattle.text.specs.Digits.{digit_in};
ghost use Rattle.text.specs.Hex.{digit_of, hex_of};
ghost use Rattle.text.specs.Decimal.{figures_of, places_of};

// A digit in a base of up to 36, in ASCII: capital letters stand for ten and more. Of a larger number the last one.
#[tactic(auto, unfolding(crate::specs::Digits::digit_in))]
fn digit_in<const BASE: u16>(n: u16) -> u8
    requires { (0 < BASE) × (BASE ≤ 36) }
    ensures { result ≡ digit_in BASE n }
{
    let d = (n % BASE) as u8;
    if d < 10 { d + 48 } else { d + 55 }
}

// A capital hexadecimal digit, in ASCII; of a larger number the last one.
#[tactic(auto, unfolding(crate::specs::Hex::digit_of))]
pub fn digit(n: u16) -> u8
    ensures { result ≡ digit_of n }
{
    digit_in::<16>(n)
}

// Four capital hexadecimal digits. They are written out, as the decimal ones below: a loop over a base and a size is no plainer.
#[tactic(auto, unfolding(crate::specs::Hex::hex_of))]
pub fn hex(n: u16) -> [u8; 4]
    ensures { result ≡ hex_of n }
{
    [digit(n / 4096), digit(n / 256), digit(n / 16), digit(n)]
}

// Five decimal digits, the first of them 0 where the number has fewer.
#[tactic(auto, unfolding(crate::specs::Decimal::figures_of, crate::specs::Decimal::figure_of))]
pub fn figures(n: u16) -> [u8; 5]
    ensures { result ≡ figures_of n }
{
    [
        digit_in::<10>(n / 10000),
        digit_in::<10>(n / 1000),
        digit_in::<10>(n / 100),
        digit_in::<10>(n / 10),
        digit_in::<10>(n),
    ]
}

// How many decimal digits a number has: as few as hold it, and 1 for 0.
#[tactic(auto, unfolding(crate::specs::Decimal::places_of))]
pub fn places(n: u16) -> usize
    ensures value { result ≡ places_of n }
    ensures lower_bound { (1 ≤ result) × (result ≤ 5) }
{
    if n < 10 {
        1
    } else if n < 100 {
        2
    } else if n < 1000 {
        3
    } else if n < 10000 {
        4
    } else {
        5
    }
}
