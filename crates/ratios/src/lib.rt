// Frame rates and display ratios, by their codes in a sequence header.
#![tactic(auto)]

ghost use Rattle.std.specs.Prelude.{◌≡◌};
ghost use Rattle.ratios.specs.Ratios.{entry_of, frame_rate, display_ratio};

// A fraction by its numerator and denominator.
#[derive(Clone, Copy)]
pub struct Fraction(pub u32, pub u32);

// Frame rates, by codes from 1 on.
static FRAME_RATES: [Fraction; 8] = [
    Fraction(24000, 1001),
    Fraction(24, 1),
    Fraction(25, 1),
    Fraction(30000, 1001),
    Fraction(30, 1),
    Fraction(50, 1),
    Fraction(60000, 1001),
    Fraction(60, 1),
];

// Display ratios, by aspect codes from 2 on.
static DISPLAY_RATIOS: [Fraction; 3] = [Fraction(4, 3), Fraction(16, 9), Fraction(221, 100)];

// The entry of a code, in a table whose entries have the codes from `first` on.
fn entry(first: u32, table: &[Fraction], code: u32) -> Option<Fraction>
    ensures { result ≡ entry_of first table.now code }
{
    let i = code.checked_sub(first)?;
    table.get(i as usize).copied()
}

// The frame rate of a code.
#[tactic(auto, unfolding(crate::specs::Ratios::frame_rate))]
pub fn frame_rate(code: u32) -> Option<Fraction>
    ensures { result ≡ frame_rate code }
{
    entry(1, &FRAME_RATES, code)
}

// The display ratio of an aspect code.
#[tactic(auto, unfolding(crate::specs::Ratios::display_ratio))]
pub fn display_ratio(aspect: u32) -> Option<Fraction>
    ensures { result ≡ display_ratio aspect }
{
    entry(2, &DISPLAY_RATIOS, aspect)
}
