// Renormalisation after a bin that was not predicted, by the next 25 to 32 bits at once.
#![tactic(auto)]

ghost use Rattle.std.specs.Prelude.{◌≡◌, ◌+◌, ◌-◌, ◌*◌, ◌≤◌, ◌<◌};
ghost use Rattle.bits.specs.Bits.{payload};
ghost use Rattle.renorm.specs.Reader.{doublings_of, needed_of, left_of, shifted_of, renormalise_of};

use bits::Payload;

// rT, valueS and valueT after it, and how many bits it took.
#[derive(Clone, Copy)]
pub struct Registers {
    pub rt: u32,
    pub vs: u32,
    pub vt: u32,
    pub taken: u32,
}

// How often a range is doubled until it is 256 or more.
fn doublings(range: u32) -> u32
    ensures { (result ≡ doublings_of range) × (result ≤ 9) }
{
    range.leading_zeros().saturating_sub(23)
}

// How many of its last `left` bits a value takes until it is 256 or more.
fn needed(value: u64, left: u32) -> u32
    requires { left ≤ 32 }
    ensures { result ≡ needed_of value left }
{
    (value.leading_zeros() + left).saturating_sub(55)
}

// Both loops at once, over a value whose last `left` bits, of `width` that were there, are still to be taken. The value stays: what is
// left of it to be taken falls. None where the bits at hand are too few.
fn shifted(value: u64, left: u32, width: u32, range: u32) -> Option<Registers>
    requires { (24 ≤ left) × (left ≤ width) × (width ≤ 32) }
    ensures { result ≡ shifted_of value left width range }
{
    let k = doublings(range);
    let most = left - k;
    let n = needed(value, most);
    if most < n {
        return None;
    }
    let rest = most - n;
    Some(Registers {
        rt: (range << k) % 256,
        vs: n,
        vt: ((value >> rest) % 256) as u32,
        taken: width - rest,
    })
}

// How many of the bits are left where the first is borrowed.
fn left_of(width: u32, borrows: bool) -> u32
    requires { 1 ≤ width }
    ensures { result ≡ left_of width borrows }
{
    if borrows { width - 1 } else { width }
}

// From `head`, which is valueT less t; where it borrows, the next bit is added to it first. None where the bits at hand are too few: bits are
// then to be taken one by one.
pub fn renormalise(
    bits: &Payload<'_>,
    place: usize,
    head: u16,
    borrows: bool,
    range: u32,
) -> Option<Registers>
    ensures { result ≡ renormalise_of (payload bits.now.bytes.now bits.now.count) place head borrows range }
{
    let word = bits.word(place)?;
    let left = left_of(word.width, borrows);
    let value = (u64::from(head) << left) + u64::from(word.bits);
    shifted(value, left, word.width, range)
}
