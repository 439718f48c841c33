// Payloads: removal of escape bits, and Exp-Golomb numbers.
#![tactic(auto)]

ghost use Rattle.std.specs.Prelude.{◌≡◌, cond, [], ◌++◌, ◌+◌, ◌*◌, ◌≤◌, ◌<◌, eqb, length, get_or, take, drop};
ghost use Rattle.answers.specs.Limits.{longest_payload};
ghost use Rattle.bits.specs.Bits.{payload};
ghost use Rattle.payload.specs.Escape.{removal, output_after, removed_says};
ghost use Rattle.payload.specs.Golomb.{golomb_says, read_refused, stands_for};
ghost use Rattle.payload.specs.Reader.{zeros_on, golomb, signed_golomb};
ghost use Rattle.payload.specs.Inside.{kept_width, Copied};

mod packer;

use bits::{LIMIT, Payload, ReadError};
use packer::Packer;

// ── escape removal ──

// Why nothing is removed: the output is shorter than the payload, or the payload is over its limit.
#[derive(Clone, Copy, Debug, PartialEq, Eq)]
pub enum RemovalError {
    Full,
    TooLong,
}

// How many bits stay of a byte after so many raw bytes 00.
fn kept_width(zeros: usize, byte: u8) -> u32
    ensures { result ≡ kept_width zeros byte }
{
    if zeros < 2 {
        return 8;
    }
    if byte == 2 { 6 } else { 8 }
}

// The raw bytes 00 just before the next byte.
fn zeros_after(zeros: usize, byte: u8) -> usize
    requires { zeros < longest_payload }
    ensures { result ≡ cond (eqb byte 0) (zeros + 1) 0 }
{
    if byte == 0 { zeros + 1 } else { 0 }
}

// The bits that stay are pushed; the last byte may be still to be written.
fn copy_bits(raw: &[u8], out: &mut [u8]) -> Packer
    requires { (length raw.now ≤ longest_payload) × (length raw.now ≤ length out.old) }
    ensures { Copied raw.now out.old out.new result }
{
    let mut packer = Packer::new();
    let mut zeros: usize = 0;
    for &byte in raw {
        packer = packer.push_kept(out, byte, zeros);
        zeros = zeros_after(zeros, byte);
    }
    packer
}

// Escape bits are removed from raw bytes into out; the answer is how many bits are left.
pub fn remove_escapes(raw: &[u8], out: &mut [u8]) -> Result<usize, RemovalError>
    ensures answer { removed_says result ≡ removal raw.now (length out.old) }
    ensures output { out.new ≡ output_after (removal raw.now (length out.old)) raw.now out.old }
{
    if LIMIT < raw.len() {
        return Err(RemovalError::TooLong);
    }
    if out.len() < raw.len() {
        return Err(RemovalError::Full);
    }
    let packer = copy_bits(raw, out);
    Ok(packer.fill(out))
}

// ── Exp-Golomb numbers ──

// A number and the place after it.
#[derive(Clone, Copy)]
pub struct Numbered<T> {
    pub number: T,
    pub next: usize,
}

// Why there is no number: it does not fit 32 bits, the payload is over its limit, or so many bits are missing.
#[derive(Clone, Copy, Debug, PartialEq, Eq)]
pub enum GolombError {
    Value,
    TooLong,
    PayloadOut(u32),
}

impl From<ReadError> for GolombError {
    ghost from_gives = { λ error result. result ≡ read_refused error };

    fn from(error: ReadError) -> GolombError {
        match error {
            ReadError::Missing(missing) => GolombError::PayloadOut(missing),
            ReadError::TooWide => GolombError::Value, // never: at most 31 bits are read
        }
    }
}

// How many zeros stand from a place on before a 1, and the place after that 1.
fn count_zeros(bits: &Payload<'_>, place: usize) -> Result<Numbered<u32>, GolombError>
    requires { length bits.now.bytes.now ≤ longest_payload }
    ensures { result ≡ zeros_on 0 place (drop place (payload bits.now.bytes.now bits.now.count)) }
{
    let mut next = place;
    for zeros in 0..32 {
        let Some(bit) = bits.bit(next) else {
            return Err(GolombError::PayloadOut(1));
        };
        next += 1;
        if bit != 0 {
            return Ok(Numbered {
                number: zeros,
                next,
            });
        }
    }
    Err(GolombError::Value)
}

// The unsigned number at a place of a payload.
pub fn unsigned_golomb(bits: &Payload<'_>, place: usize) -> Result<Numbered<u32>, GolombError>
    ensures { golomb_says result ≡ golomb bits.now.bytes.now bits.now.count place }
{
    if LIMIT < bits.bytes.len() {
        return Err(GolombError::TooLong);
    }
    let zeros = count_zeros(bits, place)?;
    let rest = bits.read(zeros.next, zeros.number)?;
    let one: u32 = 1;
    Ok(Numbered {
        number: (one << zeros.number) - 1 + rest,
        next: zeros.next + zeros.number as usize,
    })
}

// The signed number that an unsigned one stands for.
fn stands_for(n: u32) -> i32
    requires { n < 4294967295 }
    ensures { result ≡ stands_for n }
{
    if n % 2 == 1 {
        ((n + 1) / 2) as i32
    } else {
        -((n / 2) as i32)
    }
}

// The signed number at a place of a payload.
pub fn signed_golomb(bits: &Payload<'_>, place: usize) -> Result<Numbered<i32>, GolombError>
    ensures { golomb_says result ≡ signed_golomb bits.now.bytes.now bits.now.count place }
{
    let unsigned = unsigned_golomb(bits, place)?;
    Ok(Numbered {
        number: stands_for(unsigned.number),
        next: unsigned.next,
    })
}
