// Texts put into lent bytes from a place on: what does not fit is cut. The answer is the place after the text.
// Not write!: a formatter fails where its text does not fit, and these say which of its bytes stand. The bytes lent and the place are
// two parameters in each, and no struct: the public functions' contracts name them. The programs print the same texts by Number, Signed and
// Hex; theorems and edits hold these functions too.
#![tactic(auto)]

ghost use Rattle.std.specs.Prelude.{Some, ◌≡◌, [], ◌∷◌, ◌/◌, ◌%◌, ◌<◌};
ghost use Rattle.text.specs.Text.{Put, digit, decimal, signed, hex_digit, hex};

use std::fmt;

#[tactic(auto, using(crate::proofs::PutLaws::put_one, crate::proofs::PutLaws::put_past))]
fn put_byte(out: &mut [u8], at: usize, b: u8) -> usize
    ensures { Put at (b ∷ []) out.old result out.new }
{
    if at < out.len() {
        out[at] = b;
        return at + 1;
    }
    out.len()
}

// A text as it is.
pub fn put(out: &mut [u8], at: usize, s: &[u8]) -> usize
    ensures { Put at s.now out.old result out.new }
{
    let mut here = at.min(out.len());
    for byte in s {
        here = put_byte(out, here, *byte);
    }
    here
}

fn last_digit(n: u64) -> u8
    ensures { result ≡ digit (n % 10) }
{
    b'0' + (n % 10) as u8
}

// A number in decimal.
pub fn put_number(out: &mut [u8], at: usize, n: u64) -> usize
    ensures { Put at (decimal n) out.old result out.new }
{
    if n < 10 {
        return put_byte(out, at, last_digit(n));
    }
    let here = put_number(out, at, n / 10);
    put_byte(out, here, last_digit(n))
}

// A number in decimal, with "-" in front where it is below 0.
pub fn put_signed(out: &mut [u8], at: usize, n: i32) -> usize
    ensures { Put at (signed n) out.old result out.new }
{
    let magnitude = u64::from(n.unsigned_abs());
    if n < 0 {
        let here = put_byte(out, at, b'-');
        return put_number(out, here, magnitude);
    }
    put_number(out, at, magnitude)
}

fn hex_digit(n: u8) -> u8
    requires { n < 16 }
    ensures { result ≡ hex_digit n }
{
    if n < 10 { b'0' + n } else { b'a' - 10 + n }
}

fn put_pair(out: &mut [u8], at: usize, b: u8) -> usize
    ensures { Put at (hex_digit (b / 16) ∷ hex_digit (b % 16) ∷ []) out.old result out.new }
{
    let here = put_byte(out, at, hex_digit(b / 16));
    put_byte(out, here, hex_digit(b % 16))
}

// Bytes in hexadecimal, two digits each; "-" for none.
pub fn put_hex(out: &mut [u8], at: usize, s: &[u8]) -> usize
    ensures { Put at (hex s.now) out.old result out.new }
{
    if s.is_empty() {
        return put_byte(out, at, b'-');
    }
    let mut here = at.min(out.len());
    for byte in s {
        here = put_pair(out, here, *byte);
    }
    here
}

// A number that is printed as put_number puts it.
#[derive(Clone, Copy)]
pub struct Number(pub u64);

impl fmt::Display for Number {
    ghost output = { λ x. Some (decimal x.0) };

    #[tactic(auto, using(crate::proofs::SpellingLaws::printed_decimal))]
    fn fmt<W: fmt::Write>(&self, f: &mut fmt::Formatter<W>) -> fmt::Result {
        let Number(number) = *self;
        write!(f, "{number}")
    }
}

// A number that is printed as put_signed puts it.
#[derive(Clone, Copy)]
pub struct Signed(pub i32);

impl fmt::Display for Signed {
    ghost output = { λ x. Some (signed x.0) };

    #[tactic(auto, using(crate::proofs::SpellingLaws::printed_signed))]
    fn fmt<W: fmt::Write>(&self, f: &mut fmt::Formatter<W>) -> fmt::Result {
        let Signed(signed) = *self;
        write!(f, "{signed}")
    }
}

// Bytes that are printed as put_hex puts them.
#[derive(Clone, Copy)]
pub struct Hex<'a>(pub &'a [u8]);

impl fmt::Display for Hex<'_> {
    ghost output = { λ x. Some (hex x.0.now) };

    fn fmt<W: fmt::Write>(&self, f: &mut fmt::Formatter<W>) -> fmt::Result {
        if self.0.is_empty() {
            return write!(f, "-");
        }
        for &byte in self.0 {
            write!(f, "{byte:02x}")?;
        }
        Ok(())
    }
}
