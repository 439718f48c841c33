// Reading bits of bytes, most significant first.
#![tactic(auto)]

ghost use Rattle.std.specs.Prelude.{◌≡◌, ◌+◌, ◌-◌, ◌*◌, ◌/◌, ◌%◌, ◌^◌, ◌≤◌, ◌<◌, length};
ghost use Rattle.bits.specs.Bits.{bits_in, bits_of, payload, bit_at, read_within};
ghost use Rattle.bits.specs.Reader.{word_at};

// The most bytes of a payload that is decoded.
pub const LIMIT: usize = 65536;

// Why no number is read: so many bits are missing, and then none is taken; or the width is over 32.
#[derive(Clone, Copy, Debug, PartialEq, Eq)]
pub enum ReadError {
    Missing(u32),
    TooWide,
}

// The bits from a place on that are left of four bytes: the number that they write, and how many they are, 25 to 32.
#[derive(Clone, Copy)]
pub struct Word {
    pub bits: u32,
    pub width: u32,
}

// The first `count` bits of bytes, or all that the bytes hold where that is fewer.
#[derive(Clone, Copy)]
pub struct Payload<'a> {
    pub bytes: &'a [u8],
    pub count: usize,
}

impl Payload<'_> {
    // The bit at a place. The place is divided, since eight times a slice's length need not fit.
    pub fn bit(&self, place: usize) -> Option<u32>
        ensures { result ≡ bit_at (payload self.now.bytes.now self.now.count) place }
    {
        if self.count <= place {
            return None;
        }
        let at = place / 8;
        if self.bytes.len() <= at {
            return None;
        }
        Some(u32::from(self.bytes[at]) >> (7 - place % 8) & 1)
    }

    // How many bits there are. The count is divided, as the place is above.
    #[tactic(auto, using(crate::proofs::BitLaws::length_payload))]
    fn held(&self) -> usize
        ensures { result ≡ length (payload self.now.bytes.now self.now.count) }
    {
        if self.count / 8 < self.bytes.len() {
            return self.count;
        }
        self.bytes.len() * 8
    }

    // How many of them are there from a place on.
    fn left(&self, place: usize) -> usize
        ensures { result ≡ length (payload self.now.bytes.now self.now.count) - place }
    {
        self.held().saturating_sub(place)
    }

    // The number in `width` bits from a place on, by whole bytes.
    pub fn read(&self, place: usize, width: u32) -> Result<u32, ReadError>
        ensures { result ≡ read_within (payload self.now.bytes.now self.now.count) place width }
    {
        if 32 < width {
            return Err(ReadError::TooWide);
        }
        let left = self.left(place);
        if left < width as usize {
            return Err(ReadError::Missing(width - left as u32));
        }
        if width == 0 {
            return Ok(0);
        }
        let last = place + (width - 1) as usize;
        let value = number(&self.bytes[place / 8..last / 8 + 1]);
        Ok(cut(value, 7 - last % 8, width))
    }

    // The bits from a place on, as far as the four bytes go that it is in. None where not so many are left; then bits can still be read.
    pub fn word(&self, place: usize) -> Option<Word>
        ensures { result ≡ word_at (payload self.now.bytes.now self.now.count) place }
    {
        if self.left(place) < 32 {
            return None;
        }
        let at = place / 8;
        let width = 32 - (place % 8) as u32;
        let value = number(&self.bytes[at..at + 4]);
        Some(Word {
            bits: cut(value, 0, width),
            width,
        })
    }
}

// The number that at most five bytes write.
fn number(bytes: &[u8]) -> u64
    requires { length bytes.now ≤ 5 }
    ensures { bits_of bytes.now ≡ bits_in (length bytes.now * 8) result }
{
    let mut value: u64 = 0;
    for byte in bytes {
        value = value * 256 + u64::from(*byte);
    }
    value
}

// A number's last bits but those after, as many as width says.
fn cut(value: u64, after: usize, width: u32) -> u32
    requires { (after < 8) × (width ≤ 32) }
    ensures { result ≡ value / 2 ^ after % 2 ^ width }
{
    let ones: u64 = (1 << width) - 1;
    (value >> after & ones) as u32
}
