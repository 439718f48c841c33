// Bits packed into bytes, some at a time.
ghost use Rattle.std.specs.Prelude.{◌≡◌, ◌<◌, get_or};
ghost use Rattle.bits.specs.Bits.{bits_in};

use crate::kept_width;

// The bit at place j of a byte.
fn bit_of(byte: u8, j: u32) -> u32
    requires { j < 8 }
    ensures { (result ≡ get_or (bits_in 8 byte) j 0) × (result < 2) }
{
    u32::from(byte) >> (7 - j) & 1
}

// `full` bytes are written; the last k bits of `value` wait to be, and older ones are out already. The output is no field: the clauses
// that name both would say no less.
#[derive(Clone, Copy)]
pub(crate) struct Packer {
    full: usize,
    value: u32,
    k: u32,
    ghost few: { k < 8 },
}

impl Packer {
    ghost use Rattle.std.specs.Prelude.{◌+◌, ◌*◌, ◌≤◌, length, take};
    ghost use Rattle.answers.specs.Limits.{longest_payload};
    ghost use Rattle.payload.specs.Inside.{kept_width, Joined, Pushed, Filled};

    // Nothing is pushed.
    pub(crate) fn new() -> Packer
        ensures { (result.full ≡ 0) × (result.k ≡ 0) }
    {
        Packer {
            full: 0,
            value: 0,
            k: 0,
        }
    }

    // The last eight bits of the value, and after them the first width bits of a byte, one a turn.
    fn joined(self, byte: u8, width: u32) -> u32
        requires { width ≤ 8 }
        ensures { Joined self.value byte width result }
    {
        let mut value = self.value % 256;
        for j in 0..width {
            value = (value << 1) + bit_of(byte, j);
        }
        value
    }

    // The first WIDTH bits of a byte are pushed, and the oldest eight that wait then go out, if there are as many.
    fn push<const WIDTH: u32>(self, out: &mut [u8], byte: u8) -> Packer
        requires { (self.full < length out.old) × (WIDTH ≤ 8) }
        ensures { Pushed out.old out.new self result (take WIDTH (bits_in 8 byte)) }
    {
        let value = self.joined(byte, WIDTH);
        let missing = 8 - WIDTH;
        if self.k < missing {
            return Packer {
                full: self.full,
                value,
                k: self.k + WIDTH,
            };
        }
        let k = self.k - missing;
        out[self.full] = ((value >> k) % 256) as u8;
        Packer {
            full: self.full + 1,
            value,
            k,
        }
    }

    // Bits that stay of a byte after so many raw bytes 00 are pushed.
    pub(crate) fn push_kept(self, out: &mut [u8], byte: u8, zeros: usize) -> Packer
        requires { self.full < length out.old }
        ensures { Pushed out.old out.new self result (take (kept_width zeros byte) (bits_in 8 byte)) }
    {
        if kept_width(zeros, byte) == 8 {
            self.push::<8>(out, byte)
        } else {
            self.push::<6>(out, byte)
        }
    }

    // The last byte is filled with zeros and written; the answer is the bit count.
    pub(crate) fn fill(self, out: &mut [u8]) -> usize
        requires { (self.full * 8 + self.k ≤ length out.old * 8) × (self.full ≤ longest_payload) }
        ensures count { result ≡ self.full * 8 + self.k }
        ensures written { Filled out.old out.new self }
    {
        if self.k == 0 {
            return self.full * 8;
        }
        out[self.full] = ((self.value << (8 - self.k)) % 256) as u8;
        self.full * 8 + self.k as usize
    }
}
