// The arithmetic bin decoder, by value.
#![tactic(auto)]

ghost use Rattle.std.specs.Prelude.{◌≡◌, ℕ, List, Bool, true, ◌*◌, ◌/◌, ◌≤◌, ◌<◌, length, drop};
ghost use Rattle.answers.specs.Limits.{longest_payload, most_bits};
ghost use Rattle.contexts.specs.Contexts.{good_context, update_of};
ghost use Rattle.aec.specs.Bins.{Guess, good_state};
ghost use Rattle.aec.specs.Bins.{double_of, normalise_of, widen_of, settle_of, start_of};
ghost use Rattle.aec.specs.Bins.{split_of, misses_of, remainder_of, unpredicted_of, bin_of, step_of};
ghost use Rattle.aec.specs.Bins.{pair_of, plain_of, bypass_of, stuffing_of, decode_of, decode_pair_of};
ghost use Rattle.aec.specs.Says.{started_says, says, of_bin, stepped_says, decoded_says, decoded_pair_says};
ghost use Rattle.aec.specs.Inside.{itself, held, guarded_of, of_bit, of_split, of_prediction, Quickly, head_of};
ghost use Rattle.aec.specs.Inside.{bin_by, own_prediction, good_pair, pair_prediction, update_pair};

mod ranges;

use bits::{LIMIT, Payload, ReadError};
use contexts::Context;
use ranges::{Prediction, Split};

// Document 01's rS, rT, valueS and valueT, and the place of the next bit.
#[repr(C)]
#[derive(Clone, Copy)]
pub struct State {
    pub rs: u32,
    pub rt: u32,
    pub vs: u32,
    pub vt: u32,
    pub place: usize,
}

// Why a payload has no start; PayloadOut with how many bits were missing.
#[derive(Clone, Copy, Debug, PartialEq, Eq)]
pub enum StartError {
    TooLong,
    PayloadOut(u32),
}

// A bin is refused: PayloadOut for want of one bit, since it reads bit by bit. State and contexts are the caller's own.
#[derive(Clone, Copy, Debug, PartialEq, Eq)]
pub enum Refusal {
    TooLong,
    BadState,
    PayloadOut,
}

// A bin and the next state.
#[derive(Clone, Copy)]
pub struct Stepped {
    pub bin: u32,
    pub state: State,
}

// A bin, the next state and the updated contexts.
#[derive(Clone, Copy)]
pub struct Decoded<C> {
    pub bin: u32,
    pub state: State,
    pub contexts: C,
}

// The two contexts of a bin.
#[derive(Clone, Copy)]
pub struct Pair {
    pub first: Context,
    pub second: Context,
}

// A doubled number and the place after its bit.
#[derive(Clone, Copy)]
struct Doubled {
    number: u32,
    next: usize,
}

// A number that takes bits, the number that is stepped beside it, and the place of the next bit.
#[derive(Clone, Copy)]
struct Shift {
    value: u32,
    beside: u32,
    place: usize,
}

// A payload within the limit.
#[derive(Clone, Copy)]
struct Limited<'a> {
    bits: Payload<'a>,
    ghost short: { length bits.bytes.now ≤ longest_payload },
}

// Such a payload and a state within its ranges for it.
#[derive(Clone, Copy)]
struct Guarded<'a> {
    limited: Limited<'a>,
    state: State,
    ghost good: { good_state (length (held limited.bits)) state ≡ true },
}

// These, and how the range is split where the bin is not the predicted one.
#[derive(Clone, Copy)]
struct Missed<'a> {
    at: Guarded<'a>,
    split: Split,
    ghost misses: { misses_of at.state (of_split split) ≡ true },
}

// The most bits of a payload.
const MOST_BITS: u32 = 524288;

fn good_state(x: State, end: usize) -> bool
    ensures { result ≡ good_state end x }
{
    if x.vs < x.rs {
        return false;
    }
    if MOST_BITS < x.vs {
        return false;
    }
    if 255 < x.rt {
        return false;
    }
    if 255 < x.vt {
        return false;
    }
    if end < x.place {
        return false;
    }
    true
}

impl Limited<'_> {
    // The number of the payload's bits.
    fn bit_length(self) -> usize
        ensures { result ≡ length (held self.entry.bits) }
    {
        let all = self.bits.bytes.len() * 8;
        self.bits.count.min(all)
    }

    // Twice a number and the next bit: every bit but the first nine is read here.
    fn take_bit(self, value: u32, place: usize) -> Result<Doubled, Refusal>
        requires { value < 2147483648 }
        ensures { says of_bit result ≡ double_of (drop place (held self.entry.bits)) value place }
    {
        let twice = value * 2;
        match self.bits.bit(place) {
            Some(bit) => Ok(Doubled {
                number: twice + bit,
                next: place + 1,
            }),
            None => Err(Refusal::PayloadOut),
        }
    }

    // Doubles the value, with the next bits, while it is below 256, and counts how often. Not one loop with widen: what keeps the sums
    // of each within their sizes differs, and a trait with that as laws is longer than both.
    fn normalise(self, value: u32, place: usize) -> Result<Shift, Refusal>
        requires { (place ≤ length (held self.bits)) × (value < 1048576) }
        ensures { says itself result ≡ normalise_of (held self.entry.bits) value place }
    {
        let mut z = Shift {
            value,
            beside: 0,
            place,
        };
        // Not a for: how often is what is asked.
        while z.value < 256 {
            let more = self.take_bit(z.value, z.place)?;
            z = Shift {
                value: more.number,
                beside: z.beside + 1,
                place: more.next,
            };
        }
        Ok(z)
    }

    // Doubles the range while it is below 256, and the value with it, with the next bits.
    fn widen(self, value: u32, range: u32, place: usize) -> Result<Shift, Refusal>
        requires { (place ≤ length (held self.bits)) × (value < 768 * range) × (range < 512) }
        ensures { says itself result ≡ widen_of (held self.entry.bits) value range place }
    {
        let mut z = Shift {
            value,
            beside: range,
            place,
        };
        // Not a for: the range says when it ends.
        while z.beside < 256 {
            let more = self.take_bit(z.value, z.place)?;
            z = Shift {
                value: more.number,
                beside: z.beside * 2,
                place: more.next,
            };
        }
        Ok(z)
    }

    // The state of a normalised value.
    fn settle(self, rt: u32, value: u32, place: usize) -> Result<State, Refusal>
        requires { (place ≤ length (held self.bits)) × (value < 1048576) }
        ensures { says itself result ≡ settle_of (held self.entry.bits) rt value place }
    {
        let z = self.normalise(value, place)?;
        Ok(State {
            rs: 0,
            rt,
            vs: z.beside,
            vt: z.value % 256,
            place: z.place,
        })
    }
}

// The state that a payload begins with.
pub fn start(bits: Payload<'_>) -> Result<State, StartError>
    ensures { started_says result ≡ start_of bits.entry.bytes.now bits.entry.count }
{
    if LIMIT < bits.bytes.len() {
        return Err(StartError::TooLong);
    }
    let limited = Limited { bits };
    match bits.read(0, 9) {
        Ok(value) => match limited.settle(255, value, 9) {
            Ok(state) => Ok(state),
            Err(_) => Err(StartError::PayloadOut(1)), // it wants bits one by one, and refuses for nothing else
        },
        Err(ReadError::Missing(missing)) => Err(StartError::PayloadOut(missing)),
        Err(ReadError::TooWide) => Err(StartError::TooLong), // never: nine bits are asked for
    }
}

// What is refused before a bit is read.
fn guard(bits: Payload<'_>, state: State, contexts: bool) -> Result<Guarded<'_>, Refusal>
    ensures { says {B = List ℕ × State} (λ at. (held at.limited.bits, at.state)) result ≡ guarded_of bits.entry.bytes.now bits.entry.count state contexts }
{
    if LIMIT < bits.bytes.len() {
        return Err(Refusal::TooLong);
    }
    let limited = Limited { bits };
    if !good_state(state, limited.bit_length()) {
        return Err(Refusal::BadState);
    }
    if !contexts {
        return Err(Refusal::BadState);
    }
    Ok(Guarded { limited, state })
}

impl<'a> Guarded<'a> {
    // s, t and R, by whether rT reaches q.
    fn split(self, g: Prediction) -> Split
        ensures { of_split result ≡ split_of self.entry.state (g.lg / 4) }
    {
        let x = self.state;
        let q = g.lg / 4;
        if q <= x.rt {
            return Split {
                s: x.rs,
                t: x.rt - q,
                range: q,
            };
        }
        Split {
            s: x.rs + 1,
            t: 256 + x.rt - q,
            range: x.rt + q,
        }
    }

    // Whether the bin is not the predicted one.
    fn misses(self, y: Split) -> bool
        ensures { result ≡ misses_of self.entry.state (of_split y) }
    {
        let x = self.state;
        if y.s == x.vs {
            return y.t <= x.vt;
        }
        x.vs < y.s
    }

    // The state after a bin that was predicted.
    fn predicted(self, y: Split) -> State
        ensures { result ≡ record { rs = y.s; rt = y.t; vs = self.entry.state.vs; vt = self.entry.state.vt; place = self.entry.state.place } }
    {
        State {
            rs: y.s,
            rt: y.t,
            vs: self.state.vs,
            vt: self.state.vt,
            place: self.state.place,
        }
    }

    // One bin where no more than four bytes are needed. Its callers split the range and call the slow way themselves, on a copy, so
    // that the state can stay in registers: that leaves it small enough to be inlined into each.
    fn step(self, g: Prediction, y: Split) -> Option<Stepped>
        ensures { Quickly result (bin_of (held self.entry.limited.bits) self.entry.state g.p (of_split y)) }
    {
        if self.misses(y) {
            return Missed { at: self, split: y }.quick(g);
        }
        Some(Stepped {
            bin: g.p,
            state: self.predicted(y),
        })
    }

    // One bin by single bits. It splits the range itself: so it is too large to be inlined.
    fn slow(self, g: Prediction) -> Result<Stepped, Refusal>
        ensures { stepped_says result ≡ step_of (held self.entry.limited.bits) self.entry.state (of_prediction g) }
    {
        let y = self.split(g);
        if self.misses(y) {
            let state = Missed { at: self, split: y }.unpredicted()?;
            return Ok(Stepped {
                bin: 1 - g.p,
                state,
            });
        }
        Ok(Stepped {
            bin: g.p,
            state: self.predicted(y),
        })
    }

    // The same in a place of its own. Field by field: a plain copy shares the place, and the quick way then leaves the registers.
    fn copied(self) -> Guarded<'a>
        ensures { (result.limited ≡ self.entry.limited) × (result.state ≡ self.entry.state) }
    {
        let x = self.state;
        Guarded {
            limited: self.limited,
            state: State {
                rs: x.rs,
                rt: x.rt,
                vs: x.vs,
                vt: x.vt,
                place: x.place,
            },
        }
    }
}

impl Missed<'_> {
    // valueT less t. Where s is past valueS it borrows 256 and takes the next bit first.
    fn remainder(self) -> Result<Doubled, Refusal>
        ensures { says of_bit result ≡ remainder_of (held self.entry.at.limited.bits) self.entry.at.state (of_split self.entry.split) }
    {
        let x = self.at.state;
        let y = self.split;
        if y.s == x.vs {
            return Ok(Doubled {
                number: x.vt - y.t,
                next: x.place,
            });
        }
        let more = self.at.limited.take_bit(x.vt, x.place)?;
        Ok(Doubled {
            number: 256 + more.number - y.t,
            next: more.next,
        })
    }

    // valueT less t, as remainder has it, but without the bit that it borrows.
    fn head(self) -> u16
        ensures { result ≡ head_of self.entry.at.state (of_split self.entry.split) }
    {
        let x = self.at.state;
        let y = self.split;
        if y.s == x.vs {
            return (x.vt - y.t) as u16;
        }
        (256 + x.vt * 2 - y.t) as u16
    }

    // By the bits of four bytes at once, where these hold all that it takes.
    fn quick(self, g: Prediction) -> Option<Stepped>
        ensures { Quickly result (bin_of (held self.entry.at.limited.bits) self.entry.at.state g.p (of_split self.entry.split)) }
    {
        let bits = self.at.limited.bits;
        let x = self.at.state;
        let y = self.split;
        let z = renorm::renormalise(&bits, x.place, self.head(), y.s != x.vs, y.range)?;
        Some(Stepped {
            bin: 1 - g.p,
            state: State {
                rs: 0,
                rt: z.rt,
                vs: z.vs,
                vt: z.vt,
                place: x.place + z.taken as usize,
            },
        })
    }

    // The state after the bin, by single bits.
    fn unpredicted(self) -> Result<State, Refusal>
        ensures { says itself result ≡ unpredicted_of (held self.entry.at.limited.bits) self.entry.at.state (of_split self.entry.split) }
    {
        let of = self.at.limited;
        let v = self.remainder()?;
        let z = of.widen(v.number, self.split.range, v.next)?;
        of.settle(z.beside % 256, z.value, z.place)
    }
}

// A bin of no context, predicted 0.
fn plain(bits: Payload<'_>, x: State, lg: u32) -> Result<Stepped, Refusal>
    requires { (4 ≤ lg) × (lg ≤ 1023) }
    ensures { stepped_says result ≡ plain_of bits.entry.bytes.now bits.entry.count x lg }
{
    let at = guard(bits, x, true)?;
    let g = Prediction { p: 0, lg };
    match at.step(g, at.split(g)) {
        Some(done) => Ok(done),
        None => at.copied().slow(g),
    }
}

// A bypass bin.
pub fn bypass(bits: Payload<'_>, x: State) -> Result<Stepped, Refusal>
    ensures { stepped_says result ≡ bypass_of bits.entry.bytes.now bits.entry.count x }
{
    plain(bits, x, 1023)
}

// The stuffing bin. It stands where few bits are left.
pub fn stuffing(bits: Payload<'_>, x: State) -> Result<Stepped, Refusal>
    ensures { stepped_says result ≡ stuffing_of bits.entry.bytes.now bits.entry.count x }
{
    guard(bits, x, true)?.slow(Prediction { p: 0, lg: 4 })
}

// What a bin goes by: one context, or a pair.
trait Contexts: Copy {
    ghost good: { Self → Bool };

    ghost predicts: { Self → Guess };

    ghost update: { Self → ℕ → Self };

    fn are_good(self) -> bool
        ensures { result ≡ good self };

    fn prediction(self) -> Prediction
        requires { good self ≡ true }
        ensures { of_prediction result ≡ predicts self };

    fn after(self, bin: u32) -> Self
        requires { good self ≡ true }
        ensures { result ≡ update self bin };
}

impl Contexts for Context {
    ghost good = { good_context };

    ghost predicts = { own_prediction };

    ghost update = { update_of };

    fn are_good(self) -> bool {
        self.is_good()
    }

    fn prediction(self) -> Prediction {
        Prediction {
            p: self.mps,
            lg: self.lg,
        }
    }

    fn after(self, bin: u32) -> Context {
        self.updated(bin)
    }
}

impl Contexts for Pair {
    ghost good = { good_pair };

    ghost predicts = { pair_prediction };

    ghost update = { update_pair };

    fn are_good(self) -> bool {
        contexts::good_pair(self.first, self.second)
    }

    // On a tie the second's.
    fn prediction(self) -> Prediction {
        let a = self.first;
        let b = self.second;
        if a.mps == b.mps {
            let sum = a.lg + b.lg;
            return Prediction {
                p: a.mps,
                lg: sum / 2,
            };
        }
        if a.lg < b.lg {
            let apart = b.lg - a.lg;
            let lg = 1023 - apart / 2;
            return Prediction { p: a.mps, lg };
        }
        let apart = a.lg - b.lg;
        let lg = 1023 - apart / 2;
        Prediction { p: b.mps, lg }
    }

    fn after(self, bin: u32) -> Pair {
        Pair {
            first: self.first.updated(bin),
            second: self.second.updated(bin),
        }
    }
}

// A bin of its contexts, which are updated.
fn bin_by<C: Contexts>(bits: Payload<'_>, x: State, contexts: C) -> Result<Decoded<C>, Refusal>
    ensures { says of_bin result ≡ bin_by C.good C.predicts C.update bits.entry.bytes.now bits.entry.count x contexts }
{
    let at = guard(bits, x, contexts.are_good())?;
    let g = contexts.prediction();
    let done = match at.step(g, at.split(g)) {
        Some(done) => done,
        None => at.copied().slow(g)?,
    };
    Ok(Decoded {
        bin: done.bin,
        state: done.state,
        contexts: contexts.after(done.bin),
    })
}

// A bin of one context.
pub fn decode(bits: Payload<'_>, x: State, c: Context) -> Result<Decoded<Context>, Refusal>
    ensures { decoded_says result ≡ decode_of bits.entry.bytes.now bits.entry.count x c }
{
    bin_by(bits, x, c)
}

// A bin of two contexts. Both are updated.
pub fn decode_pair(
    bits: Payload<'_>,
    x: State,
    a: Context,
    b: Context,
) -> Result<Decoded<Pair>, Refusal>
    ensures { decoded_pair_says result ≡ decode_pair_of bits.entry.bytes.now bits.entry.count x a b }
{
    bin_by(
        bits,
        x,
        Pair {
            first: a,
            second: b,
        },
    )
}
