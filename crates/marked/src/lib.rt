// Exp-Golomb numbers, bins and the tables' entries by value, in C's structs and by C's parameters. A refusal gives back the place, the
// state and the contexts that were asked with, and has a mark that is no number and no bin in place of what it has none of. Beside the
// status is how many bits were missing, for PAYLOAD OUT.
#![tactic(auto)]

ghost use Rattle.std.specs.Prelude.{◌≡◌, ℕ, Err};
ghost use Rattle.payload.specs.Golomb.{golomb_refused};
ghost use Rattle.payload.specs.Reader.{golomb, signed_golomb};
ghost use Rattle.aec.specs.Bins.{start_of, bypass_of, stuffing_of, decode_of, decode_pair_of};
ghost use Rattle.aec.specs.Says.{started_says, refusal_says, stepped_says};
ghost use Rattle.marked.specs.Payloads.{told, number_answer, signed_answer, begun_answer, plain_answer, bin_answer, pair_answer, entry_number, entry_answer};

use aec::{Refusal, StartError, State, Stepped};
use bits::Payload;
use contexts::Context;
use payload::GolombError;
use rates::Rate;

// An Exp-Golomb number with the place after it.
#[repr(C)]
#[derive(Clone, Copy)]
pub struct Number {
    pub status: u32,
    pub missing: u32,
    pub number: u32,
    pub place: usize,
}

#[repr(C)]
#[derive(Clone, Copy)]
pub struct SignedNumber {
    pub status: u32,
    pub missing: u32,
    pub number: i32,
    pub place: usize,
}

#[repr(C)]
#[derive(Clone, Copy)]
pub struct Begun {
    pub status: u32,
    pub missing: u32,
    pub state: State,
}

// A bin of no context, of one and of two, with what follows it.
#[repr(C)]
#[derive(Clone, Copy)]
pub struct PlainBin {
    pub status: u32,
    pub missing: u32,
    pub bin: u32,
    pub state: State,
}

#[repr(C)]
#[derive(Clone, Copy)]
pub struct Bin {
    pub status: u32,
    pub missing: u32,
    pub bin: u32,
    pub state: State,
    pub context: Context,
}

#[repr(C)]
#[derive(Clone, Copy)]
pub struct PairBin {
    pub status: u32,
    pub missing: u32,
    pub bin: u32,
    pub state: State,
    pub first: Context,
    pub second: Context,
}

// In place of a number, a signed number, a bin and an entry that are not there: C has no Option.
const NO_NUMBER: u32 = 0xFFFFFFFF;

const NO_SIGNED_NUMBER: i32 = -2147483648;

const NO_BIN: u32 = 2;

const NO_LG: u32 = 0xFFFFFFFF;

// ── refusals ──

// The status of a refusal, and how many bits were missing.
#[derive(Clone, Copy)]
struct Told {
    status: u32,
    missing: u32,
}

impl Told {
    fn of(status: u32, missing: u32) -> Told
        ensures { result ≡ record { status = status; missing = missing } }
    {
        Told { status, missing }
    }
}

impl From<GolombError> for Told {
    ghost from_gives = { λ why result. result ≡ told (golomb_refused {A = ℕ} why) };

    fn from(why: GolombError) -> Told {
        match why {
            GolombError::Value => Told::of(8, 0),
            GolombError::TooLong => Told::of(13, 0),
            GolombError::PayloadOut(missing) => Told::of(14, missing),
        }
    }
}

impl From<StartError> for Told {
    ghost from_gives = { λ why result. result ≡ told (started_says (Err why)) };

    fn from(why: StartError) -> Told {
        match why {
            StartError::TooLong => Told::of(13, 0),
            StartError::PayloadOut(missing) => Told::of(14, missing),
        }
    }
}

impl From<Refusal> for Told {
    ghost from_gives = { λ why result. result ≡ told (refusal_says {A = ℕ} why) };

    fn from(why: Refusal) -> Told {
        match why {
            Refusal::TooLong => Told::of(13, 0),
            Refusal::BadState => Told::of(15, 0),
            Refusal::PayloadOut => Told::of(14, 1),
        }
    }
}

// ── Exp-Golomb numbers ──

// The Exp-Golomb number at a place of a payload.
pub fn unsigned_golomb(bytes: &[u8], bits: usize, place: usize) -> Number
    ensures { result ≡ number_answer place (golomb bytes.now bits place) }
{
    let payload = Payload { bytes, count: bits };
    match payload::unsigned_golomb(&payload, place) {
        Ok(found) => Number {
            status: 0,
            missing: 0,
            number: found.number,
            place: found.next,
        },
        Err(why) => {
            let told = Told::from(why);
            Number {
                status: told.status,
                missing: told.missing,
                number: NO_NUMBER,
                place,
            }
        }
    }
}

// The same as a signed number.
pub fn signed_golomb(bytes: &[u8], bits: usize, place: usize) -> SignedNumber
    ensures { result ≡ signed_answer place (signed_golomb bytes.now bits place) }
{
    let payload = Payload { bytes, count: bits };
    match payload::signed_golomb(&payload, place) {
        Ok(found) => SignedNumber {
            status: 0,
            missing: 0,
            number: found.number,
            place: found.next,
        },
        Err(why) => {
            let told = Told::from(why);
            SignedNumber {
                status: told.status,
                missing: told.missing,
                number: NO_SIGNED_NUMBER,
                place,
            }
        }
    }
}

// ── bins ──

// The state after a start on a payload.
pub fn start(bytes: &[u8], bits: usize, state: State) -> Begun
    ensures { result ≡ begun_answer state (start_of bytes.now bits) }
{
    match aec::start(Payload { bytes, count: bits }) {
        Ok(next) => Begun {
            status: 0,
            missing: 0,
            state: next,
        },
        Err(why) => {
            let told = Told::from(why);
            Begun {
                status: told.status,
                missing: told.missing,
                state,
            }
        }
    }
}

// A bin by one context.
pub fn decode(bytes: &[u8], bits: usize, state: State, context: Context) -> Bin
    ensures { result ≡ bin_answer state context (decode_of bytes.now bits state context) }
{
    match aec::decode(Payload { bytes, count: bits }, state, context) {
        Ok(done) => Bin {
            status: 0,
            missing: 0,
            bin: done.bin,
            state: done.state,
            context: done.contexts,
        },
        Err(why) => {
            let told = Told::from(why);
            Bin {
                status: told.status,
                missing: told.missing,
                bin: NO_BIN,
                state,
                context,
            }
        }
    }
}

// A bin by two contexts.
pub fn decode_pair(
    bytes: &[u8],
    bits: usize,
    state: State,
    first: Context,
    second: Context,
) -> PairBin
    ensures { result ≡ pair_answer state first second (decode_pair_of bytes.now bits state first second) }
{
    match aec::decode_pair(Payload { bytes, count: bits }, state, first, second) {
        Ok(done) => PairBin {
            status: 0,
            missing: 0,
            bin: done.bin,
            state: done.state,
            first: done.contexts.first,
            second: done.contexts.second,
        },
        Err(why) => {
            let told = Told::from(why);
            PairBin {
                status: told.status,
                missing: told.missing,
                bin: NO_BIN,
                state,
                first,
                second,
            }
        }
    }
}

fn plain_bin(answer: Result<Stepped, Refusal>, state: State) -> PlainBin
    ensures { result ≡ plain_answer state (stepped_says answer) }
{
    match answer {
        Ok(done) => PlainBin {
            status: 0,
            missing: 0,
            bin: done.bin,
            state: done.state,
        },
        Err(why) => {
            let told = Told::from(why);
            PlainBin {
                status: told.status,
                missing: told.missing,
                bin: NO_BIN,
                state,
            }
        }
    }
}

// A bypass bin.
pub fn bypass(bytes: &[u8], bits: usize, state: State) -> PlainBin
    ensures { result ≡ plain_answer state (bypass_of bytes.now bits state) }
{
    plain_bin(aec::bypass(Payload { bytes, count: bits }, state), state)
}

// A stuffing bin.
pub fn stuffing(bytes: &[u8], bits: usize, state: State) -> PlainBin
    ensures { result ≡ plain_answer state (stuffing_of bytes.now bits state) }
{
    plain_bin(aec::stuffing(Payload { bytes, count: bits }, state), state)
}

// ── the tables of context steps ──

fn entry_number(entry: Option<u32>) -> u32
    ensures { result ≡ entry_number entry }
{
    entry.unwrap_or(NO_LG)
}

// The entry of the table for w, which is 3, 4 or 5, at an index. No TryFrom: nothing else has w as a number.
pub fn next_lg(w: u32, index: u32) -> u32
    ensures { result ≡ entry_answer w index }
{
    match w {
        3 => entry_number(entries::entry_at(Rate::Three, index)),
        4 => entry_number(entries::entry_at(Rate::Four, index)),
        5 => entry_number(entries::entry_at(Rate::Five, index)),
        _ => NO_LG,
    }
}
