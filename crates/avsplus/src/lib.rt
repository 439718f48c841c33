// What C and Rust call: a function of the library each, under C's name.
#![tactic(auto)]

ghost use Rattle.std.specs.Prelude.{◌≡◌, length};
ghost use Rattle.answers.specs.Answers.{done, map_done};
ghost use Rattle.startcode.specs.Kinds.{kind_of};
ghost use Rattle.startcode.specs.Prefix.{next_prefix};
ghost use Rattle.bodies.specs.Reader as reader;
ghost use Rattle.ratios.specs.Ratios.{frame_rate, display_ratio};
ghost use Rattle.grammar.specs.Reader.{said, walk, filing_into};
ghost use Rattle.filing.specs.Filing.{words_after};
ghost use Rattle.filing.specs.Reader.{filed};
ghost use Rattle.rows.specs.Rows.{row_exists, existing};
ghost use Rattle.groups.specs.Reader.{group_at};
ghost use Rattle.payload.specs.Escape.{removal, output_after};
ghost use Rattle.payload.specs.Reader.{golomb, signed_golomb};
ghost use Rattle.contexts.specs.Contexts.{fresh_context};
ghost use Rattle.aec.specs.Bins.{start_of, bypass_of, stuffing_of, decode_of, decode_pair_of};
ghost use Rattle.statuses.specs.Answers.{counted, filed_answer, part_at, kind_answer};
ghost use Rattle.handover.specs.Answers.{answered, after};
ghost use Rattle.handover.specs.Numbers.{header_numbers, ratio_numbers, scope_for, extension_numbers, group_numbers};
ghost use Rattle.marked.specs.Payloads.{number_answer, signed_answer, begun_answer, plain_answer, bin_answer, pair_answer, entry_answer};
ghost use Rattle.avsplus.specs.Interface.{version};

use aec::State;
use contexts::Context;
use marked::{Begun, Bin, Number, PairBin, PlainBin, SignedNumber};
use statuses::{Answer, Part};

// The number of this interface.
#[unsafe(no_mangle)]
pub extern "C" fn avsplus_version() -> u32
    ensures { result ≡ version }
{
    3
}

// ── recordings ──

// A stream is filed: its rows are written to the lent words, or it is refused and the words stay.
#[unsafe(no_mangle)]
pub extern "C" fn avsplus_file(stream: &[u8], rows: &mut [u32]) -> Answer
    ensures answer { result ≡ filed_answer (filed stream.now (length rows.old)) }
    ensures words { rows.new ≡ words_after (filing_into stream.now (length rows.old)) rows.old }
{
    statuses::file(stream, rows)
}

// The units of a stream, or its refusal, with no row lent.
#[unsafe(no_mangle)]
pub extern "C" fn avsplus_check(stream: &[u8]) -> Answer
    ensures { result ≡ counted (said length (walk stream.now)) }
{
    statuses::check(stream)
}

// Whether row i exists.
#[unsafe(no_mangle)]
pub extern "C" fn avsplus_row_exists(stream: &[u8], rows: &[u32], i: usize) -> bool
    ensures { result ≡ row_exists stream.now rows.now i }
{
    rows::row_exists(stream, rows, i)
}

// Where the body of row i lies in the stream.
#[unsafe(no_mangle)]
pub extern "C" fn avsplus_row_body(stream: &[u8], rows: &[u32], i: usize) -> Part
    ensures { result ≡ part_at (existing stream.now rows.now i) }
{
    statuses::row_body(stream, rows, i)
}

// Group g: its sequence header, and its display extension where that is given.
#[unsafe(no_mangle)]
pub extern "C" fn avsplus_group(stream: &[u8], g: usize, numbers: &mut [u64]) -> Answer
    ensures answer { result ≡ answered (map_done group_numbers (group_at stream.now g)) numbers.old }
    ensures numbers { numbers.new ≡ after (map_done group_numbers (group_at stream.now g)) numbers.old }
{
    handover::group(stream, g, numbers)
}

// ── bodies ──

// A sequence header's body.
#[unsafe(no_mangle)]
pub extern "C" fn avsplus_sequence_header(body: &[u8], numbers: &mut [u64]) -> Answer
    ensures answer { result ≡ answered (map_done header_numbers (reader.header_of body.now)) numbers.old }
    ensures numbers { numbers.new ≡ after (map_done header_numbers (reader.header_of body.now)) numbers.old }
{
    handover::sequence_header(body, numbers)
}

// An extension's body: its number, and what it says where it is not opaque.
#[unsafe(no_mangle)]
pub extern "C" fn avsplus_extension(body: &[u8], head: bool, numbers: &mut [u64]) -> Answer
    ensures answer { result ≡ answered (map_done extension_numbers (reader.extension_of (scope_for head) body.now)) numbers.old }
    ensures numbers { numbers.new ≡ after (map_done extension_numbers (reader.extension_of (scope_for head) body.now)) numbers.old }
{
    handover::extension(body, head, numbers)
}

// The frame rate of a code, given or not given.
#[unsafe(no_mangle)]
pub extern "C" fn avsplus_frame_rate(code: u32, numbers: &mut [u64]) -> Answer
    ensures answer { result ≡ answered (done (ratio_numbers (frame_rate code))) numbers.old }
    ensures numbers { numbers.new ≡ after (done (ratio_numbers (frame_rate code))) numbers.old }
{
    handover::frame_rate(code, numbers)
}

// The display ratio of an aspect, given or not given.
#[unsafe(no_mangle)]
pub extern "C" fn avsplus_display_ratio(aspect: u32, numbers: &mut [u64]) -> Answer
    ensures answer { result ≡ answered (done (ratio_numbers (display_ratio aspect))) numbers.old }
    ensures numbers { numbers.new ≡ after (done (ratio_numbers (display_ratio aspect))) numbers.old }
{
    handover::display_ratio(aspect, numbers)
}

// ── payloads ──

// Escape bits are removed: the bits are packed into the output, or it is refused and the output stays.
#[unsafe(no_mangle)]
pub extern "C" fn avsplus_remove_escapes(raw: &[u8], output: &mut [u8]) -> Answer
    ensures answer { result ≡ counted (removal raw.now (length output.old)) }
    ensures output { output.new ≡ output_after (removal raw.now (length output.old)) raw.now output.old }
{
    statuses::remove_escapes(raw, output)
}

// The Exp-Golomb number at a place of a payload.
#[unsafe(no_mangle)]
pub extern "C" fn avsplus_unsigned_golomb(bytes: &[u8], bits: usize, place: usize) -> Number
    ensures { result ≡ number_answer place (golomb bytes.now bits place) }
{
    marked::unsigned_golomb(bytes, bits, place)
}

// The same as a signed number.
#[unsafe(no_mangle)]
pub extern "C" fn avsplus_signed_golomb(bytes: &[u8], bits: usize, place: usize) -> SignedNumber
    ensures { result ≡ signed_answer place (signed_golomb bytes.now bits place) }
{
    marked::signed_golomb(bytes, bits, place)
}

// ── bins ──

// A fresh context.
#[unsafe(no_mangle)]
pub extern "C" fn avsplus_fresh_context() -> Context
    ensures { result ≡ fresh_context }
{
    Context::fresh()
}

// The state after a start on a payload.
#[unsafe(no_mangle)]
pub extern "C" fn avsplus_start(bytes: &[u8], bits: usize, state: State) -> Begun
    ensures { result ≡ begun_answer state (start_of bytes.now bits) }
{
    marked::start(bytes, bits, state)
}

// A bin by one context.
#[unsafe(no_mangle)]
pub extern "C" fn avsplus_decode(bytes: &[u8], bits: usize, state: State, context: Context) -> Bin
    ensures { result ≡ bin_answer state context (decode_of bytes.now bits state context) }
{
    marked::decode(bytes, bits, state, context)
}

// A bin by two contexts.
#[unsafe(no_mangle)]
pub extern "C" fn avsplus_decode_pair(
    bytes: &[u8],
    bits: usize,
    state: State,
    first: Context,
    second: Context,
) -> PairBin
    ensures { result ≡ pair_answer state first second (decode_pair_of bytes.now bits state first second) }
{
    marked::decode_pair(bytes, bits, state, first, second)
}

// A bypass bin.
#[unsafe(no_mangle)]
pub extern "C" fn avsplus_bypass(bytes: &[u8], bits: usize, state: State) -> PlainBin
    ensures { result ≡ plain_answer state (bypass_of bytes.now bits state) }
{
    marked::bypass(bytes, bits, state)
}

// A stuffing bin.
#[unsafe(no_mangle)]
pub extern "C" fn avsplus_stuffing(bytes: &[u8], bits: usize, state: State) -> PlainBin
    ensures { result ≡ plain_answer state (stuffing_of bytes.now bits state) }
{
    marked::stuffing(bytes, bits, state)
}

// The entry of the table of context steps for w at an lg.
#[unsafe(no_mangle)]
pub extern "C" fn avsplus_next_lg(w: u32, lg: u32) -> u32
    ensures { result ≡ entry_answer w lg }
{
    marked::next_lg(w, lg)
}

// ── start codes ──

// The place of the next 00 00 01, or the stream's length.
#[unsafe(no_mangle)]
pub extern "C" fn avsplus_next_start_code(stream: &[u8], from: usize) -> usize
    ensures { result ≡ next_prefix stream.now from }
{
    startcode::next_prefix(stream, from)
}

// The number of a unit's kind, by its code byte.
#[unsafe(no_mangle)]
pub extern "C" fn avsplus_kind(code: u8) -> u32
    ensures { result ≡ kind_answer (kind_of code) }
{
    statuses::kind(code)
}
