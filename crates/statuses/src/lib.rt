// What C and Rust are answered by value: a status, which is the papers' number, with a count, the offset of a refused stream and the bit of
// a refused field; where a row's body lies; the number of a kind of unit.
#![tactic(auto)]

ghost use Rattle.std.specs.Prelude.{◌≡◌, [], ◌+◌, ◌<◌, length, get_or};
ghost use Rattle.answers.specs.Answers.{done, refused};
ghost use Rattle.startcode.specs.Kinds.{kind_of};
ghost use Rattle.bodies.specs.Answers.{fault_number, fault_bit};
ghost use Rattle.grammar.specs.Reasons.{reason_number, reason_bit, carries};
ghost use Rattle.grammar.specs.Reader.{said, walk, filing_into};
ghost use Rattle.filing.specs.Filing.{words_after};
ghost use Rattle.filing.specs.Reader.{filed};
ghost use Rattle.rows.specs.Rows.{existing};
ghost use Rattle.payload.specs.Escape.{removal, output_after};
ghost use Rattle.statuses.specs.Answers.{carried_bit, counted, filed_answer, part_at, kind_number, kind_answer};

use grammar::Reason;
use layout::Fault;
use payload::RemovalError;
use startcode::Kind;

// What a call answers: a status, the offset of a stream's refusal, how many units, numbers or bits were handed over, and the bit place
// inside the body that a refusal carries.
#[repr(C)]
#[derive(Clone, Copy)]
pub struct Answer {
    pub status: u32,
    pub offset: usize,
    pub count: usize,
    pub bit: usize,
}

// Refusals that carry nothing. Numbers and no enum, as C has them: a call answers each.
pub const FULL: u32 = 12;

const TOO_LONG: u32 = 13;

pub const NO_ROW: u32 = 16;

// In place of a bit that is not there: C has no Option.
const NO_BIT: usize = usize::MAX;

// A part of a stream.
#[repr(C)]
#[derive(Clone, Copy)]
pub struct Part {
    pub offset: usize,
    pub length: usize,
}

// So many were handed over.
pub fn handed(count: usize) -> Answer
    ensures { result ≡ counted (done count) }
{
    Answer {
        status: 0,
        offset: 0,
        count,
        bit: NO_BIT,
    }
}

// A refusal that carries nothing.
pub fn refusal(status: u32) -> Answer
    ensures { result ≡ counted (refused status []) }
{
    Answer {
        status,
        ..handed(0)
    }
}

// ── what is wrong with a body ──

// The bit that it carries.
#[tactic(auto, unfolding(bodies::specs::Answers::fault_bit))]
pub fn fault_bit(why: Fault) -> Option<usize>
    ensures { carried_bit result ≡ fault_bit why }
{
    match why {
        Fault::Short | Fault::Stuffing => None,
        Fault::Marker(at) | Fault::Value(_, at) => Some(at),
    }
}

// A body's refusal has no offset.
pub fn refused_body(why: Fault) -> Answer
    ensures { result ≡ counted (refused (fault_number why) (fault_bit why)) }
{
    Answer {
        bit: fault_bit(why).unwrap_or(NO_BIT),
        ..refusal(bodies::fault_number(why))
    }
}

// ── why a stream is refused ──

// The bit that it carries.
pub fn reason_bit(why: Reason) -> Option<usize>
    ensures { carried_bit result ≡ reason_bit why }
{
    match why {
        Reason::Body(fault) => fault_bit(fault),
        Reason::SliceOrder | Reason::SliceRow => Some(0),
        _ => None,
    }
}

// A stream's refusal has its offset.
pub fn refused_stream(why: filing::Refusal) -> Answer
    ensures { result ≡ counted (refused (reason_number why.reason) (carries why.reason why.offset)) }
{
    Answer {
        offset: why.offset,
        bit: reason_bit(why.reason).unwrap_or(NO_BIT),
        ..refusal(grammar::reason_number(why.reason))
    }
}

// ── recordings ──

// A stream is filed: its rows are written to the lent words, or it is refused and the words stay.
pub fn file(stream: &[u8], rows: &mut [u32]) -> Answer
    ensures answer { result ≡ filed_answer (filed stream.now (length rows.old)) }
    ensures words { rows.new ≡ words_after (filing_into stream.now (length rows.old)) rows.old }
{
    match filing::file(stream, rows) {
        Ok(totals) => handed(totals.units),
        Err(why) => refused_stream(why),
    }
}

// The units of a stream, or its refusal, with no row lent.
pub fn check(stream: &[u8]) -> Answer
    ensures { result ≡ counted (said length (walk stream.now)) }
{
    match filing::check(stream) {
        Ok(units) => handed(units),
        Err(why) => refused_stream(why),
    }
}

// Where the body of row i lies in the stream.
pub fn row_body(stream: &[u8], rows: &[u32], i: usize) -> Part
    ensures { result ≡ part_at (existing stream.now rows.now i) }
{
    match rows::body_at(stream, rows, i) {
        Some(body) => Part {
            offset: body.start,
            length: body.length,
        },
        None => Part {
            offset: 0,
            length: 0,
        },
    }
}

// Escape bits are removed: the bits are packed into the output, or it is refused and the output stays.
pub fn remove_escapes(raw: &[u8], output: &mut [u8]) -> Answer
    ensures answer { result ≡ counted (removal raw.now (length output.old)) }
    ensures output { output.new ≡ output_after (removal raw.now (length output.old)) raw.now output.old }
{
    match payload::remove_escapes(raw, output) {
        Ok(bits) => handed(bits),
        Err(RemovalError::Full) => refusal(FULL),
        Err(RemovalError::TooLong) => refusal(TOO_LONG),
    }
}

// The number of a unit's kind, by its code byte.
pub fn kind(code: u8) -> u32
    ensures { result ≡ kind_answer (kind_of code) }
{
    match startcode::kind_of(code) {
        Some(kind) => kind as u32,
        None => 8,
    }
}
