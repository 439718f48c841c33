// Filing of one video sequence: its units are checked, counted, and then written as rows.
#![tactic(auto)]

ghost use Rattle.std.specs.Prelude.{◌≡◌, Err, ◌∷◌, ◌++◌, ◌+◌, ◌*◌, ◌≤◌, ◌<◌, length, get_or, set, take, drop};
ghost use Rattle.std.proofs.Math.ListN;
ghost use Rattle.answers.specs.Answers.{done};
ghost use Rattle.startcode.specs.Kinds.{kind_of};
ghost use Rattle.startcode.specs.Prefix.{next_prefix};
ghost use Rattle.grammar.specs.Rows.{rows_from};
ghost use Rattle.grammar.specs.Reader.{final, said, walk_of_any, walk, filing_into};
ghost use Rattle.filing.specs.Filing.{filing_says, words_after, FiledByReading};
ghost use Rattle.filing.specs.Reader.{filed};
ghost use Rattle.filing.specs.Inside.{short_span, Spans, KeptBy, Passed, scope_after, Writable, Filed};

use bodies::Scope;
use grammar::{Reason, State};
use startcode::Kind;
use units::NextUnit;

// A refusal and its offset in the stream.
#[derive(Clone, Copy, Debug, PartialEq, Eq)]
pub struct Refusal {
    pub reason: Reason,
    pub offset: usize,
}

#[derive(Clone, Copy, Debug, PartialEq, Eq)]
pub struct Totals {
    pub units: usize,
}

// ── the first pass ──

fn is_final(state: State) -> bool
    ensures { result ≡ final state }
{
    matches!(state, State::Ended | State::Closed)
}

// A span in 16 bits: 0 where it does not fit. Not an Option, which is twice as large.
fn short_span(span: usize) -> u16
    ensures { result ≡ short_span span }
{
    u16::try_from(span).unwrap_or(0)
}

// A unit's span is kept, where there is a word for it.
fn keep_span(spans: &mut [u16], i: usize, span: usize)
    ensures { spans.new ≡ set spans.old i (short_span span) }
{
    // Not get_mut: after it a proof knows a slice's length alone.
    if i < spans.len() {
        spans[i] = short_span(span);
    }
}

// A stream is refused at an offset.
fn refused_at(reason: Reason, offset: usize) -> Result<usize, Refusal>
    ensures { result ≡ Err (record { reason = reason; offset = offset }) }
{
    Err(Refusal { reason, offset })
}

// Each unit is checked, the units are counted, and the spans of the first are kept; no word for rows is touched.
fn check_units(stream: &[u8], spans: &mut [u16]) -> Result<usize, Refusal>
    ensures { Passed stream.now spans.new result }
{
    if !startcode::prefix_at(stream, 0) {
        return refused_at(Reason::NoCode, 0);
    }
    let mut state = State::Start;
    let mut at: usize = 0;
    let mut units: usize = 0;
    // Not a for: how many units there are is found by going over them.
    while at < stream.len() {
        // No ? over one Result of a unit and a refusal: there the row's length, which this pass drops, shares a word with the offset, and
        // was worked out. The unit is taken apart at once, so that its state is copied once less.
        match units::unit_at(stream, state, at) {
            Some(
                Ok(
                    NextUnit {
                        state: next,
                        end,
                        ..
                    },
                ),
            ) => {
                keep_span(spans, units, end - at);
                state = next;
                at = end;
                units += 1;
            }
            Some(Err(reason)) => return refused_at(reason, at),
            None => return refused_at(Reason::NoCode, at),
        }
    }
    if is_final(state) {
        return Ok(units);
    }
    refused_at(Reason::Unended, at)
}

// The limit, and then the first pass.
fn check_keeping(stream: &[u8], spans: &mut [u16]) -> Result<usize, Refusal>
    ensures { (filing_says result ≡ said length (walk stream.now)) × KeptBy stream.now spans.new result }
{
    if 16777216 < stream.len() {
        return Err(Refusal {
            reason: Reason::TooLong,
            offset: 0,
        });
    }
    check_units(stream, spans)
}

// A stream is checked and no row is written: filing's answer, FULL aside.
pub fn check(stream: &[u8]) -> Result<usize, Refusal>
    ensures { filing_says result ≡ said length (walk stream.now) }
{
    check_keeping(stream, &mut [])
}

// ── the second pass ──

// Row i is written: code, offset, length. Not as_chunks_mut: after it a proof knows nothing of the slice.
fn put_row(rows: &mut [u32], i: usize, code: u8, offset: usize, length: usize)
    requires { (i * 3 + 3 ≤ ListN.length rows.old) × (offset < 4294967296) × (length < 4294967296) }
    ensures { rows.new ≡ take (i * 3) rows.old ++ (code ∷ offset ∷ length ∷ drop (i * 3 + 3) rows.old) }
{
    let at = i * 3;
    rows[at] = u32::from(code);
    rows[at + 1] = offset as u32;
    rows[at + 2] = length as u32;
}

// The scope of the extensions after a unit: a sequence header begins a group's head, a picture ends it.
fn scope_after(scope: Scope, code: u8) -> Scope
    ensures { result ≡ scope_after scope (kind_of code) }
{
    match startcode::kind_of(code) {
        Some(Kind::SequenceHeader) => Scope::Head,
        Some(Kind::IPicture | Kind::PBPicture) => Scope::Picture,
        _ => scope,
    }
}

// The span that is kept of unit i, or 0.
fn span_of(spans: &[u16], i: usize) -> usize
    ensures { (result ≡ get_or spans.now i 0) × (result < 65536) }
{
    match spans.get(i) {
        Some(span) => usize::from(*span),
        None => 0,
    }
}

// The end of unit i at an offset: by the span that the first pass kept, or searched for again.
fn end_of(stream: &[u8], spans: &[u16], i: usize, at: usize) -> usize
    requires { (at + 3 < 4294967296) × Spans (get_or spans.now i 0) at (next_prefix stream.now (at + 3)) }
    ensures { result ≡ next_prefix stream.now (at + 3) }
{
    let span = span_of(spans, i);
    if span == 0 {
        return startcode::next_prefix(stream, at + 3);
    }
    at + span
}

// The rows of a stream that is good, of so many units, into words that suffice. Nothing is judged again: a row takes the unit's code, its
// end and its scope.
fn write_rows(stream: &[u8], spans: &[u16], units: usize, rows: &mut [u32])
    requires { Writable stream.now spans.now units rows.old }
    ensures { rows.new ≡ words_after (said (rows_from 0) (walk_of_any stream.now)) rows.old }
{
    let mut scope = Scope::Picture;
    let mut at: usize = 0;
    for i in 0..units {
        let code = stream[at + 3];
        let end = end_of(stream, spans, i, at);
        let from = at + 4;
        let length = units::row_length(scope, code, &stream[from..end]);
        put_row(rows, i, code, at, length);
        scope = scope_after(scope, code);
        at = end;
    }
}

// ── filing ──

// A stream is filed, with words for the spans of its first units.
fn file_keeping(stream: &[u8], spans: &mut [u16], rows: &mut [u32]) -> Result<Totals, Refusal>
    ensures { Filed stream.now rows.old rows.new result }
{
    let units = check_keeping(stream, spans)?;
    if rows.len() / 3 < units {
        return Err(Refusal {
            reason: Reason::Full,
            offset: 0,
        });
    }
    write_rows(stream, spans, units, rows);
    Ok(Totals { units })
}

// The same with N such words, in a stack frame of its own: a function fills all its locals at its start.
fn file_with<const N: usize>(stream: &[u8], rows: &mut [u32]) -> Result<Totals, Refusal>
    requires { N ≤ 15360 }
    ensures { Filed stream.now rows.old rows.new result }
{
    let mut spans = [0u16; N];
    file_keeping(stream, &mut spans, rows)
}

// A stream is filed: its rows are written to the lent words, or it is refused and the words stay. A short stream has few words for
// spans, since all are filled before the first is kept.
pub fn file(stream: &[u8], rows: &mut [u32]) -> Result<Totals, Refusal>
    ensures answer { filing_says result ≡ filed stream.now (ListN.length rows.old) }
    ensures words { rows.new ≡ words_after (filing_into stream.now (ListN.length rows.old)) rows.old }
    ensures reading { FiledByReading stream.now rows.old rows.new result }
{
    if stream.len() < 1024 {
        return file_with::<32>(stream, rows);
    }
    if stream.len() < 16384 {
        return file_with::<256>(stream, rows);
    }
    file_with::<15360>(stream, rows)
}
