// Document 01's header H and examples 1 to 7, asked of the Rattle functions: a line each. A refusal is its number, its offset
// and its bit, - where it has none. tests/examples_oracle.py has the answers as the papers give them.
#![tactic(auto)]

use filing::{Refusal, Totals};
use std::{fmt, io};
use text::Number;

// ── H ──

const H: [u8; 15] = *b"\x48\x40\x0F\x00\x21\xC2\x4C\xC4\xE2\x08\x00\x20\x02\x00\x80";

fn example_header(rt: &impl Print) -> io::Result<()> {
    match bodies::sequence_header(&H) {
        Ok(h) => println!(rt;
            "H {} {} {} {} {}",
            Number(u64::from(h.horizontal)),
            Number(u64::from(h.vertical)),
            Number(u64::from(h.bitrate)),
            Number(u64::from(macroblocks::macroblock_columns(h))),
            Number(u64::from(macroblocks::macroblock_rows(h)))
        ),
        Err(_) => println!(rt;),
    }
}

// ── examples 1 to 7: streams ──

// Filed, with the number of units, or refused.
#[derive(Drop)]
struct Told(Result<Totals, Refusal>);

impl fmt::Display for Told {
    fn fmt<W: fmt::Write>(&self, f: &mut fmt::Formatter<W>) -> fmt::Result {
        match self.0 {
            Ok(totals) => write!(f, "0 {}", Number(totals.units as u64)),
            Err(why) => {
                let number = Number(u64::from(grammar::reason_number(why.reason)));
                let offset = Number(why.offset as u64);
                write!(f, "{number} {offset} ")?;
                match statuses::reason_bit(why.reason) {
                    Some(bit) => write!(f, "{}", Number(bit as u64)),
                    None => write!(f, "-"),
                }
            }
        }
    }
}

// The answer, and every word lent.
fn file(rt: &impl Print, example: u32, stream: &[u8], rows: &mut [u32]) -> io::Result<()> {
    let number = Number(u64::from(example));
    print!(rt; "example {number} {}", Told(filing::file(stream, rows)))?;
    for word in rows {
        print!(rt; " {}", Number(u64::from(*word)))?;
    }
    println!(rt;)
}

const STREAM: [u8; 33] =
    *b"\x00\x00\x01\xB0\x48\x40\x0F\x00\x21\xC2\x4C\xC4\xE2\x08\x00\x20\x02\x00\x80\x00\x00\x01\xB3\x80\x00\x00\x01\x00\x80\x00\x00\x01\xB1";

// The example, so many bytes of example 1's stream and words lent, and its bytes 18 and 27: H's last byte and the slice's code byte.
const EXAMPLES: [(u32, usize, usize, u8, u8); 8] = [
    (1, 33, 12, 0x80, 0x00),
    (2, 33, 11, 0x80, 0x00),
    (3, 29, 12, 0x80, 0x00),
    (4, 32, 12, 0x80, 0x00),
    (5, 0, 12, 0x80, 0x00),
    (6, 33, 12, 0x00, 0x00),
    (7, 33, 12, 0x80, 0x44),
    (7, 33, 12, 0x80, 0x43),
];

// Each word lent is 9 before the call.
fn example_streams(rt: &impl Print) -> io::Result<()> {
    for (example, bytes, words, last, slice) in EXAMPLES {
        let mut stream = STREAM;
        stream[18] = last;
        stream[27] = slice;
        let lent = &stream[..bytes.min(stream.len())];
        let mut rows = [9u32; 12];
        let room = words.min(rows.len());
        file(rt, example, lent, &mut rows[..room])?;
    }
    Ok(())
}

fn main(rt: HostRuntime) -> io::Result<()> {
    example_header(&rt)?;
    example_streams(&rt)
}
