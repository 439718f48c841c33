// Document 01's examples 8 to 12 and document 02's tables, asked of the Rattle functions: a line each. A refusal is its number, PAYLOAD
// OUT with how many bits are missing. tests/payloads_oracle.py has the answers as document 01 gives them.
#![tactic(auto)]

use aec::StartError;
use bits::Payload;
use contexts::Context;
use payload::{GolombError, RemovalError};
use rates::Rate;
use std::{fmt, io};
use text::{Hex, Number, Signed};

// ── what is refused ──

// Why any of the functions refuses.
#[derive(Drop)]
enum Refused {
    Value,
    Full,
    TooLong,
    PayloadOut(u32),
    BadState,
}

impl From<RemovalError> for Refused {
    fn from(why: RemovalError) -> Refused {
        match why {
            RemovalError::Full => Refused::Full,
            RemovalError::TooLong => Refused::TooLong,
        }
    }
}

impl From<GolombError> for Refused {
    fn from(why: GolombError) -> Refused {
        match why {
            GolombError::Value => Refused::Value,
            GolombError::TooLong => Refused::TooLong,
            GolombError::PayloadOut(missing) => Refused::PayloadOut(missing),
        }
    }
}

impl From<StartError> for Refused {
    fn from(why: StartError) -> Refused {
        match why {
            StartError::TooLong => Refused::TooLong,
            StartError::PayloadOut(missing) => Refused::PayloadOut(missing),
        }
    }
}

// A bin reads bit by bit, so that one bit is missing.
impl From<aec::Refusal> for Refused {
    fn from(why: aec::Refusal) -> Refused {
        match why {
            aec::Refusal::TooLong => Refused::TooLong,
            aec::Refusal::PayloadOut => Refused::PayloadOut(1),
            aec::Refusal::BadState => Refused::BadState,
        }
    }
}

impl fmt::Display for Refused {
    fn fmt<W: fmt::Write>(&self, f: &mut fmt::Formatter<W>) -> fmt::Result {
        match self {
            Refused::Value => write!(f, "8"),
            Refused::Full => write!(f, "12"),
            Refused::TooLong => write!(f, "13"),
            Refused::PayloadOut(missing) => write!(f, "14 {}", Number(u64::from(*missing))),
            Refused::BadState => write!(f, "15"),
        }
    }
}

// What is read, or why nothing is.
#[derive(Drop)]
struct Told<T>(Result<T, Refused>);

impl<T: fmt::Display> fmt::Display for Told<T> {
    fn fmt<W: fmt::Write>(&self, f: &mut fmt::Formatter<W>) -> fmt::Result {
        match &self.0 {
            Ok(found) => write!(f, "{found}"),
            Err(why) => write!(f, "{why}"),
        }
    }
}

// ── examples 8 and 9: payloads ──

fn example_escape(rt: &impl Print) -> io::Result<()> {
    let mut out = [0xEEu8; 4];
    let removed = payload::remove_escapes(b"\x00\x00\x02\xC0", &mut out);
    let count = removed.map(|n| Number(n as u64));
    println!(rt;
        "example 8 {} {}",
        Told(count.map_err(Refused::from)),
        Hex(&out)
    )
}

fn example_golomb(rt: &impl Print, byte: u8, count: usize) -> io::Result<()> {
    let bytes = [byte];
    let payload = Payload {
        bytes: &bytes,
        count,
    };
    let unsigned = payload::unsigned_golomb(&payload, 0).map(|n| Number(u64::from(n.number)));
    let signed = payload::signed_golomb(&payload, 0).map(|n| Signed(n.number));
    print!(rt; "example 9 {}", Told(unsigned.map_err(Refused::from)))?;
    println!(rt; " {}", Told(signed.map_err(Refused::from)))
}

// ── examples 10 to 12: bins ──

// The bins, and the state and the context after them.
fn example_bins(rt: &impl Print, example: u32, bytes: &[u8], count: u32) -> io::Result<()> {
    let bits = Payload { bytes, count: 24 };
    print!(rt; "example {}", Number(u64::from(example)))?;
    let mut state = match aec::start(bits) {
        Ok(state) => state,
        Err(why) => return println!(rt; " {}", Refused::from(why)),
    };
    let mut context = Context::fresh();
    for _ in 0..count {
        let done = match aec::decode(bits, state, context) {
            Ok(done) => done,
            Err(why) => return println!(rt; " {}", Refused::from(why)),
        };
        print!(rt; " {}", Number(u64::from(done.bin)))?;
        state = done.state;
        context = done.contexts;
    }
    print!(rt;
        " {} {} {} {} {}",
        Number(u64::from(state.rs)),
        Number(u64::from(state.rt)),
        Number(u64::from(state.vs)),
        Number(u64::from(state.vt)),
        Number(state.place as u64)
    )?;
    println!(rt;
        " {} {} {}",
        Number(u64::from(context.mps)),
        Number(u64::from(context.lg)),
        Number(u64::from(context.cycno))
    )
}

// ── document 02, E9: what belongs to a rate, and its tables lent ──

fn rate(rt: &impl Print, cycno: u32) -> io::Result<()> {
    let rate = Rate::by(cycno);
    print!(rt;
        "cycno {} {} {}",
        Number(u64::from(cycno)),
        Number(u64::from(rate.width())),
        Number(u64::from(rate.gain()))
    )?;
    for lg in [1023, 1024, 0xFFFFFFFF] {
        print!(rt; " {}", Number(u64::from(entries::next_lg(rate, lg))))?;
    }
    println!(rt;)
}

fn table(rt: &impl Print, w: u32, table: &[u32; 1024]) -> io::Result<()> {
    print!(rt; "table {}", Number(u64::from(w)))?;
    for lg in table {
        print!(rt; " {}", Number(u64::from(*lg)))?;
    }
    println!(rt;)
}

fn golombs(rt: &impl Print) -> io::Result<()> {
    for (byte, count) in [(0x80, 1), (0x40, 3), (0x60, 3)] {
        example_golomb(rt, byte, count)?;
    }
    Ok(())
}

fn all_rates(rt: &impl Print) -> io::Result<()> {
    for cycno in 0..5 {
        rate(rt, cycno)?;
    }
    Ok(())
}

fn tables(rt: &impl Print) -> io::Result<()> {
    for (w, lgs) in (3u32..6).zip(&rates::tables()) {
        table(rt, w, lgs)?;
    }
    Ok(())
}

fn main(rt: HostRuntime) -> io::Result<()> {
    example_escape(&rt)?;
    golombs(&rt)?;
    example_bins(&rt, 10, b"\x80\x40\x00", 1)?;
    example_bins(&rt, 11, b"\x40\x00", 3)?;
    example_bins(&rt, 12, b"\x80\x00", 1)?;
    all_rates(&rt)?;
    tables(&rt)
}
