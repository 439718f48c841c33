// What a Rattle caller can ask of bits, start codes, header records and rows, and the C boundary cannot: a line each, the question and
// its answer. tests/reads_oracle.py reads the questions from this file, works the answers out by itself, and says what the numbers are.
#![tactic(auto)]

use bits::{Payload, ReadError};
use bodies::SequenceHeader;
use std::{fmt, io};
use text::{Hex, Number};

// ── bits ──

// A bit, or that there is none.
#[derive(Drop)]
struct Shown(Option<u32>);

impl fmt::Display for Shown {
    fn fmt<W: fmt::Write>(&self, f: &mut fmt::Formatter<W>) -> fmt::Result {
        match self.0 {
            Some(value) => write!(f, "{}", Number(u64::from(value))),
            None => write!(f, "none"),
        }
    }
}

// A number, or why there is none.
#[derive(Drop)]
struct Told(Result<u32, ReadError>);

impl fmt::Display for Told {
    fn fmt<W: fmt::Write>(&self, f: &mut fmt::Formatter<W>) -> fmt::Result {
        match self.0 {
            Ok(number) => write!(f, "{}", Number(u64::from(number))),
            Err(ReadError::Missing(count)) => write!(f, "missing {}", Number(u64::from(count))),
            Err(ReadError::TooWide) => write!(f, "wide"),
        }
    }
}

const HELD: [u8; 7] = *b"\x80\x40\xFF\xFF\xFF\xFF\x9A";

// So many bytes lent, the bit count, the place and the width: widths 0, 1, 32 and 33; at, across and past the end of the bytes, of the
// count and of what a number holds.
const READS: [(usize, usize, usize, u32); 24] = [
    (7, 56, 0, 0),
    (7, 56, 0, 9),
    (7, 56, 9, 1),
    (7, 56, 15, 32),
    (7, 56, 16, 32),
    (7, 56, 24, 32),
    (7, 56, 25, 32),
    (7, 56, 16, 33),
    (7, 56, 55, 1),
    (7, 56, 56, 0),
    (7, 56, 56, 1),
    (7, 56, 56, 32),
    (7, 56, 99, 0),
    (7, 56, 99, 9),
    (7, 17, 16, 1),
    (7, 17, 16, 2),
    (7, 17, 0, 32),
    (7, 0, 0, 1),
    (2, 99, 0, 16),
    (2, 99, 0, 17),
    (0, 8, 0, 0),
    (0, 8, 0, 1),
    (7, 18446744073709551615, 18446744073709551615, 1),
    (7, 18446744073709551615, 30, 32),
];

fn read(rt: &impl Print, bytes: &[u8], count: usize, place: usize, width: u32) -> io::Result<()> {
    let payload = Payload { bytes, count };
    let bit = Shown(payload.bit(place));
    let number = Told(payload.read(place, width));
    println!(rt;
        "read {} {} {} {} {bit} {number}",
        Hex(bytes),
        Number(count as u64),
        Number(place as u64),
        Number(u64::from(width))
    )
}

fn reads(rt: &impl Print) -> io::Result<()> {
    let held = HELD;
    for (lent, count, place, width) in READS {
        read(rt, &held[..lent.min(held.len())], count, place, width)?;
    }
    Ok(())
}

// ── prefixes ──

const PREFIXES: [u8; 17] = *b"\x00\x00\x01\x00\x00\x00\x01\x00\x01\x00\x00\x02\x00\x00\x01\x00\x00";

// Each of its places, beside them, with a byte too few, and past the end.
const PREFIX_PLACES: [usize; 10] = [0, 1, 3, 4, 6, 9, 12, 15, 17, 18446744073709551615];

fn prefixes(rt: &impl Print) -> io::Result<()> {
    for at in PREFIX_PLACES {
        let there = Number(u64::from(startcode::prefix_at(&PREFIXES, at)));
        println!(rt; "prefix {} {there}", Number(at as u64))?;
    }
    Ok(())
}

// ── macroblocks ──

// Progressive or not, the width and the height: whole division at its edges; records that no body gives, which are progressive from 1
// on; the greatest numbers.
const PICTURES: [(u32, u32, u32); 20] = [
    (1, 1, 16),
    (0, 1, 16),
    (1, 17, 17),
    (0, 17, 17),
    (1, 720, 32),
    (0, 720, 32),
    (1, 720, 33),
    (0, 720, 33),
    (1, 720, 496),
    (0, 720, 496),
    (1, 1920, 1080),
    (0, 1920, 1080),
    (1, 16383, 2800),
    (0, 16383, 2800),
    (1, 0, 2801),
    (0, 0, 0),
    (2, 0, 496),
    (4294967295, 4294967295, 4294967280),
    (0, 4294967295, 4294967280),
    (0, 4294967295, 4294967295),
];

fn pictures(rt: &impl Print) -> io::Result<()> {
    for (progressive, horizontal, vertical) in PICTURES {
        let h = SequenceHeader {
            profile: 0,
            level: 0,
            progressive,
            horizontal,
            vertical,
            chroma: 1,
            precision: 1,
            aspect: 1,
            rate: 1,
            bitrate: 0,
            delay: 0,
            buffer: 0,
        };
        println!(rt;
            "macroblocks {} {} {} {} {} {}",
            Number(u64::from(progressive)),
            Number(u64::from(horizontal)),
            Number(u64::from(vertical)),
            Number(u64::from(macroblocks::macroblock_columns(h))),
            Number(u64::from(macroblocks::macroblock_rows(h))),
            Number(u64::from(macroblocks::slices_tested(h)))
        )?;
    }
    Ok(())
}

// ── rows ──

const UNITS: [u8; 15] = *b"\x00\x00\x01\xB3\x81\x82\x00\x00\x01\x05\x83\x00\x00\x01\xB1";

// Nine rows and a part of one: those of the units; to the end, past it, at the last byte and behind it; sums that 32 bits do not
// hold.
const WORDS: [u32; 29] = [
    179, 0, 2, 5, 6, 1, 177, 11, 0, 179, 0, 11, 179, 0, 12, 179, 10, 1, 179, 12, 0, 0, 4294967292,
    4294967295, 4294967295, 0, 4294967292, 179, 0,
];

// So many bytes lent, and the row.
const ROWS: [(usize, usize); 14] = [
    (15, 0),
    (15, 1),
    (15, 2),
    (15, 3),
    (15, 4),
    (15, 5),
    (15, 6),
    (15, 7),
    (15, 8),
    (15, 9),
    (5, 0),
    (0, 0),
    (15, 6148914691236517206),
    (15, 18446744073709551615),
];

fn row(rt: &impl Print, stream: &[u8], i: usize) -> io::Result<()> {
    println!(rt;
        "row {} {} {} {}",
        Number(stream.len() as u64),
        Number(i as u64),
        Number(u64::from(rows::row_exists(stream, &WORDS, i))),
        Hex(rows::row_body(stream, &WORDS, i))
    )
}

fn all_rows(rt: &impl Print) -> io::Result<()> {
    let stream = UNITS;
    for (lent, i) in ROWS {
        row(rt, &stream[..lent.min(stream.len())], i)?;
    }
    Ok(())
}

fn main(rt: HostRuntime) -> io::Result<()> {
    reads(&rt)?;
    prefixes(&rt)?;
    pictures(&rt)?;
    all_rows(&rt)
}
