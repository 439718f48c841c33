// What a Rattle caller can ask of one unit in a state, and of a body's number before its fields, and the C boundary cannot: a line each,
// the question and its answer. A refusal is its number and its bit, - where it has none. tests/units_oracle.py reads the questions from
// this file, works the answers out by itself, and says what the numbers are.
#![tactic(auto)]

use bodies::{ExtensionBody, Scope, SequenceHeader};
use grammar::{Reason, SliceRule, State};
use layout::Fault;
use std::{fmt, io};
use text::{Hex, Number};
use units::NextUnit;

// ── what is wrong ──

// A refusal's number, and the bit that it carries.
#[derive(Drop)]
struct Refused {
    number: u32,
    bit: Option<usize>,
}

impl From<Fault> for Refused {
    fn from(why: Fault) -> Refused {
        Refused {
            number: bodies::fault_number(why),
            bit: statuses::fault_bit(why),
        }
    }
}

impl From<Reason> for Refused {
    fn from(why: Reason) -> Refused {
        Refused {
            number: grammar::reason_number(why),
            bit: statuses::reason_bit(why),
        }
    }
}

impl fmt::Display for Refused {
    fn fmt<W: fmt::Write>(&self, f: &mut fmt::Formatter<W>) -> fmt::Result {
        let number = Number(u64::from(self.number));
        match self.bit {
            Some(bit) => write!(f, "{number} {}", Number(bit as u64)),
            None => write!(f, "{number} -"),
        }
    }
}

// ── units ──

const TESTED: SliceRule = SliceRule {
    tested: true,
    rows: 68,
};

// The states that a unit is read in.
const STATES: [State; 9] = [
    State::Start,
    State::Head(TESTED, false),
    State::Head(TESTED, true),
    State::Picture(TESTED),
    State::Slices(TESTED, 6),
    State::Slices(
        SliceRule {
            tested: false,
            rows: 176,
        },
        68,
    ),
    State::Ended,
    State::Closed,
    State::Slices(
        SliceRule {
            tested: true,
            rows: 5,
        },
        6,
    ),
];

// A state's number, and what it holds.
#[derive(Drop)]
struct Stood(State);

impl fmt::Display for Stood {
    fn fmt<W: fmt::Write>(&self, f: &mut fmt::Formatter<W>) -> fmt::Result {
        let (number, rule, last) = match self.0 {
            State::Start => return write!(f, "0"),
            State::Head(rule, display) => (1, rule, u32::from(display)),
            State::Picture(rule) => (2, rule, 0),
            State::Slices(rule, least) => (3, rule, least),
            State::Ended => return write!(f, "4"),
            State::Closed => return write!(f, "5"),
        };
        write!(
            f,
            "{} {} {} {}",
            Number(number),
            Number(u64::from(rule.tested)),
            Number(u64::from(rule.rows)),
            Number(u64::from(last))
        )
    }
}

// Where the unit ends, its row's length and the state after it; or why it is refused, after "none".
#[derive(Drop)]
struct Read(Option<Result<NextUnit, Reason>>);

impl fmt::Display for Read {
    fn fmt<W: fmt::Write>(&self, f: &mut fmt::Formatter<W>) -> fmt::Result {
        match self.0 {
            Some(Ok(unit)) => {
                let (end, length) = (Number(unit.end as u64), Number(unit.length as u64));
                write!(f, "{end} {length} {}", Stood(unit.state))
            }
            Some(Err(why)) => write!(f, "none {}", Refused::from(why)),
            None => write!(f, "none"),
        }
    }
}

// The stream's units. 0: a sequence header, interlaced, of 496 lines and so 32 rows; 19: user data; 25: a display extension; 35: an
// opaque one; 41: an I picture; 47: a P or B picture with no nonzero byte; 52, 57, 62: slices 5, 67 and 68; 67: a sequence end;
// 71: an edit code, 75: one with a body; 80: an unknown unit; 85: OVERLAP; 88: an extension with no body; 92: a display extension
// that is too short; 97: CUT.
const STREAM: [u8; 100] =
    *b"\x00\x00\x01\xB0\x48\x40\x0F\x00\x0F\x82\x4C\xC4\xE2\x08\x00\x20\x02\x00\x80\x00\x00\x01\xB2\x41\x00\x00\x00\x01\xB5\x2B\x05\xA1\x09\x01\x80\x00\x00\x01\xB5\x30\x00\x00\x00\x01\xB3\x80\x00\x00\x00\x01\xB6\x00\x00\x00\x01\x05\x80\x00\x00\x01\x43\x80\x00\x00\x01\x44\x80\x00\x00\x01\xB1\x00\x00\x01\xB7\x00\x00\x01\xB7\x80\x00\x00\x01\xB4\x80\x00\x00\x01\x00\x00\x01\xB5\x00\x00\x01\xB5\x20\x00\x00\x01";

// Each of them, and no unit.
const PLACES: [usize; 20] = [
    0,
    19,
    25,
    35,
    41,
    47,
    52,
    57,
    62,
    67,
    71,
    75,
    80,
    85,
    88,
    92,
    97,
    1,
    100,
    18446744073709551615,
];

fn units_in(rt: &impl Print, k: usize, state: State) -> io::Result<()> {
    for at in PLACES {
        println!(rt;
            "unit {} {} {}",
            Number(k as u64),
            Number(at as u64),
            Read(units::unit_at(&STREAM, state, at))
        )?;
    }
    Ok(())
}

fn all_units(rt: &impl Print) -> io::Result<()> {
    for (k, state) in STATES.iter().enumerate() {
        units_in(rt, k, *state)?;
    }
    Ok(())
}

// ── bodies ──

// A sequence header, a display extension without colour and with it, and a copyright extension, each with zero bytes after it.
const HEADER: [u8; 16] = *b"\x48\x40\x0F\x00\x22\x02\x4C\xC4\xE2\x08\x00\x20\x02\x00\x80\x00";

const PLAIN: [u8; 16] = *b"\x2B\x05\xA1\x09\x01\x80\x00\x00\x00\x00\x00\x00\x00\x00\x00\x00";

const COLOURED: [u8; 16] = *b"\x2B\x84\x85\x03\x85\xA1\x09\x01\x80\x00\x00\x00\x00\x00\x00\x00";

const COPYRIGHT: [u8; 16] = *b"\x48\x8C\x04\x00\x00\x60\x00\x01\x40\x00\x03\x80\x00\x00\x00\x00";

// One of the four by its number, which is printed; so many of its bytes lent; the place of a byte and what it is changed to.
const BODIES: [(u32, usize, usize, u8); 38] = [
    // Good; short; each value that is ruled out; each marker; each end of the stuffing.
    (0, 15, 0, 0x48),
    (0, 16, 0, 0x20),
    (0, 14, 0, 0x48),
    (0, 15, 2, 0x00),
    (0, 15, 4, 0x00),
    (0, 15, 5, 0x00),
    (0, 15, 5, 0x06),
    (0, 15, 6, 0x8C),
    (0, 15, 6, 0x40),
    (0, 15, 7, 0x04),
    (0, 15, 9, 0x00),
    (0, 15, 11, 0x00),
    (0, 15, 14, 0xC0),
    (0, 16, 15, 0x01),
    // Display extensions.
    (1, 6, 0, 0x2B),
    (1, 5, 0, 0x2B),
    (1, 0, 0, 0x2B),
    (1, 6, 1, 0x85),
    (1, 6, 2, 0xA0),
    (1, 6, 4, 0x03),
    (1, 8, 7, 0x01),
    (1, 1, 0, 0xF0),
    (2, 9, 0, 0x2B),
    (2, 8, 0, 0x2B),
    (2, 9, 2, 0x80),
    (2, 9, 3, 0x83),
    (2, 9, 3, 0x01),
    (2, 9, 5, 0xA0),
    (2, 9, 7, 0x03),
    (2, 9, 8, 0x00),
    // Copyright extensions.
    (3, 12, 0, 0x48),
    (3, 11, 0, 0x48),
    (3, 12, 0, 0x40),
    (3, 12, 1, 0x04),
    (3, 12, 2, 0x00),
    (3, 12, 5, 0x40),
    (3, 12, 8, 0x00),
    (3, 12, 11, 0x00),
];

#[derive(Drop)]
struct Header(Result<SequenceHeader, Fault>);

impl fmt::Display for Header {
    fn fmt<W: fmt::Write>(&self, f: &mut fmt::Formatter<W>) -> fmt::Result {
        match self.0 {
            Ok(_) => write!(f, "header"),
            Err(why) => write!(f, "{}", Refused::from(why)),
        }
    }
}

#[derive(Drop)]
struct Extension(Result<ExtensionBody, Fault>);

impl fmt::Display for Extension {
    fn fmt<W: fmt::Write>(&self, f: &mut fmt::Formatter<W>) -> fmt::Result {
        match self.0 {
            Ok(ExtensionBody::Display(_)) => write!(f, "display"),
            Ok(ExtensionBody::Copyright(_)) => write!(f, "copyright"),
            Ok(ExtensionBody::Opaque(number)) => write!(f, "opaque {}", Number(u64::from(number))),
            Err(why) => write!(f, "{}", Refused::from(why)),
        }
    }
}

// Before the fields: whether the number is 2, whether that is too short, whether the extension is opaque here and there.
fn ask_extension(rt: &impl Print, body: &[u8]) -> io::Result<()> {
    print!(rt;
        " {} {} {} {}",
        Number(u64::from(bodies::is_display(body))),
        Number(u64::from(bodies::display_short(body))),
        Number(u64::from(bodies::is_opaque(body, Scope::Head))),
        Number(u64::from(bodies::is_opaque(body, Scope::Picture)))
    )?;
    print!(rt; " {}", Extension(bodies::extension(body, Scope::Head)))?;
    println!(rt; " {}", Extension(bodies::extension(body, Scope::Picture)))
}

fn ask_body(rt: &impl Print, k: u32, body: &[u8]) -> io::Result<()> {
    print!(rt; "body {} {}", Number(u64::from(k)), Hex(body))?;
    if k == 0 {
        println!(rt; " {}", Header(bodies::sequence_header(body)))
    } else {
        ask_extension(rt, body)
    }
}

fn all_bodies(rt: &impl Print) -> io::Result<()> {
    for (k, lent, place, byte) in BODIES {
        let mut held = match k {
            0 => HEADER,
            1 => PLAIN,
            2 => COLOURED,
            _ => COPYRIGHT,
        };
        if let Some(changed) = held.get_mut(place) {
            *changed = byte;
        }
        ask_body(rt, k, &held[..lent.min(held.len())])?;
    }
    Ok(())
}

fn main(rt: HostRuntime) -> io::Result<()> {
    all_units(&rt)?;
    all_bodies(&rt)
}
