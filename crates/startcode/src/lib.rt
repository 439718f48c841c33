// Start codes: the prefix 00 00 01 and the kinds of unit.
#![tactic(auto)]

ghost use Rattle.std.specs.Prelude.{◌≡◌, ◌+◌, ◌<◌, length, drop};
ghost use Rattle.startcode.specs.Prefix.{begins, next_prefix};
ghost use Rattle.startcode.specs.Kinds.{kind_of, kind_says};
ghost use Rattle.startcode.specs.Inside.{Found, Runs};

// The kinds of unit, numbered in document 01's order.
#[derive(Clone, Copy, Debug, PartialEq, Eq)]
pub enum Kind {
    Slice,
    SequenceHeader,
    SequenceEnd,
    UserData,
    IPicture,
    Extension,
    PBPicture,
    EditCode,
}

// The kind of a unit, by its code byte; none is document 01's UNKNOWN.
pub fn kind_of(code: u8) -> Option<Kind>
    ensures { kind_says result ≡ kind_of code }
{
    match code {
        0x00..=0xAF => Some(Kind::Slice),
        0xB0 => Some(Kind::SequenceHeader),
        0xB1 => Some(Kind::SequenceEnd),
        0xB2 => Some(Kind::UserData),
        0xB3 => Some(Kind::IPicture),
        0xB5 => Some(Kind::Extension),
        0xB6 => Some(Kind::PBPicture),
        0xB7 => Some(Kind::EditCode),
        _ => None,
    }
}

// Whether 00 00 01 stands at a place.
#[tactic(auto, using(crate::proofs::PrefixLaws::begins_past))]
pub fn prefix_at(stream: &[u8], at: usize) -> bool
    ensures { result ≡ begins (drop at stream.now) }
{
    3 <= stream.len() && at <= stream.len() - 3 && begins_at(stream, at)
}

// The same of a place that has three bytes.
#[tactic(auto, using(crate::proofs::PrefixLaws::begins_at))]
fn begins_at(stream: &[u8], at: usize) -> bool
    requires { at + 2 < length stream.now }
    ensures { result ≡ begins (drop at stream.now) }
{
    stream[at] == 0 && stream[at + 1] == 0 && stream[at + 2] == 1
}

// The place of the next 00 00 01 at or after from, or the stream's length.
pub fn next_prefix(stream: &[u8], from: usize) -> usize
    ensures { result ≡ next_prefix stream.now from }
{
    search(stream, from).place
}

// A place, and the steps that led there.
#[derive(Clone, Copy)]
struct Reached {
    place: usize,
    steps: usize,
}

// The search, by the place of the third byte: a 01 may end a prefix, a 00 may stand in one, and any other byte rules out three
// places. All steps go on at one point of the loop, which is faster than one for each. They are counted for the proof alone:
// next_prefix drops the count, and it is not in the compiled code.
fn search(stream: &[u8], from: usize) -> Reached
    ensures { Found stream.now from result.place result.steps }
{
    let n = stream.len();
    if n.saturating_sub(2) <= from {
        return Reached { place: n, steps: 0 };
    }
    let mut third = from + 2;
    let mut steps: usize = 0;
    // Not a for: a step is of one place or of three.
    while third < n {
        let byte = stream[third];
        let mut past: usize = 3;
        if byte == 1 {
            if begins_at(stream, third - 2) {
                return Reached {
                    place: third - 2,
                    steps: steps + 1,
                };
            }
        } else if byte == 0 {
            past = 1;
        } else {
            let run = steps_of_three(stream, third);
            third = run.place;
            steps += run.steps;
        }
        third += past;
        steps += 1;
    }
    Reached { place: n, steps }
}

// Steps of three on from the place of a third byte, while the next one is neither 00 nor 01 and the stream has as much as four
// steps take; four a turn, which is faster than one.
fn steps_of_three(stream: &[u8], from: usize) -> Reached
    requires { from < length stream.now }
    ensures { Runs stream.now from result.place result.steps }
{
    let n = stream.len();
    let mut place = from;
    let mut steps: usize = 0;
    // Not a for: a turn is of four steps, or ends the run at one of them.
    while place + 12 < n {
        if stream[place + 3] <= 1 {
            return Reached { place, steps };
        }
        if stream[place + 6] <= 1 {
            return Reached {
                place: place + 3,
                steps: steps + 1,
            };
        }
        if stream[place + 9] <= 1 {
            return Reached {
                place: place + 6,
                steps: steps + 2,
            };
        }
        if stream[place + 12] <= 1 {
            return Reached {
                place: place + 9,
                steps: steps + 3,
            };
        }
        place += 12;
        steps += 4;
    }
    Reached { place, steps }
}
