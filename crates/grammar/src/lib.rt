// What a walk over a stream's units knows at each of them, and why it stops.
#![tactic(auto)]

ghost use Rattle.std.specs.Prelude.{◌≡◌};
ghost use Rattle.grammar.specs.Reasons.{reason_number};

use layout::Fault;

// A group's slice rule: whether slices are tested, and the macroblock rows. Not an Option of the rows: a state tells them where slices are
// not tested too.
#[derive(Clone, Copy, Debug, PartialEq, Eq)]
pub struct SliceRule {
    pub tested: bool,
    pub rows: u32,
}

// Where the walk stands. Head says whether a display extension was read since the sequence header, Slices the least code
// that the next slice may have. Ended is after B1, Closed after B7.
#[derive(Clone, Copy, Debug, PartialEq, Eq)]
pub enum State {
    Start,
    Head(SliceRule, bool),
    Picture(SliceRule),
    Slices(SliceRule, u32),
    Ended,
    Closed,
}

// Why a stream is refused. Body is what is wrong with a unit's body, whole; SliceOrder and SliceRow tell which of a slice's
// two rules is broken.
#[derive(Clone, Copy, Debug, PartialEq, Eq)]
pub enum Reason {
    NoCode,
    Cut,
    Overlap,
    Unknown,
    OutOfPlace,
    Body(Fault),
    SliceOrder,
    SliceRow,
    Twice,
    Unended,
    Full,
    TooLong,
}

// The number of what a stream is refused for. A match, since a body's fault has a number of its own.
pub fn reason_number(why: Reason) -> u32
    ensures { result ≡ reason_number why }
{
    match why {
        Reason::NoCode => 1,
        Reason::Cut => 2,
        Reason::Overlap => 3,
        Reason::Unknown => 4,
        Reason::OutOfPlace => 5,
        Reason::Body(fault) => bodies::fault_number(fault),
        Reason::SliceOrder => 31,
        Reason::SliceRow => 32,
        Reason::Twice => 10,
        Reason::Unended => 11,
        Reason::Full => 12,
        Reason::TooLong => 13,
    }
}
