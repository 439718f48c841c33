// One unit of a stream, read in the state that the units before it lead to.
#![tactic(auto)]

ghost use Rattle.std.specs.Prelude.{◌≡◌, length};
ghost use Rattle.answers.specs.Answers.{done};
ghost use Rattle.startcode.specs.Kinds.{kind_of};
ghost use Rattle.grammar.specs.Grammar.{StreamUnit};
ghost use Rattle.grammar.specs.Rows.{placed, trimmed, is_whole, row_length};
ghost use Rattle.grammar.specs.Reader.{step, scope_in};
ghost use Rattle.units.specs.Reader.{unit_from, unit_at};

use bodies::Scope;
use grammar::{Reason, SliceRule, State};
use startcode::Kind;
use std::marker::Model;

// What follows a unit: the state after it, where it ends, and its row's length.
#[derive(Clone, Copy, Debug, PartialEq, Eq)]
pub struct NextUnit {
    pub state: State,
    pub end: usize,
    pub length: usize,
}

// A unit whose code has a kind, which is found once. Contracts see the unit alone.
#[derive(Drop)]
struct KnownUnit<'a> {
    kind: Kind,
    code: u8,
    body: &'a [u8],
}

impl<'a> Model for KnownUnit<'a> {
    ghost Value = { StreamUnit };

    ghost view = { λ u. record { code = u.code; body = u.body.now } };

    ghost invariant = { λ u. kind_of u.code ≡ done u.kind };
}

impl KnownUnit<'_> {
    // ── what follows it, by the state that it is read in ──

    #[tactic(auto, unfolding(grammar::specs::Reader::step))]
    fn in_head(&self, rule: SliceRule, display: bool) -> Result<State, Reason>
        ensures { result ≡ step (State.Head rule display) self.now }
    {
        match self.kind {
            Kind::UserData => Ok(State::Head(rule, display)),
            Kind::Extension => steps::head_extension(rule, display, self.body),
            Kind::IPicture => steps::picture_step(rule, self.body),
            _ => Err(Reason::OutOfPlace),
        }
    }

    #[tactic(auto, unfolding(grammar::specs::Reader::step))]
    fn in_picture(&self, rule: SliceRule) -> Result<State, Reason>
        ensures { result ≡ step (State.Picture rule) self.now }
    {
        match self.kind {
            Kind::Slice => steps::slice_step(rule, 0, self.code, self.body),
            Kind::UserData => Ok(State::Picture(rule)),
            Kind::Extension => {
                steps::extension_step(self.body, Scope::Picture, State::Picture(rule))
            }
            _ => Err(Reason::OutOfPlace),
        }
    }

    #[tactic(auto, unfolding(grammar::specs::Reader::step))]
    fn after_slice(&self, rule: SliceRule, least: u32) -> Result<State, Reason>
        ensures { result ≡ step (State.Slices rule least) self.now }
    {
        match self.kind {
            Kind::Slice => steps::slice_step(rule, least, self.code, self.body),
            Kind::IPicture => steps::picture_step(rule, self.body),
            Kind::PBPicture => steps::picture_step(rule, self.body),
            Kind::SequenceHeader => steps::header_step(self.body),
            Kind::SequenceEnd => steps::ending_step(self.body, State::Ended),
            Kind::EditCode => steps::ending_step(self.body, State::Closed),
            _ => Err(Reason::OutOfPlace),
        }
    }

    #[tactic(auto, unfolding(grammar::specs::Reader::step))]
    fn at_start(&self) -> Result<State, Reason>
        ensures { result ≡ step State.Start self.now }
    {
        match self.kind {
            Kind::SequenceHeader => steps::header_step(self.body),
            _ => Err(Reason::OutOfPlace),
        }
    }

    #[tactic(auto, unfolding(grammar::specs::Reader::step))]
    fn after_end(&self) -> Result<State, Reason>
        ensures { result ≡ step State.Ended self.now }
    {
        match self.kind {
            Kind::EditCode => steps::ending_step(self.body, State::Closed),
            _ => Err(Reason::OutOfPlace),
        }
    }

    #[tactic(auto, unfolding(grammar::specs::Reader::step))]
    fn in_state(&self, state: State) -> Result<State, Reason>
        ensures { result ≡ step state self.now }
    {
        // By the state and then by the kind: a match over both at once copies the state, which small units feel.
        let _ = &self.kind; // it is the code's, after B7 too
        match state {
            State::Start => self.at_start(),
            State::Head(rule, display) => self.in_head(rule, display),
            State::Picture(rule) => self.in_picture(rule),
            State::Slices(rule, least) => self.after_slice(rule, least),
            State::Ended => self.after_end(),
            State::Closed => Err(Reason::OutOfPlace),
        }
    }

    // ── its row's length ──

    // Where it stands, read in a state: in a group's head, which ends before the first picture, or elsewhere.
    fn scope_in(&self, state: State) -> Scope
        ensures { result ≡ scope_in state self.now }
    {
        match (state, self.kind) {
            (State::Head(_, _), Kind::IPicture) => Scope::Picture,
            (State::Head(_, _), _) => Scope::Head,
            _ => Scope::Picture,
        }
    }

    // Whether its row's body is whole: that of user data, which may end in zero bytes, and of opaque extensions.
    fn is_whole(&self, scope: Scope) -> bool
        ensures { result ≡ is_whole (placed scope self.now) }
    {
        match self.kind {
            Kind::UserData => true,
            Kind::Extension => bodies::is_opaque(self.body, scope),
            _ => false,
        }
    }

    // The body without its trailing zero bytes, or the whole body.
    #[tactic(auto, unfolding(grammar::specs::Rows::row_length))]
    fn length_in(&self, scope: Scope) -> usize
        ensures { result ≡ row_length (placed scope self.now) }
    {
        if self.is_whole(scope) {
            return self.body.len();
        }
        trimmed_length(self.body)
    }
}

// ── a row's length ──

// The length without trailing zero bytes.
fn trimmed_length(body: &[u8]) -> usize
    ensures { result ≡ length (trimmed body.now) }
{
    let mut n = body.len();
    // Not yet a for, nor split_last: both were timed only where the first pass ran this too.
    while 0 < n {
        if body[n - 1] != 0 {
            return n;
        }
        n -= 1;
    }
    0
}

// The length of the row of a unit with this code byte and body, which stands in a scope.
#[tactic(auto, unfolding(grammar::specs::Rows::row_length))]
pub fn row_length(scope: Scope, code: u8, body: &[u8]) -> usize
    ensures { result ≡ row_length (placed scope (record { code = code; body = body.now })) }
{
    match startcode::kind_of(code) {
        Some(kind) => KnownUnit { kind, code, body }.length_in(scope),
        None => trimmed_length(body),
    }
}

// ── one unit of a stream ──

// A unit with this code byte and body, which ends at an offset.
#[tactic(auto, unfolding(grammar::specs::Reader::step))]
fn unit_of(state: State, code: u8, body: &[u8], end: usize) -> Result<NextUnit, Reason>
    ensures { result ≡ unit_from state (record { code = code; body = body.now }) end }
{
    let kind = startcode::kind_of(code).ok_or(Reason::Unknown)?;
    let unit = KnownUnit { kind, code, body };
    // No ?: it copies the state once more.
    match unit.in_state(state) {
        Ok(next) => Ok(NextUnit {
            state: next,
            end,
            length: unit.length_in(unit.scope_in(state)),
        }),
        Err(why) => Err(why),
    }
}

// The unit at an offset, read in a state; or why it is refused; or that no unit begins there.
pub fn unit_at(stream: &[u8], state: State, at: usize) -> Option<Result<NextUnit, Reason>>
    ensures { result ≡ unit_at stream.now state at }
{
    if !startcode::prefix_at(stream, at) {
        return None;
    }
    let code_at = at + 3;
    if stream.len() == code_at {
        return Some(Err(Reason::Cut));
    }
    if startcode::prefix_at(stream, code_at) {
        return Some(Err(Reason::Overlap));
    }
    let end = startcode::next_prefix(stream, code_at);
    let code = stream[code_at];
    let from = at + 4;
    Some(unit_of(state, code, &stream[from..end], end))
}
