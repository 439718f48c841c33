// Group g of a stream: its header record, with the display extension given or not given.
#![tactic(auto)]

ghost use Rattle.std.specs.Prelude.{◌≡◌, List};
ghost use Rattle.std.specs.Iterator.{YieldsFirstBy, item_count};
ghost use Rattle.answers.specs.Answers.{done};
ghost use Rattle.bodies.specs.Reader.{header_of, extension_of};
ghost use Rattle.startcode.specs.Kinds.{kind_of};
ghost use Rattle.grammar.specs.Grammar.{StreamUnit};
ghost use Rattle.grammar.specs.Reader.{is_kind};
ghost use Rattle.groups.specs.Groups.{group_says};
ghost use Rattle.groups.specs.Reader.{shown, in_head, display_in, group_of, group_in, group_at};
ghost use Rattle.groups.specs.declared.GroupError.TheVariants.{Refused};
ghost use Rattle.groups.specs.Inside.{Tells, unit_of, units_from, Here};

use bodies::{DisplayExtension, ExtensionBody, Scope, SequenceHeader};
use filing::Refusal;
use startcode::Kind;
use std::marker::Model;

// A group's header record, and the display extension of its head where that is given.
#[derive(Clone, Copy)]
pub struct Group {
    pub header: SequenceHeader,
    pub display: Option<DisplayExtension>,
}

// A stream has no such group, or is refused.
#[derive(Clone, Copy, Debug, PartialEq, Eq)]
pub enum GroupError {
    NoRow,
    Refused(Refusal),
}

impl From<Refusal> for GroupError {
    ghost from_gives = { λ why error. error ≡ Refused why };

    fn from(why: Refusal) -> GroupError {
        GroupError::Refused(why)
    }
}

// A unit as it stands in a stream.
#[derive(Clone, Copy)]
struct UnitHere<'a> {
    code: u8,
    body: &'a [u8],
}

// The units of a stream from an offset on; a contract sees their list.
#[derive(Drop)]
struct Units<'a> {
    stream: &'a [u8],
    at: usize,
}

impl<'a> Model for Units<'a> {
    ghost Value = { List StreamUnit };

    ghost view = { λ u. units_from u.stream.now u.at };

    ghost invariant = { λ u. Here u.stream.now u.at };
}

impl<'a> Iterator for Units<'a> {
    type Item = UnitHere<'a>;

    ghost next_gives = { YieldsFirstBy unit_of (λ rest. rest) };

    ghost remaining = { item_count (λ rest. rest) };

    #[tactic(auto, using(crate::proofs::WalkLaws::units_end, crate::proofs::WalkLaws::units_none, crate::proofs::WalkLaws::units_more))]
    fn next(&mut self) -> Option<UnitHere<'a>> {
        let code = *self.stream.get(self.at + 3)?;
        let next = startcode::next_prefix(self.stream, self.at + 3);
        let body = self.stream.get(self.at + 4..next)?;
        self.at = next;
        Some(UnitHere { code, body })
    }
}

// What a unit after a sequence header is: the display extension, another unit of the group's head, or past it. Neither an Option nor a
// Result: it has three cases.
#[derive(Clone, Copy)]
enum InHead {
    Display(DisplayExtension),
    Other,
    Past,
}

// ── one unit ──

// Whether a unit with this code begins a group.
fn begins_group(code: u8) -> bool
    ensures { result ≡ is_kind Kind.SequenceHeader (kind_of code) }
{
    matches!(startcode::kind_of(code), Some(Kind::SequenceHeader))
}

#[tactic(auto, unfolding(bodies::specs::Reader::extension_of, bodies::specs::Answers::answer_of))]
fn head_extension(body: &[u8]) -> InHead
    ensures { Tells result (shown (extension_of Scope.Head body.now)) }
{
    match bodies::extension(body, Scope::Head) {
        Ok(ExtensionBody::Display(d)) => InHead::Display(d),
        _ => InHead::Other,
    }
}

// What a unit of a group's head says, by its code.
fn in_group_head(code: u8, body: &[u8]) -> InHead
    ensures { Tells result (in_head (kind_of code) body.now) }
{
    match startcode::kind_of(code) {
        Some(Kind::UserData) => InHead::Other,
        Some(Kind::Extension) => head_extension(body),
        _ => InHead::Past,
    }
}

// ── the units that are left ──

// The display extension of the group's head that these units go on.
#[tactic(auto, unfolding(crate::specs::Reader::display_in))]
fn display_in(units: Units<'_>) -> Option<DisplayExtension>
    ensures { result ≡ display_in units.entry }
{
    for unit in units {
        match in_group_head(unit.code, unit.body) {
            InHead::Display(d) => {
                return Some(d);
            }
            InHead::Other => {}
            InHead::Past => {
                return None;
            }
        }
    }
    None
}

// The group whose sequence header has this body; these units go on its head.
#[tactic(auto, unfolding(bodies::specs::Reader::header_of, bodies::specs::Answers::answer_of))]
fn group_here(body: &[u8], rest: Units<'_>) -> Result<Group, GroupError>
    ensures { group_says result ≡ group_of (header_of body.now) (display_in rest.entry) }
{
    match bodies::sequence_header(body) {
        Ok(header) => Ok(Group {
            header,
            display: display_in(rest),
        }),
        Err(_) => Err(GroupError::NoRow),
    }
}

// Group g of these units. Of the groups before it nothing is read but the codes. Not a for: that would take the units, and those left at
// the group's header are its head.
#[tactic(auto, unfolding(crate::specs::Reader::group_in))]
fn group_in(mut units: Units<'_>, g: usize) -> Result<Group, GroupError>
    ensures { group_says result ≡ group_in g units.entry }
{
    let mut skip = g;
    while let Some(unit) = units.next() {
        if begins_group(unit.code) {
            if skip == 0 {
                return group_here(unit.body, units);
            }
            skip -= 1;
        }
    }
    Err(GroupError::NoRow)
}

// Group g of a stream, counted from 0, or the stream's refusal.
#[tactic(auto, using(crate::proofs::Theorems::here_start, crate::proofs::Theorems::at_good, crate::proofs::Theorems::at_refused))]
pub fn group_at(stream: &[u8], g: usize) -> Result<Group, GroupError>
    ensures { group_says result ≡ group_at stream.now g }
{
    filing::check(stream)?;
    group_in(Units { stream, at: 0 }, g)
}
