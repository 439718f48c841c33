// Numbers handed to C and Rust of groups, bodies and ratios, in lent memory. What is not given has no numbers.
#![tactic(auto)]

ghost use Rattle.std.specs.Prelude.{◌≡◌, ◌∷◌, ◌++◌, ◌≤◌, length};
ghost use Rattle.answers.specs.Answers.{done, map_done};
ghost use Rattle.bodies.specs.Reader as reader;
ghost use Rattle.ratios.specs.Ratios.{frame_rate, display_ratio};
ghost use Rattle.groups.specs.Reader.{group_at};
ghost use Rattle.handover.specs.Answers.{over, answered, after};
ghost use Rattle.handover.specs.Inside.{Handed};
ghost use Rattle.handover.specs.Numbers.{header_numbers, display_numbers, copyright_numbers, ratio_numbers, scope_for, extension_numbers, shown_numbers, group_numbers};

use bodies::{CopyrightExtension, DisplayExtension, ExtensionBody, Scope, SequenceHeader};
use groups::GroupError;
use ratios::Fraction;
use statuses::Answer;

// Values and those after them are handed over where there is room for all, and FULL is answered where there is not.
fn hand_both(values: &[u64], more: &[u64], numbers: &mut [u64]) -> Answer
    requires { (length values.now ≤ 14) × (length more.now ≤ 8) }
    ensures { Handed result numbers.new (done (values.now ++ more.now)) numbers.old }
{
    let n = values.len();
    let count = n + more.len();
    if numbers.len() < count {
        return statuses::refusal(statuses::FULL);
    }
    numbers[..n].copy_from_slice(values);
    numbers[n..n + more.len()].copy_from_slice(more);
    statuses::handed(count)
}

fn hand_over(values: &[u64], numbers: &mut [u64]) -> Answer
    requires { length values.now ≤ 14 }
    ensures { Handed result numbers.new (done values.now) numbers.old }
{
    hand_both(values, &[], numbers)
}

// Values, and after them the numbers of a display extension.
#[tactic(auto, unfolding(crate::specs::Numbers::display_numbers))]
fn hand_display(values: &[u64], d: DisplayExtension, numbers: &mut [u64]) -> Answer
    requires { length values.now ≤ 14 }
    ensures { Handed result numbers.new (done (values.now ++ display_numbers d)) numbers.old }
{
    match d.colour {
        Some(colour) => {
            let shown = [
                d.format,
                d.range,
                d.width,
                d.height,
                d.stereo,
                colour.primaries,
                colour.transfer,
                colour.matrix,
            ]
            .map(u64::from);
            hand_both(values, &shown, numbers)
        }
        None => {
            let shown = [d.format, d.range, d.width, d.height, d.stereo].map(u64::from);
            hand_both(values, &shown, numbers)
        }
    }
}

// A group's numbers. Each of the header's is widened by itself: a map over so many isn't proved.
#[tactic(auto, unfolding(crate::specs::Numbers::header_numbers))]
fn hand_group(h: SequenceHeader, display: Option<DisplayExtension>, numbers: &mut [u64]) -> Answer
    ensures { Handed result numbers.new (done (header_numbers h ++ shown_numbers display)) numbers.old }
{
    let values = [
        u64::from(h.profile),
        u64::from(h.level),
        u64::from(h.progressive),
        u64::from(h.horizontal),
        u64::from(h.vertical),
        u64::from(h.chroma),
        u64::from(h.precision),
        u64::from(h.aspect),
        u64::from(h.rate),
        u64::from(h.bitrate),
        u64::from(h.delay),
        u64::from(h.buffer),
        u64::from(macroblocks::macroblock_columns(h)),
        u64::from(macroblocks::macroblock_rows(h)),
    ];
    match display {
        Some(d) => hand_display(&values, d, numbers),
        None => hand_over(&values, numbers),
    }
}

// The number 4, and after it the numbers of a copyright extension, of which the last is a long one.
#[tactic(auto, unfolding(crate::specs::Numbers::copyright_numbers))]
fn hand_copyright(c: CopyrightExtension, numbers: &mut [u64]) -> Answer
    ensures { Handed result numbers.new (done (4 ∷ copyright_numbers c)) numbers.old }
{
    let values = [
        4,
        u64::from(c.flag),
        u64::from(c.owner),
        u64::from(c.original),
        c.number,
    ];
    hand_over(&values, numbers)
}

fn hand_ratio(ratio: Option<Fraction>, numbers: &mut [u64]) -> Answer
    ensures { Handed result numbers.new (done (ratio_numbers ratio)) numbers.old }
{
    match ratio {
        Some(Fraction(numerator, denominator)) => hand_over(
            &[numerator, denominator].map(u64::from),
            numbers,
        ),
        None => hand_over(&[], numbers),
    }
}

// Group g: its sequence header, and its display extension where that is given.
#[tactic(auto, unfolding(crate::specs::Answers::answered, crate::specs::Answers::after))]
pub fn group(stream: &[u8], g: usize, numbers: &mut [u64]) -> Answer
    ensures answer { result ≡ answered (map_done group_numbers (group_at stream.now g)) numbers.old }
    ensures numbers { numbers.new ≡ after (map_done group_numbers (group_at stream.now g)) numbers.old }
{
    match groups::group_at(stream, g) {
        Ok(group) => hand_group(group.header, group.display, numbers),
        Err(GroupError::NoRow) => statuses::refusal(statuses::NO_ROW),
        Err(GroupError::Refused(why)) => statuses::refused_stream(why),
    }
}

// A sequence header's body.
#[tactic(auto, unfolding(bodies::specs::Reader::header_of, bodies::specs::Answers::answer_of, crate::specs::Numbers::header_numbers, crate::specs::Answers::answered, crate::specs::Answers::after))]
pub fn sequence_header(body: &[u8], numbers: &mut [u64]) -> Answer
    ensures answer { result ≡ answered (map_done header_numbers (reader.header_of body.now)) numbers.old }
    ensures numbers { numbers.new ≡ after (map_done header_numbers (reader.header_of body.now)) numbers.old }
{
    match bodies::sequence_header(body) {
        Ok(h) => hand_group(h, None, numbers),
        Err(why) => statuses::refused_body(why),
    }
}

fn scope_for(head: bool) -> Scope
    ensures { result ≡ scope_for head }
{
    if head { Scope::Head } else { Scope::Picture }
}

// An extension's body: its number, and what it says where it is not opaque.
#[tactic(auto, unfolding(bodies::specs::Reader::extension_of, bodies::specs::Answers::answer_of, crate::specs::Answers::answered, crate::specs::Answers::after))]
pub fn extension(body: &[u8], head: bool, numbers: &mut [u64]) -> Answer
    ensures answer { result ≡ answered (map_done extension_numbers (reader.extension_of (scope_for head) body.now)) numbers.old }
    ensures numbers { numbers.new ≡ after (map_done extension_numbers (reader.extension_of (scope_for head) body.now)) numbers.old }
{
    match bodies::extension(body, scope_for(head)) {
        Ok(ExtensionBody::Display(d)) => hand_display(&[2], d, numbers),
        Ok(ExtensionBody::Copyright(c)) => hand_copyright(c, numbers),
        Ok(ExtensionBody::Opaque(number)) => hand_over(&[u64::from(number)], numbers),
        Err(why) => statuses::refused_body(why),
    }
}

// The frame rate of a code, given or not given. It and display_ratio are two: C has a name for each.
pub fn frame_rate(code: u32, numbers: &mut [u64]) -> Answer
    ensures answer { result ≡ answered (done (ratio_numbers (frame_rate code))) numbers.old }
    ensures numbers { numbers.new ≡ after (done (ratio_numbers (frame_rate code))) numbers.old }
{
    hand_ratio(ratios::frame_rate(code), numbers)
}

// The display ratio of an aspect, given or not given.
pub fn display_ratio(aspect: u32, numbers: &mut [u64]) -> Answer
    ensures answer { result ≡ answered (done (ratio_numbers (display_ratio aspect))) numbers.old }
    ensures numbers { numbers.new ≡ after (done (ratio_numbers (display_ratio aspect))) numbers.old }
{
    hand_ratio(ratios::display_ratio(aspect), numbers)
}
