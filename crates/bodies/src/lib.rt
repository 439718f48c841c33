// Sequence headers and extensions: their records, or what is wrong with their bodies.
#![tactic(auto)]

ghost use Rattle.std.specs.Prelude.{◌≡◌};
ghost use Rattle.bits.specs.Bits.{bits_of, bit_at};
ghost use Rattle.layout.specs.Reader.{read_value};
ghost use Rattle.bodies.specs.Extensions.{numbered, is_opaque};
ghost use Rattle.bodies.specs.Reader.{header_result, plain_of, coloured_of, copyright_of, display_short, display_of, number_of, by_number, extension_result};
ghost use Rattle.bodies.specs.Answers.{fault_number};

use bits::Payload;
use layout::{Fault, Layout};

#[derive(Clone, Copy)]
pub struct SequenceHeader {
    pub profile: u32,
    pub level: u32,
    pub progressive: u32,
    pub horizontal: u32,
    pub vertical: u32,
    pub chroma: u32,
    pub precision: u32,
    pub aspect: u32,
    pub rate: u32,
    pub bitrate: u32,
    pub delay: u32,
    pub buffer: u32,
}

#[derive(Clone, Copy)]
pub struct Colour {
    pub primaries: u32,
    pub transfer: u32,
    pub matrix: u32,
}

// Its colour is there where it is given.
#[derive(Clone, Copy)]
pub struct DisplayExtension {
    pub format: u32,
    pub range: u32,
    pub colour: Option<Colour>,
    pub width: u32,
    pub height: u32,
    pub stereo: u32,
}

#[derive(Clone, Copy)]
pub struct CopyrightExtension {
    pub flag: u32,
    pub owner: u32,
    pub original: u32,
    pub number: u64,
}

// Where an extension stands: in a group's head, or after a picture header.
#[derive(Clone, Copy, Debug, PartialEq, Eq)]
pub enum Scope {
    Head,
    Picture,
}

// An extension's record, or of an opaque one its number alone.
#[derive(Clone, Copy)]
pub enum ExtensionBody {
    Display(DisplayExtension),
    Copyright(CopyrightExtension),
    Opaque(u32),
}

// The number of what a body is refused for. Not discriminants: two faults carry a bit.
#[tactic(auto, unfolding(crate::specs::Answers::fault_number, crate::specs::Answers::value_number))]
pub fn fault_number(why: Fault) -> u32
    ensures { result ≡ fault_number why }
{
    match why {
        Fault::Short => 6,
        Fault::Marker(_) => 7,
        Fault::Value(field, _) => field as u32,
        Fault::Stuffing => 9,
    }
}

// A sequence header's body: its record, or its refusal.
pub fn sequence_header(body: &[u8]) -> Result<SequenceHeader, Fault>
    ensures { result ≡ header_result body.now }
{
    let [
        profile,
        level,
        progressive,
        horizontal,
        vertical,
        chroma,
        precision,
        aspect,
        rate,
        low,
        _,
        high,
        delay,
        _marker,
        buffer,
        _,
    ] = layout::read_body(Layout::Header, body)?;
    let bitrate = high * 262144 + low;
    Ok(SequenceHeader {
        profile,
        level,
        progressive,
        horizontal,
        vertical,
        chroma,
        precision,
        aspect,
        rate,
        bitrate,
        delay,
        buffer,
    })
}

// A display extension's body where colour is not given.
fn plain(body: &[u8]) -> Result<ExtensionBody, Fault>
    ensures { result ≡ plain_of body.now }
{
    let [_, format, range, _, width, _, height, stereo, ..] = layout::read_body(
        Layout::Display,
        body,
    )?;
    Ok(ExtensionBody::Display(DisplayExtension {
        format,
        range,
        colour: None,
        width,
        height,
        stereo,
    }))
}

// The same where colour is given. Not one function: fields stand at other places, which a table would have to name.
fn coloured(body: &[u8]) -> Result<ExtensionBody, Fault>
    ensures { result ≡ coloured_of body.now }
{
    let [
        _,
        format,
        range,
        _,
        primaries,
        transfer,
        matrix,
        width,
        _,
        height,
        stereo,
        ..
    ] = layout::read_body(Layout::Coloured, body)?;
    let colour = Some(Colour {
        primaries,
        transfer,
        matrix,
    });
    Ok(ExtensionBody::Display(DisplayExtension {
        format,
        range,
        colour,
        width,
        height,
        stereo,
    }))
}

// A copyright extension's body.
fn copyright(body: &[u8]) -> Result<ExtensionBody, Fault>
    ensures { result ≡ copyright_of body.now }
{
    let [_, flag, owner, original, _, _, one, _, two, _, three, ..] = layout::read_body(
        Layout::Copyright,
        body,
    )?;
    let number = u64::from(one) * 17592186044416 + u64::from(two) * 4194304 + u64::from(three);
    Ok(ExtensionBody::Copyright(CopyrightExtension {
        flag,
        owner,
        original,
        number,
    }))
}

// An extension's number, the upper half of its first byte; an empty body has none.
fn number_of(body: &[u8]) -> Result<u32, Fault>
    ensures { result ≡ read_value (number_of body.now) }
{
    match body.first() {
        Some(byte) => Ok(u32::from(*byte) / 16),
        None => Err(Fault::Short),
    }
}

// Whether an extension's number is 2: in a group's head it is a display extension.
#[tactic(auto, using(crate::proofs::NumberLaws::numbered_two))]
pub fn is_display(body: &[u8]) -> bool
    ensures { result ≡ numbered 2 body.now }
{
    matches!(number_of(body), Ok(2))
}

// Whether an extension is opaque where it stands: its number is not 4 and, in a group's head, not 2. An empty body has no number.
#[tactic(auto, using(crate::proofs::NumberLaws::opaque_read_lem))]
pub fn is_opaque(body: &[u8], scope: Scope) -> bool
    ensures { result ≡ is_opaque scope body.now }
{
    match (number_of(body), scope) {
        (Ok(4), _) => false,
        (Ok(2), Scope::Head) => false,
        _ => true,
    }
}

// Colour given, bit 8 of a display extension.
#[tactic(auto, using(crate::proofs::AnswerLaws::bit_eight))]
fn colour_given(body: &[u8]) -> Option<u32>
    ensures { result ≡ bit_at (bits_of body.now) 8 }
{
    let first = Payload {
        bytes: body,
        count: 9,
    };
    first.bit(8)
}

// Whether a display extension's body is too short for its fields.
#[tactic(auto, unfolding(crate::specs::Reader::display_short, layout::specs::Layouts::least_bytes))]
pub fn display_short(body: &[u8]) -> bool
    ensures { result ≡ display_short body.now }
{
    body.len() < 6 || (colour_given(body) == Some(1) && body.len() < 9)
}

// A display extension's body, by its colour bit.
#[tactic(auto, unfolding(crate::specs::Reader::display_of))]
fn display(body: &[u8]) -> Result<ExtensionBody, Fault>
    ensures { result ≡ display_of body.now }
{
    if display_short(body) {
        return Err(Fault::Short);
    }
    match colour_given(body) {
        Some(1) => coloured(body),
        Some(_) => plain(body),
        None => Err(Fault::Short),
    }
}

// An extension's body by its number.
#[tactic(auto, unfolding(crate::specs::Reader::by_number))]
fn by_number(number: u32, body: &[u8], scope: Scope) -> Result<ExtensionBody, Fault>
    ensures { result ≡ by_number scope body.now number }
{
    match (number, scope) {
        (4, _) => copyright(body),
        (2, Scope::Head) => display(body),
        _ => Ok(ExtensionBody::Opaque(number)),
    }
}

// An extension's body: its record, or of an opaque one its number, or its refusal.
#[tactic(auto, unfolding(crate::specs::Reader::extension_result))]
pub fn extension(body: &[u8], scope: Scope) -> Result<ExtensionBody, Fault>
    ensures { result ≡ extension_result scope body.now }
{
    by_number(number_of(body)?, body, scope)
}
