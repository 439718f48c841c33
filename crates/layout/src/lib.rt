// Bodies read by their layouts: the tables of fields, their values, and what a body is refused for.
#![tactic(auto)]

ghost use Rattle.std.specs.Prelude.{◌≡◌, ◌+◌, ◌*◌, ◌<◌, ◌≤◌, length, take, drop};
ghost use Rattle.answers.specs.Results.{map_ok};
ghost use Rattle.bits.specs.Bits.{bits_of};
ghost use Rattle.layout.specs.Layouts.{width_of, fields, least_bytes};
ghost use Rattle.layout.specs.Values.{ownership};
ghost use Rattle.layout.specs.Reader.{allows, ruled, all_zero, stuffing, owned_by, cross, both, ended, reading};
ghost use Rattle.layout.specs.Inside.{taken, taken_from};

use bits::Payload;

// The fields of the layouts.
#[derive(Clone, Copy)]
pub enum Name {
    Profile,
    Level,
    Progressive,
    HorizontalSize,
    VerticalSize,
    ChromaFormat,
    Precision,
    Aspect,
    FrameRate,
    BitRateLow,
    BitRateHigh,
    LowDelay,
    BufferSize,
    Reserved,
    Marker,
    Number,
    Format,
    Range,
    ColourGiven,
    Primaries,
    Transfer,
    Matrix,
    Width,
    Height,
    Stereo,
    Flag,
    Owner,
    Original,
    PartOne,
    PartTwo,
    PartThree,
}

// The fields that are refused for their value, by document 02's names: width and height are the sizes of a sequence header. The
// copyright number is its three parts together. Each has the number of its refusal.
#[derive(Clone, Copy, Debug, PartialEq, Eq)]
pub enum JudgedField {
    Width = 20,
    Height,
    Chroma,
    Precision,
    Aspect,
    Rate,
    Transfer,
    Matrix,
    Stereo,
    CopyrightOwner,
    CopyrightNumber,
}

// The values that a field may have.
#[derive(Clone, Copy)]
pub enum Values {
    Only(u32),
    But(u32),
    Within(u32, u32),
    WithinBut(u32, u32, u32),
}

// What is asked of a field: nothing; that it is 1, of a marker; or one of some values, otherwise it is refused as this field.
#[derive(Clone, Copy)]
pub enum Rule {
    Any,
    Set,
    Judged(JudgedField, Values),
}

// A field: its name, its width in bits, and what is asked of it. Not named fields: a field is a line of a table.
#[derive(Clone, Copy)]
pub struct Field(pub Name, pub u32, pub Rule);

// The layouts: a display extension has two, without colour and with it.
#[derive(Clone, Copy, Debug, PartialEq, Eq)]
pub enum Layout {
    Header,
    Display,
    Coloured,
    Copyright,
}

// What is wrong with a body: it is too short; a marker, by its bit; a value, by its field and that one's first bit; its end.
#[derive(Clone, Copy, Debug, PartialEq, Eq)]
pub enum Fault {
    Short,
    Marker(usize),
    Value(JudgedField, usize),
    Stuffing,
}

// Not `const`, which writes a table out at each use.
static HEADER_FIELDS: [Field; 16] = [
    Field(Name::Profile, 8, Rule::Any),
    Field(Name::Level, 8, Rule::Any),
    Field(Name::Progressive, 1, Rule::Any),
    Field(
        Name::HorizontalSize,
        14,
        Rule::Judged(JudgedField::Width, Values::But(0)),
    ),
    Field(
        Name::VerticalSize,
        14,
        Rule::Judged(JudgedField::Height, Values::But(0)),
    ),
    Field(
        Name::ChromaFormat,
        2,
        Rule::Judged(JudgedField::Chroma, Values::Within(1, 2)),
    ),
    Field(
        Name::Precision,
        3,
        Rule::Judged(JudgedField::Precision, Values::Only(1)),
    ),
    Field(
        Name::Aspect,
        4,
        Rule::Judged(JudgedField::Aspect, Values::Within(1, 4)),
    ),
    Field(
        Name::FrameRate,
        4,
        Rule::Judged(JudgedField::Rate, Values::Within(1, 8)),
    ),
    Field(Name::BitRateLow, 18, Rule::Any),
    Field(Name::Marker, 1, Rule::Set),
    Field(Name::BitRateHigh, 12, Rule::Any),
    Field(Name::LowDelay, 1, Rule::Any),
    Field(Name::Marker, 1, Rule::Set),
    Field(Name::BufferSize, 18, Rule::Any),
    Field(Name::Reserved, 3, Rule::Any),
];

static DISPLAY_FIELDS: [Field; 8] = [
    Field(Name::Number, 4, Rule::Any),
    Field(Name::Format, 3, Rule::Any),
    Field(Name::Range, 1, Rule::Any),
    Field(Name::ColourGiven, 1, Rule::Any),
    Field(Name::Width, 14, Rule::Any),
    Field(Name::Marker, 1, Rule::Set),
    Field(Name::Height, 14, Rule::Any),
    Field(
        Name::Stereo,
        2,
        Rule::Judged(JudgedField::Stereo, Values::But(3)),
    ),
];

static COLOURED_FIELDS: [Field; 11] = [
    Field(Name::Number, 4, Rule::Any),
    Field(Name::Format, 3, Rule::Any),
    Field(Name::Range, 1, Rule::Any),
    Field(Name::ColourGiven, 1, Rule::Any),
    Field(Name::Primaries, 8, Rule::Any),
    Field(
        Name::Transfer,
        8,
        Rule::Judged(JudgedField::Transfer, Values::WithinBut(1, 10, 3)),
    ),
    Field(
        Name::Matrix,
        8,
        Rule::Judged(JudgedField::Matrix, Values::WithinBut(1, 7, 3)),
    ),
    Field(Name::Width, 14, Rule::Any),
    Field(Name::Marker, 1, Rule::Set),
    Field(Name::Height, 14, Rule::Any),
    Field(
        Name::Stereo,
        2,
        Rule::Judged(JudgedField::Stereo, Values::But(3)),
    ),
];

static COPYRIGHT_FIELDS: [Field; 11] = [
    Field(Name::Number, 4, Rule::Any),
    Field(Name::Flag, 1, Rule::Any),
    Field(Name::Owner, 8, Rule::Any),
    Field(Name::Original, 1, Rule::Any),
    Field(Name::Reserved, 7, Rule::Any),
    Field(Name::Marker, 1, Rule::Set),
    Field(Name::PartOne, 20, Rule::Any),
    Field(Name::Marker, 1, Rule::Set),
    Field(Name::PartTwo, 22, Rule::Any),
    Field(Name::Marker, 1, Rule::Set),
    Field(Name::PartThree, 22, Rule::Any),
];

// A layout's fields, in order.
#[tactic(auto, unfolding(crate::specs::Layouts::fields))]
pub fn fields(layout: Layout) -> &'static [Field]
    ensures { result.now ≡ fields layout }
{
    match layout {
        Layout::Header => &HEADER_FIELDS,
        Layout::Display => &DISPLAY_FIELDS,
        Layout::Coloured => &COLOURED_FIELDS,
        Layout::Copyright => &COPYRIGHT_FIELDS,
    }
}

// The fewest bytes that hold the fields and the stuffing bit.
#[tactic(auto, unfolding(crate::specs::Layouts::least_bytes))]
fn least_bytes(layout: Layout) -> usize
    ensures { result ≡ least_bytes layout }
{
    match layout {
        Layout::Header => 15,
        Layout::Display => 6,
        Layout::Coloured => 9,
        Layout::Copyright => 12,
    }
}

#[tactic(auto, unfolding(crate::specs::Reader::allows))]
fn allowed(values: Values, v: u32) -> bool
    ensures { result ≡ allows values v }
{
    match values {
        Values::Only(one) => v == one,
        Values::But(one) => v != one,
        Values::Within(least, greatest) => (least..=greatest).contains(&v),
        Values::WithinBut(least, greatest, one) => (least..=greatest).contains(&v) && v != one,
    }
}

// What a field is refused for by its rule, from its value and its first bit.
#[tactic(auto, unfolding(crate::specs::Reader::ruled))]
fn ruled_on(rule: Rule, value: u32, at: usize) -> Result<(), Fault>
    ensures { result ≡ ruled rule value at }
{
    match rule {
        Rule::Set if value != 1 => Err(Fault::Marker(at)),
        Rule::Judged(field, values) if !allowed(values, value) => Err(Fault::Value(field, at)),
        _ => Ok(()),
    }
}

// The field that begins at bit `at`; bits that are not there are Short.
fn read_field(field: Field, body: &[u8], at: usize) -> Result<u32, Fault>
    requires { (at + width_of field ≤ 112) × (width_of field ≤ 32) }
    ensures { result ≡ taken field at (bits_of body.now) }
{
    let Field(_, width, rule) = field;
    let before = Payload {
        bytes: body,
        count: at + width as usize,
    };
    let Ok(value) = before.read(at, width) else {
        return Err(Fault::Short); // never too wide: no field is
    };
    ruled_on(rule, value, at)?;
    Ok(value)
}

// The values of a body's fields, in order, or the first that is ruled out.
fn read_fields(layout: Layout, body: &[u8]) -> Result<[u32; 16], Fault>
    ensures { map_ok (take (length (fields layout))) result ≡ taken_from (fields layout) 0 (bits_of body.now) }
{
    let mut values = [0u32; 16];
    let mut at: usize = 0;
    for (i, field) in fields(layout).iter().enumerate() {
        values[i] = read_field(*field, body, at)?;
        at += field.1 as usize;
    }
    Ok(values)
}

// The rules across a copyright extension's fields.
#[tactic(auto, using(crate::proofs::OwnerLaws::owned_values))]
fn owner_rules(values: &[u32]) -> Result<(), Fault>
    requires { length values.now ≡ 11 }
    ensures { result ≡ owned_by (ownership values.now) }
{
    let (flag, owner) = (values[1], values[2]);
    let numbered = values[6] != 0 || values[8] != 0 || values[10] != 0;
    if flag == 0 && owner != 0 {
        return Err(Fault::Value(JudgedField::CopyrightOwner, 5));
    }
    if owner == 0 && numbered {
        return Err(Fault::Value(JudgedField::CopyrightNumber, 22));
    }
    Ok(())
}

// The rules across fields.
#[tactic(auto, unfolding(crate::specs::Layouts::fields, crate::specs::Reader::cross))]
fn cross_values(layout: Layout, values: &[u32]) -> Result<(), Fault>
    requires { length values.now ≡ length (fields layout) }
    ensures { result ≡ cross layout values.now }
{
    match layout {
        Layout::Header | Layout::Display | Layout::Coloured => Ok(()),
        Layout::Copyright => owner_rules(values),
    }
}

// Whether every byte is 00.
pub fn all_zero(bytes: &[u8]) -> bool
    ensures { result ≡ all_zero bytes.now }
{
    bytes.iter().all(|byte| *byte == 0)
}

// Whether byte k is 80 and every byte after it is 00.
fn is_stuffed(body: &[u8], k: usize) -> bool
    requires { k < length body.now }
    ensures { result ≡ stuffing (drop (k * 8) (bits_of body.now)) }
{
    body[k] == 128 && all_zero(&body[k + 1..])
}

// What a body with these values, each as it may be, is refused for: the rules across its fields, then its end.
fn judge_body(layout: Layout, body: &[u8], values: &[u32]) -> Result<(), Fault>
    requires { (least_bytes layout ≤ length body.now) × (length values.now ≡ length (fields layout)) }
    ensures { result ≡ both (cross layout values.now) (ended layout body.now) }
{
    cross_values(layout, values)?;
    if !is_stuffed(body, least_bytes(layout) - 1) {
        return Err(Fault::Stuffing);
    }
    Ok(())
}

// A body read by its layout: the first values are those of its fields, in order, and no other is a field's. Memory is fixed, so there
// is room for the longest layout.
pub fn read_body(layout: Layout, body: &[u8]) -> Result<[u32; 16], Fault>
    ensures { map_ok (take (length (fields layout))) result ≡ reading layout body.now }
{
    if body.len() < least_bytes(layout) {
        return Err(Fault::Short);
    }
    let values = read_fields(layout, body)?;
    judge_body(layout, body, &values[..fields(layout).len()])?;
    Ok(values)
}
