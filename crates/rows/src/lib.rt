// Rows, three words each: whether a row exists, and its body as a part of the stream.
#![tactic(auto)]

ghost use Rattle.std.specs.Prelude.{◌≡◌, option_map};
ghost use Rattle.rows.specs.Rows.{body_of, existing, row_exists, row_body, body_address};

// Where the body of a row begins in the stream, and its length.
#[derive(Clone, Copy)]
pub struct Body {
    pub start: usize,
    pub length: usize,
}

// The body of row i: the rows hold it, and its body ends within the stream.
pub fn body_at(stream: &[u8], rows: &[u32], i: usize) -> Option<Body>
    ensures { result ≡ option_map body_of (existing stream.now rows.now i) }
{
    let (rows, _) = rows.as_chunks::<3>();
    let [_, offset, length] = *rows.get(i)?;
    let start = offset as usize + 4;
    let length = length as usize;
    if start + length <= stream.len() {
        Some(Body { start, length })
    } else {
        None
    }
}

// Whether row i exists: the rows hold it, and its body ends within the stream.
pub fn row_exists(stream: &[u8], rows: &[u32], i: usize) -> bool
    ensures { result ≡ row_exists stream.now rows.now i }
{
    body_at(stream, rows, i).is_some()
}

// The body of row i, a part of the stream; for no row the empty part at the stream's start.
pub fn row_body<'a>(stream: &'a [u8], rows: &[u32], i: usize) -> &'a [u8]
    ensures body { result.now ≡ row_body stream.now rows.now i }
    ensures address { result.ref_ptr ≡ body_address stream.entry rows.now i }
{
    match body_at(stream, rows, i) {
        Some(body) => &stream[body.start..body.start + body.length],
        None => &stream[..0],
    }
}
