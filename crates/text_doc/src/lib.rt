// Doc comments: `ConvertDocstring` on bytes. One pass writes the text, or only counts it.
#![tactic(auto)]

ghost use Rattle.std.specs.Prelude.{◌≡◌, None, true, false, [], ◌∷◌, ◌++◌, ◌+◌, ◌^◌, ◌≤◌, ◌<◌, leb, length, take, drop, get_or};
ghost use Rattle.rast.specs.Bytes.{ascii, ◌and◌, ◌or◌, same, begins};
ghost use Rattle.rast.specs.Indent.{indent};
ghost use Rattle.rast.specs.Doc.{ConvertDocstring, ToDocstringPrefix};
ghost use Rattle.buffer.specs.Laid.{Laid, Fits};
ghost use Rattle.buffer.specs.Wrote.{Wrote};
ghost use Rattle.text_doc.specs.Steps.{run_of, line_length, Passed, Nearest, Fence, NoFence, Stays, Changes, copied, piece_text, Splits, copy_step};

// Where the conversion stands: at a byte, at a line's start or not, and in code (behind a fence of `fence` backticks) or not (0).
// Kept: an `Option` for 0 is no plainer: it lets a fence of no backticks through, which the contracts of the steps would then have to rule out.
#[derive(Clone, Copy, Debug, PartialEq, Eq)]
struct Cursor {
    at: usize,
    started: bool,
    fence: usize,
}

// What is laid next: a new line, the mark for four spaces, a fence that gains a name, or bytes as they stand.
#[derive(Clone, Copy, Debug, PartialEq, Eq)]
enum DocPiece {
    Newline,
    Bar,
    Unnamed(usize),
    Copied(usize),
}

// A piece, and where the conversion goes on behind it.
#[derive(Clone, Copy, Debug, PartialEq, Eq)]
struct Step {
    piece: DocPiece,
    next: Cursor,
}

// ---- what stands in the doc

fn stands(doc: &[u8], at: usize, byte: u8) -> bool
    ensures { result ≡ begins (byte ∷ []) (drop at doc.now) }
{
    if at < doc.len() {
        return doc[at] == byte;
    }
    false
}

// A space or a newline.
fn is_blank(doc: &[u8], at: usize) -> bool
    ensures { result ≡ (begins (ascii " ") (drop at doc.now) or begins (ascii "\n") (drop at doc.now)) }
{
    if stands(doc, at, b' ') {
        return true;
    }
    stands(doc, at, b'\n')
}

// `rs`, and a space or a newline behind it.
fn is_rust(doc: &[u8], at: usize) -> bool
    requires { at ≤ length doc.now }
    ensures { result ≡ (leb 3 (length (drop at doc.now)) and same (take 2 (drop at doc.now)) (ascii "rs")
        and (begins (ascii " ") (drop 2 (drop at doc.now)) or begins (ascii "\n") (drop 2 (drop at doc.now)))) }
{
    if doc.len() - at < 3 {
        return false;
    }
    if doc[at] != b'r' {
        return false;
    }
    if doc[at + 1] != b's' {
        return false;
    }
    is_blank(doc, at + 2)
}

// How many times `byte` stands from `at` on. For backticks this is `GatherSimpleQuotes`: the length of a fence.
// Kept: a loop that yields the length by `break`, the form that document 01 binds for the scan over backticks (docs/DECISIONS.md).
fn run(doc: &[u8], at: usize, byte: u8) -> usize
    requires { at ≤ length doc.now }
    ensures { (result ≡ run_of byte (drop at doc.now)) × (at + result ≤ length doc.now) }
{
    let mut i = at;
    let count = loop {
        if !stands(doc, i, byte) {
            break i - at;
        }
        i += 1;
    };
    count
}

// A newline stands among the next `count` bytes. The loop has no early exit, so that it compiles to wide compares.
fn newline_among(doc: &[u8], at: usize, count: usize) -> bool
    requires { at + count ≤ length doc.now }
    ensures { result ≡ false → Passed doc.now at (at + count) }
{
    let mut found = false;
    for byte in &doc[at..at + count] {
        found |= *byte == b'\n';
    }
    found
}

// Past the blocks of `size` bytes from `at` on that have no newline.
// Kept: a turn of `while` passes a block; `chunks_exact` is no plainer, since the place behind the block is counted beside it all the same.
fn skip_blocks(doc: &[u8], at: usize, size: usize) -> usize
    requires { (at ≤ length doc.now) × (0 < size) }
    ensures { Passed doc.now at result }
{
    let mut i = at;
    while size <= doc.len() - i {
        if newline_among(doc, i, size) {
            return i;
        }
        i += size;
    }
    i
}

// Past what has no newline where few bytes are left: blocks of 16, the last of which may overlap the one before. For fewer than 16 bytes wide compares do not pay.
fn skip_last(doc: &[u8], at: usize) -> usize
    requires { at ≤ length doc.now }
    ensures { Passed doc.now at result }
{
    if doc.len() - at < 16 {
        return at;
    }
    let i = skip_blocks(doc, at, 16);
    if 16 <= doc.len() - i {
        return i;
    }
    if newline_among(doc, doc.len() - 16, 16) {
        return i;
    }
    doc.len()
}

// The first newline from `at` on, or the end.
fn newline_from(doc: &[u8], at: usize) -> usize
    requires { at ≤ length doc.now }
    ensures { Passed doc.now at result × (result < length doc.now → get_or doc.now result 0 ≡ 10) }
{
    for i in at..doc.len() {
        if doc[i] == b'\n' {
            return i;
        }
    }
    doc.len()
}

// The place `i`, if a newline stands there, else 255.
// Kept: an `Option` for 255 was tried, and is slower: rustc -O makes wide compares of 64 such bytes, and none of 64 such options.
fn newline_place(i: u8, byte: u8) -> u8
    ensures { (byte ≡ 10 → result ≡ i) × ((byte ≡ 10 → ⊥) → result ≡ 255) }
{
    if byte == b'\n' {
        return i;
    }
    255
}

// How many of the next 64 bytes stand before the first newline, 255 if there is none. The least place of a newline is found by wide compares too, and costs
// no jump that is hard to foresee.
fn near_length(doc: &[u8], at: usize) -> usize
    requires { at + 64 ≤ length doc.now }
    ensures { Nearest doc.now at 64 result }
{
    let mut found: u8 = 255;
    for i in 0..64u8 {
        found = found.min(newline_place(i, doc[at + i as usize]));
    }
    found as usize
}

// How many bytes stand from `at` on before the next newline. Most lines end within 64 bytes; in a longer one whole blocks are skipped.
fn line_length(doc: &[u8], at: usize) -> usize
    requires { at ≤ length doc.now }
    ensures { (result ≡ line_length (drop at doc.now)) × (at + result ≤ length doc.now) }
{
    if doc.len() - at < 64 {
        return newline_from(doc, skip_last(doc, at)) - at;
    }
    let found = near_length(doc, at);
    if found != 255 {
        return found;
    }
    let i = skip_blocks(doc, at + 64, 64);
    newline_from(doc, i) - at
}

// ---- one step

// `count` bytes as they stand.
fn copy_step(at: usize, count: usize, started: bool, fence: usize) -> Step
    requires { at + count < 2 ^ 64 }
    ensures { result ≡ copy_step count (at + count) started fence }
{
    Step {
        piece: DocPiece::Copied(count),
        next: Cursor {
            at: at + count,
            started,
            fence,
        },
    }
}

// Spaces at a line's start. Outside code four of them become `|   `, unless they end the doc.
fn space_step(doc: &[u8], at: usize, fence: usize) -> Step
    requires { (at < length doc.now) × (get_or doc.now at 0 ≡ 32) }
    ensures { Splits doc.now at true fence result }
{
    let count = run(doc, at, b' ');
    if fence != 0 {
        return copy_step(at, count, true, fence);
    }
    if count < 4 {
        return copy_step(at, count, true, fence);
    }
    if doc.len() - at <= 4 {
        return copy_step(at, count, true, fence);
    }
    Step {
        piece: DocPiece::Bar,
        next: Cursor {
            at: at + 4,
            started: false,
            fence: 0,
        },
    }
}

// A fence of `count` backticks that opens code.
fn open_step(doc: &[u8], at: usize, count: usize) -> Step
    requires { (3 ≤ count) × (count ≡ run_of 96 (drop at doc.now)) × (at + count ≤ length doc.now) }
    ensures { Splits doc.now at true 0 result }
{
    let end = at + count;
    let next = Cursor {
        at: end,
        started: false,
        fence: count,
    };
    if end == doc.len() {
        return Step {
            piece: DocPiece::Unnamed(count),
            next,
        };
    }
    if is_blank(doc, end) {
        return Step {
            piece: DocPiece::Unnamed(count),
            next,
        };
    }
    if is_rust(doc, end) {
        return Step {
            piece: DocPiece::Copied(count),
            next: Cursor {
                at: end + 2,
                started: false,
                fence: count,
            },
        };
    }
    copy_step(at, count, false, count)
}

// Whether `count` backticks at a line's start are a fence: outside code one that opens it, in code the one that ends it.
fn is_fence(count: usize, fence: usize) -> bool
    ensures { (result ≡ true → Fence count fence) × (result ≡ false → NoFence count fence) }
{
    if fence == 0 {
        return 3 <= count;
    }
    fence <= count
}

// Whether the line stays from `at` on, where there is no newline: only spaces and a fence at its start are changed.
fn stays(doc: &[u8], at: usize, started: bool, fence: usize) -> bool
    requires { at < length doc.now }
    ensures { (result ≡ true → Stays doc.now at started fence) × (result ≡ false → Changes doc.now at started fence) }
{
    if !started {
        return true;
    }
    if doc[at] == b' ' {
        return false;
    }
    !is_fence(run(doc, at, b'`'), fence)
}

// A fence at a line's start.
fn fence_step(doc: &[u8], at: usize, fence: usize) -> Step
    requires { (at < length doc.now) × Fence (run_of 96 (drop at doc.now)) fence }
    ensures { Splits doc.now at true fence result }
{
    if fence == 0 {
        return open_step(doc, at, run(doc, at, b'`'));
    }
    copy_step(at, fence, false, 0)
}

// The step at a line's start where the line does not stay.
fn start_step(doc: &[u8], at: usize, fence: usize) -> Step
    requires { (at < length doc.now) × Changes doc.now at true fence }
    ensures { Splits doc.now at true fence result }
{
    if doc[at] == b' ' {
        return space_step(doc, at, fence);
    }
    fence_step(doc, at, fence)
}

fn step_at(doc: &[u8], place: Cursor) -> Step
    requires { place.at < length doc.now }
    ensures { Splits doc.now place.at place.started place.fence result }
{
    let at = place.at;
    let fence = place.fence;
    if doc[at] == b'\n' {
        return Step {
            piece: DocPiece::Newline,
            next: Cursor {
                at: at + 1,
                started: true,
                fence,
            },
        };
    }
    if stays(doc, at, place.started, fence) {
        return copy_step(at, line_length(doc, at), false, fence);
    }
    start_step(doc, at, fence)
}

// ---- laying it

// A newline, and the indent of `level`, where there is room for them.
pub fn put_line(level: u32, out: &mut [u8], pos: usize) -> usize
    requires { pos + length (ascii "\n" ++ indent level) ≤ length out.old }
    ensures { Wrote out.old pos (ascii "\n" ++ indent level) out.new result }
{
    let next = buffer::put(b"\n", out, pos);
    buffer::put_spaces(4 * level as usize, out, next)
}

// The same, written or counted.
pub fn lay_line(write: bool, level: u32, out: &mut [u8], pos: usize) -> usize
    requires { Fits write out.old pos (ascii "\n" ++ indent level) }
    ensures { Laid write out.old pos (ascii "\n" ++ indent level) out.new result }
{
    if write {
        return put_line(level, out, pos);
    }
    buffer::count_few(pos, 1 + 4 * level as usize)
}

fn lay_piece(
    write: bool,
    doc: &[u8],
    level: u32,
    at: usize,
    piece: DocPiece,
    out: &mut [u8],
    pos: usize,
) -> usize
    requires { (at + copied piece ≤ length doc.now) × Fits write out.old pos (piece_text (indent level) (drop at doc.now) piece) }
    ensures { Laid write out.old pos (piece_text (indent level) (drop at doc.now) piece) out.new result }
{
    match piece {
        DocPiece::Newline => {
            let next = lay_line(write, level, out, pos);
            buffer::lay(write, b"/// ", out, next)
        }
        DocPiece::Bar => buffer::lay(write, b"|   ", out, pos),
        DocPiece::Unnamed(count) => {
            let next = buffer::lay_part(write, doc, at, count, out, pos);
            buffer::lay(write, b"dafny", out, next)
        }
        DocPiece::Copied(count) => buffer::lay_part(write, doc, at, count, out, pos),
    }
}

// `ConvertDocstring`, with its two default arguments.
// Kept: a turn of `while` takes as many bytes as its step says; no range or iterator has that.
fn lay_converted(write: bool, doc: &[u8], level: u32, out: &mut [u8], pos: usize) -> usize
    requires { Fits write out.old pos (ConvertDocstring doc.now (indent level) true None) }
    ensures { Laid write out.old pos (ConvertDocstring doc.now (indent level) true None) out.new result }
{
    let mut place = Cursor {
        at: 0,
        started: true,
        fence: 0,
    };
    let mut next = pos;
    while place.at < doc.len() {
        let at = place.at;
        let step = step_at(doc, place);
        let piece = step.piece;
        next = lay_piece(write, doc, level, at, piece, out, next);
        place = step.next;
    }
    next
}

// A doc comment at `level`: `ToDocstringPrefix`.
pub fn lay_doc(write: bool, doc: &[u8], level: u32, out: &mut [u8], pos: usize) -> usize
    requires { Fits write out.old pos (ToDocstringPrefix doc.now (indent level)) }
    ensures { Laid write out.old pos (ToDocstringPrefix doc.now (indent level)) out.new result }
{
    if doc.len() == 0 {
        return pos;
    }
    let start = buffer::lay(write, b"/// ", out, pos);
    let end = lay_converted(write, doc, level, out, start);
    lay_line(write, level, out, end)
}
