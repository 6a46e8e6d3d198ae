// Passes over the words of a declaration: names, docs, types and paths. A pass reads what stands there and lays its text: it writes the
// bytes, or only counts them.
#![tactic(auto)]

ghost use Rattle.std.specs.Prelude.{◌≡◌, true, ◌+◌, ◌^◌, ◌<◌, length, get_or};
ghost use Rattle.rast.specs.ToString.{Path-to_string};
ghost use Rattle.rast.specs.Indent.{indent};
ghost use Rattle.rast.specs.Doc.{ToDocstringPrefix};
ghost use Rattle.buffer.specs.Laid.{Laid, Fits};
ghost use Rattle.encoding.specs.Words.{borrowed_kind, first_pair};
ghost use Rattle.encoding.specs.Tables.{name_bytes, name_count};
ghost use Rattle.encoding.specs.Tested.{Good};
ghost use Rattle.encoding.specs.HeadWords.{InsidePath};
ghost use Rattle.encoding.specs.Types.{path_of};
ghost use Rattle.text_pass.specs.Passes.{Checked, Ready, Came, Went, Counts};
ghost use Rattle.text_pass.specs.Texts.{visibility_at, name_at, type_text_at, path_text_at, doc_at};

use accepted_types::Spot;
use encoding::words::{BORROWED, EMPTY, FIRST_PAIR, PLAIN_KINDS, PUB, T_IDENTIFIER, VISIBILITIES};
use encoding::{PathAt, Refusal};

// A path that was read, with so many bytes of text.
fn lay_known_path(
    write: bool,
    words: &[u32],
    pairs: &[u32],
    text: &[u8],
    path: PathAt,
    bytes: usize,
    out: &mut [u8],
    pos: usize,
) -> usize
    requires { Checked words.now pairs.now text.now × InsidePath (name_count pairs.now) words.now path
        × (bytes ≡ length (Path-to_string (path_of words.now (name_bytes pairs.now text.now) path)))
        × Fits write out.old pos (Path-to_string (path_of words.now (name_bytes pairs.now text.now) path)) }
    ensures { Laid write out.old pos (Path-to_string (path_of words.now (name_bytes pairs.now text.now) path)) out.new result }
{
    if write {
        return text_leaf::put_path(words, pairs, text, path, out, pos);
    }
    buffer::count_on(pos, bytes)
}

// A doc that is a fixed name: its bytes are put where they can be lent.
fn lay_fixed_doc(
    write: bool,
    pairs: &[u32],
    text: &[u8],
    name: u32,
    level: u32,
    out: &mut [u8],
    pos: usize,
) -> usize
    requires { (name < first_pair) × (name < name_count pairs.now) × Good pairs.now text.now
        × Fits write out.old pos (ToDocstringPrefix (name_bytes pairs.now text.now name) (indent level)) }
    ensures { Laid write out.old pos (ToDocstringPrefix (name_bytes pairs.now text.now name) (indent level)) out.new result }
{
    let mut bytes = [0u8; 16];
    let end = encoding::put_name(pairs, text, name, &mut bytes, 0);
    text_doc::lay_doc(write, &bytes[..end], level, out, pos)
}

// A doc that was read: a name, the empty one for none.
fn lay_known_doc(
    write: bool,
    pairs: &[u32],
    text: &[u8],
    name: u32,
    level: u32,
    out: &mut [u8],
    pos: usize,
) -> usize
    requires { (name < name_count pairs.now) × Good pairs.now text.now
        × Fits write out.old pos (ToDocstringPrefix (name_bytes pairs.now text.now name) (indent level)) }
    ensures { Laid write out.old pos (ToDocstringPrefix (name_bytes pairs.now text.now name) (indent level)) out.new result }
{
    if name == EMPTY {
        return pos;
    }
    if name < FIRST_PAIR {
        return lay_fixed_doc(write, pairs, text, name, level, out, pos);
    }
    text_doc::lay_doc(
        write,
        encoding::pair_bytes(pairs, text, name),
        level,
        out,
        pos,
    )
}

// The name at `at`, counted behind `before` other bytes.
pub fn count_name(
    words: &[u32],
    pairs: &[u32],
    text: &[u8],
    before: usize,
    at: usize,
    pos: usize,
) -> Result<(usize, usize), Refusal>
    requires { Checked words.now pairs.now text.now × (before < 2 ^ 40) }
    ensures { Counts (pos + before) (name_at words.now pairs.now text.now at) result }
{
    let (value, next) = encoding::scan_below(words, encoding::name_count(pairs), at)?;
    Ok((
        next,
        buffer::count_few(pos, before + encoding::name_length(pairs, value)),
    ))
}

// The name at `at`, which was accepted.
pub fn write_name(
    words: &[u32],
    pairs: &[u32],
    text: &[u8],
    at: usize,
    out: &mut [u8],
    pos: usize,
) -> usize
    requires { Checked words.now pairs.now text.now × Ready true out.old pos (name_at words.now pairs.now text.now at) }
    ensures { Came true out.old pos (name_at words.now pairs.now text.now at) out.new (at + 1) result }
{
    encoding::put_name(pairs, text, words[at], out, pos)
}

// The name at `at`.
pub fn lay_name(
    write: bool,
    words: &[u32],
    pairs: &[u32],
    text: &[u8],
    at: usize,
    out: &mut [u8],
    pos: usize,
) -> Result<(usize, usize), Refusal>
    requires { Checked words.now pairs.now text.now × Ready write out.old pos (name_at words.now pairs.now text.now at) }
    ensures { Went write out.old pos (name_at words.now pairs.now text.now at) out.new result }
{
    if write {
        let end = write_name(words, pairs, text, at, out, pos);
        return Ok((at + 1, end));
    }
    count_name(words, pairs, text, 0, at, pos)
}

// The type at `at`, measured.
fn count_type(
    words: &[u32],
    pairs: &[u32],
    text: &[u8],
    at: usize,
    pos: usize,
) -> Result<(usize, usize), Refusal>
    requires { Checked words.now pairs.now text.now }
    ensures { Counts pos (type_text_at words.now pairs.now text.now at) result }
{
    let (next, bytes) = text_measure::measure_type(words, pairs, text, at)?;
    Ok((next, buffer::count_on(pos, bytes)))
}

// The type at `at`.
pub fn lay_type(
    write: bool,
    words: &[u32],
    pairs: &[u32],
    text: &[u8],
    at: usize,
    out: &mut [u8],
    pos: usize,
) -> Result<(usize, usize), Refusal>
    requires { Checked words.now pairs.now text.now × Ready write out.old pos (type_text_at words.now pairs.now text.now at) }
    ensures { Went write out.old pos (type_text_at words.now pairs.now text.now at) out.new result }
{
    if write {
        let spot = text_type::write_type(words, pairs, text, at, out, pos);
        return Ok((spot.next, spot.pos));
    }
    count_type(words, pairs, text, at, pos)
}

// The borrow at `at`, counted. The measuring pass is given the whole of it, since the borrow is one of the 64 levels.
fn count_borrow(
    words: &[u32],
    pairs: &[u32],
    text: &[u8],
    at: usize,
    pos: usize,
) -> Result<(usize, usize), Refusal>
    requires { Checked words.now pairs.now text.now × (at < length words.now) × (get_or words.now at 0 ≡ borrowed_kind) }
    ensures { Counts pos (type_text_at words.now pairs.now text.now at) result }
{
    if words.len() <= at + 1 {
        return Err(Refusal::EndsEarly);
    }
    let w = words[at + 1];
    if w < PLAIN_KINDS {
        return Ok((
            at + 2,
            buffer::count_few(pos, 1 + encoding::primitive_length(w)),
        ));
    }
    if w == T_IDENTIFIER {
        return count_name(words, pairs, text, 1, at + 2, pos);
    }
    count_type(words, pairs, text, at, pos)
}

// The type at `at` of a field, counted: most have a plain type, a name or a borrow of one, for which the measuring pass is not called.
pub fn count_field_type(
    words: &[u32],
    pairs: &[u32],
    text: &[u8],
    at: usize,
    pos: usize,
) -> Result<(usize, usize), Refusal>
    requires { Checked words.now pairs.now text.now }
    ensures { Counts pos (type_text_at words.now pairs.now text.now at) result }
{
    if words.len() <= at {
        return Err(Refusal::EndsEarly);
    }
    let w = words[at];
    if w < PLAIN_KINDS {
        return Ok((
            at + 1,
            buffer::count_few(pos, encoding::primitive_length(w)),
        ));
    }
    if w == T_IDENTIFIER {
        return count_name(words, pairs, text, 0, at + 1, pos);
    }
    if w == BORROWED {
        return count_borrow(words, pairs, text, at, pos);
    }
    count_type(words, pairs, text, at, pos)
}

// The type at `at` behind a borrow, which was accepted as part of it.
// Kept: the spot of the writer of types is taken apart, since handed on whole it goes through memory, which is slower.
fn write_borrow(
    words: &[u32],
    pairs: &[u32],
    text: &[u8],
    at: usize,
    out: &mut [u8],
    pos: usize,
) -> Spot
    requires { Checked words.now pairs.now text.now × Ready true out.old pos (type_text_at words.now pairs.now text.now at) }
    ensures { Came true out.old pos (type_text_at words.now pairs.now text.now at) out.new result.next result.pos }
{
    let w = words[at];
    if w < PLAIN_KINDS {
        return Spot {
            next: at + 1,
            pos: text_leaf::put_plain(w, out, pos),
        };
    }
    if w == T_IDENTIFIER {
        return Spot {
            next: at + 2,
            pos: write_name(words, pairs, text, at + 1, out, pos),
        };
    }
    let spot = text_type::write_type(words, pairs, text, at, out, pos);
    Spot {
        next: spot.next,
        pos: spot.pos,
    }
}

// The type at `at` of a field, which was accepted: for a plain type, a name or a borrow of one, which most are, the writer of types is not called.
// Kept: the twin of `write_borrow`, for what stands behind a borrow. One function for both is slower, since called from two places it is not put in place (docs/DECISIONS.md).
pub fn write_field_type(
    words: &[u32],
    pairs: &[u32],
    text: &[u8],
    at: usize,
    out: &mut [u8],
    pos: usize,
) -> Spot
    requires { Checked words.now pairs.now text.now × Ready true out.old pos (type_text_at words.now pairs.now text.now at) }
    ensures { Came true out.old pos (type_text_at words.now pairs.now text.now at) out.new result.next result.pos }
{
    let w = words[at];
    if w < PLAIN_KINDS {
        return Spot {
            next: at + 1,
            pos: text_leaf::put_plain(w, out, pos),
        };
    }
    if w == T_IDENTIFIER {
        return Spot {
            next: at + 2,
            pos: write_name(words, pairs, text, at + 1, out, pos),
        };
    }
    if w == BORROWED {
        let p = buffer::put(b"&", out, pos);
        return write_borrow(words, pairs, text, at + 1, out, p);
    }
    let spot = text_type::write_type(words, pairs, text, at, out, pos);
    Spot {
        next: spot.next,
        pos: spot.pos,
    }
}

// The path at `at`.
pub fn lay_path(
    write: bool,
    words: &[u32],
    pairs: &[u32],
    text: &[u8],
    at: usize,
    out: &mut [u8],
    pos: usize,
) -> Result<(usize, usize), Refusal>
    requires { Checked words.now pairs.now text.now × Ready write out.old pos (path_text_at words.now pairs.now text.now at) }
    ensures { Went write out.old pos (path_text_at words.now pairs.now text.now at) out.new result }
{
    let (path, next, bytes) = text_measure::measure_path(words, pairs, text, at)?;
    Ok((
        next,
        lay_known_path(write, words, pairs, text, path, bytes, out, pos),
    ))
}

// A visibility, counted.
pub fn count_visibility(words: &[u32], at: usize, pos: usize) -> Result<(usize, usize), Refusal>
    ensures { Counts pos (visibility_at words.now at) result }
{
    let (value, next) = encoding::scan_below(words, VISIBILITIES, at)?;
    if value != PUB {
        return Ok((next, pos));
    }
    Ok((next, buffer::count_few(pos, 4)))
}

// A visibility that was accepted.
pub fn write_visibility(words: &[u32], at: usize, out: &mut [u8], pos: usize) -> usize
    requires { Ready true out.old pos (visibility_at words.now at) }
    ensures { Came true out.old pos (visibility_at words.now at) out.new (at + 1) result }
{
    if words[at] != PUB {
        return pos;
    }
    buffer::put(b"pub ", out, pos)
}

// A visibility.
pub fn lay_visibility(
    write: bool,
    words: &[u32],
    at: usize,
    out: &mut [u8],
    pos: usize,
) -> Result<(usize, usize), Refusal>
    requires { Ready write out.old pos (visibility_at words.now at) }
    ensures { Went write out.old pos (visibility_at words.now at) out.new result }
{
    if write {
        let end = write_visibility(words, at, out, pos);
        return Ok((at + 1, end));
    }
    count_visibility(words, at, pos)
}

// The doc comment at `at`, counted. Nothing is written, so the buffer that is lent has no room.
pub fn count_doc(
    words: &[u32],
    pairs: &[u32],
    text: &[u8],
    level: u32,
    at: usize,
    pos: usize,
) -> Result<(usize, usize), Refusal>
    requires { Checked words.now pairs.now text.now }
    ensures { Counts pos (doc_at words.now pairs.now text.now level at) result }
{
    let (value, next) = encoding::scan_below(words, encoding::name_count(pairs), at)?;
    let mut none = [0u8; 0];
    Ok((
        next,
        lay_known_doc(false, pairs, text, value, level, &mut none, pos),
    ))
}

// The doc comment at `at`, which was accepted.
pub fn write_doc(
    words: &[u32],
    pairs: &[u32],
    text: &[u8],
    level: u32,
    at: usize,
    out: &mut [u8],
    pos: usize,
) -> usize
    requires { Checked words.now pairs.now text.now × Ready true out.old pos (doc_at words.now pairs.now text.now level at) }
    ensures { Came true out.old pos (doc_at words.now pairs.now text.now level at) out.new (at + 1) result }
{
    lay_known_doc(true, pairs, text, words[at], level, out, pos)
}

// The doc comment at `at`.
pub fn lay_doc(
    write: bool,
    words: &[u32],
    pairs: &[u32],
    text: &[u8],
    level: u32,
    at: usize,
    out: &mut [u8],
    pos: usize,
) -> Result<(usize, usize), Refusal>
    requires { Checked words.now pairs.now text.now × Ready write out.old pos (doc_at words.now pairs.now text.now level at) }
    ensures { Went write out.old pos (doc_at words.now pairs.now text.now level at) out.new result }
{
    if write {
        let end = write_doc(words, pairs, text, level, at, out, pos);
        return Ok((at + 1, end));
    }
    count_doc(words, pairs, text, level, at, pos)
}
